//! What is read of a module by constraints.

ghost use Rattle.std.specs.Prelude.{◌≡◌, IfOk};
ghost use Rattle.cr_module.specs.Lawful.{AreWide};
ghost use Rattle.cr_plan.specs.Offers.{IsReadBy, argument_of, arguments, constraints};

use crate::offer::Offer;
use cr_lattice::table::{Items, Row};
use cr_module::module::Module;
use cr_module::plan::{Argument, Choice, Constraint, Order};
use cr_module::reading::read_all;
use cr_value::value::Value;
use std::alloc::{AllocError, Global};

// The constraints of offers.
fn constraints(alloc: Global, offers: &[Offer]) -> Result<Vec<Constraint>, AllocError>
    ensures { IfOk result (λ v. v.items ≡ constraints offers.now) }
{
    let mut constraints = Vec::new(alloc);
    for offer in offers {
        constraints.push(offer.constraint)?;
    }
    Ok(constraints)
}

// The argument of a constraint that was chosen; NULL where none has this place.
fn argument_of(alloc: Global, offers: &[Offer], argument: &Argument) -> Result<Value, AllocError>
    ensures { IfOk result (λ v. v ≡ argument_of offers.now argument.now) }
{
    match offers.get(argument.constraint) {
        Some(offer) => offer.argument.copy(alloc),
        None => Ok(Value::Null),
    }
}

// The arguments of the constraints that were chosen, in the order of the choice.
fn arguments(alloc: Global, choice: &Choice, offers: &[Offer]) -> Result<Vec<Value>, AllocError>
    ensures { IfOk result (λ v. v.items ≡ arguments choice.now offers.now) }
{
    let mut values = Vec::new(alloc);
    for argument in choice.args.as_slice() {
        values.push(argument_of(alloc, offers, argument)?)?;
    }
    Ok(values)
}

/// What a module gives where these constraints and this order are offered, each row with a value for each column, as all its
/// rows have: it chooses among the constraints, gets the arguments of those that it chose, in the order of its choice, and is
/// read to its end.
///
/// # Errors
/// Want of memory, of the module or for the rows.
pub fn rows_for<M: Module>(
    alloc: Global,
    listed: &M,
    offers: &[Offer],
    orders: &[Order],
) -> Result<Items<Row>, AllocError>
    ensures read { IfOk result (IsReadBy (M.best listed.now) (M.rows_of listed.now) offers.now orders.now) }
    ensures wide { IfOk result (AreWide (M.columns_of listed.now)) }
    ensures all_wide { IfOk result (λ _. AreWide (M.columns_of listed.now) (M.rows_of listed.now)) }
{
    let constraints = constraints(alloc, offers)?;
    let choice = listed.best_index(alloc, &constraints, orders)?;
    let arguments = arguments(alloc, &choice, offers)?;
    let cursor = listed.filter(alloc, choice.index, &arguments)?;
    read_all(alloc, listed, cursor)
}
