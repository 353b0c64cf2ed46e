//! The aggregates of a query, one beside another.

ghost use Rattle.std.specs.Prelude.{◌≡◌, [], List, map, IfOk};
ghost use Rattle.std.specs.List.{AllZip};
ghost use Rattle.std.specs.Option.{ForSome};
ghost use Rattle.cr_value.specs.declared.value.Value.{Value};
ghost use Rattle.cr_tally.specs.Tallies.{Step, TellAll, Worth};

use crate::show::Call;
use crate::tally::Tally;
use cr_expr::given::Hosted;
use cr_host::functions::Functions;
use cr_lattice::table::{Items, Row};
use cr_value::value::Value;
use std::alloc::{AllocError, Global};

/// What aggregates give of no rows; `None` where one is none that SQLite has, or an aggregate stands in an argument.
pub fn tallies_of<'q, F: Functions>(
    alloc: Global,
    functions: &F,
    calls: &[Call<'q>],
) -> Result<Option<Vec<Tally<'q>>>, AllocError>
    requires { F.is_faithful functions.now }
    ensures { IfOk result (λ o. ForSome o (λ v. (map (λ t. t.call) v.items ≡ calls.now) × ((params : List Value) → TellAll (⟦<F as Hosted>⟧.means functions.now) params [] v.items))) }
{
    let mut out = Vec::new(alloc);
    for call in calls {
        let Some(tally) = Tally::new(alloc, functions, *call)? else {
            return Ok(None);
        };
        out.push(tally)?;
    }
    Ok(Some(out))
}

/// Each with more rows behind those that were seen so far; `None` where one cannot be told so: an argument or an aggregate has a fault.
pub fn with_rows<'q, F: Functions>(
    alloc: Global,
    functions: &F,
    tallies: Vec<Tally<'q>>,
    rows: &[Row],
    params: &[Value],
) -> Result<Option<Vec<Tally<'q>>>, AllocError>
    requires { F.is_faithful functions.now }
    ensures { IfOk result (λ o. ForSome o (λ v. AllZip (Step (⟦<F as Hosted>⟧.means functions.now) params.now rows.now) tallies.entry.items v.items)) }
{
    let mut out = Vec::new(alloc);
    for tally in tallies {
        let Some(next) = tally.with(alloc, functions, rows, params)? else {
            return Ok(None);
        };
        out.push(next)?;
    }
    Ok(Some(out))
}

/// What each gives of the rows that were seen; `None` where that is over the limit of 1,000,000 bytes.
pub fn values_of(alloc: Global, tallies: Vec<Tally<'_>>) -> Result<Option<Row>, AllocError>
    ensures { IfOk result (λ o. ForSome o (λ row. AllZip Worth tallies.entry.items row)) }
{
    let mut values = Vec::new(alloc);
    for tally in tallies {
        let Some(value) = tally.into_value() else {
            return Ok(None);
        };
        values.push(value)?;
    }
    Ok(Some(Items::new(values)))
}
