//! The rows that an INSERT brings.

ghost use Rattle.std.specs.Prelude.{◌≡◌, [], map, if◌then◌else◌};
ghost use Rattle.cr_bags.specs.Bags.{each};
ghost use Rattle.cr_query.specs.Writes as writes;
ghost use Rattle.cr_meaning.specs.View as view;
ghost use Rattle.cr_exec.specs.Answers.{Answers};

use crate::exprs::there_of;
use crate::put::{defaults, put_all};
use cr_exec::push::push;
use cr_exec::value::{Scope, values_in};
use cr_expr::given::Hosted;
use cr_host::functions::Functions;
use cr_lattice::table::{ColumnDef, Items, Row};
use cr_scalar::fault::EvalFault;
use cr_term::expr::Expr;
use cr_term::query::Insert;
use cr_value::value::Value;
use sqlite_items::Items as Listed;
use std::alloc::Global;

// The row of one tuple.
fn inserted<F: Functions>(
    alloc: Global,
    columns: &[ColumnDef],
    places: &[usize],
    tuple: &[Expr],
    functions: &F,
    params: &[Value],
) -> Result<Row, EvalFault>
    requires { F.is_faithful functions.now }
    ensures { Answers (⟦<F as Hosted>⟧.means functions.now) params.now result (λ r. r) (λ m. writes.inserted m columns.now places.now (map view.plain tuple.now)) }
{
    let exprs = there_of(alloc, tuple)?;
    let values = values_in(alloc, exprs.as_slice(), Scope::Row(&[]), functions, params)?;
    let mut row = defaults(alloc, columns)?;
    put_all(alloc, columns, places, values.as_slice(), &mut row)?;
    Ok(Items::new(row))
}

// The row of each tuple.
fn inserted_each<F: Functions>(
    alloc: Global,
    columns: &[ColumnDef],
    places: &[usize],
    tuples: &[Listed<Expr>],
    functions: &F,
    params: &[Value],
) -> Result<Vec<Row>, EvalFault>
    requires { F.is_faithful functions.now }
    ensures { Answers (⟦<F as Hosted>⟧.means functions.now) params.now result (λ v. v.items) (λ m. each (λ t. writes.inserted m columns.now places.now (map view.plain t)) tuples.now) }
{
    let mut out = Vec::new(alloc);
    for tuple in tuples {
        let row = inserted(alloc, columns, places, tuple.as_slice(), functions, params)?;
        push(&mut out, row)?;
    }
    Ok(out)
}

// The tuples that are evaluated; an ignored INSERT evaluates none.
fn tuples_of(insert: &Insert) -> &[Listed<Expr>]
    ensures { result.now ≡ (if insert.now.is_ignored then [] else insert.now.rows) }
{
    if insert.is_ignored {
        &[]
    } else {
        insert.rows.as_slice()
    }
}

/// The rows of VALUES: each column has the value of its expression, as its affinity wants it, or its default. An ignored
/// INSERT brings none, and evaluates nothing.
///
/// # Errors
/// The fault of an expression, where there are no such rows whatever values stand for other faults; `TooBig` the same with
/// the limit of 1,000,000 bytes; `Memory`.
pub fn inserted_rows<F: Functions>(
    alloc: Global,
    columns: &[ColumnDef],
    insert: &Insert,
    functions: &F,
    params: &[Value],
) -> Result<Vec<Row>, EvalFault>
    requires { F.is_faithful functions.now }
    ensures { Answers (⟦<F as Hosted>⟧.means functions.now) params.now result (λ v. v.items) (λ m. writes.inserted_rows m columns.now (view.insert insert.now)) }
{
    let places = insert.columns.as_slice();
    let tuples = tuples_of(insert);
    inserted_each(alloc, columns, places, tuples, functions, params)
}
