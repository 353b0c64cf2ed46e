//! The rows that an UPDATE wants.

ghost use Rattle.std.specs.Prelude.{◌≡◌, ◌||◌, false};
ghost use Rattle.cr_bags.specs.Bags.{each};
ghost use Rattle.cr_query.specs.Writes as writes;
ghost use Rattle.cr_meaning.specs.View as view;
ghost use Rattle.cr_exec.specs.Answers.{Answers};
ghost use Rattle.cr_exec.specs.Streamed.{Selects, is_store};
ghost use Rattle.cr_wanted.specs.Rows.{assigned_by, updated_by};

use crate::exprs::{exprs_of, places_of};
use crate::put::put_all;
use cr_exec::push::push;
use cr_exec::streamed::SourceFault;
use cr_exec::terms::{all_true, with_quiet_first};
use cr_exec::value::{Scope, values_in};
use cr_expr::given::Hosted;
use cr_host::functions::Functions;
use cr_lattice::table::{ColumnDef, Items, Row};
use cr_module::rows::row_at;
use cr_module::source::Source;
use cr_scalar::fault::EvalFault;
use cr_term::expr::Expr;
use cr_term::query::Update;
use cr_value::value::Value;
use std::alloc::Global;

// On which rows columns take values, and which: the column at each place takes that of the expression beside it.
#[derive(Drop)]
struct Assigning<'a> {
    columns: &'a [ColumnDef],
    terms: &'a [&'a Expr],
    places: &'a [usize],
    exprs: &'a [&'a Expr],
}

// A row with the values of the expressions over it at their places.
fn assigned<F: Functions>(
    alloc: Global,
    assigning: &Assigning<'_>,
    row: Row,
    functions: &F,
    params: &[Value],
) -> Result<Row, EvalFault>
    requires { F.is_faithful functions.now }
    ensures { Answers (⟦<F as Hosted>⟧.means functions.now) params.now result (λ r. r)
        (λ m. assigned_by m assigning.now.columns.now assigning.now.places.now assigning.now.exprs.now row) }
{
    let values = values_in(
        alloc,
        assigning.exprs,
        Scope::Row(row.as_slice()),
        functions,
        params,
    )?;
    let mut new = row.into_vec();
    put_all(
        alloc,
        assigning.columns,
        assigning.places,
        values.as_slice(),
        &mut new,
    )?;
    Ok(Items::new(new))
}

// The same where all terms are true on the row; any other stays.
fn updated<F: Functions>(
    alloc: Global,
    assigning: &Assigning<'_>,
    row: Row,
    functions: &F,
    params: &[Value],
) -> Result<Row, EvalFault>
    requires { F.is_faithful functions.now }
    ensures { Answers (⟦<F as Hosted>⟧.means functions.now) params.now result (λ r. r)
        (λ m. updated_by m assigning.now.columns.now assigning.now.terms.now assigning.now.places.now assigning.now.exprs.now row) }
{
    let is_meant = all_true(alloc, assigning.terms, row.as_slice(), functions, params)?;
    if is_meant {
        return assigned(alloc, assigning, row, functions, params);
    }
    Ok(row)
}

// The same of each row of a source's table, of which one is held at a time.
fn updated_each<F: Functions, S: Source>(
    alloc: Global,
    assigning: &Assigning<'_>,
    source: &mut S,
    table: usize,
    functions: &F,
    params: &[Value],
) -> Result<Vec<Row>, SourceFault>
    requires { F.is_faithful functions.now }
    ensures rows { S.rows_of source.new ≡ S.rows_of source.old }
    ensures failed { S.has_failed source.new ≡ S.has_failed source.old || is_store result }
    ensures updates { Selects (⟦<F as Hosted>⟧.means functions.now) params.now result (λ v. v.items)
        (λ m. each (updated_by m assigning.now.columns.now assigning.now.terms.now assigning.now.places.now assigning.now.exprs.now)
        (S.rows_of source.old table)) }
{
    let mut out = Vec::new(alloc);
    let mut cursor = source.filter(alloc, table)?;
    while !source.eof(&cursor) {
        let row = row_at(alloc, source, &cursor)?;
        let new = updated(alloc, assigning, row, functions, params)?;
        push(&mut out, new)?;
        source.next(alloc, &mut cursor)?;
    }
    Ok(out)
}

/// The rows that an UPDATE wants of a source's table of a number: of a row on which its terms are true, each assigned column
/// takes the value of its expression over the row before, as its affinity wants it. Any other row stays. Beside the rows that
/// are wanted one row is held at a time.
///
/// # Errors
/// `Eval`: the fault of an expression, where there are no such rows whatever values stand for other faults; `TooBig` the same
/// with the limit of 1,000,000 bytes; `Memory`. `Store` where the source fails; then nothing is said of the rows.
pub fn wanted_by_update<F: Functions, S: Source>(
    alloc: Global,
    columns: &[ColumnDef],
    update: &Update,
    source: &mut S,
    table: usize,
    functions: &F,
    params: &[Value],
) -> Result<Vec<Row>, SourceFault>
    requires faithful { F.is_faithful functions.now }
    requires not_failed { S.has_failed source.old ≡ false }
    ensures wanted { Selects (⟦<F as Hosted>⟧.means functions.now) params.now result (λ v. v.items)
        (λ m. writes.wanted_by_update m columns.now (view.update update.now) (S.rows_of source.old table)) }
    ensures store { S.has_failed source.new ≡ is_store result }
    ensures rows { S.rows_of source.new ≡ S.rows_of source.old }
{
    let terms = with_quiet_first(alloc, update.filter.as_slice())?;
    let places = places_of(alloc, update.assignments.as_slice())?;
    let exprs = exprs_of(alloc, update.assignments.as_slice())?;
    let assigning = Assigning {
        columns,
        terms: terms.as_slice(),
        places: places.as_slice(),
        exprs: exprs.as_slice(),
    };
    updated_each(alloc, &assigning, source, table, functions, params)
}
