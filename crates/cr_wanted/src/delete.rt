//! The rows that a DELETE leaves.

ghost use Rattle.std.specs.Prelude.{◌≡◌, ◌||◌, false};
ghost use Rattle.cr_bags.specs.Bags.{gather};
ghost use Rattle.cr_query.specs.Writes as writes;
ghost use Rattle.cr_meaning.specs.View as view;
ghost use Rattle.cr_exec.specs.Answers.{Adds};
ghost use Rattle.cr_exec.specs.Streamed.{Selects, is_store};
ghost use Rattle.cr_wanted.specs.Rows.{kept_by};

use cr_exec::push::push;
use cr_exec::streamed::SourceFault;
use cr_exec::terms::{all_true, with_quiet_first};
use cr_expr::given::Hosted;
use cr_host::functions::Functions;
use cr_lattice::table::Row;
use cr_module::rows::row_at;
use cr_module::source::Source;
use cr_scalar::fault::EvalFault;
use cr_term::expr::Expr;
use cr_term::query::Delete;
use cr_value::value::Value;
use std::alloc::Global;

// Puts a row behind others, unless all terms are true on it.
fn keep<F: Functions>(
    alloc: Global,
    out: &mut Vec<Row>,
    terms: &[&Expr],
    row: Row,
    functions: &F,
    params: &[Value],
) -> Result<(), EvalFault>
    requires { F.is_faithful functions.now }
    ensures { Adds (⟦<F as Hosted>⟧.means functions.now) params.now (λ m. kept_by m terms.now row) out.old.items out.new.items result }
{
    let is_meant = all_true(alloc, terms, row.as_slice(), functions, params)?;
    if is_meant {
        return Ok(());
    }
    push(out, row)?;
    Ok(())
}

// The rows of a source's table on which not all terms are true. Beside them one row is held at a time.
fn kept_each<F: Functions, S: Source>(
    alloc: Global,
    terms: &[&Expr],
    source: &mut S,
    table: usize,
    functions: &F,
    params: &[Value],
) -> Result<Vec<Row>, SourceFault>
    requires { F.is_faithful functions.now }
    ensures rows { S.rows_of source.new ≡ S.rows_of source.old }
    ensures failed { S.has_failed source.new ≡ S.has_failed source.old || is_store result }
    ensures keeps { Selects (⟦<F as Hosted>⟧.means functions.now) params.now result (λ v. v.items)
        (λ m. gather (kept_by m terms.now) (S.rows_of source.old table)) }
{
    let mut out = Vec::new(alloc);
    let mut cursor = source.filter(alloc, table)?;
    while !source.eof(&cursor) {
        let row = row_at(alloc, source, &cursor)?;
        keep(alloc, &mut out, terms, row, functions, params)?;
        source.next(alloc, &mut cursor)?;
    }
    Ok(out)
}

/// The rows that a DELETE wants of a source's table of a number: those on which not all of its terms are true. Beside the rows
/// that are wanted one row is held at a time.
///
/// # Errors
/// `Eval`: the fault of an expression, where there are no such rows whatever values stand for other faults; `TooBig` the same
/// with the limit of 1,000,000 bytes; `Memory`. `Store` where the source fails; then nothing is said of the rows.
pub fn wanted_by_delete<F: Functions, S: Source>(
    alloc: Global,
    delete: &Delete,
    source: &mut S,
    table: usize,
    functions: &F,
    params: &[Value],
) -> Result<Vec<Row>, SourceFault>
    requires faithful { F.is_faithful functions.now }
    requires not_failed { S.has_failed source.old ≡ false }
    ensures wanted { Selects (⟦<F as Hosted>⟧.means functions.now) params.now result (λ v. v.items)
        (λ m. writes.wanted_by_delete m (view.delete delete.now) (S.rows_of source.old table)) }
    ensures store { S.has_failed source.new ≡ is_store result }
    ensures rows { S.rows_of source.new ≡ S.rows_of source.old }
{
    let terms = with_quiet_first(alloc, delete.filter.as_slice())?;
    kept_each(alloc, terms.as_slice(), source, table, functions, params)
}
