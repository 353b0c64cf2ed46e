//! What a query answers of tables that are read row by row, whatever they stand in.

ghost use Rattle.std.specs.Prelude.{◌≡◌, ◌∷◌, ◌-◌, ◌||◌, false, length, map};
ghost use Rattle.cr_bags.specs.Bags.{gather};
ghost use Rattle.cr_query.specs.Query.{joined, answer};
ghost use Rattle.cr_meaning.specs.View as view;
ghost use Rattle.cr_module.specs.Reading.{tables_between};
ghost use Rattle.cr_exec.specs.Combinations.{tail};
ghost use Rattle.cr_exec.specs.LookUps.{AreSound, IsQuietFirst, join_of, rows_of};
ghost use Rattle.cr_exec.specs.Scopes.{there};
ghost use Rattle.cr_exec.specs.Streamed.{AddsRead, Selects, is_store};

use crate::join::{join_rest, joined};
use crate::select::answered;
use crate::source::{Source as JoinedTable, sources_of};
use crate::terms::terms_of;
use cr_expr::given::Hosted;
use cr_host::functions::Functions;
use cr_lattice::table::Row;
use cr_module::rows::{row_at, tables_between};
use cr_module::source::{ReadFault, Source};
use cr_scalar::fault::EvalFault;
use cr_term::expr::Expr;
use cr_term::query::{Joined, Query};
use cr_value::value::Value;
use std::alloc::{AllocError, Global};

/// Why a statement over a source has no rows.
#[derive(Debug, Drop)]
pub enum SourceFault {
    /// An expression has a fault, or memory ran out: `EvalFault::Memory`.
    Eval(EvalFault),
    /// What the rows stand in failed.
    Store,
}

impl From<EvalFault> for SourceFault {
    ghost use Rattle.std.specs.Prelude.{◌≡◌};
    ghost use Rattle.cr_exec.specs.declared.streamed.SourceFault.TheVariants.{Eval};

    ghost from_gives = { λ fault e. e ≡ Eval fault };

    fn from(fault: EvalFault) -> SourceFault {
        SourceFault::Eval(fault)
    }
}

impl From<AllocError> for SourceFault {
    ghost use Rattle.std.specs.Prelude.{◌≡◌};
    ghost use Rattle.cr_scalar.specs.declared.fault.EvalFault.TheVariants.{Memory};
    ghost use Rattle.cr_exec.specs.declared.streamed.SourceFault.TheVariants.{Eval};

    ghost from_gives = { λ _ e. e ≡ Eval Memory };

    fn from(_e: AllocError) -> SourceFault {
        SourceFault::Eval(EvalFault::Memory)
    }
}

impl From<ReadFault> for SourceFault {
    ghost use Rattle.std.specs.Prelude.{◌≡◌};
    ghost use Rattle.cr_exec.specs.Streamed.{of_reading};

    ghost from_gives = { λ fault e. e ≡ of_reading fault };

    fn from(fault: ReadFault) -> SourceFault {
        match fault {
            ReadFault::Memory => SourceFault::Eval(EvalFault::Memory),
            ReadFault::Store => SourceFault::Store,
        }
    }
}

// Puts the combinations of the rows of the first table with those of further tables, on which all terms are true, behind
// others. Of the first table one row is held at a time.
fn join_read<F: Functions, S: Source>(
    alloc: Global,
    out: &mut Vec<Row>,
    terms: &[&Expr],
    later: &[JoinedTable<'_>],
    source: &mut S,
    functions: &F,
    params: &[Value],
) -> Result<(), SourceFault>
    requires faithful { F.is_faithful functions.now }
    requires quiet_first { IsQuietFirst (map there terms.now) }
    requires sound { AreSound (⟦<F as Hosted>⟧.means functions.now) (map there terms.now) later.now }
    ensures rows { S.rows_of source.new ≡ S.rows_of source.old }
    ensures failed { S.has_failed source.new ≡ S.has_failed source.old || is_store result }
    ensures joins { AddsRead (⟦<F as Hosted>⟧.means functions.now) params.now
        (λ m. gather (tail m (map there terms.now) (map join_of later.now) (map rows_of later.now)) (S.rows_of source.old 0))
        out.old.items out.new.items result }
{
    let mut cursor = source.filter(alloc, 0)?;
    while !source.eof(&cursor) {
        let row = row_at(alloc, source, &cursor)?;
        join_rest(alloc, out, terms, later, row.as_slice(), functions, params)?;
        source.next(alloc, &mut cursor)?;
    }
    Ok(())
}

// The combinations of a query's tables, read as lists.
fn joined_as_lists<F: Functions, S: Source>(
    alloc: Global,
    query: &Query,
    source: &mut S,
    functions: &F,
    params: &[Value],
) -> Result<Vec<Row>, SourceFault>
    requires { F.is_faithful functions.now }
    ensures rows { S.rows_of source.new ≡ S.rows_of source.old }
    ensures failed { S.has_failed source.new ≡ S.has_failed source.old || is_store result }
    ensures joins { Selects (⟦<F as Hosted>⟧.means functions.now) params.now result (λ v. v.items)
        (λ m. joined m (view.query query.now) (tables_between (S.rows_of source.old) 0 (length query.now.joined))) }
{
    let count = query.joined.as_slice().len();
    let tables = tables_between(alloc, source, 0, count)?;
    let combinations = joined(alloc, query, tables.as_slice(), functions, params)?;
    Ok(combinations)
}

// The combinations of a query's tables, the first read row by row, which no LEFT JOIN brings, and the later ones as lists.
fn joined_row_by_row<F: Functions, S: Source>(
    alloc: Global,
    query: &Query,
    first: &Joined,
    later: &[Joined],
    source: &mut S,
    functions: &F,
    params: &[Value],
) -> Result<Vec<Row>, SourceFault>
    requires faithful { F.is_faithful functions.now }
    requires parts { query.now.joined ≡ first.now ∷ later.now }
    requires inner { first.now.is_left ≡ false }
    ensures rows { S.rows_of source.new ≡ S.rows_of source.old }
    ensures failed { S.has_failed source.new ≡ S.has_failed source.old || is_store result }
    ensures joins { Selects (⟦<F as Hosted>⟧.means functions.now) params.now result (λ v. v.items)
        (λ m. joined m (view.query query.now) (tables_between (S.rows_of source.old) 0 (length query.now.joined))) }
{
    let terms = terms_of(alloc, query)?;
    let terms = terms.as_slice();
    let count = query.joined.as_slice().len();
    let tables = tables_between(alloc, source, 1, count)?;
    let start = first.relation.definition.columns.as_slice().len();
    let later = sources_of(alloc, start, terms, later, tables.as_slice(), functions)?;
    let mut out = Vec::new(alloc);
    join_read(
        alloc,
        &mut out,
        terms,
        later.as_slice(),
        source,
        functions,
        params,
    )?;
    Ok(out)
}

// The combinations of a query's tables on which WHERE and every inner ON are true. Of a first table that no LEFT JOIN
// brings one row is held at a time; the others are held as lists, as they are gone through again and again.
fn joined_from<F: Functions, S: Source>(
    alloc: Global,
    query: &Query,
    source: &mut S,
    functions: &F,
    params: &[Value],
) -> Result<Vec<Row>, SourceFault>
    requires { F.is_faithful functions.now }
    ensures rows { S.rows_of source.new ≡ S.rows_of source.old }
    ensures failed { S.has_failed source.new ≡ S.has_failed source.old || is_store result }
    ensures joins { Selects (⟦<F as Hosted>⟧.means functions.now) params.now result (λ v. v.items)
        (λ m. joined m (view.query query.now) (tables_between (S.rows_of source.old) 0 (length query.now.joined))) }
{
    let Some((first, later)) = query.joined.as_slice().split_first() else {
        return joined_as_lists(alloc, query, source, functions, params);
    };
    if first.is_left {
        return joined_as_lists(alloc, query, source, functions, params);
    }
    joined_row_by_row(alloc, query, first, later, source, functions, params)
}

/// The rows that a query answers, as `select` does, of the tables of a source, the first of FROM being number 0. Of a first
/// table that no LEFT JOIN brings one row is held at a time.
///
/// # Errors
/// `Eval` as of `select`: the fault of an expression, where there is no answer whatever values stand for other faults;
/// `TooBig` the same with the limit of 1,000,000 bytes; `Memory`. `Store` where the source fails; then nothing is said of
/// the answer.
pub fn select_from<F: Functions, S: Source>(
    alloc: Global,
    query: &Query,
    source: &mut S,
    functions: &F,
    params: &[Value],
) -> Result<Vec<Row>, SourceFault>
    requires faithful { F.is_faithful functions.now }
    requires not_failed { S.has_failed source.old ≡ false }
    ensures answers { Selects (⟦<F as Hosted>⟧.means functions.now) params.now result (λ v. v.items)
        (λ m. answer m (view.query query.now) (tables_between (S.rows_of source.old) 0 (length query.now.joined))) }
    ensures store { S.has_failed source.new ≡ is_store result }
    ensures rows { S.rows_of source.new ≡ S.rows_of source.old }
{
    let combinations = joined_from(alloc, query, source, functions, params)?;
    let rows = answered(alloc, query, combinations, functions, params)?;
    Ok(rows)
}
