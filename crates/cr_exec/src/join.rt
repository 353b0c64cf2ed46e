//! The combinations of the tables of a query on which its terms are true.

ghost use Rattle.std.specs.Prelude.{◌≡◌, ◌++◌, map, IfOk, OnOk};
ghost use Rattle.cr_bags.specs.Bags.{gather, those, single};
ghost use Rattle.cr_query.specs.Query.{all_true, with_rows, nulls, or_padded, joined};
ghost use Rattle.cr_meaning.specs.View as view;
ghost use Rattle.cr_exec.specs.Answers.{Answers, Adds};
ghost use Rattle.cr_exec.specs.Scopes.{there};
ghost use Rattle.cr_exec.specs.Combinations.{values, tail, left_with};
ghost use Rattle.cr_exec.specs.Groups.{row_there};
ghost use Rattle.cr_exec.specs.LookUps.{AreSound, IsQuietFirst, join_of, rows_of};

use crate::index::references;
use crate::push::push;
use crate::source::{Source, sources_of};
use crate::terms::{all_true, terms_of, with_quiet_first};
use cr_expr::given::Hosted;
use cr_host::functions::Functions;
use cr_lattice::table::{Items, Row};
use cr_scalar::fault::EvalFault;
use cr_term::expr::Expr;
use cr_term::query::{Joined, Query};
use cr_value::value::Value;
use std::alloc::{AllocError, Global};
use std::marker::Model;

#[derive(Drop)]
enum Held<'a> {
    Standing(&'a [Value]),
    Made(Row),
}

// A combination: a row of a table where it stands, or one that was made. Contracts see its values.
#[derive(Drop)]
struct Combination<'a> {
    held: Held<'a>,
}

impl<'a> Model for Combination<'a> {
    ghost use Rattle.std.specs.Prelude.{List};
    ghost use Rattle.cr_value.specs.declared.value.Value.{Value as Content};
    ghost use Rattle.cr_exec.specs.Combinations.{values};

    ghost Value = { List Content };

    ghost view = { λ c. values c.held };
}

impl<'a> Combination<'a> {
    fn as_slice(&self) -> &[Value]
        ensures { result.now ≡ self.now }
    {
        match &self.held {
            Held::Standing(values) => values,
            Held::Made(row) => row.as_slice(),
        }
    }
}

// Puts copies of values behind others.
fn push_copies(alloc: Global, out: &mut Vec<Value>, values: &[Value]) -> Result<(), AllocError>
    ensures { OnOk result (out.new.items ≡ out.old.items ++ values.now) }
{
    for value in values {
        out.push(value.copy(alloc)?)?;
    }
    Ok(())
}

// A row in memory of its own.
fn copied(alloc: Global, values: &[Value]) -> Result<Row, AllocError>
    ensures { IfOk result (λ r. r ≡ values.now) }
{
    let mut out = Vec::new(alloc);
    push_copies(alloc, &mut out, values)?;
    Ok(Items::new(out))
}

// A combination with the row of one more table behind it; the row where it stands, if there is nothing before it.
fn longer<'a>(
    alloc: Global,
    combination: &[Value],
    row: &'a Row,
) -> Result<Combination<'a>, AllocError>
    ensures { IfOk result (λ c. c ≡ combination.now ++ row.now) }
{
    if combination.is_empty() {
        return Ok(Combination {
            held: Held::Standing(row.as_slice()),
        });
    }
    let mut values = Vec::new(alloc);
    push_copies(alloc, &mut values, combination)?;
    push_copies(alloc, &mut values, row.as_slice())?;
    Ok(Combination {
        held: Held::Made(Items::new(values)),
    })
}

// Puts a copy of a combination behind others if all terms are true on it.
fn keep<F: Functions>(
    alloc: Global,
    out: &mut Vec<Row>,
    terms: &[&Expr],
    combination: &[Value],
    functions: &F,
    params: &[Value],
) -> Result<(), EvalFault>
    requires { F.is_faithful functions.now }
    ensures { Adds (⟦<F as Hosted>⟧.means functions.now) params.now (λ m. those (all_true m (map there terms.now)) (single combination.now)) out.old.items out.new.items result }
{
    let is_kept = all_true(alloc, terms, combination, functions, params)?;
    if !is_kept {
        return Ok(());
    }
    let row = copied(alloc, combination)?;
    push(out, row)?;
    Ok(())
}

/// Those of some rows on which all terms are true, moved. The first term that is not true ends the test of a row, so the terms come with
/// the quiet ones first.
pub(crate) fn kept<F: Functions>(
    alloc: Global,
    terms: &[&Expr],
    rows: Vec<Row>,
    functions: &F,
    params: &[Value],
) -> Result<Vec<Row>, EvalFault>
    requires { F.is_faithful functions.now }
    ensures { Answers (⟦<F as Hosted>⟧.means functions.now) params.now result (λ v. v.items) (λ m. those (all_true m (map there terms.now)) rows.items) }
{
    let mut out = Vec::new(alloc);
    for row in rows {
        let is_kept = all_true(alloc, terms, row.as_slice(), functions, params)?;
        if is_kept {
            push(&mut out, row)?;
        }
    }
    Ok(out)
}

// The combinations of one with the rows of a table, on which all terms are true: of no values, the rows on which they are.
// The first term that is not true ends the test of a combination, so the terms come with the quiet ones first.
fn matching<F: Functions>(
    alloc: Global,
    terms: &[&Expr],
    combination: &[Value],
    rows: &[&Row],
    functions: &F,
    params: &[Value],
) -> Result<Vec<Row>, EvalFault>
    requires { F.is_faithful functions.now }
    ensures { Answers (⟦<F as Hosted>⟧.means functions.now) params.now result (λ v. v.items) (λ m. those (all_true m (map there terms.now)) (with_rows combination.now (map row_there rows.now))) }
{
    let mut out = Vec::new(alloc);
    for row in rows {
        let more = longer(alloc, combination, row)?;
        keep(alloc, &mut out, terms, more.as_slice(), functions, params)?;
    }
    Ok(out)
}

// Puts NULLs behind other values.
fn push_nulls(out: &mut Vec<Value>, width: usize) -> Result<(), AllocError>
    ensures { OnOk result (out.new.items ≡ out.old.items ++ nulls width) }
{
    for _place in 0..width {
        out.push(Value::Null)?;
    }
    Ok(())
}

// A combination with NULLs for the columns of one more table.
fn padded(alloc: Global, combination: &[Value], width: usize) -> Result<Row, AllocError>
    ensures { IfOk result (λ r. r ≡ combination.now ++ nulls width) }
{
    let mut values = Vec::new(alloc);
    push_copies(alloc, &mut values, combination)?;
    push_nulls(&mut values, width)?;
    Ok(Items::new(values))
}

// The combinations that a LEFT JOIN gives of one: those that matched, or it alone beside NULLs.
fn or_padded(
    alloc: Global,
    mut matched: Vec<Row>,
    combination: &[Value],
    width: usize,
) -> Result<Vec<Row>, AllocError>
    ensures { IfOk result (λ v. v.items ≡ or_padded (nulls width) combination.now matched.items) }
{
    if matched.is_empty() {
        let row = padded(alloc, combination, width)?;
        matched.push(row)?;
    }
    Ok(matched)
}

// The combinations of one with the rows of a table that a LEFT JOIN brings.
fn left_joined<F: Functions>(
    alloc: Global,
    join: &Joined,
    rows: &[&Row],
    combination: &[Value],
    functions: &F,
    params: &[Value],
) -> Result<Vec<Row>, EvalFault>
    requires { F.is_faithful functions.now }
    ensures { Answers (⟦<F as Hosted>⟧.means functions.now) params.now result (λ v. v.items) (λ m. left_with m join.now (map row_there rows.now) combination.now) }
{
    let terms = with_quiet_first(alloc, join.on.as_slice())?;
    let matched = matching(
        alloc,
        terms.as_slice(),
        combination,
        rows,
        functions,
        params,
    )?;
    let width = join.relation.definition.columns.as_slice().len();
    let rows = or_padded(alloc, matched, combination, width)?;
    Ok(rows)
}

// Puts the combinations of one with those of further tables, on which all terms are true, behind others.
#[cycle(join)]
pub(crate) fn join_rest<F: Functions>(
    alloc: Global,
    out: &mut Vec<Row>,
    terms: &[&Expr],
    sources: &[Source<'_>],
    combination: &[Value],
    functions: &F,
    params: &[Value],
) -> Result<(), EvalFault>
    requires faithful { F.is_faithful functions.now }
    requires quiet_first { IsQuietFirst (map there terms.now) }
    requires sound { AreSound (⟦<F as Hosted>⟧.means functions.now) (map there terms.now) sources.now }
    ensures { Adds (⟦<F as Hosted>⟧.means functions.now) params.now (λ m. tail m (map there terms.now) (map join_of sources.now) (map rows_of sources.now) combination.now) out.old.items out.new.items result }
{
    let Some((source, later)) = sources.split_first() else {
        return keep(alloc, out, terms, combination, functions, params);
    };
    let wanted = source.wanted(alloc, combination, params)?;
    let rows = source.rows_with(&wanted);
    if source.join.is_left {
        let made = left_joined(alloc, source.join, rows, combination, functions, params)?;
        let made = references(alloc, made.as_slice())?;
        let rows = made.as_slice();
        return join_each(alloc, out, terms, later, &[], rows, functions, params);
    }
    join_each(
        alloc,
        out,
        terms,
        later,
        combination,
        rows,
        functions,
        params,
    )
}

// The same for the combinations of one with each of some rows of a table.
#[cycle(join)]
fn join_each<F: Functions>(
    alloc: Global,
    out: &mut Vec<Row>,
    terms: &[&Expr],
    sources: &[Source<'_>],
    combination: &[Value],
    rows: &[&Row],
    functions: &F,
    params: &[Value],
) -> Result<(), EvalFault>
    requires faithful { F.is_faithful functions.now }
    requires quiet_first { IsQuietFirst (map there terms.now) }
    requires sound { AreSound (⟦<F as Hosted>⟧.means functions.now) (map there terms.now) sources.now }
    ensures { Adds (⟦<F as Hosted>⟧.means functions.now) params.now (λ m. gather (tail m (map there terms.now) (map join_of sources.now) (map rows_of sources.now)) (with_rows combination.now (map row_there rows.now))) out.old.items out.new.items result }
{
    for row in rows {
        let more = longer(alloc, combination, row)?;
        join_rest(
            alloc,
            out,
            terms,
            sources,
            more.as_slice(),
            functions,
            params,
        )?;
    }
    Ok(())
}

/// The combinations of a query's tables, in the order of FROM, on which WHERE and every inner ON are true. A LEFT JOIN
/// gives NULLs for the columns of its table where no row of it matches.
///
/// # Errors
/// The fault of a term that is tested and has no value, and `NotANumber` where it has one that is no number; `TooBig` where a
/// value on the way is over 1,000,000 bytes; `Memory`.
pub fn joined<F: Functions>(
    alloc: Global,
    query: &Query,
    tables: &[Items<Row>],
    functions: &F,
    params: &[Value],
) -> Result<Vec<Row>, EvalFault>
    requires { F.is_faithful functions.now }
    ensures { Answers (⟦<F as Hosted>⟧.means functions.now) params.now result (λ v. v.items) (λ m. joined m (view.query query.now) tables.now) }
{
    let terms = terms_of(alloc, query)?;
    let terms = terms.as_slice();
    let joined = query.joined.as_slice();
    let sources = sources_of(alloc, 0, terms, joined, tables, functions)?;
    let mut out = Vec::new(alloc);
    join_rest(
        alloc,
        &mut out,
        terms,
        sources.as_slice(),
        &[],
        functions,
        params,
    )?;
    Ok(out)
}
