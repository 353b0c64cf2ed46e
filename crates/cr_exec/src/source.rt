//! The tables of FROM, and which of their rows are gone through beside a combination of those to the left.

ghost use Rattle.std.specs.Prelude.{◌≡◌, None, map, length, nat_lt, IfOk, IfSome, MatchOption};
ghost use Rattle.std.specs.List.{list_all, list_any, zip};
ghost use Rattle.std.specs.Option.{option_map};
ghost use Rattle.cr_exec.specs.Equalities.{sought};
ghost use Rattle.cr_exec.specs.Groups.{row_there};
ghost use Rattle.cr_exec.specs.LookUps.{AreSound, IsIndexOf, IsLookUpOf, IsSound, IsWanted, asked, is_left, joined_rows, rows_of, rows_with};
ghost use Rattle.cr_exec.specs.Scopes.{there};

use crate::binary::compares_bytes;
use crate::equality::{Equality, equality_of, wanted_value};
use crate::index::{Index, references};
use crate::terms::with_quiet_first;
use cr_expr::given::Hosted;
use cr_host::functions::Functions;
use cr_lattice::table::{Items, Row};
use cr_term::expr::Expr;
use cr_term::query::Joined;
use cr_value::value::Value;
use std::alloc::{AllocError, Global};

/// Where the rows are found that a term asks for, beside combinations of `start` values.
#[derive(Drop)]
pub(crate) struct LookUp<'a> {
    pub(crate) start: usize,
    pub(crate) equality: Equality<'a>,
    pub(crate) index: Index<'a>,
}

/// A table of FROM: how it is joined, its rows, and where they are looked up, if that serves.
#[derive(Drop)]
pub(crate) struct Source<'a> {
    pub(crate) join: &'a Joined,
    pub(crate) rows: Vec<&'a Row>,
    pub(crate) look_up: Option<LookUp<'a>>,
}

// Whether each row has a value at a place.
fn is_wide(place: usize, rows: &[&Row]) -> bool
    ensures { result ≡ list_all (λ r. nat_lt place (length r.now)) rows.now }
{
    rows.iter().all(|row| place < row.as_slice().len())
}

// What the first term asks of the rows that asks for a value.
fn asked<'a>(start: usize, rows: &[&Row], terms: &[&'a Expr]) -> Option<Equality<'a>>
    ensures { option_map sought result ≡ asked start (map row_there rows.now) (map there terms.now) }
{
    for term in terms {
        if let Some(equality) = equality_of(start, term) {
            if is_wide(equality.place, rows) {
                return Some(equality);
            }
        }
    }
    None
}

// Where the rows are found that the first of the terms asks for.
fn look_up<'a>(
    alloc: Global,
    start: usize,
    terms: &[&'a Expr],
    rows: &[&'a Row],
) -> Result<Option<LookUp<'a>>, AllocError>
    ensures { IfOk result (λ o. MatchOption o (asked start (map row_there rows.now) (map there terms.now) ≡ None) (IsLookUpOf start (map there terms.now) (map row_there rows.now))) }
{
    let Some(equality) = asked(start, rows, terms) else {
        return Ok(None);
    };
    let index = Index::new(alloc, equality.place, rows)?;
    Ok(Some(LookUp {
        start,
        equality,
        index,
    }))
}

impl<'a> Source<'a> {
    /// The value that is looked up beside a combination of the tables to the left, if one is.
    pub(crate) fn wanted(
        &self,
        alloc: Global,
        combination: &[Value],
        params: &[Value],
    ) -> Result<Option<Value>, AllocError>
        ensures { IfOk result (λ o. IfSome o (IsWanted params.now combination.now self.now)) }
    {
        let Some(look_up) = &self.look_up else {
            return Ok(None);
        };
        if combination.len() != look_up.start {
            return Ok(None);
        }
        let Equality { wanted, takes, .. } = look_up.equality;
        wanted_value(alloc, wanted, takes, combination, params)
    }

    /// The rows that a look-up of a value finds, or all.
    pub(crate) fn rows_with(&self, wanted: &Option<Value>) -> &[&'a Row]
        requires { IfSome self.now.look_up (λ l. IsIndexOf l.equality.place (rows_of self.now) l.index) }
        ensures { map row_there result.now ≡ rows_with self.now wanted.now }
    {
        let all = self.rows.as_slice();
        let Some(look_up) = &self.look_up else {
            return all;
        };
        match wanted {
            Some(value) => look_up.index.equal_to(value),
            None => all,
        }
    }
}

// Whether a LEFT JOIN brings one of some tables.
fn has_left(sources: &[Source<'_>]) -> bool
    ensures { result ≡ list_any is_left sources.now }
{
    sources.iter().any(|source| source.join.is_left)
}

// The look-up of an inner table by the query's terms, or of a LEFT JOIN's by its own. The first table has none, as there is
// but one combination before it; nor has an inner one before a LEFT JOIN, whose ON may fault on each combination.
fn look_up_of<'a, F: Functions>(
    alloc: Global,
    start: usize,
    terms: &[&'a Expr],
    join: &'a Joined,
    rows: &[&'a Row],
    later: &[Source<'a>],
    functions: &F,
) -> Result<Option<LookUp<'a>>, AllocError>
    ensures { IfOk result (λ o. IfSome o (IsSound (⟦<F as Hosted>⟧.means functions.now) (map there terms.now) later.now join.now (map row_there rows.now))) }
{
    if start == 0 || !compares_bytes(functions) {
        return Ok(None);
    }
    if join.is_left {
        let on = with_quiet_first(alloc, join.on.as_slice())?;
        return look_up(alloc, start, on.as_slice(), rows);
    }
    if has_left(later) {
        return Ok(None);
    }
    look_up(alloc, start, terms, rows)
}

/// The tables of FROM that are there, each with its look-up, if one serves. `start` is the number of columns before them.
pub(crate) fn sources_of<'a, F: Functions>(
    alloc: Global,
    start: usize,
    terms: &[&'a Expr],
    joined: &'a [Joined],
    tables: &'a [Items<Row>],
    functions: &F,
) -> Result<Vec<Source<'a>>, AllocError>
    ensures sources { IfOk result (λ v. map joined_rows v.items ≡ zip joined.now tables.now) }
    ensures sound { IfOk result (λ v. AreSound (⟦<F as Hosted>⟧.means functions.now) (map there terms.now) v.items) }
{
    let Some((join, joined)) = joined.split_first() else {
        return Ok(Vec::new(alloc));
    };
    let Some((table, tables)) = tables.split_first() else {
        return Ok(Vec::new(alloc));
    };
    let rows = references(alloc, table.as_slice())?;
    let width = join.relation.definition.columns.as_slice().len();
    // A sum past what a `usize` holds is the length of no combination.
    let next = start.saturating_add(width);
    let mut sources = sources_of(alloc, next, terms, joined, tables, functions)?;
    let later = sources.as_slice();
    let look_up = look_up_of(alloc, start, terms, join, rows.as_slice(), later, functions)?;
    sources.insert(
        0,
        Source {
            join,
            rows,
            look_up,
        },
    )?;
    Ok(sources)
}
