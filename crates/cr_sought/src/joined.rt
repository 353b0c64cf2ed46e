//! The keys of the rows of a table that can be joined with rows of others.

ghost use Rattle.std.specs.Prelude.{◌≡◌, ◌++◌, IfOk};
ghost use Rattle.std.specs.List.{list_all};
ghost use Rattle.std.specs.Option.{option_map};
ghost use Rattle.cr_bags.specs.Bags.{single};
ghost use Rattle.cr_term.specs.Terms.{quiet};
ghost use Rattle.cr_query.specs.Query.{nulls};
ghost use Rattle.cr_sought.specs.Joins.{has_quiet_on, is_safe, no_row, partner, partner_rows};
ghost use Rattle.cr_sought.specs.Sought.{joined_keys, keys_beside, keys_by, key_or_none, standing};

use crate::beside::Beside;
use crate::key::{key_told, push_key};
use crate::telling::Telling;
use cr_expr::quiet::is_quiet;
use cr_lattice::table::{Items, Row, TableDef};
use cr_term::expr::Expr;
use cr_term::query::Joined;
use cr_value::text::Bytes;
use cr_value::value::Value;
use std::alloc::{AllocError, Global};

/// The most rows of a table by which others are looked up, since they are copied for it.
const MOST_ROWS: usize = 4096;

/// Rows of a table, and the place of its first column in a combination.
#[derive(Drop)]
pub struct Partner {
    pub start: usize,
    pub rows: Items<Row>,
}

/// A table in a join of which rows are looked up.
#[derive(Clone, Copy, Drop)]
pub struct Lookup<'a> {
    pub definition: &'a TableDef,
    /// The place of its first column in a combination.
    pub base: usize,
    /// Terms that are true on the combinations that are wanted.
    pub terms: &'a [Expr],
    /// The parameters' values, from number 1 on.
    pub params: &'a [Value],
}

// The keys of the rows that can be joined with a row of another table; `None` where the terms do not tell them.
fn key_beside<'a>(
    alloc: Global,
    lookup: &Lookup<'a>,
    beside: &Beside<'a>,
) -> Result<Option<Option<Bytes>>, AllocError>
    ensures { IfOk result (λ o. option_map key_or_none o ≡ keys_beside lookup.now.base lookup.now.definition.now lookup.now.params.now lookup.now.terms.now (standing beside.now)) }
{
    let telling = Telling {
        beside: *beside,
        params: lookup.params,
        terms: lookup.terms,
        given: None,
    };
    key_told(alloc, &telling, lookup.base, lookup.definition)
}

// The same with each row of another table.
fn keys_by<'a>(
    alloc: Global,
    lookup: &Lookup<'a>,
    partner: &'a Partner,
) -> Result<Option<Vec<Bytes>>, AllocError>
    ensures { IfOk result (λ o. option_map (λ v. v.items) o ≡ keys_by lookup.now.base lookup.now.definition.now lookup.now.params.now lookup.now.terms.now partner.now) }
{
    let mut keys = Vec::new(alloc);
    for row in partner.rows.as_slice() {
        let beside = Beside {
            start: partner.start,
            row: row.as_slice(),
        };
        match key_beside(alloc, lookup, &beside)? {
            Some(key) => push_key(&mut keys, key)?,
            None => return Ok(None),
        }
    }
    Ok(Some(keys))
}

/// The packed keys of the rows that can be joined with rows of other tables, by the first of these by which the terms tell
/// them, one for each of its rows at most, and so none by one without rows; `None` where they do not tell them by any. They
/// tell them where for each column of the key one of them is `column = operand` or `operand = column`, the operand a constant
/// or a column of that other table, compared byte by byte and with the column's value as it is. A NULL joins no row.
///
/// Fails for want of memory alone.
pub fn joined_keys<'a>(
    alloc: Global,
    lookup: &Lookup<'a>,
    partners: &'a [Partner],
) -> Result<Option<Vec<Bytes>>, AllocError>
    ensures { IfOk result (λ o. option_map (λ v. v.items) o ≡ joined_keys lookup.now.base lookup.now.definition.now lookup.now.params.now lookup.now.terms.now partners.now) }
{
    for partner in partners {
        if let Some(keys) = keys_by(alloc, lookup, partner)? {
            return Ok(Some(keys));
        }
    }
    Ok(None)
}

fn are_quiet(terms: &[Expr]) -> bool
    ensures { result ≡ list_all quiet terms.now }
{
    terms.iter().all(|term| is_quiet(term))
}

/// Whether no term of an ON can have a fault.
pub fn has_quiet_on(joined: &Joined) -> bool
    ensures { result ≡ has_quiet_on joined.now }
{
    are_quiet(joined.on.as_slice())
}

/// Whether a table that a LEFT JOIN brings is brought by an ON that never faults; any other is.
pub fn is_safe(joined: &Joined) -> bool
    ensures { result ≡ is_safe joined.now }
{
    !joined.is_left || has_quiet_on(joined)
}

// As many NULLs as a table has columns.
fn null_row(alloc: Global, width: usize) -> Result<Row, AllocError>
    ensures { IfOk result (λ row. row ≡ nulls width) }
{
    let mut values = Vec::new(alloc);
    for _place in 0..width {
        values.push(Value::Null)?;
    }
    Ok(Items::new(values))
}

// The rows of a table and, of one that a LEFT JOIN brings, the NULLs in the place of one.
fn partner_rows(alloc: Global, joined: &Joined, rows: &[Row]) -> Result<Items<Row>, AllocError>
    ensures { IfOk result (λ more. more ≡ partner_rows joined.now rows.now) }
{
    let mut copies = Vec::new(alloc);
    for row in rows {
        copies.push(row.copy(alloc)?)?;
    }
    if joined.is_left {
        let width = joined.relation.definition.columns.as_slice().len();
        copies.push(null_row(alloc, width)?)?;
    }
    Ok(Items::new(copies))
}

/// Adds the rows of a table of a join to those by which others are looked up, unless it has over 4,096. Its columns begin at
/// `start` in a combination. Fails for want of memory alone.
pub fn push_partner(
    alloc: Global,
    partners: &mut Vec<Partner>,
    start: usize,
    joined: &Joined,
    rows: &[Row],
) -> Result<(), AllocError>
    ensures { IfOk result (λ u. partners.new.items ≡ partners.old.items ++ partner start joined.now rows.now) }
{
    if rows.len() > MOST_ROWS {
        return Ok(());
    }
    let rows = partner_rows(alloc, joined, rows)?;
    partners.push(Partner { start, rows })?;
    Ok(())
}

/// The rows without which constants tell keys: none of another table. Fails for want of memory alone.
pub fn first_partner(alloc: Global) -> Result<Vec<Partner>, AllocError>
    ensures { IfOk result (λ v. v.items ≡ single no_row) }
{
    let mut rows = Vec::new(alloc);
    rows.push(Items::new(Vec::new(alloc)))?;
    let mut partners = Vec::new(alloc);
    partners.push(Partner {
        start: 0,
        rows: Items::new(rows),
    })?;
    Ok(partners)
}
