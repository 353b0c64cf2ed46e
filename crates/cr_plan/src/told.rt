//! What a query offers to a table of it, alone or beside others.

ghost use Rattle.std.specs.Prelude.{◌≡◌, ◌+◌, IfOk};
ghost use Rattle.std.specs.List.{list_any};
ghost use Rattle.std.specs.Option.{option_map};
ghost use Rattle.cr_plan.specs.Offers.{offers};
ghost use Rattle.cr_plan.specs.Told.{has_name, is_brought, offers_to, only, placed, places_from, told_terms};

use crate::offer::{Columns, Offer, push_offers};
use cr_term::query::{Joined, Query};
use cr_value::order::same_bytes;
use cr_value::value::Value;
use std::alloc::{AllocError, Global};

// The place behind columns. A combination of more columns than there are numbers does not fit in memory.
fn behind(columns: Columns) -> Result<usize, AllocError>
    ensures { IfOk result (λ next. next ≡ columns.start + columns.count) }
{
    match columns.start.checked_add(columns.count) {
        Some(next) => Ok(next),
        None => Err(AllocError),
    }
}

// The only table of a name, and its columns in a combination; `None` where none has the name, or several have.
fn only_table<'a>(
    joined: &'a [Joined],
    name: &str,
) -> Result<Option<(&'a Joined, Columns)>, AllocError>
    ensures { IfOk result (λ o. option_map placed o ≡ only (places_from 0 (has_name name.now) joined.now)) }
{
    let mut found = None;
    let mut start = 0;
    for table in joined {
        let definition = &table.relation.definition;
        let columns = Columns {
            start,
            count: definition.columns.as_slice().len(),
        };
        if same_bytes(name.as_bytes(), definition.name.as_str().as_bytes()) {
            if found.is_some() {
                return Ok(None);
            }
            found = Some((table, columns));
        }
        start = behind(columns)?;
    }
    Ok(found)
}

// Whether a LEFT JOIN brings one of these tables.
fn has_brought(joined: &[Joined]) -> bool
    ensures { result ≡ list_any is_brought joined.now }
{
    joined.iter().any(|table| table.is_left)
}

// The terms that are told a table, as constraints on it.
fn offers_of(
    alloc: Global,
    query: &Query,
    joined: &Joined,
    columns: Columns,
    params: &[Value],
) -> Result<Vec<Offer>, AllocError>
    ensures { IfOk result (λ v. v.items ≡ offers columns params.now (told_terms query.now joined.now)) }
{
    let mut offers = Vec::new(alloc);
    if joined.is_left {
        push_offers(alloc, &mut offers, columns, joined.on.as_slice(), params)?;
        return Ok(offers);
    }
    let tables = query.joined.as_slice();
    if has_brought(tables) {
        return Ok(offers);
    }
    for table in tables {
        push_offers(alloc, &mut offers, columns, table.on.as_slice(), params)?;
    }
    push_offers(alloc, &mut offers, columns, query.filter.as_slice(), params)?;
    Ok(offers)
}

/// What a query offers to the table of a name: the terms that are constraints on its columns, with their arguments, as
/// `push_offers` tells them, of each ON and of WHERE, in this order. In a query with a LEFT JOIN a table is offered terms of its
/// own ON alone, where that is one of a LEFT JOIN. Nothing is offered where several tables of FROM have the name, or none.
///
/// # Errors
/// Want of memory.
pub fn offers_to(
    alloc: Global,
    query: &Query,
    name: &str,
    params: &[Value],
) -> Result<Vec<Offer>, AllocError>
    ensures { IfOk result (λ v. v.items ≡ offers_to params.now query.now name.now) }
{
    match only_table(query.joined.as_slice(), name)? {
        Some((joined, columns)) => offers_of(alloc, query, joined, columns, params),
        None => Ok(Vec::new(alloc)),
    }
}
