//! Calls of changes, rows and definitions. Their arguments stand apart by ` ; `, in the texts of `cr_told`.
//!
//! | Call | Given |
//! |---|---|
//! | `beats` | two changes |
//! | `merge` | two lists of changes |
//! | `orders` | changes, which are merged one by one in each of their orders |
//! | `check` | columns of t, or nothing where there is no t, and a change |
//! | `rows` | columns of t, and the changes that are kept |
//! | `delta` | columns of t, the changes that are kept, and the rows that site A wants |
//! | `key` | columns of t, and a row |
//! | `profile` | a table's name, and columns |
//! | `duplicate`, `no_default` | columns |

ghost use Rattle.std.specs.Prelude.{◌≡◌, IfOk};
ghost use Rattle.cr_lattice.specs.Keep.{keep};

use cr_delta::delta::delta;
use cr_delta::error::DeltaError;
use cr_delta::key::{are_keyed, is_keyed, key_of};
use cr_lattice::change::Change;
use cr_lattice::check::{CheckError, check};
use cr_lattice::merge::{keep, merge};
use cr_lattice::order::beats;
use cr_lattice::profile::{duplicate, no_default, profile};
use cr_lattice::rows::rows;
use cr_lattice::table::{Row, TableDef};
use cr_told::error::ToldError;
use cr_told::reading::{A, change, changes, definition, rows_of};
use cr_told::writing::{told_changes, told_rows};
use std::alloc::{AllocError, Global};

// Two arguments.
fn pair(given: &str) -> Result<(&str, &str), ToldError> {
    given.split_once(" ; ").ok_or(ToldError::Form)
}

fn beat(alloc: Global, given: &str) -> Result<String, ToldError> {
    let (a, b) = pair(given)?;
    let beats = beats(&change(alloc, a)?, &change(alloc, b)?);
    Ok(format!(in alloc; "{beats}")?)
}

fn merged(alloc: Global, given: &str) -> Result<String, ToldError> {
    let (kept, more) = pair(given)?;
    let merged = merge(alloc, &changes(alloc, kept)?, &changes(alloc, more)?)?;
    Ok(told_changes(alloc, &merged)?)
}

// What is kept of the changes in the order that the number names.
fn kept_in_order(alloc: Global, told: &str, number: usize) -> Result<Vec<Change>, ToldError> {
    let mut left = changes(alloc, told)?;
    let mut kept = Vec::new(alloc);
    let mut number = number;
    for _turn in 0..left.len() {
        let count = left.len().max(1);
        let place = number % count;
        number /= count;
        if place < left.len() {
            kept = merge(alloc, &kept, &[left.remove(place)])?;
        }
    }
    Ok(kept)
}

// What is kept in each of the 720 orders of six changes, if it is the same.
fn orders(alloc: Global, told: &str) -> Result<String, ToldError> {
    let first = kept_in_order(alloc, told, 0)?;
    for number in 1..720 {
        if kept_in_order(alloc, told, number)? != first {
            return Ok(format!(in alloc; "differs in order {number}")?);
        }
    }
    Ok(told_changes(alloc, &first)?)
}

fn checked(alloc: Global, given: &str) -> Result<String, ToldError> {
    let (columns, told) = pair(given)?;
    let change = change(alloc, told)?;
    let table = definition(alloc, "t", columns)?;
    let found = if columns.is_empty() {
        check(alloc, &change, None)
    } else {
        check(alloc, &change, Some(&table))
    };
    match found {
        Ok(()) => Ok(String::from_str(alloc, "well formed")?),
        Err(CheckError::Bad(reason)) => Ok(format!(in alloc; "{reason:?}")?),
        Err(CheckError::Memory) => Err(ToldError::Memory),
    }
}

fn shown(alloc: Global, given: &str) -> Result<String, ToldError> {
    let (columns, kept) = pair(given)?;
    let table = definition(alloc, "t", columns)?;
    let shown = rows(alloc, &changes(alloc, kept)?, &table)?;
    Ok(told_rows(alloc, &shown)?)
}

// What the changes keep.
#[tactic(auto, using(cr_lattice::proofs::KeepLaws::keep_keep))]
fn kept_of(told: Vec<Change>) -> Result<Vec<Change>, AllocError>
    ensures { IfOk result (λ kept. keep kept.items ≡ kept.items) }
{
    keep(told)
}

// The changes that A's write makes; `None` where a row has no key.
fn write(
    alloc: Global,
    table: &TableDef,
    told: Vec<Change>,
    wanted: &[Row],
) -> Result<Option<Vec<Change>>, DeltaError> {
    let kept = kept_of(told)?;
    if !are_keyed(alloc, table, wanted)? {
        return Ok(None);
    }
    Ok(Some(delta(alloc, table, &kept, wanted, &A)?))
}

fn written(alloc: Global, given: &str) -> Result<String, ToldError> {
    let (columns, rest) = pair(given)?;
    let (kept, wanted) = pair(rest)?;
    let table = definition(alloc, "t", columns)?;
    match write(
        alloc,
        &table,
        changes(alloc, kept)?,
        &rows_of(alloc, wanted)?,
    ) {
        Ok(Some(made)) => Ok(told_changes(alloc, &made)?),
        Ok(None) => Ok(String::from_str(alloc, "no key")?),
        Err(DeltaError::VersionLimit) => Ok(String::from_str(alloc, "VersionLimit")?),
        Err(DeltaError::Memory) => Err(ToldError::Memory),
    }
}

// The digits of a key; of a long one how many bytes it has.
fn told_key(alloc: Global, table: &TableDef, row: &Row) -> Result<String, AllocError> {
    if !is_keyed(alloc, table, row.as_slice())? {
        return String::from_str(alloc, "none");
    }
    let key = key_of(alloc, table, row.as_slice())?;
    if key.as_slice().len() > 100 {
        return format!(in alloc; "{} bytes", key.as_slice().len());
    }
    hex::encode(alloc, key.as_slice())
}

fn key(alloc: Global, given: &str) -> Result<String, ToldError> {
    let (columns, told) = pair(given)?;
    let table = definition(alloc, "t", columns)?;
    match rows_of(alloc, told)?.as_slice() {
        [row] => Ok(told_key(alloc, &table, row)?),
        _ => Err(ToldError::Form),
    }
}

fn profiled(alloc: Global, given: &str) -> Result<String, ToldError> {
    let (name, columns) = pair(given)?;
    match profile(&definition(alloc, name, columns)?) {
        Ok(()) => Ok(String::from_str(alloc, "accepted")?),
        Err(fault) => Ok(format!(in alloc; "{fault:?}")?),
    }
}

fn place(alloc: Global, place: Option<usize>) -> Result<String, AllocError> {
    match place {
        Some(place) => format!(in alloc; "{place}"),
        None => String::from_str(alloc, "none"),
    }
}

/// What a call answers; `None` where it isn't one of these.
pub(crate) fn answer(alloc: Global, call: &str, given: &str) -> Result<Option<String>, ToldError> {
    Ok(Some(match call {
        "beats" => beat(alloc, given)?,
        "merge" => merged(alloc, given)?,
        "orders" => orders(alloc, given)?,
        "check" => checked(alloc, given)?,
        "rows" => shown(alloc, given)?,
        "delta" => written(alloc, given)?,
        "key" => key(alloc, given)?,
        "profile" => profiled(alloc, given)?,
        "duplicate" => place(alloc, duplicate(&definition(alloc, "t", given)?))?,
        "no_default" => place(alloc, no_default(&definition(alloc, "t", given)?))?,
        _ => return Ok(None),
    }))
}
