//! Values, changes, rows and definitions from the texts of cases.

use crate::error::ToldError;
use cr_lattice::change::{Change, Site};
use cr_lattice::table::{ColumnDef, Items, Row, TableDef};
use cr_value::affinity::{Affinity, int_of_text};
use cr_value::literal::read_literal;
use cr_value::text::{Bytes, Text};
use cr_value::value::Value;
use std::alloc::{AllocError, Global};

/// The site of 16 bytes 10.
pub const A: Site = [10; 16];

/// The site of 16 bytes 11.
pub const B: Site = [11; 16];

/// The columns of t(id INT PRIMARY KEY, name TEXT DEFAULT 'none').
pub const T: &str = "id|INT|1|NULL / name|TEXT||'none'";

/// The value of a literal.
pub fn value(alloc: Global, literal: &str) -> Result<Value, ToldError> {
    match read_literal(alloc, literal, 0)? {
        Some((value, end)) if end == literal.len() => Ok(value),
        _ => Err(ToldError::Form),
    }
}

// What stands before the next bar, which the rest follows.
fn part<'a>(rest: &mut &'a str) -> &'a str {
    let (before, after) = match rest.split_once('|') {
        Some(parts) => parts,
        None => (*rest, ""),
    };
    *rest = after;
    before
}

fn number(digits: &str) -> Result<i64, ToldError> {
    int_of_text(digits).ok_or(ToldError::Form)
}

fn digit(digits: &str) -> Option<u8> {
    match digits.as_bytes() {
        [digit @ b'0'..=b'9'] => Some(*digit - b'0'),
        _ => None,
    }
}

/// The packed key of one integer.
pub fn key(alloc: Global, id: u8) -> Result<Bytes, AllocError> {
    Bytes::from_slice(alloc, &[1, 1, 0, 0, 0, 0, 0, 0, 0, id])
}

fn key_told(alloc: Global, told: &str) -> Result<Bytes, ToldError> {
    if let Some(id) = digit(told) {
        return Ok(key(alloc, id)?);
    }
    match value(alloc, told)? {
        Value::Blob(bytes) => Ok(bytes),
        _ => Err(ToldError::Form),
    }
}

fn site(told: &str) -> Result<Site, ToldError> {
    match told {
        "A" => Ok(A),
        "B" => Ok(B),
        _ => Err(ToldError::Form),
    }
}

/// A change.
pub fn change(alloc: Global, told: &str) -> Result<Change, ToldError> {
    let mut rest = told;
    let table = part(&mut rest);
    let pk = key_told(alloc, part(&mut rest))?;
    let cid = part(&mut rest);
    let val = value(alloc, part(&mut rest))?;
    let col_version = number(part(&mut rest))?;
    let site = site(part(&mut rest))?;
    Ok(Change {
        table: Text::from_str(alloc, table)?,
        pk,
        cid: Text::from_str(alloc, cid)?,
        val,
        col_version,
        site,
        cl: number(rest)?,
    })
}

/// A list of changes.
pub fn changes(alloc: Global, told: &str) -> Result<Vec<Change>, ToldError> {
    let mut all = Vec::new(alloc);
    for part in told.split(" / ") {
        if !part.is_empty() {
            all.push(change(alloc, part)?)?;
        }
    }
    Ok(all)
}

/// A column. One whose type has no affinity that a table may have is a BLOB.
pub fn column(alloc: Global, told: &str) -> Result<ColumnDef, ToldError> {
    let mut rest = told;
    let name = part(&mut rest);
    let affinity = Affinity::of_type(part(&mut rest)).unwrap_or(Affinity::Blob);
    let key = digit(part(&mut rest));
    let default = value(alloc, part(&mut rest))?;
    let not_null = part(&mut rest) == "NOT NULL";
    let collation = if rest.is_empty() { "binary" } else { rest };
    Ok(ColumnDef {
        name: Text::from_str(alloc, name)?,
        affinity,
        collation: Text::from_str(alloc, collation)?,
        not_null,
        key,
        default,
    })
}

/// A table's definition from its columns.
pub fn definition(alloc: Global, name: &str, told: &str) -> Result<TableDef, ToldError> {
    let mut columns = Vec::new(alloc);
    for part in told.split(" / ") {
        if !part.is_empty() {
            columns.push(column(alloc, part)?)?;
        }
    }
    Ok(TableDef {
        name: Text::from_str(alloc, name)?,
        columns: Items::new(columns),
    })
}

/// Values, parted by bars.
pub fn values(alloc: Global, told: &str) -> Result<Vec<Value>, ToldError> {
    let mut values = Vec::new(alloc);
    for part in told.split('|') {
        values.push(value(alloc, part)?)?;
    }
    Ok(values)
}

/// A list of rows.
pub fn rows_of(alloc: Global, told: &str) -> Result<Vec<Row>, ToldError> {
    let mut all = Vec::new(alloc);
    for part in told.split(" / ") {
        if !part.is_empty() {
            all.push(Items::new(values(alloc, part)?))?;
        }
    }
    Ok(all)
}
