//! Values, changes and rows as the texts of cases.

use crate::reading::A;
use cr_lattice::change::Change;
use cr_lattice::table::Row;
use cr_value::literal::literal_text;
use cr_value::value::Value;
use std::alloc::{AllocError, Global};

/// Values as a row.
pub fn told_values(alloc: Global, values: &[Value]) -> Result<String, AllocError> {
    let mut told = String::new(alloc);
    for (at, value) in values.iter().enumerate() {
        if at > 0 {
            told.push_str("|")?;
        }
        told.push_str(literal_text(alloc, value)?.as_str())?;
    }
    Ok(told)
}

/// A list of rows.
pub fn told_rows(alloc: Global, rows: &[Row]) -> Result<String, AllocError> {
    let mut told = String::new(alloc);
    for row in rows {
        if !told.is_empty() {
            told.push_str(" / ")?;
        }
        told.push_str(told_values(alloc, row.as_slice())?.as_str())?;
    }
    Ok(told)
}

// The digit of a packed key of one small integer, else the key's blob.
fn told_key(alloc: Global, pk: &[u8]) -> Result<String, AllocError> {
    match pk {
        [1, 1, 0, 0, 0, 0, 0, 0, 0, id] if *id < 10 => format!(in alloc; "{id}"),
        _ => format!(in alloc; "X'{}'", hex::encode_upper(alloc, pk)?),
    }
}

/// A change.
pub fn told_change(alloc: Global, change: &Change) -> Result<String, AllocError> {
    format!(in alloc;
        "{}|{}|{}|{}|{}|{}|{}",
        change.table.as_str(),
        told_key(alloc, change.pk.as_slice())?,
        change.cid.as_str(),
        literal_text(alloc, &change.val)?,
        change.col_version,
        if change.site == A { "A" } else { "B" },
        change.cl
    )
}

/// A list of changes.
pub fn told_changes(alloc: Global, changes: &[Change]) -> Result<String, AllocError> {
    let mut told = String::new(alloc);
    for change in changes {
        if !told.is_empty() {
            told.push_str(" / ")?;
        }
        told.push_str(told_change(alloc, change)?.as_str())?;
    }
    Ok(told)
}
