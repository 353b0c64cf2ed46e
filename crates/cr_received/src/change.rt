//! The change that a row of the table of changes tells of.

ghost use Rattle.std.specs.Prelude.{◌≡◌, IfOk};
ghost use Rattle.std.specs.Option.{option_copied};
ghost use Rattle.cr_replica.specs.ChangeRow.{text_of, blob_of, integer_of, site_of};
ghost use Rattle.cr_world.specs.Statement.{at, change_of_row};

use cr_lattice::change::{Change, Site};
use cr_value::text::{Bytes, Text};
use cr_value::value::Value;
use std::alloc::{AllocError, Global};

fn text_at(row: &[Value], place: usize) -> Option<&Text>
    ensures { option_copied result ≡ text_of (at place row.now) }
{
    match row.get(place) {
        Some(Value::Text(text)) => Some(text),
        _ => None,
    }
}

fn blob_at(row: &[Value], place: usize) -> Option<&Bytes>
    ensures { option_copied result ≡ blob_of (at place row.now) }
{
    match row.get(place) {
        Some(Value::Blob(blob)) => Some(blob),
        _ => None,
    }
}

fn integer_at(row: &[Value], place: usize) -> Option<i64>
    ensures { result ≡ integer_of (at place row.now) }
{
    match row.get(place) {
        Some(Value::Int(number)) => Some(*number),
        _ => None,
    }
}

fn site_at(row: &[Value], place: usize) -> Option<Site>
    ensures { result ≡ site_of (at place row.now) }
{
    Site::try_from(blob_at(row, place)?.as_slice()).ok()
}

fn value_at(alloc: Global, row: &[Value], place: usize) -> Result<Value, AllocError>
    ensures { IfOk result (λ v. v ≡ at place row.now) }
{
    match row.get(place) {
        Some(value) => value.copy(alloc),
        None => Ok(Value::Null),
    }
}

/// The change that a row of the table of changes tells of, in memory of its own: `None` where the row has not the shape of
/// one, that is texts for the table and the cid, blobs for the key and the site, the site of 16 bytes, and integers for
/// the version and the causal length.
pub fn change_of(alloc: Global, row: &[Value]) -> Result<Option<Change>, AllocError>
    ensures { IfOk result (λ change. change ≡ change_of_row row.now) }
{
    let Some(table) = text_at(row, 0) else {
        return Ok(None);
    };
    let Some(pk) = blob_at(row, 1) else {
        return Ok(None);
    };
    let Some(cid) = text_at(row, 2) else {
        return Ok(None);
    };
    let Some(col_version) = integer_at(row, 4) else {
        return Ok(None);
    };
    let Some(site) = site_at(row, 6) else {
        return Ok(None);
    };
    let Some(cl) = integer_at(row, 7) else {
        return Ok(None);
    };
    Ok(Some(Change {
        table: table.copy(alloc)?,
        pk: pk.copy(alloc)?,
        cid: cid.copy(alloc)?,
        val: value_at(alloc, row, 3)?,
        col_version,
        site,
        cl,
    }))
}
