//! The single changes of a write.

ghost use Rattle.std.specs.Prelude.{◌≡◌, IfOk};
ghost use Rattle.cr_delta.specs.Adds.{IsNext};
ghost use Rattle.cr_delta.specs.Delta.{row_change, column_change};

use crate::error::DeltaError;
use cr_lattice::change::{Change, Site};
use cr_lattice::order::ROW_CID;
use cr_lattice::table::{ColumnDef, TableDef};
use cr_value::text::{Bytes, Text};
use cr_value::value::Value;
use std::alloc::{AllocError, Global};

/// One more, or `VersionLimit` where that passes 9223372036854775807.
pub(crate) fn next(number: i64) -> Result<i64, DeltaError>
    ensures { IsNext result number }
{
    number.checked_add(1).ok_or(DeltaError::VersionLimit)
}

/// The row of this key comes or goes.
pub(crate) fn row_change(
    alloc: Global,
    def: &TableDef,
    site: &Site,
    pk: &[u8],
    cl: i64,
) -> Result<Change, AllocError>
    ensures { IfOk result (λ c. c ≡ row_change def.now site.now pk.now cl) }
{
    Ok(Change {
        table: def.name.copy(alloc)?,
        pk: Bytes::from_slice(alloc, pk)?,
        cid: Text::from_str(alloc, ROW_CID)?,
        val: Value::Null,
        col_version: cl,
        site: *site,
        cl,
    })
}

/// A column of the row of this key takes a value.
pub(crate) fn column_change(
    alloc: Global,
    def: &TableDef,
    site: &Site,
    pk: &[u8],
    cl: i64,
    cell: (&ColumnDef, &Value),
    version: i64,
) -> Result<Change, AllocError>
    ensures { IfOk result (λ c. c ≡ column_change def.now site.now pk.now cl (cell.entry.0.now, cell.entry.1.now) version) }
{
    let (column, value) = cell;
    Ok(Change {
        table: def.name.copy(alloc)?,
        pk: Bytes::from_slice(alloc, pk)?,
        cid: column.name.copy(alloc)?,
        val: value.copy(alloc)?,
        col_version: version,
        site: *site,
        cl,
    })
}
