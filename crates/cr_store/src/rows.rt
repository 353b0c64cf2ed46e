//! The rows of `cr_cell2`: what is written and read.

ghost use Rattle.std.specs.Prelude.{◌≡◌, true, [], ◌∷◌, IfOk};
ghost use Rattle.sqlite.specs.declared.types.Value.TheVariants.{Null as SqlNull, Text as SqlText, Blob as SqlBlob, Int as SqlInt};
ghost use Rattle.sqlite.specs.Values.{bound, bound_value};
ghost use Rattle.sqlite_value.specs.Order.{column};
ghost use Rattle.sqlite_value.specs.Value.{owned};
ghost use Rattle.cr_cells.specs.Calls.{IsRefusal, is_want};
ghost use Rattle.cr_store.specs.Ordinals.{ordinal};
ghost use Rattle.cr_store.specs.Rows.{value_of, cell_row, cell_of, name_in, value_in};
ghost use Rattle.cr_store.specs.Told.{told};

use crate::format::Format;
use crate::ordinals::{name_at, ordinal};
use cr_cells::store::{CellsError, StoreFault};
use cr_lattice::change::{Change, Site};
use cr_lattice::stamped::Stamped;
use cr_lattice::table::Table;
use cr_rows::{blob_at, int_at, text_at};
use cr_value::text::{Bytes, Text};
use cr_value::value::Value;
use sqlite::types::ValueRef;
use sqlite::{Error, ErrorCode, Row};
use std::alloc::Global;

/// The error of sqlite where memory runs out.
pub(crate) const OUT_OF_MEMORY: Error = Error::SqliteFailure(ErrorCode::OutOfMemory);

/// What an error of sqlite is to a caller: want of memory is `Memory`, whatever else sqlite refuses is `Refused`.
pub(crate) fn refusal(error: Error) -> CellsError
    ensures told { result ≡ told error }
    ensures refusal { IsRefusal result }
    ensures wants { is_want result ≡ true }
{
    match error {
        Error::SqliteFailure(ErrorCode::OutOfMemory) => CellsError::Memory,
        _ => CellsError::Store(StoreFault::Refused),
    }
}

fn lend(value: &Value) -> ValueRef<'_>
    ensures is { owned result ≡ value_of value.now }
    ensures bound { bound_value (owned result) ≡ value_of value.now }
{
    match value {
        Value::Null => ValueRef::Null,
        Value::Int(n) => ValueRef::Int(*n),
        Value::Text(text) => ValueRef::Text(text.as_str().as_bytes()),
        Value::Blob(blob) => ValueRef::Blob(blob.as_slice()),
    }
}

/// The parameters that give each column of a cell.
pub(crate) fn columns<'a>(tables: &[Table], cell: &'a Stamped) -> [ValueRef<'a>; 9]
    ensures { bound result ≡ cell_row Format.Second tables.now cell.now }
{
    [
        ValueRef::Int(ordinal(tables, cell.change.table.as_str())),
        ValueRef::Blob(cell.change.pk.as_slice()),
        ValueRef::Text(cell.change.cid.as_str().as_bytes()),
        ValueRef::Int(cell.change.cl),
        ValueRef::Int(cell.change.col_version),
        lend(&cell.change.val),
        ValueRef::Blob(&cell.change.site),
        ValueRef::Int(cell.version),
        ValueRef::Int(cell.seq),
    ]
}

/// The parameters that name a cell of before a version.
pub(crate) fn old_key<'a>(tables: &[Table], change: &'a Change, version: i64) -> [ValueRef<'a>; 4]
    ensures { bound result ≡ SqlInt (ordinal tables.now change.now.table) ∷ SqlBlob change.now.pk ∷ SqlText change.now.cid ∷ SqlInt version ∷ [] }
{
    [
        ValueRef::Int(ordinal(tables, change.table.as_str())),
        ValueRef::Blob(change.pk.as_slice()),
        ValueRef::Text(change.cid.as_str().as_bytes()),
        ValueRef::Int(version),
    ]
}

// A store writes no floats.
fn read_value(value: ValueRef<'_>, alloc: Global) -> Result<Value, Error>
    ensures is { IfOk result (λ v. v ≡ value_in (owned value.entry)) }
    ensures kept { IfOk result (λ v. value_of v ≡ owned value.entry) }
{
    match value {
        ValueRef::Null => Ok(Value::Null),
        ValueRef::Int(n) => Ok(Value::Int(n)),
        ValueRef::Real(_) => Err(Error::InvalidQuery),
        ValueRef::Text(text) => match std::str::from_utf8(text) {
            Ok(text) => match Text::from_str(alloc, text) {
                Ok(text) => Ok(Value::Text(text)),
                Err(_) => Err(OUT_OF_MEMORY),
            },
            Err(_) => Err(Error::InvalidQuery),
        },
        ValueRef::Blob(blob) => match Bytes::from_slice(alloc, blob) {
            Ok(blob) => Ok(Value::Blob(blob)),
            Err(_) => Err(OUT_OF_MEMORY),
        },
    }
}

fn value_at(row: &Row, at: usize, alloc: Global) -> Result<Value, Error>
    ensures { IfOk result (λ v. v ≡ value_in (column row.now at)) }
{
    read_value(row.get_ref(at)?, alloc)
}

fn site_at(row: &Row, at: usize) -> Result<Site, Error>
    ensures { IfOk result (λ s. column row.now at ≡ SqlBlob s) }
{
    match row.get_ref(at)? {
        ValueRef::Blob(bytes) if bytes.len() == 16 => {
            let mut site = [0; 16];
            site.copy_from_slice(bytes);
            Ok(site)
        }
        _ => Err(Error::InvalidQuery),
    }
}

// The name of the table whose ordinal a row begins with.
fn table_at(row: &Row, tables: &[Table], alloc: Global) -> Result<Text, Error>
    ensures { IfOk result (λ t. t ≡ name_in Format.Second tables.now (column row.now 0)) }
{
    let ordinal = int_at(row, 0)?;
    match name_at(tables, ordinal) {
        Some(name) => match name.copy(alloc) {
            Ok(name) => Ok(name),
            Err(_) => Err(OUT_OF_MEMORY),
        },
        None => Err(Error::InvalidQuery),
    }
}

/// The cell that a row of the nine columns of `cr_cell2` shows.
pub(crate) fn read_cell(row: &Row, tables: &[Table], alloc: Global) -> Result<Stamped, Error>
    ensures { IfOk result (λ c. c ≡ cell_of Format.Second tables.now (SqlNull ∷ row.now)) }
{
    let table = table_at(row, tables, alloc)?;
    let pk = Bytes::new(blob_at(row, 1)?);
    let cid = Text::new(text_at(row, 2)?);
    let cl = int_at(row, 3)?;
    let col_version = int_at(row, 4)?;
    let val = value_at(row, 5, alloc)?;
    let site = site_at(row, 6)?;
    let version = int_at(row, 7)?;
    let seq = int_at(row, 8)?;
    let change = Change {
        table,
        pk,
        cid,
        val,
        col_version,
        site,
        cl,
    };
    Ok(Stamped {
        change,
        version,
        seq,
    })
}
