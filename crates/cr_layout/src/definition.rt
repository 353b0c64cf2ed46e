//! The bytes of a table's definition.

ghost use Rattle.std.specs.Prelude.{◌≡◌, ◌<◌, ◌≤◌, ◌^◌, [], ◌∷◌, ◌++◌, length, OnOk, IfOk};
ghost use Rattle.std.specs.List.{flat_map, AllByRecursion};
ghost use Rattle.std.specs.Result.{IsErrOf};
ghost use Rattle.cr_value.specs.Packing.{sized};
ghost use Rattle.cr_layout.specs.Definition.{affinity_byte, not_null_byte, key_byte, default_bytes, column_bytes, definition};
ghost use Rattle.cr_layout.specs.Written.{FitsPlace, FitsDefault, FitsColumn, FitsBytes};

use cr_lattice::table::{ColumnDef, TableDef};
use cr_value::affinity::Affinity;
use cr_value::packing::{PackError, pack};
use cr_value::value::Value;
use std::alloc::{AllocError, AllocFailed, Global};
use thiserror::Error;

/// Why a definition could not be written.
#[derive(Debug, Drop, Error)]
pub enum LayoutError {
    #[error("out of memory")]
    Memory,
    /// A count or a length does not fit its bytes, or a default is longer than a packed key may be.
    #[error("a count or a length does not fit its bytes")]
    TooLong,
}

impl From<AllocError> for LayoutError {
    ghost use Rattle.std.specs.Prelude.{◌≡◌};
    ghost use Rattle.cr_layout.specs.declared.definition.LayoutError.TheVariants.{Memory};

    ghost from_gives = { λ _ e. e ≡ Memory };

    fn from(_e: AllocError) -> LayoutError {
        LayoutError::Memory
    }
}

impl<T: Drop> From<AllocFailed<T>> for LayoutError {
    ghost use Rattle.std.specs.Prelude.{◌≡◌};
    ghost use Rattle.cr_layout.specs.declared.definition.LayoutError.TheVariants.{Memory};

    ghost from_gives = { λ _ e. e ≡ Memory };

    fn from(_e: AllocFailed<T>) -> LayoutError {
        LayoutError::Memory
    }
}

fn affinity_byte(affinity: Affinity) -> u8
    ensures { result ≡ affinity_byte affinity }
{
    match affinity {
        Affinity::Integer => 1,
        Affinity::Text => 2,
        Affinity::Blob => 3,
        Affinity::Numeric => 4,
    }
}

fn not_null_byte(not_null: bool) -> u8
    ensures { result ≡ not_null_byte not_null }
{
    if not_null { 1 } else { 0 }
}

fn key_byte(key: Option<u8>) -> u8
    ensures byte { result ≡ key_byte key }
    ensures fits { FitsPlace key }
{
    match key {
        Some(place) => place,
        None => 0,
    }
}

fn append(out: &mut Vec<u8>, bytes: &[u8]) -> Result<(), AllocError>
    ensures { OnOk result (out.new.items ≡ out.old.items ++ bytes.now) }
{
    out.extend_from_slice(bytes)?;
    Ok(())
}

fn append_byte(out: &mut Vec<u8>, byte: u8) -> Result<(), AllocError>
    ensures { OnOk result (out.new.items ≡ out.old.items ++ byte ∷ []) }
{
    out.push(byte)?;
    Ok(())
}

// The length in four bytes, the highest first, and the bytes.
fn push_sized(out: &mut Vec<u8>, bytes: &[u8]) -> Result<(), LayoutError>
    ensures ok { OnOk result (out.new.items ≡ out.old.items ++ sized bytes.now) }
    ensures fits { OnOk result (length bytes.now < 2 ^ 32) }
    ensures too_long { IsErrOf result LayoutError.TooLong → 2 ^ 32 ≤ length bytes.now }
{
    let Ok(len) = u32::try_from(bytes.len()) else {
        return Err(LayoutError::TooLong);
    };
    append(out, &len.to_be_bytes())?;
    append(out, bytes)?;
    Ok(())
}

// A value as a packed key of it alone, nothing for NULL.
fn default_bytes(alloc: Global, value: &Value) -> Result<Vec<u8>, LayoutError>
    ensures ok { IfOk result (λ v. v.items ≡ default_bytes value.now) }
    ensures fits { OnOk result (FitsDefault value.now) }
    ensures too_long { IsErrOf result LayoutError.TooLong → ¬ (FitsDefault value.now) }
{
    match value {
        Value::Null => Ok(Vec::new(alloc)),
        _ => match pack(alloc, std::slice::from_ref(value)) {
            Ok(bytes) => Ok(bytes),
            Err(PackError::Memory) => Err(LayoutError::Memory),
            Err(PackError::TooBig) => Err(LayoutError::TooLong),
        },
    }
}

fn push_column(alloc: Global, out: &mut Vec<u8>, column: &ColumnDef) -> Result<(), LayoutError>
    ensures ok { OnOk result (out.new.items ≡ out.old.items ++ column_bytes column.now) }
    ensures fits { OnOk result (FitsColumn column.now) }
    ensures too_long { IsErrOf result LayoutError.TooLong → ¬ (FitsColumn column.now) }
{
    let default = default_bytes(alloc, &column.default)?;
    push_sized(out, column.name.as_str().as_bytes())?;
    append_byte(out, affinity_byte(column.affinity))?;
    push_sized(out, column.collation.as_str().as_bytes())?;
    append_byte(out, not_null_byte(column.not_null))?;
    append_byte(out, key_byte(column.key))?;
    push_sized(out, &default)
}

fn push_columns(alloc: Global, out: &mut Vec<u8>, columns: &[ColumnDef]) -> Result<(), LayoutError>
    ensures ok { OnOk result (out.new.items ≡ out.old.items ++ flat_map column_bytes columns.now) }
    ensures fits { OnOk result (AllByRecursion FitsColumn columns.now) }
    ensures too_long { IsErrOf result LayoutError.TooLong → ¬ (AllByRecursion FitsColumn columns.now) }
{
    for column in columns {
        push_column(alloc, out, column)?;
    }
    Ok(())
}

/// The bytes of a definition: the number of its columns in a byte; then of each column its name, its affinity (1 INTEGER,
/// 2 TEXT, 3 BLOB, 4 NUMERIC), the name of its collation, a byte 1 where it is NOT NULL and else 0, its place in the key
/// from 1 or 0, and its default as a packed key of it alone, of no bytes for NULL. A name and a default stand after their
/// length in four bytes, the highest first.
///
/// # Errors
/// `Memory`; `TooLong` where a count or a length does not fit its bytes, or a default is longer than a packed key may be.
pub fn definition(alloc: Global, def: &TableDef) -> Result<Vec<u8>, LayoutError>
    ensures ok { IfOk result (λ v. v.items ≡ definition def.now) }
    ensures fits { OnOk result (FitsBytes def.now) }
    ensures too_long { IsErrOf result LayoutError.TooLong → ¬ (FitsBytes def.now) }
{
    let columns = def.columns.as_slice();
    let Ok(count) = u8::try_from(columns.len()) else {
        return Err(LayoutError::TooLong);
    };
    let mut out = Vec::new(alloc);
    append_byte(&mut out, count)?;
    push_columns(alloc, &mut out, columns)?;
    Ok(out)
}
