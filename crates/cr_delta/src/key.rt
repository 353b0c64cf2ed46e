//! The packed keys of rows.

ghost use Rattle.std.specs.Prelude.{◌≡◌, ◌↔◌, map, IsTrue, IfOk};
ghost use Rattle.std.specs.List.{AllByRecursion};
ghost use Rattle.std.specs.Option.{option_copied};
ghost use Rattle.cr_value.specs.Packing.{CanPack, IsNotNull};
ghost use Rattle.cr_lattice.specs.Rows.{keys_in_order};
ghost use Rattle.cr_delta.specs.Key.{key_part, key_values, key_of, HasKey};

use cr_lattice::table::{Row, TableDef};
use cr_value::packing::{PackError, pack};
use cr_value::text::Bytes;
use cr_value::value::Value;
use std::alloc::{AllocError, Global};

/// The row's value in the key column at a place, counted from 1; `None` where the table has no such column. Takes no memory.
pub fn key_part<'a>(def: &TableDef, row: &'a [Value], place: u8) -> Option<&'a Value>
    ensures { option_copied result ≡ key_part def.now row.now place }
{
    for (column, value) in def.columns.as_slice().iter().zip(row) {
        if column.key == Some(place) {
            return Some(value);
        }
    }
    None
}

fn key_values(alloc: Global, def: &TableDef, row: &[Value]) -> Result<Vec<Value>, AllocError>
    ensures { IfOk result (λ v. v.items ≡ key_values def.now row.now) }
{
    let mut values = Vec::new(alloc);
    for place in 1..9 {
        if let Some(value) = key_part(def, row, place) {
            values.push(value.copy(alloc)?)?;
        }
    }
    Ok(values)
}

fn is_not_null(value: &Value) -> bool
    ensures { IsTrue result ↔ IsNotNull value.now }
{
    !matches!(value, Value::Null)
}

fn has_no_null(values: &[Value]) -> bool
    ensures { IsTrue result ↔ AllByRecursion IsNotNull values.now }
{
    for value in values {
        if !is_not_null(value) {
            return false;
        }
    }
    true
}

fn can_pack(values: &[Value]) -> bool
    ensures { IsTrue result ↔ CanPack values.now }
{
    !values.is_empty() && values.len() <= 8 && has_no_null(values)
}

/// Whether the row has a key that can be packed: one to eight values, none of them NULL, of 1,000,000 bytes at most.
pub fn is_keyed(alloc: Global, def: &TableDef, row: &[Value]) -> Result<bool, AllocError>
    ensures { IfOk result (λ b. IsTrue b ↔ HasKey def.now row.now) }
{
    let values = key_values(alloc, def, row)?;
    if !can_pack(&values) {
        return Ok(false);
    }
    match pack(alloc, &values) {
        Ok(_) => Ok(true),
        Err(PackError::TooBig) => Ok(false),
        Err(PackError::Memory) => Err(AllocError),
    }
}

/// Whether each of the rows has one.
pub fn are_keyed(alloc: Global, def: &TableDef, rows: &[Row]) -> Result<bool, AllocError>
    ensures { IfOk result (λ b. IsTrue b ↔ AllByRecursion (HasKey def.now) rows.now) }
{
    for row in rows {
        if !is_keyed(alloc, def, row.as_slice())? {
            return Ok(false);
        }
    }
    Ok(true)
}

/// The packed key of a row.
pub fn key_of(alloc: Global, def: &TableDef, row: &[Value]) -> Result<Bytes, AllocError>
    requires { HasKey def.now row.now }
    ensures { IfOk result (λ pk. pk ≡ key_of def.now row.now) }
{
    let values = key_values(alloc, def, row)?;
    match pack(alloc, &values) {
        Ok(bytes) => Ok(Bytes::new(bytes)),
        // No key here is too big.
        Err(PackError::Memory | PackError::TooBig) => Err(AllocError),
    }
}

/// The packed keys of rows, in their order. Fails for want of memory alone.
pub fn keys_of(alloc: Global, def: &TableDef, rows: &[Row]) -> Result<Vec<Bytes>, AllocError>
    requires { AllByRecursion (HasKey def.now) rows.now }
    ensures { IfOk result (λ v. v.items ≡ map (key_of def.now) rows.now) }
{
    let mut keys = Vec::new(alloc);
    for row in rows {
        keys.push(key_of(alloc, def, row.as_slice())?)?;
    }
    Ok(keys)
}

/// The keys by their bytes, each once. Fails for want of memory alone.
pub fn in_order(mut keys: Vec<Bytes>) -> Result<Vec<Bytes>, AllocError>
    ensures { IfOk result (λ v. v.items ≡ keys_in_order keys.items) }
{
    keys.sort()?;
    keys.dedup();
    Ok(keys)
}
