//! The key that the terms of a WHERE ask for.

ghost use Rattle.std.specs.Prelude.{◌≡◌, ◌≤◌, ◌+◌, ◌++◌, IfOk, length, position};
ghost use Rattle.std.specs.List.{list_any};
ghost use Rattle.std.specs.Option.{option_map};
ghost use Rattle.cr_lattice.specs.Check.{stands_at};
ghost use Rattle.cr_scalar.specs.Numbers.{is_null};
ghost use Rattle.cr_sought.specs.Sought.{assigns_key, can_pack, is_of_key, is_to_key, joined_key, key_from, key_or_none, keys_told, sought_values, tells};

use crate::telling::{Telling, told};
use cr_lattice::table::{ColumnDef, TableDef};
use cr_scalar::compare::is_null;
use cr_term::query::{Assignment, Update};
use cr_value::packing::{PackError, pack};
use cr_value::text::Bytes;
use cr_value::value::Value;
use std::alloc::{AllocError, Global};

// The place in the row of the key column at a place of the key.
fn key_column(columns: &[ColumnDef], place: u8) -> Option<usize>
    ensures { result ≡ position (stands_at place) columns.now }
{
    columns.iter().position(|column| column.key == Some(place))
}

// A place so far behind another. A combination of more columns than there are numbers does not fit in memory.
fn place_from(base: usize, at: usize) -> Result<usize, AllocError>
    ensures { IfOk result (λ place. place ≡ base + at) }
{
    match base.checked_add(at) {
        Some(place) => Ok(place),
        None => Err(AllocError),
    }
}

// The values that all key columns are told to have, in the order of the key; the table's columns begin at a place of a
// combination.
pub(crate) fn sought_values(
    alloc: Global,
    telling: &Telling<'_, '_>,
    base: usize,
    definition: &TableDef,
) -> Result<Option<Vec<Value>>, AllocError>
    ensures { IfOk result (λ o. option_map (λ v. v.items) o ≡ sought_values (tells telling.now) base definition.now) }
{
    let mut values = Vec::new(alloc);
    for place in 1..9 {
        if let Some(at) = key_column(definition.columns.as_slice(), place) {
            let column = place_from(base, at)?;
            match told(alloc, telling, column)? {
                Some(value) => values.push(value)?,
                None => return Ok(None),
            }
        }
    }
    Ok(Some(values))
}

pub(crate) fn has_null(values: &[Value]) -> bool
    ensures { result ≡ list_any is_null values.now }
{
    values.iter().any(|value| is_null(value))
}

// Whether there are some values, and none of them is NULL.
fn can_pack(values: &[Value]) -> bool
    ensures { result ≡ can_pack values.now }
{
    !values.is_empty() && !has_null(values)
}

// The key that values are packed as; `None` where there are none, one is NULL, or it has over 1,000,000 bytes.
pub(crate) fn key_from(alloc: Global, values: &[Value]) -> Result<Option<Bytes>, AllocError>
    requires { length values.now ≤ 8 }
    ensures { IfOk result (λ o. o ≡ key_from values.now) }
{
    if !can_pack(values) {
        return Ok(None);
    }
    match pack(alloc, values) {
        Ok(bytes) => Ok(Some(Bytes::new(bytes))),
        Err(PackError::TooBig) => Ok(None),
        Err(PackError::Memory) => Err(AllocError),
    }
}

// The key of the row that can be wanted where its key has these values: of none where one is NULL; `None` where they make no key.
fn joined_key(alloc: Global, values: &[Value]) -> Result<Option<Option<Bytes>>, AllocError>
    requires { length values.now ≤ 8 }
    ensures { IfOk result (λ o. o ≡ joined_key values.now) }
{
    if has_null(values) {
        return Ok(Some(None));
    }
    match key_from(alloc, values)? {
        Some(key) => Ok(Some(Some(key))),
        None => Ok(None),
    }
}

/// The key of the rows whose key columns have the values that they are told to have: of none where one is NULL; `None` where not all
/// are told, or they make no key. The table's columns begin at a place of a combination. Fails for want of memory alone.
pub(crate) fn key_told(
    alloc: Global,
    telling: &Telling<'_, '_>,
    base: usize,
    definition: &TableDef,
) -> Result<Option<Option<Bytes>>, AllocError>
    ensures { IfOk result (λ o. option_map key_or_none o ≡ keys_told (tells telling.now) base definition.now) }
{
    match sought_values(alloc, telling, base, definition)? {
        Some(values) => joined_key(alloc, &values),
        None => Ok(None),
    }
}

/// Adds a key, if there is one.
pub(crate) fn push_key(keys: &mut Vec<Bytes>, key: Option<Bytes>) -> Result<(), AllocError>
    ensures { IfOk result (λ u. keys.new.items ≡ keys.old.items ++ key_or_none key) }
{
    if let Some(key) = key {
        keys.push(key)?;
    }
    Ok(())
}

/// Whether the column at a place is a key column.
pub(crate) fn is_of_key(definition: &TableDef, at: usize) -> bool
    ensures { result ≡ is_of_key definition.now at }
{
    match definition.columns.as_slice().get(at) {
        Some(column) => column.key.is_some(),
        None => false,
    }
}

// Whether an assignment is to a key column.
fn is_to_key(definition: &TableDef, assignment: &Assignment) -> bool
    ensures { result ≡ is_to_key definition.now assignment.now }
{
    is_of_key(definition, assignment.column)
}

/// Whether an UPDATE gives a value to a key column of its table.
pub fn assigns_key(update: &Update) -> bool
    ensures { result ≡ assigns_key update.now }
{
    let definition = &update.relation.definition;
    let mut assignments = update.assignments.as_slice().iter();
    assignments.any(|assignment| is_to_key(definition, assignment))
}
