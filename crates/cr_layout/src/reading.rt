//! Reading a table's definition from its bytes.

ghost use Rattle.std.specs.Prelude.{◌≡◌, IfOk, IfSome, IfNone};
ghost use Rattle.cr_value.specs.Unpacking.{Gives};
ghost use Rattle.cr_lattice.specs.declared.table.TableDef.{TableDef};
ghost use Rattle.cr_layout.specs.Written.{Spells};
ghost use Rattle.cr_layout.specs.Reading.{name_at, affinity_at, not_null_at, key_at, only, default_of, default_at};
ghost use Rattle.cr_layout.specs.Reading.{column_at, columns_at, columns_of, definition_of};

use cr_lattice::table::{ColumnDef, Items, TableDef};
use cr_value::affinity::Affinity;
use cr_value::packing::{Unread, sized_at, unpack};
use cr_value::text::Text;
use cr_value::value::Value;
use std::alloc::{AllocError, Global};

#[tactic(auto, using(cr_value::proofs::Texts::utf8_tests), unfolding(crate::specs::Reading::name_at))]
fn name_at(alloc: Global, bytes: &[u8]) -> Result<(Text, &[u8]), Unread>
    ensures { Gives (λ x. (x.0, x.1.now)) result (name_at bytes.now) }
{
    let (name, rest) = sized_at(bytes)?;
    match str::from_utf8(name) {
        Ok(name) => Ok((Text::from_str(alloc, name)?, rest)),
        Err(_) => Err(Unread::Malformed),
    }
}

#[tactic(auto, unfolding(crate::specs::Reading::affinity_at))]
fn affinity_at(bytes: &[u8]) -> Result<(Affinity, &[u8]), Unread>
    ensures { Gives (λ x. (x.0, x.1.now)) result (affinity_at bytes.now) }
{
    match bytes {
        [1, rest @ ..] => Ok((Affinity::Integer, rest)),
        [2, rest @ ..] => Ok((Affinity::Text, rest)),
        [3, rest @ ..] => Ok((Affinity::Blob, rest)),
        [4, rest @ ..] => Ok((Affinity::Numeric, rest)),
        _ => Err(Unread::Malformed),
    }
}

// Any byte but 0 and 1 is none, so that a column has one spelling.
#[tactic(auto, unfolding(crate::specs::Reading::not_null_at))]
fn not_null_at(bytes: &[u8]) -> Result<(bool, &[u8]), Unread>
    ensures { Gives (λ x. (x.0, x.1.now)) result (not_null_at bytes.now) }
{
    match bytes {
        [0, rest @ ..] => Ok((false, rest)),
        [1, rest @ ..] => Ok((true, rest)),
        _ => Err(Unread::Malformed),
    }
}

// A place in the key from 1; 0 is outside it.
#[tactic(auto, unfolding(crate::specs::Reading::key_at))]
fn key_at(bytes: &[u8]) -> Result<(Option<u8>, &[u8]), Unread>
    ensures { Gives (λ x. (x.0, x.1.now)) result (key_at bytes.now) }
{
    match bytes {
        [] => Err(Unread::Malformed),
        [0, rest @ ..] => Ok((None, rest)),
        [place, rest @ ..] => Ok((Some(*place), rest)),
    }
}

// The value of a list of one.
#[tactic(auto, unfolding(crate::specs::Reading::only))]
fn only(mut values: Vec<Value>) -> Result<Value, Unread>
    ensures { Gives (λ v. v) result (only values.items) }
{
    match values.pop() {
        Some(value) if values.is_empty() => Ok(value),
        _ => Err(Unread::Malformed),
    }
}

// No bytes are NULL, and else they are a packed key of one value.
#[tactic(auto, unfolding(crate::specs::Reading::default_of))]
fn default_of(alloc: Global, bytes: &[u8]) -> Result<Value, Unread>
    ensures { Gives (λ v. v) result (default_of bytes.now) }
{
    if bytes.is_empty() {
        return Ok(Value::Null);
    }
    match unpack(alloc, bytes)? {
        Some(values) => only(values),
        None => Err(Unread::Malformed),
    }
}

#[tactic(auto, unfolding(crate::specs::Reading::default_at))]
fn default_at(alloc: Global, bytes: &[u8]) -> Result<(Value, &[u8]), Unread>
    ensures { Gives (λ x. (x.0, x.1.now)) result (default_at bytes.now) }
{
    let (packed, rest) = sized_at(bytes)?;
    Ok((default_of(alloc, packed)?, rest))
}

#[tactic(auto, unfolding(crate::specs::Reading::column_at))]
fn column_at(alloc: Global, bytes: &[u8]) -> Result<(ColumnDef, &[u8]), Unread>
    ensures { Gives (λ x. (x.0, x.1.now)) result (column_at bytes.now) }
{
    let (name, rest) = name_at(alloc, bytes)?;
    let (affinity, rest) = affinity_at(rest)?;
    let (collation, rest) = name_at(alloc, rest)?;
    let (not_null, rest) = not_null_at(rest)?;
    let (key, rest) = key_at(rest)?;
    let (default, rest) = default_at(alloc, rest)?;
    let column = ColumnDef {
        name,
        affinity,
        collation,
        not_null,
        key,
        default,
    };
    Ok((column, rest))
}

fn columns_at(alloc: Global, count: u8, bytes: &[u8]) -> Result<(Vec<ColumnDef>, &[u8]), Unread>
    ensures { Gives (λ x. (x.0.items, x.1.now)) result (columns_at count bytes.now) }
{
    let mut columns = Vec::new(alloc);
    let mut rest = bytes;
    for _ in 0..count {
        let (column, after) = column_at(alloc, rest)?;
        columns.push(column)?;
        rest = after;
    }
    Ok((columns, rest))
}

// The columns that all of the bytes spell: nothing follows the last.
#[tactic(auto, unfolding(crate::specs::Reading::columns_of))]
fn all_columns(alloc: Global, bytes: &[u8]) -> Result<Vec<ColumnDef>, Unread>
    ensures { Gives (λ v. v.items) result (columns_of bytes.now) }
{
    match bytes {
        [] => Err(Unread::Malformed),
        [count, rest @ ..] => {
            let (columns, rest) = columns_at(alloc, *count, rest)?;
            if !rest.is_empty() {
                return Err(Unread::Malformed);
            }
            Ok(columns)
        }
    }
}

/// The definition of a table of that name which all of the bytes spell, as `definition` writes it; `None` where they
/// spell none.
///
/// # Errors
/// `AllocError` where memory does not suffice.
#[tactic(auto, unfolding(crate::specs::Reading::definition_of))]
pub fn read_definition(
    alloc: Global,
    name: &str,
    bytes: &[u8],
) -> Result<Option<TableDef>, AllocError>
    ensures some { IfOk result (λ found. IfSome found (λ d. Spells bytes.now name.now d)) }
    ensures none { IfOk result (λ found. IfNone found ((d : TableDef) → ¬ (Spells bytes.now name.now d))) }
    ensures exact { IfOk result (λ found. found ≡ definition_of name.now bytes.now) }
{
    match all_columns(alloc, bytes) {
        Ok(columns) => Ok(Some(TableDef {
            name: Text::from_str(alloc, name)?,
            columns: Items::new(columns),
        })),
        Err(Unread::Malformed) => Ok(None),
        Err(Unread::Memory) => Err(AllocError),
    }
}
