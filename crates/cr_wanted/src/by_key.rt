//! Rows by their keys.

ghost use Rattle.std.specs.Prelude.{◌≡◌, true, false, is_some, map, IfOk, OnOk, MatchOption};
ghost use Rattle.std.specs.BTreeMap.{get, insert_entry};
ghost use Rattle.std.specs.List.{AllByRecursion};
ghost use Rattle.cr_value.specs.Order.{bytes_cmp};
ghost use Rattle.cr_delta.specs.Key.{key_of, HasKey};
ghost use Rattle.cr_query.specs.Writes.{has_twice, by_key};
ghost use Rattle.cr_wanted.specs.Judged.{under};

use cr_delta::key::key_of;
use cr_lattice::table::{Row, TableDef};
use cr_value::text::Bytes;
use std::alloc::{AllocError, Global};
use std::collections::BTreeMap;

// Puts a row under its key, and tells whether one was there.
fn put_under(
    alloc: Global,
    def: &TableDef,
    under: &mut BTreeMap<Bytes, Row>,
    row: Row,
) -> Result<bool, AllocError>
    requires { HasKey def.now row }
    ensures told { IfOk result (λ b. b ≡ is_some (get bytes_cmp under.old (key_of def.now row))) }
    ensures put { OnOk result (under.new.entries ≡ insert_entry bytes_cmp under.old.entries (key_of def.now row) row) }
{
    let key = key_of(alloc, def, row.as_slice())?;
    let before = under.insert(key, row)?;
    Ok(before.is_some())
}

// The rows under their keys, or none where two have one key.
fn under_keys(
    alloc: Global,
    def: &TableDef,
    rows: Vec<Row>,
) -> Result<Option<BTreeMap<Bytes, Row>>, AllocError>
    requires { AllByRecursion (HasKey def.now) rows.items }
    ensures { IfOk result (λ o. MatchOption o (has_twice def.now rows.items ≡ true) (λ m. (has_twice def.now rows.items ≡ false) × (m.entries ≡ map (under def.now) (by_key def.now rows.items)))) }
{
    let mut under = BTreeMap::new(alloc);
    for row in rows {
        if put_under(alloc, def, &mut under, row)? {
            return Ok(None);
        }
    }
    Ok(Some(under))
}

// The rows of a map, by their keys.
fn rows_of(alloc: Global, under: BTreeMap<Bytes, Row>) -> Result<Vec<Row>, AllocError>
    ensures { IfOk result (λ v. v.items ≡ map (λ e. e.1) under.entries) }
{
    under.into_values().collect(alloc)
}

/// The rows by the bytes of their packed keys, or none where two have one key. Takes time in proportion to n log n for n
/// rows. Fails for want of memory alone.
pub fn by_key(alloc: Global, def: &TableDef, rows: Vec<Row>) -> Result<Option<Vec<Row>>, AllocError>
    requires { AllByRecursion (HasKey def.now) rows.items }
    ensures { IfOk result (λ o. MatchOption o (has_twice def.now rows.items ≡ true) (λ v. (has_twice def.now rows.items ≡ false) × (v.items ≡ by_key def.now rows.items))) }
{
    match under_keys(alloc, def, rows)? {
        None => Ok(None),
        Some(under) => {
            let rows = rows_of(alloc, under)?;
            Ok(Some(rows))
        }
    }
}
