//! Rows whose key is too long.

ghost use Rattle.std.specs.Prelude.{◌≡◌, ◌-◌, ◌^◌, ◌&&◌, not, nat_lt, min, length};
ghost use Rattle.cr_value.specs.Packing.{size_limit};
ghost use Rattle.cr_delta.specs.Key.{key_of};
ghost use Rattle.cr_query.specs.Writes as writes;

use crate::nulls::has_null_key;
use cr_delta::key::key_part;
use cr_lattice::table::{Row, TableDef};
use cr_value::packing::{SIZE_LIMIT, packed_value_len};
use cr_value::value::Value;

// How many bytes the packed key of a row has.
fn key_len(def: &TableDef, row: &[Value]) -> usize
    ensures { result ≡ min (length (key_of def.now row.now)) (2 ^ 64 - 1) }
{
    let mut len: usize = 1;
    for place in 1..9 {
        if let Some(value) = key_part(def, row, place) {
            len = len.saturating_add(packed_value_len(value));
        }
    }
    len
}

// Whether a row has a key without NULL that is too long.
fn is_long(def: &TableDef, row: &[Value]) -> bool
    ensures { result ≡ (not (writes.has_null_key def.now row.now) && nat_lt size_limit (length (key_of def.now row.now))) }
{
    !has_null_key(def, row) && key_len(def, row) > SIZE_LIMIT
}

/// Whether the packed key of some row has over 1,000,000 bytes; a row with NULL in a key column has no key. Takes no memory.
pub fn has_long_key(def: &TableDef, rows: &[Row]) -> bool
    ensures { result ≡ writes.has_long_key def.now rows.now }
{
    for row in rows {
        if is_long(def, row.as_slice()) {
            return true;
        }
    }
    false
}
