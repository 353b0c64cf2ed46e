//! What stands against the rows that a write wants of a table.

ghost use Rattle.std.specs.Prelude.{◌≡◌, true};
ghost use Rattle.cr_lattice.specs.Profile.{has_key};
ghost use Rattle.cr_wanted.specs.Judged.{AreWide, Judges};

use crate::by_key::by_key;
use crate::keyed::read_keys;
use crate::long::has_long_key;
use crate::nulls::lacks_value;
use cr_lattice::table::{Row, TableDef};
use std::alloc::{AllocError, Global};
use thiserror::Error;

/// Why a table does not take the rows that are wanted of it.
#[derive(Clone, Copy, Debug, PartialEq, Eq, Error)]
pub enum Against {
    /// The packed key of some row has over 1,000,000 bytes.
    #[error("a packed key is over 1,000,000 bytes")]
    LongKey,
    /// Some row has NULL in a key column or in a NOT NULL column.
    #[error("NOT NULL constraint failed")]
    LackingValue,
    /// Two rows have one key.
    #[error("UNIQUE constraint failed: two rows have one key")]
    KeyTwice,
    #[error("out of memory")]
    Memory,
}

impl From<AllocError> for Against {
    ghost use Rattle.std.specs.Prelude.{◌≡◌};
    ghost use Rattle.cr_wanted.specs.declared.judged.Against.TheVariants.{Memory};

    ghost from_gives = { λ _ e. e ≡ Memory };

    fn from(_e: AllocError) -> Against {
        Against::Memory
    }
}

/// The rows that are wanted of a table by the bytes of their packed keys, as `delta` takes them, or the first that stands
/// against them.
///
/// # Errors
/// `LongKey` before `LackingValue`, and that before `KeyTwice`; `Memory` where memory runs out.
pub fn judged(alloc: Global, def: &TableDef, rows: Vec<Row>) -> Result<Vec<Row>, Against>
    requires key { has_key def.now ≡ true }
    requires width { AreWide def.now.columns rows.items }
    ensures { Judges (λ v. v.items) def.now rows.items result }
{
    if has_long_key(def, rows.as_slice()) {
        return Err(Against::LongKey);
    }
    if lacks_value(def, rows.as_slice()) {
        return Err(Against::LackingValue);
    }
    read_keys(def, rows.as_slice());
    match by_key(alloc, def, rows)? {
        Some(rows) => Ok(rows),
        None => Err(Against::KeyTwice),
    }
}
