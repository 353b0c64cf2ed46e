//! Rows that have keys.

ghost use Rattle.std.specs.Prelude.{◌≡◌, true, false};
ghost use Rattle.std.specs.List.{AllByRecursion};
ghost use Rattle.cr_lattice.specs.Profile.{has_key};
ghost use Rattle.cr_delta.specs.Key.{HasKey};
ghost use Rattle.cr_query.specs.Writes.{has_long_key, lacks_value};
ghost use Rattle.cr_wanted.specs.Judged.{AreWide};

use crate::values::read_rows;
use cr_lattice::table::{Row, TableDef};

/// Reads rows of a table, none of which has a too long key or lacks a value: so each has a key that can be packed.
pub fn read_keys(def: &TableDef, rows: &[Row])
    requires key { has_key def.now ≡ true }
    requires width { AreWide def.now.columns rows.now }
    requires long { has_long_key def.now rows.now ≡ false }
    requires nulls { lacks_value def.now rows.now ≡ false }
    ensures { AllByRecursion (HasKey def.now) rows.now }
{
    read_rows(rows);
}
