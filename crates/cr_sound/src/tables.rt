//! Whether tables are such as a store holds.

ghost use Rattle.std.specs.Prelude.{◌≡◌, true, Decides};
ghost use Rattle.std.specs.List.{AllByRecursion, IsDistinct};
ghost use Rattle.cr_cells.specs.Tables.{same_name, IsStored, IsNewTable};
ghost use Rattle.cr_sound.specs.Sound.{has_its_defaults};

use cr_cells::tables::{has_defaults, is_new_table};
use cr_lattice::table::Table;

fn has_its_defaults(table: &Table) -> bool
    ensures { result ≡ has_its_defaults table.now }
{
    !table.is_replicated || has_defaults(&table.definition)
}

// Whether a table is one that a store may add to others, with its defaults if it is replicated.
fn comes_after(others: &[Table], table: &Table) -> bool
    ensures { Decides result (IsNewTable others.now table.now.definition × (has_its_defaults table.now ≡ true)) }
{
    is_new_table(others, &table.definition) && has_its_defaults(table)
}

/// Whether tables have distinct names and definitions that a store takes, and the replicated ones have their defaults.
pub(crate) fn are_stored(tables: &[Table]) -> bool
    ensures { Decides result (IsDistinct same_name tables.now × AllByRecursion IsStored tables.now) }
{
    for (place, table) in tables.iter().enumerate() {
        if !comes_after(&tables[..place], table) {
            return false;
        }
    }
    true
}
