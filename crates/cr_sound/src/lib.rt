//! Whether what was read from a file is what a sound store of cells holds.
#![tactic(auto)]

ghost use Rattle.std.specs.Prelude.{◌≡◌, ℕ, true, false, List, IfOk};
ghost use Rattle.cr_cells.specs.Holding.{IsSound};
ghost use Rattle.cr_sound.specs.Sound.{holding};

mod cells;
mod marks;
mod stamps;
mod tables;

use crate::cells::{are_kept, are_stamped_to, are_well_formed};
use crate::marks::are_marks;
use crate::stamps::have_distinct_stamps;
use crate::tables::are_stored;
use cr_cells::marks::Mark;
use cr_lattice::stamped::Stamped;
use cr_lattice::table::Table;
use std::alloc::{AllocError, Global};

/// Whether tables, a version, cells and marks are what a sound store holds, whatever its site. Such a store's cells stand
/// in the order of changes, and its marks by their sites: in another order they are not sound. Takes time in proportion
/// to n log n for n cells of few tables.
///
/// # Errors
/// `AllocError` where memory does not suffice for the stamps of the cells, or to unpack a key.
pub fn is_sound(
    alloc: Global,
    tables: &[Table],
    version: i64,
    cells: &[Stamped],
    marks: &[Mark],
) -> Result<bool, AllocError>
    ensures sound { IfOk result (λ b. b ≡ true → (site : List ℕ) → IsSound (holding tables.now site version cells.now marks.now)) }
    ensures unsound { IfOk result (λ b. b ≡ false → (site : List ℕ) → ¬ IsSound (holding tables.now site version cells.now marks.now)) }
{
    Ok(
        version >= 0
            && are_stored(tables)
            && are_marks(marks)
            && are_stamped_to(cells, version)
            && are_kept(cells)
            && have_distinct_stamps(alloc, cells)?
            && are_well_formed(alloc, tables, cells)?,
    )
}
