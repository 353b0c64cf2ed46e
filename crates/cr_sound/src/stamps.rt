//! Whether the stamps of cells are distinct.

ghost use Rattle.std.specs.Prelude.{◌≡◌, map, Decides, IfOk};
ghost use Rattle.std.specs.List.{IsDistinct};
ghost use Rattle.cr_cells.specs.Holding.{same_stamp};
ghost use Rattle.cr_sound.specs.Sound.{stamp_of, is_one_stamp};

use cr_lattice::stamped::Stamped;
use std::alloc::{AllocError, Global};

// The version and the place that a cell is stamped with.
type Stamp = (i64, i64);

fn stamps_of(alloc: Global, cells: &[Stamped]) -> Result<Vec<Stamp>, AllocError>
    ensures { IfOk result (λ v. v.items ≡ map stamp_of cells.now) }
{
    let mut stamps = Vec::new(alloc);
    for cell in cells {
        stamps.push((cell.version, cell.seq))?;
    }
    Ok(stamps)
}

// Whether no stamp is there twice. Once they are sorted, equal ones would be neighbours.
fn are_distinct(mut stamps: Vec<Stamp>) -> bool
    ensures { Decides result (IsDistinct is_one_stamp stamps.items) }
{
    stamps.sort_unstable();
    stamps.is_sorted_by(|last, next| last < next)
}

/// Whether no two cells have one stamp. Takes time in proportion to n log n for n cells.
///
/// # Errors
/// `AllocError` where memory does not suffice for the stamps.
pub(crate) fn have_distinct_stamps(alloc: Global, cells: &[Stamped]) -> Result<bool, AllocError>
    ensures { IfOk result (λ b. Decides b (IsDistinct same_stamp cells.now)) }
{
    Ok(are_distinct(stamps_of(alloc, cells)?))
}
