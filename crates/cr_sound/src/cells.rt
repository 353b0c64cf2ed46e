//! Whether cells are such as a store holds; whether their stamps are distinct is told in `stamps`.

ghost use Rattle.std.specs.Prelude.{◌≡◌, None, Decides, IfOk};
ghost use Rattle.std.specs.List.{AllByRecursion};
ghost use Rattle.cr_lattice.specs.Keep.{keep};
ghost use Rattle.cr_cells.specs.Tables.{fault_in, AreWellFormed};
ghost use Rattle.cr_cells.specs.Holding.{changes_of, IsStampedTo};
ghost use Rattle.cr_sound.specs.Sound.{may_follow, is_stamped_to};

use cr_cells::tables::check_in;
use cr_lattice::change::Change;
use cr_lattice::check::CheckError;
use cr_lattice::order::{beats, cmp_changes};
use cr_lattice::stamped::Stamped;
use cr_lattice::table::Table;
use std::alloc::{AllocError, Global};

// ---- kept changes

// Whether a change can stand right after another among kept changes. Neighbours are all that need be asked: where each
// passes, the changes of a row share their causal length and ascend by cid, so that none of them beats another.
#[tactic(auto, unfolding(crate::specs::Sound::may_follow))]
fn may_follow(last: &Change, next: &Change) -> bool
    ensures { result ≡ may_follow last.now next.now }
{
    cmp_changes(last, next).is_lt() && !beats(last, next) && !beats(next, last)
}

/// Whether the changes of cells are what they keep: in the order of changes, each once, and none beaten by another.
pub(crate) fn are_kept(cells: &[Stamped]) -> bool
    ensures { Decides result (keep (changes_of cells.now) ≡ changes_of cells.now) }
{
    cells.is_sorted_by(|last, next| may_follow(&last.change, &next.change))
}

// ---- stamps

// Whether a cell is stamped by one of the commits up to a version.
fn is_stamped_to(cell: &Stamped, version: i64) -> bool
    ensures { result ≡ is_stamped_to version cell.now }
{
    cell.version >= 1 && cell.version <= version && cell.seq >= 0
}

/// Whether each cell is stamped with a version from 1 to this one and with a place from 0 on.
pub(crate) fn are_stamped_to(cells: &[Stamped], version: i64) -> bool
    ensures { Decides result (AllByRecursion (IsStampedTo version) cells.now) }
{
    cells.iter().all(|cell| is_stamped_to(cell, version))
}

// ---- faults

// Whether a change is well formed for a replicated table of its name.
fn is_well_formed(alloc: Global, tables: &[Table], change: &Change) -> Result<bool, AllocError>
    ensures { IfOk result (λ b. Decides b (fault_in tables.now change.now ≡ None)) }
{
    match check_in(alloc, tables, change) {
        Ok(()) => Ok(true),
        Err(CheckError::Bad(_)) => Ok(false),
        Err(CheckError::Memory) => Err(AllocError),
    }
}

/// Whether the change of each cell is well formed for a replicated table of its name.
///
/// # Errors
/// `AllocError` where memory does not suffice to unpack a key.
pub(crate) fn are_well_formed(
    alloc: Global,
    tables: &[Table],
    cells: &[Stamped],
) -> Result<bool, AllocError>
    ensures { IfOk result (λ b. Decides b (AreWellFormed tables.now (changes_of cells.now))) }
{
    for cell in cells {
        if !is_well_formed(alloc, tables, &cell.change)? {
            return Ok(false);
        }
    }
    Ok(true)
}
