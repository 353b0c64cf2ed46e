//! What a commit would bring in, told before it is made.

ghost use Rattle.std.specs.Prelude.{◌≡◌, [], ◌∷◌, ◌++◌, false, not, ◌&&◌, filter, OnOk};
ghost use Rattle.std.specs.List.{list_any};
ghost use Rattle.std.specs.Option.{option_map_or};
ghost use Rattle.std.specs.Ordering.{eq_by_cmp, int_eq};
ghost use Rattle.cr_lattice.specs.Rows.{is_of_row};
ghost use Rattle.cr_lattice.specs.Change.{change_cmp, beats};
ghost use Rattle.cr_cells.specs.Holding.{kept_of, IsSound};
ghost use Rattle.cr_cells.specs.Commit.{newly_kept, is_new, is_new_in, is_none, greatest_version};
ghost use Rattle.cr_cells.specs.Calls.{Reads, Foresees, StaysWithinLimit, is_want, StaysClean};

use crate::store::{Cells, CellsError};
use cr_lattice::change::Change;
use cr_lattice::merge::merge;
use cr_lattice::order::beats;
use cr_lattice::rows::is_of_row;
use cr_lattice::stamped::Stamped;
use std::alloc::{AllocError, Global};

fn is_kept(row: &[Stamped], change: &Change) -> bool
    ensures { result ≡ list_any (λ s. eq_by_cmp change_cmp change.now s.change) row.now }
{
    row.iter().any(|cell| *change == cell.change)
}

fn is_beaten(row: &[Stamped], change: &Change) -> bool
    ensures { result ≡ list_any (λ s. beats s.change change.now) row.now }
{
    row.iter().any(|cell| beats(&cell.change, change))
}

/// Whether a change is new to the cells of its row: none of them is it or beats it.
pub fn is_new(row: &[Stamped], change: &Change) -> bool
    ensures { result ≡ is_new_in row.now change.now }
{
    !is_kept(row, change) && !is_beaten(row, change)
}

fn push_new(
    alloc: Global,
    news: &mut Vec<Change>,
    row: &[Stamped],
    change: &Change,
) -> Result<(), AllocError>
    ensures { OnOk result (news.new.items ≡ news.old.items ++ filter (is_new_in row.now) (change.now ∷ [])) }
{
    if is_new(row, change) {
        news.push(change.copy(alloc)?)?;
    }
    Ok(())
}

/// Whether a change is of the row that was read for another one, if there is one.
pub fn is_read(read: Option<&Change>, change: &Change) -> bool
    ensures { result ≡ option_map_or (λ r. is_of_row r.now.table r.now.pk change.now) read.entry false }
{
    match read {
        Some(other) => is_of_row(change, other.table.as_str(), other.pk.as_slice()),
        None => false,
    }
}

// The changes that come in, of changes of which none beats another. The cells of a row are read once for changes that stand
// together.
fn news_of<C: Cells>(
    alloc: Global,
    cells: &mut C,
    wanted: &[Change],
) -> Result<Vec<Change>, CellsError>
    ensures device { StaysClean C.is_honest C.is_clean is_want cells.old cells.new result }
    ensures reads { C.is_clean cells.new → Reads (C.holding cells.old) (C.holding cells.new) result
        (λ news. news.items ≡ filter (is_new (kept_of (C.holding cells.old))) wanted.now) }
{
    let mut news = Vec::new(alloc);
    let mut row = Vec::new(alloc);
    let mut read = None;
    for change in wanted {
        if !is_read(read, change) {
            row = cells.cells_of(alloc, change.table.as_str(), change.pk.as_slice())?;
            read = Some(change);
        }
        push_new(alloc, &mut news, &row, change)?;
    }
    Ok(news)
}

// Whether the commit would need a version above the greatest.
fn is_past_limit(is_changed: bool, version: i64) -> bool
    ensures { result ≡ (is_changed && int_eq version greatest_version) }
{
    is_changed && version == i64::MAX
}

/// A commit is refused for want of versions where it would need one above the greatest. That takes no memory.
///
/// # Errors
/// `VersionLimit` there, and nowhere else.
pub fn stay_within_limit(is_changed: bool, version: i64) -> Result<(), CellsError>
    ensures { StaysWithinLimit is_changed version result }
{
    if is_past_limit(is_changed, version) {
        return Err(CellsError::VersionLimit);
    }
    Ok(())
}

fn has_some(changes: &[Change]) -> bool
    ensures { result ≡ not (is_none changes.now) }
{
    !changes.is_empty()
}

/// The changes that a commit of these would bring in, in the order of their places, with nothing committed. Reads the
/// cells of their rows and no others.
///
/// # Errors
/// `VersionLimit` exactly where the commit would be refused for that: some change would come in, and the version is the
/// greatest; `Memory`, or `Store(Refused)`.
pub fn newly_kept<C: Cells>(
    alloc: Global,
    cells: &mut C,
    changes: &[Change],
) -> Result<Vec<Change>, CellsError>
    ensures device { StaysClean C.is_honest C.is_clean is_want cells.old cells.new result }
    ensures sound { C.is_clean cells.new → IsSound (C.holding cells.new) }
    ensures foresees { C.is_clean cells.new → Foresees (C.holding cells.old) (C.holding cells.new) changes.now result (λ news. news.items) }
{
    let _ = cells.db_version();
    let wanted = merge(alloc, &[], changes)?;
    let news = news_of(alloc, cells, &wanted)?;
    stay_within_limit(has_some(&news), cells.db_version())?;
    Ok(news)
}
