//! Lists of cells in the order of changes.

ghost use Rattle.std.specs.Prelude.{◌≡◌, pos, not, ◌++◌, find, filter, int_lt, IfOk};
ghost use Rattle.std.specs.List.{list_any, IsDistinct};
ghost use Rattle.std.specs.List.Sorted.{IsStrictlySortedBy};
ghost use Rattle.std.specs.Option.{option_copied};
ghost use Rattle.std.specs.Ordering.{eq_by_cmp};
ghost use Rattle.cr_lattice.specs.Change.{change_cmp};
ghost use Rattle.cr_lattice.specs.Keep.{has, keep};
ghost use Rattle.cr_lattice.specs.Rows.{is_of_row};
ghost use Rattle.cr_lattice.specs.Sets.{set_of};
ghost use Rattle.cr_cells.specs.Holding.{changes_of, cell_cmp, same_stamp, since, is_of_table, cells_of, cells_of_table};
ghost use Rattle.cr_cells.specs.Commit.{stamped};
ghost use Rattle.cr_cells.specs.Advance.{IsNext, Advances};

use crate::stamps::cmp_stamps;
use crate::store::CellsError;
use cr_lattice::change::Change;
use cr_lattice::merge::merge;
use cr_lattice::stamped::Stamped;
use cr_value::order::same_bytes;
use std::alloc::{AllocError, Global};

// Copies of the cells' changes.
fn changes_of(alloc: Global, cells: &[Stamped]) -> Result<Vec<Change>, AllocError>
    ensures { IfOk result (λ v. v.items ≡ changes_of cells.now) }
{
    let mut out = Vec::new(alloc);
    for cell in cells {
        out.push(cell.change.copy(alloc)?)?;
    }
    Ok(out)
}

// ---- readings

fn above(alloc: Global, cells: &[Stamped], version: i64) -> Result<Vec<Stamped>, AllocError>
    ensures { IfOk result (λ v. v.items ≡ filter (λ s. int_lt version s.version) cells.now) }
{
    let mut out = Vec::new(alloc);
    for cell in cells {
        if cell.version > version {
            out.push(cell.copy(alloc)?)?;
        }
    }
    Ok(out)
}

/// Copies of the cells that are stamped above a version, by their stamps.
pub(crate) fn since(
    alloc: Global,
    cells: &[Stamped],
    version: i64,
) -> Result<Vec<Stamped>, AllocError>
    requires { IsDistinct same_stamp cells.now }
    ensures { IfOk result (λ v. v.items ≡ since cells.now version) }
{
    let mut found = above(alloc, cells, version)?;
    found.sort_by(|a, b| cmp_stamps(a, b))?;
    Ok(found)
}

fn is_of_row(cell: &Stamped, table: &str, pk: &[u8]) -> bool
    ensures { result ≡ is_of_row table.now pk.now cell.now.change }
{
    same_bytes(cell.change.table.as_str().as_bytes(), table.as_bytes())
        && same_bytes(cell.change.pk.as_slice(), pk)
}

/// Copies of the cells of one row.
#[tactic(auto, unfolding(crate::specs::Holding::cells_of))]
pub(crate) fn cells_of(
    alloc: Global,
    cells: &[Stamped],
    table: &str,
    pk: &[u8],
) -> Result<Vec<Stamped>, AllocError>
    ensures { IfOk result (λ v. v.items ≡ cells_of cells.now table.now pk.now) }
{
    let mut out = Vec::new(alloc);
    for cell in cells {
        if is_of_row(cell, table, pk) {
            out.push(cell.copy(alloc)?)?;
        }
    }
    Ok(out)
}

fn is_of_table(cell: &Stamped, table: &str) -> bool
    ensures { result ≡ is_of_table table.now cell.now.change }
{
    same_bytes(cell.change.table.as_str().as_bytes(), table.as_bytes())
}

/// Copies of the cells of one table.
#[tactic(auto, unfolding(crate::specs::Holding::cells_of_table))]
pub(crate) fn cells_of_table(
    alloc: Global,
    cells: &[Stamped],
    table: &str,
) -> Result<Vec<Stamped>, AllocError>
    ensures { IfOk result (λ v. v.items ≡ cells_of_table cells.now table.now) }
{
    let mut out = Vec::new(alloc);
    for cell in cells {
        if is_of_table(cell, table) {
            out.push(cell.copy(alloc)?)?;
        }
    }
    Ok(out)
}

// ---- commits

fn cell_with<'a>(cells: &'a [Stamped], change: &Change) -> Option<&'a Stamped>
    ensures { option_copied result ≡ find (λ s. eq_by_cmp change_cmp change.now s.change) cells.now }
{
    cells.iter().find(|cell| *change == cell.change)
}

fn comes_in(cells: &[Stamped], change: &Change) -> bool
    ensures { result ≡ not (has (changes_of cells.now) change.now) }
{
    cell_with(cells, change).is_none()
}

// Whether some of the next changes is not the change of a cell.
fn brings_in(cells: &[Stamped], next: &[Change]) -> bool
    ensures { result ≡ list_any (λ c. not (has (changes_of cells.now) c)) next.now }
{
    next.iter().any(|change| comes_in(cells, change))
}

// Cells for the next changes: those that are there as they are, and the others stamped with a version and with places
// from 0 on.
fn restamped(
    alloc: Global,
    cells: &[Stamped],
    next: &[Change],
    version: i64,
) -> Result<Vec<Stamped>, AllocError>
    requires cells_in_order { IsStrictlySortedBy change_cmp (changes_of cells.now) }
    requires next_in_order { IsStrictlySortedBy change_cmp next.now }
    ensures { IfOk result (λ v. v.items ≡ set_of cell_cmp (filter (λ s. has next.now s.change) cells.now
        ++ stamped version (pos 0) (filter (λ c. not (has (changes_of cells.now) c)) next.now))) }
{
    let mut out = Vec::new(alloc);
    let mut seq: i64 = 0;
    for change in next {
        let cell = match cell_with(cells, change) {
            Some(cell) => cell.copy(alloc)?,
            None => {
                let change = change.copy(alloc)?;
                let cell = Stamped {
                    change,
                    version,
                    seq,
                };
                seq += 1;
                cell
            }
        };
        out.push(cell)?;
    }
    Ok(out)
}

/// What a commit makes of the cells and the version.
#[derive(Debug, Drop)]
pub(crate) struct Advance {
    pub(crate) cells: Vec<Stamped>,
    pub(crate) version: i64,
}

// The next version, which takes no memory.
pub(crate) fn version_after(version: i64) -> Result<i64, CellsError>
    ensures { IsNext version result }
{
    version.checked_add(1).ok_or(CellsError::VersionLimit)
}

/// The cells and the version after changes of which some come in, or `None` where none does.
pub(crate) fn take_changes(
    alloc: Global,
    cells: &[Stamped],
    changes: &[Change],
    version: i64,
) -> Result<Option<Advance>, CellsError>
    requires { keep (changes_of cells.now) ≡ changes_of cells.now }
    ensures { Advances cells.now version changes.now result }
{
    let kept = changes_of(alloc, cells)?;
    let next = merge(alloc, &kept, changes)?;
    if !brings_in(cells, &next) {
        return Ok(None);
    }
    let version = version_after(version)?;
    let cells = restamped(alloc, cells, &next, version)?;
    Ok(Some(Advance { cells, version }))
}
