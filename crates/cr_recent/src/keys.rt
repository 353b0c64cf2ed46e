//! Keys of rows, and the cells of some rows.

ghost use Rattle.std.specs.Prelude.{◌≡◌, ◌++◌, map, filter, int_lt, IfOk, OnOk};
ghost use Rattle.cr_lattice.specs.Sets.{set_of};
ghost use Rattle.cr_cells.specs.Calls.{Reads, is_want, StaysClean};
ghost use Rattle.cr_recent.specs.Notes.{key_cmp, key_of, cells_above};

use cr_cells::store::{Cells, CellsError};
use cr_lattice::change::Change;
use cr_lattice::stamped::Stamped;
use cr_value::order::cmp_bytes;
use cr_value::text::{Bytes, Text};
use std::alloc::{AllocError, Global};
use std::cmp::Ordering;

/// The key of a row: its table, and the packed values of its primary key.
#[derive(Debug, Drop)]
pub(crate) struct Key {
    pub(crate) table: Text,
    pub(crate) pk: Bytes,
}

impl Key {
    /// The same key in memory of its own.
    pub(crate) fn copy(&self, alloc: Global) -> Result<Key, AllocError>
        ensures { IfOk result (λ k. k ≡ self.now) }
    {
        Ok(Key {
            table: self.table.copy(alloc)?,
            pk: self.pk.copy(alloc)?,
        })
    }
}

fn cmp_keys(a: &Key, b: &Key) -> Ordering
    ensures { result ≡ key_cmp a.now b.now }
{
    cmp_bytes(a.table.as_str().as_bytes(), b.table.as_str().as_bytes()).then_with(|| cmp_bytes(
        a.pk.as_slice(),
        b.pk.as_slice(),
    ))
}

/// The keys in order, each once.
pub(crate) fn in_order(mut keys: Vec<Key>) -> Result<Vec<Key>, AllocError>
    ensures { IfOk result (λ sorted. sorted.items ≡ set_of key_cmp keys.items) }
{
    keys.sort_by(|a, b| cmp_keys(a, b))?;
    keys.dedup_by(|a, b| cmp_keys(a, b).is_eq());
    Ok(keys)
}

fn key_of(alloc: Global, change: &Change) -> Result<Key, AllocError>
    ensures { IfOk result (λ k. k ≡ key_of change.now) }
{
    Ok(Key {
        table: change.table.copy(alloc)?,
        pk: change.pk.copy(alloc)?,
    })
}

/// The keys of the changes' rows, in the order of the changes.
pub(crate) fn keys_of(alloc: Global, changes: &[Change]) -> Result<Vec<Key>, AllocError>
    ensures { IfOk result (λ keys. keys.items ≡ map key_of changes.now) }
{
    let mut keys = Vec::new(alloc);
    for change in changes {
        keys.push(key_of(alloc, change)?)?;
    }
    Ok(keys)
}

fn push_above(
    found: &mut Vec<Stamped>,
    mut row: Vec<Stamped>,
    version: i64,
) -> Result<(), AllocError>
    ensures { OnOk result (found.new.items ≡ found.old.items ++ filter (λ s. int_lt version s.version) row.items) }
{
    row.retain(|cell| cell.version > version);
    found.append(&mut row)?;
    Ok(())
}

/// The cells of these rows that are stamped above a version, row by row. Reads the cells of these rows and no others.
///
/// # Errors
/// `Memory`, or `Store(Refused)`.
pub(crate) fn cells_above<C: Cells>(
    alloc: Global,
    cells: &mut C,
    keys: &[Key],
    version: i64,
) -> Result<Vec<Stamped>, CellsError>
    ensures device { StaysClean C.is_honest C.is_clean is_want cells.old cells.new result }
    ensures reads { C.is_clean cells.new → Reads (C.holding cells.old) (C.holding cells.new) result
        (λ found. found.items ≡ cells_above (C.holding cells.old).cells keys.now version) }
{
    let mut found = Vec::new(alloc);
    for key in keys {
        let row = cells.cells_of(alloc, key.table.as_str(), key.pk.as_slice())?;
        push_above(&mut found, row, version)?;
    }
    Ok(found)
}
