//! Pages: the cells of the first keys of a table above a key.

ghost use Rattle.std.specs.Prelude.{◌≡◌, ◌<◌, filter, map, Some, IfOk};
ghost use Rattle.std.specs.Option.{option_copied};
ghost use Rattle.std.specs.Ordering.{is_le};
ghost use Rattle.cr_value.specs.Order.{bytes_cmp};
ghost use Rattle.cr_cells.specs.Pages.{above, between, is_at, keys_of, IsCut};

use cr_lattice::stamped::Stamped;
use cr_value::order::{cmp_bytes, same_bytes};
use cr_value::text::Bytes;
use std::alloc::{AllocError, Global};

/// The cells of the first keys of a table above a key.
#[derive(Debug, Drop)]
pub struct Page {
    /// The cells, in the order of changes.
    pub cells: Vec<Stamped>,
    /// A key at which the page ends. Where it is `None`, no key is left behind it.
    pub bound: Option<Bytes>,
}

// Whether a key is above another, as each is where none is given.
fn is_above(after: Option<&[u8]>, pk: &[u8]) -> bool
    ensures { result ≡ above (option_copied after.entry) pk.now }
{
    match after {
        Some(after) => cmp_bytes(after, pk).is_lt(),
        None => true,
    }
}

fn is_after(cell: &Stamped, table: &str, after: Option<&[u8]>) -> bool
    ensures { result ≡ is_at table.now (above (option_copied after.entry)) cell.now }
{
    same_bytes(cell.change.table.as_str().as_bytes(), table.as_bytes())
        && is_above(after, cell.change.pk.as_slice())
}

/// Copies of the cells of a table whose keys are above a key.
pub(crate) fn cells_after(
    alloc: Global,
    cells: &[Stamped],
    table: &str,
    after: Option<&[u8]>,
) -> Result<Vec<Stamped>, AllocError>
    ensures { IfOk result (λ v. v.items ≡ filter (is_at table.now (above (option_copied after.entry))) cells.now) }
{
    let mut out = Vec::new(alloc);
    for cell in cells {
        if is_after(cell, table, after) {
            out.push(cell.copy(alloc)?)?;
        }
    }
    Ok(out)
}

fn is_up_to(bound: &Bytes, cell: &Stamped) -> bool
    ensures { result ≡ is_le (bytes_cmp cell.now.change.pk bound.now) }
{
    cmp_bytes(cell.change.pk.as_slice(), bound.as_slice()).is_le()
}

fn is_between(cell: &Stamped, table: &str, after: Option<&[u8]>, end: &Bytes) -> bool
    ensures { result ≡ is_at table.now (between (option_copied after.entry) (Some end.now)) cell.now }
{
    is_after(cell, table, after) && is_up_to(end, cell)
}

/// Copies of the cells of a table whose keys are above the one key, up to the other.
pub(crate) fn cells_between(
    alloc: Global,
    cells: &[Stamped],
    table: &str,
    after: Option<&[u8]>,
    end: &Bytes,
) -> Result<Vec<Stamped>, AllocError>
    ensures { IfOk result (λ v. v.items ≡ filter (is_at table.now (between (option_copied after.entry) (Some end.now))) cells.now) }
{
    let mut out = Vec::new(alloc);
    for cell in cells {
        if is_between(cell, table, after, end) {
            out.push(cell.copy(alloc)?)?;
        }
    }
    Ok(out)
}

/// A key that is likely to lie behind the first keys of a table above a key, as many as are told, where the cells stand in order:
/// that of a cell sixteen places further on for each of these keys. Nothing rests on it.
pub(crate) fn likely_end<'a>(
    cells: &'a [Stamped],
    table: &str,
    after: Option<&[u8]>,
    limit: usize,
) -> Option<&'a Bytes> {
    let first = cells.iter().position(|cell| is_after(cell, table, after))?;
    let place = first.saturating_add(limit.saturating_mul(16));
    match cells.get(place) {
        Some(cell) => Some(&cell.change.pk),
        None => None,
    }
}

// Copies of the cells' keys.
fn copied_keys(alloc: Global, cells: &[Stamped]) -> Result<Vec<Bytes>, AllocError>
    ensures { IfOk result (λ keys. keys.items ≡ map (λ s. s.change.pk) cells.now) }
{
    let mut keys = Vec::new(alloc);
    for cell in cells {
        keys.push(cell.change.pk.copy(alloc)?)?;
    }
    Ok(keys)
}

/// The keys of the cells, by their bytes, each once.
///
/// # Errors
/// Want of memory.
pub fn keys_of(alloc: Global, cells: &[Stamped]) -> Result<Vec<Bytes>, AllocError>
    ensures { IfOk result (λ keys. keys.items ≡ keys_of cells.now) }
{
    let mut keys = copied_keys(alloc, cells)?;
    keys.sort()?;
    keys.dedup();
    Ok(keys)
}

/// The cells of the first keys, as many keys as are asked for; all cells where they have no more.
///
/// # Errors
/// Want of memory.
pub fn cut(alloc: Global, mut cells: Vec<Stamped>, limit: usize) -> Result<Page, AllocError>
    requires { 0 < limit }
    ensures { IfOk result (IsCut cells.items limit) }
{
    let mut keys = keys_of(alloc, &cells)?;
    if keys.len() <= limit {
        return Ok(Page { cells, bound: None });
    }
    let bound = keys.swap_remove(limit - 1);
    cells.retain(|cell| is_up_to(&bound, cell));
    Ok(Page {
        cells,
        bound: Some(bound),
    })
}
