//! The order of cells by their stamps.

ghost use Rattle.std.specs.Prelude.{◌≡◌, IfOk};
ghost use Rattle.cr_lattice.specs.Sets.{set_of};
ghost use Rattle.cr_cells.specs.Holding.{stamp_cmp};

use cr_lattice::order::cmp_changes;
use cr_lattice::stamped::Stamped;
use std::alloc::AllocError;
use std::cmp::Ordering;

/// How the stamps of two cells stand: by the version, then by the place in its commit; cells of one stamp by their changes.
/// Takes no memory.
#[tactic(auto, unfolding(crate::specs::Holding::stamp_cmp))]
pub fn cmp_stamps(a: &Stamped, b: &Stamped) -> Ordering
    ensures { result ≡ stamp_cmp a.now b.now }
{
    a.version
        .cmp(&b.version)
        .then(a.seq.cmp(&b.seq))
        .then(cmp_changes(&a.change, &b.change))
}

/// The cells by their stamps, each once.
///
/// # Errors
/// Want of memory.
pub fn by_stamp(mut cells: Vec<Stamped>) -> Result<Vec<Stamped>, AllocError>
    ensures { IfOk result (λ sorted. sorted.items ≡ set_of stamp_cmp cells.items) }
{
    cells.sort_by(|a, b| cmp_stamps(a, b))?;
    cells.dedup_by(|a, b| cmp_stamps(a, b).is_eq());
    Ok(cells)
}
