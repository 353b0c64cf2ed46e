//! Rows in ascending order.

ghost use Rattle.std.specs.Prelude.{◌≡◌, IfOk};
ghost use Rattle.cr_replica.specs.Showing.{in_order};

use cr_lattice::table::Row;
use std::alloc::AllocError;

/// The rows in ascending order, each once.
pub(crate) fn in_order(mut rows: Vec<Row>) -> Result<Vec<Row>, AllocError>
    ensures { IfOk result (λ sorted. sorted.items ≡ in_order rows.items) }
{
    rows.sort()?;
    rows.dedup();
    Ok(rows)
}
