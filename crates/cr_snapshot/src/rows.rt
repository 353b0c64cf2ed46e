//! The rows of a table.

ghost use Rattle.std.specs.Prelude.{◌≡◌, IfOk};
ghost use Rattle.cr_world.specs.State.{table_rows};

use cr_lattice::change::Change;
use cr_lattice::rows::rows;
use cr_lattice::table::{Items, Row, Table};
use std::alloc::{AllocError, Global};

/// The rows of a table, none where it isn't replicated. Fails for want of memory alone.
pub fn table_rows(alloc: Global, kept: &[Change], table: &Table) -> Result<Items<Row>, AllocError>
    ensures { IfOk result (λ rs. rs ≡ table_rows kept.now table.now) }
{
    if table.is_replicated {
        Ok(Items::new(rows(alloc, kept, &table.definition)?))
    } else {
        Ok(Items::new(Vec::new(alloc)))
    }
}
