//! The bytes of a table's definition, or how the store refuses it.

ghost use Rattle.std.specs.Prelude.{◌≡◌, MatchResult};
ghost use Rattle.cr_cells.specs.Calls.{IsRefusal};
ghost use Rattle.cr_layout.specs.Definition.{definition};

use cr_cells::store::{CellsError, StoreFault};
use cr_lattice::table::TableDef;
use cr_layout::definition::LayoutError;
use std::alloc::Global;

/// The bytes of a definition, as `cr_layout` writes them.
///
/// # Errors
/// `Memory`; `Store(Refused)` where a count or a length does not fit its bytes.
pub(crate) fn definition(alloc: Global, def: &TableDef) -> Result<Vec<u8>, CellsError>
    ensures { MatchResult result (λ v. v.items ≡ definition def.now) IsRefusal }
{
    match cr_layout::definition::definition(alloc, def) {
        Ok(bytes) => Ok(bytes),
        Err(LayoutError::Memory) => Err(CellsError::Memory),
        Err(LayoutError::TooLong) => Err(CellsError::Store(StoreFault::Refused)),
    }
}
