//! The values of the table of changes.

ghost use Rattle.std.specs.Prelude.{◌≡◌, IfOk};
ghost use Rattle.cr_module.specs.Lawful.{value_at};
ghost use Rattle.cr_world.specs.State.{row_of};

use cr_lattice::stamped::Stamped;
use cr_value::text::Bytes;
use cr_value::value::Value;
use std::alloc::{AllocError, Global};

/// How many columns the table of changes has.
pub const WIDTH: usize = 9;

/// What the row of a cell has in a column; NULL where there is no such column.
///
/// # Errors
/// Want of memory.
pub fn change_value(alloc: Global, cell: &Stamped, at: usize) -> Result<Value, AllocError>
    ensures { IfOk result (λ v. v ≡ value_at at (row_of cell.now)) }
{
    let change = &cell.change;
    match at {
        0 => Ok(Value::Text(change.table.copy(alloc)?)),
        1 => Ok(Value::Blob(change.pk.copy(alloc)?)),
        2 => Ok(Value::Text(change.cid.copy(alloc)?)),
        3 => change.val.copy(alloc),
        4 => Ok(Value::Int(change.col_version)),
        5 => Ok(Value::Int(cell.version)),
        6 => Ok(Value::Blob(Bytes::from_slice(alloc, &change.site)?)),
        7 => Ok(Value::Int(change.cl)),
        8 => Ok(Value::Int(cell.seq)),
        _ => Ok(Value::Null),
    }
}
