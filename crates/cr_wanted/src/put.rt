//! Values put into the columns of a row.

ghost use Rattle.std.specs.Prelude.{◌≡◌, IfOk, OnOk};
ghost use Rattle.cr_query.specs.Writes.{put, put_all, defaults};

use cr_lattice::table::ColumnDef;
use cr_value::value::Value;
use std::alloc::{AllocError, Global};

/// Puts a value into a column of a row, as its affinity wants it. A row stays as it is where the table has no such column,
/// and where the row ends before it. Fails for want of memory alone.
pub fn put(
    alloc: Global,
    columns: &[ColumnDef],
    place: usize,
    value: &Value,
    row: &mut Vec<Value>,
) -> Result<(), AllocError>
    ensures { OnOk result (row.new.items ≡ put columns.now place value.now row.old.items) }
{
    let Some(column) = columns.get(place) else {
        return Ok(());
    };
    if place >= row.len() {
        return Ok(());
    }
    row[place] = column.affinity.apply(alloc, value)?;
    Ok(())
}

/// Puts values into columns of a row, one after another; a later one counts. Fails for want of memory alone.
pub fn put_all(
    alloc: Global,
    columns: &[ColumnDef],
    places: &[usize],
    values: &[Value],
    row: &mut Vec<Value>,
) -> Result<(), AllocError>
    ensures { OnOk result (row.new.items ≡ put_all columns.now places.now values.now row.old.items) }
{
    for (place, value) in places.iter().zip(values) {
        put(alloc, columns, *place, value, row)?;
    }
    Ok(())
}

/// The default of each column, as its affinity wants it. Fails for want of memory alone.
pub fn defaults(alloc: Global, columns: &[ColumnDef]) -> Result<Vec<Value>, AllocError>
    ensures { IfOk result (λ v. v.items ≡ defaults columns.now) }
{
    let mut row = Vec::new(alloc);
    for column in columns {
        row.push(column.affinity.apply(alloc, &column.default)?)?;
    }
    Ok(row)
}
