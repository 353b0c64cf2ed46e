//! The rows of a source as lists.

ghost use Rattle.std.specs.Prelude.{◌≡◌, ◌||◌, ◌-◌, false, IfOk};
ghost use Rattle.cr_module.specs.Lawful.{first_row, is_at_end};
ghost use Rattle.cr_module.specs.Reading.{is_failure, tables_between};

use crate::source::{ReadFault, Source};
use cr_lattice::table::{Items, Row};
use std::alloc::Global;

/// The row on which a reading stands, which is not at its end.
///
/// # Errors
/// Want of memory, or what the rows stand in failed.
pub fn row_at<S: Source>(
    alloc: Global,
    source: &mut S,
    cursor: &S::Cursor,
) -> Result<Row, ReadFault>
    requires { is_at_end (S.left source.old cursor.now) ≡ false }
    ensures rows { S.rows_of source.new ≡ S.rows_of source.old }
    ensures failed { S.has_failed source.new ≡ S.has_failed source.old || is_failure result }
    ensures stays { S.left source.new cursor.now ≡ S.left source.old cursor.now }
    ensures row { IfOk result (λ row. row ≡ first_row (S.left source.old cursor.now)) }
{
    let mut values = Vec::new(alloc);
    for at in 0..source.width(cursor) {
        values.push(source.column(alloc, cursor, at)?)?;
    }
    Ok(Items::new(values))
}

/// The rows of the table of a number.
///
/// # Errors
/// Want of memory, or what the rows stand in failed.
pub fn rows_of_table<S: Source>(
    alloc: Global,
    source: &mut S,
    table: usize,
) -> Result<Items<Row>, ReadFault>
    ensures rows { S.rows_of source.new ≡ S.rows_of source.old }
    ensures failed { S.has_failed source.new ≡ S.has_failed source.old || is_failure result }
    ensures read { IfOk result (λ rs. rs ≡ S.rows_of source.old table) }
{
    let mut cursor = source.filter(alloc, table)?;
    let mut rows = Vec::new(alloc);
    while !source.eof(&cursor) {
        rows.push(row_at(alloc, source, &cursor)?)?;
        source.next(alloc, &mut cursor)?;
    }
    Ok(Items::new(rows))
}

/// The rows of the tables from a number up to another, which is not among them.
///
/// # Errors
/// Want of memory, or what the rows stand in failed.
pub fn tables_between<S: Source>(
    alloc: Global,
    source: &mut S,
    first: usize,
    end: usize,
) -> Result<Vec<Items<Row>>, ReadFault>
    ensures rows { S.rows_of source.new ≡ S.rows_of source.old }
    ensures failed { S.has_failed source.new ≡ S.has_failed source.old || is_failure result }
    ensures read { IfOk result (λ ts. ts.items ≡ tables_between (S.rows_of source.old) first (end - first)) }
{
    let mut tables = Vec::new(alloc);
    for table in first..end {
        tables.push(rows_of_table(alloc, source, table)?)?;
    }
    Ok(tables)
}
