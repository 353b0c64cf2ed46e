//! What the rows of cells say, read without trust in them.

ghost use Rattle.std.specs.Prelude.{◌≡◌, ◌<◌, map, length, MatchResult};
ghost use Rattle.std.specs.List.{AllByRecursion};
ghost use Rattle.sqlite_value.specs.Order.{column};
ghost use Rattle.cr_store.specs.Rows.{name_in, cell_of};
ghost use Rattle.cr_store.specs.Shows.{cells_in};
ghost use Rattle.cr_store.specs.Stored.{IsTableName, IsCellRow, AreStored};
ghost use Rattle.cr_store.specs.Opening.{IsDamage};

use crate::format::Format;
use crate::ordinals::name_at;
use crate::reads::by_change;
use crate::stored::{
    DAMAGED, are_distinct, read_blob, read_ids, read_int, read_site, read_text, read_value,
};
use cr_cells::store::CellsError;
use cr_lattice::change::Change;
use cr_lattice::stamped::Stamped;
use cr_lattice::table::Table;
use cr_value::text::Text;
use sqlite::Row;
use std::alloc::Global;

// The name of the table of an ordinal in a column.
fn read_ordinal(row: &Row, at: usize, tables: &[Table], alloc: Global) -> Result<Text, CellsError>
    requires { at < length row.now }
    ensures { MatchResult result (λ t. (t ≡ name_in Format.Second tables.now (column row.now at)) × IsTableName Format.Second tables.now (column row.now at))
        (IsDamage (¬ IsTableName Format.Second tables.now (column row.now at))) }
{
    let ordinal = read_int(row, at)?;
    match name_at(tables, ordinal) {
        Some(name) => Ok(name.copy(alloc)?),
        None => Err(DAMAGED),
    }
}

// The name of the table that a column tells.
fn read_name(
    row: &Row,
    at: usize,
    format: Format,
    tables: &[Table],
    alloc: Global,
) -> Result<Text, CellsError>
    requires { at < length row.now }
    ensures { MatchResult result (λ t. (t ≡ name_in format tables.now (column row.now at)) × IsTableName format tables.now (column row.now at))
        (IsDamage (¬ IsTableName format tables.now (column row.now at))) }
{
    match format {
        Format::First => read_text(row, at),
        Format::Second => read_ordinal(row, at, tables, alloc),
    }
}

fn read_cell(
    row: &Row,
    format: Format,
    tables: &[Table],
    alloc: Global,
) -> Result<Stamped, CellsError>
    ensures { MatchResult result (λ s. (s ≡ cell_of format tables.now row.now) × IsCellRow format tables.now row.now)
        (IsDamage (¬ IsCellRow format tables.now row.now)) }
{
    if row.column_count() != 10 {
        return Err(DAMAGED);
    }
    let table = read_name(row, 1, format, tables, alloc)?;
    let pk = read_blob(row, 2)?;
    let cid = read_text(row, 3)?;
    let cl = read_int(row, 4)?;
    let col_version = read_int(row, 5)?;
    let val = read_value(row, 6, alloc)?;
    let site = read_site(row, 7)?;
    let version = read_int(row, 8)?;
    let seq = read_int(row, 9)?;
    let change = Change {
        table,
        pk,
        cid,
        val,
        col_version,
        site,
        cl,
    };
    Ok(Stamped {
        change,
        version,
        seq,
    })
}

// Drops each row once its cell is made.
fn read_all(
    rows: Vec<Row>,
    format: Format,
    tables: &[Table],
    alloc: Global,
) -> Result<Vec<Stamped>, CellsError>
    ensures { MatchResult result (λ v. (v.items ≡ map (cell_of format tables.now) rows.items) × AllByRecursion (IsCellRow format tables.now) rows.items)
        (IsDamage (¬ AllByRecursion (IsCellRow format tables.now) rows.items)) }
{
    let mut cells = Vec::new(alloc);
    for row in rows {
        let cell = read_cell(&row, format, tables, alloc)?;
        match cells.push(cell) {
            Ok(()) => {}
            Err(_) => return Err(CellsError::Memory),
        }
    }
    Ok(cells)
}

/// The cells of rows of ten columns, a rowid before the nine of a table of cells, in the order of changes, each once. The
/// rows are dropped one by one, each as soon as its cell is made, since a store's rows take more memory than its cells.
///
/// # Errors
/// `Memory`, or `Store(Damaged)` where a rowid is no integer or comes twice, or where no store with these tables writes such
/// a row in that format.
pub(crate) fn read_cells(
    rows: Vec<Row>,
    format: Format,
    tables: &[Table],
    alloc: Global,
) -> Result<Vec<Stamped>, CellsError>
    ensures { MatchResult result (λ v. (v.items ≡ cells_in format tables.now rows.items) × AreStored (IsCellRow format tables.now) rows.items)
        (IsDamage (¬ AreStored (IsCellRow format tables.now) rows.items)) }
{
    let ids = read_ids(&rows, alloc)?;
    if !are_distinct(ids) {
        return Err(DAMAGED);
    }
    let cells = read_all(rows, format, tables, alloc)?;
    Ok(by_change(cells)?)
}
