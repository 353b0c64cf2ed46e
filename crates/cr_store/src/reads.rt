//! The cells that are read.

ghost use Rattle.std.specs.Prelude.{◌≡◌, ◌∷◌, List, true, false, map, filter, int_lt, IfOk, IfErr, OnOk, IsTrue, MatchResult};
ghost use Rattle.sqlite.specs.Held.{state};
ghost use Rattle.sqlite.specs.Order.{Row};
ghost use Rattle.sqlite.specs.State.{HasCleanDisk, Shown};
ghost use Rattle.sqlite.specs.Given.{IsPlain};
ghost use Rattle.sqlite.specs.Listing.{understood};
ghost use Rattle.sqlite.specs.Values.{bound};
ghost use Rattle.sqlite.specs.declared.types.Value.TheVariants.{Null as SqlNull};
ghost use Rattle.cr_lattice.specs.Rows.{is_of_row};
ghost use Rattle.std.specs.List.Sorted.{IsStrictlySortedBy};
ghost use Rattle.cr_lattice.specs.Sets.{set_of};
ghost use Rattle.cr_lattice.specs.declared.stamped.Stamped.{Stamped};
ghost use Rattle.cr_cells.specs.Holding.{cell_cmp, since, is_of_table, cells_of, cells_of_table};
ghost use Rattle.cr_cells.specs.Calls.{IsRefusal, is_want};
ghost use Rattle.cr_store.specs.Rows.{cell_of};
ghost use Rattle.cr_store.specs.Schema.{store_schema};
ghost use Rattle.cr_store.specs.Shows.{HasCells};
ghost use Rattle.cr_store.specs.Words.{SameCells};

use crate::format::Format;
use crate::ordinals::ordinal;
use crate::rows::{read_cell, refusal};
use cr_cells::stamps::by_stamp;
use cr_cells::store::CellsError;
use cr_lattice::order::cmp_changes;
use cr_lattice::stamped::Stamped;
use cr_lattice::table::Table;
use cr_rows::read_each;
use sqlite::types::ValueRef;
use sqlite::{Alter, Connection, Error};
use std::alloc::{AllocError, Global};
use std::cmp::Ordering;

const SINCE: &str =
    "SELECT tab, pk, cid, cl, ver, val, site, dbv, seq FROM cr_cell2 WHERE dbv > ?1";

const ROW: &str =
    "SELECT tab, pk, cid, cl, ver, val, site, dbv, seq FROM cr_cell2 WHERE tab = ?1 AND pk = ?2";

const TABLE: &str =
    "SELECT tab, pk, cid, cl, ver, val, site, dbv, seq FROM cr_cell2 WHERE tab = ?1";

// The cells that a query of the nine columns of `cr_cell2` shows. Each is made as its row is read, so that no list of
// sqlite's rows, with copies of their own, stands beside that of the cells.
pub(crate) fn ask_cells<S: Alter>(
    conn: &mut Connection<S>,
    sql: &str,
    params: &[ValueRef<'_>],
    tables: &[Table],
    alloc: Global,
) -> Result<Vec<Stamped>, Error>
    ensures found { HasCleanDisk (state S.Store conn.new) → IfOk result (λ cells. (rows : List Row) × Shown sql.now (bound params.now) (state S.Store conn.old) (state S.Store conn.new) rows
        × (cells.items ≡ map (λ row. cell_of Format.Second tables.now (SqlNull ∷ row)) rows)) }
    ensures same { HasCleanDisk (state S.Store conn.new) → IsPlain (understood (state S.Store conn.old).now.schema sql.now) → (state S.Store conn.old).now ≡ (state S.Store conn.old).committed
        → IsTrue (state S.Store conn.new).is_open → (state S.Store conn.new).now ≡ (state S.Store conn.old).now }
    ensures was_open { HasCleanDisk (state S.Store conn.new) → IsTrue (state S.Store conn.new).is_open → IsTrue (state S.Store conn.old).is_open }
    ensures mode { conn.old.in_transaction ≡ false → conn.new.in_transaction ≡ false }
    ensures clean { HasCleanDisk (state S.Store conn.new) → HasCleanDisk (state S.Store conn.old) }
{
    read_each(
        conn,
        sql,
        params,
        alloc,
        |row| read_cell(row, tables, alloc),
    )
}

/// The cells that are stamped above a version, in the order of sqlite's rows.
pub(crate) fn cells_above<S: Alter>(
    conn: &mut Connection<S>,
    tables: &[Table],
    version: i64,
    alloc: Global,
) -> Result<Vec<Stamped>, Error>
    ensures found { HasCleanDisk (state S.Store conn.new) → (a b o d : List Row) → (ss : List Stamped) → HasCells (state S.Store conn.old).now tables.now a b o d ss
        → IfOk result (λ cells. SameCells (filter (λ s. int_lt version s.version) ss) cells.items) }
    ensures opened { HasCleanDisk (state S.Store conn.new) → OnOk result (IsTrue (state S.Store conn.new).is_open) }
    ensures same { HasCleanDisk (state S.Store conn.new) → (state S.Store conn.old).now.schema ≡ store_schema → (state S.Store conn.old).now ≡ (state S.Store conn.old).committed
        → IsTrue (state S.Store conn.new).is_open → (state S.Store conn.new).now ≡ (state S.Store conn.old).now }
    ensures was_open { HasCleanDisk (state S.Store conn.new) → IsTrue (state S.Store conn.new).is_open → IsTrue (state S.Store conn.old).is_open }
    ensures mode { conn.old.in_transaction ≡ false → conn.new.in_transaction ≡ false }
    ensures clean { HasCleanDisk (state S.Store conn.new) → HasCleanDisk (state S.Store conn.old) }
{
    ask_cells(conn, SINCE, &[ValueRef::Int(version)], tables, alloc)
}

/// The cells of one row, in the order of sqlite's rows.
pub(crate) fn cells_of_row<'a, S: Alter>(
    conn: &mut Connection<S>,
    tables: &[Table],
    table: &'a str,
    pk: &'a [u8],
    alloc: Global,
) -> Result<Vec<Stamped>, Error>
    ensures found { HasCleanDisk (state S.Store conn.new) → (a b o d : List Row) → (ss : List Stamped) → HasCells (state S.Store conn.old).now tables.now a b o d ss
        → IfOk result (λ cells. SameCells (filter (λ s. is_of_row table.now pk.now s.change) ss) cells.items) }
    ensures opened { HasCleanDisk (state S.Store conn.new) → OnOk result (IsTrue (state S.Store conn.new).is_open) }
    ensures same { HasCleanDisk (state S.Store conn.new) → (state S.Store conn.old).now.schema ≡ store_schema → (state S.Store conn.old).now ≡ (state S.Store conn.old).committed
        → IsTrue (state S.Store conn.new).is_open → (state S.Store conn.new).now ≡ (state S.Store conn.old).now }
    ensures was_open { HasCleanDisk (state S.Store conn.new) → IsTrue (state S.Store conn.new).is_open → IsTrue (state S.Store conn.old).is_open }
    ensures mode { conn.old.in_transaction ≡ false → conn.new.in_transaction ≡ false }
    ensures clean { HasCleanDisk (state S.Store conn.new) → HasCleanDisk (state S.Store conn.old) }
{
    ask_cells(
        conn,
        ROW,
        &[ValueRef::Int(ordinal(tables, table)), ValueRef::Blob(pk)],
        tables,
        alloc,
    )
}

/// The cells of one table, in the order of sqlite's rows.
pub(crate) fn cells_in_table<S: Alter>(
    conn: &mut Connection<S>,
    tables: &[Table],
    table: &str,
    alloc: Global,
) -> Result<Vec<Stamped>, Error>
    ensures found { HasCleanDisk (state S.Store conn.new) → (a b o d : List Row) → (ss : List Stamped) → HasCells (state S.Store conn.old).now tables.now a b o d ss
        → IfOk result (λ cells. SameCells (filter (λ s. is_of_table table.now s.change) ss) cells.items) }
    ensures opened { HasCleanDisk (state S.Store conn.new) → OnOk result (IsTrue (state S.Store conn.new).is_open) }
    ensures same { HasCleanDisk (state S.Store conn.new) → (state S.Store conn.old).now.schema ≡ store_schema → (state S.Store conn.old).now ≡ (state S.Store conn.old).committed
        → IsTrue (state S.Store conn.new).is_open → (state S.Store conn.new).now ≡ (state S.Store conn.old).now }
    ensures was_open { HasCleanDisk (state S.Store conn.new) → IsTrue (state S.Store conn.new).is_open → IsTrue (state S.Store conn.old).is_open }
    ensures mode { conn.old.in_transaction ≡ false → conn.new.in_transaction ≡ false }
    ensures clean { HasCleanDisk (state S.Store conn.new) → HasCleanDisk (state S.Store conn.old) }
{
    ask_cells(
        conn,
        TABLE,
        &[ValueRef::Int(ordinal(tables, table))],
        tables,
        alloc,
    )
}

pub(crate) fn cmp_cells(a: &Stamped, b: &Stamped) -> Ordering
    ensures { result ≡ cell_cmp a.now b.now }
{
    cmp_changes(&a.change, &b.change)
        .then(a.version.cmp(&b.version))
        .then(a.seq.cmp(&b.seq))
}

/// The cells in the order of changes, each once.
pub(crate) fn by_change(mut cells: Vec<Stamped>) -> Result<Vec<Stamped>, AllocError>
    ensures { IfOk result (λ v. v.items ≡ set_of cell_cmp cells.items) }
{
    cells.sort_by(|a, b| cmp_cells(a, b))?;
    cells.dedup_by(|a, b| cmp_cells(a, b).is_eq());
    Ok(cells)
}

/// The cells that are stamped above a version, by their stamps.
pub(crate) fn since<S: Alter>(
    conn: &mut Connection<S>,
    tables: &[Table],
    version: i64,
    alloc: Global,
) -> Result<Vec<Stamped>, CellsError>
    ensures found { HasCleanDisk (state S.Store conn.new) → (a b o d : List Row) → (ss : List Stamped) → HasCells (state S.Store conn.old).now tables.now a b o d ss
        → MatchResult result (λ cells. cells.items ≡ since ss version) IsRefusal }
    ensures opened { HasCleanDisk (state S.Store conn.new) → OnOk result (IsTrue (state S.Store conn.new).is_open) }
    ensures wants { IfErr result (λ e. is_want e ≡ true) }
    ensures same { HasCleanDisk (state S.Store conn.new) → (state S.Store conn.old).now.schema ≡ store_schema → (state S.Store conn.old).now ≡ (state S.Store conn.old).committed
        → IsTrue (state S.Store conn.new).is_open → (state S.Store conn.new).now ≡ (state S.Store conn.old).now }
    ensures was_open { HasCleanDisk (state S.Store conn.new) → IsTrue (state S.Store conn.new).is_open → IsTrue (state S.Store conn.old).is_open }
    ensures mode { conn.old.in_transaction ≡ false → conn.new.in_transaction ≡ false }
    ensures clean { HasCleanDisk (state S.Store conn.new) → HasCleanDisk (state S.Store conn.old) }
{
    match cells_above(conn, tables, version, alloc) {
        Ok(cells) => Ok(by_stamp(cells)?),
        Err(error) => Err(refusal(error)),
    }
}

/// The cells of one row, in the order of changes.
pub(crate) fn cells_of<'a, S: Alter>(
    conn: &mut Connection<S>,
    tables: &[Table],
    table: &'a str,
    pk: &'a [u8],
    alloc: Global,
) -> Result<Vec<Stamped>, CellsError>
    ensures found { HasCleanDisk (state S.Store conn.new) → (a b o d : List Row) → (ss : List Stamped) → HasCells (state S.Store conn.old).now tables.now a b o d ss → IsStrictlySortedBy cell_cmp ss
        → MatchResult result (λ cells. cells.items ≡ cells_of ss table.now pk.now) IsRefusal }
    ensures opened { HasCleanDisk (state S.Store conn.new) → OnOk result (IsTrue (state S.Store conn.new).is_open) }
    ensures wants { IfErr result (λ e. is_want e ≡ true) }
    ensures same { HasCleanDisk (state S.Store conn.new) → (state S.Store conn.old).now.schema ≡ store_schema → (state S.Store conn.old).now ≡ (state S.Store conn.old).committed
        → IsTrue (state S.Store conn.new).is_open → (state S.Store conn.new).now ≡ (state S.Store conn.old).now }
    ensures was_open { HasCleanDisk (state S.Store conn.new) → IsTrue (state S.Store conn.new).is_open → IsTrue (state S.Store conn.old).is_open }
    ensures mode { conn.old.in_transaction ≡ false → conn.new.in_transaction ≡ false }
    ensures clean { HasCleanDisk (state S.Store conn.new) → HasCleanDisk (state S.Store conn.old) }
{
    match cells_of_row(conn, tables, table, pk, alloc) {
        Ok(cells) => Ok(by_change(cells)?),
        Err(error) => Err(refusal(error)),
    }
}

/// The cells of one table, in the order of changes.
pub(crate) fn cells_of_table<S: Alter>(
    conn: &mut Connection<S>,
    tables: &[Table],
    table: &str,
    alloc: Global,
) -> Result<Vec<Stamped>, CellsError>
    ensures found { HasCleanDisk (state S.Store conn.new) → (a b o d : List Row) → (ss : List Stamped) → HasCells (state S.Store conn.old).now tables.now a b o d ss → IsStrictlySortedBy cell_cmp ss
        → MatchResult result (λ cells. cells.items ≡ cells_of_table ss table.now) IsRefusal }
    ensures opened { HasCleanDisk (state S.Store conn.new) → OnOk result (IsTrue (state S.Store conn.new).is_open) }
    ensures wants { IfErr result (λ e. is_want e ≡ true) }
    ensures same { HasCleanDisk (state S.Store conn.new) → (state S.Store conn.old).now.schema ≡ store_schema → (state S.Store conn.old).now ≡ (state S.Store conn.old).committed
        → IsTrue (state S.Store conn.new).is_open → (state S.Store conn.new).now ≡ (state S.Store conn.old).now }
    ensures was_open { HasCleanDisk (state S.Store conn.new) → IsTrue (state S.Store conn.new).is_open → IsTrue (state S.Store conn.old).is_open }
    ensures mode { conn.old.in_transaction ≡ false → conn.new.in_transaction ≡ false }
    ensures clean { HasCleanDisk (state S.Store conn.new) → HasCleanDisk (state S.Store conn.old) }
{
    match cells_in_table(conn, tables, table, alloc) {
        Ok(cells) => Ok(by_change(cells)?),
        Err(error) => Err(refusal(error)),
    }
}
