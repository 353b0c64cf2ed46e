//! The queries that read all rows of a store's tables.

ghost use Rattle.std.specs.Prelude.{◌≡◌, false, map, IfOk, IsTrue};
ghost use Rattle.std.specs.List.Sorted.{IsPermutation};
ghost use Rattle.sqlite.specs.Held.{state};
ghost use Rattle.sqlite.specs.State.{HasCleanDisk};
ghost use Rattle.cr_store.specs.Schema.{schema_of};
ghost use Rattle.cr_store.specs.Asking.{columns_3, columns_5, columns_10, AreRowsOf, OnlyAsks};

use crate::format::Format;
use crate::opening::Rows;
use cr_rows::ask;
use sqlite::{Alter, Connection, Error, Row};
use std::alloc::Global;

const META: &str = "SELECT rowid, name, val FROM cr_meta";

const TABLES: &str = "SELECT rowid, name, ordinal, crr, def FROM cr_schema";

const OLD_CELLS: &str = "SELECT rowid, tbl, pk, cid, cl, ver, val, site, dbv, seq FROM cr_cell";

const CELLS: &str = "SELECT rowid, tab, pk, cid, cl, ver, val, site, dbv, seq FROM cr_cell2";

const MARKS: &str = "SELECT rowid, site, seen FROM cr_peer";

fn meta_rows<S: Alter>(conn: &mut Connection<S>) -> Result<Vec<Row>, Error>
    requires mode { conn.old.in_transaction ≡ false }
    ensures found { HasCleanDisk (state S.Store conn.new) → (format : Format) → (state S.Store conn.old).now.schema ≡ schema_of format
        → IfOk result (λ rows. IsTrue (state S.Store conn.new).is_open × IsPermutation (map columns_3 ((state S.Store conn.old).now.trees 0)) rows.items) }
    ensures asks { HasCleanDisk (state S.Store conn.new) → (format : Format) → (state S.Store conn.old).now.schema ≡ schema_of format
        → OnlyAsks (state S.Store conn.old) (state S.Store conn.new) }
    ensures mode { conn.new.in_transaction ≡ false }
    ensures clean { HasCleanDisk (state S.Store conn.new) → HasCleanDisk (state S.Store conn.old) }
{
    let _ = conn.is_autocommit();
    ask(conn, META, &[])
}

fn table_rows<S: Alter>(conn: &mut Connection<S>) -> Result<Vec<Row>, Error>
    requires mode { conn.old.in_transaction ≡ false }
    ensures found { HasCleanDisk (state S.Store conn.new) → (format : Format) → (state S.Store conn.old).now.schema ≡ schema_of format
        → IfOk result (λ rows. IsTrue (state S.Store conn.new).is_open × IsPermutation (map columns_5 ((state S.Store conn.old).now.trees 2)) rows.items) }
    ensures asks { HasCleanDisk (state S.Store conn.new) → (format : Format) → (state S.Store conn.old).now.schema ≡ schema_of format
        → OnlyAsks (state S.Store conn.old) (state S.Store conn.new) }
    ensures mode { conn.new.in_transaction ≡ false }
    ensures clean { HasCleanDisk (state S.Store conn.new) → HasCleanDisk (state S.Store conn.old) }
{
    let _ = conn.is_autocommit();
    ask(conn, TABLES, &[])
}

fn old_rows<S: Alter>(conn: &mut Connection<S>) -> Result<Vec<Row>, Error>
    requires mode { conn.old.in_transaction ≡ false }
    ensures found { HasCleanDisk (state S.Store conn.new) → (format : Format) → (state S.Store conn.old).now.schema ≡ schema_of format
        → IfOk result (λ rows. IsTrue (state S.Store conn.new).is_open × IsPermutation (map columns_10 ((state S.Store conn.old).now.trees 4)) rows.items) }
    ensures asks { HasCleanDisk (state S.Store conn.new) → (format : Format) → (state S.Store conn.old).now.schema ≡ schema_of format
        → OnlyAsks (state S.Store conn.old) (state S.Store conn.new) }
    ensures mode { conn.new.in_transaction ≡ false }
    ensures clean { HasCleanDisk (state S.Store conn.new) → HasCleanDisk (state S.Store conn.old) }
{
    let _ = conn.is_autocommit();
    ask(conn, OLD_CELLS, &[])
}

fn cell_rows<S: Alter>(conn: &mut Connection<S>) -> Result<Vec<Row>, Error>
    requires mode { conn.old.in_transaction ≡ false }
    ensures found { HasCleanDisk (state S.Store conn.new) → (state S.Store conn.old).now.schema ≡ schema_of Format.Second
        → IfOk result (λ rows. IsTrue (state S.Store conn.new).is_open × IsPermutation (map columns_10 ((state S.Store conn.old).now.trees 8)) rows.items) }
    ensures asks { HasCleanDisk (state S.Store conn.new) → (state S.Store conn.old).now.schema ≡ schema_of Format.Second
        → OnlyAsks (state S.Store conn.old) (state S.Store conn.new) }
    ensures mode { conn.new.in_transaction ≡ false }
    ensures clean { HasCleanDisk (state S.Store conn.new) → HasCleanDisk (state S.Store conn.old) }
{
    let _ = conn.is_autocommit();
    ask(conn, CELLS, &[])
}

fn mark_rows<S: Alter>(conn: &mut Connection<S>) -> Result<Vec<Row>, Error>
    requires mode { conn.old.in_transaction ≡ false }
    ensures found { HasCleanDisk (state S.Store conn.new) → (format : Format) → (state S.Store conn.old).now.schema ≡ schema_of format
        → IfOk result (λ rows. IsTrue (state S.Store conn.new).is_open × IsPermutation (map columns_3 ((state S.Store conn.old).now.trees 6)) rows.items) }
    ensures asks { HasCleanDisk (state S.Store conn.new) → (format : Format) → (state S.Store conn.old).now.schema ≡ schema_of format
        → OnlyAsks (state S.Store conn.old) (state S.Store conn.new) }
    ensures mode { conn.new.in_transaction ≡ false }
    ensures clean { HasCleanDisk (state S.Store conn.new) → HasCleanDisk (state S.Store conn.old) }
{
    let _ = conn.is_autocommit();
    ask(conn, MARKS, &[])
}

/// All rows of a store's tables.
///
/// # Errors
/// sqlite's.
pub(crate) fn read_rows<S: Alter>(
    conn: &mut Connection<S>,
    format: Format,
    alloc: Global,
) -> Result<Rows, Error>
    requires mode { conn.old.in_transaction ≡ false }
    ensures found { HasCleanDisk (state S.Store conn.new) → (state S.Store conn.old).now.schema ≡ schema_of format
        → IfOk result (λ rows. IsTrue (state S.Store conn.new).is_open × AreRowsOf format (state S.Store conn.old).now rows.meta.items rows.tables.items rows.old.items rows.cells.items rows.marks.items) }
    ensures asks { HasCleanDisk (state S.Store conn.new) → (state S.Store conn.old).now.schema ≡ schema_of format
        → OnlyAsks (state S.Store conn.old) (state S.Store conn.new) }
    ensures mode { conn.new.in_transaction ≡ false }
    ensures clean { HasCleanDisk (state S.Store conn.new) → HasCleanDisk (state S.Store conn.old) }
{
    let meta = meta_rows(conn)?;
    let tables = table_rows(conn)?;
    let marks = mark_rows(conn)?;
    let named = old_rows(conn)?;
    match format {
        Format::First => Ok(Rows {
            meta,
            tables,
            old: Vec::new(alloc),
            cells: named,
            marks,
        }),
        Format::Second => {
            let cells = cell_rows(conn)?;
            Ok(Rows {
                meta,
                tables,
                old: named,
                cells,
                marks,
            })
        }
    }
}
