//! A store of format 1, as SQL writes it, and what it becomes.

use cr_cells::store::{Cells, CellsError, StoreFault};
use cr_store::store::Store;
use cr_told::reading::{A, B, T, definition};
use cr_value::value::Value;
use sqlite::types::ValueRef;
use sqlite::{Alter, Connection};
use std::alloc::Global;
use std::test::Fail;

const TABLES: &str = "CREATE TABLE cr_meta(name TEXT PRIMARY KEY, val);
     CREATE TABLE cr_schema(name TEXT PRIMARY KEY, ordinal INTEGER, crr INTEGER, def BLOB);
     CREATE TABLE cr_cell(tbl TEXT, pk BLOB, cid TEXT, cl INTEGER, ver INTEGER, val, site BLOB, dbv INTEGER, seq INTEGER, PRIMARY KEY(tbl, pk, cid));
     CREATE TABLE cr_peer(site BLOB PRIMARY KEY, seen INTEGER);";

const ROWS: &str =
    "INSERT INTO cr_meta VALUES('format', 1), ('site', X'0A0A0A0A0A0A0A0A0A0A0A0A0A0A0A0A'), ('db_version', 4);
     INSERT INTO cr_cell VALUES('t', X'01010000000000000001', 'name', 1, 1, 'x', X'0B0B0B0B0B0B0B0B0B0B0B0B0B0B0B0B', 3, 0);
     INSERT INTO cr_cell VALUES('t', X'01010000000000000002', 'name', 1, 2, NULL, X'0B0B0B0B0B0B0B0B0B0B0B0B0B0B0B0B', 4, 1);
     INSERT INTO cr_peer VALUES(X'0B0B0B0B0B0B0B0B0B0B0B0B0B0B0B0B', 9);";

const NAMED: &str =
    "INSERT INTO cr_cell VALUES('t', X'01010000000000000003', 'name', 1, 1, 'y', X'0B0B0B0B0B0B0B0B0B0B0B0B0B0B0B0B', 3, 5)";

// Makes a store of format 1: site A, table t(id, name), two cells of site B, and the mark of B.
fn fill<S: Alter>(alloc: Global, conn: &mut Connection<S>) -> Result<(), Fail> {
    let def = definition(alloc, "t", T)?;
    let bytes = cr_layout::definition::definition(alloc, &def)?;
    conn.execute_batch(TABLES)?;
    conn.execute(
        "INSERT INTO cr_schema VALUES('t', 1, 1, ?1)",
        &[ValueRef::Blob(&bytes)],
    )?;
    conn.execute_batch(ROWS)?;
    Ok(())
}

// Whether the store is that of `fill`.
fn is_whole<C: Cells>(alloc: Global, store: &mut C) -> Result<bool, Fail> {
    let tables = store.tables(alloc)?;
    let cells = store.since(alloc, 0)?;
    let [first, second] = &*cells else {
        return Ok(false);
    };
    let is_first = first.version == 3 && first.seq == 0 && first.change.cid.as_str() == "name";
    let is_second = second.version == 4 && second.seq == 1 && second.change.col_version == 2;
    Ok(
        tables.len() == 1
            && is_first
            && is_second
            && first.change.table.as_str() == "t"
            && second.change.val == Value::Null
            && second.change.site == B
            && store.site() == A
            && store.db_version() == 4
            && store.seen(alloc, B)? == 9,
    )
}

fn number<S: Alter>(conn: &mut Connection<S>, sql: &str) -> Result<i64, Fail> {
    Ok(conn.query_row(sql, &[])?.get(0)?)
}

fn opened<S: Alter + Drop>(alloc: Global, conn: Connection<S>) -> Result<Store<S>, Fail> {
    match Store::open(alloc, conn) {
        Ok(store) => Ok(store),
        Err((error, _)) => Err(Fail::from(error)),
    }
}

// Whether a store that was made of format 1 is damaged by a statement.
fn is_damaged_by(alloc: Global, sql: &str) -> Result<bool, Fail> {
    let mut conn = Connection::open_in_memory(alloc)?;
    fill(alloc, &mut conn)?;
    let mut conn = opened(alloc, conn)?.into_connection();
    conn.execute(sql, &[])?;
    Ok(match Store::open(alloc, conn) {
        Ok(_) => false,
        Err((error, _)) => error == CellsError::Store(StoreFault::Damaged),
    })
}

#[test]
fn a_store_of_format_1_becomes_one_of_format_2(rt: HostRuntime) -> Result<(), Fail> {
    let alloc = rt.alloc();
    let mut conn = Connection::open_in_memory(alloc)?;
    fill(alloc, &mut conn)?;
    let mut store = opened(alloc, conn)?;
    assert!(rt; is_whole(alloc, &mut store)?);
    let mut conn = store.into_connection();
    assert_eq!(rt;
        number(&mut conn, "SELECT val FROM cr_meta WHERE name = 'format'")?,
        2
    );
    assert_eq!(rt; number(&mut conn, "SELECT count(*) FROM cr_cell")?, 0);
    assert_eq!(rt;
        number(&mut conn, "SELECT count(*) FROM cr_cell2 WHERE tab = 1")?,
        2
    );
    assert!(rt; is_whole(alloc, &mut opened(alloc, conn)?)?);
    assert!(rt; !is_damaged_by(alloc, "UPDATE cr_peer SET seen = 8")?);
    assert!(rt; is_damaged_by(alloc, NAMED)?);
    assert!(rt; is_damaged_by(alloc, "UPDATE cr_cell2 SET tab = 2 WHERE seq = 1")?);
    assert!(rt; is_damaged_by(alloc, "UPDATE cr_meta SET val = 3 WHERE name = 'format'")?);
    assert!(rt; is_damaged_by(alloc, "UPDATE cr_meta SET val = 1 WHERE name = 'format'")?);
    Ok(())
}
