//! Pages: the cells of the first keys of a table above a key.

ghost use Rattle.std.specs.Prelude.{◌≡◌, false, true, List, filter, IfOk, IfErr, OnOk, IsTrue, MatchResult};
ghost use Rattle.std.specs.Option.{ForSome, option_copied};
ghost use Rattle.std.specs.List.Sorted.{IsStrictlySortedBy};
ghost use Rattle.sqlite.specs.Held.{state};
ghost use Rattle.sqlite.specs.Order.{Row};
ghost use Rattle.sqlite.specs.State.{HasCleanDisk};
ghost use Rattle.sqlite.specs.Values.{bound_value};
ghost use Rattle.sqlite_value.specs.Value.{owned};
ghost use Rattle.cr_lattice.specs.declared.stamped.Stamped.{Stamped};
ghost use Rattle.cr_cells.specs.Calls.{IsRefusal, is_want};
ghost use Rattle.cr_cells.specs.Holding.{cell_cmp};
ghost use Rattle.cr_cells.specs.Pages.{between, is_at, HasKeys, IsPage};
ghost use Rattle.cr_store.specs.Pages.{below};
ghost use Rattle.cr_store.specs.Schema.{store_schema};
ghost use Rattle.cr_store.specs.Shows.{HasCells};
ghost use Rattle.cr_store.specs.Words.{SameCells};

use crate::ordinals::ordinal;
use crate::reads::{ask_cells, by_change};
use crate::rows::refusal;
use cr_cells::page::{Page, keys_of};
use cr_cells::store::CellsError;
use cr_cells::tables::table_named;
use cr_lattice::stamped::Stamped;
use cr_lattice::table::Table;
use cr_rows::{ask, blob_at};
use cr_value::text::Bytes;
use sqlite::types::ValueRef;
use sqlite::{Alter, Connection, Error};
use std::alloc::{AllocError, Global};

const PART: &str =
    "SELECT tab, pk, cid, cl, ver, val, site, dbv, seq FROM cr_cell2 WHERE tab = ?1 AND pk > ?2 AND pk <= ?3";

const REST: &str =
    "SELECT tab, pk, cid, cl, ver, val, site, dbv, seq FROM cr_cell2 WHERE tab = ?1 AND pk > ?2";

const KEY: &str =
    "SELECT pk FROM cr_cell2 WHERE tab = ?1 AND pk > ?2 ORDER BY pk LIMIT 1 OFFSET ?3";

// How often a page is looked for in a wider part of the table before all that is left of it is read.
const WIDENINGS: usize = 8;

// What sqlite compares the keys with: a key, or a number where none is given, as every blob is above every number.
fn below<'a>(key: Option<&'a [u8]>) -> ValueRef<'a>
    ensures { bound_value (owned result) ≡ below (option_copied key.entry) }
{
    match key {
        Some(key) => ValueRef::Blob(key),
        None => ValueRef::Int(0),
    }
}

// The cells of a table from above a key up to another, in the order of sqlite's rows.
fn cells_between<'a, S: Alter>(
    conn: &mut Connection<S>,
    tables: &[Table],
    table: &'a str,
    after: Option<&'a [u8]>,
    range: Option<&'a [u8]>,
    alloc: Global,
) -> Result<Vec<Stamped>, Error>
    ensures found { HasCleanDisk (state S.Store conn.new) → (a b o d : List Row) → (ss : List Stamped) → HasCells (state S.Store conn.old).now tables.now a b o d ss
        → IfOk result (λ cells. SameCells (filter (is_at table.now (between (option_copied after.entry) (option_copied range.entry))) ss) cells.items) }
    ensures opened { HasCleanDisk (state S.Store conn.new) → OnOk result (IsTrue (state S.Store conn.new).is_open) }
    ensures same { HasCleanDisk (state S.Store conn.new) → (state S.Store conn.old).now.schema ≡ store_schema → (state S.Store conn.old).now ≡ (state S.Store conn.old).committed
        → IsTrue (state S.Store conn.new).is_open → (state S.Store conn.new).now ≡ (state S.Store conn.old).now }
    ensures was_open { HasCleanDisk (state S.Store conn.new) → IsTrue (state S.Store conn.new).is_open → IsTrue (state S.Store conn.old).is_open }
    ensures mode { conn.old.in_transaction ≡ false → conn.new.in_transaction ≡ false }
    ensures clean { HasCleanDisk (state S.Store conn.new) → HasCleanDisk (state S.Store conn.old) }
{
    let tab = ValueRef::Int(ordinal(tables, table));
    match range {
        Some(range) => ask_cells(
            conn,
            PART,
            &[tab, below(after), ValueRef::Blob(range)],
            tables,
            alloc,
        ),
        None => ask_cells(conn, REST, &[tab, below(after)], tables, alloc),
    }
}

// The key of the cell behind so many of a table's cells above a key. Which one it is only makes a page cheap or dear.
fn key_behind<'a, S: Alter>(
    conn: &mut Connection<S>,
    tables: &[Table],
    table: &'a str,
    after: Option<&'a [u8]>,
    skipped: i64,
) -> Result<Option<Bytes>, Error>
    ensures opened { HasCleanDisk (state S.Store conn.new) → OnOk result (IsTrue (state S.Store conn.new).is_open) }
    ensures same { HasCleanDisk (state S.Store conn.new) → (state S.Store conn.old).now.schema ≡ store_schema → (state S.Store conn.old).now ≡ (state S.Store conn.old).committed
        → IsTrue (state S.Store conn.new).is_open → (state S.Store conn.new).now ≡ (state S.Store conn.old).now }
    ensures was_open { HasCleanDisk (state S.Store conn.new) → IsTrue (state S.Store conn.new).is_open → IsTrue (state S.Store conn.old).is_open }
    ensures mode { conn.old.in_transaction ≡ false → conn.new.in_transaction ≡ false }
    ensures clean { HasCleanDisk (state S.Store conn.new) → HasCleanDisk (state S.Store conn.old) }
{
    let tab = ValueRef::Int(ordinal(tables, table));
    let rows = ask(conn, KEY, &[tab, below(after), ValueRef::Int(skipped)])?;
    match rows.first() {
        Some(row) => Ok(Some(Bytes::new(blob_at(row, 0)?))),
        None => Ok(None),
    }
}

fn lent(key: &Option<Bytes>) -> Option<&[u8]>
    ensures { option_copied result ≡ key.now }
{
    match key {
        Some(key) => Some(key.as_slice()),
        None => None,
    }
}

// The cells from above a key up to another, as a page that ends there. Where there is such an end, it may lack keys.
fn page_of<'a, S: Alter>(
    conn: &mut Connection<S>,
    tables: &[Table],
    table: &'a str,
    after: Option<&'a [u8]>,
    range: Option<Bytes>,
    alloc: Global,
) -> Result<Page, CellsError>
    ensures found { HasCleanDisk (state S.Store conn.new) → (a b o d : List Row) → (ss : List Stamped) → HasCells (state S.Store conn.old).now tables.now a b o d ss → IsStrictlySortedBy cell_cmp ss
        → MatchResult result (λ page. (page.cells.items ≡ filter (is_at table.now (between (option_copied after.entry) page.bound)) ss) × (page.bound ≡ range)) IsRefusal }
    ensures opened { HasCleanDisk (state S.Store conn.new) → OnOk result (IsTrue (state S.Store conn.new).is_open) }
    ensures wants { IfErr result (λ e. is_want e ≡ true) }
    ensures same { HasCleanDisk (state S.Store conn.new) → (state S.Store conn.old).now.schema ≡ store_schema → (state S.Store conn.old).now ≡ (state S.Store conn.old).committed
        → IsTrue (state S.Store conn.new).is_open → (state S.Store conn.new).now ≡ (state S.Store conn.old).now }
    ensures was_open { HasCleanDisk (state S.Store conn.new) → IsTrue (state S.Store conn.new).is_open → IsTrue (state S.Store conn.old).is_open }
    ensures mode { conn.old.in_transaction ≡ false → conn.new.in_transaction ≡ false }
    ensures clean { HasCleanDisk (state S.Store conn.new) → HasCleanDisk (state S.Store conn.old) }
{
    match cells_between(conn, tables, table, after, lent(&range), alloc) {
        Ok(cells) => Ok(Page {
            cells: by_change(cells)?,
            bound: range,
        }),
        Err(error) => Err(refusal(error)),
    }
}

// Whether a page has so many keys, or no end.
fn lacks_nothing(page: &Page, limit: usize, alloc: Global) -> Result<bool, AllocError>
    ensures { IfOk result (λ whole. whole ≡ true → HasKeys page.now.bound limit page.now.cells.items) }
{
    Ok(page.bound.is_none() || limit <= keys_of(alloc, &page.cells)?.len())
}

// The page after a key that ends at the key of the cell behind so many, if it has keys enough.
fn page_within<'a, S: Alter>(
    conn: &mut Connection<S>,
    tables: &[Table],
    table: &'a str,
    after: Option<&'a [u8]>,
    limit: usize,
    skipped: i64,
    alloc: Global,
) -> Result<Option<Page>, CellsError>
    requires mode { conn.old.in_transaction ≡ false }
    ensures found { HasCleanDisk (state S.Store conn.new) → IsTrue (state S.Store conn.new).is_open → (a b o d : List Row) → (ss : List Stamped) → HasCells (state S.Store conn.old).now tables.now a b o d ss → IsStrictlySortedBy cell_cmp ss
        → MatchResult result (λ page. ForSome page (IsPage ss table.now (option_copied after.entry) limit)) IsRefusal }
    ensures opened { HasCleanDisk (state S.Store conn.new) → OnOk result (IsTrue (state S.Store conn.new).is_open) }
    ensures wants { IfErr result (λ e. is_want e ≡ true) }
    ensures same { HasCleanDisk (state S.Store conn.new) → (state S.Store conn.old).now.schema ≡ store_schema
        → IsTrue (state S.Store conn.new).is_open → (state S.Store conn.new).now ≡ (state S.Store conn.old).now }
    ensures was_open { HasCleanDisk (state S.Store conn.new) → IsTrue (state S.Store conn.new).is_open → IsTrue (state S.Store conn.old).is_open }
    ensures mode { conn.new.in_transaction ≡ false }
    ensures clean { HasCleanDisk (state S.Store conn.new) → HasCleanDisk (state S.Store conn.old) }
{
    let _ = conn.is_autocommit();
    let range = match key_behind(conn, tables, table, after, skipped) {
        Ok(range) => range,
        Err(error) => return Err(refusal(error)),
    };
    let _ = conn.is_autocommit();
    let page = page_of(conn, tables, table, after, range, alloc)?;
    if lacks_nothing(&page, limit, alloc)? {
        Ok(Some(page))
    } else {
        Ok(None)
    }
}

// How many cells so many keys have where each has one of the row itself and one for each column outside the key, as a row that was
// inserted once.
fn cells_of_keys(tables: &[Table], table: &str, limit: usize) -> i64 {
    let columns = match table_named(tables, table) {
        Some(table) => table
            .definition
            .columns
            .as_slice()
            .iter()
            .filter(|column| column.key.is_none())
            .count(),
        None => 0,
    };
    i64::try_from(limit.saturating_mul(columns.saturating_add(1))).unwrap_or(i64::MAX)
}

/// The cells of the first keys of a table above a key, at least as many keys as are asked for, or of all keys that are left, in the
/// order of changes. Reads no others where no key has more cells than one of the row itself and one for each column outside the key.
///
/// # Errors
/// `Memory`, or `Store(Refused)`.
pub(crate) fn page<'a, S: Alter>(
    conn: &mut Connection<S>,
    tables: &[Table],
    table: &'a str,
    after: Option<&'a [u8]>,
    limit: usize,
    alloc: Global,
) -> Result<Page, CellsError>
    requires mode { conn.old.in_transaction ≡ false }
    ensures found { HasCleanDisk (state S.Store conn.new) → IsTrue (state S.Store conn.new).is_open → (a b o d : List Row) → (ss : List Stamped) → HasCells (state S.Store conn.old).now tables.now a b o d ss → IsStrictlySortedBy cell_cmp ss
        → MatchResult result (IsPage ss table.now (option_copied after.entry) limit) IsRefusal }
    ensures opened { HasCleanDisk (state S.Store conn.new) → OnOk result (IsTrue (state S.Store conn.new).is_open) }
    ensures wants { IfErr result (λ e. is_want e ≡ true) }
    ensures same { HasCleanDisk (state S.Store conn.new) → (state S.Store conn.old).now.schema ≡ store_schema
        → IsTrue (state S.Store conn.new).is_open → (state S.Store conn.new).now ≡ (state S.Store conn.old).now }
    ensures was_open { HasCleanDisk (state S.Store conn.new) → IsTrue (state S.Store conn.new).is_open → IsTrue (state S.Store conn.old).is_open }
    ensures mode { conn.new.in_transaction ≡ false }
    ensures clean { HasCleanDisk (state S.Store conn.new) → HasCleanDisk (state S.Store conn.old) }
{
    let mut skipped = cells_of_keys(tables, table, limit);
    for _turn in 0..WIDENINGS {
        if let Some(page) = page_within(conn, tables, table, after, limit, skipped, alloc)? {
            return Ok(page);
        }
        skipped = skipped.saturating_mul(4);
    }
    let _ = conn.is_autocommit();
    page_of(conn, tables, table, after, None, alloc)
}
