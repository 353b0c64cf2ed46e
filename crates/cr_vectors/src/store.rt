//! The store over sqlite, in memory, in a file and in a file in memory: the same calls with the same answers as at the plain one.

use crate::cells::{add_replicated, by_pages, commit_from, has_deletion, meets_the_vectors};
use cr_cells::plain::PlainCells;
use cr_cells::store::{Cells, CellsError, NewCells, StoreFault};
use cr_lattice::change::{Change, Site};
use cr_lattice::stamped::Stamped;
use cr_memory::MemoryCells;
use cr_store::laws::reopened;
use cr_store::store::Store;
use cr_told::reading::{A, B, definition, key};
use cr_value::text::Text;
use cr_value::value::Value;
use sqlite::{Alter, Connection, File, FileStore};
use std::alloc::Global;
use std::fs;
use std::hash::{BuildHasher, RandomState};
use std::process::Abort;
use std::test::Fail;

// Whether a store's connection, as it is given back, has the tables of a store.
fn has_tables<S: Alter + Drop>(alloc: Global, store: Store<S>) -> bool {
    match Store::create(alloc, store.into_connection(), A) {
        Ok(_) => false,
        Err((error, _)) => error == CellsError::Store(StoreFault::Taken),
    }
}

fn opened_again<S: Alter + Drop>(alloc: Global, store: Store<S>) -> Result<Store<S>, Fail> {
    match reopened(alloc, store) {
        Ok(store) => Ok(store),
        Err((error, _)) => Err(Fail::from(error)),
    }
}

// The calls in turn, and what the store has when it is opened again.
fn meets_all<S: Alter + Drop>(
    rt: &impl Abort,
    alloc: Global,
    mut store: Store<S>,
) -> Result<(), Fail> {
    meets_the_vectors(rt, alloc, &mut store)?;
    let mut store = opened_again(alloc, store)?;
    assert!(rt; has_deletion(alloc, &mut store)?);
    assert!(rt; has_tables(alloc, store));
    Ok(())
}

#[test]
fn a_store_in_memory_keeps_what_is_committed(rt: HostRuntime) -> Result<(), Fail> {
    let alloc = rt.alloc();
    meets_all(&rt, alloc, Store::in_memory(alloc, A)?)
}

#[test]
fn a_store_in_a_file_in_memory_keeps_what_is_committed(rt: HostRuntime) -> Result<(), Fail> {
    let alloc = rt.alloc();
    meets_the_vectors(&rt, alloc, &mut MemoryCells::create(alloc, A)?)
}

// A name that no file has.
fn new_name(rt: &HostRuntime) -> Result<String, Fail> {
    let number = RandomState::new(rt)?.hash_one(&0u8);
    Ok(format!(in rt.alloc(); "/tmp/cr_vectors_{number}.db")?)
}

// The file and its log lose their names at once, so that nothing is left of them whatever the test finds.
fn open_unnamed(rt: &HostRuntime) -> Result<Connection<FileStore<File>>, Fail> {
    let name = new_name(rt)?;
    let conn = Connection::open(rt, &name)?;
    fs::remove_file(rt, name.as_str())?;
    fs::remove_file(rt, format!(in rt.alloc(); "{name}-wal")?.as_str())?;
    Ok(conn)
}

#[test]
fn a_store_in_a_file_keeps_what_is_committed(rt: HostRuntime) -> Result<(), Fail> {
    match Store::create(rt.alloc(), open_unnamed(&rt)?, A) {
        Ok(store) => meets_all(&rt, rt.alloc(), store),
        Err((error, _)) => Err(Fail::from(error)),
    }
}

const C: Site = [12; 16];

// The columns of both tables, with three beside the key.
const COLUMNS: &str = "id|INT|1|NULL / name|TEXT||'none' / n|INT||7 / x|BLOB||NULL";

// Numbers that look random, always the same.
#[derive(Drop)]
struct Random(u64);

impl Random {
    // The next number below a bound, from the high bits of a linear congruential generator.
    fn below(&mut self, bound: u8) -> u8 {
        self.0 = self
            .0
            .wrapping_mul(6364136223846793005)
            .wrapping_add(1442695040888963407);
        ((self.0 >> 33) % u64::from(bound.max(1))) as u8
    }
}

fn site(random: &mut Random) -> Site {
    match random.below(3) {
        0 => A,
        1 => B,
        _ => C,
    }
}

fn val(alloc: Global, random: &mut Random) -> Result<Value, Fail> {
    Ok(match random.below(4) {
        0 => Value::Null,
        1 => Value::Text(Text::from_str(alloc, "bob")?),
        2 => Value::Blob(key(alloc, random.below(3))?),
        _ => Value::Int(i64::from(random.below(3))),
    })
}

// The name of a column, its value, its version and the causal length: of a row `-1`, NULL and the same number twice, of
// a column an odd length.
fn written(alloc: Global, random: &mut Random) -> Result<(&'static str, Value, i64, i64), Fail> {
    let length = i64::from(random.below(4)) + 1;
    let odd = i64::from(random.below(2)) * 2 + 1;
    let version = i64::from(random.below(4)) + 1;
    Ok(match random.below(4) {
        0 => ("-1", Value::Null, length, length),
        1 => ("name", val(alloc, random)?, version, odd),
        2 => ("n", val(alloc, random)?, version, odd),
        _ => ("x", val(alloc, random)?, version, odd),
    })
}

fn change(alloc: Global, random: &mut Random) -> Result<Change, Fail> {
    let (cid, val, col_version, cl) = written(alloc, random)?;
    Ok(Change {
        table: Text::from_str(alloc, if random.below(2) == 0 { "t" } else { "u" })?,
        pk: key(alloc, random.below(4))?,
        cid: Text::from_str(alloc, cid)?,
        val,
        col_version,
        site: site(random),
        cl,
    })
}

fn changes(alloc: Global, random: &mut Random) -> Result<Vec<Change>, Fail> {
    let mut all = Vec::new(alloc);
    for _ in 0..random.below(4).max(1) {
        all.push(change(alloc, random)?)?;
    }
    Ok(all)
}

fn are_same(a: &[Stamped], b: &[Stamped]) -> bool {
    a.len() == b.len()
        && a.iter().zip(b).all(|(a, b)| a.change == b.change
            && a.version == b.version
            && a.seq == b.seq)
}

fn hold_the_same<C: Cells, D: Cells>(alloc: Global, a: &mut C, b: &mut D) -> Result<bool, Fail> {
    if a.db_version() != b.db_version() || !are_same(&a.since(alloc, 0)?, &b.since(alloc, 0)?) {
        return Ok(false);
    }
    for site in [A, B, C] {
        if a.seen(alloc, site)? != b.seen(alloc, site)? {
            return Ok(false);
        }
    }
    Ok(true)
}

// Whether the pages of both tables, of one key each, of two and of more than there are, have the cells of the tables.
fn are_paged<C: Cells>(alloc: Global, cells: &mut C) -> Result<bool, Fail> {
    for table in ["t", "u"] {
        let whole = cells.cells_of_table(alloc, table)?;
        if !are_same(&by_pages(alloc, cells, table, 1)?, &whole)
            || !are_same(&by_pages(alloc, cells, table, 2)?, &whole)
            || !are_same(&by_pages(alloc, cells, table, 64)?, &whole)
        {
            return Ok(false);
        }
    }
    Ok(true)
}

// The same commit at both: whether they answer the same, and then hold the same.
fn commit_to_both<C: Cells, D: Cells>(
    alloc: Global,
    a: &mut C,
    b: &mut D,
    random: &mut Random,
) -> Result<bool, Fail> {
    let changes = changes(alloc, random)?;
    let site = site(random);
    let version = random.below(9);
    let changed = commit_from(alloc, a, &changes, site, version)?;
    Ok(changed == commit_from(alloc, b, &changes, site, version)? && hold_the_same(alloc, a, b)?)
}

fn define<C: Cells>(alloc: Global, cells: &mut C) -> Result<(), Fail> {
    add_replicated(alloc, cells, &definition(alloc, "t", COLUMNS)?)?;
    add_replicated(alloc, cells, &definition(alloc, "u", COLUMNS)?)
}

#[test]
fn a_store_holds_what_the_plain_one_holds(rt: HostRuntime) -> Result<(), Fail> {
    let alloc = rt.alloc();
    let mut plain = PlainCells::new(alloc, A);
    let mut store = Store::in_memory(alloc, A)?;
    define(alloc, &mut plain)?;
    define(alloc, &mut store)?;
    let mut random = Random(1);
    for round in 0..60 {
        assert!(rt;
            commit_to_both(alloc, &mut plain, &mut store, &mut random)?,
            "at {round}"
        );
    }
    assert!(rt; plain.db_version() > 20, "most commits change something");
    assert!(rt; are_paged(alloc, &mut plain)? && are_paged(alloc, &mut store)?);
    let mut store = opened_again(alloc, store)?;
    assert!(rt;
        hold_the_same(alloc, &mut plain, &mut store)?,
        "opened again"
    );
    Ok(())
}

#[test]
fn a_database_without_tables_is_no_store(rt: HostRuntime) -> Result<(), Fail> {
    let alloc = rt.alloc();
    let Err((error, conn)) = Store::open(alloc, Connection::open_in_memory(alloc)?) else {
        return Err(Fail::from("opened"));
    };
    assert!(rt; error == CellsError::Store(StoreFault::Damaged));
    assert!(rt;
        Store::create(alloc, conn, A).is_ok(),
        "the connection is as it was"
    );
    Ok(())
}
