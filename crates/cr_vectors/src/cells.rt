//! The calls of a store in turn, at any store, and at the plain one.

ghost use Rattle.std.specs.Prelude.{◌<◌};

use cr_cells::plain::PlainCells;
use cr_cells::store::Cells;
use cr_cells::tables::{check_all, has_defaults, is_markable, is_new_table};
use cr_lattice::change::{Change, Site};
use cr_lattice::stamped::Stamped;
use cr_lattice::table::TableDef;
use cr_told::reading::{A, B, T, changes, definition, key};
use cr_value::text::Bytes;
use std::alloc::Global;
use std::process::Abort;
use std::test::Fail;

const BOB: &str = "t|1|name|'bob'|2|A|1";

const DELETION: &str = "t|1|-1|NULL|2|A|2";

fn add<C: Cells>(alloc: Global, cells: &mut C, def: &TableDef) -> Result<(), Fail> {
    let tables = cells.tables(alloc)?;
    if !is_new_table(&tables, def) {
        return Err(Fail::from("not new"));
    }
    cells.add_table(alloc, def)?;
    Ok(())
}

/// Adds a replicated table.
pub(crate) fn add_replicated<C: Cells>(
    alloc: Global,
    cells: &mut C,
    def: &TableDef,
) -> Result<(), Fail> {
    let tables = cells.tables(alloc)?;
    if !is_new_table(&tables, def) || !has_defaults(def) {
        return Err(Fail::from("not new"));
    }
    cells.add_replicated(alloc, def)?;
    Ok(())
}

fn mark<C: Cells>(alloc: Global, cells: &mut C, name: &str) -> Result<(), Fail> {
    let tables = cells.tables(alloc)?;
    if !is_markable(&tables, name) {
        return Err(Fail::from("not markable"));
    }
    cells.mark_crr(alloc, name)?;
    Ok(())
}

fn commit<C: Cells>(alloc: Global, cells: &mut C, changes: &[Change]) -> Result<bool, Fail> {
    let tables = cells.tables(alloc)?;
    check_all(alloc, &tables, changes)?;
    Ok(cells.commit(alloc, changes, None)?)
}

/// Commits changes with the mark of a peer.
pub(crate) fn commit_from<C: Cells>(
    alloc: Global,
    cells: &mut C,
    changes: &[Change],
    site: Site,
    version: u8,
) -> Result<bool, Fail> {
    let tables = cells.tables(alloc)?;
    check_all(alloc, &tables, changes)?;
    Ok(cells.commit(alloc, changes, Some((site, i64::from(version))))?)
}

// A table t, and then u, replicated at once.
fn define<C: Cells>(alloc: Global, cells: &mut C) -> Result<(), Fail> {
    add(alloc, cells, &definition(alloc, "t", T)?)?;
    add_replicated(alloc, cells, &definition(alloc, "u", T)?)
}

// Whether the tables are t and u, and only u is replicated unless t was marked.
fn are_defined<C: Cells>(alloc: Global, cells: &mut C, is_marked: bool) -> Result<bool, Fail> {
    match cells.tables(alloc)?.as_slice() {
        [t, u] => Ok(
            t.definition.name.as_str() == "t"
                && t.is_replicated == is_marked
                && u.definition.name.as_str() == "u"
                && u.is_replicated,
        ),
        _ => Ok(false),
    }
}

// The answers to a change of a column, to the same again, and to the row's deletion with the mark of a peer.
fn commit_thrice<C: Cells>(alloc: Global, cells: &mut C) -> Result<(bool, bool, bool), Fail> {
    let bob = changes(alloc, BOB)?;
    let first = commit(alloc, cells, &bob)?;
    let again = commit(alloc, cells, &bob)?;
    let last = commit_from(alloc, cells, &changes(alloc, DELETION)?, B, 4)?;
    Ok((first, again, last))
}

fn is_deletion(alloc: Global, cells: &[Stamped]) -> Result<bool, Fail> {
    let wanted = changes(alloc, DELETION)?;
    match (cells, wanted.as_slice()) {
        ([cell], [wanted]) => Ok(cell.change == *wanted && cell.version == 2 && cell.seq == 0),
        _ => Ok(false),
    }
}

/// Whether the deletion is the one cell, by its version, by its row, by its table and by a page of that.
pub(crate) fn has_deletion<C: Cells>(alloc: Global, cells: &mut C) -> Result<bool, Fail> {
    let since = cells.since(alloc, 1)?;
    let of_row = cells.cells_of(alloc, "t", key(alloc, 1)?.as_slice())?;
    let of_table = cells.cells_of_table(alloc, "t")?;
    let of_other = cells.cells_of_table(alloc, "u")?;
    let page = cells.page(alloc, "t", None, 64)?;
    Ok(
        is_deletion(alloc, &since)?
            && is_deletion(alloc, &of_row)?
            && is_deletion(alloc, &of_table)?
            && is_deletion(alloc, &page.cells)?
            && page.bound.is_none()
            && of_other.is_empty(),
    )
}

/// The cells of a table page by page, of at least so many keys each.
pub(crate) fn by_pages<C: Cells>(
    alloc: Global,
    cells: &mut C,
    table: &str,
    limit: usize,
) -> Result<Vec<Stamped>, Fail>
    requires { 0 < limit }
{
    let mut all = Vec::new(alloc);
    let mut after: Option<Bytes> = None;
    for _ in 0..u8::MAX {
        let page = match &after {
            Some(key) => cells.page(alloc, table, Some(key.as_slice()), limit)?,
            None => cells.page(alloc, table, None, limit)?,
        };
        let mut more = page.cells;
        all.append(&mut more)?;
        match page.bound {
            Some(key) => after = Some(key),
            None => return Ok(all),
        }
    }
    Err(Fail::from("more pages than there are keys"))
}

/// The calls in turn, with their answers, at a store of site A that holds nothing.
pub(crate) fn meets_the_vectors<C: Cells>(
    rt: &impl Abort,
    alloc: Global,
    cells: &mut C,
) -> Result<(), Fail> {
    define(alloc, cells)?;
    assert!(rt; are_defined(alloc, cells, false)?);
    mark(alloc, cells, "t")?;
    assert!(rt; are_defined(alloc, cells, true)?);
    assert!(rt; commit_thrice(alloc, cells)? == (true, false, true));
    assert!(rt; cells.db_version() == 2 && cells.site() == A);
    assert!(rt; cells.seen(alloc, B)? == 4 && cells.seen(alloc, A)? == 0);
    assert!(rt; has_deletion(alloc, cells)?);
    Ok(())
}

#[test]
fn a_plain_store_keeps_what_is_committed(rt: HostRuntime) -> Result<(), Fail> {
    let alloc = rt.alloc();
    meets_the_vectors(&rt, alloc, &mut PlainCells::new(alloc, A))
}
