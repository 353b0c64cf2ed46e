//! What statements ask of their store: a store that counts its calls.

use crate::printing::print_reply;
use cr_cells::page::Page;
use cr_cells::plain::PlainCells;
use cr_cells::store::{Cells, CellsError};
use cr_guard::policy::Policy;
use cr_host::functions::BuiltIns;
use cr_lattice::change::{Change, Site};
use cr_lattice::stamped::Stamped;
use cr_lattice::table::{ColumnDef, Table, TableDef};
use cr_session::session::Session;
use std::alloc::{AllocError, Global};
use std::cell::Cell;
use std::io::{self, Write};
use std::rc::Rc;

const SITE: Site = [0x0e; 16];

/// `t` has three rows, `u` has two that name some of these.
const TABLES: [&str; 6] = [
    "CREATE TABLE t(id INTEGER PRIMARY KEY, name TEXT)",
    "SELECT crsql_as_crr('t')",
    "CREATE TABLE u(id INTEGER PRIMARY KEY, t INT)",
    "SELECT crsql_as_crr('u')",
    "INSERT INTO t VALUES(1, 'a'), (2, 'b'), (3, 'c')",
    "INSERT INTO u VALUES(1, 2), (2, 3)",
];

const STATEMENTS: [&str; 27] = [
    "SELECT name FROM t WHERE id = 2",
    "SELECT name FROM t WHERE 2 = id AND name = 'x'",
    "SELECT name FROM t WHERE id > 2",
    "SELECT name FROM t WHERE id = NULL",
    "SELECT name FROM t WHERE id IN (3, 1, 9)",
    "SELECT name FROM t WHERE id IN (2, NULL) AND length(name) = 1",
    "SELECT name FROM t WHERE length(name) = 1 AND id IN (2, NULL)",
    "SELECT name FROM t WHERE id NOT IN (1, 2)",
    "SELECT count(*), max(id), sum(id) FROM t",
    "SELECT sum(name) FROM t",
    "SELECT t.name FROM u JOIN t ON t.id = u.t WHERE u.id = 1",
    "SELECT t.name FROM u JOIN t ON t.id = u.t WHERE u.id IN (1, 7)",
    "SELECT t.name FROM u JOIN t ON t.id = u.t",
    "SELECT count(*) FROM crsql_changes WHERE db_version > 1",
    "UPDATE t SET name = 'd' WHERE id = 3",
    "UPDATE t SET name = 'd' WHERE id = 3",
    "UPDATE t SET name = 'e' WHERE id IN (1, 2, 9)",
    "DELETE FROM t WHERE id = 9",
    "DELETE FROM t WHERE id IN (8, 9)",
    "DELETE FROM t WHERE name = 'z'",
    "BEGIN",
    "INSERT INTO t VALUES(4, 'e')",
    "SELECT name FROM t WHERE id = 4",
    "SELECT name FROM t WHERE id IN (3, 4)",
    "SELECT name FROM t WHERE name > 'd'",
    "DELETE FROM t WHERE id = 4",
    "ROLLBACK",
];

/// How often a store was asked: for the cells of a row, for those of a whole table, for a page of a table, for those of some version on, and to commit.
#[derive(Clone, Copy)]
pub struct Asked {
    rows: u64,
    tables: u64,
    pages: u64,
    newest: u64,
    commits: u64,
}

const NOTHING: Asked = Asked {
    rows: 0,
    tables: 0,
    pages: 0,
    newest: 0,
    commits: 0,
};

/// A store that counts what it is asked. Of more than 2^64 - 1 times it tells this number.
#[derive(Drop)]
pub struct CountingCells {
    cells: PlainCells,
    asked: Rc<Cell<Asked>>,
}

impl CountingCells {
    fn count(&self, more: Asked) {
        let asked = self.asked.get();
        self.asked.set(Asked {
            rows: asked.rows.saturating_add(more.rows),
            tables: asked.tables.saturating_add(more.tables),
            pages: asked.pages.saturating_add(more.pages),
            newest: asked.newest.saturating_add(more.newest),
            commits: asked.commits.saturating_add(more.commits),
        });
    }
}

impl Cells for CountingCells {
    ghost holding = { λ c. ⟦<PlainCells as Cells>⟧.holding c.cells };

    ghost is_honest = { λ c. ⟦<PlainCells as Cells>⟧.is_honest c.cells };

    ghost is_clean = { λ c. ⟦<PlainCells as Cells>⟧.is_clean c.cells };

    fn tables(&mut self, alloc: Global) -> Result<Vec<Table>, CellsError> {
        self.cells.tables(alloc)
    }

    fn add_table(&mut self, alloc: Global, def: &TableDef) -> Result<(), CellsError> {
        self.cells.add_table(alloc, def)
    }

    fn mark_crr(&mut self, alloc: Global, name: &str) -> Result<(), CellsError> {
        self.cells.mark_crr(alloc, name)
    }

    fn add_replicated(&mut self, alloc: Global, def: &TableDef) -> Result<(), CellsError> {
        self.cells.add_replicated(alloc, def)
    }

    fn add_column(
        &mut self,
        alloc: Global,
        table: &str,
        column: &ColumnDef,
    ) -> Result<(), CellsError> {
        self.cells.add_column(alloc, table, column)
    }

    fn since(&mut self, alloc: Global, version: i64) -> Result<Vec<Stamped>, CellsError> {
        self.count(Asked {
            newest: 1,
            ..NOTHING
        });
        self.cells.since(alloc, version)
    }

    fn cells_of(
        &mut self,
        alloc: Global,
        table: &str,
        pk: &[u8],
    ) -> Result<Vec<Stamped>, CellsError> {
        self.count(Asked { rows: 1, ..NOTHING });
        self.cells.cells_of(alloc, table, pk)
    }

    fn cells_of_table(&mut self, alloc: Global, table: &str) -> Result<Vec<Stamped>, CellsError> {
        self.count(Asked {
            tables: 1,
            ..NOTHING
        });
        self.cells.cells_of_table(alloc, table)
    }

    fn page(
        &mut self,
        alloc: Global,
        table: &str,
        after: Option<&[u8]>,
        limit: usize,
    ) -> Result<Page, CellsError> {
        self.count(Asked {
            pages: 1,
            ..NOTHING
        });
        self.cells.page(alloc, table, after, limit)
    }

    fn commit(
        &mut self,
        alloc: Global,
        changes: &[Change],
        peer: Option<(Site, i64)>,
    ) -> Result<bool, CellsError> {
        self.count(Asked {
            commits: 1,
            ..NOTHING
        });
        self.cells.commit(alloc, changes, peer)
    }

    fn seen(&mut self, alloc: Global, site: Site) -> Result<i64, CellsError> {
        self.cells.seen(alloc, site)
    }

    fn db_version(&self) -> i64 {
        self.cells.db_version()
    }

    fn site(&self) -> Site {
        self.cells.site()
    }
}

// Has a statement carried out, and prints it with what the store was asked for it, and its answer.
fn ask<W: Write>(
    alloc: Global,
    session: &mut Session<CountingCells>,
    asked: &Cell<Asked>,
    text: &str,
    out: &mut W,
) -> io::Result<()> {
    asked.set(NOTHING);
    let mut policy = Policy::new(alloc);
    let outcome = session.execute(alloc, &BuiltIns, &mut policy, text, &[]);
    let counts = asked.get();
    writeln!(out, "{text}")?;
    writeln!(
        out,
        "rows {}, tables {}, pages {}, newest {}, commits {}",
        counts.rows, counts.tables, counts.pages, counts.newest, counts.commits
    )?;
    print_reply(alloc, &outcome, out)
}

// A session over a store that counts.
fn counting(alloc: Global, asked: &Rc<Cell<Asked>>) -> Result<Session<CountingCells>, AllocError> {
    Ok(Session::new(CountingCells {
        cells: PlainCells::new(alloc, SITE),
        asked: asked.clone()?,
    }))
}

/// A replica whose store counts what it is asked for each statement.
pub fn run_counting<W: Write>(alloc: Global, out: &mut W) -> io::Result<()> {
    let asked = Rc::new(alloc, Cell::new(NOTHING))?;
    let mut session = counting(alloc, &asked)?;
    for text in TABLES.iter().chain(STATEMENTS.iter()) {
        ask(alloc, &mut session, &asked, text, out)?;
    }
    Ok(())
}
