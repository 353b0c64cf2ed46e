//! A store of cells in memory.
#![tactic(auto)]

ghost use Rattle.std.specs.Prelude.{◌≡◌, IfErr};
ghost use Rattle.cr_memory.specs.Open.{IsOpen, always_honest};
ghost use Rattle.cr_memory.specs.Wants.{as_want};
ghost use Rattle.cr_cells.specs.declared.store.CellsError.TheVariants.{Memory};

use cr_cells::page::Page;
use cr_cells::store::{Cells, CellsError, NewCells};
use cr_disk::MemoryFile;
use cr_lattice::change::{Change, Site};
use cr_lattice::stamped::Stamped;
use cr_lattice::table::{ColumnDef, Table, TableDef};
use cr_store::store::Store;
use sqlite::{Connection, FileStore, Files, Options};
use std::alloc::Global;

/// A store over a database in memory, which can be made new.
#[derive(Drop)]
pub struct MemoryCells {
    store: Store<FileStore<MemoryFile>>,
}

// What a call of a store over files in memory answers: such a file fails for want of memory alone, and so does the store.
fn as_want<T>(answer: Result<T, CellsError>) -> Result<T, CellsError>
    ensures { result ≡ as_want answer }
{
    match answer {
        Err(CellsError::Store(_)) => Err(CellsError::Memory),
        answer => answer,
    }
}

impl Cells for MemoryCells {
    ghost use Rattle.sqlite.specs.Held.{state};
    ghost use Rattle.sqlite.specs.Files.{over_files};
    ghost use Rattle.cr_store.specs.Kept.{IsClean, holding_of};
    ghost use Rattle.cr_memory.specs.Open.{IsHonest};

    ghost holding = { λ m. holding_of (state over_files m.store.0).now m.store.1 };

    ghost is_honest = { λ m. IsHonest m };

    ghost is_clean = { λ m. IsClean over_files m.store.0 };

    fn tables(&mut self, alloc: Global) -> Result<Vec<Table>, CellsError> {
        as_want(self.store.tables(alloc))
    }

    fn add_table(&mut self, alloc: Global, def: &TableDef) -> Result<(), CellsError> {
        as_want(self.store.add_table(alloc, def))
    }

    fn mark_crr(&mut self, alloc: Global, name: &str) -> Result<(), CellsError> {
        as_want(self.store.mark_crr(alloc, name))
    }

    fn add_replicated(&mut self, alloc: Global, def: &TableDef) -> Result<(), CellsError> {
        as_want(self.store.add_replicated(alloc, def))
    }

    fn add_column(
        &mut self,
        alloc: Global,
        table: &str,
        column: &ColumnDef,
    ) -> Result<(), CellsError> {
        as_want(self.store.add_column(alloc, table, column))
    }

    fn since(&mut self, alloc: Global, version: i64) -> Result<Vec<Stamped>, CellsError> {
        as_want(self.store.since(alloc, version))
    }

    fn cells_of(
        &mut self,
        alloc: Global,
        table: &str,
        pk: &[u8],
    ) -> Result<Vec<Stamped>, CellsError> {
        as_want(self.store.cells_of(alloc, table, pk))
    }

    fn cells_of_table(&mut self, alloc: Global, table: &str) -> Result<Vec<Stamped>, CellsError> {
        as_want(self.store.cells_of_table(alloc, table))
    }

    fn page(
        &mut self,
        alloc: Global,
        table: &str,
        after: Option<&[u8]>,
        limit: usize,
    ) -> Result<Page, CellsError> {
        as_want(self.store.page(alloc, table, after, limit))
    }

    fn commit(
        &mut self,
        alloc: Global,
        changes: &[Change],
        peer: Option<(Site, i64)>,
    ) -> Result<bool, CellsError> {
        as_want(self.store.commit(alloc, changes, peer))
    }

    fn seen(&mut self, alloc: Global, site: Site) -> Result<i64, CellsError> {
        as_want(self.store.seen(alloc, site))
    }

    fn db_version(&self) -> i64 {
        self.store.db_version()
    }

    fn site(&self) -> Site {
        self.store.site()
    }
}

// An empty database in two files in memory. What tells one run from another on a disk, the seed, tells nothing here.
fn connection(alloc: Global) -> Result<Connection<FileStore<MemoryFile>>, CellsError>
    ensures { IfErr result (λ e. e ≡ Memory) }
{
    let files = Files {
        log: MemoryFile::new(alloc),
        db: MemoryFile::new(alloc),
    };
    match Connection::open_files(alloc, files, Options::new(0)) {
        Ok(conn) => Ok(conn),
        // which a file in memory refuses for want of memory alone
        Err(_) => Err(CellsError::Memory),
    }
}

impl NewCells for MemoryCells {
    ghost always_honest = { λ m. always_honest m };

    // What is read of a file in memory is never in doubt.
    #[tactic(auto, unfolding(sqlite_trees::specs::View::doubt, sqlite_pool::specs::Pool::state))]
    fn create(alloc: Global, site: Site) -> Result<MemoryCells, CellsError> {
        match Store::create(alloc, connection(alloc)?, site) {
            Ok(store) => Ok(MemoryCells { store }),
            Err(_) => Err(CellsError::Memory),
        }
    }
}

/// A store in memory is clean as long as its database is open: a file in memory gives back what was written.
pub fn open_is_clean(cells: &MemoryCells)
    ensures { IsOpen cells.now → ⟦<MemoryCells as Cells>⟧.is_clean cells.now }
{}
