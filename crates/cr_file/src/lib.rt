//! A store of cells in a file.
#![tactic(auto)]

ghost use Rattle.std.specs.Prelude.{◌≡◌, ◌≢◌, true, false, None, Err, IfOk, IfErr, MatchResult};
ghost use Rattle.sqlite.specs.Held.{state};
ghost use Rattle.sqlite.specs.Files.{over_files};
ghost use Rattle.cr_rows.specs.Schema.{no_schema};
ghost use Rattle.cr_cells.specs.declared.store.StoreFault.TheVariants.{Taken, Damaged, Refused};
ghost use Rattle.cr_cells.specs.Calls.{IsRefusal};
ghost use Rattle.cr_cells.specs.Holding.{empty_holding};
ghost use Rattle.cr_store.specs.Kept.{IsClean};
ghost use Rattle.cr_store.specs.Making.{has_store, IsRefused};
ghost use Rattle.cr_store.specs.Opening.{IsHeld, IsOpenError};
ghost use Rattle.cr_store.specs.Opening as opening;
ghost use Rattle.cr_store.specs.Schema.{schema_of};
ghost use Rattle.cr_file.specs.declared.FileFault.TheVariants.{NoSite};
ghost use Rattle.cr_file.specs.Opening.{FailsInFile, FailsToMake, FailsToOpen, IsStoreOf};

use cr_cells::page::Page;
use cr_cells::store::{Cells, CellsError};
use cr_lattice::change::{Change, Site};
use cr_lattice::stamped::Stamped;
use cr_lattice::table::{ColumnDef, Table, TableDef};
use cr_store::store::{Store, has_tables};
use sqlite::{Connection, File, FileStore};
use std::alloc::Global;
use std::fs;
use std::io::ErrorKind;
use thiserror::Error;

/// A store over a database in a file.
#[derive(Drop)]
pub struct FileCells {
    store: Store<FileStore<File>>,
}

/// Why a file gives no store.
#[derive(Clone, Copy, Debug, PartialEq, Eq, Drop, Error)]
pub enum FileFault {
    /// There is no store, and no site to make one with.
    #[error("the file holds no store, and no site was given to make one with")]
    NoSite,
    /// The file can't be opened as a database: it is none, it is in use, or memory ran out.
    #[error("the file can not be opened as a database")]
    Unopened,
    /// The store refuses, or memory ran out over its database.
    #[error(transparent)]
    Cells(CellsError),
}

impl Cells for FileCells {
    ghost use Rattle.sqlite.specs.Held.{state};
    ghost use Rattle.sqlite.specs.State.{HasCleanDisk};
    ghost use Rattle.sqlite.specs.Files.{over_files};
    ghost use Rattle.cr_store.specs.Kept.{IsClean, holding_of};

    ghost holding = { λ m. holding_of (state over_files m.store.0).now m.store.1 };

    ghost is_honest = { λ m. HasCleanDisk (state over_files m.store.0) };

    ghost is_clean = { λ m. IsClean over_files m.store.0 };

    fn tables(&mut self, alloc: Global) -> Result<Vec<Table>, CellsError> {
        self.store.tables(alloc)
    }

    fn add_table(&mut self, alloc: Global, def: &TableDef) -> Result<(), CellsError> {
        self.store.add_table(alloc, def)
    }

    fn mark_crr(&mut self, alloc: Global, name: &str) -> Result<(), CellsError> {
        self.store.mark_crr(alloc, name)
    }

    fn add_replicated(&mut self, alloc: Global, def: &TableDef) -> Result<(), CellsError> {
        self.store.add_replicated(alloc, def)
    }

    fn add_column(
        &mut self,
        alloc: Global,
        table: &str,
        column: &ColumnDef,
    ) -> Result<(), CellsError> {
        self.store.add_column(alloc, table, column)
    }

    fn since(&mut self, alloc: Global, version: i64) -> Result<Vec<Stamped>, CellsError> {
        self.store.since(alloc, version)
    }

    fn cells_of(
        &mut self,
        alloc: Global,
        table: &str,
        pk: &[u8],
    ) -> Result<Vec<Stamped>, CellsError> {
        self.store.cells_of(alloc, table, pk)
    }

    fn cells_of_table(&mut self, alloc: Global, table: &str) -> Result<Vec<Stamped>, CellsError> {
        self.store.cells_of_table(alloc, table)
    }

    fn page(
        &mut self,
        alloc: Global,
        table: &str,
        after: Option<&[u8]>,
        limit: usize,
    ) -> Result<Page, CellsError> {
        self.store.page(alloc, table, after, limit)
    }

    fn commit(
        &mut self,
        alloc: Global,
        changes: &[Change],
        peer: Option<(Site, i64)>,
    ) -> Result<bool, CellsError> {
        self.store.commit(alloc, changes, peer)
    }

    fn seen(&mut self, alloc: Global, site: Site) -> Result<i64, CellsError> {
        self.store.seen(alloc, site)
    }

    fn db_version(&self) -> i64 {
        self.store.db_version()
    }

    fn site(&self) -> Site {
        self.store.site()
    }
}

// Whether a path leads to no file, or to one without a byte. Of what can't be looked at that isn't known: to open it tells why.
fn is_blank(rt: &HostRuntime, path: &str) -> bool {
    match fs::metadata(rt, path) {
        Ok(found) => found.len() == 0,
        Err(error) => error.kind() == ErrorKind::NotFound,
    }
}

impl FileCells {
    /// A store of a site that holds nothing, in a database that has nothing.
    ///
    /// # Errors
    /// With the connection, whose database is as it was: `Store(Refused)` where a transaction is open; else `Store(Taken)` where the
    /// database has a table of a store; else `Store(Refused)` where it has anything else; in these cases all of the connection is as it
    /// was. `Store(Refused)` where sqlite refuses the tables, and `Memory`.
    pub fn create(
        alloc: Global,
        conn: Connection<FileStore<File>>,
        site: Site,
    ) -> Result<FileCells, (CellsError, Connection<FileStore<File>>)>
        ensures made { IfOk result (λ m. ⟦<FileCells as Cells>⟧.is_clean m → ⟦<FileCells as Cells>⟧.holding m ≡ empty_holding site) }
        ensures clean { IfOk result (λ m. ⟦<FileCells as Cells>⟧.is_honest m → ⟦<FileCells as Cells>⟧.is_clean m) }
        ensures busy { (state over_files conn).in_transaction ≡ true → IsRefused result Refused conn }
        ensures taken { (state over_files conn).in_transaction ≡ false → has_store (state over_files conn).now.schema ≡ true → IsRefused result Taken conn }
        ensures foreign { (state over_files conn).in_transaction ≡ false → has_store (state over_files conn).now.schema ≡ false → (state over_files conn).now.schema ≢ no_schema → IsRefused result Refused conn }
        ensures why { has_store (state over_files conn).now.schema ≡ false → IfErr result (λ e. IsRefusal e.0) }
        ensures same { IfErr result (λ e. IsClean over_files e.1 → (state over_files e.1).now ≡ (state over_files conn).now) }
        ensures mode { IfErr result (λ e. e.1.in_transaction ≡ conn.in_transaction) }
    {
        match Store::create(alloc, conn, site) {
            Ok(store) => Ok(FileCells { store }),
            Err(refused) => Err(refused),
        }
    }

    /// The store that a database holds.
    ///
    /// # Errors
    /// With the connection, whose database is as it was: `Store(Refused)` where a transaction is open; else `Store(Damaged)` where the
    /// database has another schema than a store's; in these cases all of the connection is as it was. Over a store's schema,
    /// `Store(Damaged)` where the rows are those of nothing that a store holds, `Store(Refused)` where sqlite refuses to read or to
    /// write them, and `Memory`.
    pub fn open(
        alloc: Global,
        conn: Connection<FileStore<File>>,
    ) -> Result<FileCells, (CellsError, Connection<FileStore<File>>)>
        ensures held { IfOk result (λ m. ⟦<FileCells as Cells>⟧.is_clean m → IsHeld (state over_files conn).now (⟦<FileCells as Cells>⟧.holding m)) }
        ensures clean { IfOk result (λ m. ⟦<FileCells as Cells>⟧.is_honest m → ⟦<FileCells as Cells>⟧.is_clean m) }
        ensures busy { (state over_files conn).in_transaction ≡ true → IsRefused result Refused conn }
        ensures foreign { (state over_files conn).in_transaction ≡ false → ((format : _) → (state over_files conn).now.schema ≢ schema_of format)
            → IsRefused result Damaged conn }
        ensures damaged { IfErr result (λ e. IsClean over_files e.1 → opening.FailsToOpen (state over_files conn).now e.0) }
        ensures why { IfErr result (λ e. IsOpenError e.0) }
        ensures same { IfErr result (λ e. IsClean over_files e.1 → (state over_files e.1).now ≡ (state over_files conn).now) }
        ensures mode { IfErr result (λ e. e.1.in_transaction ≡ conn.in_transaction) }
    {
        match Store::open(alloc, conn) {
            Ok(store) => Ok(FileCells { store }),
            Err(refused) => Err(refused),
        }
    }

    /// The store that a database holds, whatever site is given, or, where it has none of a store's tables, a new one of the site.
    ///
    /// # Errors
    /// `NoSite` where a store is to be made and there is no site; else `Cells` with what `open` or `create` tells.
    pub fn open_or_create(
        alloc: Global,
        conn: Connection<FileStore<File>>,
        site: Option<Site>,
    ) -> Result<FileCells, FileFault>
        ensures opens { has_store (state over_files conn).now.schema ≡ true
            → MatchResult result (λ m. ⟦<FileCells as Cells>⟧.is_clean m → IsHeld (state over_files conn).now (⟦<FileCells as Cells>⟧.holding m)) FailsToOpen }
        ensures makes { has_store (state over_files conn).now.schema ≡ false
            → MatchResult result (λ m. ⟦<FileCells as Cells>⟧.is_clean m → IsStoreOf site (⟦<FileCells as Cells>⟧.holding m)) (FailsToMake site) }
        ensures no_site { has_store (state over_files conn).now.schema ≡ false → site ≡ None → result ≡ Err NoSite }
        ensures clean { IfOk result (λ m. ⟦<FileCells as Cells>⟧.is_honest m → ⟦<FileCells as Cells>⟧.is_clean m) }
    {
        if has_tables(&conn) {
            return match FileCells::open(alloc, conn) {
                Ok(cells) => Ok(cells),
                Err((error, _conn)) => Err(FileFault::Cells(error)),
            };
        }
        let Some(site) = site else {
            return Err(FileFault::NoSite);
        };
        match FileCells::create(alloc, conn, site) {
            Ok(cells) => Ok(cells),
            Err((error, _conn)) => Err(FileFault::Cells(error)),
        }
    }

    /// The store that a file holds, as `open_or_create` gives it of the file's database. Where it holds none of a store's tables, one
    /// of the site is made there; a file that isn't there becomes a new database.
    ///
    /// # Errors
    /// `NoSite` where a store is to be made and there is no site; then no file is made, and one without a byte stays so.
    /// `Unopened` where the file can't be opened as a database, for want of memory, too. `Cells` with what `open` and `create` tell,
    /// as where its store is damaged or it holds something else. To be opened, a database is left in WAL mode.
    pub fn in_file(rt: &HostRuntime, path: &str, site: Option<Site>) -> Result<FileCells, FileFault>
        ensures why { IfErr result (FailsInFile site) }
        ensures clean { IfOk result (λ m. ⟦<FileCells as Cells>⟧.is_honest m → ⟦<FileCells as Cells>⟧.is_clean m) }
    {
        if site.is_none() && is_blank(rt, path) {
            return Err(FileFault::NoSite);
        }
        match Connection::open(rt, path) {
            Ok(conn) => FileCells::open_or_create(rt.alloc(), conn, site),
            Err(_) => Err(FileFault::Unopened),
        }
    }
}
