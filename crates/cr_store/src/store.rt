//! The store.

ghost use Rattle.std.specs.Prelude.{◌≡◌, ◌≢◌, None, ◌+◌, true, false, IfOk, IfErr, MatchResult, Err};
ghost use Rattle.std.specs.List.{AllByRecursion};
ghost use Rattle.sqlite.specs.Held.{state};
ghost use Rattle.sqlite.specs.State.{HasCleanDisk};
ghost use Rattle.cr_rows.specs.Schema.{no_schema};
ghost use Rattle.cr_cells.specs.Calls.{IsRefusal, Defines, is_want, StaysClean};
ghost use Rattle.cr_cells.specs.Holding.{empty_holding, IsSound, since, cells_of, cells_of_table};
ghost use Rattle.cr_cells.specs.Tables.{IsNewTable, has_defaults, with_table, with_replicated, with_added};
ghost use Rattle.cr_store.specs.Making.{has_store, IsRefused};
ghost use Rattle.cr_store.specs.Opening.{IsReadableTable, IsHeldIn, IsHeld, IsOpenError, FailsToOpen};
ghost use Rattle.cr_store.specs.Schema.{schema_of};
ghost use Rattle.cr_store.specs.Words.{is_ours};

use crate::committing::commit;
use crate::definition::definition;
use crate::format::Format;
use crate::known::Known;
use crate::opening::open_known;
use crate::ordinals::next_ordinal;
use crate::pages::page;
use crate::reads::{cells_of, cells_of_table, since};
use crate::records::crr_of;
use crate::rows::refusal;
use crate::shape::format_of;
use crate::tables::{add_table, make, redefine, replicate};
use cr_cells::marks::seen_of;
use cr_cells::page::Page;
use cr_cells::store::{Cells, CellsError, StoreFault};
use cr_cells::tables::{add, copies, table_named, with_added, with_column, with_replicated};
use cr_lattice::change::{Change, Site};
use cr_lattice::stamped::Stamped;
use cr_lattice::table::{ColumnDef, Table, TableDef};
use sqlite::{Alter, Connection, MemStore};
use sqlite_schema::names::same_name;
use sqlite_schema::schema::Schema;
use std::alloc::Global;
use std::marker::Model;

/// A store of cells in five tables of sqlite: `cr_meta`, `cr_schema`, `cr_cell`, which is empty, `cr_peer` and `cr_cell2`.
pub struct Store<S: Alter> {
    conn: Connection<S>,
    known: Known,
}

impl<S: Alter> Model for Store<S> {
    ghost use Rattle.std.specs.Coded.{coded×};
    ghost use Rattle.sqlite.specs.Held.{Held, held_code};
    ghost use Rattle.cr_store.specs.declared.known.Known.{Known};
    ghost use Rattle.cr_store.specs.contracts.known.Known.{the_row};
    ghost use Rattle.cr_store.specs.Kept.{IsKeptIn};

    ghost Value = { Held S × Known };

    ghost coded = { coded× (held_code S.code) the_row.coded };

    ghost view = { λ s. (s.conn, s.known) };

    ghost invariant = { λ s. IsKeptIn S.Store s.conn s.known };
}

// Written out, so that a caller does not prove again how each part is dropped.
impl<S: Alter + Drop> Drop for Store<S> {
    fn drop(self) {
        let Store { conn: _, known: _ } = self;
    }
}

fn is_ours(name: &[u8]) -> bool
    ensures { result ≡ is_ours name.now }
{
    same_name(name, b"cr_meta")
        || same_name(name, b"cr_schema")
        || same_name(name, b"cr_cell")
        || same_name(name, b"cr_peer")
        || same_name(name, b"cr_cell2")
}

fn has_ours(schema: &Schema) -> bool
    ensures { result ≡ has_store schema.now }
{
    schema
        .tables
        .as_slice()
        .iter()
        .any(|table| is_ours(table.name.as_slice()))
}

fn has_nothing(schema: &Schema) -> bool
    ensures nothing { result ≡ true → schema.now ≡ no_schema }
    ensures something { result ≡ false → schema.now ≢ no_schema }
{
    schema.tables.as_slice().is_empty()
        && schema.indexes.as_slice().is_empty()
        && schema.views.as_slice().is_empty()
}

/// Whether the database of a connection has a table of the name of one of a store's: then a store may be there, and none can
/// be made.
pub fn has_tables<S: Alter>(conn: &Connection<S>) -> bool
    ensures { result ≡ has_store (state S.Store conn.now).now.schema }
{
    has_ours(conn.schema())
}

impl<S: Alter> Store<S> {
    ghost use Rattle.cr_store.specs.Kept.{IsClean, holding_of};

    /// A store that holds nothing, in a connection whose database has nothing. A limit of steps is taken off.
    ///
    /// # Errors
    /// With the connection, whose database is as it was: `Store(Refused)` where a transaction is open; else `Store(Taken)`
    /// where the database has a table of a store; else `Store(Refused)` where it has anything else; in these three cases
    /// all of the connection is as it was. Over a database that has nothing, `Store(Refused)` where sqlite refuses the
    /// tables, and `Memory`.
    pub fn create(
        alloc: Global,
        mut conn: Connection<S>,
        site: Site,
    ) -> Result<Store<S>, (CellsError, Connection<S>)>
        ensures made { IfOk result (λ it. IsClean S.Store it.0 → holding_of (state S.Store it.0).now it.1 ≡ empty_holding site) }
        ensures clean { IfOk result (λ it. HasCleanDisk (state S.Store it.0) → IsClean S.Store it.0) }
        ensures limit { IfOk result (λ it. it.0.step_limit ≡ None) }
        ensures busy { (state S.Store conn).in_transaction ≡ true → IsRefused result StoreFault.Refused conn }
        ensures taken { (state S.Store conn).in_transaction ≡ false → has_store (state S.Store conn).now.schema ≡ true → IsRefused result StoreFault.Taken conn }
        ensures foreign { (state S.Store conn).in_transaction ≡ false → has_store (state S.Store conn).now.schema ≡ false → (state S.Store conn).now.schema ≢ no_schema
            → IsRefused result StoreFault.Refused conn }
        ensures why { (state S.Store conn).in_transaction ≡ false → (state S.Store conn).now.schema ≡ no_schema → IfErr result (λ e. IsRefusal e.0) }
        ensures same { IfErr result (λ e. IsClean S.Store e.1 → (state S.Store e.1).now ≡ (state S.Store conn).now) }
        ensures mode { IfErr result (λ e. e.1.in_transaction ≡ conn.in_transaction) }
    {
        if !conn.is_autocommit() {
            return Err((CellsError::Store(StoreFault::Refused), conn));
        }
        let schema = conn.schema();
        if has_ours(schema) {
            return Err((CellsError::Store(StoreFault::Taken), conn));
        }
        if !has_nothing(schema) {
            return Err((CellsError::Store(StoreFault::Refused), conn));
        }
        match make(&mut conn, &site) {
            Ok(()) => {}
            Err(error) => return Err((refusal(error), conn)),
        }
        let known = Known {
            site,
            version: 0,
            tables: Vec::new(alloc),
            marks: Vec::new(alloc),
        };
        Ok(Store { conn, known })
    }

    /// The store that the database of a connection holds, in format 1 or 2. It is left in format 2, in one transaction where
    /// it was in format 1. A limit of steps is taken off.
    ///
    /// # Errors
    /// With the connection, whose database is as it was: `Store(Refused)` where a transaction is open; else
    /// `Store(Damaged)` where the database has another schema than a store's; in these two cases all of the connection
    /// is as it was. Over a store's schema, `Store(Damaged)` where the rows are those of nothing that a store holds,
    /// `Store(Refused)` where sqlite refuses to read or to write them, as a limit of steps may have it do, and `Memory`.
    pub fn open(
        alloc: Global,
        mut conn: Connection<S>,
    ) -> Result<Store<S>, (CellsError, Connection<S>)>
        ensures held { IfOk result (λ it. IsClean S.Store it.0 → IsHeld (state S.Store conn).now (holding_of (state S.Store it.0).now it.1)) }
        ensures left { IfOk result (λ it. IsClean S.Store it.0 → IsHeldIn Format.Second (state S.Store it.0).now (holding_of (state S.Store it.0).now it.1)) }
        ensures readable { IfOk result (λ it. IsClean S.Store it.0 → AllByRecursion IsReadableTable it.1.tables.items) }
        ensures clean { IfOk result (λ it. HasCleanDisk (state S.Store it.0) → IsClean S.Store it.0) }
        ensures limit { IfOk result (λ it. it.0.step_limit ≡ None) }
        ensures busy { (state S.Store conn).in_transaction ≡ true → IsRefused result StoreFault.Refused conn }
        ensures foreign { (state S.Store conn).in_transaction ≡ false → ((format : Format) → (state S.Store conn).now.schema ≢ schema_of format)
            → IsRefused result StoreFault.Damaged conn }
        ensures damaged { IfErr result (λ e. IsClean S.Store e.1 → FailsToOpen (state S.Store conn).now e.0) }
        ensures why { IfErr result (λ e. IsOpenError e.0) }
        ensures same { MatchResult result (λ it. IsClean S.Store it.0 → (state S.Store conn).now.schema ≡ schema_of Format.Second → (state S.Store it.0).now ≡ (state S.Store conn).now)
            (λ e. IsClean S.Store e.1 → (state S.Store e.1).now ≡ (state S.Store conn).now) }
        ensures was_clean { MatchResult result (λ it. IsClean S.Store it.0 → IsClean S.Store conn)
            (λ e. IsClean S.Store e.1 → IsClean S.Store conn) }
        ensures mode { IfErr result (λ e. e.1.in_transaction ≡ conn.in_transaction) }
    {
        let is_busy = !conn.is_autocommit();
        if is_busy {
            return Err((CellsError::Store(StoreFault::Refused), conn));
        }
        let format = match format_of(conn.schema()) {
            Some(format) => format,
            None => return Err((CellsError::Store(StoreFault::Damaged), conn)),
        };
        match open_known(&mut conn, format, alloc) {
            Ok(known) => {
                conn.set_step_limit(None);
                Ok(Store { conn, known })
            }
            Err(error) => Err((error, conn)),
        }
    }

    /// The connection of a store, which goes on as it stands.
    pub fn into_connection(self) -> Connection<S>
        ensures same { result ≡ self.0 }
        ensures held { IsClean S.Store self.0 → IsHeldIn Format.Second (state S.Store self.0).now (holding_of (state S.Store self.0).now self.1) }
        ensures auto { self.0.in_transaction ≡ false }
    {
        let Store { conn, known: _ } = self;
        conn
    }

    fn add(&mut self, alloc: Global, def: &TableDef, is_replicated: bool) -> Result<(), CellsError>
        requires is_new { IsClean S.Store self.old.0 → IsNewTable (holding_of (state S.Store self.old.0).now self.old.1).tables def.now }
        requires defaults { is_replicated ≡ true → has_defaults def.now ≡ true }
        ensures device { StaysClean (λ conn. HasCleanDisk (state S.Store conn)) (IsClean S.Store) is_want self.old.0 self.new.0 result }
        ensures sound { IsClean S.Store self.new.0 → IsSound (holding_of (state S.Store self.new.0).now self.new.1) }
        ensures defines { IsClean S.Store self.new.0 → Defines (holding_of (state S.Store self.old.0).now self.old.1) (holding_of (state S.Store self.new.0).now self.new.1) result
            (record (holding_of (state S.Store self.old.0).now self.old.1) { tables = with_table (holding_of (state S.Store self.old.0).now self.old.1).tables def.now is_replicated }) }
    {
        let _ = self.conn.is_autocommit();
        let bytes = definition(alloc, def)?;
        let mut tables = copies(alloc, &self.known.tables)?;
        let ordinal = next_ordinal(&tables);
        add(alloc, &mut tables, def, is_replicated)?;
        match add_table(
            &mut self.conn,
            def.name.as_str(),
            ordinal,
            crr_of(is_replicated),
            &bytes,
        ) {
            Ok(()) => {
                self.known.tables = tables;
                Ok(())
            }
            Err(error) => Err(refusal(error)),
        }
    }
}

impl<S: Alter + Drop> Cells for Store<S> {
    ghost use Rattle.cr_store.specs.Kept.{IsClean, holding_of};

    ghost holding = { λ v. holding_of (state S.Store v.0).now v.1 };

    ghost is_honest = { λ v. HasCleanDisk (state S.Store v.0) };

    ghost is_clean = { λ v. IsClean S.Store v.0 };

    fn tables(&mut self, alloc: Global) -> Result<Vec<Table>, CellsError> {
        Ok(copies(alloc, &self.known.tables)?)
    }

    fn add_table(&mut self, alloc: Global, def: &TableDef) -> Result<(), CellsError> {
        self.add(alloc, def, false)
    }

    fn mark_crr(&mut self, alloc: Global, name: &str) -> Result<(), CellsError> {
        let _ = self.conn.is_autocommit();
        let tables = with_replicated(alloc, &self.known.tables, name)?;
        match replicate(&mut self.conn, name) {
            Ok(()) => {
                self.known.tables = tables;
                Ok(())
            }
            Err(error) => Err(refusal(error)),
        }
    }

    fn add_replicated(&mut self, alloc: Global, def: &TableDef) -> Result<(), CellsError> {
        self.add(alloc, def, true)
    }

    fn add_column(
        &mut self,
        alloc: Global,
        table: &str,
        column: &ColumnDef,
    ) -> Result<(), CellsError> {
        let _ = self.conn.is_autocommit();
        let old = match table_named(&self.known.tables, table) {
            Some(old) => old,
            None => return Ok(()),
        };
        let wider = with_column(alloc, &old.definition, column)?;
        let bytes = definition(alloc, &wider)?;
        let tables = with_added(alloc, &self.known.tables, table, column)?;
        match redefine(&mut self.conn, table, &bytes) {
            Ok(()) => {
                self.known.tables = tables;
                Ok(())
            }
            Err(error) => Err(refusal(error)),
        }
    }

    fn since(&mut self, alloc: Global, version: i64) -> Result<Vec<Stamped>, CellsError> {
        let _ = self.conn.is_autocommit();
        since(&mut self.conn, &self.known.tables, version, alloc)
    }

    fn cells_of(
        &mut self,
        alloc: Global,
        table: &str,
        pk: &[u8],
    ) -> Result<Vec<Stamped>, CellsError> {
        let _ = self.conn.is_autocommit();
        cells_of(&mut self.conn, &self.known.tables, table, pk, alloc)
    }

    fn cells_of_table(&mut self, alloc: Global, table: &str) -> Result<Vec<Stamped>, CellsError> {
        let _ = self.conn.is_autocommit();
        cells_of_table(&mut self.conn, &self.known.tables, table, alloc)
    }

    fn page(
        &mut self,
        alloc: Global,
        table: &str,
        after: Option<&[u8]>,
        limit: usize,
    ) -> Result<Page, CellsError> {
        let _ = self.conn.is_autocommit();
        page(
            &mut self.conn,
            &self.known.tables,
            table,
            after,
            limit,
            alloc,
        )
    }

    fn commit(
        &mut self,
        alloc: Global,
        changes: &[Change],
        peer: Option<(Site, i64)>,
    ) -> Result<bool, CellsError> {
        match commit(alloc, &mut self.conn, &self.known, changes, peer) {
            Ok(outcome) => {
                self.known.version = outcome.version;
                self.known.marks = outcome.marks;
                Ok(outcome.is_changed)
            }
            Err(error) => Err(error),
        }
    }

    fn seen(&mut self, _alloc: Global, site: Site) -> Result<i64, CellsError> {
        Ok(seen_of(&self.known.marks, &site))
    }

    fn db_version(&self) -> i64 {
        self.known.version
    }

    fn site(&self) -> Site {
        self.known.site
    }
}

impl Store<MemStore> {
    ghost use Rattle.cr_store.specs.Kept.{IsClean, holding_of};
    ghost use Rattle.sqlite.specs.Steps.{over_memory};

    /// A store of a site in memory, which holds nothing.
    ///
    /// # Errors
    /// `Memory`, or `Store(Refused)`.
    #[tactic(auto, unfolding(sqlite_trees::specs::View::doubt))]
    pub fn in_memory(alloc: Global, site: Site) -> Result<Store<MemStore>, CellsError>
        ensures made { IfOk result (λ it. IsClean over_memory it.0 → holding_of (state over_memory it.0).now it.1 ≡ empty_holding site) }
        ensures clean { IfOk result (λ it. IsClean over_memory it.0) }
        ensures limit { IfOk result (λ it. it.0.step_limit ≡ None) }
        ensures why { IfErr result IsRefusal }
    {
        let conn = Connection::open_in_memory(alloc)?;
        match Store::create(alloc, conn, site) {
            Ok(store) => Ok(store),
            Err(refused) => Err(refused.0),
        }
    }
}
