//! A replica without SQL.

ghost use Rattle.std.specs.Prelude.{◌≡◌, ◌++◌, IfOk, OnOk};
ghost use Rattle.cr_cells.specs.Calls.{Reads, is_want, StaysClean};
ghost use Rattle.cr_cells.specs.Holding.{changes_of};
ghost use Rattle.cr_replica.specs.Snapshots.{changes_of_keys, changes_of_tables};

use crate::definition::{DefineError, accept, settled};
use crate::page::KeptPage;
use crate::snapshot::{Snapshot, are_in_profile, copied_changes};
use crate::sorting::in_order;
use cr_cells::marks::Mark;
use cr_cells::newly::newly_kept;
use cr_cells::store::{Cells, CellsError, StoreFault};
use cr_cells::tables::{check_all, table_named};
use cr_host::functions::Functions;
use cr_lattice::change::{Change, Site};
use cr_lattice::check::{BadChange, CheckError};
use cr_lattice::merge::keep;
use cr_lattice::rows::rows;
use cr_lattice::stamped::Stamped;
use cr_lattice::table::{ColumnDef, Items, Row, TableDef};
use cr_recent::recent::Recent;
use cr_value::text::{Bytes, Text};
use std::alloc::{AllocError, Global};
use std::marker::Model;
use thiserror::Error;

/// Why changes are not taken. Nothing of them is taken then.
#[derive(Clone, Copy, Debug, PartialEq, Eq, Drop, Error)]
pub enum TakeError {
    /// Memory ran out.
    #[error("out of memory")]
    Memory,
    /// A store refused.
    #[error(transparent)]
    Store(StoreFault),
    /// The first change that is not well formed, and why.
    #[error("the change is not well formed: {0}")]
    Bad(BadChange),
    /// A kept change would change at the greatest version.
    #[error("the greatest version is reached")]
    VersionLimit,
}

/// Why rows are not shown.
#[derive(Clone, Copy, Debug, PartialEq, Eq, Drop, Error)]
pub enum RowsError {
    /// Memory ran out.
    #[error("out of memory")]
    Memory,
    /// The store refused.
    #[error(transparent)]
    Store(StoreFault),
    /// No table has the name.
    #[error("no such table")]
    NoSuchTable,
}

impl From<AllocError> for RowsError {
    ghost use Rattle.std.specs.Prelude.{◌≡◌};
    ghost use Rattle.cr_replica.specs.declared.replica.RowsError.TheVariants.{Memory};

    ghost from_gives = { λ _ e. e ≡ Memory };

    fn from(_e: AllocError) -> RowsError {
        RowsError::Memory
    }
}

impl From<CellsError> for RowsError {
    ghost use Rattle.std.specs.Prelude.{◌≡◌};
    ghost use Rattle.cr_replica.specs.Showing.{of_store};

    ghost from_gives = { λ e r. r ≡ of_store e };

    fn from(e: CellsError) -> RowsError {
        match e {
            CellsError::Memory => RowsError::Memory,
            CellsError::Store(fault) => RowsError::Store(fault),
            // A store tells it of commits alone.
            CellsError::VersionLimit => RowsError::Store(StoreFault::Refused),
        }
    }
}

impl From<CellsError> for TakeError {
    ghost use Rattle.std.specs.Prelude.{◌≡◌};
    ghost use Rattle.cr_replica.specs.Taking.{of_store};

    ghost from_gives = { λ e t. t ≡ of_store e };

    fn from(e: CellsError) -> TakeError {
        match e {
            CellsError::Memory => TakeError::Memory,
            CellsError::Store(fault) => TakeError::Store(fault),
            CellsError::VersionLimit => TakeError::VersionLimit,
        }
    }
}

// The changes of the cells.
fn changes_of(alloc: Global, cells: Vec<Stamped>) -> Result<Vec<Change>, AllocError>
    ensures { IfOk result (λ changes. changes.items ≡ changes_of cells.items) }
{
    cells.into_iter().map(|cell| cell.change).collect(alloc)
}

// Adds the changes of cells.
fn push_changes(
    alloc: Global,
    changes: &mut Vec<Change>,
    cells: Vec<Stamped>,
) -> Result<(), AllocError>
    ensures { OnOk result (changes.new.items ≡ changes.old.items ++ changes_of cells.items) }
{
    let mut more = changes_of(alloc, cells)?;
    changes.append(&mut more)?;
    Ok(())
}

// The changes of the cells of each key.
fn changes_of_keys<C: Cells>(
    alloc: Global,
    cells: &mut C,
    table: &str,
    keys: &[Bytes],
) -> Result<Vec<Change>, CellsError>
    ensures device { StaysClean C.is_honest C.is_clean is_want cells.old cells.new result }
    ensures reads { C.is_clean cells.new → Reads (C.holding cells.old) (C.holding cells.new) result
        (λ changes. changes.items ≡ changes_of_keys (C.holding cells.old) table.now keys.now) }
{
    let mut changes = Vec::new(alloc);
    for key in keys {
        let row = cells.cells_of(alloc, table, key.as_slice())?;
        push_changes(alloc, &mut changes, row)?;
    }
    Ok(changes)
}

// The changes of the cells of each table.
fn changes_of_tables<C: Cells>(
    alloc: Global,
    cells: &mut C,
    tables: &[Text],
) -> Result<Vec<Change>, CellsError>
    ensures device { StaysClean C.is_honest C.is_clean is_want cells.old cells.new result }
    ensures reads { C.is_clean cells.new → Reads (C.holding cells.old) (C.holding cells.new) result
        (λ changes. changes.items ≡ changes_of_tables (C.holding cells.old) tables.now) }
{
    let mut changes = Vec::new(alloc);
    for table in tables {
        let found = cells.cells_of_table(alloc, table.as_str())?;
        push_changes(alloc, &mut changes, found)?;
    }
    Ok(changes)
}

/// Changes that may be taken, and what their commit would bring in.
#[derive(Debug, Drop)]
pub struct Taking<'a> {
    /// The changes.
    pub changes: &'a [Change],
    /// Those that would be kept and are not kept yet, in the order of the places that they would get.
    pub newly_kept: Items<Change>,
}

/// A replica over a store of cells.
#[derive(Drop)]
pub struct Replica<C: Cells> {
    cells: Recent<C>,
}

impl<C: Cells> Model for Replica<C> {
    ghost Value = { C };

    ghost view = { λ r. r.cells };
}

impl<C: Cells> Replica<C> {
    ghost use Rattle.std.specs.Prelude.{◌≡◌, ◌≤ℤ◌, ◌++◌, [], pos, List, find, false, true, OnOk, IfOk};
    ghost use Rattle.std.specs.Option.{ForSome, is_some};
    ghost use Rattle.cr_lattice.specs.declared.change.Change.{Change};
    ghost use Rattle.cr_cells.specs.Tables.{IsNewTable, IsNewColumn, has_folded_names, is_markable, is_named, with_replicated, with_table, with_added};
    ghost use Rattle.cr_cells.specs.Holding.{IsSound, since, changes_of};
    ghost use Rattle.cr_cells.specs.Marks.{seen_of};
    ghost use Rattle.cr_cells.specs.Calls.{Defines, Reads, is_want, StaysClean};
    ghost use Rattle.cr_replica.specs.Definition.{DefinesTable};
    ghost use Rattle.cr_replica.specs.Definition as definitions;
    ghost use Rattle.cr_replica.specs.Taking as takings;
    ghost use Rattle.cr_replica.specs.Showing as showings;
    ghost use Rattle.cr_replica.specs.Taking.{Stands, IsReady, Prepares, CommitsAll};
    ghost use Rattle.cr_replica.specs.Showing.{Shows};
    ghost use Rattle.cr_lattice.specs.Keep.{keep};
    ghost use Rattle.std.specs.Option.{option_copied};
    ghost use Rattle.std.specs.Prelude.{◌<◌};
    ghost use Rattle.cr_replica.specs.Snapshots.{HasNamesOf, HasCellsOf, IsKeptPage, IsOfNames, IsWhole, kept_of_keys, kept_of_tables};

    /// A replica over the store, which may hold something already.
    pub fn new(cells: C) -> Replica<C>
        ensures { result ≡ cells }
    {
        Replica {
            cells: Recent::new(cells),
        }
    }

    /// The store as it stands.
    pub fn into_cells(self) -> C
        ensures { result ≡ self }
    {
        self.cells.into_cells()
    }

    /// Defines a replicated table, whose columns' collations are among those that the functions know. Its names are in
    /// ASCII lower case. Each default is kept as its column's affinity wants it.
    ///
    /// # Errors
    /// The first cause in `DefineError`'s order that stands against the definition, or `Memory`, or `Store`; then
    /// nothing is changed.
    pub fn define<F: Functions>(
        &mut self,
        alloc: Global,
        functions: &F,
        def: &TableDef,
    ) -> Result<(), DefineError>
        requires { has_folded_names def.now ≡ true }
        ensures device { StaysClean C.is_honest C.is_clean definitions.is_want self.old self.new result }
        ensures defines { C.is_clean self.new → DefinesTable (λ name. is_some (F.order_of functions.now name)) (C.holding self.old) (C.holding self.new) def.now result }
    {
        let tables = match self.cells.tables(alloc) {
            Ok(tables) => tables,
            Err(error) => return Err(DefineError::from(error)),
        };
        accept(functions, &tables, def)?;
        let Ok(settled) = settled(alloc, def) else {
            return Err(DefineError::Memory);
        };
        match self.cells.add_replicated(alloc, &settled) {
            Ok(()) => Ok(()),
            Err(error) => Err(DefineError::from(error)),
        }
    }

    /// Adds a table that is not replicated. Its names are in ASCII lower case, it fits the profile, and its name is new.
    ///
    /// # Errors
    /// `Memory`, or `Store(Refused)`; then nothing is changed.
    pub fn add_table(&mut self, alloc: Global, def: &TableDef) -> Result<(), CellsError>
        requires { C.is_clean self.old → IsNewTable (C.holding self.old).tables def.now }
        ensures device { StaysClean C.is_honest C.is_clean is_want self.old self.new result }
        ensures defines { C.is_clean self.new → Defines (C.holding self.old) (C.holding self.new) result
            (record (C.holding self.old) { tables = with_table (C.holding self.old).tables def.now false }) }
    {
        self.cells.add_table(alloc, def)
    }

    /// Makes the table of that name replicated. It is there, and each of its columns outside the key that wants a value has a
    /// default. On a replicated table it changes nothing.
    ///
    /// # Errors
    /// `Memory`, or `Store(Refused)`; then nothing is changed.
    pub fn mark_crr(&mut self, alloc: Global, name: &str) -> Result<(), CellsError>
        requires { C.is_clean self.old → is_markable name.now (C.holding self.old).tables ≡ true }
        ensures device { StaysClean C.is_honest C.is_clean is_want self.old self.new result }
        ensures defines { C.is_clean self.new → Defines (C.holding self.old) (C.holding self.new) result
            (record (C.holding self.old) { tables = with_replicated name.now (C.holding self.old).tables }) }
    {
        self.cells.mark_crr(alloc, name)
    }

    /// Adds a column outside the key to the table of that name, behind its others. With it the table is still one that a store
    /// takes. No change that is kept changes: one of a column of that name shows from now on.
    ///
    /// # Errors
    /// `Memory`, or `Store(Refused)`; then nothing is changed.
    pub fn add_column(
        &mut self,
        alloc: Global,
        table: &str,
        column: &ColumnDef,
    ) -> Result<(), CellsError>
        requires { C.is_clean self.old → IsNewColumn (C.holding self.old).tables table.now column.now }
        ensures device { StaysClean C.is_honest C.is_clean is_want self.old self.new result }
        ensures defines { C.is_clean self.new → Defines (C.holding self.old) (C.holding self.new) result
            (record (C.holding self.old) { tables = with_added table.now column.now (C.holding self.old).tables }) }
    {
        self.cells.add_column(alloc, table, column)
    }

    /// The first step of a taking: whether these changes may be taken, and what their commit would bring in. Nothing is
    /// changed; `commit` is the second step.
    ///
    /// # Errors
    /// `Bad` with the reason why the first change that is not well formed is not; `VersionLimit` where a kept change
    /// would change at the greatest version; `Memory`, or `Store`.
    pub fn prepare<'a>(
        &mut self,
        alloc: Global,
        changes: &'a [Change],
    ) -> Result<Taking<'a>, TakeError>
        ensures device { StaysClean C.is_honest C.is_clean takings.is_want self.old self.new result }
        ensures prepares { C.is_clean self.new → Prepares (C.holding self.old) (C.holding self.new) changes.now result }
        ensures changes { IfOk result (λ taking. taking.changes.now ≡ changes.now) }
    {
        let tables = match self.cells.tables(alloc) {
            Ok(tables) => tables,
            Err(error) => return Err(TakeError::from(error)),
        };
        match check_all(alloc, &tables, changes) {
            Ok(()) => {}
            Err(CheckError::Bad(reason)) => return Err(TakeError::Bad(reason)),
            Err(CheckError::Memory) => return Err(TakeError::Memory),
        }
        match newly_kept(alloc, &mut self.cells, changes) {
            Ok(newly_kept) => Ok(Taking {
                changes,
                newly_kept: Items::new(newly_kept),
            }),
            Err(error) => Err(TakeError::from(error)),
        }
    }

    /// The second step of a taking: its changes are committed, all in one commit, and with them the mark of a peer, its
    /// site and its version, at least 0, up to which they were taken. Those that lose change nothing.
    ///
    /// # Errors
    /// `Memory`, or `Store(Refused)`; then nothing is changed, and the mark neither.
    pub fn commit(
        &mut self,
        alloc: Global,
        taking: &Taking<'_>,
        mark: Option<Mark>,
    ) -> Result<(), CellsError>
        requires ready { C.is_clean self.old → IsReady (C.holding self.old) taking.now.changes.now taking.now.newly_kept }
        requires from_0 { ForSome mark (λ m. pos 0 ≤ℤ m.1) }
        ensures device { StaysClean C.is_honest C.is_clean is_want self.old self.new result }
        ensures commits { C.is_clean self.new → CommitsAll (C.holding self.old) (C.holding self.new) taking.now.changes.now mark result }
        ensures joins { C.is_clean self.new → OnOk result ((held : List Change) → Stands held (C.holding self.old)
            → Stands (held ++ taking.now.changes.now) (C.holding self.new)) }
    {
        let _ = self.cells.db_version();
        match self.cells.commit(alloc, taking.changes, mark) {
            Ok(_) => Ok(()),
            Err(error) => Err(error),
        }
    }

    /// The rows of the table of that name, in ascending order: none where it isn't replicated.
    ///
    /// # Errors
    /// `NoSuchTable` where no table has the name; `Memory`, or `Store`.
    pub fn rows_of(&mut self, alloc: Global, name: &str) -> Result<Items<Row>, RowsError>
        ensures device { StaysClean C.is_honest C.is_clean showings.is_want self.old self.new result }
        ensures same { C.is_clean self.new → C.holding self.new ≡ C.holding self.old }
        ensures shows { C.is_clean self.new → Shows (C.holding self.old) (find (is_named name.now) (C.holding self.old).tables) result }
    {
        let tables = match self.cells.tables(alloc) {
            Ok(tables) => tables,
            Err(error) => return Err(RowsError::from(error)),
        };
        let Some(table) = table_named(&tables, name) else {
            return Err(RowsError::NoSuchTable);
        };
        if !table.is_replicated {
            return Ok(Items::new(Vec::new(alloc)));
        }
        let cells = match self.cells.cells_of_table(alloc, name) {
            Ok(cells) => cells,
            Err(error) => return Err(RowsError::from(error)),
        };
        let changes = changes_of(alloc, cells)?;
        let rows = in_order(rows(alloc, &changes, &table.definition)?)?;
        Ok(Items::new(rows))
    }

    /// What the replica holds but for its cells, which a snapshot of names leaves out: enough for a statement that looks at no
    /// row.
    ///
    /// # Errors
    /// `Memory`, or `Store(Refused)`, as where the store gives a table that it would not have taken.
    pub fn names(&mut self, alloc: Global) -> Result<Snapshot, CellsError>
        ensures device { StaysClean C.is_honest C.is_clean is_want self.old self.new result }
        ensures sound { C.is_clean self.new → IsSound (C.holding self.new) }
        ensures reads { C.is_clean self.new → Reads (C.holding self.old) (C.holding self.new) result (HasNamesOf (C.holding self.old)) }
        ensures empty { IfOk result (λ names. (names.cells ≡ []) × (names.kept ≡ [])) }
        ensures whole { IfOk result IsWhole }
    {
        let tables = match self.cells.tables(alloc) {
            Ok(tables) => tables,
            Err(error) => return Err(error),
        };
        if !are_in_profile(&tables) {
            return Err(CellsError::Store(StoreFault::Refused));
        }
        Ok(Snapshot {
            tables: Items::new(tables),
            site: self.cells.site(),
            version: self.cells.db_version(),
            cells: Items::new(Vec::new(alloc)),
            kept: Items::new(Vec::new(alloc)),
            modules: Items::new(Vec::new(alloc)),
        })
    }

    /// A snapshot of names with the cells that the replica holds, for statements that are answered without asking its store
    /// again.
    ///
    /// # Errors
    /// `Memory`, or `Store(Refused)`.
    pub fn complete(&mut self, alloc: Global, names: Snapshot) -> Result<Snapshot, CellsError>
        ensures device { StaysClean C.is_honest C.is_clean is_want self.old self.new result }
        ensures sound { C.is_clean self.new → IsSound (C.holding self.new) }
        ensures reads { C.is_clean self.new → Reads (C.holding self.old) (C.holding self.new) result (HasCellsOf (C.holding self.old)) }
        ensures names { IfOk result (IsOfNames names) }
        ensures kept { IfOk result (λ snapshot. keep snapshot.kept ≡ snapshot.kept) }
    {
        let cells = match self.cells.since(alloc, 0) {
            Ok(cells) => cells,
            Err(error) => return Err(error),
        };
        let changes = copied_changes(alloc, &cells)?;
        let kept = keep(changes)?;
        let site = names.site;
        Ok(Snapshot {
            tables: names.tables,
            site,
            version: names.version,
            cells: Items::new(cells),
            kept: Items::new(kept),
            modules: names.modules,
        })
    }

    /// What is kept of some keys of a table, in the order of changes. Reads the cells of these keys and no others.
    ///
    /// # Errors
    /// `Memory`, or `Store(Refused)`.
    pub fn kept_of_keys(
        &mut self,
        alloc: Global,
        table: &str,
        keys: &[Bytes],
    ) -> Result<Vec<Change>, CellsError>
        ensures device { StaysClean C.is_honest C.is_clean is_want self.old self.new result }
        ensures reads { C.is_clean self.new → Reads (C.holding self.old) (C.holding self.new) result
            (λ kept. kept.items ≡ kept_of_keys (C.holding self.old) table.now keys.now) }
        ensures kept { IfOk result (λ kept. keep kept.items ≡ kept.items) }
    {
        let changes = match changes_of_keys(alloc, &mut self.cells, table, keys) {
            Ok(changes) => changes,
            Err(error) => return Err(error),
        };
        Ok(keep(changes)?)
    }

    /// What is kept of some tables, in the order of changes. Reads the cells of these tables and no others.
    ///
    /// # Errors
    /// `Memory`, or `Store(Refused)`.
    pub fn kept_of_tables(
        &mut self,
        alloc: Global,
        tables: &[Text],
    ) -> Result<Vec<Change>, CellsError>
        ensures device { StaysClean C.is_honest C.is_clean is_want self.old self.new result }
        ensures reads { C.is_clean self.new → Reads (C.holding self.old) (C.holding self.new) result
            (λ kept. kept.items ≡ kept_of_tables (C.holding self.old) tables.now) }
        ensures kept { IfOk result (λ kept. keep kept.items ≡ kept.items) }
    {
        let changes = match changes_of_tables(alloc, &mut self.cells, tables) {
            Ok(changes) => changes,
            Err(error) => return Err(error),
        };
        Ok(keep(changes)?)
    }

    /// What is kept of the first keys of a table above a key, or of its first ones of all, at least as many keys as are asked for,
    /// which is one at least, or of all keys that are left.
    ///
    /// # Errors
    /// `Memory`, or `Store(Refused)`.
    pub fn kept_page(
        &mut self,
        alloc: Global,
        table: &str,
        after: Option<&[u8]>,
        limit: usize,
    ) -> Result<KeptPage, CellsError>
        requires { 0 < limit }
        ensures device { StaysClean C.is_honest C.is_clean is_want self.old self.new result }
        ensures sound { C.is_clean self.new → IsSound (C.holding self.new) }
        ensures reads { C.is_clean self.new → Reads (C.holding self.old) (C.holding self.new) result
            (IsKeptPage (C.holding self.old) table.now (option_copied after.entry) limit) }
    {
        let page = match self.cells.page(alloc, table, after, limit) {
            Ok(page) => page,
            Err(error) => return Err(error),
        };
        let kept = changes_of(alloc, page.cells)?;
        Ok(KeptPage {
            kept,
            bound: page.bound,
        })
    }

    /// The kept changes that are stamped above a version, by version, then by place.
    ///
    /// # Errors
    /// `Memory`, or `Store(Refused)`.
    pub fn changes_since(&mut self, alloc: Global, version: i64) -> Result<Vec<Stamped>, CellsError>
        ensures device { StaysClean C.is_honest C.is_clean is_want self.old self.new result }
        ensures sound { C.is_clean self.new → IsSound (C.holding self.new) }
        ensures reads { C.is_clean self.new → Reads (C.holding self.old) (C.holding self.new) result
            (λ cells. cells.items ≡ since (C.holding self.old).cells version) }
    {
        self.cells.since(alloc, version)
    }

    /// The same changes without their stamps. Where the version is the store's own, as after a pull to which nothing was added,
    /// the store isn't read.
    ///
    /// # Errors
    /// `Memory`, or `Store(Refused)`.
    pub fn changes_above(&mut self, alloc: Global, version: i64) -> Result<Vec<Change>, CellsError>
        ensures device { StaysClean C.is_honest C.is_clean is_want self.old self.new result }
        ensures sound { C.is_clean self.new → IsSound (C.holding self.new) }
        ensures reads { C.is_clean self.new → Reads (C.holding self.old) (C.holding self.new) result
            (λ changes. changes.items ≡ changes_of (since (C.holding self.old).cells version)) }
    {
        // Nothing is stamped above the store's own version, so it is not read for that.
        if version >= self.cells.db_version() {
            return Ok(Vec::new(alloc));
        }
        let cells = match self.changes_since(alloc, version) {
            Ok(cells) => cells,
            Err(error) => return Err(error),
        };
        Ok(changes_of(alloc, cells)?)
    }

    /// The version up to which the changes of a peer were taken, by the peer's site: 0 where it has no mark.
    ///
    /// # Errors
    /// `Memory`, or `Store(Refused)`.
    pub fn seen(&mut self, alloc: Global, site: Site) -> Result<i64, CellsError>
        ensures device { StaysClean C.is_honest C.is_clean is_want self.old self.new result }
        ensures reads { C.is_clean self.new → Reads (C.holding self.old) (C.holding self.new) result
            (λ version. version ≡ seen_of (C.holding self.old).marks site) }
    {
        self.cells.seen(alloc, site)
    }

    /// How many commits changed a kept change.
    pub fn db_version(&self) -> i64
        ensures { C.is_clean self.now → result ≡ (C.holding self.now).version }
    {
        self.cells.db_version()
    }

    /// The site that the replica was made with.
    pub fn site_id(&self) -> Site
        ensures { C.is_clean self.now → result ≡ (C.holding self.now).site }
    {
        self.cells.site()
    }
}
