//! A store that remembers which rows the latest commits touched.

ghost use Rattle.std.specs.Prelude.{◌≡◌};

use crate::keys::cells_above;
use crate::notes::Notes;
use cr_cells::page::Page;
use cr_cells::stamps::by_stamp;
use cr_cells::store::{Cells, CellsError};
use cr_lattice::change::{Change, Site};
use cr_lattice::stamped::Stamped;
use cr_lattice::table::{ColumnDef, Table, TableDef};
use std::alloc::Global;
use std::marker::Model;

/// A store over another, which contracts see as that other. It remembers which rows the latest commits touched, so that the
/// cells that came in with them are found by looking up these rows, and not by going through all cells.
#[derive(Drop)]
pub struct Recent<C: Cells> {
    cells: C,
    notes: Notes,
}

impl<C: Cells> Model for Recent<C> {
    ghost use Rattle.cr_recent.specs.Notes.{AreNoted};

    ghost Value = { C };

    ghost view = { λ r. r.cells };

    ghost invariant = { λ r. C.is_clean r.cells → AreNoted r.notes (C.holding r.cells).cells };
}

impl<C: Cells> Recent<C> {
    /// A store over another, which may hold something already. Of what that holds nothing is remembered. Takes no memory.
    pub fn new(cells: C) -> Recent<C>
        ensures { result ≡ cells }
    {
        let version = cells.db_version();
        Recent {
            cells,
            notes: Notes::new(version),
        }
    }

    /// The store beneath as it stands.
    pub fn into_cells(self) -> C
        ensures { result ≡ self }
    {
        self.cells
    }
}

impl<C: Cells> Cells for Recent<C> {
    ghost holding = { λ r. C.holding r };

    ghost is_honest = { λ r. C.is_honest r };

    ghost is_clean = { λ r. C.is_clean r };

    fn tables(&mut self, alloc: Global) -> Result<Vec<Table>, CellsError> {
        self.cells.tables(alloc)
    }

    fn add_table(&mut self, alloc: Global, def: &TableDef) -> Result<(), CellsError> {
        self.cells.add_table(alloc, def)
    }

    fn mark_crr(&mut self, alloc: Global, name: &str) -> Result<(), CellsError> {
        self.cells.mark_crr(alloc, name)
    }

    fn add_replicated(&mut self, alloc: Global, def: &TableDef) -> Result<(), CellsError> {
        self.cells.add_replicated(alloc, def)
    }

    fn add_column(
        &mut self,
        alloc: Global,
        table: &str,
        column: &ColumnDef,
    ) -> Result<(), CellsError> {
        self.cells.add_column(alloc, table, column)
    }

    fn since(&mut self, alloc: Global, version: i64) -> Result<Vec<Stamped>, CellsError> {
        let _ = self.cells.db_version();
        // Above 0 there are all cells, which the store beneath reads at once.
        if version <= 0 || version < self.notes.version() {
            return self.cells.since(alloc, version);
        }
        let keys = self.notes.keys_above(alloc, version)?;
        let found = cells_above(alloc, &mut self.cells, &keys, version)?;
        Ok(by_stamp(found)?)
    }

    fn cells_of(
        &mut self,
        alloc: Global,
        table: &str,
        pk: &[u8],
    ) -> Result<Vec<Stamped>, CellsError> {
        self.cells.cells_of(alloc, table, pk)
    }

    fn cells_of_table(&mut self, alloc: Global, table: &str) -> Result<Vec<Stamped>, CellsError> {
        self.cells.cells_of_table(alloc, table)
    }

    fn page(
        &mut self,
        alloc: Global,
        table: &str,
        after: Option<&[u8]>,
        limit: usize,
    ) -> Result<Page, CellsError> {
        self.cells.page(alloc, table, after, limit)
    }

    fn commit(
        &mut self,
        alloc: Global,
        changes: &[Change],
        peer: Option<(Site, i64)>,
    ) -> Result<bool, CellsError> {
        let changed = self.cells.commit(alloc, changes, peer)?;
        if changed {
            let version = self.cells.db_version();
            self.notes.add(alloc, changes, version);
        }
        Ok(changed)
    }

    fn seen(&mut self, alloc: Global, site: Site) -> Result<i64, CellsError> {
        self.cells.seen(alloc, site)
    }

    fn db_version(&self) -> i64 {
        self.cells.db_version()
    }

    fn site(&self) -> Site {
        self.cells.site()
    }
}
