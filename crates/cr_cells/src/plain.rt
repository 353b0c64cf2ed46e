//! The plain store, in memory: what a store is, as a program.

ghost use Rattle.std.specs.Prelude.{◌≡◌};
ghost use Rattle.cr_cells.specs.Holding.{empty_holding};

use crate::cells::{cells_of, cells_of_table, since, take_changes};
use crate::marks::{Mark, marks_after, seen_of};
use crate::page::{Page, cells_after, cells_between, cut, likely_end};
use crate::store::{Cells, CellsError, NewCells};
use crate::tables::{add, copies, with_added, with_replicated};
use cr_lattice::change::{Change, Site};
use cr_lattice::stamped::Stamped;
use cr_lattice::table::{ColumnDef, Table, TableDef};
use std::alloc::Global;
use std::marker::Model;

/// A store in memory, which contracts see as what it holds.
#[derive(Debug, Drop)]
pub struct PlainCells {
    tables: Vec<Table>,
    site: Site,
    version: i64,
    cells: Vec<Stamped>,
    marks: Vec<Mark>,
}

impl Model for PlainCells {
    ghost use Rattle.cr_cells.specs.Holding.{Holding};

    ghost Value = { Holding };

    ghost use Rattle.cr_cells.specs.Plain.{holding_of, IsKept};

    ghost view = { holding_of };

    ghost invariant = { IsKept };
}

impl PlainCells {
    /// An empty store of a site.
    pub fn new(alloc: Global, site: Site) -> PlainCells
        ensures { result ≡ empty_holding site }
    {
        PlainCells {
            tables: Vec::new(alloc),
            site,
            version: 0,
            cells: Vec::new(alloc),
            marks: Vec::new(alloc),
        }
    }
}

impl Cells for PlainCells {
    ghost holding = { λ h. h };

    ghost is_honest = { λ _. Unit {0} };

    ghost is_clean = { λ _. Unit {0} };

    fn tables(&mut self, alloc: Global) -> Result<Vec<Table>, CellsError> {
        Ok(copies(alloc, &self.tables)?)
    }

    fn add_table(&mut self, alloc: Global, def: &TableDef) -> Result<(), CellsError> {
        add(alloc, &mut self.tables, def, false)?;
        Ok(())
    }

    fn mark_crr(&mut self, alloc: Global, name: &str) -> Result<(), CellsError> {
        self.tables = with_replicated(alloc, &self.tables, name)?;
        Ok(())
    }

    fn add_replicated(&mut self, alloc: Global, def: &TableDef) -> Result<(), CellsError> {
        add(alloc, &mut self.tables, def, true)?;
        Ok(())
    }

    fn add_column(
        &mut self,
        alloc: Global,
        table: &str,
        column: &ColumnDef,
    ) -> Result<(), CellsError> {
        self.tables = with_added(alloc, &self.tables, table, column)?;
        Ok(())
    }

    fn since(&mut self, alloc: Global, version: i64) -> Result<Vec<Stamped>, CellsError> {
        Ok(since(alloc, &self.cells, version)?)
    }

    fn cells_of(
        &mut self,
        alloc: Global,
        table: &str,
        pk: &[u8],
    ) -> Result<Vec<Stamped>, CellsError> {
        Ok(cells_of(alloc, &self.cells, table, pk)?)
    }

    fn cells_of_table(&mut self, alloc: Global, table: &str) -> Result<Vec<Stamped>, CellsError> {
        Ok(cells_of_table(alloc, &self.cells, table)?)
    }

    fn page(
        &mut self,
        alloc: Global,
        table: &str,
        after: Option<&[u8]>,
        limit: usize,
    ) -> Result<Page, CellsError> {
        if let Some(end) = likely_end(&self.cells, table, after, limit) {
            let near = cells_between(alloc, &self.cells, table, after, end)?;
            let page = cut(alloc, near, limit)?;
            if page.bound.is_some() {
                return Ok(page);
            }
        }
        let found = cells_after(alloc, &self.cells, table, after)?;
        Ok(cut(alloc, found, limit)?)
    }

    fn commit(
        &mut self,
        alloc: Global,
        changes: &[Change],
        peer: Option<(Site, i64)>,
    ) -> Result<bool, CellsError> {
        let next = take_changes(alloc, &self.cells, changes, self.version)?;
        let marks = marks_after(alloc, &self.marks, peer)?;
        match next {
            Some(next) => {
                self.cells = next.cells;
                self.version = next.version;
                self.marks = marks;
                Ok(true)
            }
            None => {
                self.marks = marks;
                Ok(false)
            }
        }
    }

    fn seen(&mut self, _alloc: Global, site: Site) -> Result<i64, CellsError> {
        Ok(seen_of(&self.marks, &site))
    }

    fn db_version(&self) -> i64 {
        self.version
    }

    fn site(&self) -> Site {
        self.site
    }
}

impl NewCells for PlainCells {
    ghost always_honest = { λ _. tt };

    fn create(alloc: Global, site: Site) -> Result<PlainCells, CellsError> {
        Ok(PlainCells::new(alloc, site))
    }
}
