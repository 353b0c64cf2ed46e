//! What a store of cells is.

ghost use Rattle.std.specs.Prelude.{◌≡◌, ◌<◌, ◌≤ℤ◌, pos, true, false, IfOk, MatchResult};
ghost use Rattle.std.specs.Option.{ForSome, option_copied};
ghost use Rattle.cr_cells.specs.Tables.{IsNewTable, IsNewColumn, has_defaults, is_markable, with_replicated, with_table, with_added, AreWellFormed};
ghost use Rattle.cr_cells.specs.Marks.{seen_of};
ghost use Rattle.cr_cells.specs.Holding.{since, cells_of, cells_of_table, IsSound, empty_holding};
ghost use Rattle.cr_cells.specs.Pages.{IsPage};
ghost use Rattle.cr_cells.specs.Calls.{Reads, Defines, Commits, IsRefusal, is_want, StaysClean};

use crate::page::Page;
use cr_lattice::change::{Change, Site};
use cr_lattice::stamped::Stamped;
use cr_lattice::table::{ColumnDef, Table, TableDef};
use std::alloc::{AllocError, Global};
use thiserror::Error;

/// How a store itself refuses a call.
#[derive(Clone, Copy, Debug, PartialEq, Eq, Error)]
pub enum StoreFault {
    /// Where a store is made, a table of it is there already.
    #[error("a table of a store is there already")]
    Taken,
    /// What is opened as a store is none that this project's stores write.
    #[error("the database holds no sound store")]
    Damaged,
    /// Any other cause, as a device that fails.
    #[error("the store failed")]
    Refused,
}

/// Why a call of a store is refused.
#[derive(Clone, Copy, Debug, PartialEq, Eq, Drop, Error)]
pub enum CellsError {
    #[error("out of memory")]
    Memory,
    #[error(transparent)]
    Store(StoreFault),
    /// The commit would change a kept change, and the version is the greatest that there is.
    #[error("the greatest version is reached")]
    VersionLimit,
}

impl From<AllocError> for CellsError {
    ghost use Rattle.std.specs.Prelude.{◌≡◌};
    ghost use Rattle.cr_cells.specs.declared.store.CellsError.TheVariants.{Memory};

    ghost from_gives = { λ _ e. e ≡ Memory };

    fn from(_e: AllocError) -> CellsError {
        CellsError::Memory
    }
}

/// A store of cells: tables, the kept changes of what was committed, each with the stamp of the commit at which it came
/// in, the store's site and version, and for each peer the version up to which its changes were taken.
///
/// What a call promises it promises where the store is clean after it: its device gave back what was written, and is
/// still there. Then the store was clean before the call, too. And a store that was clean before a call is clean after it
/// where its device is honest, that is gave back what was written, unless the call was refused with `Memory` or `Store`.
pub trait Cells: Drop {
    ghost use Rattle.cr_cells.specs.Holding.{Holding};

    /// What the store holds.
    ghost holding: { Self → Holding };

    /// The device gave back what was written up to here.
    ghost is_honest: { Self → Type 0 };

    /// The device gave back what was written up to here, and is still there.
    ghost is_clean: { Self → Type 0 };

    /// The tables in the order in which they came.
    ///
    /// # Errors
    /// `Memory`, or `Store(Refused)`.
    fn tables(&mut self, alloc: Global) -> Result<Vec<Table>, CellsError>
        ensures device { StaysClean is_honest is_clean is_want self.old self.new result }
        ensures sound { is_clean self.new → IsSound (holding self.new) }
        ensures reads { is_clean self.new → Reads (holding self.old) (holding self.new) result
            (λ tables. tables.items ≡ (holding self.old).tables) };

    /// Adds a table that is not replicated. Its names are in ASCII lower case, it fits the profile, and its name is new.
    ///
    /// # Errors
    /// `Memory`, or `Store(Refused)`; then nothing is changed.
    fn add_table(&mut self, alloc: Global, def: &TableDef) -> Result<(), CellsError>
        requires { is_clean self.old → IsNewTable (holding self.old).tables def.now }
        ensures device { StaysClean is_honest is_clean is_want self.old self.new result }
        ensures sound { is_clean self.new → IsSound (holding self.new) }
        ensures defines { is_clean self.new → Defines (holding self.old) (holding self.new) result
            (record (holding self.old) { tables = with_table (holding self.old).tables def.now false }) };

    /// Makes the table of that name replicated. It is there, and each of its columns outside the key that wants a value
    /// has a default. On a replicated table it changes nothing.
    ///
    /// # Errors
    /// `Memory`, or `Store(Refused)`; then nothing is changed.
    fn mark_crr(&mut self, alloc: Global, name: &str) -> Result<(), CellsError>
        requires { is_clean self.old → is_markable name.now (holding self.old).tables ≡ true }
        ensures device { StaysClean is_honest is_clean is_want self.old self.new result }
        ensures sound { is_clean self.new → IsSound (holding self.new) }
        ensures defines { is_clean self.new → Defines (holding self.old) (holding self.new) result
            (record (holding self.old) { tables = with_replicated name.now (holding self.old).tables }) };

    /// Adds a replicated table: what `add_table` and `mark_crr` do, at once.
    ///
    /// # Errors
    /// `Memory`, or `Store(Refused)`; then nothing is changed.
    fn add_replicated(&mut self, alloc: Global, def: &TableDef) -> Result<(), CellsError>
        requires is_new { is_clean self.old → IsNewTable (holding self.old).tables def.now }
        requires defaults { has_defaults def.now ≡ true }
        ensures device { StaysClean is_honest is_clean is_want self.old self.new result }
        ensures sound { is_clean self.new → IsSound (holding self.new) }
        ensures defines { is_clean self.new → Defines (holding self.old) (holding self.new) result
            (record (holding self.old) { tables = with_table (holding self.old).tables def.now true }) };

    /// Adds a column outside the key to the table of that name, behind its others. Its names are in ASCII lower case, and
    /// with it the table fits the profile, its columns have distinct names and, where it is replicated, those that want a
    /// value have a default. No cell changes: one that was kept for a column of that name shows from now on.
    ///
    /// # Errors
    /// `Memory`, or `Store(Refused)`; then nothing is changed.
    fn add_column(
        &mut self,
        alloc: Global,
        table: &str,
        column: &ColumnDef,
    ) -> Result<(), CellsError>
        requires { is_clean self.old → IsNewColumn (holding self.old).tables table.now column.now }
        ensures device { StaysClean is_honest is_clean is_want self.old self.new result }
        ensures sound { is_clean self.new → IsSound (holding self.new) }
        ensures defines { is_clean self.new → Defines (holding self.old) (holding self.new) result
            (record (holding self.old) { tables = with_added table.now column.now (holding self.old).tables }) };

    /// The cells that are stamped above a version, by version, then by place.
    ///
    /// # Errors
    /// `Memory`, or `Store(Refused)`.
    fn since(&mut self, alloc: Global, version: i64) -> Result<Vec<Stamped>, CellsError>
        ensures device { StaysClean is_honest is_clean is_want self.old self.new result }
        ensures sound { is_clean self.new → IsSound (holding self.new) }
        ensures reads { is_clean self.new → Reads (holding self.old) (holding self.new) result
            (λ cells. cells.items ≡ since (holding self.old).cells version) };

    /// The cells of one row, the row's own first, then by the bytes of the columns' names.
    ///
    /// # Errors
    /// `Memory`, or `Store(Refused)`.
    fn cells_of(
        &mut self,
        alloc: Global,
        table: &str,
        pk: &[u8],
    ) -> Result<Vec<Stamped>, CellsError>
        ensures device { StaysClean is_honest is_clean is_want self.old self.new result }
        ensures sound { is_clean self.new → IsSound (holding self.new) }
        ensures reads { is_clean self.new → Reads (holding self.old) (holding self.new) result
            (λ cells. cells.items ≡ cells_of (holding self.old).cells table.now pk.now) };

    /// The cells of one table, by key, then as those of a row.
    ///
    /// # Errors
    /// `Memory`, or `Store(Refused)`.
    fn cells_of_table(&mut self, alloc: Global, table: &str) -> Result<Vec<Stamped>, CellsError>
        ensures device { StaysClean is_honest is_clean is_want self.old self.new result }
        ensures sound { is_clean self.new → IsSound (holding self.new) }
        ensures reads { is_clean self.new → Reads (holding self.old) (holding self.new) result
            (λ cells. cells.items ≡ cells_of_table (holding self.old).cells table.now) };

    /// The cells of the first keys of a table above a key, or of its first ones of all, at least as many keys as are asked
    /// for, which is one at least, or of all keys that are left: by key, then as those of a row.
    ///
    /// # Errors
    /// `Memory`, or `Store(Refused)`.
    fn page(
        &mut self,
        alloc: Global,
        table: &str,
        after: Option<&[u8]>,
        limit: usize,
    ) -> Result<Page, CellsError>
        requires { 0 < limit }
        ensures device { StaysClean is_honest is_clean is_want self.old self.new result }
        ensures sound { is_clean self.new → IsSound (holding self.new) }
        ensures reads { is_clean self.new → Reads (holding self.old) (holding self.new) result
            (IsPage (holding self.old).cells table.now (option_copied after.entry) limit) };

    /// Takes changes, each well formed for a replicated table, and with them the mark of a peer: its site, and its
    /// version, at least 0, up to which its changes were taken. Answers whether a kept change is another than before.
    /// What comes in gets the next version, and places from 0 on in the order of table, key, `-1` first, column. The
    /// mark is kept where nothing comes in, too.
    ///
    /// # Errors
    /// `VersionLimit` where a kept change would change and the version is 9223372036854775807, `Memory`, or
    /// `Store(Refused)`; then nothing is changed, and the mark neither.
    fn commit(
        &mut self,
        alloc: Global,
        changes: &[Change],
        peer: Option<(Site, i64)>,
    ) -> Result<bool, CellsError>
        requires well_formed { is_clean self.old → AreWellFormed (holding self.old).tables changes.now }
        requires from_0 { ForSome peer (λ mark. pos 0 ≤ℤ mark.1) }
        ensures device { StaysClean is_honest is_clean is_want self.old self.new result }
        ensures sound { is_clean self.new → IsSound (holding self.new) }
        ensures commits { is_clean self.new → Commits (holding self.old) (holding self.new) changes.now peer result };

    /// The version up to which the changes of a peer were taken, by the peer's site: 0 where it has no mark.
    ///
    /// # Errors
    /// `Memory`, or `Store(Refused)`.
    fn seen(&mut self, alloc: Global, site: Site) -> Result<i64, CellsError>
        ensures device { StaysClean is_honest is_clean is_want self.old self.new result }
        ensures sound { is_clean self.new → IsSound (holding self.new) }
        ensures reads { is_clean self.new → Reads (holding self.old) (holding self.new) result
            (λ version. version ≡ seen_of (holding self.old).marks site) };

    /// The version: how many commits changed a kept change.
    fn db_version(&self) -> i64
        ensures sound { is_clean self.now → IsSound (holding self.now) }
        ensures version { is_clean self.now → result ≡ (holding self.now).version };

    /// The store's site.
    fn site(&self) -> Site
        ensures { is_clean self.now → result ≡ (holding self.now).site };
}

/// A store of cells in memory: it can be made new, with nothing in it, and its device is always honest.
pub trait NewCells: Cells {
    /// A store of a site that holds nothing and is clean.
    ///
    /// # Errors
    /// `Memory`, or `Store(Refused)`.
    fn create(alloc: Global, site: Site) -> Result<Self, CellsError>
        ensures made { MatchResult result (λ store. Self.is_clean store → Self.holding store ≡ empty_holding site) IsRefusal }
        ensures clean { IfOk result Self.is_clean };

    /// The device of a store in memory gives back what was written.
    ghost always_honest: { (s : Self) → Self.Cells.is_honest s };
}
