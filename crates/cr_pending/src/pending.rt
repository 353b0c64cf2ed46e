//! The changes of an open transaction.

ghost use Rattle.std.specs.Prelude.{◌≡◌, ◌↔◌, [], IsTrue, IfOk};
ghost use Rattle.cr_cells.specs.Tables.{AreWellFormed};
ghost use Rattle.cr_touched.specs.Parts.{is_key_of, part};
ghost use Rattle.cr_touched.specs.Tables.{of_tables};
ghost use Rattle.cr_pending.specs.Pending.{Adds, IsOf};

use crate::same::same_tables;
use crate::tables::of_tables;
use crate::touched::add_keys;
use crate::under::under_keys;
use cr_cells::tables::{check_all, copies};
use cr_lattice::change::Change;
use cr_lattice::check::{BadChange, CheckError};
use cr_lattice::table::Table;
use cr_value::text::{Bytes, Text};
use std::alloc::{AllocError, Global};
use std::collections::BTreeSet;
use std::marker::Model;
use thiserror::Error;

/// Why changes are not added to those of a transaction. Nothing of it is changed then.
#[derive(Clone, Copy, Debug, PartialEq, Eq, Drop, Error)]
pub enum PendingError {
    /// Memory ran out.
    #[error("out of memory")]
    Memory,
    /// The transaction has changes of other tables than these.
    #[error("the transaction has changes of other tables")]
    OtherTables,
    /// The first change that is not well formed for these tables, and why.
    #[error("the change is not well formed: {0}")]
    Bad(BadChange),
}

impl From<AllocError> for PendingError {
    ghost use Rattle.std.specs.Prelude.{◌≡◌};
    ghost use Rattle.cr_pending.specs.declared.pending.PendingError.TheVariants.{Memory};

    ghost from_gives = { λ _ e. e ≡ Memory };

    fn from(_e: AllocError) -> PendingError {
        PendingError::Memory
    }
}

impl From<CheckError> for PendingError {
    ghost use Rattle.std.specs.Prelude.{◌≡◌};
    ghost use Rattle.cr_pending.specs.Errors.{of_check};

    ghost from_gives = { λ e p. p ≡ of_check e };

    fn from(e: CheckError) -> PendingError {
        match e {
            CheckError::Memory => PendingError::Memory,
            CheckError::Bad(reason) => PendingError::Bad(reason),
        }
    }
}

/// The changes of an open transaction, in the order in which they were made, and the tables that they are well formed for.
/// Contracts see both as a pair, tables first.
///
/// The tables are those that were given with the first changes. A transaction begins without any: it is begun where the store
/// is not asked which there are, since it may be broken.
#[derive(Debug, Drop)]
pub struct Pending {
    tables: Vec<Table>,
    changes: Vec<Change>,
    // The keys of all changes, of whatever table. Where memory ran out as changes were added, it may have some of theirs, too.
    touched: BTreeSet<Bytes>,
}

impl Model for Pending {
    ghost use Rattle.cr_pending.specs.Pending.{PendingOf};
    ghost use Rattle.cr_pending.specs.Touched.{AreChanges};

    ghost Value = { PendingOf };

    ghost view = { λ p. (p.tables.items, p.changes.items) };

    ghost invariant = { λ p. AreChanges p.tables.items p.touched.keys p.changes.items };
}

impl Pending {
    /// A transaction that has no changes yet. It takes no memory.
    pub fn new(alloc: Global) -> Pending
        ensures { result ≡ ([], []) }
    {
        Pending {
            tables: Vec::new(alloc),
            changes: Vec::new(alloc),
            touched: BTreeSet::new(alloc),
        }
    }

    /// The changes, in the order in which they were made.
    pub fn changes(&self) -> &[Change]
        ensures { result.now ≡ self.now.1 }
    {
        &self.changes
    }

    /// Whether the changes are of these tables: there is none, or these are the tables that they were added with, in the same
    /// order. Then each is well formed for one of them.
    pub fn is_of(&self, tables: &[Table]) -> bool
        ensures of { IsTrue result ↔ IsOf tables.now self.now }
        ensures well_formed { IsTrue result → AreWellFormed tables.now self.now.1 }
    {
        self.changes.is_empty() || same_tables(&self.tables, tables)
    }

    /// The changes of a table under some keys, in the order in which they were made. Fails for want of memory alone. It takes a
    /// search for each key, and a pass over the changes where one of the keys has some.
    pub fn of_keys(
        &self,
        alloc: Global,
        table: &str,
        keys: &[Bytes],
    ) -> Result<Vec<Change>, AllocError>
        ensures { IfOk result (λ v. v.items ≡ part table.now (is_key_of keys.now) self.now.1) }
    {
        under_keys(alloc, &self.changes, &self.touched, table, keys)
    }

    /// The changes of some tables, in the order in which they were made. Fails for want of memory alone. It takes a pass over the
    /// changes.
    pub fn of_tables(&self, alloc: Global, tables: &[Text]) -> Result<Vec<Change>, AllocError>
        ensures { IfOk result (λ v. v.items ≡ of_tables tables.now self.now.1) }
    {
        of_tables(alloc, &self.changes, tables)
    }

    /// Adds changes of these tables behind the others, all or none.
    ///
    /// # Errors
    /// `OtherTables` where the transaction has changes of other tables; then `Bad` with the reason why the first change that is
    /// not well formed is not; `Memory`. Then nothing is changed.
    pub fn add(
        &mut self,
        alloc: Global,
        tables: &[Table],
        more: Vec<Change>,
    ) -> Result<(), PendingError>
        ensures { Adds self.old tables.now more.items result self.new }
    {
        if !self.is_of(tables) {
            return Err(PendingError::OtherTables);
        }
        check_all(alloc, tables, &more)?;
        add_keys(alloc, &mut self.touched, &more)?;
        if self.changes.is_empty() {
            self.tables = copies(alloc, tables)?;
            self.changes = more;
            return Ok(());
        }
        let mut more = more;
        self.changes.append(&mut more)?;
        Ok(())
    }
}
