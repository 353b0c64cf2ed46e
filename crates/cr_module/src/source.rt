//! Tables that are read row by row, whatever they stand in. "The Virtual Table Mechanism Of SQLite", section 2.

ghost use Rattle.std.specs.Prelude.{◌≡◌, ◌||◌, false, length, IfOk, OnOk};
ghost use Rattle.cr_module.specs.Lawful.{first_row, head_value, is_at_end, rest_of};
ghost use Rattle.cr_module.specs.Reading.{is_failure};

use cr_value::value::Value;
use std::alloc::{AllocError, AllocFailed, Global};
use thiserror::Error;

/// Why a reading goes no further.
#[derive(Clone, Copy, Debug, PartialEq, Eq, Error)]
pub enum ReadFault {
    #[error("out of memory")]
    Memory,
    /// What the rows stand in failed.
    #[error("the store failed")]
    Store,
}

impl From<AllocError> for ReadFault {
    ghost use Rattle.std.specs.Prelude.{◌≡◌};
    ghost use Rattle.cr_module.specs.declared.source.ReadFault.TheVariants.{Memory};

    ghost from_gives = { λ _ e. e ≡ Memory };

    fn from(_e: AllocError) -> ReadFault {
        ReadFault::Memory
    }
}

impl<T: Drop> From<AllocFailed<T>> for ReadFault {
    ghost use Rattle.std.specs.Prelude.{◌≡◌};
    ghost use Rattle.cr_module.specs.declared.source.ReadFault.TheVariants.{Memory};

    ghost from_gives = { λ _ e. e ≡ Memory };

    fn from(_e: AllocFailed<T>) -> ReadFault {
        ReadFault::Memory
    }
}

/// Tables by number, from 0 on, whose rows are read one after another.
///
/// `filter` gives a cursor on the first row of a table, and until `eof` the values of its row are asked for and `next` goes on.
/// What is read stays as it is while it is read. One reading goes on at a time: nothing is said of a cursor once a later one was asked for.
pub trait Source: Drop {
    ghost use Rattle.std.specs.Prelude.{ℕ, Bool, List};
    ghost use Rattle.cr_query.specs.Query.{Row as Values};

    /// Where a reading of a table stands.
    type Cursor: Drop;

    /// The rows of the table of a number.
    ghost rows_of: { Self → ℕ → List Values };

    /// The rows that a cursor has before it, the row that it stands on first.
    ghost left: { Self → Self.Cursor → List Values };

    /// What the rows stand in has failed.
    ghost has_failed: { Self → Bool };

    /// A reading of the table of a number, from its first row.
    ///
    /// # Errors
    /// Want of memory, or what the rows stand in failed.
    fn filter(&mut self, alloc: Global, table: usize) -> Result<Self::Cursor, ReadFault>
        ensures rows { rows_of self.new ≡ rows_of self.old }
        ensures failed { has_failed self.new ≡ has_failed self.old || is_failure result }
        ensures starts { IfOk result (λ c. left self.new c ≡ rows_of self.old table) };

    /// Whether a reading has come to its end.
    fn eof(&self, cursor: &Self::Cursor) -> bool
        ensures { result ≡ is_at_end (left self.now cursor.now) };

    /// How many values the row has on which a reading stands, which is not at its end.
    fn width(&self, cursor: &Self::Cursor) -> usize
        requires { is_at_end (left self.now cursor.now) ≡ false }
        ensures { result ≡ length (first_row (left self.now cursor.now)) };

    /// The value of a column, by its place from 0 on, of the row on which a reading stands, which is not at its end.
    ///
    /// # Errors
    /// Want of memory, or what the rows stand in failed.
    fn column(
        &mut self,
        alloc: Global,
        cursor: &Self::Cursor,
        at: usize,
    ) -> Result<Value, ReadFault>
        requires { is_at_end (left self.old cursor.now) ≡ false }
        ensures rows { rows_of self.new ≡ rows_of self.old }
        ensures failed { has_failed self.new ≡ has_failed self.old || is_failure result }
        ensures stays { left self.new cursor.now ≡ left self.old cursor.now }
        ensures value { IfOk result (λ v. v ≡ head_value at (left self.old cursor.now)) };

    /// Goes on to the next row. The reading is not at its end.
    ///
    /// # Errors
    /// Want of memory, or what the rows stand in failed; then the cursor serves no more.
    fn next(&mut self, alloc: Global, cursor: &mut Self::Cursor) -> Result<(), ReadFault>
        requires { is_at_end (left self.old cursor.old) ≡ false }
        ensures rows { rows_of self.new ≡ rows_of self.old }
        ensures failed { has_failed self.new ≡ has_failed self.old || is_failure result }
        ensures goes_on { OnOk result (left self.new cursor.new ≡ rest_of (left self.old cursor.old)) };
}
