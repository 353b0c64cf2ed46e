//! Lists of rows whose reading fails.

ghost use Rattle.std.specs.Prelude.{◌≡◌, ◌||◌, false};
ghost use Rattle.cr_module.specs.Reading.{is_failure};

use cr_lattice::table::{Items, Row};
use cr_module::lists::{Before, Lists};
use cr_module::source::{ReadFault, Source};
use cr_value::value::Value;
use std::alloc::Global;

/// Tables that are lists, whose readings fail once they were called so many times.
#[derive(Drop)]
pub struct FailingLists<'a> {
    lists: Lists<'a>,
    calls: usize,
    has_failed: bool,
}

impl<'a> FailingLists<'a> {
    /// The tables, of whose calls so many don't fail.
    pub fn new(tables: &'a [Items<Row>], calls: usize) -> FailingLists<'a>
        ensures { result.has_failed ≡ false }
    {
        FailingLists {
            lists: Lists { tables },
            calls,
            has_failed: false,
        }
    }

    // One call more.
    fn count(&mut self) -> Result<(), ReadFault>
        ensures lists { self.new.lists ≡ self.old.lists }
        ensures failed { self.new.has_failed ≡ self.old.has_failed || is_failure result }
    {
        if self.calls == 0 {
            self.has_failed = true;
            return Err(ReadFault::Store);
        }
        self.calls -= 1;
        Ok(())
    }
}

impl<'a> Source for FailingLists<'a> {
    ghost use Rattle.cr_module.specs.Reading.{table_at};

    type Cursor = Before<'a>;

    ghost rows_of = { λ f n. table_at n f.lists.tables.now };

    ghost left = { λ _ c. c.rows.now };

    ghost has_failed = { λ f. f.has_failed };

    fn filter(&mut self, alloc: Global, table: usize) -> Result<Before<'a>, ReadFault> {
        self.count()?;
        self.lists.filter(alloc, table)
    }

    fn eof(&self, cursor: &Before<'a>) -> bool {
        self.lists.eof(cursor)
    }

    fn width(&self, cursor: &Before<'a>) -> usize {
        self.lists.width(cursor)
    }

    fn column(
        &mut self,
        alloc: Global,
        cursor: &Before<'a>,
        at: usize,
    ) -> Result<Value, ReadFault> {
        self.count()?;
        self.lists.column(alloc, cursor, at)
    }

    fn next(&mut self, alloc: Global, cursor: &mut Before<'a>) -> Result<(), ReadFault> {
        self.count()?;
        self.lists.next(alloc, cursor)
    }
}
