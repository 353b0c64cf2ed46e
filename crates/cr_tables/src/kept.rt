//! What is kept of one table, as a source.

use crate::standing::{Standing, read_kept};
use cr_lattice::change::Change;
use cr_lattice::table::TableDef;
use cr_module::source::{ReadFault, Source};
use cr_value::value::Value;
use std::alloc::Global;

/// A replicated table as kept changes show it, under number 0. Under another number there are no rows.
#[derive(Drop)]
pub struct Kept<'a> {
    pub changes: &'a [Change],
    pub definition: &'a TableDef,
}

impl<'a> Source for Kept<'a> {
    ghost use Rattle.std.specs.Prelude.{false};
    ghost use Rattle.cr_tables.specs.Views.{rows_before, rows_kept};

    type Cursor = Standing<'a>;

    ghost rows_of = { λ k n. rows_kept k.changes.now k.definition.now n };

    ghost left = { λ _ s. rows_before s };

    ghost has_failed = { λ _. false };

    fn filter(&mut self, alloc: Global, table: usize) -> Result<Standing<'a>, ReadFault> {
        match table {
            0 => Ok(read_kept(alloc, self.changes, self.definition)?),
            _ => Ok(Standing::Listed(&[])),
        }
    }

    fn eof(&self, cursor: &Standing<'a>) -> bool {
        cursor.is_at_end()
    }

    fn width(&self, cursor: &Standing<'a>) -> usize {
        cursor.width()
    }

    fn column(
        &mut self,
        alloc: Global,
        cursor: &Standing<'a>,
        at: usize,
    ) -> Result<Value, ReadFault> {
        Ok(cursor.column(alloc, at)?)
    }

    fn next(&mut self, alloc: Global, cursor: &mut Standing<'a>) -> Result<(), ReadFault> {
        cursor.advance(alloc)?;
        Ok(())
    }
}
