//! A source over lists of rows.

use crate::source::{ReadFault, Source};
use cr_lattice::table::{Items, Row};
use cr_value::value::Value;
use std::alloc::Global;

/// Tables that are lists of rows. A table of a number that there isn't has none.
#[derive(Drop)]
pub struct Lists<'a> {
    pub tables: &'a [Items<Row>],
}

/// The rows that a reading of a list has before it.
#[derive(Drop)]
pub struct Before<'a> {
    pub rows: &'a [Row],
}

impl<'a> Source for Lists<'a> {
    ghost use Rattle.std.specs.Prelude.{false};
    ghost use Rattle.cr_module.specs.Reading.{table_at};

    type Cursor = Before<'a>;

    ghost rows_of = { λ s n. table_at n s.tables.now };

    ghost left = { λ _ c. c.rows.now };

    ghost has_failed = { λ _. false };

    fn filter(&mut self, _alloc: Global, table: usize) -> Result<Before<'a>, ReadFault> {
        match self.tables.get(table) {
            Some(rows) => Ok(Before {
                rows: rows.as_slice(),
            }),
            None => Ok(Before { rows: &[] }),
        }
    }

    fn eof(&self, cursor: &Before<'a>) -> bool {
        cursor.rows.is_empty()
    }

    fn width(&self, cursor: &Before<'a>) -> usize {
        match cursor.rows.first() {
            Some(row) => row.as_slice().len(),
            None => 0,
        }
    }

    fn column(
        &mut self,
        alloc: Global,
        cursor: &Before<'a>,
        at: usize,
    ) -> Result<Value, ReadFault> {
        let Some(row) = cursor.rows.first() else {
            return Ok(Value::Null);
        };
        match row.as_slice().get(at) {
            Some(value) => Ok(value.copy(alloc)?),
            None => Ok(Value::Null),
        }
    }

    fn next(&mut self, _alloc: Global, cursor: &mut Before<'a>) -> Result<(), ReadFault> {
        if let Some((_, later)) = cursor.rows.split_first() {
            cursor.rows = later;
        }
        Ok(())
    }
}
