//! The host's tables, of which a reading may break.

use cr_lattice::table::{ColumnDef, Row};
use cr_module::module::{Cursor, Module, UpdateError};
use cr_module::plan::{Choice, Constraint, Order};
use cr_module::samples::Listed;
use cr_value::affinity::Affinity;
use cr_value::text::Text;
use cr_value::value::Value;
use std::alloc::{AllocError, Global};

/// A table of one column, `v`, whose rows are a list. A reading that breaks is refused as for want of memory, the one cause for
/// which a reading may be.
#[derive(Drop)]
pub struct Numbers {
    pub listed: Listed,
    /// The place, from 0 on, of the row behind which a reading does not go on.
    pub breaks_at: Option<usize>,
}

impl Numbers {
    /// The numbers from 1 to `last`, to which an INSERT may bring more, or none.
    ///
    /// # Errors
    /// Want of memory.
    pub fn up_to(alloc: Global, last: i64, takes_rows: bool) -> Result<Numbers, AllocError> {
        let column = ColumnDef {
            name: Text::from_str(alloc, "v")?,
            affinity: Affinity::Integer,
            collation: Text::from_str(alloc, "binary")?,
            not_null: false,
            key: None,
            default: Value::Null,
        };
        let mut values = Vec::new(alloc);
        for number in 0..last {
            values.push(Value::Int(number + 1))?;
        }
        Ok(Numbers {
            listed: Listed::new(alloc, column, values, takes_rows)?,
            breaks_at: None,
        })
    }
}

impl Module for Numbers {
    ghost columns_of = { λ m. ⟦<Listed as Module>⟧.columns_of m.listed };

    ghost rows_of = { λ m. ⟦<Listed as Module>⟧.rows_of m.listed };

    ghost best = { λ m. ⟦<Listed as Module>⟧.best m.listed };

    ghost left = { λ m. ⟦<Listed as Module>⟧.left m.listed };

    ghost updated = { λ m. ⟦<Listed as Module>⟧.updated m.listed };

    fn columns(&self) -> &[ColumnDef] {
        self.listed.columns()
    }

    fn best_index(
        &self,
        alloc: Global,
        constraints: &[Constraint],
        orders: &[Order],
    ) -> Result<Choice, AllocError> {
        self.listed.best_index(alloc, constraints, orders)
    }

    fn filter(&self, alloc: Global, index: i64, args: &[Value]) -> Result<Cursor, AllocError> {
        self.listed.filter(alloc, index, args)
    }

    fn eof(&self, cursor: &Cursor) -> bool {
        self.listed.eof(cursor)
    }

    fn next(&self, alloc: Global, cursor: &mut Cursor) -> Result<(), AllocError> {
        if self.breaks_at == Some(cursor.at) {
            return Err(AllocError);
        }
        self.listed.next(alloc, cursor)
    }

    fn column(&self, alloc: Global, cursor: &Cursor, at: usize) -> Result<Value, AllocError> {
        self.listed.column(alloc, cursor, at)
    }

    fn update(&mut self, alloc: Global, rows: &[Row]) -> Result<(), UpdateError> {
        self.listed.update(alloc, rows)
    }
}
