//! A module that a host may register.

ghost use Rattle.std.specs.Prelude.{◌≡◌, ◌++◌, ◌∷◌, [], length, map, IfOk, OnOk};
ghost use Rattle.cr_bags.specs.Bags.{single};
ghost use Rattle.cr_module.specs.Lawful.{value_at};

use crate::module::{Cursor, Module, UpdateError};
use crate::plan::{Choice, Constraint, Order};
use cr_lattice::table::{ColumnDef, Items, Row};
use cr_value::value::Value;
use std::alloc::{AllocError, Global};

/// A module of one column whose rows are a list. It takes rows behind those that it has, or none.
#[derive(Drop)]
pub struct Listed {
    columns: Items<ColumnDef>,
    values: Vec<Value>,
    takes_rows: bool,
    ghost one: { length columns ≡ 1 },
}

impl Listed {
    /// A module of this column and these rows of one value each, which takes rows or not.
    ///
    /// # Errors
    /// Want of memory.
    pub fn new(
        alloc: Global,
        column: ColumnDef,
        values: Vec<Value>,
        takes_rows: bool,
    ) -> Result<Listed, AllocError>
        ensures columns { IfOk result (λ m. ⟦<Listed as Module>⟧.columns_of m ≡ column ∷ []) }
        ensures rows { IfOk result (λ m. ⟦<Listed as Module>⟧.rows_of m ≡ map single values.items) }
        ensures takes { IfOk result (λ m. m.takes_rows ≡ takes_rows) }
    {
        let mut columns = Vec::new(alloc);
        columns.push(column)?;
        Ok(Listed {
            columns: Items::new(columns),
            values,
            takes_rows,
        })
    }
}

// Puts copies of the first values of rows behind others.
fn push_firsts(alloc: Global, out: &mut Vec<Value>, rows: &[Row]) -> Result<(), AllocError>
    ensures { OnOk result (out.new.items ≡ out.old.items ++ map (value_at 0) rows.now) }
{
    for row in rows {
        let value = match row.as_slice().first() {
            Some(value) => value.copy(alloc)?,
            None => Value::Null,
        };
        out.push(value)?;
    }
    Ok(())
}

impl Module for Listed {
    ghost use Rattle.std.specs.Prelude.{◌++◌, cond, drop, fold, map, Ok, Err};
    ghost use Rattle.cr_bags.specs.Bags.{single};
    ghost use Rattle.cr_module.specs.declared.module.UpdateError.TheVariants.{ReadOnly};
    ghost use Rattle.cr_module.specs.Samples.{all_rows};

    ghost columns_of = { λ m. m.columns };

    ghost rows_of = { λ m. map single m.values.items };

    ghost best = { λ m cs os. all_rows };

    ghost left = { λ m c. map single (drop c.at m.values.items) };

    ghost updated = { λ m lists. cond m.takes_rows (Ok (fold (λ rows more. rows ++ more) (map single m.values.items) lists)) (Err ReadOnly) };

    fn columns(&self) -> &[ColumnDef] {
        self.columns.as_slice()
    }

    fn best_index(
        &self,
        alloc: Global,
        _constraints: &[Constraint],
        _orders: &[Order],
    ) -> Result<Choice, AllocError> {
        Ok(Choice {
            args: Items::new(Vec::new(alloc)),
            index: 0,
            cost: 1_000_000,
            consumed: false,
        })
    }

    fn filter(&self, alloc: Global, index: i64, _args: &[Value]) -> Result<Cursor, AllocError> {
        Ok(Cursor {
            index,
            args: Items::new(Vec::new(alloc)),
            at: 0,
        })
    }

    fn eof(&self, cursor: &Cursor) -> bool {
        cursor.at >= self.values.len()
    }

    fn next(&self, _alloc: Global, cursor: &mut Cursor) -> Result<(), AllocError> {
        cursor.at += 1;
        Ok(())
    }

    fn column(&self, alloc: Global, cursor: &Cursor, at: usize) -> Result<Value, AllocError> {
        if at == 0 {
            self.values[cursor.at].copy(alloc)
        } else {
            Ok(Value::Null)
        }
    }

    fn update(&mut self, alloc: Global, rows: &[Row]) -> Result<(), UpdateError> {
        if !self.takes_rows {
            return Err(UpdateError::ReadOnly);
        }
        let mut more = Vec::new(alloc);
        if push_firsts(alloc, &mut more, rows).is_err() {
            return Err(UpdateError::Memory);
        }
        match self.values.append(&mut more) {
            Ok(()) => Ok(()),
            Err(_) => Err(UpdateError::Memory),
        }
    }
}
