//! What a host's table is offered when it is read.

use crate::counted::Counted;
use cr_lattice::table::{ColumnDef, Row};
use cr_module::module::{Cursor, Module, UpdateError};
use cr_module::plan::{Choice, Comparison, Constraint, Order};
use cr_value::value::Value;
use std::alloc::{AllocError, Global};
use std::cell::RefCell;
use std::io::{self, Write};
use std::rc::Rc;

/// The constraints and the order that the latest reading of a table of one column was offered.
#[derive(Drop)]
pub struct Offered {
    constraints: Vec<Constraint>,
    orders: Vec<Order>,
}

impl Offered {
    /// Nothing yet.
    pub fn new(alloc: Global) -> Offered {
        Offered {
            constraints: Vec::new(alloc),
            orders: Vec::new(alloc),
        }
    }

    fn note(&mut self, constraints: &[Constraint], orders: &[Order]) -> Result<(), AllocError> {
        self.constraints.clear();
        self.orders.clear();
        for constraint in constraints {
            self.constraints.push(*constraint)?;
        }
        for order in orders {
            self.orders.push(*order)?;
        }
        Ok(())
    }
}

// Notes what a reading is offered. What can't be noted for want of memory is left out.
fn note(offered: &RefCell<Offered>, constraints: &[Constraint], orders: &[Order]) {
    if let Ok(mut offered) = offered.try_borrow_mut() {
        let _ = offered.note(constraints, orders);
    }
}

fn sign(comparison: Comparison) -> &'static str {
    match comparison {
        Comparison::Eq => "=",
        Comparison::Gt => ">",
        Comparison::Le => "<=",
        Comparison::Lt => "<",
        Comparison::Ge => ">=",
    }
}

/// Prints in a line how the column stands to the arguments, and whether an order is wanted.
pub fn print_offered<W: Write>(offered: &RefCell<Offered>, out: &mut W) -> io::Result<()> {
    let Ok(offered) = offered.try_borrow() else {
        return Ok(());
    };
    write!(out, "offered")?;
    for constraint in &offered.constraints {
        write!(out, " {}", sign(constraint.op))?;
    }
    for order in &offered.orders {
        let direction = if order.descending {
            " descending"
        } else {
            " ascending"
        };
        write!(out, "{direction}")?;
    }
    writeln!(out)
}

/// A table of numbers that are counted, which notes what its readings are offered.
#[derive(Drop)]
pub struct Observed {
    pub counted: Counted,
    pub offered: Rc<RefCell<Offered>>,
}

impl Module for Observed {
    ghost columns_of = { λ m. ⟦<Counted as Module>⟧.columns_of m.counted };

    ghost rows_of = { λ m. ⟦<Counted as Module>⟧.rows_of m.counted };

    ghost best = { λ m. ⟦<Counted as Module>⟧.best m.counted };

    ghost left = { λ m. ⟦<Counted as Module>⟧.left m.counted };

    ghost updated = { λ m. ⟦<Counted as Module>⟧.updated m.counted };

    fn columns(&self) -> &[ColumnDef] {
        self.counted.columns()
    }

    fn best_index(
        &self,
        alloc: Global,
        constraints: &[Constraint],
        orders: &[Order],
    ) -> Result<Choice, AllocError> {
        note(&self.offered, constraints, orders);
        self.counted.best_index(alloc, constraints, orders)
    }

    fn filter(&self, alloc: Global, index: i64, args: &[Value]) -> Result<Cursor, AllocError> {
        self.counted.filter(alloc, index, args)
    }

    fn eof(&self, cursor: &Cursor) -> bool {
        self.counted.eof(cursor)
    }

    fn next(&self, alloc: Global, cursor: &mut Cursor) -> Result<(), AllocError> {
        self.counted.next(alloc, cursor)
    }

    fn column(&self, alloc: Global, cursor: &Cursor, at: usize) -> Result<Value, AllocError> {
        self.counted.column(alloc, cursor, at)
    }

    fn update(&mut self, alloc: Global, rows: &[Row]) -> Result<(), UpdateError> {
        self.counted.update(alloc, rows)
    }
}
