//! What a table module is. "The Virtual Table Mechanism Of SQLite", section 2.

ghost use Rattle.std.specs.Prelude.{◌≡◌, ◌∷◌, [], false, IfOk, OnOk, OnErr};
ghost use Rattle.cr_module.specs.Lawful.{IsChoice, IsFiltered, IsUpdated, Stays, AreWide, behind, head_value, is_at_end, rest_of};

use crate::plan::{Choice, Constraint, Order};
use cr_lattice::table::{ColumnDef, Items, Row};
use cr_value::text::Text;
use cr_value::value::Value;
use std::alloc::{AllocError, Global};
use thiserror::Error;

/// Where a reading of a module stands.
#[derive(Debug, Drop)]
pub struct Cursor {
    /// The index by which the module is read.
    pub index: i64,
    /// The arguments of the constraints that are passed.
    pub args: Items<Value>,
    /// How far the reading is.
    pub at: usize,
}

/// Why a module takes no rows.
#[derive(Debug, Drop, Error)]
pub enum UpdateError {
    /// Its rows can't be changed.
    #[error("the table may not be modified")]
    ReadOnly,
    /// What the host says.
    #[error("{0}")]
    Host(Text),
    /// Memory ran out.
    #[error("out of memory")]
    Memory,
}

/// A table whose rows a host has, which the host registers under a name.
///
/// A reading asks `best_index` which index serves, and with which arguments; then `filter` gives a cursor on the first of the
/// rows, and until `eof` the columns of its row are asked for and `next` goes on. While it is read, a module stays as it is.
pub trait Module: Drop {
    ghost use Rattle.std.specs.Prelude.{List};
    ghost use Rattle.cr_lattice.specs.declared.table.ColumnDef.{ColumnDef};
    ghost use Rattle.cr_query.specs.Query.{Row as Values};
    ghost use Rattle.cr_module.specs.Lawful.{Updates};
    ghost use Rattle.cr_module.specs.declared.module.Cursor.{Cursor};
    ghost use Rattle.cr_module.specs.declared.plan.Choice.{Choice};
    ghost use Rattle.cr_module.specs.declared.plan.Constraint.{Constraint};
    ghost use Rattle.cr_module.specs.declared.plan.Order.{Order};

    /// Its columns.
    ghost columns_of: { Self → List ColumnDef };

    /// Its rows.
    ghost rows_of: { Self → List Values };

    /// What it chooses where these constraints and this order are offered.
    ghost best: { Self → List Constraint → List Order → Choice };

    /// The rows that a cursor has before it, the row that it stands on first.
    ghost left: { Self → Cursor → List Values };

    /// Its rows once it took these lists, one update after another, or why it doesn't take one of them.
    ghost updated: { Self → Updates };

    /// Its columns. That they are at least one, with names in ASCII lower case, each another, is on the host's word: no promise
    /// rests on it, but a statement finds no column by a name in another case, and one that two columns have is ambiguous.
    fn columns(&self) -> &[ColumnDef]
        ensures { result.now ≡ columns_of self.now };

    /// What it chooses of these constraints and this order: constraints that are usable, for arguments; of these, which it
    /// checks itself; the index; the cost, on which nothing rests; and whether rows come in the order.
    ///
    /// # Errors
    /// Want of memory.
    fn best_index(
        &self,
        alloc: Global,
        constraints: &[Constraint],
        orders: &[Order],
    ) -> Result<Choice, AllocError>
        ensures best { IfOk result (λ c. c ≡ best self.now constraints.now orders.now) }
        ensures usable { IfOk result (IsChoice constraints.now) };

    /// A reading by an index that it chose, with the arguments of the constraints that it chose then. Of its rows it gives each
    /// at most as often as it has it, and leaves none out that meets these constraints; each row meets those that it checks
    /// itself, and where it said so rows come in the order that was offered. Each of its rows has a value for each column.
    ///
    /// # Errors
    /// Want of memory.
    fn filter(&self, alloc: Global, index: i64, args: &[Value]) -> Result<Cursor, AllocError>
        ensures filtered { IfOk result (λ c. IsFiltered (best self.now) (rows_of self.now) index args.now (left self.now c)) }
        ensures wide { IfOk result (λ c. AreWide (columns_of self.now) (left self.now c)) }
        ensures all_wide { IfOk result (λ _. AreWide (columns_of self.now) (rows_of self.now)) };

    /// Whether a reading has come to its end.
    fn eof(&self, cursor: &Cursor) -> bool
        ensures { result ≡ is_at_end (left self.now cursor.now) };

    /// Goes on to the next row. The reading is not at its end.
    ///
    /// # Errors
    /// Want of memory; then the cursor serves no more.
    fn next(&self, alloc: Global, cursor: &mut Cursor) -> Result<(), AllocError>
        requires { is_at_end (left self.now cursor.old) ≡ false }
        ensures { OnOk result (left self.now cursor.new ≡ rest_of (left self.now cursor.old)) };

    /// The value of a column, by its place from 0 on, of the row on which a reading stands, which is not at its end.
    ///
    /// # Errors
    /// Want of memory.
    fn column(&self, alloc: Global, cursor: &Cursor, at: usize) -> Result<Value, AllocError>
        requires { is_at_end (left self.now cursor.now) ≡ false }
        ensures { IfOk result (λ v. v ≡ head_value at (left self.now cursor.now)) };

    /// Takes rows, all or none, each with a value for each column.
    ///
    /// # Errors
    /// `ReadOnly`, what the host says, or want of memory. Then its rows are as before.
    fn update(&mut self, alloc: Global, rows: &[Row]) -> Result<(), UpdateError>
        requires { AreWide (columns_of self.old) rows.now }
        ensures columns { columns_of self.new ≡ columns_of self.old }
        ensures updated { IsUpdated (updated self.old (rows.now ∷ [])) (rows_of self.new) result }
        ensures later { OnOk result (updated self.new ≡ behind rows.now (updated self.old)) }
        ensures stays { OnErr result (Stays (rows_of self.old) (updated self.old) (rows_of self.new) (updated self.new)) };
}
