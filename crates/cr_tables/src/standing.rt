//! Where a reading of a table stands.

ghost use Rattle.std.specs.Prelude.{◌≡◌, false, length, IfOk, OnErr, OnOk};
ghost use Rattle.cr_lattice.specs.Rows.{rows};
ghost use Rattle.cr_module.specs.Lawful.{first_row, head_value, is_at_end, rest_of, value_at};
ghost use Rattle.cr_tables.specs.Views.{rows_before};

use crate::changes::{WIDTH, change_value};
use crate::shown::{Shown, read_shown};
use cr_lattice::change::Change;
use cr_lattice::rows::{are_by_key, rows};
use cr_lattice::stamped::Stamped;
use cr_lattice::table::{Row, TableDef};
use cr_value::value::Value;
use std::alloc::{AllocError, Global};

/// Where a reading of a table stands.
#[derive(Drop)]
pub enum Standing<'a> {
    /// On a row that kept changes show, which stand by their keys. A row is made as it is asked for.
    Shown(Shown<'a>),
    /// On one of the rows that kept changes in another order show, which were made at once.
    Made(Vec<Row>, usize),
    /// On a cell of the table of changes.
    Changes(&'a [Stamped]),
    /// On a row of a module.
    Listed(&'a [Row]),
}

// A reading of the rows that kept changes show of a table.
pub(crate) fn read_kept<'a>(
    alloc: Global,
    kept: &'a [Change],
    definition: &'a TableDef,
) -> Result<Standing<'a>, AllocError>
    ensures { IfOk result (λ s. rows_before s ≡ rows kept.now definition.now) }
{
    if are_by_key(kept) {
        return Ok(Standing::Shown(read_shown(alloc, definition, kept)?));
    }
    Ok(Standing::Made(rows(alloc, kept, definition)?, 0))
}

// A value of a row, NULL where it has none there.
fn value_of(alloc: Global, row: &Row, at: usize) -> Result<Value, AllocError>
    ensures { IfOk result (λ v. v ≡ value_at at row.now) }
{
    match row.as_slice().get(at) {
        Some(value) => value.copy(alloc),
        None => Ok(Value::Null),
    }
}

impl Standing<'_> {
    /// Whether no row is left.
    pub fn is_at_end(&self) -> bool
        ensures { result ≡ is_at_end (rows_before self.now) }
    {
        match self {
            Standing::Shown(shown) => shown.is_at_end(),
            Standing::Made(rows, at) => *at >= rows.len(),
            Standing::Changes(cells) => cells.is_empty(),
            Standing::Listed(rows) => rows.is_empty(),
        }
    }

    /// How many values the row has on which the reading stands, which is not at its end.
    pub fn width(&self) -> usize
        requires { is_at_end (rows_before self.now) ≡ false }
        ensures { result ≡ length (first_row (rows_before self.now)) }
    {
        match self {
            Standing::Shown(shown) => shown.width(),
            Standing::Made(rows, at) => rows[*at].as_slice().len(),
            Standing::Changes(_) => WIDTH,
            Standing::Listed(rows) => rows[0].as_slice().len(),
        }
    }

    /// The value of a column of the row on which the reading stands, which is not at its end; NULL where there is no such column.
    ///
    /// # Errors
    /// Want of memory.
    pub fn column(&self, alloc: Global, at: usize) -> Result<Value, AllocError>
        requires { is_at_end (rows_before self.now) ≡ false }
        ensures { IfOk result (λ v. v ≡ head_value at (rows_before self.now)) }
    {
        match self {
            Standing::Shown(shown) => shown.column(alloc, at),
            Standing::Made(rows, place) => value_of(alloc, &rows[*place], at),
            Standing::Changes(cells) => change_value(alloc, &cells[0], at),
            Standing::Listed(rows) => value_of(alloc, &rows[0], at),
        }
    }

    /// Goes on to the next row. The reading is not at its end.
    ///
    /// # Errors
    /// Want of memory; then the reading stands where it stood.
    pub fn advance(&mut self, alloc: Global) -> Result<(), AllocError>
        requires { is_at_end (rows_before self.old) ≡ false }
        ensures goes_on { OnOk result (rows_before self.new ≡ rest_of (rows_before self.old)) }
        ensures stands { OnErr result (rows_before self.new ≡ rows_before self.old) }
    {
        match self {
            Standing::Shown(shown) => shown.advance(alloc)?,
            Standing::Made(_, at) => *at += 1,
            Standing::Changes(cells) => *cells = &cells[1..],
            Standing::Listed(rows) => *rows = &rows[1..],
        }
        Ok(())
    }
}
