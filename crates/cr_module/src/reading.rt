//! The rows of a module as one list.

ghost use Rattle.std.specs.Prelude.{◌≡◌, false, IfOk, length};
ghost use Rattle.cr_bags.specs.Bags.{SameBag};
ghost use Rattle.cr_module.specs.Lawful.{AreWide, first_row, is_at_end};

use crate::module::{Cursor, Module};
use cr_lattice::table::{Items, Row};
use std::alloc::{AllocError, Global};

// The row on which a reading stands.
fn read_row<M: Module>(
    alloc: Global,
    listed: &M,
    cursor: &Cursor,
    width: usize,
) -> Result<Row, AllocError>
    requires there { is_at_end (M.left listed.now cursor.now) ≡ false }
    requires wide { length (first_row (M.left listed.now cursor.now)) ≡ width }
    ensures { IfOk result (λ row. row ≡ first_row (M.left listed.now cursor.now)) }
{
    let mut values = Vec::new(alloc);
    for at in 0..width {
        values.push(listed.column(alloc, cursor, at)?)?;
    }
    Ok(Items::new(values))
}

/// The rows that a reading has before it, from the one on which it stands to its end.
///
/// # Errors
/// Want of memory, of the module or for the rows.
pub fn read_all<M: Module>(
    alloc: Global,
    listed: &M,
    mut cursor: Cursor,
) -> Result<Items<Row>, AllocError>
    requires { AreWide (M.columns_of listed.now) (M.left listed.now cursor) }
    ensures { IfOk result (λ rows. rows ≡ M.left listed.now cursor) }
{
    let width = listed.columns().len();
    let mut rows = Vec::new(alloc);
    while !listed.eof(&cursor) {
        rows.push(read_row(alloc, listed, &cursor, width)?)?;
        listed.next(alloc, &mut cursor)?;
    }
    Ok(Items::new(rows))
}

/// All rows of a module, in an order that is its own, as it gives them where no constraint is passed.
///
/// # Errors
/// Want of memory, of the module or for the rows.
pub fn rows_of<M: Module>(alloc: Global, listed: &M) -> Result<Items<Row>, AllocError>
    ensures { IfOk result (λ rows. SameBag rows (M.rows_of listed.now)) }
{
    let choice = listed.best_index(alloc, &[], &[])?;
    let cursor = listed.filter(alloc, choice.index, &[])?;
    read_all(alloc, listed, cursor)
}
