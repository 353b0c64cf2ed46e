//! Rows that are to be well-formed changes.

ghost use Rattle.cr_received.specs.Received.{TellsChange, TellsChanges};

use crate::change::change_of;
use cr_cells::tables::check_in;
use cr_lattice::change::Change;
use cr_lattice::check::{BadChange, CheckError};
use cr_lattice::table::{Row, Table};
use cr_value::value::Value;
use cr_world::refusal::Refusal;
use std::alloc::{AllocError, Global};

// The change of a row.
fn change_in(alloc: Global, tables: &[Table], row: &[Value]) -> Result<Change, Refusal>
    ensures { TellsChange tables.now row.now result }
{
    let Some(change) = change_of(alloc, row)? else {
        return Err(Refusal::BadChange(BadChange::Shape));
    };
    match check_in(alloc, tables, &change) {
        Ok(()) => Ok(change),
        Err(CheckError::Bad(reason)) => Err(Refusal::BadChange(reason)),
        Err(CheckError::Memory) => Err(Refusal::Memory),
    }
}

/// The changes that rows of the table of changes tell of.
///
/// # Errors
/// `BadChange` with the reason why the first that is no well-formed change of a replicated table is none; `Memory`.
pub fn changes_in(alloc: Global, tables: &[Table], rows: &[Row]) -> Result<Vec<Change>, Refusal>
    ensures { TellsChanges (λ v. v.items) tables.now rows.now result }
{
    let mut changes = Vec::new(alloc);
    for row in rows {
        let change = change_in(alloc, tables, row.as_slice())?;
        match changes.push(change) {
            Ok(()) => {}
            Err(_) => return Err(Refusal::Memory),
        }
    }
    Ok(changes)
}
