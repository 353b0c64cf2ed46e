//! What a listener hears of the keys that changes touch.

ghost use Rattle.std.specs.Prelude.{◌≡◌, ◌↔◌, IfOk, IfSome, IsSome};
ghost use Rattle.cr_lattice.specs.Rows.{rows};
ghost use Rattle.cr_guard.specs.Heard.{AreByKey};
ghost use Rattle.cr_heard.specs.Touched.{AreShownByKey, AreSound, IsSoundOf, heard_of_keys};

use crate::touched::Touched;
use cr_guard::event::Event;
use cr_guard::heard::{are_by_key, heard};
use cr_lattice::change::Change;
use cr_lattice::merge::merge;
use cr_lattice::rows::{changes_of_table, rows};
use cr_lattice::table::{Row, TableDef};
use cr_wanted::values::read_rows;
use std::alloc::{AllocError, Global};

// The rows that a table shows; `None` where they do not stand by their keys.
fn shown_by_key(
    alloc: Global,
    definition: &TableDef,
    kept: &[Change],
) -> Result<Option<Vec<Row>>, AllocError>
    ensures rows { IfOk result (λ o. IfSome o (λ v. v.items ≡ rows kept.now definition.now)) }
    ensures keyed { IfOk result (λ o. IsSome o ↔ AreByKey definition.now (rows kept.now definition.now)) }
    ensures sound { IsSoundOf definition.now kept.now → IfOk result (λ o. IsSome o) }
{
    let shown = rows(alloc, kept, definition)?;
    read_rows(&shown);
    if !are_by_key(alloc, definition, &shown)? {
        return Ok(None);
    }
    Ok(Some(shown))
}

/// What a listener hears of these keys, where that is kept of them and these changes come in. `None` where the rows of
/// either time do not stand by their keys, which those of a sound store do. Fails for want of memory alone.
pub fn heard_of_keys(
    alloc: Global,
    touched: &Touched,
    kept: &[Change],
    changes: &[Change],
) -> Result<Option<Vec<Event>>, AllocError>
    ensures heard { IfOk result (λ o. IfSome o (λ v. v.items ≡ heard_of_keys kept.now changes.now touched.now)) }
    ensures keyed { IfOk result (λ o. IsSome o ↔ AreShownByKey kept.now changes.now touched.now) }
    ensures sound { AreSound kept.now changes.now touched.now → IfOk result (λ o. IsSome o) }
{
    let definition = &touched.definition;
    let Some(before) = shown_by_key(alloc, definition, kept)? else {
        return Ok(None);
    };
    let own = changes_of_table(alloc, changes, definition.name.as_str())?;
    let joined = merge(alloc, kept, &own)?;
    let Some(after) = shown_by_key(alloc, definition, &joined)? else {
        return Ok(None);
    };
    Ok(Some(heard(alloc, definition, &before, &after)?))
}
