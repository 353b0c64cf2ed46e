//! The changes of a list that are of some tables.

ghost use Rattle.std.specs.Prelude.{◌≡◌, IfOk};
ghost use Rattle.cr_touched.specs.Tables.{is_of_one, of_tables};

use cr_lattice::change::Change;
use cr_value::order::same_bytes;
use cr_value::text::Text;
use std::alloc::{AllocError, Global};

fn is_of_one(tables: &[Text], change: &Change) -> bool
    ensures { result ≡ is_of_one tables.now change.now }
{
    let name = change.table.as_str().as_bytes();
    tables
        .iter()
        .any(|table| same_bytes(name, table.as_str().as_bytes()))
}

/// The changes of these tables, in their order.
#[tactic(auto, unfolding(cr_touched::specs::Tables::of_tables))]
pub(crate) fn of_tables(
    alloc: Global,
    changes: &[Change],
    tables: &[Text],
) -> Result<Vec<Change>, AllocError>
    ensures { IfOk result (λ v. v.items ≡ of_tables tables.now changes.now) }
{
    let mut found = Vec::new(alloc);
    for change in changes {
        if is_of_one(tables, change) {
            found.push(change.copy(alloc)?)?;
        }
    }
    Ok(found)
}
