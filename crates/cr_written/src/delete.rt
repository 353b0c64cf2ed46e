//! A DELETE resolved whole.

ghost use Rattle.cr_resolve.specs.Told.{Finds};
ghost use Rattle.cr_resolve.specs.Writes.{delete as meant};

use crate::parts::{check_placed, filter_of, source_of};
use cr_resolve::naming::Naming;
use cr_resolve::refusal::Refusal;
use cr_term::query::Delete;
use cr_tree::statement::Delete as DeleteTree;
use std::alloc::Global;

/// A DELETE whose names are resolved.
///
/// # Errors
/// The first of: `NoSuchTable`; what stands against WHERE; `Misaggregate` where an aggregate stands in it. `Memory`.
#[tactic(none)]
pub fn delete<K: Naming>(alloc: Global, known: &K, delete: &DeleteTree) -> Result<Delete, Refusal>
    ensures { Finds (meant (K.known known.now) delete.now) result }
{
    let source = source_of(alloc, known, &delete.table)?;
    let filter = filter_of(alloc, known, &source, &delete.filter)?;
    check_placed(filter.is_misplaced)?;
    Ok(Delete {
        relation: source.relation,
        filter: filter.made,
    })
}
