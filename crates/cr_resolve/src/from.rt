//! The tables of FROM.

ghost use Rattle.std.specs.Prelude.{Some, None, false};
ghost use Rattle.cr_resolve.specs.Queries.{of_source, written, source, sources_of};
ghost use Rattle.cr_resolve.specs.Told.{Finds};

use crate::known::table;
use crate::naming::Naming;
use crate::refusal::Refusal;
use crate::scope::Source;
use cr_tree::statement::{Source as SourceTree, Tables};
use sqlite_items::Items;
use std::alloc::Global;

// A table under its alias, or under its own name where it has none.
fn source<K: Naming>(alloc: Global, known: &K, tree: &SourceTree) -> Result<Source, Refusal>
    ensures { Finds (source (K.known known.now) (of_source tree.now false None)) result }
{
    let relation = table(alloc, known, &tree.table)?;
    let name = match &tree.alias {
        Some(alias) => alias.copy(alloc)?,
        None => tree.table.copy(alloc)?,
    };
    Ok(Source { name, relation })
}

// The tables of a FROM, from left to right.
#[tactic(auto, using(crate::proofs::Froms::next, crate::proofs::Froms::fails, crate::proofs::Refusals::ahead))]
fn sources_in<K: Naming>(
    alloc: Global,
    known: &K,
    tables: &Tables,
) -> Result<Items<Source>, Refusal>
    ensures { Finds (sources_of (K.known known.now) (written (Some tables.now))) result }
{
    let mut sources = Items::new(alloc);
    sources.push(source(alloc, known, &tables.first)?)?;
    for join in tables.joins.as_slice() {
        sources.push(source(alloc, known, &join.source)?)?;
    }
    Ok(sources)
}

/// The tables of FROM, from left to right; none without a FROM.
///
/// # Errors
/// `NoSuchTable` of the first that is not there; `Memory`.
pub fn sources_of<K: Naming>(
    alloc: Global,
    known: &K,
    from: &Option<Tables>,
) -> Result<Items<Source>, Refusal>
    ensures { Finds (sources_of (K.known known.now) (written from.now)) result }
{
    match from {
        Some(tables) => sources_in(alloc, known, tables),
        None => Ok(Items::new(alloc)),
    }
}
