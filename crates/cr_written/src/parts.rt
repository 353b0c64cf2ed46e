//! The table of an UPDATE or a DELETE with its WHERE, and where aggregates may stand.

ghost use Rattle.cr_resolve.specs.declared.refusal.Refusal.TheVariants.{Misaggregate};
ghost use Rattle.cr_resolve.specs.Reading.{when};
ghost use Rattle.cr_resolve.specs.Told.{Finds, Passes, Reads};
ghost use Rattle.cr_written.specs.Parts.{filter_of, source_of};

use cr_resolve::known::table;
use cr_resolve::naming::Naming;
use cr_resolve::reading::Made;
use cr_resolve::refusal::Refusal;
use cr_resolve::scope::Source;
use cr_select::parts::{expr_if_any, terms_of};
use cr_term::expr::Expr;
use cr_tree::expr::Expr as Tree;
use cr_value::text::Text;
use sqlite_items::Items;
use std::alloc::Global;
use std::slice;

/// Tests that no aggregate stands where none may.
///
/// # Errors
/// `Misaggregate` just where one does.
pub(crate) fn check_placed(is_misplaced: bool) -> Result<(), Refusal>
    ensures { Passes (when is_misplaced Misaggregate) result }
{
    if is_misplaced {
        Err(Refusal::Misaggregate)
    } else {
        Ok(())
    }
}

/// The one table of a statement, under its own name.
///
/// # Errors
/// `NoSuchTable` just where there is none; `Memory`.
pub(crate) fn source_of<K: Naming>(alloc: Global, known: &K, name: &Text) -> Result<Source, Refusal>
    ensures { Finds (source_of (K.known known.now) name.now) result }
{
    let relation = table(alloc, known, name)?;
    Ok(Source {
        name: name.copy(alloc)?,
        relation,
    })
}

/// The AND-terms of WHERE over one table, none without one.
///
/// # Errors
/// The first that stands against one of its names; `Memory`.
pub(crate) fn filter_of<K: Naming>(
    alloc: Global,
    known: &K,
    source: &Source,
    filter: &Option<Tree>,
) -> Result<Made<Items<Expr>>, Refusal>
    ensures { Reads (filter_of (K.known known.now) source.now filter.now) result }
{
    let filter = expr_if_any(alloc, known, slice::from_ref(source), false, filter)?;
    Ok(Made {
        made: terms_of(alloc, filter.made)?,
        is_misplaced: filter.is_misplaced,
    })
}
