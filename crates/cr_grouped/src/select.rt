//! A SELECT resolved whole.

ghost use Rattle.std.specs.Prelude.{◌≡◌};
ghost use Rattle.std.specs.List.{list_all};
ghost use Rattle.cr_resolve.specs.Queries.{is_shown, select as meant};
ghost use Rattle.cr_resolve.specs.Told.{Finds, Passes};
ghost use Rattle.cr_grouped.specs.Grouping.{as_made};
ghost use Rattle.cr_grouped.specs.Finished.{AreGroups, IsFinished, as_groups, unsorted};

use crate::grouping::{is_grouped, is_out_of_place, without_collates};
use crate::query::query_in;
use cr_resolve::naming::Naming;
use cr_resolve::refusal::{Outside, Refusal};
use cr_select::named::{Named, named_query};
use cr_term::query::{GroupTerm, OrderTerm, Query};
use cr_tree::statement::Select;
use sqlite_items::Items;
use std::alloc::Global;

// Whether each term of ORDER BY is a result column.
fn are_shown(order: &[OrderTerm]) -> bool
    ensures { result ≡ list_all is_shown order.now }
{
    order.iter().all(|term| term.result.is_some())
}

// Tests that each term of ORDER BY is a result column beside DISTINCT.
fn check_order(is_distinct: bool, order: &[OrderTerm]) -> Result<(), Refusal>
    ensures { Passes (unsorted is_distinct order.now) result }
{
    if is_distinct && !are_shown(order) {
        Err(Refusal::OutOfProfile(Outside::Distinct))
    } else {
        Ok(())
    }
}

/// Whether a query has groups, and their terms.
#[derive(Drop)]
struct Grouping {
    is_grouped: bool,
    terms: Items<GroupTerm>,
}

// The groups of a query whose names are read, over which everything stands where it may. It is told whether an aggregate
// stands where none may.
#[tactic(none)]
fn grouped(alloc: Global, is_misplaced: bool, named: &Named) -> Result<Grouping, Refusal>
    ensures { AreGroups (as_made is_misplaced named.now) (as_groups result) }
{
    let is_grouped = is_grouped(named);
    let terms = without_collates(alloc, named.groups.as_slice())?;
    if is_out_of_place(is_misplaced, is_grouped, terms.as_slice(), named) {
        return Err(Refusal::Misaggregate);
    }
    Ok(Grouping { is_grouped, terms })
}

// The query over its groups, whose order is one beside DISTINCT.
#[tactic(none)]
fn finished(
    alloc: Global,
    select: &Select,
    grouping: Grouping,
    named: Named,
) -> Result<Query, Refusal>
    ensures { IsFinished select.now grouping.is_grouped grouping.terms named result }
{
    let query = query_in(alloc, select, grouping.is_grouped, grouping.terms, named)?;
    check_order(select.distinct, query.order.as_slice())?;
    Ok(query)
}

/// A SELECT whose names are resolved.
///
/// # Errors
/// The first that stands against one of its names, from left to right; `Misaggregate` where an aggregate stands where none
/// may, or over groups a column that is part of no term and no aggregate; `OutOfProfile(Distinct)` where beside DISTINCT a
/// term of ORDER BY is no result column; `Memory`.
#[tactic(none)]
pub fn select<K: Naming>(alloc: Global, known: &K, select: &Select) -> Result<Query, Refusal>
    ensures { Finds (meant (K.known known.now) select.now) result }
{
    let read = named_query(alloc, known, select)?;
    let is_misplaced = read.is_misplaced;
    let named = read.made;
    let grouping = grouped(alloc, is_misplaced, &named)?;
    finished(alloc, select, grouping, named)
}
