//! A query whose names are read, before its groups are looked at.

ghost use Rattle.std.specs.Prelude.{true, map};
ghost use Rattle.cr_resolve.specs.Reading.{each};
ghost use Rattle.cr_resolve.specs.Queries.{distinct_collations, group_term, named, or_none, order_term};
ghost use Rattle.cr_resolve.specs.Told.{Passes, Reads};
ghost use Rattle.cr_select.specs.Outputs.{as_result};
ghost use Rattle.cr_select.specs.Named.{as_back, as_front, as_named, back, front, named_in};

use crate::joined::joined_from;
use crate::outputs::{Output, results_of};
use crate::parts::{either, expr_if_any};
use crate::terms::{group_term, order_term};
use cr_questions::operands::collation_of;
use cr_resolve::from::sources_of;
use cr_resolve::known::check_collation;
use cr_resolve::naming::Naming;
use cr_resolve::reading::Made;
use cr_resolve::refusal::Refusal;
use cr_resolve::scope::Source;
use cr_term::expr::Expr;
use cr_term::query::{GroupTerm, Joined, OrderTerm};
use cr_tree::expr::Expr as Tree;
use cr_tree::statement::{Select, Term};
use sqlite_items::{Boxed, Items};
use std::alloc::Global;

/// A query whose names are read, before its groups are looked at.
#[derive(Drop)]
pub struct Named {
    pub results: Items<Output>,
    pub joined: Items<Joined>,
    pub filter: Option<Boxed<Expr>>,
    pub groups: Items<GroupTerm>,
    pub having: Option<Boxed<Expr>>,
    pub order: Items<OrderTerm>,
}

// The terms of GROUP BY, from left to right.
#[tactic(auto, using(crate::proofs::Each::next, crate::proofs::Each::fails, crate::proofs::Each::nothing_left))]
fn groups_in<K: Naming>(
    alloc: Global,
    known: &K,
    sources: &[Source],
    outputs: &[Output],
    trees: &[Tree],
) -> Result<Made<Items<GroupTerm>>, Refusal>
    ensures { Reads (each (map (group_term (K.known known.now) sources.now (map as_result outputs.now)) trees.now)) result }
{
    let mut made = Items::new(alloc);
    let mut is_misplaced = false;
    for tree in trees {
        let term = group_term(alloc, known, sources, outputs, tree)?;
        made.push(term.made)?;
        is_misplaced = either(is_misplaced, term.is_misplaced);
    }
    Ok(Made { made, is_misplaced })
}

// The terms of GROUP BY, none without one.
fn groups_of<K: Naming>(
    alloc: Global,
    known: &K,
    sources: &[Source],
    outputs: &[Output],
    trees: &Option<Items<Tree>>,
) -> Result<Made<Items<GroupTerm>>, Refusal>
    ensures { Reads (each (map (group_term (K.known known.now) sources.now (map as_result outputs.now)) (or_none trees.now))) result }
{
    match trees {
        Some(trees) => groups_in(alloc, known, sources, outputs, trees.as_slice()),
        None => Ok(Made {
            made: Items::new(alloc),
            is_misplaced: false,
        }),
    }
}

// The terms of ORDER BY, from left to right.
#[tactic(auto, using(crate::proofs::Each::next, crate::proofs::Each::fails, crate::proofs::Each::nothing_left))]
fn order_in<K: Naming>(
    alloc: Global,
    known: &K,
    sources: &[Source],
    outputs: &[Output],
    trees: &[Term],
) -> Result<Made<Items<OrderTerm>>, Refusal>
    ensures { Reads (each (map (order_term (K.known known.now) sources.now (map as_result outputs.now)) trees.now)) result }
{
    let mut made = Items::new(alloc);
    let mut is_misplaced = false;
    for tree in trees {
        let term = order_term(alloc, known, sources, outputs, tree)?;
        made.push(term.made)?;
        is_misplaced = either(is_misplaced, term.is_misplaced);
    }
    Ok(Made { made, is_misplaced })
}

// The terms of ORDER BY, none without one.
fn order_of<K: Naming>(
    alloc: Global,
    known: &K,
    sources: &[Source],
    outputs: &[Output],
    trees: &Option<Items<Term>>,
) -> Result<Made<Items<OrderTerm>>, Refusal>
    ensures { Reads (each (map (order_term (K.known known.now) sources.now (map as_result outputs.now)) (or_none trees.now))) result }
{
    match trees {
        Some(trees) => order_in(alloc, known, sources, outputs, trees.as_slice()),
        None => Ok(Made {
            made: Items::new(alloc),
            is_misplaced: false,
        }),
    }
}

// Tests that the collations of result columns are there.
#[tactic(auto, using(crate::proofs::Readings::collation_next, crate::proofs::Readings::collation_fails))]
fn check_all<K: Naming>(alloc: Global, known: &K, outputs: &[Output]) -> Result<(), Refusal>
    ensures { Passes (distinct_collations (K.known known.now) true (map as_result outputs.now)) result }
{
    for output in outputs {
        let collation = collation_of(alloc, &output.expr)?;
        check_collation(alloc, known, &collation)?;
    }
    Ok(())
}

// Tests that the collations are there by which DISTINCT compares result columns.
fn check_distinct<K: Naming>(
    alloc: Global,
    known: &K,
    is_distinct: bool,
    outputs: &[Output],
) -> Result<(), Refusal>
    ensures { Passes (distinct_collations (K.known known.now) is_distinct (map as_result outputs.now)) result }
{
    if is_distinct {
        check_all(alloc, known, outputs)
    } else {
        Ok(())
    }
}

// What stands before GROUP BY.
#[derive(Drop)]
struct Front {
    results: Items<Output>,
    joined: Items<Joined>,
    filter: Option<Boxed<Expr>>,
}

// What stands from GROUP BY on.
#[derive(Drop)]
struct Back {
    groups: Items<GroupTerm>,
    having: Option<Boxed<Expr>>,
    order: Items<OrderTerm>,
}

// The result columns, the tables and WHERE.
#[tactic(auto, using(crate::proofs::Readings::in_results, crate::proofs::Readings::in_ons, crate::proofs::Readings::in_filter, crate::proofs::Readings::front_read))]
fn read_front<K: Naming>(
    alloc: Global,
    known: &K,
    sources: &[Source],
    select: &Select,
) -> Result<Made<Front>, Refusal>
    ensures { Reads (front (K.known known.now) sources.now select.now) (as_front result) }
{
    let results = results_of(alloc, known, sources, select.shown.as_slice())?;
    let joined = joined_from(alloc, known, sources, &select.from)?;
    let filter = expr_if_any(alloc, known, sources, false, &select.filter)?;
    let is_shown_misplaced = either(results.is_misplaced, joined.is_misplaced);
    let is_misplaced = either(is_shown_misplaced, filter.is_misplaced);
    Ok(Made {
        is_misplaced,
        made: Front {
            results: results.made,
            joined: joined.made,
            filter: filter.made,
        },
    })
}

// The terms of GROUP BY, HAVING, the terms of ORDER BY, and what DISTINCT compares by.
#[tactic(auto, using(crate::proofs::Readings::in_groups, crate::proofs::Readings::in_having, crate::proofs::Readings::in_order, crate::proofs::Readings::in_distinct, crate::proofs::Readings::back_read))]
fn read_back<K: Naming>(
    alloc: Global,
    known: &K,
    sources: &[Source],
    outputs: &[Output],
    select: &Select,
) -> Result<Made<Back>, Refusal>
    ensures { Reads (back (K.known known.now) sources.now (map as_result outputs.now) select.now) (as_back result) }
{
    let groups = groups_of(alloc, known, sources, outputs, &select.group)?;
    let having = expr_if_any(alloc, known, sources, true, &select.having)?;
    let order = order_of(alloc, known, sources, outputs, &select.order)?;
    check_distinct(alloc, known, select.distinct, outputs)?;
    Ok(Made {
        is_misplaced: either(
            either(groups.is_misplaced, having.is_misplaced),
            order.is_misplaced,
        ),
        made: Back {
            groups: groups.made,
            having: having.made,
            order: order.made,
        },
    })
}

// A query over the tables of FROM.
#[tactic(auto, using(crate::proofs::Readings::in_front, crate::proofs::Readings::in_back, crate::proofs::Readings::both_read))]
fn named_in<K: Naming>(
    alloc: Global,
    known: &K,
    sources: &[Source],
    select: &Select,
) -> Result<Made<Named>, Refusal>
    ensures { Reads (named_in (K.known known.now) sources.now select.now) (as_named result) }
{
    let front = read_front(alloc, known, sources, select)?;
    let back = read_back(alloc, known, sources, front.made.results.as_slice(), select)?;
    let is_misplaced = either(front.is_misplaced, back.is_misplaced);
    Ok(Made {
        is_misplaced,
        made: Named {
            results: front.made.results,
            joined: front.made.joined,
            filter: front.made.filter,
            groups: back.made.groups,
            having: back.made.having,
            order: back.made.order,
        },
    })
}

/// A query whose names are read: the tables, the result columns, and the rest from left to right.
///
/// # Errors
/// The first that stands against one of its names; `Memory`.
#[tactic(auto, using(crate::proofs::Readings::no_source, crate::proofs::Readings::over_sources))]
pub fn named_query<K: Naming>(
    alloc: Global,
    known: &K,
    select: &Select,
) -> Result<Made<Named>, Refusal>
    ensures { Reads (named (K.known known.now) select.now) (as_named result) }
{
    let sources = sources_of(alloc, known, &select.from)?;
    named_in(alloc, known, sources.as_slice(), select)
}
