//! Groups: whether a query has them, their terms, and whether a column stands bare over them.

ghost use Rattle.std.specs.Prelude.{◌≡◌, ◌||◌, IfOk};
ghost use Rattle.std.specs.Option.{is_some, option_to_list};
ghost use Rattle.std.specs.List.{flat_map};
ghost use Rattle.cr_resolve.specs.Queries.{is_grouped};
ghost use Rattle.cr_select.specs.Aggregates.{or_any};
ghost use Rattle.cr_select.specs.Named.{as_query};
ghost use Rattle.cr_select.specs.Placed.{bares, exprs_of, or_bare};
ghost use Rattle.cr_grouped.specs.Grouping.{as_made, has_clause, is_out_of_place, order_aggregates, order_bares, output_aggregates, output_bares, without_collates};

use cr_build::copy::copy;
use cr_select::aggregates::or_aggregates;
use cr_select::named::Named;
use cr_select::outputs::Output;
use cr_select::placed::or_bare;
use cr_term::expr::Expr;
use cr_term::query::{GroupTerm, OrderTerm};
use cr_term::terms::without_collate;
use sqlite_items::{Boxed, Items};
use std::alloc::{AllocError, Global};

// ---- whether there are groups

// Whether GROUP BY or HAVING stands in a query.
fn has_clause(named: &Named) -> bool
    ensures { result ≡ has_clause named.now }
{
    named.groups.len() > 0 || named.having.is_some()
}

// Whether it was found, or an aggregate stands in a result column.
#[tactic(auto, unfolding(cr_select::specs::Aggregates::or_any), using(cr_select::proofs::Each::or_false))]
fn or_in_results(mut found: bool, outputs: &[Output]) -> bool
    ensures { result ≡ or_any found (flat_map output_aggregates outputs.now) }
{
    for output in outputs {
        found = or_aggregates(found, &output.expr);
    }
    found
}

// Whether it was found, or an aggregate stands in a term of ORDER BY.
#[tactic(auto, unfolding(cr_select::specs::Aggregates::or_any), using(cr_select::proofs::Each::or_false))]
fn or_in_order(mut found: bool, terms: &[OrderTerm]) -> bool
    ensures { result ≡ or_any found (flat_map order_aggregates terms.now) }
{
    for term in terms {
        found = or_aggregates(found, &term.expr);
    }
    found
}

/// Whether a query has groups: GROUP BY, HAVING or an aggregate makes them. Takes no memory.
#[tactic(none)]
pub fn is_grouped(named: &Named) -> bool
    ensures { result ≡ is_grouped (as_query named.now) }
{
    let found = has_clause(named);
    let found = or_in_results(found, named.results.as_slice());
    or_in_order(found, named.order.as_slice())
}

// ---- their terms

/// The terms of GROUP BY without a COLLATE around them; each keeps the collation of its classes.
///
/// # Errors
/// Where memory runs out.
pub fn without_collates(alloc: Global, groups: &[GroupTerm]) -> Result<Items<GroupTerm>, AllocError>
    ensures { IfOk result (λ gs. gs ≡ without_collates groups.now) }
{
    let mut terms = Items::new(alloc);
    for group in groups {
        let collation = group.collation.copy(alloc)?;
        let expr = copy(alloc, without_collate(&group.expr))?;
        terms.push(GroupTerm { expr, collation })?;
    }
    Ok(terms)
}

// ---- columns that stand bare

// Whether it was found, or a column stands bare in a result column.
#[tactic(auto, unfolding(cr_select::specs::Placed::or_bare), using(cr_select::proofs::Each::or_false))]
fn or_results_bare(mut found: bool, terms: &[GroupTerm], outputs: &[Output]) -> bool
    ensures { result ≡ or_bare found (flat_map (output_bares terms.now) outputs.now) }
{
    for output in outputs {
        found = or_bare(found, terms, &output.expr);
    }
    found
}

// Whether it was found, or a column stands bare in HAVING.
#[tactic(auto, unfolding(cr_select::specs::Placed::or_bare), using(cr_select::proofs::Each::or_false))]
fn or_having_bare(found: bool, terms: &[GroupTerm], having: &Option<Boxed<Expr>>) -> bool
    ensures { result ≡ or_bare found (flat_map (bares (exprs_of terms.now)) (option_to_list having.now)) }
{
    match having {
        Some(having) => or_bare(found, terms, having.get()),
        None => found,
    }
}

// Whether it was found, or a column stands bare in a term of ORDER BY.
#[tactic(auto, unfolding(cr_select::specs::Placed::or_bare), using(cr_select::proofs::Each::or_false))]
fn or_order_bare(mut found: bool, terms: &[GroupTerm], order: &[OrderTerm]) -> bool
    ensures { result ≡ or_bare found (flat_map (order_bares terms.now) order.now) }
{
    for term in order {
        found = or_bare(found, terms, &term.expr);
    }
    found
}

/// Whether an aggregate or a column stands where it must not: over groups, every column is part of a term or of an
/// aggregate. It is told whether an aggregate was found where none may stand. Takes no memory.
#[tactic(none)]
pub fn is_out_of_place(
    is_misplaced: bool,
    is_grouped: bool,
    terms: &[GroupTerm],
    named: &Named,
) -> bool
    ensures { result ≡ is_out_of_place is_grouped terms.now (as_made is_misplaced named.now) }
{
    if is_misplaced {
        return true;
    }
    if !is_grouped {
        return false;
    }
    let found = or_results_bare(false, terms, named.results.as_slice());
    let found = or_having_bare(found, terms, &named.having);
    or_order_bare(found, terms, named.order.as_slice())
}
