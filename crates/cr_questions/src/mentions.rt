//! Which tables a query's columns stand in. Takes no memory.

ghost use Rattle.std.specs.Prelude.{◌≡◌};
ghost use Rattle.std.specs.Option.{option_to_list};
ghost use Rattle.std.specs.List.{flat_map};
ghost use Rattle.cr_term.specs.Parts.{columns};
ghost use Rattle.cr_questions.specs.Questions.{exprs_of, is_read, relations_of};
ghost use Rattle.cr_questions.specs.Asked.{or_is_read, relations};

use crate::reads::{or_any_reads, or_reads};
use crate::sources::Sources;
use cr_term::expr::Expr;
use cr_term::query::{GroupTerm, Joined, OrderTerm, Query, ResultColumn};

// Whether it was found, or one stands in a result column.
#[tactic(auto, unfolding(crate::specs::Asked::or_is_read), using(crate::proofs::Columns::or_false))]
fn or_results_read(
    mut found: bool,
    name: &str,
    sources: Sources<'_>,
    results: &[ResultColumn],
) -> bool
    ensures { result ≡ or_is_read (relations sources.entry) name.now found (flat_map (λ r. columns r.expr) results.now) }
{
    for column in results {
        found = or_reads(found, name, sources, &column.expr);
    }
    found
}

// Whether it was found, or one stands behind ON.
#[tactic(auto, unfolding(crate::specs::Asked::or_is_read), using(crate::proofs::Columns::or_false))]
fn or_joined_read(mut found: bool, name: &str, sources: Sources<'_>, joined: &[Joined]) -> bool
    ensures { result ≡ or_is_read (relations sources.entry) name.now found (flat_map (λ j. flat_map columns j.on) joined.now) }
{
    for source in joined {
        found = or_any_reads(found, name, sources, source.on.as_slice());
    }
    found
}

// Whether it was found, or one stands in a term of GROUP BY.
#[tactic(auto, unfolding(crate::specs::Asked::or_is_read), using(crate::proofs::Columns::or_false))]
fn or_groups_read(mut found: bool, name: &str, sources: Sources<'_>, groups: &[GroupTerm]) -> bool
    ensures { result ≡ or_is_read (relations sources.entry) name.now found (flat_map (λ t. columns t.expr) groups.now) }
{
    for term in groups {
        found = or_reads(found, name, sources, &term.expr);
    }
    found
}

// Whether it was found, or one stands in a term of ORDER BY.
#[tactic(auto, unfolding(crate::specs::Asked::or_is_read), using(crate::proofs::Columns::or_false))]
fn or_order_reads(mut found: bool, name: &str, sources: Sources<'_>, order: &[OrderTerm]) -> bool
    ensures { result ≡ or_is_read (relations sources.entry) name.now found (flat_map (λ t. columns t.expr) order.now) }
{
    for term in order {
        found = or_reads(found, name, sources, &term.expr);
    }
    found
}

// Whether it was found, or one stands in HAVING.
#[tactic(auto, unfolding(crate::specs::Asked::or_is_read), using(crate::proofs::Columns::or_false))]
fn or_having_reads(found: bool, name: &str, sources: Sources<'_>, having: &Option<Expr>) -> bool
    ensures { result ≡ or_is_read (relations sources.entry) name.now found (flat_map columns (option_to_list having.now)) }
{
    match having {
        Some(expr) => or_reads(found, name, sources, expr),
        None => found,
    }
}

// Whether it was found, or one stands in a query's expressions.
fn or_exprs_read(found: bool, name: &str, query: &Query) -> bool
    ensures { result ≡ or_is_read (relations_of query.now) name.now found (flat_map columns (exprs_of query.now)) }
{
    let sources = Sources::Joined(query.joined.as_slice());
    let shown = or_results_read(found, name, sources, query.results.as_slice());
    let joined = or_joined_read(shown, name, sources, query.joined.as_slice());
    let filtered = or_any_reads(joined, name, sources, query.filter.as_slice());
    let grouped = or_groups_read(filtered, name, sources, query.groups.as_slice());
    let had = or_having_reads(grouped, name, sources, &query.having);
    or_order_reads(had, name, sources, query.order.as_slice())
}

/// Whether a query refers to a column of the table of that name, in whichever source.
#[tactic(auto, unfolding(crate::specs::Asked::or_is_read))]
pub fn is_mentioned(name: &str, query: &Query) -> bool
    ensures { result ≡ is_read (relations_of query.now) (flat_map columns (exprs_of query.now)) name.now }
{
    or_exprs_read(false, name, query)
}
