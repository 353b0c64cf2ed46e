//! The first question of a SELECT that is denied. Takes no memory.

ghost use Rattle.std.specs.Prelude.{◌≡◌};
ghost use Rattle.std.specs.Option.{option_map, option_to_list};
ghost use Rattle.std.specs.List.{flat_map};
ghost use Rattle.cr_questions.specs.Questions.{asked, asked_all, exprs_of, first_denied, relations_of, select_questions};
ghost use Rattle.cr_questions.specs.Asked.{bare_read_in, bare_read_of, or_first_denied, relations, told};

use crate::answering::Answering;
use crate::denied::{or_any_denied, or_denied, or_question_denied};
use crate::mentions::is_mentioned;
use crate::question::Asked;
use crate::sources::Sources;
use cr_host::meaning::Action;
use cr_term::expr::Expr;
use cr_term::query::{GroupTerm, Joined, OrderTerm, Query, Relation, ResultColumn};

// What was found, else the first question of result columns that is denied.
#[tactic(auto, unfolding(crate::specs::Asked::or_first_denied), using(crate::proofs::Firsts::or_none))]
fn or_results_denied<'a, G: Answering>(
    mut found: Option<Asked<'a>>,
    guard: &G,
    sources: Sources<'a>,
    results: &'a [ResultColumn],
) -> Option<Asked<'a>>
    requires { G.is_faithful guard.now }
    ensures { option_map told result ≡ or_first_denied (G.answers guard.now) (option_map told found.entry) (flat_map (λ r. asked (relations sources.entry) r.expr) results.now) }
{
    for column in results {
        found = or_denied(found, guard, sources, &column.expr);
    }
    found
}

// What was found, else the first question of what stands behind ON that is denied.
#[tactic(auto, unfolding(crate::specs::Asked::or_first_denied), using(crate::proofs::Firsts::or_none))]
fn or_joined_denied<'a, G: Answering>(
    mut found: Option<Asked<'a>>,
    guard: &G,
    sources: Sources<'a>,
    joined: &'a [Joined],
) -> Option<Asked<'a>>
    requires { G.is_faithful guard.now }
    ensures { option_map told result ≡ or_first_denied (G.answers guard.now) (option_map told found.entry) (flat_map (λ j. asked_all (relations sources.entry) j.on) joined.now) }
{
    for source in joined {
        found = or_any_denied(found, guard, sources, source.on.as_slice());
    }
    found
}

// What was found, else the first question of the terms of GROUP BY that is denied.
#[tactic(auto, unfolding(crate::specs::Asked::or_first_denied), using(crate::proofs::Firsts::or_none))]
fn or_groups_denied<'a, G: Answering>(
    mut found: Option<Asked<'a>>,
    guard: &G,
    sources: Sources<'a>,
    groups: &'a [GroupTerm],
) -> Option<Asked<'a>>
    requires { G.is_faithful guard.now }
    ensures { option_map told result ≡ or_first_denied (G.answers guard.now) (option_map told found.entry) (flat_map (λ t. asked (relations sources.entry) t.expr) groups.now) }
{
    for term in groups {
        found = or_denied(found, guard, sources, &term.expr);
    }
    found
}

// What was found, else the first question of the terms of ORDER BY that is denied.
#[tactic(auto, unfolding(crate::specs::Asked::or_first_denied), using(crate::proofs::Firsts::or_none))]
fn or_order_denied<'a, G: Answering>(
    mut found: Option<Asked<'a>>,
    guard: &G,
    sources: Sources<'a>,
    order: &'a [OrderTerm],
) -> Option<Asked<'a>>
    requires { G.is_faithful guard.now }
    ensures { option_map told result ≡ or_first_denied (G.answers guard.now) (option_map told found.entry) (flat_map (λ t. asked (relations sources.entry) t.expr) order.now) }
{
    for term in order {
        found = or_denied(found, guard, sources, &term.expr);
    }
    found
}

// What was found, else the first question of HAVING that is denied.
#[tactic(auto, unfolding(crate::specs::Asked::or_first_denied), using(crate::proofs::Firsts::or_none))]
fn or_having_denied<'a, G: Answering>(
    found: Option<Asked<'a>>,
    guard: &G,
    sources: Sources<'a>,
    having: &'a Option<Expr>,
) -> Option<Asked<'a>>
    requires { G.is_faithful guard.now }
    ensures { option_map told result ≡ or_first_denied (G.answers guard.now) (option_map told found.entry) (asked_all (relations sources.entry) (option_to_list having.now)) }
{
    match having {
        Some(expr) => or_denied(found, guard, sources, expr),
        None => found,
    }
}

// What was found, else the first question of a query's expressions that is denied, in source order.
fn or_exprs_denied<'a, G: Answering>(
    found: Option<Asked<'a>>,
    guard: &G,
    query: &'a Query,
) -> Option<Asked<'a>>
    requires { G.is_faithful guard.now }
    ensures { option_map told result ≡ or_first_denied (G.answers guard.now) (option_map told found.entry) (asked_all (relations_of query.now) (exprs_of query.now)) }
{
    let sources = Sources::Joined(query.joined.as_slice());
    let shown = or_results_denied(found, guard, sources, query.results.as_slice());
    let joined = or_joined_denied(shown, guard, sources, query.joined.as_slice());
    let filtered = or_any_denied(joined, guard, sources, query.filter.as_slice());
    let grouped = or_groups_denied(filtered, guard, sources, query.groups.as_slice());
    let had = or_having_denied(grouped, guard, sources, &query.having);
    or_order_denied(had, guard, sources, query.order.as_slice())
}

// What was found, else the question about a table that no column is referred to of, if it is denied.
#[tactic(auto, unfolding(crate::specs::Asked::or_first_denied), using(crate::proofs::Firsts::or_none))]
fn or_bare_denied<'a, G: Answering>(
    found: Option<Asked<'a>>,
    guard: &G,
    relation: &'a Relation,
    is_mentioned: bool,
) -> Option<Asked<'a>>
    requires { G.is_faithful guard.now }
    ensures { option_map told result ≡ or_first_denied (G.answers guard.now) (option_map told found.entry) (bare_read_of is_mentioned relation.now) }
{
    if is_mentioned {
        return found;
    }
    let question = Asked {
        action: Action::Read,
        a: relation.definition.name.as_str(),
        b: "",
    };
    or_question_denied(found, guard, question)
}

// What was found, else the first question about a table that no column is referred to of that is denied.
#[tactic(auto, unfolding(crate::specs::Asked::or_first_denied), using(crate::proofs::Firsts::or_none))]
fn or_any_bare_denied<'a, G: Answering>(
    mut found: Option<Asked<'a>>,
    guard: &G,
    query: &Query,
    joined: &'a [Joined],
) -> Option<Asked<'a>>
    requires { G.is_faithful guard.now }
    ensures { option_map told result ≡ or_first_denied (G.answers guard.now) (option_map told found.entry) (flat_map (bare_read_in query.now) joined.now) }
{
    for source in joined {
        let is_mentioned = is_mentioned(source.relation.definition.name.as_str(), query);
        found = or_bare_denied(found, guard, &source.relation, is_mentioned);
    }
    found
}

/// The first question of a SELECT that is denied: about the SELECT, its columns and calls in source order, and the tables
/// that no column is referred to of. It asks none behind it, which no clause can say.
pub fn select_denied<'a, G: Answering>(guard: &G, query: &'a Query) -> Option<Asked<'a>>
    requires { G.is_faithful guard.now }
    ensures { option_map told result ≡ first_denied (G.answers guard.now) (select_questions query.now) }
{
    let question = Asked {
        action: Action::Select,
        a: "",
        b: "",
    };
    let found = or_question_denied(None, guard, question);
    let inside = or_exprs_denied(found, guard, query);
    or_any_bare_denied(inside, guard, query, query.joined.as_slice())
}
