//! The first question of a statement that is denied. Takes no memory.

ghost use Rattle.std.specs.Prelude.{◌≡◌, ◌∷◌, []};
ghost use Rattle.std.specs.Option.{option_map, option_to_list};
ghost use Rattle.std.specs.List.{flat_map};
ghost use Rattle.cr_questions.specs.Questions.{asked, asked_all, first_denied};
ghost use Rattle.cr_questions.specs.Asked.{arm_questions, or_first_denied, own_question, part_questions, relations, told};

use crate::answering::Answering;
use crate::asked::question_of;
use crate::question::Asked;
use crate::sources::Sources;
use cr_host::meaning::Auth;
use cr_term::expr::{Expr, When};
use sqlite_items::Boxed;

// The question, if it is denied.
fn if_denied<'a, G: Answering>(guard: &G, question: Asked<'a>) -> Option<Asked<'a>>
    requires { G.is_faithful guard.now }
    ensures { option_map told result ≡ first_denied (G.answers guard.now) (told question.entry ∷ []) }
{
    match guard.answer(question.action, question.a, question.b) {
        Auth::Deny => Some(question),
        Auth::Ok | Auth::Ignore => None,
    }
}

/// What was found, else the question, if it is denied. Takes no memory.
#[tactic(auto, unfolding(crate::specs::Asked::or_first_denied))]
pub fn or_question_denied<'a, G: Answering>(
    found: Option<Asked<'a>>,
    guard: &G,
    question: Asked<'a>,
) -> Option<Asked<'a>>
    requires { G.is_faithful guard.now }
    ensures { option_map told result ≡ or_first_denied (G.answers guard.now) (option_map told found.entry) (told question.entry ∷ []) }
{
    match found {
        Some(question) => Some(question),
        None => if_denied(guard, question),
    }
}

// The question about an expression's own node, if it is denied.
fn own_denial<'a, G: Answering>(
    guard: &G,
    sources: Sources<'a>,
    expr: &'a Expr,
) -> Option<Asked<'a>>
    requires { G.is_faithful guard.now }
    ensures { option_map told result ≡ first_denied (G.answers guard.now) (option_to_list (own_question (relations sources.entry) expr.now)) }
{
    match question_of(sources, expr) {
        Some(question) => if_denied(guard, question),
        None => None,
    }
}

/// What was found, else the first question of an expression that is denied: from left to right, a call's before those of
/// its arguments. It asks none behind it, which no clause can say.
#[cycle(denied)]
#[tactic(auto, unfolding(crate::specs::Asked::or_first_denied), using(crate::proofs::Denials::node_denied))]
pub fn or_denied<'a, G: Answering>(
    found: Option<Asked<'a>>,
    guard: &G,
    sources: Sources<'a>,
    expr: &'a Expr,
) -> Option<Asked<'a>>
    requires { G.is_faithful guard.now }
    ensures { option_map told result ≡ or_first_denied (G.answers guard.now) (option_map told found.entry) (asked (relations sources.entry) expr.now) }
{
    match found {
        Some(question) => Some(question),
        None => or_part_denied(own_denial(guard, sources, expr), guard, sources, expr),
    }
}

/// What was found, else the first question of several expressions that is denied. Takes no memory.
#[cycle(denied)]
#[tactic(auto, unfolding(crate::specs::Asked::or_first_denied), using(crate::proofs::Firsts::or_assoc, crate::proofs::Firsts::or_none))]
pub fn or_any_denied<'a, G: Answering>(
    mut found: Option<Asked<'a>>,
    guard: &G,
    sources: Sources<'a>,
    exprs: &'a [Expr],
) -> Option<Asked<'a>>
    requires { G.is_faithful guard.now }
    ensures { option_map told result ≡ or_first_denied (G.answers guard.now) (option_map told found.entry) (asked_all (relations sources.entry) exprs.now) }
{
    for expr in exprs {
        found = or_denied(found, guard, sources, expr);
    }
    found
}

// What was found, else the first question of the arms of a CASE that is denied.
#[cycle(denied)]
#[tactic(auto, unfolding(crate::specs::Asked::or_first_denied), using(crate::proofs::Firsts::or_assoc, crate::proofs::Firsts::or_none))]
fn or_arm_denied<'a, G: Answering>(
    mut found: Option<Asked<'a>>,
    guard: &G,
    sources: Sources<'a>,
    arms: &'a [When],
) -> Option<Asked<'a>>
    requires { G.is_faithful guard.now }
    ensures { option_map told result ≡ or_first_denied (G.answers guard.now) (option_map told found.entry) (flat_map (arm_questions (relations sources.entry)) arms.now) }
{
    for arm in arms {
        found = or_denied(found, guard, sources, &arm.when);
        found = or_denied(found, guard, sources, &arm.then);
    }
    found
}

// What was found, else the first question of an expression that need not be there.
#[cycle(denied)]
#[tactic(auto, unfolding(crate::specs::Asked::or_first_denied), using(crate::proofs::Firsts::or_none))]
fn or_denied_if_any<'a, G: Answering>(
    found: Option<Asked<'a>>,
    guard: &G,
    sources: Sources<'a>,
    expr: &'a Option<Boxed<Expr>>,
) -> Option<Asked<'a>>
    requires { G.is_faithful guard.now }
    ensures { option_map told result ≡ or_first_denied (G.answers guard.now) (option_map told found.entry) (asked_all (relations sources.entry) (option_to_list expr.now)) }
{
    match expr {
        Some(expr) => or_denied(found, guard, sources, expr.get()),
        None => found,
    }
}

// What was found, else the first question of an expression's parts that is denied.
#[cycle(denied)]
#[tactic(auto, unfolding(crate::specs::Asked::or_first_denied), using(crate::proofs::Firsts::or_assoc, crate::proofs::Firsts::or_none))]
fn or_part_denied<'a, G: Answering>(
    found: Option<Asked<'a>>,
    guard: &G,
    sources: Sources<'a>,
    expr: &'a Expr,
) -> Option<Asked<'a>>
    requires { G.is_faithful guard.now }
    ensures { option_map told result ≡ or_first_denied (G.answers guard.now) (option_map told found.entry) (part_questions (relations sources.entry) expr.now) }
{
    match expr {
        Expr::Literal(_)
        | Expr::Param(_)
        | Expr::Column(_)
        | Expr::SiteId(_)
        | Expr::DbVersion(_) => found,
        Expr::Shown(_, operand)
        | Expr::Unary(_, operand)
        | Expr::Collate(operand, _)
        | Expr::Cast(_, operand) => or_denied(found, guard, sources, operand.get()),
        Expr::Arithmetic(_, left, right)
        | Expr::Join(left, right)
        | Expr::Like(_, left, right)
        | Expr::Logic(_, left, right)
        | Expr::Compare(_, _, left, right) => {
            let found = or_denied(found, guard, sources, left.get());
            or_denied(found, guard, sources, right.get())
        }
        Expr::In(_, _, operand, items) => {
            let found = or_denied(found, guard, sources, operand.get());
            or_any_denied(found, guard, sources, items.as_slice())
        }
        Expr::Between(_, _, _, operand, low, high) => {
            let found = or_denied(found, guard, sources, operand.get());
            let found = or_denied(found, guard, sources, low.get());
            or_denied(found, guard, sources, high.get())
        }
        Expr::Case(operand, arms, otherwise) => {
            let found = or_denied_if_any(found, guard, sources, operand);
            let found = or_arm_denied(found, guard, sources, arms.as_slice());
            or_denied_if_any(found, guard, sources, otherwise)
        }
        Expr::BuiltIn(_, args) | Expr::Host(_, args) | Expr::Aggregate(_, args) => {
            or_any_denied(found, guard, sources, args.as_slice())
        }
    }
}
