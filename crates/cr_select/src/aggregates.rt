//! Whether an aggregate stands in an expression. Takes no memory.

ghost use Rattle.std.specs.Prelude.{◌≡◌, ◌∷◌, []};
ghost use Rattle.std.specs.Option.{option_to_list};
ghost use Rattle.std.specs.List.{flat_map};
ghost use Rattle.cr_term.specs.declared.expr.Expr.{out-Expr};
ghost use Rattle.cr_term.specs.Parts.{aggregates, aggregates_layer};
ghost use Rattle.cr_questions.specs.Asked.{parts_of};
ghost use Rattle.cr_resolve.specs.Queries.{has_aggregate_in};
ghost use Rattle.cr_select.specs.Aggregates.{any, or_any, own_kinds, arm_aggregates};

use cr_term::expr::{Expr, When};
use sqlite_items::Boxed;

// Whether an expression is an aggregate itself.
fn is_aggregate(expr: &Expr) -> bool
    ensures { result ≡ any (own_kinds (out-Expr expr.now)) }
{
    match expr {
        Expr::Aggregate(..) => true,
        _ => false,
    }
}

/// Whether it was found, or an aggregate stands in an expression.
#[cycle(aggregates)]
#[tactic(auto, unfolding(crate::specs::Aggregates::or_any), using(crate::proofs::Found::node_any))]
pub fn or_aggregates(found: bool, expr: &Expr) -> bool
    ensures { result ≡ or_any found (aggregates expr.now) }
{
    if found {
        return true;
    }
    or_part_aggregates(is_aggregate(expr), expr)
}

// Whether it was found, or an aggregate stands in one of several expressions.
#[cycle(aggregates)]
#[tactic(auto, unfolding(crate::specs::Aggregates::or_any), using(crate::proofs::Found::or_more, crate::proofs::Each::or_false))]
fn or_any_aggregates(mut found: bool, exprs: &[Expr]) -> bool
    ensures { result ≡ or_any found (flat_map aggregates exprs.now) }
{
    for expr in exprs {
        found = or_aggregates(found, expr);
    }
    found
}

// Whether it was found, or one stands in an arm of a CASE.
#[cycle(aggregates)]
#[tactic(auto, unfolding(crate::specs::Aggregates::or_any), using(crate::proofs::Found::or_more, crate::proofs::Each::or_false))]
fn or_arm_aggregates(mut found: bool, arms: &[When]) -> bool
    ensures { result ≡ or_any found (flat_map arm_aggregates arms.now) }
{
    for arm in arms {
        found = or_aggregates(found, &arm.when);
        found = or_aggregates(found, &arm.then);
    }
    found
}

// Whether it was found, or one stands in an expression that need not be there.
#[cycle(aggregates)]
#[tactic(auto, unfolding(crate::specs::Aggregates::or_any), using(crate::proofs::Each::or_false))]
fn or_aggregates_if_any(found: bool, expr: &Option<Boxed<Expr>>) -> bool
    ensures { result ≡ or_any found (flat_map aggregates (option_to_list expr.now)) }
{
    match expr {
        Some(expr) => or_aggregates(found, expr.get()),
        None => found,
    }
}

// Whether it was found, or one stands in a part of an expression.
#[cycle(aggregates)]
#[tactic(auto, unfolding(crate::specs::Aggregates::or_any), using(crate::proofs::Found::or_more, crate::proofs::Each::or_false))]
fn or_part_aggregates(found: bool, expr: &Expr) -> bool
    ensures { result ≡ or_any found (parts_of aggregates_layer expr.now) }
{
    match expr {
        Expr::Literal(_)
        | Expr::Param(_)
        | Expr::Column(_)
        | Expr::SiteId(_)
        | Expr::DbVersion(_) => found,
        Expr::Shown(_, operand)
        | Expr::Unary(_, operand)
        | Expr::Collate(operand, _)
        | Expr::Cast(_, operand) => or_aggregates(found, operand.get()),
        Expr::Arithmetic(_, left, right)
        | Expr::Join(left, right)
        | Expr::Like(_, left, right)
        | Expr::Logic(_, left, right)
        | Expr::Compare(_, _, left, right) => {
            let found = or_aggregates(found, left.get());
            or_aggregates(found, right.get())
        }
        Expr::In(_, _, operand, items) => {
            let found = or_aggregates(found, operand.get());
            or_any_aggregates(found, items.as_slice())
        }
        Expr::Between(_, _, _, operand, low, high) => {
            let found = or_aggregates(found, operand.get());
            let found = or_aggregates(found, low.get());
            or_aggregates(found, high.get())
        }
        Expr::Case(operand, arms, otherwise) => {
            let found = or_aggregates_if_any(found, operand);
            let found = or_arm_aggregates(found, arms.as_slice());
            or_aggregates_if_any(found, otherwise)
        }
        Expr::BuiltIn(_, args) | Expr::Host(_, args) | Expr::Aggregate(_, args) => {
            or_any_aggregates(found, args.as_slice())
        }
    }
}

/// Whether an aggregate stands in an expression.
#[tactic(auto, unfolding(crate::specs::Aggregates::or_any), using(crate::proofs::Found::only_one))]
pub fn has_aggregate(expr: &Expr) -> bool
    ensures { result ≡ has_aggregate_in (expr.now ∷ []) }
{
    or_aggregates(false, expr)
}
