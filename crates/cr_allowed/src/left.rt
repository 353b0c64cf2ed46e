//! What is left of an expression.

ghost use Rattle.std.specs.Prelude.{◌≡◌, map, IfOk};
ghost use Rattle.std.specs.Option.{option_map};
ghost use Rattle.cr_questions.specs.Questions.{is_gone, left};
ghost use Rattle.cr_questions.specs.Asked.{own_question, relations};
ghost use Rattle.cr_allowed.specs.Left.{arm_left, parts_left};

use cr_build::build::{aggregate_of, arm, function_of, membership, range};
use cr_build::copy::copy_column;
use cr_host::meaning::Auth;
use cr_questions::answering::Answering;
use cr_questions::asked::question_of;
use cr_questions::operands::comparison;
use cr_questions::sources::Sources;
use cr_term::expr::{Expr, When};
use cr_value::value::Value;
use sqlite_items::{Boxed, Items};
use std::alloc::{AllocError, Global};

// Whether the authorizer ignores the column or the call that an expression is.
fn is_gone<G: Answering>(guard: &G, sources: Sources<'_>, expr: &Expr) -> bool
    requires { G.is_faithful guard.now }
    ensures { result ≡ is_gone (G.answers guard.now) (own_question (relations sources.entry) expr.now) }
{
    match question_of(sources, expr) {
        Some(question) => match guard.answer(question.action, question.a, question.b) {
            Auth::Ignore => true,
            Auth::Ok | Auth::Deny => false,
        },
        None => false,
    }
}

/// What is left of an expression: NULL in the place of each column and each call that the authorizer ignores, and how operands
/// meet is decided again.
///
/// # Errors
/// Where memory runs out.
#[cycle(left)]
#[tactic(auto, using(crate::proofs::Nodes::gone, crate::proofs::Nodes::stays))]
pub fn left<G: Answering>(
    alloc: Global,
    guard: &G,
    sources: Sources<'_>,
    expr: &Expr,
) -> Result<Expr, AllocError>
    requires { G.is_faithful guard.now }
    ensures { IfOk result (λ e. e ≡ left (G.answers guard.now) (relations sources.entry) expr.now) }
{
    if is_gone(guard, sources, expr) {
        Ok(Expr::Literal(Value::Null))
    } else {
        parts_left(alloc, guard, sources, expr)
    }
}

#[cycle(left)]
fn left_boxed<G: Answering>(
    alloc: Global,
    guard: &G,
    sources: Sources<'_>,
    expr: &Expr,
) -> Result<Boxed<Expr>, AllocError>
    requires { G.is_faithful guard.now }
    ensures { IfOk result (λ e. e ≡ left (G.answers guard.now) (relations sources.entry) expr.now) }
{
    let left = left(alloc, guard, sources, expr)?;
    Boxed::new(alloc, left)
}

/// What is left of each of several expressions. `AllocError` where memory runs out.
#[cycle(left)]
pub fn left_all<G: Answering>(
    alloc: Global,
    guard: &G,
    sources: Sources<'_>,
    exprs: &[Expr],
) -> Result<Items<Expr>, AllocError>
    requires { G.is_faithful guard.now }
    ensures { IfOk result (λ es. es ≡ map (left (G.answers guard.now) (relations sources.entry)) exprs.now) }
{
    let mut lefts = Vec::new(alloc);
    for expr in exprs {
        lefts.push(left(alloc, guard, sources, expr)?)?;
    }
    Ok(Items::from_vec(lefts))
}

#[cycle(left)]
fn left_if_any<G: Answering>(
    alloc: Global,
    guard: &G,
    sources: Sources<'_>,
    expr: &Option<Boxed<Expr>>,
) -> Result<Option<Boxed<Expr>>, AllocError>
    requires { G.is_faithful guard.now }
    ensures { IfOk result (λ e. e ≡ option_map (left (G.answers guard.now) (relations sources.entry)) expr.now) }
{
    match expr {
        Some(expr) => Ok(Some(left_boxed(alloc, guard, sources, expr.get())?)),
        None => Ok(None),
    }
}

// What is left of the arms of a CASE, with what is left of its operand.
#[cycle(left)]
fn left_arms<G: Answering>(
    alloc: Global,
    guard: &G,
    sources: Sources<'_>,
    arms: &[When],
    operand: &Option<Boxed<Expr>>,
) -> Result<Items<When>, AllocError>
    requires { G.is_faithful guard.now }
    ensures { IfOk result (λ ws. ws ≡ map (arm_left (G.answers guard.now) (relations sources.entry) operand.now) arms.now) }
{
    let mut lefts = Vec::new(alloc);
    for one in arms {
        let when = left(alloc, guard, sources, &one.when)?;
        let then = left(alloc, guard, sources, &one.then);
        lefts.push(then.and_then(|then| arm(alloc, operand, when, then))?)?;
    }
    Ok(Items::from_vec(lefts))
}

// An expression built of what is left of its parts.
#[cycle(left)]
fn parts_left<G: Answering>(
    alloc: Global,
    guard: &G,
    sources: Sources<'_>,
    expr: &Expr,
) -> Result<Expr, AllocError>
    requires { G.is_faithful guard.now }
    ensures { IfOk result (λ e. e ≡ parts_left (G.answers guard.now) (relations sources.entry) expr.now) }
{
    match expr {
        Expr::Literal(value) => Ok(Expr::Literal(value.copy(alloc)?)),
        Expr::Param(n) => Ok(Expr::Param(*n)),
        Expr::Column(column) => Ok(Expr::Column(copy_column(alloc, column)?)),
        Expr::SiteId(bytes) => Ok(Expr::SiteId(bytes.copy(alloc)?)),
        Expr::DbVersion(n) => Ok(Expr::DbVersion(*n)),
        Expr::Shown(at, operand) => {
            Ok(Expr::Shown(*at, left_boxed(alloc, guard, sources, operand.get())?))
        }
        Expr::Unary(op, operand) => {
            Ok(Expr::Unary(*op, left_boxed(alloc, guard, sources, operand.get())?))
        }
        Expr::Cast(to, operand) => {
            Ok(Expr::Cast(*to, left_boxed(alloc, guard, sources, operand.get())?))
        }
        Expr::Collate(operand, name) => {
            let operand = left_boxed(alloc, guard, sources, operand.get())?;
            Ok(Expr::Collate(operand, name.copy(alloc)?))
        }
        Expr::Arithmetic(op, left, right) => {
            let left = left_boxed(alloc, guard, sources, left.get())?;
            let right = left_boxed(alloc, guard, sources, right.get())?;
            Ok(Expr::Arithmetic(*op, left, right))
        }
        Expr::Join(left, right) => {
            let left = left_boxed(alloc, guard, sources, left.get())?;
            let right = left_boxed(alloc, guard, sources, right.get())?;
            Ok(Expr::Join(left, right))
        }
        Expr::Like(is_negated, text, pattern) => {
            let text = left_boxed(alloc, guard, sources, text.get())?;
            let pattern = left_boxed(alloc, guard, sources, pattern.get())?;
            Ok(Expr::Like(*is_negated, text, pattern))
        }
        Expr::Logic(op, left, right) => {
            let left = left_boxed(alloc, guard, sources, left.get())?;
            let right = left_boxed(alloc, guard, sources, right.get())?;
            Ok(Expr::Logic(*op, left, right))
        }
        Expr::Compare(op, _, first, second) => {
            let first = left_boxed(alloc, guard, sources, first.get())?;
            let second = left_boxed(alloc, guard, sources, second.get())?;
            comparison(alloc, *op, first, second)
        }
        Expr::In(is_negated, _, operand, items) => {
            let operand = left_boxed(alloc, guard, sources, operand.get())?;
            let items = left_all(alloc, guard, sources, items.as_slice())?;
            membership(alloc, *is_negated, operand, items)
        }
        Expr::Between(is_negated, _, _, operand, low, high) => {
            let operand = left_boxed(alloc, guard, sources, operand.get())?;
            let low = left_boxed(alloc, guard, sources, low.get())?;
            let high = left_boxed(alloc, guard, sources, high.get())?;
            range(alloc, *is_negated, operand, low, high)
        }
        Expr::Case(operand, arms, otherwise) => {
            let operand = left_if_any(alloc, guard, sources, operand)?;
            let arms = left_arms(alloc, guard, sources, arms.as_slice(), &operand)?;
            let otherwise = left_if_any(alloc, guard, sources, otherwise)?;
            Ok(Expr::Case(operand, arms, otherwise))
        }
        Expr::BuiltIn(function, args) => {
            let args = left_all(alloc, guard, sources, args.as_slice())?;
            let function = function_of(alloc, function, args.as_slice())?;
            Ok(Expr::BuiltIn(function, args))
        }
        Expr::Host(name, args) => {
            let args = left_all(alloc, guard, sources, args.as_slice())?;
            Ok(Expr::Host(name.copy(alloc)?, args))
        }
        Expr::Aggregate(kind, args) => {
            let args = left_all(alloc, guard, sources, args.as_slice())?;
            let kind = aggregate_of(alloc, kind, args.as_slice())?;
            Ok(Expr::Aggregate(kind, args))
        }
    }
}
