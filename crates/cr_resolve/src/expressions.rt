//! What an expression is once its names are resolved.

ghost use Rattle.std.specs.Prelude.{◌≡◌, [], IfOk, not, Some, None};
ghost use Rattle.cr_tree.specs.declared.expr.Expr as tree;
ghost use Rattle.cr_term.specs.Nodes as e;
ghost use Rattle.cr_term.specs.declared.operator.Aggregate.TheVariants as k;
ghost use Rattle.cr_resolve.specs.Answered.{IsRead, AreRead, IsReadIfAny, AreArmsRead, IsRightRead, AreItemsRead, IsHighRead, IsElseRead};
ghost use Rattle.cr_resolve.specs.Expressions.{sign_of, cast_node, cast_target, expr};
ghost use Rattle.cr_resolve.specs.Scope.{column};
ghost use Rattle.cr_resolve.specs.Reading.{fine, with, also_misplaced};
ghost use Rattle.cr_resolve.specs.Told.{told, Reads};

use crate::call::{Callee, aggregate_call, callee_of, scalar_call, unread_call};
use crate::case::{Arms, case};
use crate::comparing::{among, between};
use crate::naming::Naming;
use crate::node::{cast, collate, unary};
use crate::operator::binary;
use crate::reading::Made;
use crate::refusal::Refusal;
use crate::scope::{Source, column};
use cr_term::expr::Expr;
use cr_term::operator::Aggregate;
use cr_tree::expr::{Binary, Expr as Tree, Unary, When};
use cr_value::text::Text;
use cr_value::value::Value;
use sqlite_items::{Boxed, Items};
use std::alloc::{AllocError, Global};

// Where an expression stands: the columns in sight, and whether an aggregate may stand there.
#[derive(Clone, Copy)]
struct Place<'a> {
    sources: &'a [Source],
    may_aggregate: bool,
}

// A part in which no aggregate is misplaced.
fn well_placed(made: Expr) -> Made<Expr>
    ensures { told result ≡ fine made }
{
    Made {
        made,
        is_misplaced: false,
    }
}

fn literal(alloc: Global, value: &Value) -> Result<Made<Expr>, Refusal>
    ensures { Reads (fine (e.Literal value.now)) result }
{
    Ok(well_placed(Expr::Literal(value.copy(alloc)?)))
}

fn parameter(number: u16) -> Made<Expr>
    ensures { told result ≡ fine (e.Param number) }
{
    well_placed(Expr::Param(number))
}

// `count(*)`, where it may stand or not.
fn count_all(alloc: Global, is_allowed: bool) -> Made<Expr>
    ensures { told result ≡ also_misplaced (not is_allowed) (fine (e.Aggregate k.CountAll [])) }
{
    Made {
        made: Expr::Aggregate(Aggregate::CountAll, Items::new(alloc)),
        is_misplaced: !is_allowed,
    }
}

// A name at its place.
fn column_at(
    alloc: Global,
    place: Place<'_>,
    source: &Option<Text>,
    name: &Text,
) -> Result<Made<Expr>, Refusal>
    ensures { Reads (column place.entry.sources.now source.now name.now) result }
{
    Ok(well_placed(column(alloc, place.sources, source, name)?))
}

// A sign before or behind its operand.
fn signed(alloc: Global, sign: Unary, operand: Made<Expr>) -> Result<Made<Expr>, Refusal>
    ensures { Reads (with (e.Unary (sign_of sign)) (told operand)) result }
{
    Ok(unary(alloc, sign, operand)?)
}

// An operand under a CAST.
fn turned(alloc: Global, operand: Made<Expr>, words: &[Text]) -> Result<Made<Expr>, Refusal>
    ensures { Reads (with (cast_node (cast_target words.now)) (told operand)) result }
{
    Ok(cast(alloc, operand, words)?)
}

// A part in a box.
fn in_a_box(alloc: Global, part: Made<Expr>) -> Result<Made<Boxed<Expr>>, AllocError>
    ensures { IfOk result (λ m. told m ≡ told part) }
{
    Ok(Made {
        made: Boxed::new(alloc, part.made)?,
        is_misplaced: part.is_misplaced,
    })
}

// An expression that is there, of those that need not be.
fn boxed(alloc: Global, expr: Made<Expr>) -> Result<Made<Option<Boxed<Expr>>>, AllocError>
    ensures { IfOk result (λ m. told m ≡ with Some (told expr)) }
{
    Ok(Made {
        made: Some(Boxed::new(alloc, expr.made)?),
        is_misplaced: expr.is_misplaced,
    })
}

// An expression that is not there.
fn absent() -> Made<Option<Boxed<Expr>>>
    ensures { told result ≡ fine None }
{
    Made {
        made: None,
        is_misplaced: false,
    }
}

// An expression at its place.
#[cycle(expr)]
#[tactic(auto, using(crate::proofs::Parts::sign_refused, crate::proofs::Parts::cast_refused, crate::proofs::Parts::collate_refused, crate::proofs::Parts::left_refused, crate::proofs::Parts::in_refused, crate::proofs::Parts::between_refused, crate::proofs::Parts::low_refused, crate::proofs::Parts::case_refused, crate::proofs::Parts::arms_refused))]
fn expr_at<K: Naming>(
    alloc: Global,
    known: &K,
    place: Place<'_>,
    tree: &Tree,
) -> Result<Made<Expr>, Refusal>
    ensures { IsRead (K.known known.now) place.entry.sources.now place.entry.may_aggregate tree.now result }
{
    match tree {
        Tree::Literal(value) => literal(alloc, value),
        Tree::Param(number) => Ok(parameter(*number)),
        Tree::Column(source, name) => column_at(alloc, place, source, name),
        Tree::CountAll => Ok(count_all(alloc, place.may_aggregate)),
        Tree::Unary(sign, operand) => {
            let operand = expr_at(alloc, known, place, operand.get())?;
            signed(alloc, *sign, operand)
        }
        Tree::Collate(operand, name) => {
            let operand = expr_at(alloc, known, place, operand.get())?;
            collate(alloc, known, operand, name)
        }
        Tree::Cast(operand, words) => {
            let operand = expr_at(alloc, known, place, operand.get())?;
            turned(alloc, operand, words.as_slice())
        }
        Tree::Binary(op, left, right) => {
            let left = expr_at(alloc, known, place, left.get())?;
            right_at(alloc, known, place, right.get(), *op, left)
        }
        Tree::In(is_negated, operand, items) => {
            let operand = expr_at(alloc, known, place, operand.get())?;
            items_at(alloc, known, place, items.as_slice(), *is_negated, operand)
        }
        Tree::Between(is_negated, operand, low, high) => {
            let operand = boxed_at(alloc, known, place, operand.get())?;
            let low = boxed_at(alloc, known, place, low.get())?;
            high_at(alloc, known, place, high.get(), *is_negated, operand, low)
        }
        Tree::Call(name, args) => call_at(alloc, known, place, name, args.as_slice()),
        Tree::Case(operand, arms, otherwise) => {
            let operand = expr_at_if_any(alloc, known, place, operand)?;
            let arms = arms_at(alloc, known, place, arms.as_slice())?;
            else_at(alloc, known, place, otherwise, operand, arms)
        }
    }
}

// An expression at its place, in a box.
#[cycle(expr)]
#[tactic(auto, using(crate::proofs::Parts::memory, crate::proofs::Parts::in_a_box))]
fn boxed_at<K: Naming>(
    alloc: Global,
    known: &K,
    place: Place<'_>,
    tree: &Tree,
) -> Result<Made<Boxed<Expr>>, Refusal>
    ensures { IsRead (K.known known.now) place.entry.sources.now place.entry.may_aggregate tree.now result }
{
    let expr = expr_at(alloc, known, place, tree)?;
    Ok(in_a_box(alloc, expr)?)
}

// An operator, once its left operand is read.
#[cycle(expr)]
#[tactic(auto, using(crate::proofs::Parts::right_refused, crate::proofs::Parts::right))]
fn right_at<K: Naming>(
    alloc: Global,
    known: &K,
    place: Place<'_>,
    tree: &Tree,
    op: Binary,
    left: Made<Expr>,
) -> Result<Made<Expr>, Refusal>
    ensures { IsRightRead (K.known known.now) place.entry.sources.now place.entry.may_aggregate op left tree.now result }
{
    let right = expr_at(alloc, known, place, tree)?;
    binary(alloc, known, op, left, right)
}

// IN, once its operand is read.
#[cycle(expr)]
#[tactic(auto, using(crate::proofs::Parts::items_refused, crate::proofs::Parts::items))]
fn items_at<K: Naming>(
    alloc: Global,
    known: &K,
    place: Place<'_>,
    trees: &[Tree],
    is_negated: bool,
    operand: Made<Expr>,
) -> Result<Made<Expr>, Refusal>
    ensures { AreItemsRead (K.known known.now) place.entry.sources.now place.entry.may_aggregate is_negated operand trees.now result }
{
    let items = exprs_at(alloc, known, place, trees)?;
    among(alloc, known, is_negated, operand, items)
}

// BETWEEN, once its operand and its first bound are read.
#[cycle(expr)]
#[tactic(auto, using(crate::proofs::Parts::high_refused, crate::proofs::Parts::high))]
fn high_at<K: Naming>(
    alloc: Global,
    known: &K,
    place: Place<'_>,
    tree: &Tree,
    is_negated: bool,
    operand: Made<Boxed<Expr>>,
    low: Made<Boxed<Expr>>,
) -> Result<Made<Expr>, Refusal>
    ensures { IsHighRead (K.known known.now) place.entry.sources.now place.entry.may_aggregate is_negated operand low tree.now result }
{
    let high = boxed_at(alloc, known, place, tree)?;
    between(alloc, known, is_negated, operand, low, high)
}

// CASE, once its operand and its arms are read.
#[cycle(expr)]
#[tactic(auto, using(crate::proofs::Parts::else_refused, crate::proofs::Parts::otherwise))]
fn else_at<K: Naming>(
    alloc: Global,
    known: &K,
    place: Place<'_>,
    tree: &Option<Boxed<Tree>>,
    operand: Made<Option<Boxed<Expr>>>,
    arms: Arms,
) -> Result<Made<Expr>, Refusal>
    ensures { IsElseRead (K.known known.now) place.entry.sources.now place.entry.may_aggregate operand arms tree.now result }
{
    let otherwise = expr_at_if_any(alloc, known, place, tree)?;
    case(alloc, known, operand, arms, otherwise)
}

// Expressions at their place, from left to right.
#[cycle(expr)]
#[tactic(auto, using(crate::proofs::PartLists::all_memory, crate::proofs::PartLists::all_begin, crate::proofs::PartLists::all_go_on, crate::proofs::PartLists::all_break_off, crate::proofs::PartLists::all_end))]
fn exprs_at<K: Naming>(
    alloc: Global,
    known: &K,
    place: Place<'_>,
    trees: &[Tree],
) -> Result<Made<Items<Expr>>, Refusal>
    ensures { AreRead (K.known known.now) place.entry.sources.now place.entry.may_aggregate trees.now result }
{
    let mut exprs = Made {
        made: Items::new(alloc),
        is_misplaced: false,
    };
    for tree in trees {
        let expr = expr_at(alloc, known, place, tree)?;
        exprs.push(expr)?;
    }
    Ok(exprs)
}

// An expression at its place that need not be there.
#[cycle(expr)]
#[tactic(auto, using(crate::proofs::PartLists::any_memory, crate::proofs::PartLists::any_none, crate::proofs::PartLists::any_some, crate::proofs::PartLists::any_refused))]
fn expr_at_if_any<K: Naming>(
    alloc: Global,
    known: &K,
    place: Place<'_>,
    tree: &Option<Boxed<Tree>>,
) -> Result<Made<Option<Boxed<Expr>>>, Refusal>
    ensures { IsReadIfAny (K.known known.now) place.entry.sources.now place.entry.may_aggregate tree.now result }
{
    match tree {
        Some(tree) => {
            let expr = expr_at(alloc, known, place, tree.get())?;
            Ok(boxed(alloc, expr)?)
        }
        None => Ok(absent()),
    }
}

// The arms of a CASE at their place, from left to right.
#[cycle(expr)]
#[tactic(auto, using(crate::proofs::PartLists::arms_memory, crate::proofs::PartLists::arms_begin, crate::proofs::PartLists::arms_go_on, crate::proofs::PartLists::when_breaks_off, crate::proofs::PartLists::then_breaks_off, crate::proofs::PartLists::arms_end))]
fn arms_at<K: Naming>(
    alloc: Global,
    known: &K,
    place: Place<'_>,
    trees: &[When],
) -> Result<Arms, Refusal>
    ensures { AreArmsRead (K.known known.now) place.entry.sources.now place.entry.may_aggregate trees.now result }
{
    let mut arms = Arms::new(alloc);
    for tree in trees {
        let when = expr_at(alloc, known, place, &tree.when)?;
        let gives = expr_at(alloc, known, place, &tree.then)?;
        arms.push(when, gives)?;
    }
    Ok(arms)
}

// A call at its place. No aggregate may stand among the arguments of an aggregate.
#[cycle(expr)]
#[tactic(auto, using(crate::proofs::Parts::memory, crate::proofs::CallParts::scalar_refused, crate::proofs::CallParts::scalar, crate::proofs::CallParts::aggregate_refused, crate::proofs::CallParts::aggregate, crate::proofs::CallParts::unread))]
fn call_at<K: Naming>(
    alloc: Global,
    known: &K,
    place: Place<'_>,
    name: &Text,
    args: &[Tree],
) -> Result<Made<Expr>, Refusal>
    ensures { IsRead (K.known known.now) place.entry.sources.now place.entry.may_aggregate (tree.Call name.now args.now) result }
{
    match callee_of(known, name, args.len()) {
        Callee::Scalar(owner) => {
            let args = exprs_at(alloc, known, place, args)?;
            scalar_call(alloc, known, owner, name, args)
        }
        Callee::Aggregate(owner) => {
            let inside = Place {
                may_aggregate: false,
                ..place
            };
            let args = exprs_at(alloc, known, inside, args)?;
            aggregate_call(alloc, known, owner, name, place.may_aggregate, args)
        }
        Callee::Unread(callee) => unread_call(alloc, known, callee, name),
    }
}

/// An expression, with the sources in sight, where aggregates may or may not stand.
///
/// # Errors
/// The first that stands against one of its names, from left to right; `Memory`.
#[tactic(auto, unfolding(crate::specs::Answered::IsRead))]
pub fn expr<K: Naming>(
    alloc: Global,
    known: &K,
    sources: &[Source],
    may_aggregate: bool,
    tree: &Tree,
) -> Result<Made<Expr>, Refusal>
    ensures { Reads (expr (K.known known.now) sources.now may_aggregate tree.now) result }
{
    let place = Place {
        sources,
        may_aggregate,
    };
    expr_at(alloc, known, place, tree)
}
