//! Expressions within groups: the terms of a group put in, and whether a column stands bare.

ghost use Rattle.std.specs.Prelude.{◌≡◌, [], map, false, IfOk, position};
ghost use Rattle.std.specs.Option.{option_map, option_to_list};
ghost use Rattle.std.specs.List.{flat_map};
ghost use Rattle.cr_term.specs.Nodes.{Shown};
ghost use Rattle.cr_term.specs.Same.{same};
ghost use Rattle.cr_build.specs.Parts.{arm_of};
ghost use Rattle.cr_select.specs.Placed.{exprs_of, made, parts_placed, bares, arm_bares, part_bares, or_bare};

use crate::same::same;
use cr_build::build::{aggregate_of, arm, function_of, membership, range};
use cr_build::copy::copy_column;
use cr_questions::operands::comparison;
use cr_term::expr::{Expr, When};
use cr_term::query::GroupTerm;
use sqlite_items::{Boxed, Items};
use std::alloc::{AllocError, Global};

// The place of the first term that an expression is the same as.
fn term_place(terms: &[GroupTerm], expr: &Expr) -> Option<usize>
    ensures { result ≡ position (λ g. same expr.now g.expr) terms.now }
{
    terms.iter().position(|term| same(expr, &term.expr))
}

// ---- whether a column stands bare

/// Whether it was found, or a column stands bare in an expression: it is no part of a term or of an aggregate. Takes no
/// memory.
#[cycle(bare)]
#[tactic(auto, unfolding(crate::specs::Placed::or_bare), using(crate::proofs::Bare::term_bare, crate::proofs::Bare::other_bare))]
pub fn or_bare(found: bool, terms: &[GroupTerm], expr: &Expr) -> bool
    ensures { result ≡ or_bare found (bares (exprs_of terms.now) expr.now) }
{
    if found {
        return true;
    }
    match term_place(terms, expr) {
        Some(_) => false,
        None => is_bare_inside(terms, expr),
    }
}

// Whether it was found, or a column stands bare in one of several expressions.
#[cycle(bare)]
#[tactic(auto, unfolding(crate::specs::Placed::or_bare), using(crate::proofs::Bare::or_more, crate::proofs::Each::or_false))]
pub(crate) fn or_any_bare(mut found: bool, terms: &[GroupTerm], exprs: &[Expr]) -> bool
    ensures { result ≡ or_bare found (flat_map (bares (exprs_of terms.now)) exprs.now) }
{
    for expr in exprs {
        found = or_bare(found, terms, expr);
    }
    found
}

// Whether it was found, or a column stands bare in an arm of a CASE.
#[cycle(bare)]
#[tactic(auto, unfolding(crate::specs::Placed::or_bare), using(crate::proofs::Bare::or_more, crate::proofs::Each::or_false))]
fn or_arm_bare(mut found: bool, terms: &[GroupTerm], arms: &[When]) -> bool
    ensures { result ≡ or_bare found (flat_map (arm_bares (exprs_of terms.now)) arms.now) }
{
    for arm in arms {
        found = or_bare(found, terms, &arm.when);
        found = or_bare(found, terms, &arm.then);
    }
    found
}

// Whether it was found, or a column stands bare in an expression that need not be there.
#[cycle(bare)]
#[tactic(auto, unfolding(crate::specs::Placed::or_bare), using(crate::proofs::Each::or_false))]
fn or_bare_if_any(found: bool, terms: &[GroupTerm], expr: &Option<Boxed<Expr>>) -> bool
    ensures { result ≡ or_bare found (flat_map (bares (exprs_of terms.now)) (option_to_list expr.now)) }
{
    match expr {
        Some(expr) => or_bare(found, terms, expr.get()),
        None => found,
    }
}

// Whether a column stands bare in an expression that is no term itself.
#[cycle(bare)]
#[tactic(auto, unfolding(crate::specs::Placed::or_bare), using(crate::proofs::Bare::or_more, crate::proofs::Each::or_false))]
fn is_bare_inside(terms: &[GroupTerm], expr: &Expr) -> bool
    ensures { result ≡ or_bare false (part_bares (exprs_of terms.now) expr.now) }
{
    match expr {
        Expr::Column(_) => true,
        Expr::Literal(_)
        | Expr::Param(_)
        | Expr::Aggregate(..)
        | Expr::SiteId(_)
        | Expr::DbVersion(_) => false,
        Expr::Shown(_, operand)
        | Expr::Unary(_, operand)
        | Expr::Collate(operand, _)
        | Expr::Cast(_, operand) => or_bare(false, terms, operand.get()),
        Expr::Arithmetic(_, left, right)
        | Expr::Join(left, right)
        | Expr::Like(_, left, right)
        | Expr::Logic(_, left, right)
        | Expr::Compare(_, _, left, right) => {
            let found = or_bare(false, terms, left.get());
            or_bare(found, terms, right.get())
        }
        Expr::In(_, _, operand, items) => {
            let found = or_bare(false, terms, operand.get());
            or_any_bare(found, terms, items.as_slice())
        }
        Expr::Between(_, _, _, operand, low, high) => {
            let found = or_bare(false, terms, operand.get());
            let found = or_bare(found, terms, low.get());
            or_bare(found, terms, high.get())
        }
        Expr::Case(operand, arms, otherwise) => {
            let found = or_bare_if_any(false, terms, operand);
            let found = or_arm_bare(found, terms, arms.as_slice());
            or_bare_if_any(found, terms, otherwise)
        }
        Expr::BuiltIn(_, args) | Expr::Host(_, args) => {
            or_any_bare(false, terms, args.as_slice())
        }
    }
}

// ---- the terms put in

/// An expression with the terms of a group put in: the group shows what is the same as a term, and an aggregate stays whole.
/// How operands meet is decided again.
///
/// # Errors
/// Where memory runs out.
#[cycle(placed)]
#[tactic(auto, using(crate::proofs::InGroup::term_made, crate::proofs::InGroup::other_made))]
pub fn placed(alloc: Global, terms: &[GroupTerm], expr: &Expr) -> Result<Expr, AllocError>
    ensures { IfOk result (λ e. e ≡ made (exprs_of terms.now) expr.now) }
{
    match term_place(terms, expr) {
        Some(at) => shown(alloc, at, expr),
        None => parts_placed(alloc, terms, expr),
    }
}

// What a group shows for its term of that place, from 0.
#[cycle(placed)]
fn shown(alloc: Global, at: usize, expr: &Expr) -> Result<Expr, AllocError>
    ensures { IfOk result (λ e. e ≡ Shown at (parts_placed [] expr.now)) }
{
    let term = parts_placed(alloc, &[], expr)?;
    Ok(Expr::Shown(at, Boxed::new(alloc, term)?))
}

#[cycle(placed)]
fn placed_boxed(alloc: Global, terms: &[GroupTerm], expr: &Expr) -> Result<Boxed<Expr>, AllocError>
    ensures { IfOk result (λ e. e ≡ made (exprs_of terms.now) expr.now) }
{
    let placed = placed(alloc, terms, expr)?;
    Boxed::new(alloc, placed)
}

#[cycle(placed)]
fn placed_all(alloc: Global, terms: &[GroupTerm], exprs: &[Expr]) -> Result<Items<Expr>, AllocError>
    ensures { IfOk result (λ es. es ≡ map (made (exprs_of terms.now)) exprs.now) }
{
    let mut all = Vec::new(alloc);
    for expr in exprs {
        all.push(placed(alloc, terms, expr)?)?;
    }
    Ok(Items::from_vec(all))
}

#[cycle(placed)]
fn placed_if_any(
    alloc: Global,
    terms: &[GroupTerm],
    expr: &Option<Boxed<Expr>>,
) -> Result<Option<Boxed<Expr>>, AllocError>
    ensures { IfOk result (λ e. e ≡ option_map (made (exprs_of terms.now)) expr.now) }
{
    match expr {
        Some(expr) => Ok(Some(placed_boxed(alloc, terms, expr.get())?)),
        None => Ok(None),
    }
}

// The arms of a CASE, with its operand.
#[cycle(placed)]
fn placed_arms(
    alloc: Global,
    terms: &[GroupTerm],
    arms: &[When],
    operand: &Option<Boxed<Expr>>,
) -> Result<Items<When>, AllocError>
    ensures { IfOk result (λ ws. ws ≡ map (λ w. arm_of operand.now (made (exprs_of terms.now) w.when) (made (exprs_of terms.now) w.then)) arms.now) }
{
    let mut all = Vec::new(alloc);
    for one in arms {
        let when = placed(alloc, terms, &one.when)?;
        let then = placed(alloc, terms, &one.then);
        all.push(then.and_then(|then| arm(alloc, operand, when, then))?)?;
    }
    Ok(Items::from_vec(all))
}

// An expression that is no term itself.
#[cycle(placed)]
fn parts_placed(alloc: Global, terms: &[GroupTerm], expr: &Expr) -> Result<Expr, AllocError>
    ensures { IfOk result (λ e. e ≡ parts_placed (exprs_of terms.now) expr.now) }
{
    match expr {
        Expr::Literal(value) => Ok(Expr::Literal(value.copy(alloc)?)),
        Expr::Param(n) => Ok(Expr::Param(*n)),
        Expr::Column(column) => Ok(Expr::Column(copy_column(alloc, column)?)),
        Expr::SiteId(bytes) => Ok(Expr::SiteId(bytes.copy(alloc)?)),
        Expr::DbVersion(n) => Ok(Expr::DbVersion(*n)),
        Expr::Shown(at, operand) => {
            Ok(Expr::Shown(*at, placed_boxed(alloc, terms, operand.get())?))
        }
        Expr::Unary(op, operand) => {
            Ok(Expr::Unary(*op, placed_boxed(alloc, terms, operand.get())?))
        }
        Expr::Cast(to, operand) => {
            Ok(Expr::Cast(*to, placed_boxed(alloc, terms, operand.get())?))
        }
        Expr::Collate(operand, name) => {
            let operand = placed_boxed(alloc, terms, operand.get())?;
            Ok(Expr::Collate(operand, name.copy(alloc)?))
        }
        Expr::Arithmetic(op, left, right) => {
            let left = placed_boxed(alloc, terms, left.get())?;
            let right = placed_boxed(alloc, terms, right.get())?;
            Ok(Expr::Arithmetic(*op, left, right))
        }
        Expr::Join(left, right) => {
            let left = placed_boxed(alloc, terms, left.get())?;
            let right = placed_boxed(alloc, terms, right.get())?;
            Ok(Expr::Join(left, right))
        }
        Expr::Like(is_negated, text, pattern) => {
            let text = placed_boxed(alloc, terms, text.get())?;
            let pattern = placed_boxed(alloc, terms, pattern.get())?;
            Ok(Expr::Like(*is_negated, text, pattern))
        }
        Expr::Logic(op, left, right) => {
            let left = placed_boxed(alloc, terms, left.get())?;
            let right = placed_boxed(alloc, terms, right.get())?;
            Ok(Expr::Logic(*op, left, right))
        }
        Expr::Compare(op, _, first, second) => {
            let first = placed_boxed(alloc, terms, first.get())?;
            let second = placed_boxed(alloc, terms, second.get())?;
            comparison(alloc, *op, first, second)
        }
        Expr::In(is_negated, _, operand, items) => {
            let operand = placed_boxed(alloc, terms, operand.get())?;
            let items = placed_all(alloc, terms, items.as_slice())?;
            membership(alloc, *is_negated, operand, items)
        }
        Expr::Between(is_negated, _, _, operand, low, high) => {
            let operand = placed_boxed(alloc, terms, operand.get())?;
            let low = placed_boxed(alloc, terms, low.get())?;
            let high = placed_boxed(alloc, terms, high.get())?;
            range(alloc, *is_negated, operand, low, high)
        }
        Expr::Case(operand, arms, otherwise) => {
            let operand = placed_if_any(alloc, terms, operand)?;
            let arms = placed_arms(alloc, terms, arms.as_slice(), &operand)?;
            let otherwise = placed_if_any(alloc, terms, otherwise)?;
            Ok(Expr::Case(operand, arms, otherwise))
        }
        Expr::BuiltIn(function, args) => {
            let args = placed_all(alloc, terms, args.as_slice())?;
            let function = function_of(alloc, function, args.as_slice())?;
            Ok(Expr::BuiltIn(function, args))
        }
        Expr::Host(name, args) => {
            let args = placed_all(alloc, terms, args.as_slice())?;
            Ok(Expr::Host(name.copy(alloc)?, args))
        }
        Expr::Aggregate(kind, args) => {
            let args = placed_all(alloc, &[], args.as_slice())?;
            let kind = aggregate_of(alloc, kind, args.as_slice())?;
            Ok(Expr::Aggregate(kind, args))
        }
    }
}
