//! What a node of an expression is, with what its parts are.

ghost use Rattle.std.specs.Prelude.{◌≡◌, IfOk};
ghost use Rattle.cr_term.specs.Nodes as e;
ghost use Rattle.cr_resolve.specs.Reading.{with, with_both, also};
ghost use Rattle.cr_resolve.specs.Known.{collation};
ghost use Rattle.cr_resolve.specs.Expressions.{sign_of, cast_target, cast_node, cast_of_affinity};
ghost use Rattle.cr_resolve.specs.Told.{told, Reads};

use crate::known::check_collation;
use crate::naming::Naming;
use crate::reading::Made;
use crate::refusal::Refusal;
use cr_term::expr::Expr;
use cr_term::operator::{Arithmetic, Logic, Unary};
use cr_tree::expr::Unary as Sign;
use cr_tree::type_name::type_name;
use cr_value::affinity::Affinity;
use cr_value::cast::CastTo;
use cr_value::text::Text;
use sqlite_items::Boxed;
use std::alloc::{AllocError, Global};

// What stands before or behind one operand.
fn sign_of(sign: Sign) -> Unary
    ensures { result ≡ sign_of sign }
{
    match sign {
        Sign::Not => Unary::Not,
        Sign::Plus => Unary::Plus,
        Sign::Minus => Unary::Minus,
        Sign::IsNull => Unary::IsNull,
        Sign::NotNull => Unary::NotNull,
    }
}

/// A sign before or behind its operand. `AllocError` where memory runs out.
pub fn unary(alloc: Global, sign: Sign, operand: Made<Expr>) -> Result<Made<Expr>, AllocError>
    ensures { IfOk result (λ m. told m ≡ with (e.Unary (sign_of sign)) (told operand)) }
{
    Ok(Made {
        made: Expr::Unary(sign_of(sign), Boxed::new(alloc, operand.made)?),
        is_misplaced: operand.is_misplaced,
    })
}

// Two operands, each in a box.
pub(crate) fn boxed(
    alloc: Global,
    left: Expr,
    right: Expr,
) -> Result<(Boxed<Expr>, Boxed<Expr>), AllocError>
    ensures { IfOk result (λ both. both ≡ (left, right)) }
{
    Boxed::new(alloc, left).and_then(|left| Ok((left, Boxed::new(alloc, right)?)))
}

/// AND or OR of two operands. `AllocError` where memory runs out.
pub fn logic(
    alloc: Global,
    op: Logic,
    left: Made<Expr>,
    right: Made<Expr>,
) -> Result<Made<Expr>, AllocError>
    ensures { IfOk result (λ m. told m ≡ with_both (e.Logic op) (told left) (told right)) }
{
    let is_misplaced = left.is_misplaced || right.is_misplaced;
    let (left, right) = boxed(alloc, left.made, right.made)?;
    Ok(Made {
        made: Expr::Logic(op, left, right),
        is_misplaced,
    })
}

/// An operator of two numbers. `AllocError` where memory runs out.
pub fn arithmetic(
    alloc: Global,
    op: Arithmetic,
    left: Made<Expr>,
    right: Made<Expr>,
) -> Result<Made<Expr>, AllocError>
    ensures { IfOk result (λ m. told m ≡ with_both (e.Arithmetic op) (told left) (told right)) }
{
    let is_misplaced = left.is_misplaced || right.is_misplaced;
    let (left, right) = boxed(alloc, left.made, right.made)?;
    Ok(Made {
        made: Expr::Arithmetic(op, left, right),
        is_misplaced,
    })
}

/// Two texts joined. `AllocError` where memory runs out.
pub fn join(alloc: Global, left: Made<Expr>, right: Made<Expr>) -> Result<Made<Expr>, AllocError>
    ensures { IfOk result (λ m. told m ≡ with_both e.Join (told left) (told right)) }
{
    let is_misplaced = left.is_misplaced || right.is_misplaced;
    let (left, right) = boxed(alloc, left.made, right.made)?;
    Ok(Made {
        made: Expr::Join(left, right),
        is_misplaced,
    })
}

/// A text and a pattern. `AllocError` where memory runs out.
pub fn like(
    alloc: Global,
    is_negated: bool,
    text: Made<Expr>,
    pattern: Made<Expr>,
) -> Result<Made<Expr>, AllocError>
    ensures { IfOk result (λ m. told m ≡ with_both (e.Like is_negated) (told text) (told pattern)) }
{
    let is_misplaced = text.is_misplaced || pattern.is_misplaced;
    let (text, pattern) = boxed(alloc, text.made, pattern.made)?;
    Ok(Made {
        made: Expr::Like(is_negated, text, pattern),
        is_misplaced,
    })
}

/// An operand under a collation.
///
/// # Errors
/// `NoSuchCollation` just where there is none of that name; `Memory`.
pub fn collate<K: Naming>(
    alloc: Global,
    known: &K,
    operand: Made<Expr>,
    name: &Text,
) -> Result<Made<Expr>, Refusal>
    ensures { Reads (also (λ z. collation (K.known known.now) name.now) (with (λ y. e.Collate y name.now) (told operand))) result }
{
    let is_misplaced = operand.is_misplaced;
    let operand = Boxed::new(alloc, operand.made)?;
    check_collation(alloc, known, name)?;
    Ok(Made {
        made: Expr::Collate(operand, name.copy(alloc)?),
        is_misplaced,
    })
}

// The type that a CAST of an affinity is to.
fn cast_of_affinity(affinity: Affinity) -> Option<CastTo>
    ensures { result ≡ cast_of_affinity affinity }
{
    match affinity {
        Affinity::Integer => Some(CastTo::Integer),
        Affinity::Text => Some(CastTo::Text),
        Affinity::Blob => Some(CastTo::Blob),
        Affinity::Numeric => None,
    }
}

/// The type that a CAST to these words is to, none where it is out of profile. `AllocError` where memory runs out.
#[tactic(auto, using(crate::proofs::Words::spaced_is))]
pub fn cast_target(alloc: Global, words: &[Text]) -> Result<Option<CastTo>, AllocError>
    ensures { IfOk result (λ to. to ≡ cast_target words.now) }
{
    let name = type_name(alloc, words)?;
    match Affinity::of_type(name.as_str()) {
        Some(affinity) => Ok(cast_of_affinity(affinity)),
        None => Ok(None),
    }
}

// An operand under a CAST to a type, or as it is where there is none.
fn under_cast(
    alloc: Global,
    to: Option<CastTo>,
    operand: Made<Expr>,
) -> Result<Made<Expr>, AllocError>
    ensures { IfOk result (λ m. told m ≡ with (cast_node to) (told operand)) }
{
    match to {
        Some(to) => Ok(Made {
            made: Expr::Cast(to, Boxed::new(alloc, operand.made)?),
            is_misplaced: operand.is_misplaced,
        }),
        None => Ok(operand),
    }
}

/// An operand under a CAST. `AllocError` where memory runs out.
pub fn cast(alloc: Global, operand: Made<Expr>, words: &[Text]) -> Result<Made<Expr>, AllocError>
    ensures { IfOk result (λ m. told m ≡ with (cast_node (cast_target words.now)) (told operand)) }
{
    let target = cast_target(alloc, words);
    target.and_then(|to| under_cast(alloc, to, operand))
}
