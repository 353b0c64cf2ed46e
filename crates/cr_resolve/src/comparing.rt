//! What a node is that compares its parts. The collation has to be there by which it compares.

ghost use Rattle.std.specs.Prelude.{◌≡◌, IfOk};
ghost use Rattle.cr_term.specs.Nodes as e;
ghost use Rattle.cr_resolve.specs.Compares.{Meets, Compares, MeetsItem, IsAmong, MeetsBounds, IsBetween};
ghost use Rattle.cr_resolve.specs.Reading.{with_both};
ghost use Rattle.cr_resolve.specs.Told.{told};

use crate::known::check_collation;
use crate::naming::Naming;
use crate::node::boxed;
use crate::reading::Made;
use crate::refusal::Refusal;
use cr_questions::operands::{meeting, meeting_item};
use cr_term::expr::Expr;
use cr_term::operator::{Comparison, Meeting};
use sqlite_items::{Boxed, Items};
use std::alloc::{AllocError, Global};

// A comparison, with how its operands meet.
fn comparison(
    alloc: Global,
    op: Comparison,
    meeting: Meeting,
    left: Made<Expr>,
    right: Made<Expr>,
) -> Result<Made<Expr>, AllocError>
    ensures { IfOk result (λ m. told m ≡ with_both (e.Compare op meeting) (told left) (told right)) }
{
    let is_misplaced = left.is_misplaced || right.is_misplaced;
    let (left, right) = boxed(alloc, left.made, right.made)?;
    Ok(Made {
        made: Expr::Compare(op, meeting, left, right),
        is_misplaced,
    })
}

/// How two operands meet.
///
/// # Errors
/// `NoSuchCollation` just where there is no collation of the name that the operands bring; `Memory`.
#[tactic(auto, using(crate::proofs::Compared::no_memory, crate::proofs::Compared::no_collation, crate::proofs::Compared::met))]
pub fn meet<K: Naming>(
    alloc: Global,
    known: &K,
    left: &Expr,
    right: &Expr,
) -> Result<Meeting, Refusal>
    ensures { Meets (K.known known.now) left.now right.now result }
{
    let meeting = meeting(alloc, left, right)?;
    check_collation(alloc, known, &meeting.collation)?;
    Ok(meeting)
}

/// A comparison of two operands.
///
/// # Errors
/// `NoSuchCollation` just where there is no collation of the name that the operands bring; `Memory`.
#[tactic(auto, using(crate::proofs::Compared::memory, crate::proofs::Compared::refused, crate::proofs::Compared::made))]
pub fn compared<K: Naming>(
    alloc: Global,
    known: &K,
    op: Comparison,
    left: Made<Expr>,
    right: Made<Expr>,
) -> Result<Made<Expr>, Refusal>
    ensures { Compares (K.known known.now) op left right result }
{
    let meeting = meet(alloc, known, &left.made, &right.made);
    meeting.and_then(|meeting| Ok(comparison(alloc, op, meeting, left, right)?))
}

/// How an operand meets each item of IN.
///
/// # Errors
/// `NoSuchCollation` just where there is no collation of the name that the operand brings; `Memory`.
#[tactic(auto, using(crate::proofs::Amid::no_memory, crate::proofs::Amid::no_collation, crate::proofs::Amid::met))]
pub fn meet_item<K: Naming>(alloc: Global, known: &K, operand: &Expr) -> Result<Meeting, Refusal>
    ensures { MeetsItem (K.known known.now) operand.now result }
{
    let meeting = meeting_item(alloc, operand)?;
    check_collation(alloc, known, &meeting.collation)?;
    Ok(meeting)
}

// IN, with how its operand meets an item.
fn membership(
    alloc: Global,
    is_negated: bool,
    meeting: Meeting,
    operand: Made<Expr>,
    items: Made<Items<Expr>>,
) -> Result<Made<Expr>, AllocError>
    ensures { IfOk result (λ m. told m ≡ with_both (e.In is_negated meeting) (told operand) (told items)) }
{
    Ok(Made {
        made: Expr::In(
            is_negated,
            meeting,
            Boxed::new(alloc, operand.made)?,
            items.made,
        ),
        is_misplaced: operand.is_misplaced || items.is_misplaced,
    })
}

/// An operand among items, or not.
///
/// # Errors
/// `NoSuchCollation` just where there is no collation of the name that the operand brings; `Memory`.
#[tactic(auto, using(crate::proofs::Amid::memory, crate::proofs::Amid::refused, crate::proofs::Amid::made))]
pub fn among<K: Naming>(
    alloc: Global,
    known: &K,
    is_negated: bool,
    operand: Made<Expr>,
    items: Made<Items<Expr>>,
) -> Result<Made<Expr>, Refusal>
    ensures { IsAmong (K.known known.now) is_negated operand items result }
{
    let meeting = meet_item(alloc, known, &operand.made);
    meeting.and_then(|meeting| Ok(membership(alloc, is_negated, meeting, operand, items)?))
}

// How an operand meets two bounds.
#[derive(Drop)]
struct Meetings {
    low: Meeting,
    high: Meeting,
}

// How an operand meets two bounds, the first bound before the second.
#[tactic(auto, using(crate::proofs::Within::no_memory, crate::proofs::Within::low_refused, crate::proofs::Within::high_refused, crate::proofs::Within::met))]
fn meet_bounds<K: Naming>(
    alloc: Global,
    known: &K,
    operand: &Expr,
    low: &Expr,
    high: &Expr,
) -> Result<Meetings, Refusal>
    ensures { MeetsBounds (K.known known.now) operand.now low.now high.now result }
{
    let low = meet(alloc, known, operand, low)?;
    let high = meet(alloc, known, operand, high)?;
    Ok(Meetings { low, high })
}

// BETWEEN, with how its operand meets each bound.
fn within(
    is_negated: bool,
    meetings: Meetings,
    operand: Made<Boxed<Expr>>,
    low: Made<Boxed<Expr>>,
    high: Made<Boxed<Expr>>,
) -> Made<Expr>
    ensures { told result ≡ with_both (λ f h. f h) (with_both (e.Between is_negated meetings.low meetings.high) (told operand) (told low)) (told high) }
{
    let is_misplaced = (operand.is_misplaced || low.is_misplaced) || high.is_misplaced;
    Made {
        made: Expr::Between(
            is_negated,
            meetings.low,
            meetings.high,
            operand.made,
            low.made,
            high.made,
        ),
        is_misplaced,
    }
}

/// An operand between two bounds, or not.
///
/// # Errors
/// `NoSuchCollation` of the first bound where there is no collation of the name that it and the operand bring; `Memory`.
#[tactic(auto, using(crate::proofs::Within::memory, crate::proofs::Within::refused, crate::proofs::Within::made))]
pub fn between<K: Naming>(
    alloc: Global,
    known: &K,
    is_negated: bool,
    operand: Made<Boxed<Expr>>,
    low: Made<Boxed<Expr>>,
    high: Made<Boxed<Expr>>,
) -> Result<Made<Expr>, Refusal>
    ensures { IsBetween (K.known known.now) is_negated operand low high result }
{
    let meetings = meet_bounds(
        alloc,
        known,
        operand.made.get(),
        low.made.get(),
        high.made.get(),
    )?;
    Ok(within(is_negated, meetings, operand, low, high))
}
