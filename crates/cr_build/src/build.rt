//! Expressions of new parts: how operands meet, and which collation a function takes, is decided again.

ghost use Rattle.std.specs.Prelude.{◌≡◌, IfOk};
ghost use Rattle.cr_term.specs.Build.{own_with, kind_with};
ghost use Rattle.cr_build.specs.Parts.{membership, range, meeting_of_arm, arm_of};

use crate::copy::{copy_aggregate, copy_built_in};
use cr_questions::operands::{
    collation_of_all, first_collation, meeting, meeting_item, no_meeting,
};
use cr_term::expr::{Expr, When};
use cr_term::operator::{Aggregate, BuiltIn, Meeting};
use sqlite_items::{Boxed, Items};
use std::alloc::{AllocError, Global};

/// IN of an operand and items. `AllocError` where memory runs out.
pub fn membership(
    alloc: Global,
    is_negated: bool,
    operand: Boxed<Expr>,
    items: Items<Expr>,
) -> Result<Expr, AllocError>
    ensures { IfOk result (λ e. e ≡ membership is_negated operand items) }
{
    let meeting = meeting_item(alloc, operand.get())?;
    Ok(Expr::In(is_negated, meeting, operand, items))
}

/// BETWEEN of an operand and its bounds. `AllocError` where memory runs out.
pub fn range(
    alloc: Global,
    is_negated: bool,
    operand: Boxed<Expr>,
    low: Boxed<Expr>,
    high: Boxed<Expr>,
) -> Result<Expr, AllocError>
    ensures { IfOk result (λ e. e ≡ range is_negated operand low high) }
{
    let above = meeting(alloc, operand.get(), low.get())?;
    let below = meeting(alloc, operand.get(), high.get())?;
    Ok(Expr::Between(is_negated, above, below, operand, low, high))
}

// How what stands behind WHEN meets the operand, if there is one.
fn meeting_of_arm(
    alloc: Global,
    operand: &Option<Boxed<Expr>>,
    when: &Expr,
) -> Result<Meeting, AllocError>
    ensures { IfOk result (λ m. m ≡ meeting_of_arm operand.now when.now) }
{
    match operand {
        Some(operand) => meeting(alloc, operand.get(), when),
        None => no_meeting(alloc),
    }
}

/// An arm of a CASE, with the operand that it meets, if there is one. `AllocError` where memory runs out.
pub fn arm(
    alloc: Global,
    operand: &Option<Boxed<Expr>>,
    when: Expr,
    then: Expr,
) -> Result<When, AllocError>
    ensures { IfOk result (λ w. w ≡ arm_of operand.now when then) }
{
    let meeting = meeting_of_arm(alloc, operand, &when);
    meeting.map(|meeting| When {
        meeting,
        when,
        then,
    })
}

/// A function of the engine, with the collation of its arguments. `AllocError` where memory runs out.
pub fn function_of(alloc: Global, function: &BuiltIn, args: &[Expr]) -> Result<BuiltIn, AllocError>
    ensures { IfOk result (λ f. f ≡ own_with function.now args.now) }
{
    match function {
        BuiltIn::Max(_) => Ok(BuiltIn::Max(first_collation(alloc, args)?)),
        BuiltIn::Min(_) => Ok(BuiltIn::Min(first_collation(alloc, args)?)),
        BuiltIn::NullIf(_) => Ok(BuiltIn::NullIf(first_collation(alloc, args)?)),
        _ => copy_built_in(alloc, function),
    }
}

/// An aggregate, with the collation of its arguments. `AllocError` where memory runs out.
pub fn aggregate_of(alloc: Global, kind: &Aggregate, args: &[Expr]) -> Result<Aggregate, AllocError>
    ensures { IfOk result (λ k. k ≡ kind_with kind.now args.now) }
{
    match kind {
        Aggregate::Max(_) => Ok(Aggregate::Max(collation_of_all(alloc, args)?)),
        Aggregate::Min(_) => Ok(Aggregate::Min(collation_of_all(alloc, args)?)),
        _ => copy_aggregate(alloc, kind),
    }
}
