//! The value that terms pin a column to.

ghost use Rattle.std.specs.Prelude.{◌≡◌, IfOk};
ghost use Rattle.std.specs.Option.{option_map};
ghost use Rattle.cr_sought.specs.Sought.{column_under, constant, is_column, on_left, on_right, pin, pinned, standing};

use crate::beside::{Beside, known};
use cr_lattice::profile::BINARY;
use cr_scalar::operand::Operand;
use cr_term::expr::Expr;
use cr_term::operator::{Adjusted, Comparison};
use cr_value::order::same_bytes;
use cr_value::value::Value;
use std::alloc::{AllocError, Global};

/// The place in the row of the column that an operand is, possibly under COLLATE.
pub fn column_under(expr: &Expr) -> Option<usize>
    ensures { result ≡ option_map (λ c. c.at) (column_under expr.now) }
{
    match expr {
        Expr::Column(column) => Some(column.at),
        Expr::Collate(operand, _) => column_under(operand.get()),
        _ => None,
    }
}

/// Whether an operand is the column at a place of the row, possibly under COLLATE.
pub fn is_column(at: usize, expr: &Expr) -> bool
    ensures { result ≡ is_column at expr.now }
{
    column_under(expr) == Some(at)
}

/// The value of a literal or a parameter, possibly under COLLATE.
pub fn constant<'a>(params: &'a [Value], expr: &'a Expr) -> Option<Operand<'a>>
    ensures { result ≡ constant params.now expr.now }
{
    match expr {
        Expr::Literal(value) => Some(Operand::standing(value)),
        Expr::Param(number) => match params.get(usize::from(*number).saturating_sub(1)) {
            Some(value) => Some(Operand::standing(value)),
            None => Some(Operand::made(Value::Null)),
        },
        Expr::Collate(operand, _) => constant(params, operand.get()),
        _ => None,
    }
}

/// What a comparison makes of its right operand, where it leaves the left one as it is.
pub fn on_right(
    alloc: Global,
    adjusted: Adjusted,
    value: Operand<'_>,
) -> Result<Option<Value>, AllocError>
    ensures { IfOk result (λ o. o ≡ on_right adjusted value.entry) }
{
    match adjusted {
        Adjusted::Neither => Ok(Some(value.into_value(alloc)?)),
        Adjusted::Left(_) => Ok(None),
        Adjusted::Right(affinity) => Ok(Some(affinity.apply(alloc, value.get())?)),
    }
}

/// What a comparison makes of its left operand, where it leaves the right one as it is.
pub fn on_left(
    alloc: Global,
    adjusted: Adjusted,
    value: Operand<'_>,
) -> Result<Option<Value>, AllocError>
    ensures { IfOk result (λ o. o ≡ on_left adjusted value.entry) }
{
    match adjusted {
        Adjusted::Neither => Ok(Some(value.into_value(alloc)?)),
        Adjusted::Left(affinity) => Ok(Some(affinity.apply(alloc, value.get())?)),
        Adjusted::Right(_) => Ok(None),
    }
}

// The only value of the column at a place on which a term can be true beside a row, if the term tells it.
fn pin(
    alloc: Global,
    beside: &Beside<'_>,
    params: &[Value],
    at: usize,
    term: &Expr,
) -> Result<Option<Value>, AllocError>
    ensures { IfOk result (λ o. o ≡ pin (standing beside.now) params.now at term.now) }
{
    let Expr::Compare(Comparison::Equal, meeting, left, right) = term else {
        return Ok(None);
    };
    if !same_bytes(meeting.collation.as_str().as_bytes(), BINARY.as_bytes()) {
        return Ok(None);
    }
    if is_column(at, left.get()) {
        match known(beside, params, right.get()) {
            Some(value) => on_right(alloc, meeting.adjusted, value),
            None => Ok(None),
        }
    } else if is_column(at, right.get()) {
        match known(beside, params, left.get()) {
            Some(value) => on_left(alloc, meeting.adjusted, value),
            None => Ok(None),
        }
    } else {
        Ok(None)
    }
}

// The value by the first term that tells it.
pub(crate) fn pinned(
    alloc: Global,
    beside: &Beside<'_>,
    params: &[Value],
    terms: &[Expr],
    at: usize,
) -> Result<Option<Value>, AllocError>
    ensures { IfOk result (λ o. o ≡ pinned (standing beside.now) params.now terms.now at) }
{
    for term in terms {
        if let Some(value) = pin(alloc, beside, params, at, term)? {
            return Ok(Some(value));
        }
    }
    Ok(None)
}
