//! The integer above which terms want a column to be.

ghost use Rattle.std.specs.Prelude.{◌≡◌, IfOk};
ghost use Rattle.cr_sought.specs.Bounds.{bound, lower_bound};

use crate::pin::{constant, is_column, on_left, on_right};
use cr_term::expr::Expr;
use cr_term::operator::Comparison;
use cr_value::value::Value;
use std::alloc::{AllocError, Global};

// The value above which the column at a place has to be where a term is true, if the term tells it.
fn bound(
    alloc: Global,
    params: &[Value],
    at: usize,
    term: &Expr,
) -> Result<Option<Value>, AllocError>
    ensures { IfOk result (λ o. o ≡ bound params.now at term.now) }
{
    let Expr::Compare(comparison, meeting, left, right) = term else {
        return Ok(None);
    };
    let (column, other) = match comparison {
        Comparison::Greater => (left.get(), right.get()),
        Comparison::Less => (right.get(), left.get()),
        _ => return Ok(None),
    };
    if !is_column(at, column) {
        return Ok(None);
    }
    let Some(value) = constant(params, other) else {
        return Ok(None);
    };
    match comparison {
        Comparison::Greater => on_right(alloc, meeting.adjusted, value),
        _ => on_left(alloc, meeting.adjusted, value),
    }
}

/// The integer above which the column at a place has to be where the terms are true; `None` where they do not tell one. They
/// tell it where one of them is `column > constant` or `constant < column`, with the column's value as it is, and the constant
/// an integer, or made one by the column's affinity.
///
/// `params` are the parameters' values, from number 1 on. Fails for want of memory alone.
pub fn lower_bound(
    alloc: Global,
    terms: &[Expr],
    params: &[Value],
    at: usize,
) -> Result<Option<i64>, AllocError>
    ensures { IfOk result (λ o. o ≡ lower_bound params.now terms.now at) }
{
    for term in terms {
        if let Some(Value::Int(least)) = bound(alloc, params, at, term)? {
            return Ok(Some(least));
        }
    }
    Ok(None)
}
