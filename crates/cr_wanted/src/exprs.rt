//! Expressions where they stand.

ghost use Rattle.std.specs.Prelude.{◌≡◌, map, IfOk};
ghost use Rattle.cr_meaning.specs.View.{plain};
ghost use Rattle.cr_exec.specs.Scopes.{there};
ghost use Rattle.cr_wanted.specs.Rows.{assigned_expr, place_of};

use cr_term::expr::Expr;
use cr_term::query::Assignment;
use std::alloc::{AllocError, Global};

/// The expressions of a list, where they stand.
///
/// # Errors
/// `AllocError` where memory runs out.
pub fn there_of<'q>(alloc: Global, exprs: &'q [Expr]) -> Result<Vec<&'q Expr>, AllocError>
    ensures { IfOk result (λ v. map there v.items ≡ map plain exprs.now) }
{
    let mut out = Vec::new(alloc);
    for expr in exprs {
        out.push(expr)?;
    }
    Ok(out)
}

// The expressions of assignments.
pub(crate) fn exprs_of<'q>(
    alloc: Global,
    assignments: &'q [Assignment],
) -> Result<Vec<&'q Expr>, AllocError>
    ensures { IfOk result (λ v. map there v.items ≡ map assigned_expr assignments.now) }
{
    let mut out = Vec::new(alloc);
    for assignment in assignments {
        out.push(&assignment.value)?;
    }
    Ok(out)
}

// The places of the columns that take their values.
pub(crate) fn places_of(alloc: Global, assignments: &[Assignment]) -> Result<Vec<usize>, AllocError>
    ensures { IfOk result (λ v. v.items ≡ map place_of assignments.now) }
{
    let mut out = Vec::new(alloc);
    for assignment in assignments {
        out.push(assignment.column)?;
    }
    Ok(out)
}
