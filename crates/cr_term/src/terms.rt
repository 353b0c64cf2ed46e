//! The AND-terms of a condition, and COLLATE around an expression.

ghost use Rattle.std.specs.Prelude.{◌≡◌, ◌++◌, OnOk, IfOk};
ghost use Rattle.cr_term.specs.Terms.{and_terms, without_collate};

use crate::expr::Expr;
use crate::operator::Logic;
use sqlite_items::Items;
use std::alloc::{AllocError, Global};

/// The expression without the COLLATEs around it.
#[tactic(auto, unfolding(crate::specs::At::at))]
pub fn without_collate(expr: &Expr) -> &Expr
    ensures { result.now ≡ without_collate expr.now }
{
    match expr {
        Expr::Collate(operand, _) => without_collate(operand.get()),
        _ => expr,
    }
}

// Appends the AND-terms of a condition.
#[tactic(auto, unfolding(crate::specs::At::at))]
fn push_terms(terms: &mut Vec<Expr>, condition: Expr) -> Result<(), AllocError>
    ensures { OnOk result (terms.new.items ≡ terms.old.items ++ and_terms condition) }
{
    match condition {
        Expr::Logic(Logic::And, left, right) => {
            push_terms(terms, left.into_inner())?;
            push_terms(terms, right.into_inner())
        }
        term => Ok(terms.push(term)?),
    }
}

/// The AND-terms of a condition, from left to right: what AND joins, however parentheses stand, and else the condition
/// itself.
///
/// # Errors
/// Where memory runs out.
pub fn and_terms(alloc: Global, condition: Expr) -> Result<Items<Expr>, AllocError>
    ensures { IfOk result (λ r. r ≡ and_terms condition) }
{
    let mut terms = Vec::new(alloc);
    push_terms(&mut terms, condition)?;
    Ok(Items::from_vec(terms))
}
