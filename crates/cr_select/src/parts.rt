//! Parts of a SELECT that need not be there.

ghost use Rattle.std.specs.Prelude.{◌≡◌, ◌||◌, IfOk};
ghost use Rattle.std.specs.Option.{option_map};
ghost use Rattle.cr_term.specs.Terms.{terms_of};
ghost use Rattle.cr_resolve.specs.Reading.{if_any};
ghost use Rattle.cr_resolve.specs.Expressions.{expr};
ghost use Rattle.cr_resolve.specs.Told.{Reads};

use cr_resolve::expressions::expr;
use cr_resolve::naming::Naming;
use cr_resolve::reading::Made;
use cr_resolve::refusal::Refusal;
use cr_resolve::scope::Source;
use cr_term::expr::Expr;
use cr_term::terms::and_terms;
use cr_tree::expr::Expr as Tree;
use sqlite_items::{Boxed, Items};
use std::alloc::{AllocError, Global};

/// An expression that need not be there, with the sources in sight, where aggregates may or may not stand.
///
/// # Errors
/// The first that stands against one of its names, from left to right; `Memory`.
pub fn expr_if_any<K: Naming>(
    alloc: Global,
    known: &K,
    sources: &[Source],
    may_aggregate: bool,
    tree: &Option<Tree>,
) -> Result<Made<Option<Boxed<Expr>>>, Refusal>
    ensures { Reads (if_any (option_map (expr (K.known known.now) sources.now may_aggregate) tree.now)) result }
{
    match tree {
        Some(tree) => {
            let expr = expr(alloc, known, sources, may_aggregate, tree)?;
            let is_misplaced = expr.is_misplaced;
            Ok(Made {
                made: Some(Boxed::new(alloc, expr.made)?),
                is_misplaced,
            })
        }
        None => Ok(Made {
            made: None,
            is_misplaced: false,
        }),
    }
}

/// The AND-terms of a condition, none without one. `AllocError` where memory runs out.
pub fn terms_of(alloc: Global, condition: Option<Boxed<Expr>>) -> Result<Items<Expr>, AllocError>
    ensures { IfOk result (λ ts. ts ≡ terms_of condition) }
{
    match condition {
        Some(condition) => and_terms(alloc, condition.into_inner()),
        None => Ok(Items::new(alloc)),
    }
}

/// Whether one of two holds. A function of its own, so that a loop that asks has one path.
pub fn either(left: bool, right: bool) -> bool
    ensures { result ≡ (left || right) }
{
    left || right
}
