//! Expressions, by precedence climbing.

ghost use Rattle.std.specs.Prelude.{◌≡◌, ◌≤◌, ◌<◌, IfOk};
ghost use Rattle.cr_tree.specs.Reading as spec;
ghost use Rattle.cr_parse.specs.Given.{Gives, Nests};

use crate::cursor::Cursor;
use crate::fault::Fault;
use crate::grammar::{Grammar, binding};
use cr_tree::expr::Expr;
use cr_tree::limits::{LimitKind, Limits};
use cr_tree::symbol::{Mark, Symbol};
use std::alloc::Global;

impl<F: Fn(Global, &mut Cursor<'_>, Limits, u8) -> Result<(Expr, u8), Fault>> Grammar<F> {
    /// Goes on from what stands to the left with what binds at least and at most so tightly.
    #[tactic(auto, unfolding(cr_tree::specs::Reading::climb, cr_tree::specs::Reading::tail))]
    pub fn climb(
        &self,
        tokens: &mut Cursor<'_>,
        least: u8,
        most: u8,
        left: Expr,
        start: u8,
    ) -> Result<(Expr, u8), Fault>
        requires nests { Nests self.now.limits (F.pre self.now.expr) (F.post self.now.expr) }
        requires left { start ≤ self.now.limits.room }
        ensures reads { Gives (λ x. x) (spec.climb self.now.limits (spec.rules_of self.now.limits) self.now.limits.room least most (left, start) tokens.old) result tokens.new }
        ensures low { IfOk result (λ x. x.1 ≤ self.now.limits.room) }
    {
        let mut tree = left;
        let mut height = start;
        let mut bound = most;
        for _turn in 0..self.limits.room {
            let Some(symbol) = tokens.peek() else {
                return Ok((tree, height));
            };
            let binds = binding(symbol);
            if binds < least || binds > bound {
                return Ok((tree, height));
            }
            if height >= self.limits.room {
                drop(tree);
                return Err(Fault::Limit(LimitKind::Depth));
            }
            (tree, height) = self.tail(tokens, symbol, tree, height)?;
            bound = binds;
        }
        match tokens.peek() {
            Some(symbol) if least <= binding(symbol) && binding(symbol) <= bound => {
                drop(tree);
                Err(Fault::Limit(LimitKind::Depth))
            }
            _ => Ok((tree, height)),
        }
    }

    /// An expression that binds at least so tightly, with its height.
    #[tactic(auto, unfolding(cr_tree::specs::Reading::level))]
    pub fn level(&self, tokens: &mut Cursor<'_>, least: u8) -> Result<(Expr, u8), Fault>
        requires nests { Nests self.now.limits (F.pre self.now.expr) (F.post self.now.expr) }
        ensures reads { Gives (λ x. x) (spec.level self.now.limits (spec.rules_of self.now.limits) least tokens.old) result tokens.new }
        ensures low { IfOk result (λ x. x.1 ≤ self.now.limits.room) }
    {
        let Some(symbol) = tokens.peek() else {
            return Err(Fault::Syntax);
        };
        let most = ceiling(symbol);
        let (left, height) = self.first(tokens, symbol, least)?;
        self.climb(tokens, least, most, left, height)
    }
}

// How tightly what begins so binds at least, if nothing is behind it.
fn ceiling(symbol: &Symbol) -> u8
    ensures { result ≡ spec.ceiling symbol.now }
{
    match symbol {
        Symbol::Mark(Mark::Not) => 3,
        _ => 10,
    }
}

/// An expression within limits that binds at least so tightly, with its height.
#[tactic(auto, using(cr_tree::proofs::Knot::expr_level))]
pub fn expr(
    alloc: Global,
    tokens: &mut Cursor<'_>,
    limits: Limits,
    least: u8,
) -> Result<(Expr, u8), Fault>
    ensures reads { Gives (λ x. x) (spec.expr limits least tokens.old) result tokens.new }
    ensures low { IfOk result (λ x. x.1 ≤ limits.room) }
{
    Grammar {
        alloc,
        limits,
        expr,
    }
    .level(tokens, least)
}
