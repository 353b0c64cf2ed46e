//! Tails: what stands behind an operand and makes a greater expression of it.

ghost use Rattle.std.specs.Prelude.{◌≡◌, ◌≤◌, ◌<◌, suc, IfOk};
ghost use Rattle.cr_tree.specs.Reading as spec;
ghost use Rattle.cr_parse.specs.Given.{Gives, Nests};

use crate::cursor::Cursor;
use crate::fault::Fault;
use crate::grammar::{Grammar, binding};
use cr_tree::expr::{Binary, Expr, Unary};
use cr_tree::limits::{LimitKind, Limits};
use cr_tree::symbol::{Mark, Symbol};
use sqlite_items::Boxed;
use std::alloc::Global;

fn tested(op: Unary, left: Boxed<Expr>, height: u8) -> (Expr, u8)
    requires { height < 255 }
    ensures { result ≡ spec.above (Expr.Unary op) (left, height) }
{
    (Expr::Unary(op, left), height + 1)
}

// How tightly the right operand binds at least: operators group to the left.
fn beyond(symbol: &Symbol) -> u8
    ensures { result ≡ suc (spec.binding symbol.now) }
{
    binding(symbol) + 1
}

// The operator of one symbol, but for IS.
fn operator(symbol: &Symbol) -> Option<Binary>
    ensures { result ≡ spec.operator_of symbol.now }
{
    let Symbol::Mark(mark) = symbol else {
        return None;
    };
    Some(match mark {
        Mark::Or => Binary::Or,
        Mark::And => Binary::And,
        Mark::Equal | Mark::DoubleEqual => Binary::Equal,
        Mark::Unequal | Mark::BangEqual => Binary::Unequal,
        Mark::Like => Binary::Like,
        Mark::Less => Binary::Less,
        Mark::AtMost => Binary::AtMost,
        Mark::Greater => Binary::Greater,
        Mark::AtLeast => Binary::AtLeast,
        Mark::Plus => Binary::Add,
        Mark::Minus => Binary::Subtract,
        Mark::Star => Binary::Multiply,
        Mark::Slash => Binary::Divide,
        Mark::Percent => Binary::Remainder,
        Mark::Bars => Binary::Join,
        _ => return None,
    })
}

impl<F: Fn(Global, &mut Cursor<'_>, Limits, u8) -> Result<(Expr, u8), Fault>> Grammar<F> {
    #[tactic(auto, unfolding(cr_tree::specs::Reading::operated))]
    fn operated(
        &self,
        tokens: &mut Cursor<'_>,
        left: Boxed<Expr>,
        height: u8,
        least: u8,
        op: Binary,
    ) -> Result<(Expr, u8), Fault>
        requires nests { Nests self.now.limits (F.pre self.now.expr) (F.post self.now.expr) }
        requires left { height < self.now.limits.room }
        ensures reads { Gives (λ x. x) (spec.operated self.now.limits (spec.rules_of self.now.limits) (left, height) least op tokens.old) result tokens.new }
        ensures low { IfOk result (λ x. x.1 ≤ self.now.limits.room) }
    {
        prove!(height < self.limits.room);
        let (right, more) = self.below(tokens, least)?;
        let right = Boxed::new(self.alloc, right)?;
        Ok((Expr::Binary(op, left, right), height.max(more) + 1))
    }

    /// After IS.
    #[tactic(auto, unfolding(cr_tree::specs::Reading::is))]
    fn is(
        &self,
        tokens: &mut Cursor<'_>,
        left: Boxed<Expr>,
        height: u8,
    ) -> Result<(Expr, u8), Fault>
        requires nests { Nests self.now.limits (F.pre self.now.expr) (F.post self.now.expr) }
        requires left { height < self.now.limits.room }
        ensures reads { Gives (λ x. x) (spec.is self.now.limits (spec.rules_of self.now.limits) (left, height) tokens.old) result tokens.new }
        ensures low { IfOk result (λ x. x.1 ≤ self.now.limits.room) }
    {
        let op = if tokens.eat(Mark::Not) {
            Binary::IsNot
        } else {
            Binary::Is
        };
        self.operated(tokens, left, height, 5, op)
    }

    /// After BETWEEN.
    #[tactic(auto, unfolding(cr_tree::specs::Reading::between))]
    fn between(
        &self,
        tokens: &mut Cursor<'_>,
        negated: bool,
        left: Boxed<Expr>,
        height: u8,
    ) -> Result<(Expr, u8), Fault>
        requires nests { Nests self.now.limits (F.pre self.now.expr) (F.post self.now.expr) }
        requires left { height < self.now.limits.room }
        ensures reads { Gives (λ x. x) (spec.between self.now.limits (spec.rules_of self.now.limits) negated (left, height) tokens.old) result tokens.new }
        ensures low { IfOk result (λ x. x.1 ≤ self.now.limits.room) }
    {
        prove!(height < self.limits.room);
        let (low, first) = self.below(tokens, 5)?;
        let low = Boxed::new(self.alloc, low)?;
        tokens.expect(Mark::And)?;
        let (high, second) = self.below(tokens, 5)?;
        let high = Boxed::new(self.alloc, high)?;
        Ok((
            Expr::Between(negated, left, low, high),
            height.max(first.max(second)) + 1,
        ))
    }

    /// After IN.
    #[tactic(auto, unfolding(cr_tree::specs::Reading::among))]
    fn among(
        &self,
        tokens: &mut Cursor<'_>,
        negated: bool,
        left: Boxed<Expr>,
        height: u8,
    ) -> Result<(Expr, u8), Fault>
        requires nests { Nests self.now.limits (F.pre self.now.expr) (F.post self.now.expr) }
        requires opens { 0 < self.now.limits.opens }
        requires left { height < self.now.limits.room }
        ensures reads { Gives (λ x. x) (spec.among self.now.limits (spec.rules_of self.now.limits) negated (left, height) tokens.old) result tokens.new }
        ensures low { IfOk result (λ x. x.1 ≤ self.now.limits.room) }
    {
        tokens.expect(Mark::Open)?;
        prove!(height < self.limits.room);
        let (all, more) = self.items(tokens)?;
        tokens.expect(Mark::Close)?;
        Ok((Expr::In(negated, left, all), height.max(more) + 1))
    }

    /// After NOT.
    #[tactic(auto, unfolding(cr_tree::specs::Reading::negated))]
    fn negated(
        &self,
        tokens: &mut Cursor<'_>,
        left: Boxed<Expr>,
        height: u8,
    ) -> Result<(Expr, u8), Fault>
        requires nests { Nests self.now.limits (F.pre self.now.expr) (F.post self.now.expr) }
        requires left { height < self.now.limits.room }
        ensures reads { Gives (λ x. x) (spec.negated self.now.limits (spec.rules_of self.now.limits) (left, height) tokens.old) result tokens.new }
        ensures low { IfOk result (λ x. x.1 ≤ self.now.limits.room) }
    {
        prove!(height < self.limits.room);
        match tokens.peek() {
            Some(Symbol::Mark(Mark::Null)) => {
                tokens.take();
                Ok(tested(Unary::NotNull, left, height))
            }
            Some(Symbol::Mark(Mark::Like)) => {
                tokens.take();
                self.operated(tokens, left, height, 5, Binary::NotLike)
            }
            Some(Symbol::Mark(Mark::Between)) => {
                tokens.take();
                self.between(tokens, true, left, height)
            }
            Some(Symbol::Mark(Mark::In)) => {
                if self.limits.opens == 0 {
                    return Err(Fault::Limit(LimitKind::Depth));
                }
                tokens.take();
                self.among(tokens, true, left, height)
            }
            _ => Err(Fault::Syntax),
        }
    }

    /// What stands behind an operand.
    #[tactic(auto)]
    pub fn tail(
        &self,
        tokens: &mut Cursor<'_>,
        symbol: &Symbol,
        left: Expr,
        height: u8,
    ) -> Result<(Expr, u8), Fault>
        requires nests { Nests self.now.limits (F.pre self.now.expr) (F.post self.now.expr) }
        requires left { height < self.now.limits.room }
        ensures reads { Gives (λ x. x) (spec.tail_by self.now.limits (spec.rules_of self.now.limits) (left, height) symbol.now tokens.old) result tokens.new }
        ensures low { IfOk result (λ x. x.1 ≤ self.now.limits.room) }
    {
        prove!(height < self.limits.room);
        let left = Boxed::new(self.alloc, left)?;
        match symbol {
            Symbol::Mark(Mark::Not) => {
                tokens.take();
                self.negated(tokens, left, height)
            }
            Symbol::Mark(Mark::Is) => {
                tokens.take();
                self.is(tokens, left, height)
            }
            Symbol::Mark(Mark::In) => {
                if self.limits.opens == 0 {
                    return Err(Fault::Limit(LimitKind::Depth));
                }
                tokens.take();
                self.among(tokens, false, left, height)
            }
            Symbol::Mark(Mark::Between) => {
                tokens.take();
                self.between(tokens, false, left, height)
            }
            Symbol::Mark(Mark::IsNull) => {
                tokens.take();
                Ok(tested(Unary::IsNull, left, height))
            }
            Symbol::Mark(Mark::NotNull) => {
                tokens.take();
                Ok(tested(Unary::NotNull, left, height))
            }
            Symbol::Mark(Mark::Collate) => {
                tokens.take();
                let name = tokens.name(self.alloc)?;
                Ok((Expr::Collate(left, name), height + 1))
            }
            symbol => {
                let Some(op) = operator(symbol) else {
                    return Err(Fault::Syntax);
                };
                tokens.take();
                self.operated(tokens, left, height, beyond(symbol), op)
            }
        }
    }
}
