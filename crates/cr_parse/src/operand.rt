//! Operands: what an expression begins with.

ghost use Rattle.std.specs.Prelude.{[], ◌∷◌, ◌≡◌, ◌≤◌, ◌<◌, ◌^◌, max, pos, neg_ℤ, IfOk};
ghost use Rattle.std.specs.Str.{bytes_eq};
ghost use Rattle.cr_tree.specs.declared.expr.When.{roll-When};
ghost use Rattle.cr_tree.specs.Reading as spec;
ghost use Rattle.cr_tree.specs.Grammar as grammar;
ghost use Rattle.cr_parse.specs.Given.{Gives, Nests};

use crate::cursor::Cursor;
use crate::fault::Fault;
use crate::grammar::{Grammar, leaf};
use crate::sizes::sizes;
use cr_tree::expr::{Expr, Unary, When};
use cr_tree::limits::{LimitKind, Limits};
use cr_tree::symbol::{Mark, Symbol};
use cr_value::text::Text;
use cr_value::value::Value;
use sqlite_items::{Boxed, Items};
use std::alloc::{AllocError, Global};

// The integer below zero that is so far from it.
fn below_zero(n: u64) -> i64
    requires { n ≤ 2 ^ 63 }
    ensures { result ≡ neg_ℤ (pos n) }
{
    if n < 1 << 63 { -(n as i64) } else { i64::MIN }
}

fn unary(alloc: Global, op: Unary, operand: (Expr, u8)) -> Result<(Expr, u8), AllocError>
    requires { operand.1 < 255 }
    ensures { IfOk result (λ x. x ≡ spec.above (Expr.Unary op) operand) }
{
    Ok((
        Expr::Unary(op, Boxed::new(alloc, operand.0)?),
        operand.1 + 1,
    ))
}

// An arm of a CASE, with its height.
fn arm_of(when: (Expr, u8), then: (Expr, u8)) -> (When, u8)
    ensures { result ≡ (roll-When (record { when = when.0; then = then.0 }), max when.1 then.1) }
{
    (
        When {
            when: when.0,
            then: then.0,
        },
        when.1.max(then.1),
    )
}

fn is_count(name: &Text) -> bool
    ensures { result ≡ bytes_eq name.now grammar.count_name }
{
    name.as_str() == "count"
}

/// The names of a type, as many as there are.
#[tactic(auto, unfolding(cr_tree::specs::Reading::many))]
pub fn more_names(alloc: Global, tokens: &mut Cursor<'_>, first: Text) -> Result<Items<Text>, Fault>
    ensures { Gives (λ x. x) (spec.many spec.is_name spec.name spec.listed (first ∷ []) tokens.old) result tokens.new }
{
    let mut all = Items::new(alloc);
    all.push(first)?;
    for _turn in 0..tokens.len() {
        if !tokens.sees_name() {
            break;
        }
        let name = tokens.name(alloc)?;
        all.push(name)?;
    }
    Ok(all)
}

/// The words of a type, and behind them sizes, which are dropped.
#[tactic(auto, unfolding(cr_tree::specs::Reading::type_words))]
pub fn type_words(alloc: Global, tokens: &mut Cursor<'_>) -> Result<Items<Text>, Fault>
    ensures { Gives (λ x. x) (spec.type_words tokens.old) result tokens.new }
{
    let first = tokens.name(alloc)?;
    let all = more_names(alloc, tokens, first)?;
    sizes(tokens)?;
    Ok(all)
}

impl<F: Fn(Global, &mut Cursor<'_>, Limits, u8) -> Result<(Expr, u8), Fault>> Grammar<F> {
    /// One item or more, with the greatest height.
    #[tactic(auto, unfolding(cr_tree::specs::Reading::items))]
    pub fn items(&self, tokens: &mut Cursor<'_>) -> Result<(Items<Expr>, u8), Fault>
        requires nests { Nests self.now.limits (F.pre self.now.expr) (F.post self.now.expr) }
        requires opens { 0 < self.now.limits.opens }
        ensures reads { Gives (λ x. x) (spec.items self.now.limits (spec.rules_of self.now.limits) tokens.old) result tokens.new }
        ensures low { IfOk result (λ x. x.1 < self.now.limits.room) }
    {
        let (first, mut height) = self.argument(tokens)?;
        let mut all = Items::new(self.alloc);
        all.push(first)?;
        for _turn in 0..tokens.len() {
            if !tokens.sees(Mark::Comma) {
                break;
            }
            tokens.take();
            let (next, more) = self.argument(tokens)?;
            all.push(next)?;
            height = height.max(more);
        }
        Ok((all, height))
    }

    /// One argument or more, as many as a call may have, with the greatest height.
    #[tactic(auto, unfolding(cr_tree::specs::Reading::arguments))]
    fn arguments(&self, tokens: &mut Cursor<'_>) -> Result<(Items<Expr>, u8), Fault>
        requires nests { Nests self.now.limits (F.pre self.now.expr) (F.post self.now.expr) }
        requires opens { 0 < self.now.limits.opens }
        ensures reads { Gives (λ x. x) (spec.arguments self.now.limits (spec.rules_of self.now.limits) tokens.old) result tokens.new }
        ensures low { IfOk result (λ x. x.1 < self.now.limits.room) }
    {
        let (first, mut height) = self.argument(tokens)?;
        let mut all = Items::new(self.alloc);
        all.push(first)?;
        for _turn in 0..self.limits.commas {
            if !tokens.sees(Mark::Comma) {
                return Ok((all, height));
            }
            tokens.take();
            let (next, more) = self.argument(tokens)?;
            all.push(next)?;
            height = height.max(more);
        }
        if tokens.sees(Mark::Comma) {
            return Err(Fault::Limit(LimitKind::Arguments));
        }
        Ok((all, height))
    }

    #[tactic(auto, unfolding(cr_tree::specs::Reading::called))]
    fn listed(&self, tokens: &mut Cursor<'_>, name: Text) -> Result<(Expr, u8), Fault>
        requires nests { Nests self.now.limits (F.pre self.now.expr) (F.post self.now.expr) }
        requires opens { 0 < self.now.limits.opens }
        ensures reads { Gives (λ x. x) (spec.called self.now.limits (spec.rules_of self.now.limits) name tokens.old) result tokens.new }
        ensures low { IfOk result (λ x. x.1 ≤ self.now.limits.room) }
    {
        let (all, height) = self.arguments(tokens)?;
        prove!(height < self.limits.room);
        tokens.expect(Mark::Close)?;
        Ok((Expr::Call(name, all), height + 1))
    }

    /// After a name and a parenthesis.
    #[tactic(auto, unfolding(cr_tree::specs::Reading::call))]
    fn call(&self, tokens: &mut Cursor<'_>, name: Text) -> Result<(Expr, u8), Fault>
        requires nests { Nests self.now.limits (F.pre self.now.expr) (F.post self.now.expr) }
        requires opens { 0 < self.now.limits.opens }
        ensures reads { Gives (λ x. x) (spec.call self.now.limits (spec.rules_of self.now.limits) name tokens.old) result tokens.new }
        ensures low { IfOk result (λ x. x.1 ≤ self.now.limits.room) }
    {
        match tokens.peek() {
            None => Err(Fault::Syntax),
            Some(Symbol::Mark(Mark::Close)) => {
                tokens.take();
                Ok((Expr::Call(name, Items::new(self.alloc)), 0))
            }
            Some(Symbol::Mark(Mark::Star)) => {
                if !is_count(&name) {
                    return Err(Fault::Syntax);
                }
                tokens.take();
                tokens.expect(Mark::Close)?;
                Ok((Expr::CountAll, 0))
            }
            Some(_) => self.listed(tokens, name),
        }
    }

    /// After a name.
    #[tactic(auto, unfolding(cr_tree::specs::Reading::named))]
    pub fn named(&self, tokens: &mut Cursor<'_>, name: Text) -> Result<(Expr, u8), Fault>
        requires nests { Nests self.now.limits (F.pre self.now.expr) (F.post self.now.expr) }
        ensures reads { Gives (λ x. x) (spec.named self.now.limits (spec.rules_of self.now.limits) name tokens.old) result tokens.new }
        ensures low { IfOk result (λ x. x.1 ≤ self.now.limits.room) }
    {
        match tokens.peek() {
            Some(Symbol::Mark(Mark::Dot)) => {
                tokens.take();
                Ok((Expr::Column(Some(name), tokens.name(self.alloc)?), 0))
            }
            Some(Symbol::Mark(Mark::Open)) => {
                if self.limits.opens == 0 {
                    return Err(Fault::Limit(LimitKind::Depth));
                }
                tokens.take();
                self.call(tokens, name)
            }
            _ => Ok((Expr::Column(None, name), 0)),
        }
    }

    /// After a minus.
    #[tactic(auto, unfolding(cr_tree::specs::Reading::minus))]
    fn minus(&self, tokens: &mut Cursor<'_>) -> Result<(Expr, u8), Fault>
        requires nests { Nests self.now.limits (F.pre self.now.expr) (F.post self.now.expr) }
        ensures reads { Gives (λ x. x) (spec.minus self.now.limits (spec.rules_of self.now.limits) tokens.old) result tokens.new }
        ensures low { IfOk result (λ x. x.1 ≤ self.now.limits.room) }
    {
        match tokens.peek() {
            None => Err(Fault::Syntax),
            Some(Symbol::Number(n)) => {
                if *n > 1 << 63 {
                    return Err(Fault::Syntax);
                }
                tokens.take();
                Ok((Expr::Literal(Value::Int(below_zero(*n))), 0))
            }
            Some(_) => {
                let operand = self.below(tokens, 10)?;
                Ok(unary(self.alloc, Unary::Minus, operand)?)
            }
        }
    }

    #[tactic(auto, unfolding(cr_tree::specs::Reading::parenthesized))]
    fn parenthesized(&self, tokens: &mut Cursor<'_>) -> Result<(Expr, u8), Fault>
        requires nests { Nests self.now.limits (F.pre self.now.expr) (F.post self.now.expr) }
        requires opens { 0 < self.now.limits.opens }
        ensures reads { Gives (λ x. x) (spec.parenthesized self.now.limits (spec.rules_of self.now.limits) tokens.old) result tokens.new }
        ensures low { IfOk result (λ x. x.1 ≤ self.now.limits.room) }
    {
        let inner = self.inside(tokens)?;
        tokens.expect(Mark::Close).map(|()| inner)
    }

    /// After CAST.
    #[tactic(auto, unfolding(cr_tree::specs::Reading::cast))]
    fn cast(&self, tokens: &mut Cursor<'_>) -> Result<(Expr, u8), Fault>
        requires nests { Nests self.now.limits (F.pre self.now.expr) (F.post self.now.expr) }
        requires opens { 0 < self.now.limits.opens }
        ensures reads { Gives (λ x. x) (spec.cast self.now.limits (spec.rules_of self.now.limits) tokens.old) result tokens.new }
        ensures low { IfOk result (λ x. x.1 ≤ self.now.limits.room) }
    {
        tokens.expect(Mark::Open)?;
        let (operand, height) = self.argument(tokens)?;
        let operand = Boxed::new(self.alloc, operand)?;
        prove!(height < self.limits.room);
        tokens.expect(Mark::As)?;
        let words = type_words(self.alloc, tokens)?;
        tokens.expect(Mark::Close)?;
        Ok((Expr::Cast(operand, words), height + 1))
    }

    /// The operand of a CASE, if there is one.
    #[tactic(auto, unfolding(cr_tree::specs::Reading::subject))]
    fn subject(&self, tokens: &mut Cursor<'_>) -> Result<(Option<Boxed<Expr>>, u8), Fault>
        requires nests { Nests self.now.limits (F.pre self.now.expr) (F.post self.now.expr) }
        ensures reads { Gives (λ x. x) (spec.subject self.now.limits (spec.rules_of self.now.limits) tokens.old) result tokens.new }
        ensures low { IfOk result (λ x. 0 < self.now.limits.room → x.1 < self.now.limits.room) }
    {
        if tokens.peek().is_none() {
            return Err(Fault::Syntax);
        }
        if tokens.sees(Mark::When) {
            return Ok((None, 0));
        }
        let (tree, height) = self.below(tokens, 1)?;
        Ok((Some(Boxed::new(self.alloc, tree)?), height))
    }

    /// ELSE and what stands behind it, if it is there.
    #[tactic(auto, unfolding(cr_tree::specs::Reading::otherwise))]
    fn otherwise(&self, tokens: &mut Cursor<'_>) -> Result<(Option<Boxed<Expr>>, u8), Fault>
        requires nests { Nests self.now.limits (F.pre self.now.expr) (F.post self.now.expr) }
        ensures reads { Gives (λ x. x) (spec.otherwise self.now.limits (spec.rules_of self.now.limits) tokens.old) result tokens.new }
        ensures low { IfOk result (λ x. 0 < self.now.limits.room → x.1 < self.now.limits.room) }
    {
        if !tokens.sees(Mark::Else) {
            return Ok((None, 0));
        }
        tokens.expect(Mark::Else)?;
        let (tree, height) = self.below(tokens, 1)?;
        Ok((Some(Boxed::new(self.alloc, tree)?), height))
    }

    #[tactic(auto, unfolding(cr_tree::specs::Reading::arm))]
    fn arm(&self, tokens: &mut Cursor<'_>) -> Result<(When, u8), Fault>
        requires nests { Nests self.now.limits (F.pre self.now.expr) (F.post self.now.expr) }
        ensures reads { Gives (λ x. x) (spec.arm self.now.limits (spec.rules_of self.now.limits) tokens.old) result tokens.new }
        ensures low { IfOk result (λ x. x.1 < self.now.limits.room) }
    {
        tokens.expect(Mark::When)?;
        let when = self.below(tokens, 1)?;
        tokens.expect(Mark::Then)?;
        let then = self.below(tokens, 1)?;
        Ok(arm_of(when, then))
    }

    /// One arm or more, with the greatest height.
    #[tactic(auto, unfolding(cr_tree::specs::Reading::arms))]
    fn arms(&self, tokens: &mut Cursor<'_>) -> Result<(Items<When>, u8), Fault>
        requires nests { Nests self.now.limits (F.pre self.now.expr) (F.post self.now.expr) }
        ensures reads { Gives (λ x. x) (spec.arms self.now.limits (spec.rules_of self.now.limits) tokens.old) result tokens.new }
        ensures low { IfOk result (λ x. x.1 < self.now.limits.room) }
    {
        let (first, mut height) = self.arm(tokens)?;
        let mut all = Items::new(self.alloc);
        all.push(first)?;
        for _turn in 0..tokens.len() {
            if !tokens.sees(Mark::When) {
                break;
            }
            let (next, more) = self.arm(tokens)?;
            all.push(next)?;
            height = height.max(more);
        }
        Ok((all, height))
    }

    /// After CASE.
    #[tactic(auto, unfolding(cr_tree::specs::Reading::case))]
    fn case(&self, tokens: &mut Cursor<'_>) -> Result<(Expr, u8), Fault>
        requires nests { Nests self.now.limits (F.pre self.now.expr) (F.post self.now.expr) }
        requires room { 0 < self.now.limits.room }
        ensures reads { Gives (λ x. x) (spec.case self.now.limits (spec.rules_of self.now.limits) tokens.old) result tokens.new }
        ensures low { IfOk result (λ x. x.1 ≤ self.now.limits.room) }
    {
        prove!(self.limits.room > 0);
        let (subject, first) = self.subject(tokens)?;
        let (arms, second) = self.arms(tokens)?;
        let (otherwise, third) = self.otherwise(tokens)?;
        tokens.expect(Mark::End)?;
        Ok((
            Expr::Case(subject, arms, otherwise),
            first.max(second.max(third)) + 1,
        ))
    }

    #[tactic(auto, unfolding(cr_tree::specs::Reading::prefixed))]
    fn prefixed(&self, tokens: &mut Cursor<'_>, op: Unary, least: u8) -> Result<(Expr, u8), Fault>
        requires nests { Nests self.now.limits (F.pre self.now.expr) (F.post self.now.expr) }
        ensures reads { Gives (λ x. x) (spec.prefixed self.now.limits (spec.rules_of self.now.limits) op least tokens.old) result tokens.new }
        ensures low { IfOk result (λ x. x.1 ≤ self.now.limits.room) }
    {
        if self.limits.room == 0 {
            return Err(Fault::Limit(LimitKind::Depth));
        }
        tokens.take();
        let operand = self.below(tokens, least)?;
        Ok(unary(self.alloc, op, operand)?)
    }

    /// What an expression begins with.
    #[tactic(auto, unfolding(cr_tree::specs::Reading::prefixed))]
    pub fn first(
        &self,
        tokens: &mut Cursor<'_>,
        symbol: &Symbol,
        least: u8,
    ) -> Result<(Expr, u8), Fault>
        requires nests { Nests self.now.limits (F.pre self.now.expr) (F.post self.now.expr) }
        ensures reads { Gives (λ x. x) (spec.first_by self.now.limits (spec.rules_of self.now.limits) least symbol.now tokens.old) result tokens.new }
        ensures low { IfOk result (λ x. x.1 ≤ self.now.limits.room) }
    {
        match symbol {
            Symbol::Mark(Mark::Not) if least > 3 => Err(Fault::Syntax),
            Symbol::Mark(Mark::Not) => self.prefixed(tokens, Unary::Not, 3),
            Symbol::Mark(Mark::Plus) => self.prefixed(tokens, Unary::Plus, 10),
            Symbol::Mark(Mark::Minus) => {
                tokens.take();
                self.minus(tokens)
            }
            Symbol::Mark(Mark::Open | Mark::Cast) if self.limits.opens == 0 => Err(Fault::Limit(
                LimitKind::Depth,
            )),
            Symbol::Mark(Mark::Case | Mark::Cast) if self.limits.room == 0 => Err(Fault::Limit(
                LimitKind::Depth,
            )),
            Symbol::Mark(Mark::Open) => {
                tokens.take();
                self.parenthesized(tokens)
            }
            Symbol::Mark(Mark::Case) => {
                tokens.take();
                self.case(tokens)
            }
            Symbol::Mark(Mark::Cast) => {
                tokens.take();
                self.cast(tokens)
            }
            Symbol::Name(name) => {
                let name = name.copy(self.alloc)?;
                tokens.take();
                self.named(tokens, name)
            }
            symbol => {
                let Some(tree) = leaf(self.alloc, symbol)? else {
                    return Err(Fault::Syntax);
                };
                tokens.take();
                Ok((tree, 0))
            }
        }
    }
}
