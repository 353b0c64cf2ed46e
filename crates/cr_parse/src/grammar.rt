//! Expressions within limits. The rules take the parser of smaller expressions as a parameter, so that each is proved
//! by itself.

ghost use Rattle.std.specs.Prelude.{◌≡◌, ◌≤◌, ◌<◌, if◌then◌else◌, IfOk};
ghost use Rattle.cr_tree.specs.Reading as spec;
ghost use Rattle.cr_tree.specs.Grammar as grammar;
ghost use Rattle.cr_parse.specs.Given.{Gives, Nests};

use crate::cursor::Cursor;
use crate::fault::Fault;
use cr_tree::expr::Expr;
use cr_tree::limits::{LimitKind, Limits};
use cr_tree::symbol::{Mark, Symbol};
use cr_value::value::Value;
use std::alloc::{AllocError, Global};

/// The rules of expressions.
#[derive(Clone, Copy)]
pub struct Grammar<F> {
    pub alloc: Global,
    /// What is left of the limits.
    pub limits: Limits,
    /// The parser of expressions with fewer parentheses or less room.
    pub expr: F,
}

/// How tightly what begins so behind an operand binds, or 0.
pub fn binding(symbol: &Symbol) -> u8
    ensures value { result ≡ spec.binding symbol.now }
    ensures low { result ≤ 9 }
{
    let Symbol::Mark(mark) = symbol else {
        return 0;
    };
    match mark {
        Mark::Or => 1,
        Mark::And => 2,
        Mark::Equal
        | Mark::DoubleEqual
        | Mark::Unequal
        | Mark::BangEqual
        | Mark::Is
        | Mark::In
        | Mark::Like
        | Mark::Between
        | Mark::IsNull
        | Mark::NotNull
        | Mark::Not => 4,
        Mark::Less | Mark::AtMost | Mark::Greater | Mark::AtLeast => 5,
        Mark::Plus | Mark::Minus => 6,
        Mark::Star | Mark::Slash | Mark::Percent => 7,
        Mark::Bars => 8,
        Mark::Collate => 9,
        _ => 0,
    }
}

/// A literal, NULL or a parameter, if the symbol is one.
pub fn leaf(alloc: Global, symbol: &Symbol) -> Result<Option<Expr>, AllocError>
    ensures { IfOk result (λ x. x ≡ grammar.leaf symbol.now) }
{
    Ok(Some(match symbol {
        Symbol::Mark(Mark::Null) => Expr::Literal(Value::Null),
        Symbol::Number(n) if *n < 1 << 63 => Expr::Literal(Value::Int(*n as i64)),
        Symbol::Bits(n) => Expr::Literal(Value::Int(*n)),
        Symbol::Text(text) => Expr::Literal(Value::Text(text.copy(alloc)?)),
        Symbol::Blob(bytes) => Expr::Literal(Value::Blob(bytes.copy(alloc)?)),
        Symbol::Param(n) => Expr::Param(*n),
        _ => return Ok(None),
    }))
}

// Whether an expression that binds so tightly can begin so.
#[tactic(auto, unfolding(cr_tree::specs::Reading::begins))]
fn begins(symbol: &Symbol, least: u8) -> bool
    ensures { result ≡ spec.begins least symbol.now }
{
    match symbol {
        Symbol::Mark(mark) => match mark {
            Mark::Null | Mark::Minus | Mark::Plus | Mark::Open | Mark::Case | Mark::Cast => true,
            Mark::Not => least <= 3,
            _ => false,
        },
        Symbol::Number(n) => *n < 1 << 63,
        Symbol::Bits(_) | Symbol::Text(_) | Symbol::Blob(_) | Symbol::Param(_) | Symbol::Name(_) =>
            true,
        Symbol::Other => false,
    }
}

// Why there is no expression where a tree would be too high.
fn too_high(tokens: &Cursor<'_>, least: u8) -> Fault
    ensures { result ≡ (if spec.begins_at least (spec.head tokens.now) then Fault.Limit LimitKind.Depth else Fault.Syntax) }
{
    match tokens.peek() {
        Some(symbol) if begins(symbol, least) => Fault::Limit(LimitKind::Depth),
        _ => Fault::Syntax,
    }
}

impl<F: Fn(Global, &mut Cursor<'_>, Limits, u8) -> Result<(Expr, u8), Fault>> Grammar<F> {
    /// An expression in parentheses, with its height.
    #[tactic(auto, using(cr_tree::proofs::Knot::inside_expr))]
    pub fn inside(&self, tokens: &mut Cursor<'_>) -> Result<(Expr, u8), Fault>
        requires nests { Nests self.now.limits (F.pre self.now.expr) (F.post self.now.expr) }
        requires opens { 0 < self.now.limits.opens }
        ensures reads { Gives (λ x. x) ((spec.rules_of self.now.limits).inside tokens.old) result tokens.new }
        ensures low { IfOk result (λ x. x.1 ≤ self.now.limits.room) }
    {
        let limits = Limits {
            opens: self.limits.opens - 1,
            ..self.limits
        };
        (self.expr)(self.alloc, tokens, limits, 1)
    }

    /// An argument, with its height.
    #[tactic(auto, using(cr_tree::proofs::Knot::argument_expr, cr_tree::proofs::Knot::argument_high), unfolding(cr_tree::specs::Reading::too_high))]
    pub fn argument(&self, tokens: &mut Cursor<'_>) -> Result<(Expr, u8), Fault>
        requires nests { Nests self.now.limits (F.pre self.now.expr) (F.post self.now.expr) }
        requires opens { 0 < self.now.limits.opens }
        ensures reads { Gives (λ x. x) ((spec.rules_of self.now.limits).argument tokens.old) result tokens.new }
        ensures low { IfOk result (λ x. x.1 < self.now.limits.room) }
    {
        if self.limits.room == 0 {
            return Err(too_high(tokens, 1));
        }
        let limits = Limits {
            opens: self.limits.opens - 1,
            room: self.limits.room - 1,
            ..self.limits
        };
        (self.expr)(self.alloc, tokens, limits, 1)
    }

    /// An operand, with its height.
    #[tactic(auto, using(cr_tree::proofs::Knot::below_expr, cr_tree::proofs::Knot::below_high), unfolding(cr_tree::specs::Reading::too_high))]
    pub fn below(&self, tokens: &mut Cursor<'_>, least: u8) -> Result<(Expr, u8), Fault>
        requires nests { Nests self.now.limits (F.pre self.now.expr) (F.post self.now.expr) }
        ensures reads { Gives (λ x. x) ((spec.rules_of self.now.limits).below least tokens.old) result tokens.new }
        ensures low { IfOk result (λ x. x.1 < self.now.limits.room) }
        ensures small { IfOk result (λ x. x.1 < 255) }
    {
        if self.limits.room == 0 {
            return Err(too_high(tokens, least));
        }
        let limits = Limits {
            room: self.limits.room - 1,
            ..self.limits
        };
        (self.expr)(self.alloc, tokens, limits, least)
    }
}
