//! Expressions as trees: parentheses are gone, and what binds more tightly stands deeper.

use cr_value::text::Text;
use cr_value::value::Value;
use sqlite_items::{Boxed, Items};

/// What stands before or behind one operand.
#[derive(Clone, Copy, Debug, PartialEq, Eq)]
pub enum Unary {
    Not,
    Plus,
    Minus,
    /// `ISNULL`
    IsNull,
    /// `NOTNULL` or `NOT NULL`
    NotNull,
}

/// What stands between two operands.
#[derive(Clone, Copy, Debug, PartialEq, Eq)]
pub enum Binary {
    Or,
    And,
    /// `=` or `==`
    Equal,
    /// `<>` or `!=`
    Unequal,
    Is,
    IsNot,
    Like,
    NotLike,
    Less,
    AtMost,
    Greater,
    AtLeast,
    Add,
    Subtract,
    Multiply,
    Divide,
    Remainder,
    /// `||`
    Join,
}

/// An expression.
#[cycle(tree)]
#[derive(Drop)]
pub enum Expr {
    Literal(Value),
    /// By its number, from 1 to 999; 1000 stands for every greater one, and 0 for `?0`.
    Param(u16),
    /// A source's name, if it is written, and a column's.
    Column(Option<Text>, Text),
    Unary(Unary, Boxed<Expr>),
    Binary(Binary, Boxed<Expr>, Boxed<Expr>),
    /// An operand and a collation's name.
    Collate(Boxed<Expr>, Text),
    /// Whether NOT stands before IN, an operand, and what it may be.
    In(bool, Boxed<Expr>, Items<Expr>),
    /// Whether NOT stands before BETWEEN, an operand, and the two bounds.
    Between(bool, Boxed<Expr>, Boxed<Expr>, Boxed<Expr>),
    /// A function's name and its arguments.
    Call(Text, Items<Expr>),
    /// `count(*)`
    CountAll,
    /// An operand, and the words of a type.
    Cast(Boxed<Expr>, Items<Text>),
    /// The operand, if there is one, the arms, and what stands after ELSE.
    Case(Option<Boxed<Expr>>, Items<When>, Option<Boxed<Expr>>),
}

/// An arm of a CASE.
#[cycle(tree)]
#[derive(Drop)]
pub struct When {
    pub when: Expr,
    pub then: Expr,
}
