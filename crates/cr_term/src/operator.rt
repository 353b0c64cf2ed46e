//! Operators and the engine's own functions, and how two operands meet in a comparison.

use cr_value::affinity::Affinity;
use cr_value::text::Text;

/// What stands before or behind one operand.
#[derive(Clone, Copy, Debug, PartialEq, Eq)]
pub enum Unary {
    Not,
    Plus,
    Minus,
    IsNull,
    NotNull,
}

/// An operator of two numbers.
#[derive(Clone, Copy, Debug, PartialEq, Eq)]
pub enum Arithmetic {
    Add,
    Subtract,
    Multiply,
    Divide,
    Remainder,
}

/// An operator of two truth values, which may leave its right side alone.
#[derive(Clone, Copy, Debug, PartialEq, Eq)]
pub enum Logic {
    And,
    Or,
}

/// An operator that asks how two values stand to one another.
#[derive(Clone, Copy, Debug, PartialEq, Eq)]
pub enum Comparison {
    Less,
    AtMost,
    Greater,
    AtLeast,
    Equal,
    Unequal,
    Is,
    IsNot,
}

/// Which operand of a comparison takes on an affinity first.
#[derive(Clone, Copy, Debug, PartialEq, Eq)]
pub enum Adjusted {
    Neither,
    Left(Affinity),
    Right(Affinity),
}

/// How two operands meet in a comparison: which is adjusted, and the name of the collation.
#[derive(Debug, Drop)]
pub struct Meeting {
    pub adjusted: Adjusted,
    pub collation: Text,
}

/// A scalar function of the engine itself, with the name of the collation by which it compares.
#[derive(Debug, Drop)]
pub enum BuiltIn {
    Abs,
    Coalesce,
    Hex,
    IfNull,
    Length,
    Lower,
    Max(Text),
    Min(Text),
    NullIf(Text),
    TypeOf,
    Upper,
}

/// An aggregate: one of the engine itself, with the name of the collation by which it compares, or a host's by its name.
#[derive(Debug, Drop)]
pub enum Aggregate {
    /// `count(*)`, which has no arguments.
    CountAll,
    Count,
    Max(Text),
    Min(Text),
    Sum,
    Host(Text),
}
