//! The limits of statements. They are this project's own.

use thiserror::Error;

/// The most parentheses that are open at once in an expression, those of types aside.
pub const PARENTHESIS_LIMIT: u8 = 200;

/// The greatest depth of an expression: a leaf is 1, and all else one more than its deepest part.
pub const DEPTH_LIMIT: u8 = 100;

/// The most arguments of a call.
pub const ARGUMENT_LIMIT: u8 = 100;

/// The most tables of a FROM.
pub const TABLE_LIMIT: u8 = 16;

/// What a statement has too much of.
#[derive(Clone, Copy, Debug, PartialEq, Eq, Error)]
pub enum LimitKind {
    /// The depth of an expression, or its open parentheses.
    #[error("an expression is over 100 deep, or has over 200 open parentheses")]
    Depth,
    /// The arguments of a call.
    #[error("a call has over 100 arguments")]
    Arguments,
    /// The tables of a FROM.
    #[error("a FROM has over 16 tables")]
    Tables,
}

/// What a statement may have, counted as its reader counts down.
#[derive(Clone, Copy, Debug, PartialEq, Eq)]
pub struct Limits {
    /// How many parentheses may be open at once.
    pub opens: u8,
    /// How high the tree of an expression may be: one less than its depth.
    pub room: u8,
    /// How many commas may stand between the arguments of a call.
    pub commas: u8,
    /// How many tables may stand behind the first of a FROM.
    pub joins: u8,
}

/// The limits of this project's SQL.
pub const LIMITS: Limits = Limits {
    opens: PARENTHESIS_LIMIT,
    room: DEPTH_LIMIT - 1,
    commas: ARGUMENT_LIMIT - 1,
    joins: TABLE_LIMIT - 1,
};
