//! Expressions whose names are resolved: what a column, a function and a collation is, is decided, and how two operands
//! meet in a comparison. An evaluation needs no scope.

use crate::operator::{Aggregate, Arithmetic, BuiltIn, Comparison, Logic, Meeting, Unary};
use cr_value::affinity::Affinity;
use cr_value::cast::CastTo;
use cr_value::text::{Bytes, Text};
use cr_value::value::Value;
use sqlite_items::{Boxed, Items};

/// A column: the place of its table in FROM, its own place there, and its place in a combination, which is the columns of
/// all tables one after another, each from 0; and what it brings to a comparison.
#[derive(Debug, Drop)]
pub struct Column {
    pub source: usize,
    pub place: usize,
    pub at: usize,
    pub affinity: Affinity,
    pub collation: Text,
}

/// An expression.
#[cycle(term)]
#[derive(Drop)]
pub enum Expr {
    Literal(Value),
    /// By its number, from 1.
    Param(u16),
    Column(Column),
    /// What a group shows for its term of that number, from 0, which is this expression.
    Shown(usize, Boxed<Expr>),
    Unary(Unary, Boxed<Expr>),
    Arithmetic(Arithmetic, Boxed<Expr>, Boxed<Expr>),
    /// `||`
    Join(Boxed<Expr>, Boxed<Expr>),
    /// Whether NOT stands before LIKE, a text and a pattern.
    Like(bool, Boxed<Expr>, Boxed<Expr>),
    Logic(Logic, Boxed<Expr>, Boxed<Expr>),
    Compare(Comparison, Meeting, Boxed<Expr>, Boxed<Expr>),
    /// An operand and a collation's name.
    Collate(Boxed<Expr>, Text),
    Cast(CastTo, Boxed<Expr>),
    /// Whether NOT stands before IN, how the operand meets each item, the operand, and the items.
    In(bool, Meeting, Boxed<Expr>, Items<Expr>),
    /// Whether NOT stands before BETWEEN, how the operand meets each bound, the operand, and the bounds.
    Between(bool, Meeting, Meeting, Boxed<Expr>, Boxed<Expr>, Boxed<Expr>),
    /// The operand, if there is one, the arms, and what stands after ELSE.
    Case(Option<Boxed<Expr>>, Items<When>, Option<Boxed<Expr>>),
    BuiltIn(BuiltIn, Items<Expr>),
    /// A host's scalar function, by its name.
    Host(Text, Items<Expr>),
    /// An aggregate over the rows of a group.
    Aggregate(Aggregate, Items<Expr>),
    /// `crsql_site_id()`, with its value.
    SiteId(Bytes),
    /// `crsql_db_version()`, with its value.
    DbVersion(i64),
}

/// An arm of a CASE: how the operand meets what stands after WHEN, if there is one, and the two expressions.
#[cycle(term)]
#[derive(Drop)]
pub struct When {
    pub meeting: Meeting,
    pub when: Expr,
    pub then: Expr,
}
