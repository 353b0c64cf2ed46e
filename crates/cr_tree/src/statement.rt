//! Statements as trees.

use crate::expr::Expr;
use cr_value::text::Text;
use cr_value::value::Value;
use sqlite_items::Items;

/// What a SELECT shows.
#[derive(Drop)]
pub enum Shown {
    /// `*`
    All,
    /// `name.*`
    AllOf(Text),
    /// An expression, and the name that it gets, if it gets one.
    One(Expr, Option<Text>),
}

/// A table, and the name that it gets, if it gets one.
#[derive(Drop)]
pub struct Source {
    pub table: Text,
    pub alias: Option<Text>,
}

#[derive(Clone, Copy, Debug, PartialEq, Eq)]
pub enum JoinKind {
    Comma,
    /// JOIN or INNER JOIN
    Inner,
    Cross,
    /// LEFT JOIN or LEFT OUTER JOIN
    Left,
}

/// A further table.
#[derive(Drop)]
pub struct Join {
    pub kind: JoinKind,
    pub source: Source,
    pub on: Option<Expr>,
}

/// What stands behind FROM.
#[derive(Drop)]
pub struct Tables {
    pub first: Source,
    pub joins: Items<Join>,
}

/// A term of ORDER BY.
#[derive(Drop)]
pub struct Term {
    pub expr: Expr,
    pub descending: bool,
}

/// What stands behind LIMIT, and behind OFFSET.
#[derive(Clone, Copy, Debug, PartialEq, Eq)]
pub struct Limit {
    pub count: i64,
    pub offset: Option<i64>,
}

#[derive(Drop)]
pub struct Select {
    pub distinct: bool,
    pub shown: Items<Shown>,
    pub from: Option<Tables>,
    pub filter: Option<Expr>,
    pub group: Option<Items<Expr>>,
    pub having: Option<Expr>,
    pub order: Option<Items<Term>>,
    pub limit: Option<Limit>,
}

#[derive(Drop)]
pub struct Insert {
    pub table: Text,
    pub columns: Option<Items<Text>>,
    pub rows: Items<Items<Expr>>,
}

/// A column, and the value that it gets.
#[derive(Drop)]
pub struct Assignment {
    pub column: Text,
    pub value: Expr,
}

#[derive(Drop)]
pub struct Update {
    pub table: Text,
    pub assignments: Items<Assignment>,
    pub filter: Option<Expr>,
}

#[derive(Drop)]
pub struct Delete {
    pub table: Text,
    pub filter: Option<Expr>,
}

#[derive(Drop)]
pub enum Constraint {
    PrimaryKey,
    NotNull,
    Default(Value),
    Collate(Text),
}

/// A column's name, the words of its type, and its constraints as they are written: of several DEFAULT or several
/// COLLATE the last counts.
#[derive(Drop)]
pub struct Column {
    pub name: Text,
    pub type_words: Items<Text>,
    pub constraints: Items<Constraint>,
}

#[derive(Drop)]
pub struct Create {
    pub if_not_exists: bool,
    pub table: Text,
    pub columns: Items<Column>,
    /// The names of a PRIMARY KEY behind the columns.
    pub key: Option<Items<Text>>,
}

/// ALTER TABLE, and the column that it adds.
#[derive(Drop)]
pub struct Alter {
    pub table: Text,
    pub column: Column,
}

#[derive(Clone, Copy, Debug, PartialEq, Eq)]
pub enum Mode {
    Deferred,
    Immediate,
    Exclusive,
}

/// A statement.
#[derive(Drop)]
pub enum Statement {
    Select(Select),
    Insert(Insert),
    Update(Update),
    Delete(Delete),
    Create(Create),
    Alter(Alter),
    Begin(Option<Mode>),
    /// COMMIT or END
    Commit,
    Rollback,
}
