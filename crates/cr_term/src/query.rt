//! Statements whose names are resolved, and what the authorizer ignored is gone from them.

use crate::expr::Expr;
use cr_lattice::table::{ColumnDef, TableDef};
use cr_value::text::Text;
use sqlite_items::Items;

/// Where the rows of a relation are, by its place in the catalog's list.
#[derive(Clone, Copy, Debug, PartialEq, Eq)]
pub enum Held {
    /// A table, and whether it is replicated.
    Table(usize, bool),
    Module(usize),
}

/// A table or a module.
#[derive(Debug, Drop)]
pub struct Relation {
    pub held: Held,
    pub definition: TableDef,
}

/// A relation in FROM.
#[derive(Drop)]
pub struct Joined {
    pub relation: Relation,
    /// Whether a LEFT JOIN brings it.
    pub is_left: bool,
    /// The AND-terms of its ON, from left to right.
    pub on: Items<Expr>,
}

/// A result column, and the name of the collation by which DISTINCT compares it.
#[derive(Drop)]
pub struct ResultColumn {
    pub expr: Expr,
    pub collation: Text,
}

/// A term of GROUP BY, without a COLLATE around it, and the name of the collation of its classes.
#[derive(Drop)]
pub struct GroupTerm {
    pub expr: Expr,
    pub collation: Text,
}

/// A term of ORDER BY: the place of the result column that it is, if it is one, the expression, and how it sorts.
#[derive(Drop)]
pub struct OrderTerm {
    pub result: Option<usize>,
    pub expr: Expr,
    pub collation: Text,
    pub is_descending: bool,
}

/// A SELECT.
#[derive(Drop)]
pub struct Query {
    pub is_distinct: bool,
    pub results: Items<ResultColumn>,
    pub joined: Items<Joined>,
    /// The AND-terms of WHERE, from left to right.
    pub filter: Items<Expr>,
    /// Whether there are groups: with no terms, one.
    pub is_grouped: bool,
    pub groups: Items<GroupTerm>,
    pub having: Option<Expr>,
    pub order: Items<OrderTerm>,
    /// The greatest number of rows, if there is one.
    pub limit: Option<u64>,
    /// The number of rows that are left out before the first.
    pub offset: u64,
}

/// `SELECT crsql_as_crr('t')`
#[derive(Debug, Drop)]
pub struct MarkReplicated {
    pub relation: Relation,
    /// The authorizer ignores the call.
    pub is_ignored: bool,
}

/// The places of the columns that get a value, and the rows.
#[derive(Drop)]
pub struct Insert {
    pub relation: Relation,
    pub columns: Items<usize>,
    pub rows: Items<Items<Expr>>,
    /// The authorizer ignores the statement.
    pub is_ignored: bool,
}

/// The place of a column, and the value that it gets.
#[derive(Drop)]
pub struct Assignment {
    pub column: usize,
    pub value: Expr,
}

#[derive(Drop)]
pub struct Update {
    pub relation: Relation,
    pub assignments: Items<Assignment>,
    /// The AND-terms of WHERE.
    pub filter: Items<Expr>,
}

#[derive(Drop)]
pub struct Delete {
    pub relation: Relation,
    /// The AND-terms of WHERE.
    pub filter: Items<Expr>,
}

/// A CREATE TABLE.
#[derive(Debug, Drop)]
pub struct Create {
    pub definition: TableDef,
    /// The name is taken, and IF NOT EXISTS stands there: nothing is made.
    pub is_there: bool,
}

/// An ALTER TABLE ADD COLUMN.
#[derive(Debug, Drop)]
pub struct Alter {
    pub relation: Relation,
    pub column: ColumnDef,
}

/// A statement.
#[derive(Drop)]
pub enum Resolved {
    Select(Query),
    MarkReplicated(MarkReplicated),
    Insert(Insert),
    Update(Update),
    Delete(Delete),
    Create(Create),
    Alter(Alter),
    Begin,
    Commit,
    Rollback,
}
