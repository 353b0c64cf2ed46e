//! Trees of SQL statements, and the symbols that they are read from.
#![tactic(auto)]

pub mod expr;
pub mod laws;
pub mod limits;
pub mod parameters;
pub mod statement;
pub mod symbol;
pub mod type_name;
