//! What a statement sees of a replica: what it may name, the table of changes, and the rows of a table.
#![tactic(auto)]

pub mod catalog;
pub mod changes;
pub mod rows;
