//! Which question of a write, a definition or a transaction the authorizer denies first, and what it leaves of a write and of
//! a table's mark.
#![tactic(auto)]

pub mod asking;
pub mod definitions;
pub mod delete;
pub mod insert;
pub mod mark;
pub mod statement;
pub mod transactions;
pub mod update;
