//! What a store of cells is, and the plain one in memory.
#![tactic(auto)]

mod cells;
pub mod laws;
pub mod marks;
pub mod newly;
pub mod page;
pub mod plain;
pub mod stamps;
pub mod store;
pub mod tables;
