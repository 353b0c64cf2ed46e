//! The changes that an INSERT into the table of changes brings.
#![tactic(auto)]

mod change;
pub mod laws;
pub mod receiving;
mod rows;
