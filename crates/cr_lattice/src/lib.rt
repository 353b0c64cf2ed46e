//! Changes, which of them win, and the rows that they show.
#![tactic(auto)]

pub mod catalog;
pub mod change;
pub mod check;
pub mod laws;
pub mod merge;
pub mod order;
pub mod profile;
pub mod rows;
pub mod stamped;
pub mod table;
