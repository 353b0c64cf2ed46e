//! Statements that name the keys of their rows look at what is kept of these, and no more; those that want a column above an
//! integer need no row that isn't.
#![tactic(auto)]

pub mod beside;
pub mod bound;
pub mod joined;
pub mod key;
pub mod laws;
pub mod listed;
pub mod pin;
mod telling;
