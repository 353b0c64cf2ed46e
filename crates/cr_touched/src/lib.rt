//! Writes that look at what is kept of the keys that they touch, statements that look at what is kept of the tables that they
//! name, and no more.
#![tactic(auto)]

pub mod laws;
