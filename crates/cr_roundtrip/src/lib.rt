//! What is printed reads back.
#![tactic(auto)]

pub mod laws;
