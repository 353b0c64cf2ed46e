//! Statements whose names are resolved, as trees.
#![tactic(auto)]

pub mod expr;
pub mod operator;
pub mod query;
pub mod terms;
