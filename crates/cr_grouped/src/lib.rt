//! A SELECT once its names are resolved: its groups with their terms put in, its result columns, and its order.
#![tactic(auto)]

pub mod grouping;
pub mod query;
pub mod select;
