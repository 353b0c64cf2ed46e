//! Resolved expressions in memory of their own, and built of new parts.
#![tactic(auto)]

pub mod build;
pub mod copy;
