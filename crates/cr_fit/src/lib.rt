//! Tables that statements define are such as a store takes.
#![tactic(auto)]

pub mod laws;
