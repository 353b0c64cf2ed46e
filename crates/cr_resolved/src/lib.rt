//! A statement once its names are resolved and its questions are answered, or the first thing that stands against it.
#![tactic(auto)]

pub mod casts;
pub mod fits;
pub mod statement;
