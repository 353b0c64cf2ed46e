//! The value of an expression over a row, and which expressions are quiet.
#![tactic(auto)]

pub mod eval;
pub mod given;
pub mod laws;
pub mod quiet;
