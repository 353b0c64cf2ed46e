//! The tokens of SQL texts, and the symbols that the grammar sees of them.
#![tactic(auto)]

pub mod laws;
mod marks;
mod number;
pub mod outside;
mod runs;
pub mod scan;
pub mod spelling;
pub mod symbols;
pub mod token;
