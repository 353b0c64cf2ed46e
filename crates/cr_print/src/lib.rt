//! Statements as SQL text.
#![tactic(auto)]

mod expr;
mod pieces;
pub mod print;
mod select;
mod write;
