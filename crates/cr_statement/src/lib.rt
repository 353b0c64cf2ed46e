//! Trees of statements, from their symbols and from the tokens of scripts.
#![tactic(auto)]

mod create;
pub mod error;
pub mod laws;
mod list;
mod number;
mod part;
mod query;
pub mod script;
pub mod sql;
pub mod statement;
mod write;
