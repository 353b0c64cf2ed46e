//! What a query answers and which rows a write wants, whatever its expressions are: definitions and their laws.
#![tactic(auto)]

pub mod laws;
