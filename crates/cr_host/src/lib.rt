//! A host's functions and collations, by name, beside the number of their definition.
#![tactic(auto)]

pub mod arity;
pub mod built_in;
pub mod fault;
mod folded;
pub mod function;
pub mod functions;
pub mod meaning;
pub mod name;
pub mod registry;
pub mod samples;
