//! What operators and functions make of values.
#![tactic(auto)]

pub mod aggregate;
pub mod compare;
pub mod fault;
pub mod function;
mod like;
pub mod number;
pub mod operand;
pub mod text;
