//! Expressions from symbols.
#![tactic(auto)]

pub mod cursor;
pub mod error;
pub mod expression;
pub mod fault;
mod grammar;
pub mod level;
mod operand;
pub mod sizes;
mod tail;
