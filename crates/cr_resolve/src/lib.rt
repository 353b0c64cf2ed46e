//! What the names of a statement stand for, and what stands against it: definitions, the refusals, and what names, tables and
//! operators are resolved to.
#![tactic(auto)]

pub mod call;
pub mod case;
pub mod comparing;
pub mod expressions;
pub mod from;
pub mod known;
pub mod leaf;
pub mod limits;
pub mod naming;
pub mod node;
pub mod operator;
pub mod reading;
pub mod refusal;
pub mod scope;
