//! Sessions: one replica each, with the changes of its open transaction, and what it replies to commands and statements.
#![tactic(auto)]

pub mod calls;
mod executing;
mod filtering;
mod joining;
mod listening;
mod lookup;
pub mod performing;
pub mod session;
pub mod tables;
pub mod transacting;
mod writing;
