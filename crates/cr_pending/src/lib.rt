//! The changes of an open transaction, and the tables that they are of.
#![tactic(auto)]

pub mod pending;
mod same;
mod tables;
mod touched;
mod under;
