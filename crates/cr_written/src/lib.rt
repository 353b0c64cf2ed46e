//! INSERT, UPDATE and DELETE once their names are resolved: the columns that get values, the values, and the rows meant.
#![tactic(auto)]

pub mod delete;
pub mod insert;
mod parts;
mod targets;
pub mod update;
