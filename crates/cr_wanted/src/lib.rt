//! The rows that INSERT, UPDATE and DELETE want of a table, and what stands against them.
#![tactic(auto)]

pub mod by_key;
pub mod delete;
pub mod exprs;
pub mod insert;
pub mod judged;
pub mod keyed;
pub mod laws;
pub mod long;
pub mod nulls;
pub mod put;
pub mod update;
pub mod values;
