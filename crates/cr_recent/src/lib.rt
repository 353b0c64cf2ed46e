//! A store of cells over another that remembers which rows the latest commits touched.
#![tactic(auto)]

mod keys;
pub mod laws;
mod notes;
pub mod recent;
