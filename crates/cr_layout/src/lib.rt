//! The bytes of a table's definition: how they are written, and how they are read back.
#![tactic(auto)]

pub mod definition;
pub mod laws;
pub mod reading;
