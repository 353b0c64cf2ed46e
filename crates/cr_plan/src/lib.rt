//! Terms of a query as constraints on a module, and what is read of the module by them.
#![tactic(auto)]

pub mod laws;
pub mod offer;
pub mod order;
pub mod reading;
pub mod told;
