//! What the words of crsh's command line ask, and what is told when it stops.
#![tactic(auto)]

pub mod laws;
pub mod options;
pub mod stop;
