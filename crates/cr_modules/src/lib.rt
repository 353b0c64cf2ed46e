//! The table modules that a host registered with a session.
#![tactic(auto)]

pub mod modules;
pub mod registered;
