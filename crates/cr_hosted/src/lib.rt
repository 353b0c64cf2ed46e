//! Sessions whose host has table modules.
#![tactic(auto)]

pub mod calls;
pub mod connection;
mod performing;
mod planning;
pub mod session;
mod touching;
