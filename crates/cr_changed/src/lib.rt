//! The changes that INSERT, UPDATE and DELETE make on a replicated table, over a snapshot of the replica.
#![tactic(auto)]

pub mod told;
pub mod wants;
pub mod write;
