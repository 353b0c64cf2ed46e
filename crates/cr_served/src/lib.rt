//! What carries out commands: a fleet of replicas, or one replica alone.
#![tactic(auto)]

mod alone;
pub mod laws;
pub mod served;
