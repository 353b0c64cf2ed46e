//! Fleets of replicas, each under a policy, a host's functions and its commit hook: what they reply to commands, and that
//! replicas that hold the same changes show the same rows and answer the same SELECTs alike.
#![tactic(auto)]

pub mod fleet;
