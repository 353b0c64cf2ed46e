//! What resolved statements mean: their queries and writes as definitions speak of them, and what expressions mean there.
#![tactic(auto)]

pub mod laws;
