//! Statements as a state machine, scripts, takings and fleets: what each leaves and answers, whatever its expressions are, and
//! what replicas that held the same changes answer. Definitions and their laws, and how refusals are told.
#![tactic(auto)]

pub mod command;
pub mod laws;
pub mod refusal;
