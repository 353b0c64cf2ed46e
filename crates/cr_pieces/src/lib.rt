//! Texts that are put together of tokens, and the tokens and symbols that they have.
#![tactic(auto)]

pub mod laws;
