//! Why the changes of INSERT, UPDATE and DELETE are well formed.
#![tactic(auto)]

pub mod laws;
