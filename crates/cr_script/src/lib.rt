//! Scripts: how the statements of a text are carried out, one after another, by whatever carries out one.
#![tactic(auto)]

pub mod executor;
pub mod script;
pub mod single;
pub mod speaking;
