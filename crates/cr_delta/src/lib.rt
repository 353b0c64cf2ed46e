//! The changes of a local write: what leads from the rows that are shown to the rows that are wanted.
#![tactic(auto)]

mod changes;
pub mod delta;
pub mod error;
pub mod key;
pub mod laws;
mod run;
mod shown;
