//! Lines of commands in, what a fleet replies out.
#![tactic(auto)]

pub mod asking;
mod helping;
pub mod line;
mod literals;
pub mod printing;
mod refusing;
pub mod serving;
mod table_line;
pub mod watched;
mod words;
