//! Table modules of a host, and tables that are read row by row: what they are, and how their rows are read.
#![tactic(auto)]

pub mod lists;
pub mod module;
pub mod plan;
pub mod reading;
pub mod rows;
pub mod samples;
pub mod source;
