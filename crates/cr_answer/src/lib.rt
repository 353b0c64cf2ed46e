//! What may be carried out on a replica as it stood at a moment, and what a query answers there.
#![tactic(auto)]

pub mod allowing;
pub mod asking;
pub mod refusing;
pub mod selecting;
