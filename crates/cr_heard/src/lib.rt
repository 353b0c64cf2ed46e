//! What a listener hears of changes, told from what is kept of the keys that they touch.
#![tactic(auto)]

pub mod heard;
pub mod keys;
pub mod laws;
pub mod touched;
