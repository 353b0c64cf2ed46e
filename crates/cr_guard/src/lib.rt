//! What stands between a session and its host: an authorizer, a policy of plain rules, a commit hook and a listener.
#![tactic(auto)]

pub mod action;
pub mod closures;
pub mod event;
pub mod guard;
pub mod guarding;
pub mod heard;
pub mod laws;
pub mod listener;
pub mod policy;
pub mod samples;
