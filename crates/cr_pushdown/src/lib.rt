//! Terms that are tested while a table is read: of its rows, read page by page, those that a WHERE of them may keep.
#![tactic(auto)]

pub mod laws;
pub mod passing;
pub mod scan;
