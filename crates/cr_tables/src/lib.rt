//! The rows that a statement sees, read one after another: of tables, of the table of changes and of modules.
#![tactic(auto)]

pub mod changes;
pub mod kept;
pub mod shown;
pub mod standing;
pub mod view;
