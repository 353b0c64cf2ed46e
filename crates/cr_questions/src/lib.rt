//! What the authorizer is asked about a resolved statement, and what its answers make of the statement.
#![tactic(auto)]

pub mod answering;
pub mod asked;
pub mod denied;
pub mod mentions;
pub mod operands;
pub mod question;
pub mod reads;
pub mod select;
pub mod sources;
