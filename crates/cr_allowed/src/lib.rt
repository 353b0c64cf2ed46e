//! What the authorizer's answers leave of a resolved statement: NULL in the place of the columns and calls that it ignores.
#![tactic(auto)]

pub mod left;
pub mod query;
