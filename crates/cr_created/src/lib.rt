//! CREATE TABLE, ALTER TABLE and the table that a call of `crsql_as_crr` names, once their names are resolved.
#![tactic(auto)]

pub mod alter;
pub mod column;
pub mod create;
pub mod mark;
pub mod names;
pub mod profile;
