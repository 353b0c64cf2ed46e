//! A store of cells in tables of sqlite.
#![tactic(auto)]

mod asking;
mod cell_rows;
mod cells;
mod committing;
mod definition;
mod format;
mod known;
pub mod laws;
mod migrating;
mod opening;
mod ordinals;
mod outcome;
mod pages;
mod plan;
mod planning;
mod reads;
mod records;
mod rows;
mod schema;
mod shape;
pub mod store;
mod stored;
mod tables;
mod writing;
