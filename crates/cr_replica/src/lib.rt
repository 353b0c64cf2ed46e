//! A replica without SQL: its tables, what it takes, and the rows that it shows, over any store of cells.
#![tactic(auto)]

pub mod change_row;
pub mod definition;
pub mod page;
pub mod replica;
pub mod snapshot;
mod sorting;
