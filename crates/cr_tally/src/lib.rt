//! SELECTs that are made of aggregates, without GROUP BY: of the rows of their table one value for each aggregate is held.
#![tactic(auto)]

pub mod answer;
pub mod over;
pub mod show;
pub mod tallies;
pub mod tally;
