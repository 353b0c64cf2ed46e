//! Parts of a SELECT once their names are resolved: result columns, joined tables, terms of GROUP BY and ORDER BY, groups.
#![tactic(auto)]

pub mod aggregates;
pub mod joined;
pub mod named;
pub mod outputs;
pub mod parts;
pub mod placed;
pub mod same;
pub mod terms;
