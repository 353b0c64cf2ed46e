//! Selects over resolved statements and lists of rows: the combinations of tables on which terms are true, groups, what they
//! show, and which of that stands in the answer, in which order.
#![tactic(auto)]

pub mod binary;
pub mod compare;
pub mod distinct;
mod equality;
pub mod group;
pub mod grouped;
mod index;
pub mod join;
pub mod order;
pub mod push;
pub mod select;
pub mod show;
mod source;
pub mod streamed;
pub mod terms;
pub mod value;
