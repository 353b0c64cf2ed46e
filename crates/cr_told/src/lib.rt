//! The short texts in which cases are written. A value is a literal. A row is its values, parted by `|`. A change is
//! `TABLE|KEY|CID|VALUE|VERSION|SITE|LENGTH`, where the key is one digit, which is the row's one integer, or the blob of
//! a packed key, and the site is A or B. A column is `NAME|TYPE|PLACE|DEFAULT`, where the place in the key, one digit,
//! may be empty, and then `|NOT NULL` or `||` and a collation may stand. The parts of a list stand apart by ` / `.
#![tactic(auto)]

pub mod cases;
pub mod error;
pub mod expansion;
pub mod lines;
pub mod reading;
pub mod writing;
