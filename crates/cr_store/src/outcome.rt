//! What a commit decides, and what it leaves.

use crate::plan::Plan;
use cr_cells::marks::Mark;

/// What is to be written, stamped with a version, and the version that is left.
#[derive(Debug, Drop)]
pub(crate) struct Decision {
    pub(crate) plan: Plan,
    pub(crate) stamp: i64,
    pub(crate) version: i64,
    pub(crate) is_changed: bool,
}

/// What a commit leaves to be known.
#[derive(Debug, Drop)]
pub(crate) struct Outcome {
    pub(crate) version: i64,
    pub(crate) marks: Vec<Mark>,
    pub(crate) is_changed: bool,
}
