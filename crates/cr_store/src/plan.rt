//! What a commit writes.

use cr_lattice::change::Change;
use cr_lattice::stamped::Stamped;

/// A cell that comes in, and whether a cell of its key is there.
#[derive(Debug, Drop)]
pub(crate) struct New {
    pub(crate) cell: Stamped,
    pub(crate) is_there: bool,
}

/// The cells that come in, and the changes of other cells that they remove.
#[derive(Debug, Drop)]
pub(crate) struct Plan {
    pub(crate) news: Vec<New>,
    pub(crate) gone: Vec<Change>,
}
