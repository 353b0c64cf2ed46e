//! What is kept of a part of a table.

use cr_lattice::change::Change;
use cr_value::text::Bytes;

/// What is kept of the first keys of a table above a key.
#[derive(Debug, Drop)]
pub struct KeptPage {
    /// The changes, in the order of changes.
    pub kept: Vec<Change>,
    /// A key up to which they are. Where it is `None`, no key is left behind them.
    pub bound: Option<Bytes>,
}
