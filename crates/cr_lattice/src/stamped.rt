//! A kept change with its stamp.

ghost use Rattle.std.specs.Prelude.{◌≡◌, IfOk};

use crate::change::Change;
use std::alloc::{AllocError, Global};

/// A kept change and its stamp: the version of the commit at which it came in, and its place, from 0, among those that
/// came in there.
#[derive(Debug, Drop)]
pub struct Stamped {
    pub change: Change,
    pub version: i64,
    pub seq: i64,
}

impl Stamped {
    /// The same in memory of its own.
    pub fn copy(&self, alloc: Global) -> Result<Stamped, AllocError>
        ensures { IfOk result (λ s. s ≡ self.now) }
    {
        Ok(Stamped {
            change: self.change.copy(alloc)?,
            version: self.version,
            seq: self.seq,
        })
    }
}
