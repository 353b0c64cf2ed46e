//! Why a write has no changes to give.

use std::alloc::{AllocError, AllocFailed};
use thiserror::Error;

/// Why the changes of a write are not given.
#[derive(Debug, Drop, Error)]
pub enum DeltaError {
    /// Memory ran out.
    #[error("out of memory")]
    Memory,
    /// A version or a causal length would pass 9223372036854775807.
    #[error("the greatest version or causal length is reached")]
    VersionLimit,
}

impl From<AllocError> for DeltaError {
    ghost use Rattle.std.specs.Prelude.{◌≡◌};
    ghost use Rattle.cr_delta.specs.declared.error.DeltaError.TheVariants.{Memory};

    ghost from_gives = { λ _ e. e ≡ Memory };

    fn from(_e: AllocError) -> DeltaError {
        DeltaError::Memory
    }
}

impl<T: Drop> From<AllocFailed<T>> for DeltaError {
    ghost use Rattle.std.specs.Prelude.{◌≡◌};
    ghost use Rattle.cr_delta.specs.declared.error.DeltaError.TheVariants.{Memory};

    ghost from_gives = { λ _ e. e ≡ Memory };

    fn from(_e: AllocFailed<T>) -> DeltaError {
        DeltaError::Memory
    }
}
