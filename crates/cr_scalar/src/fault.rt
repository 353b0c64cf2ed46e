//! Why an expression has no value.

ghost use Rattle.std.specs.Prelude.{◌≡◌};
ghost use Rattle.cr_scalar.specs.declared.fault.EvalFault.TheVariants.{Memory};

use cr_value::text::Text;
use std::alloc::{AllocError, AllocFailed};
use thiserror::Error;

/// Why an expression has no value.
#[derive(Debug, Drop, Error)]
pub enum EvalFault {
    /// A number leaves 64 bits.
    #[error("integer overflow")]
    Overflow,
    /// A text that is no number, or a blob, where a number is wanted.
    #[error("a text or blob is no number")]
    NotANumber,
    /// A blob that is no text, where a text is wanted.
    #[error("a blob is no text in UTF-8")]
    NotUtf8,
    /// What a host's function said.
    #[error("{0}")]
    Host(Text),
    /// A text or a blob of over 1,000,000 bytes.
    #[error("string or blob too big")]
    TooBig,
    /// There was no memory. No expression means this.
    #[error("out of memory")]
    Memory,
}

impl From<AllocError> for EvalFault {
    ghost use Rattle.std.specs.Prelude.{◌≡◌};
    ghost use Rattle.cr_scalar.specs.declared.fault.EvalFault.TheVariants.{Memory};

    ghost from_gives = { λ _ e. e ≡ Memory };

    fn from(_e: AllocError) -> EvalFault {
        EvalFault::Memory
    }
}

impl<T: Drop> From<AllocFailed<T>> for EvalFault {
    ghost use Rattle.std.specs.Prelude.{◌≡◌};
    ghost use Rattle.cr_scalar.specs.declared.fault.EvalFault.TheVariants.{Memory};

    ghost from_gives = { λ _ e. e ≡ Memory };

    fn from(_e: AllocFailed<T>) -> EvalFault {
        EvalFault::Memory
    }
}
