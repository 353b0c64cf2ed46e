//! Why a statement is refused.

use cr_tree::limits::LimitKind;
use std::alloc::{AllocError, AllocFailed};
use thiserror::Error;

/// Why a statement is refused.
#[derive(Clone, Copy, Debug, PartialEq, Eq, Error)]
pub enum SqlError {
    /// Memory ran out.
    #[error("out of memory")]
    Memory,
    /// The byte of the source where what can't stand begins; or where the statement ends, if more is wanted.
    #[error("syntax error at byte {0}")]
    Syntax(usize),
    /// What can't stand is out of this project's SQL: its word in upper case, `REAL` or `HEX`.
    #[error("not in this SQL: {0}")]
    OutOfProfile(&'static str),
    /// A limit would be passed.
    #[error(transparent)]
    Limit(LimitKind),
}

impl From<AllocError> for SqlError {
    ghost use Rattle.std.specs.Prelude.{◌≡◌};
    ghost use Rattle.cr_statement.specs.declared.error.SqlError.TheVariants.{Memory};

    ghost from_gives = { λ _ e. e ≡ Memory };

    fn from(_e: AllocError) -> SqlError {
        SqlError::Memory
    }
}

impl<T: Drop> From<AllocFailed<T>> for SqlError {
    ghost use Rattle.std.specs.Prelude.{◌≡◌};
    ghost use Rattle.cr_statement.specs.declared.error.SqlError.TheVariants.{Memory};

    ghost from_gives = { λ _ e. e ≡ Memory };

    fn from(_e: AllocFailed<T>) -> SqlError {
        SqlError::Memory
    }
}
