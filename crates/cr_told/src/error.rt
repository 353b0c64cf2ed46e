//! Why a text of a case is not read.

use std::alloc::{AllocError, AllocFailed};
use thiserror::Error;

/// Why a text of a case is not read.
#[derive(Clone, Copy, Debug, PartialEq, Eq, Drop, Error)]
pub enum ToldError {
    /// It has not the form that is wanted there.
    #[error("not of the form of a case")]
    Form,
    /// There was no memory.
    #[error("no memory")]
    Memory,
}

impl From<AllocError> for ToldError {
    fn from(_e: AllocError) -> ToldError {
        ToldError::Memory
    }
}

impl<T: Drop> From<AllocFailed<T>> for ToldError {
    fn from(_e: AllocFailed<T>) -> ToldError {
        ToldError::Memory
    }
}
