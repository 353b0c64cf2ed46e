//! Why a host's function gave no value, and why a registry took no entry.

use cr_value::text::Text;
use thiserror::Error;

/// Why a host's function gave no value.
#[derive(Debug, Drop, Error)]
pub enum FnFault {
    /// The function refused its arguments, with this text.
    #[error("{0}")]
    Host(Text),
    /// There was no memory.
    #[error("out of memory")]
    Memory,
}

/// Why a registry took no entry.
#[derive(Debug, Drop, Error)]
pub enum AddFault {
    /// The name is empty, over 255 bytes or reserved, or the count of arguments is not -1 to 100.
    #[error("the name or the count of arguments may not be")]
    BadName,
    /// There was no memory.
    #[error("out of memory")]
    Memory,
}
