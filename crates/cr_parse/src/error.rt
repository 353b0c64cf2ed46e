//! Why symbols are refused.

ghost use Rattle.std.specs.Prelude.{◌≡◌};
ghost use Rattle.cr_parse.specs.Judge.{refusal};

use crate::fault::Fault;
use cr_tree::limits::LimitKind;
use thiserror::Error;

/// Why symbols are refused.
#[derive(Debug, Drop, Error)]
pub enum ParseError {
    /// Memory ran out.
    #[error("out of memory")]
    Memory,
    /// How many symbols stand before the first one with which nothing begins that may be written; or how many there
    /// are, if more are wanted.
    #[error("syntax error behind {0} symbols")]
    Syntax(usize),
    /// A limit would be passed.
    #[error(transparent)]
    Limit(LimitKind),
}

/// How a fault is told that stands behind so many symbols.
pub fn refusal(fault: Fault, place: usize) -> ParseError
    ensures { result ≡ refusal fault place }
{
    match fault {
        Fault::Memory => ParseError::Memory,
        Fault::Syntax => ParseError::Syntax(place),
        Fault::Limit(which) => ParseError::Limit(which),
    }
}
