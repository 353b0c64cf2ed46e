//! Refusals as the answers of cases. Want of memory is no answer.

use cr_parse::error::ParseError;
use cr_statement::error::SqlError;
use cr_told::error::ToldError;
use std::alloc::Global;

/// Why a statement is refused; the place of wrong syntax is a byte of its text.
pub(crate) fn of_sql(alloc: Global, refusal: &SqlError) -> Result<String, ToldError> {
    match refusal {
        SqlError::Memory => Err(ToldError::Memory),
        SqlError::Syntax(at) => Ok(format!(in alloc; "Syntax {at}")?),
        SqlError::OutOfProfile(word) => Ok(format!(in alloc; "OutOfProfile {word}")?),
        SqlError::Limit(which) => Ok(format!(in alloc; "Limit {which:?}")?),
    }
}

/// Why symbols are refused; the place of wrong syntax is so many symbols from their front.
pub(crate) fn of_symbols(alloc: Global, refusal: &ParseError) -> Result<String, ToldError> {
    match refusal {
        ParseError::Memory => Err(ToldError::Memory),
        ParseError::Syntax(place) => Ok(format!(in alloc; "Syntax at symbol {place}")?),
        ParseError::Limit(which) => Ok(format!(in alloc; "Limit {which:?}")?),
    }
}
