//! Scripts, statement by statement.

ghost use Rattle.std.specs.Prelude.{◌≡◌, ◌≢◌, ◌≤◌, length};
ghost use Rattle.cr_statement.specs.Scripts.{semicolons, next, says_next};

use crate::error::SqlError;
use crate::sql::{is_semicolon, statement};
use cr_lex::token::Token;
use cr_tree::statement::Statement;
use std::alloc::Global;

// How many semicolons stand at the front.
fn semicolons(source: &[u8], tokens: &[Token]) -> usize
    ensures value { result ≡ semicolons source.now tokens.now }
    ensures within { result ≤ length tokens.now }
{
    for (at, token) in tokens.iter().enumerate() {
        if !is_semicolon(source, token) {
            return at;
        }
    }
    tokens.len()
}

/// The next statement of a script, and how many of these tokens stand up to its end; the rest begins with its `;`, if it
/// has one, and goes in next. `None` where no token but `;` is left: empty statements are left out, as SQLite leaves them
/// out. Takes time in proportion to the tokens of the statement and the `;` before it.
///
/// # Errors
/// Those of [`statement`], of the tokens behind the `;` at the front; none where no other token is left.
pub fn next_statement(
    alloc: Global,
    source: &str,
    tokens: &[Token],
) -> Result<Option<(Statement, usize)>, SqlError>
    ensures value { result ≢ Err SqlError.Memory → says_next result ≡ next source.now tokens.now }
    ensures end { next source.now tokens.now ≡ Ok None → result ≡ Ok None }
{
    let skipped = semicolons(source.as_bytes(), tokens);
    let rest = &tokens[skipped..];
    if rest.is_empty() {
        return Ok(None);
    }
    let (tree, len) = statement(alloc, source, rest)?;
    Ok(Some((tree, skipped + len)))
}
