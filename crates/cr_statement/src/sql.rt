//! The statement at the front of a source's tokens.

ghost use Rattle.std.specs.Prelude.{◌≡◌, ◌≢◌, ◌≤◌, ℕ, List, not, length, IfOk};
ghost use Rattle.std.specs.Borrow.{Bor};
ghost use Rattle.std.specs.List.{prefix_len};
ghost use Rattle.cr_tree.specs.declared.limits.LimitKind.{LimitKind};
ghost use Rattle.cr_tree.specs.Judging.{MeetsLimit};
ghost use Rattle.cr_statement.specs.Statements as language;
ghost use Rattle.cr_tree.specs.declared.statement.Statement.{Statement};
ghost use Rattle.cr_statement.specs.Sql.{is_semicolon, statement_tokens, statement_symbols, IsStatement, IsSyntaxAt, IsOutOfProfile};
ghost use Rattle.cr_statement.specs.Sql.{place_of, refused, says, told, answers};

use crate::error::SqlError;
use cr_lex::outside::outside;
use cr_lex::spelling::spelling;
use cr_lex::symbols::symbols;
use cr_lex::token::{Token, TokenKind};
use cr_parse::error::ParseError;
use cr_tree::statement::Statement;
use std::alloc::Global;

/// Whether the token is the sign `;`.
pub fn is_semicolon(source: &[u8], token: &Token) -> bool
    ensures { result ≡ is_semicolon source.now token.now }
{
    token.kind == TokenKind::Op && spelling(source, token) == b";".as_slice()
}

// How many tokens stand before the first semicolon.
fn statement_len(source: &[u8], tokens: &[Token]) -> usize
    ensures value { result ≡ prefix_len (λ t. not (is_semicolon source.now t)) tokens.now }
    ensures within { result ≤ length tokens.now }
{
    for (at, token) in tokens.iter().enumerate() {
        if is_semicolon(source, token) {
            return at;
        }
    }
    tokens.len()
}

fn statement_tokens<'a>(source: &str, tokens: &'a [Token]) -> &'a [Token]
    ensures { result.now ≡ statement_tokens source.now tokens.now }
{
    &tokens[..statement_len(source.as_bytes(), tokens)]
}

fn place(tokens: &[Token], at: usize) -> usize
    ensures { result ≡ place_of tokens.now at }
{
    match tokens.get(at) {
        Some(token) => token.from,
        None => tokens.last().map_or(0, |token| token.to),
    }
}

// How the statement is refused whose bad place is so many tokens from its front.
fn refusal(source: &str, tokens: &[Token], at: usize) -> SqlError
    ensures { says result ≡ refused source.now tokens.now at }
{
    match outside(source, statement_tokens(source, tokens), at) {
        Some(word) => SqlError::OutOfProfile(word),
        None => SqlError::Syntax(place(tokens, at)),
    }
}

// What is told of the statement once its symbols are read.
fn answer(
    source: &str,
    tokens: &[Token],
    read: Result<Statement, ParseError>,
) -> Result<(Statement, usize), SqlError>
    ensures { answers result ≡ told source.now tokens.now read }
{
    match read {
        Ok(tree) => Ok((tree, statement_tokens(source, tokens).len())),
        Err(ParseError::Memory) => Err(SqlError::Memory),
        Err(ParseError::Syntax(at)) => Err(refusal(source, tokens, at)),
        Err(ParseError::Limit(which)) => Err(SqlError::Limit(which)),
    }
}

/// The tree of the statement at the front of a source's tokens, and how many tokens it is: those before the first `;`,
/// or all. The grammar is a part of SQLite's "SQL As Understood By SQLite". Takes time in proportion to the tokens.
///
/// # Errors
/// `OutOfProfile` where the first of its tokens with which no statement goes on is out of this project's SQL; `Syntax`
/// where it is not, with the byte where it begins, or, if more are wanted, with the byte where the `;` begins, else
/// where the last token ends, or 0 without tokens; `Limit` with its kind where the depth of an expression would pass 100,
/// its open parentheses 200, the arguments of a call 100 or the tables of a FROM 16, if that is met first from the left;
/// `Memory`. How refusals are told is this project's own.
pub fn statement(
    alloc: Global,
    source: &str,
    tokens: &[Token],
) -> Result<(Statement, usize), SqlError>
    // What is read is the statement, with its tree and so many tokens.
    ensures read { IfOk result (λ x. IsStatement source.now tokens.now x.0 x.1) }
    // Each statement within the limits is read, unless memory runs out.
    ensures only { (x : Statement) (n : ℕ) → IsStatement source.now tokens.now x n → result ≢ Err SqlError.Memory → result ≡ Ok (x, n) }
    ensures syntax { (at : ℕ) → result ≡ Err (SqlError.Syntax at) → IsSyntaxAt source.now tokens.now at }
    ensures outside { (word : Bor (List ℕ)) → result ≡ Err (SqlError.OutOfProfile word) → IsOutOfProfile source.now tokens.now word.now }
    ensures limit { (which : LimitKind) → result ≡ Err (SqlError.Limit which) → MeetsLimit which language.statement (statement_symbols source.now tokens.now) }
{
    let symbols = symbols(alloc, source, statement_tokens(source, tokens))?;
    answer(source, tokens, crate::statement::statement(alloc, &symbols))
}
