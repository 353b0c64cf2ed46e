//! Calls of tokens and symbols.
//!
//! | Call | Given | Answers |
//! |---|---|---|
//! | `tokens` | a text | the kind and the bytes of each token, or `none`, or `Limit` |
//! | `symbols` | a text | the symbol of each token |
//! | `outside` | a place and a text | the word by which the token at the place is out of this SQL, or `none` |
//! | `stray` | a token's kind and bytes, and a text | the symbol of that token, which need not be one of the text |

use cr_lex::outside::outside;
use cr_lex::scan::tokens;
use cr_lex::symbols::symbols;
use cr_lex::token::{LexError, Token, TokenKind};
use cr_told::error::ToldError;
use cr_tree::symbol::Symbol;
use std::alloc::{AllocError, Global};

/// The tokens of a text that isn't too long.
pub(crate) fn tokens_of(alloc: Global, text: &str) -> Result<Vec<Token>, ToldError> {
    match tokens(alloc, text) {
        Ok(found) => Ok(found),
        Err(LexError::Memory) => Err(ToldError::Memory),
        Err(LexError::Limit) => Err(ToldError::Form),
    }
}

/// The symbols of a text that isn't too long.
pub(crate) fn symbols_of(alloc: Global, text: &str) -> Result<Vec<Symbol>, ToldError> {
    let tokens = tokens_of(alloc, text)?;
    Ok(symbols(alloc, text, &tokens)?)
}

fn listed(alloc: Global, tokens: &[Token]) -> Result<String, AllocError> {
    if tokens.is_empty() {
        return String::from_str(alloc, "none");
    }
    let mut all = String::new(alloc);
    for token in tokens {
        if !all.is_empty() {
            all.push(' ')?;
        }
        let kind = token.kind;
        let from = token.from;
        let to = token.to;
        all.push_str(format!(in alloc; "{kind:?} {from}..{to}")?.as_str())?;
    }
    Ok(all)
}

fn scanned(alloc: Global, text: &str) -> Result<String, ToldError> {
    match tokens(alloc, text) {
        Ok(found) => Ok(listed(alloc, &found)?),
        Err(LexError::Memory) => Err(ToldError::Memory),
        Err(LexError::Limit) => Ok(String::from_str(alloc, "Limit")?),
    }
}

fn shown(alloc: Global, symbol: &Symbol) -> Result<String, AllocError> {
    match symbol {
        Symbol::Mark(mark) => format!(in alloc; "{mark:?}"),
        Symbol::Name(name) => format!(in alloc; "name {}", name.as_str()),
        Symbol::Text(text) => format!(in alloc; "text {}", text.as_str()),
        Symbol::Blob(blob) => format!(in alloc; "blob {:?}", blob.as_slice()),
        Symbol::Number(number) => format!(in alloc; "number {number}"),
        Symbol::Bits(number) => format!(in alloc; "bits {number}"),
        Symbol::Param(number) => format!(in alloc; "param {number}"),
        Symbol::Other => String::from_str(alloc, "other"),
    }
}

fn all_shown(alloc: Global, source: &str, tokens: &[Token]) -> Result<String, AllocError> {
    let mut all = String::new(alloc);
    for symbol in &symbols(alloc, source, tokens)? {
        if !all.is_empty() {
            all.push(',')?;
        }
        all.push_str(shown(alloc, symbol)?.as_str())?;
    }
    Ok(all)
}

// The part before the next space, and what follows.
fn word(given: &str) -> Result<(&str, &str), ToldError> {
    given.split_once(' ').ok_or(ToldError::Form)
}

fn number(digits: &str) -> Result<usize, ToldError> {
    digits.parse().map_err(|_| ToldError::Form)
}

fn outside_word(alloc: Global, given: &str) -> Result<&'static str, ToldError> {
    let (place, text) = word(given)?;
    let tokens = tokens_of(alloc, text)?;
    Ok(outside(text, &tokens, number(place)?).unwrap_or("none"))
}

// A kind of which a stray token may be.
fn kind_named(word: &str) -> Result<TokenKind, ToldError> {
    match word {
        "Ident" => Ok(TokenKind::Ident),
        "Text" => Ok(TokenKind::Text),
        "Int" => Ok(TokenKind::Int),
        "Param" => Ok(TokenKind::Param),
        _ => Err(ToldError::Form),
    }
}

fn stray(alloc: Global, given: &str) -> Result<String, ToldError> {
    let (kind, rest) = word(given)?;
    let (from, rest) = word(rest)?;
    let (to, text) = word(rest)?;
    let token = Token {
        kind: kind_named(kind)?,
        from: number(from)?,
        to: number(to)?,
    };
    Ok(all_shown(alloc, text, &[token])?)
}

/// What a call answers; `None` where it isn't one of these.
pub(crate) fn answer(alloc: Global, call: &str, given: &str) -> Result<Option<String>, ToldError> {
    Ok(Some(match call {
        "tokens" => scanned(alloc, given)?,
        "symbols" => all_shown(alloc, given, &tokens_of(alloc, given)?)?,
        "outside" => String::from_str(alloc, outside_word(alloc, given)?)?,
        "stray" => stray(alloc, given)?,
        _ => return Ok(None),
    }))
}
