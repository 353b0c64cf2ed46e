//! The symbols of tokens.

ghost use Rattle.std.specs.Prelude.{◌≡◌, IfOk};
ghost use Rattle.cr_lex.specs.Symbols as spec;
ghost use Rattle.cr_lex.specs.Symbols.{symbols_of};

use crate::marks::{outside_word, sign, word};
use crate::spelling::{hex_digits, inside, number, spelling, undoubled};
use crate::token::{Token, TokenKind};
use cr_tree::symbol::Symbol;
use cr_value::text::{Bytes, Text};
use hex::FromHexError;
use std::alloc::{AllocError, Global};

fn text_of(bytes: Vec<u8>) -> Option<Text>
    ensures { result ≡ spec.text_of bytes.items }
{
    match String::from_utf8(bytes) {
        Ok(text) => Some(Text::new(text)),
        Err(_) => None,
    }
}

fn name_symbol(alloc: Global, bytes: &[u8]) -> Result<Symbol, AllocError>
    ensures { IfOk result (λ s. s ≡ spec.name_symbol bytes.now) }
{
    match text_of(bytes.to_ascii_lowercase(alloc)?) {
        Some(name) => Ok(Symbol::Name(name)),
        None => Ok(Symbol::Other),
    }
}

fn word_symbol(alloc: Global, bytes: &[u8]) -> Result<Symbol, AllocError>
    ensures { IfOk result (λ s. s ≡ spec.word_symbol bytes.now) }
{
    match word(bytes) {
        Some(mark) => Ok(Symbol::Mark(mark)),
        None if outside_word(bytes).is_some() => Ok(Symbol::Other),
        None => name_symbol(alloc, bytes),
    }
}

fn ident_symbol(alloc: Global, bytes: &[u8]) -> Result<Symbol, AllocError>
    ensures { IfOk result (λ s. s ≡ spec.ident_symbol bytes.now) }
{
    match bytes {
        [b'"' | b'`', ..] => {
            let name = undoubled(alloc, inside(bytes, 1), bytes[0])?;
            name_symbol(alloc, &name)
        }
        [b'[', ..] => name_symbol(alloc, inside(bytes, 1)),
        _ => word_symbol(alloc, bytes),
    }
}

fn bits_symbol(digits: &[u8]) -> Symbol
    ensures { result ≡ spec.bits_symbol digits.now }
{
    if digits.len() > 16 {
        return Symbol::Other;
    }
    match number(digits, 16) {
        Some(number) => Symbol::Bits(number.cast_signed()),
        None => Symbol::Other,
    }
}

fn bounded(number: u64) -> Symbol
    ensures { result ≡ spec.bounded number }
{
    if number <= 1 << 63 {
        Symbol::Number(number)
    } else {
        Symbol::Other
    }
}

fn decimal_symbol(digits: &[u8]) -> Symbol
    ensures { result ≡ spec.decimal_symbol digits.now }
{
    match number(digits, 10) {
        Some(number) => bounded(number),
        None => Symbol::Other,
    }
}

fn int_symbol(bytes: &[u8]) -> Symbol
    ensures { result ≡ spec.int_symbol bytes.now }
{
    match hex_digits(bytes) {
        Some(digits) => bits_symbol(digits),
        None => decimal_symbol(bytes),
    }
}

fn text_symbol(alloc: Global, bytes: &[u8]) -> Result<Symbol, AllocError>
    ensures { IfOk result (λ s. s ≡ spec.text_symbol bytes.now) }
{
    let text = undoubled(alloc, inside(bytes, 1), b'\'')?;
    match text_of(text) {
        Some(text) => Ok(Symbol::Text(text)),
        None => Ok(Symbol::Other),
    }
}

// What is told of digits that spell no bytes, or where memory ran out.
fn not_blob(error: FromHexError) -> Result<Symbol, AllocError>
    ensures { result ≡ spec.not_blob error }
{
    match error {
        FromHexError::OutOfMemory => Err(AllocError),
        _ => Ok(Symbol::Other),
    }
}

fn blob_symbol(alloc: Global, bytes: &[u8]) -> Result<Symbol, AllocError>
    ensures { IfOk result (λ s. s ≡ spec.blob_symbol bytes.now) }
{
    match hex::decode(alloc, inside(bytes, 2)) {
        Ok(bytes) => Ok(Symbol::Blob(Bytes::new(bytes))),
        Err(error) => not_blob(error),
    }
}

fn param(number: u64) -> Symbol
    ensures { result ≡ spec.param number }
{
    Symbol::Param(number.min(1000) as u16)
}

fn given_param(digits: &[u8]) -> Symbol
    ensures { result ≡ spec.given_param digits.now }
{
    match number(digits, 10) {
        Some(number) => param(number),
        None => Symbol::Other,
    }
}

fn param_symbol(bytes: &[u8], greatest: u16) -> Symbol
    ensures { result ≡ spec.param_symbol greatest bytes.now }
{
    match bytes {
        [_, digits @ ..] if !digits.is_empty() => given_param(digits),
        _ => param(u64::from(greatest) + 1),
    }
}

fn sign_symbol(bytes: &[u8]) -> Symbol
    ensures { result ≡ spec.sign_symbol bytes.now }
{
    match sign(bytes) {
        Some(mark) => Symbol::Mark(mark),
        None => Symbol::Other,
    }
}

#[tactic(auto, unfolding(crate::specs::Symbols::symbol_of))]
fn symbol(alloc: Global, source: &[u8], token: &Token, greatest: u16) -> Result<Symbol, AllocError>
    ensures { IfOk result (λ s. s ≡ spec.symbol_of source.now greatest token.now) }
{
    let bytes = spelling(source, token);
    match token.kind {
        TokenKind::Ident => ident_symbol(alloc, bytes),
        TokenKind::Int => Ok(int_symbol(bytes)),
        TokenKind::Text => text_symbol(alloc, bytes),
        TokenKind::Blob => blob_symbol(alloc, bytes),
        TokenKind::Param => Ok(param_symbol(bytes, greatest)),
        TokenKind::Op => Ok(sign_symbol(bytes)),
        TokenKind::Real | TokenKind::Open | TokenKind::Illegal => Ok(Symbol::Other),
    }
}

fn param_number(symbol: &Symbol) -> u16
    ensures { result ≡ spec.param_number symbol.now }
{
    match symbol {
        Symbol::Param(number) => *number,
        _ => 0,
    }
}

/// The symbols of tokens of a source, one for each token.
///
/// - `Ident`: in quotes or brackets the `Name` that stands inside, a doubled quote once; else the `Mark` of a word of the
///   grammar, ASCII case ignored, `Other` for a word of SQL outside of it, and else a `Name`. A name's ASCII letters are
///   in lower case.
/// - `Int`: a `Number` up to 9223372036854775808, or the `Bits` that `0x` and at most 16 digits, leading zeros among
///   them, spell in two's complement.
/// - `Text` and `Blob`: what stands in the quotes, a doubled quote once, and the bytes that the digits spell.
/// - `Param`: `?N` is `N` and `?` one more than the greatest number of a parameter before it in these tokens, so a
///   statement's tokens go in alone; a number above 999 is 1000.
/// - `Op`: the `Mark` of the sign.
///
/// All else is `Other`: a number that is larger, `;`, and each `Real`, `Open` or `Illegal` token. A token that is none of
/// its source's has a symbol by the same rules, of those of its bytes that the source has; bytes that are no UTF-8 are
/// no name and no text, but `Other`. `AllocError` where memory runs out. SQLite's "SQL Syntax"; the grammar's words and
/// the limits are this project's own.
pub fn symbols(alloc: Global, source: &str, tokens: &[Token]) -> Result<Vec<Symbol>, AllocError>
    ensures { IfOk result (λ v. v.items ≡ symbols_of source.now tokens.now) }
{
    let source = source.as_bytes();
    let mut found = Vec::new(alloc);
    let mut greatest = 0;
    for token in tokens {
        let symbol = symbol(alloc, source, token, greatest)?;
        greatest = greatest.max(param_number(&symbol));
        found.push(symbol)?;
    }
    Ok(found)
}
