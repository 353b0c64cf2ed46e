//! The token at the front of a text, and all of them.

ghost use Rattle.std.specs.Prelude.{◌≡◌, ◌↔◌, ◌+◌, ◌≤◌, ◌<◌, ◌==◌, not, length, IfOk, Err};
ghost use Rattle.std.specs.List.{list_all};
ghost use Rattle.std.specs.Char.{is_ascii_digit, is_ascii_hexdigit};
ghost use Rattle.cr_lex.specs.declared.token.LexError.TheVariants as refused;
ghost use Rattle.cr_lex.specs.Texts.{is_blank, is_sign, is_pair};
ghost use Rattle.cr_lex.specs.Tokens.{IsGap, IsTokens};
ghost use Rattle.cr_lex.specs.Reading.{first_is, legal, quoted_token, bracketed_token, blob_token, sign_token, token_at, blank_len};

use crate::number::number_token;
use crate::runs::{closing, comment_len, digits_len, is_start, len_before, word_len};
use crate::token::{LexError, Token, TokenKind};
use std::alloc::Global;

/// The longest text that has tokens, in bytes.
pub const SCRIPT_LIMIT: usize = 1_000_000;

fn is_without_nul(bytes: &[u8]) -> bool
    ensures { result ≡ list_all (λ c. not (c == 0)) bytes.now }
{
    bytes.iter().all(|c| *c != 0)
}

fn is_hexadecimal(bytes: &[u8]) -> bool
    ensures { result ≡ list_all is_ascii_hexdigit bytes.now }
{
    bytes.iter().all(|c| c.is_ascii_hexdigit())
}

// U+0000 makes a closed text illegal.
fn legal(bytes: &[u8], kind: TokenKind) -> TokenKind
    ensures { result ≡ legal bytes.now kind }
{
    if is_without_nul(bytes) {
        kind
    } else {
        TokenKind::Illegal
    }
}

// What follows an opening quote.
#[tactic(auto, unfolding(crate::specs::Reading::quoted_token))]
fn quoted_token(bytes: &[u8], quote: u8, kind: TokenKind) -> (TokenKind, usize)
    requires { length bytes.now + 1 < 18446744073709551616 }
    ensures value { result ≡ quoted_token quote kind bytes.now }
    ensures within { result.1 ≤ length bytes.now + 1 }
{
    match closing(bytes, quote) {
        Some(len) => (legal(&bytes[..len], kind), 1 + len),
        None => (TokenKind::Open, 1 + bytes.len()),
    }
}

// What follows an opening bracket.
#[tactic(auto, unfolding(crate::specs::Reading::bracketed_token))]
fn bracketed_token(bytes: &[u8]) -> (TokenKind, usize)
    requires { length bytes.now + 1 < 18446744073709551616 }
    ensures value { result ≡ bracketed_token bytes.now }
    ensures within { result.1 ≤ length bytes.now + 1 }
{
    let len = len_before(bytes, b']');
    if len < bytes.len() {
        (legal(&bytes[..=len], TokenKind::Ident), len + 2)
    } else {
        (TokenKind::Open, 1 + bytes.len())
    }
}

// What follows an opening `x'`.
#[tactic(auto, unfolding(crate::specs::Reading::blob_token))]
fn blob_token(bytes: &[u8]) -> (TokenKind, usize)
    requires { length bytes.now + 2 < 18446744073709551616 }
    ensures value { result ≡ blob_token bytes.now }
    ensures within { result.1 ≤ length bytes.now + 2 }
{
    let len = len_before(bytes, b'\'');
    if len >= bytes.len() {
        return (TokenKind::Open, 2 + bytes.len());
    }
    if len % 2 == 0 && is_hexadecimal(&bytes[..len]) {
        (TokenKind::Blob, len + 3)
    } else {
        (TokenKind::Illegal, len + 3)
    }
}

fn is_sign(c: u8) -> bool
    ensures { result ≡ is_sign c }
{
    matches!(
        c,
        b'(' | b')' | b',' | b';' | b'.' | b'*' | b'+' | b'-' | b'/' | b'%' | b'<' | b'>' | b'='
    )
}

fn is_pair(a: u8, b: u8) -> bool
    ensures { result ≡ is_pair a b }
{
    matches!(
        (a, b),
        (b'<', b'=') | (b'>', b'=') | (b'<', b'>') | (b'!', b'=') | (b'=', b'=') | (b'|', b'|')
    )
}

#[tactic(auto, unfolding(crate::specs::Reading::sign_token))]
fn sign_token(bytes: &[u8]) -> (TokenKind, usize)
    ensures value { result ≡ sign_token bytes.now }
    ensures within { 0 < length bytes.now → result.1 ≤ length bytes.now }
{
    match bytes {
        [a, b, ..] if is_pair(*a, *b) => (TokenKind::Op, 2),
        [a, ..] if is_sign(*a) => (TokenKind::Op, 1),
        _ => (TokenKind::Illegal, 1),
    }
}

fn begins_with_quote(bytes: &[u8]) -> bool
    ensures { result ≡ first_is (λ c. c == 39) bytes.now }
{
    matches!(bytes, [b'\'', ..])
}

fn begins_with_digit(bytes: &[u8]) -> bool
    ensures { result ≡ first_is is_ascii_digit bytes.now }
{
    match bytes {
        [c, ..] => c.is_ascii_digit(),
        [] => false,
    }
}

// The token at the front.
#[tactic(auto, unfolding(crate::specs::Reading::token_at))]
fn token_at(bytes: &[u8]) -> (TokenKind, usize)
    ensures value { result ≡ token_at bytes.now }
    ensures within { result.1 ≤ length bytes.now }
{
    let [first, rest @ ..] = bytes else {
        return (TokenKind::Illegal, 0);
    };
    if *first == b'\'' {
        return quoted_token(rest, b'\'', TokenKind::Text);
    }
    if *first == b'"' || *first == b'`' {
        return quoted_token(rest, *first, TokenKind::Ident);
    }
    if *first == b'[' {
        return bracketed_token(rest);
    }
    if (*first == b'x' || *first == b'X') && begins_with_quote(rest) {
        return blob_token(&rest[1..]);
    }
    if first.is_ascii_digit() || (*first == b'.' && begins_with_digit(rest)) {
        return number_token(bytes);
    }
    if is_start(*first) {
        return (TokenKind::Ident, 1 + word_len(rest));
    }
    if *first == b'?' {
        return (TokenKind::Param, 1 + digits_len(rest));
    }
    sign_token(bytes)
}

fn is_blank(c: u8) -> bool
    ensures { result ≡ is_blank c }
{
    matches!(c, b'\t' | b'\n' | 0x0c | b'\r' | b' ')
}

// The blank or comment at the front.
#[tactic(auto, unfolding(crate::specs::Reading::blank_len))]
fn blank_len(bytes: &[u8]) -> usize
    ensures value { result ≡ blank_len bytes.now }
    ensures within { result ≤ length bytes.now }
{
    match bytes {
        [b'-', b'-', rest @ ..] => 2 + len_before(rest, b'\n'),
        [b'/', b'*', rest @ ..] => 2 + comment_len(rest),
        [c, ..] if is_blank(*c) => 1,
        _ => 0,
    }
}

// Where the blanks and comments from a place on end.
fn gap_end(bytes: &[u8], from: usize) -> usize
    requires { from ≤ length bytes.now }
    ensures value { IsGap bytes.now from result }
{
    let mut to = from;
    loop {
        let len = blank_len(&bytes[to..]);
        if len == 0 {
            return to;
        }
        to += len;
    }
}

/// The tokens of a script: the only list of tokens with nothing but blanks and comments between them, each the longest
/// that begins there. `Limit` is answered exactly for a script of over 1,000,000 bytes, `Memory` only where memory
/// ran out.
pub fn tokens(alloc: Global, text: &str) -> Result<Vec<Token>, LexError>
    ensures tokens { IfOk result (λ v. IsTokens text.now 0 v.items) }
    ensures limit { result ≡ Err refused.Limit ↔ 1000000 < length text.now }
{
    let bytes = text.as_bytes();
    if bytes.len() > SCRIPT_LIMIT {
        return Err(LexError::Limit);
    }
    let mut found = Vec::new(alloc);
    let mut from = gap_end(bytes, 0);
    while from < bytes.len() {
        let (kind, len) = token_at(&bytes[from..]);
        let to = from + len;
        found.push(Token { kind, from, to })?;
        from = gap_end(bytes, to);
    }
    Ok(found)
}
