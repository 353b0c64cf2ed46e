//! Why a token is out of this project's SQL.

ghost use Rattle.std.specs.Prelude.{◌≡◌};
ghost use Rattle.std.specs.Option.{option_copied};
ghost use Rattle.cr_lex.specs.Outside.{outside_hex, outside_decimal, outside_int, outside_of, is_minus, after_minus, real_if};

use crate::marks::outside_word;
use crate::spelling::{hex_digits, number, spelling};
use crate::token::{Token, TokenKind};

fn real_if(condition: bool) -> Option<&'static str>
    ensures { option_copied result ≡ real_if condition }
{
    if condition { Some("REAL") } else { None }
}

fn outside_hex(is_negated: bool, digits: &[u8]) -> Option<&'static str>
    ensures { option_copied result ≡ outside_hex is_negated digits.now }
{
    if digits.len() > 16 {
        return Some("HEX");
    }
    match number(digits, 16) {
        Some(number) => real_if(is_negated && number == 1 << 63),
        None => None,
    }
}

fn outside_decimal(digits: &[u8]) -> Option<&'static str>
    ensures { option_copied result ≡ outside_decimal digits.now }
{
    match number(digits, 10) {
        Some(number) => real_if(number >= 1 << 63),
        None => None,
    }
}

fn outside_int(is_negated: bool, bytes: &[u8]) -> Option<&'static str>
    ensures { option_copied result ≡ outside_int is_negated bytes.now }
{
    match hex_digits(bytes) {
        Some(digits) => outside_hex(is_negated, digits),
        None => outside_decimal(bytes),
    }
}

fn is_minus(source: &[u8], token: &Token) -> bool
    ensures { result ≡ is_minus source.now token.now }
{
    token.kind == TokenKind::Op && spelling(source, token) == b"-".as_slice()
}

fn is_after_minus(source: &[u8], tokens: &[Token], at: usize) -> bool
    ensures { result ≡ after_minus source.now tokens.now at }
{
    match tokens.get(at.saturating_sub(1)) {
        Some(token) => at > 0 && is_minus(source, token),
        None => false,
    }
}

/// Why the token at a place of the list is told as out of this project's SQL where no statement goes on with it, and not
/// as wrong syntax: `REAL` for a number with a point or an exponent, for one in decimal digits above
/// 9223372036854775807, and for one in hexadecimal digits that is -9223372036854775808 and stands right behind a `-`;
/// `HEX` for one of more than 16 hexadecimal digits; a word of SQL that is outside of the grammar, or `EXISTS`, in upper
/// case. `None` for each other token, and past the end of the list. This project's own rule.
#[tactic(auto, unfolding(crate::specs::Outside::outside_of))]
pub fn outside(source: &str, tokens: &[Token], at: usize) -> Option<&'static str>
    ensures { option_copied result ≡ outside_of source.now tokens.now at }
{
    let source = source.as_bytes();
    let token = tokens.get(at)?;
    let bytes = spelling(source, token);
    match token.kind {
        TokenKind::Real => Some("REAL"),
        TokenKind::Int => outside_int(is_after_minus(source, tokens, at), bytes),
        TokenKind::Ident => outside_word(bytes),
        _ => None,
    }
}
