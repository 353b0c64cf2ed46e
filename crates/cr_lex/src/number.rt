//! Numbers.

ghost use Rattle.std.specs.Prelude.{◌≡◌, ◌≤◌, length};
ghost use Rattle.cr_lex.specs.Reading.{hex_len, sign_len, exponent_len, point_len, number_at, number_token};

use crate::runs::{digits_len, hex_digits_len, word_len};
use crate::token::TokenKind;

#[tactic(auto, unfolding(crate::specs::Reading::hex_len))]
fn hex_len(bytes: &[u8]) -> usize
    ensures value { result ≡ hex_len bytes.now }
    ensures within { result ≤ length bytes.now }
{
    let [b'0', b'x', rest @ ..] = bytes else {
        return 0;
    };
    match hex_digits_len(rest) {
        0 => 0,
        digits => 2 + digits,
    }
}

#[tactic(auto, unfolding(crate::specs::Reading::sign_len))]
fn sign_len(bytes: &[u8]) -> usize
    ensures value { result ≡ sign_len bytes.now }
    ensures within { result ≤ length bytes.now }
{
    match bytes {
        [b'+' | b'-', ..] => 1,
        _ => 0,
    }
}

#[tactic(auto, unfolding(crate::specs::Reading::exponent_len))]
fn exponent_len(bytes: &[u8]) -> usize
    ensures value { result ≡ exponent_len bytes.now }
    ensures within { result ≤ length bytes.now }
{
    let [b'e' | b'E', rest @ ..] = bytes else {
        return 0;
    };
    let sign = sign_len(rest);
    match digits_len(&rest[sign..]) {
        0 => 0,
        digits => 1 + sign + digits,
    }
}

#[tactic(auto, unfolding(crate::specs::Reading::point_len))]
fn point_len(bytes: &[u8]) -> usize
    ensures value { result ≡ point_len bytes.now }
    ensures within { result ≤ length bytes.now }
{
    match bytes {
        [b'.', rest @ ..] => 1 + digits_len(rest),
        _ => 0,
    }
}

// The number at the front.
#[tactic(auto, unfolding(crate::specs::Reading::number_at, crate::specs::Reading::decimal_len, crate::specs::Reading::mantissa_len))]
fn number_at(bytes: &[u8]) -> (TokenKind, usize)
    ensures value { result ≡ number_at bytes.now }
    ensures within { result.1 ≤ length bytes.now }
{
    let hex = hex_len(bytes);
    if hex > 0 {
        return (TokenKind::Int, hex);
    }
    let whole = digits_len(bytes);
    let mantissa = whole + point_len(&bytes[whole..]);
    let len = mantissa + exponent_len(&bytes[mantissa..]);
    if whole == len {
        (TokenKind::Int, len)
    } else {
        (TokenKind::Real, len)
    }
}

// The number at the front, illegal if a word goes on with it.
#[tactic(auto, unfolding(crate::specs::Reading::number_token))]
pub fn number_token(bytes: &[u8]) -> (TokenKind, usize)
    ensures value { result ≡ number_token bytes.now }
    ensures within { result.1 ≤ length bytes.now }
{
    let (kind, len) = number_at(bytes);
    match word_len(&bytes[len..]) {
        0 => (kind, len),
        tail => (TokenKind::Illegal, len + tail),
    }
}
