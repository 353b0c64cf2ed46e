//! What the bytes of a token spell.

ghost use Rattle.std.specs.Prelude.{◌≡◌, ◌≤◌, min, IfOk};
ghost use Rattle.std.specs.List.{list_all};
ghost use Rattle.std.specs.Option.{option_map, option_copied};
ghost use Rattle.std.specs.Char.{is_digit};
ghost use Rattle.cr_lex.specs.Spelling.{spelling, inside, undoubled, is_numeral, number, hex_digits};

use crate::token::Token;
use std::alloc::{AllocError, Global};

/// The bytes of a source that a token is, from `from` up to `to`: those of them that the source has, if it ends before;
/// none where `to` stands before `from`.
pub fn spelling<'a>(source: &'a [u8], token: &Token) -> &'a [u8]
    ensures { result.now ≡ spelling source.now token.now }
{
    let to = token.to.min(source.len());
    let from = token.from.min(to);
    &source[from..to]
}

/// What follows an opening of so many bytes, but for the last byte, which closes it.
pub(crate) fn inside(bytes: &[u8], opening: usize) -> &[u8]
    ensures { result.now ≡ inside opening bytes.now }
{
    let rest = &bytes[opening.min(bytes.len())..];
    &rest[..rest.len().saturating_sub(1)]
}

/// With each doubled quote once.
pub(crate) fn undoubled(alloc: Global, bytes: &[u8], quote: u8) -> Result<Vec<u8>, AllocError>
    ensures { IfOk result (λ v. v.items ≡ undoubled quote bytes.now) }
{
    let mut once = Vec::new(alloc);
    let mut after_quote = false;
    for c in bytes {
        if after_quote && *c == quote {
            after_quote = false;
        } else {
            once.push(*c)?;
            after_quote = *c == quote;
        }
    }
    Ok(once)
}

fn is_digit(c: u8, radix: u32) -> bool
    requires least { 2 ≤ radix }
    requires most { radix ≤ 36 }
    ensures { result ≡ is_digit c radix }
{
    char::from(c).is_digit(radix)
}

fn are_digits(bytes: &[u8], radix: u32) -> bool
    requires least { 2 ≤ radix }
    requires most { radix ≤ 36 }
    ensures { result ≡ list_all (λ c. is_digit c radix) bytes.now }
{
    bytes.iter().all(|c| is_digit(*c, radix))
}

fn is_numeral(digits: &[u8], radix: u32) -> bool
    requires least { 2 ≤ radix }
    requires most { radix ≤ 36 }
    ensures { result ≡ is_numeral radix digits.now }
{
    !digits.is_empty() && are_digits(digits, radix)
}

/// The number that digits spell, or `u64::MAX` if it is greater.
#[tactic(auto, unfolding(crate::specs::Spelling::number))]
pub(crate) fn number(digits: &[u8], radix: u32) -> Option<u64>
    requires least { 2 ≤ radix }
    requires most { radix ≤ 36 }
    ensures { result ≡ option_map (λ n. min n u64.MAX) (number radix digits.now) }
{
    if !is_numeral(digits, radix) {
        return None;
    }
    let Ok(text) = str::from_utf8(digits) else {
        return None;
    };
    Some(u64::from_str_radix(text, radix).unwrap_or(u64::MAX))
}

/// What follows `0x`.
#[tactic(auto, unfolding(crate::specs::Spelling::hex_digits))]
pub(crate) fn hex_digits(bytes: &[u8]) -> Option<&[u8]>
    ensures { option_copied result ≡ hex_digits bytes.now }
{
    match bytes {
        [b'0', b'x', digits @ ..] => Some(digits),
        _ => None,
    }
}
