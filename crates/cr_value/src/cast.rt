//! What CAST makes of a value.

ghost use Rattle.std.specs.Prelude.{◌≡◌, ◌-◌, ◌^◌, min, EachIndex, slice_index};
ghost use Rattle.std.specs.List.{take_while};
ghost use Rattle.std.specs.Char.{is_ascii_digit, IsAsciiDigit};
ghost use Rattle.std.specs.Str.Parse.{digits_value, without_leading_sign};
ghost use Rattle.cr_value.specs.Cast.{as_integer, as_text, as_blob, cast_to, integer_prefix, Casts};

use crate::collation::without_leading_spaces;
use crate::text::{Bytes, Text};
use crate::value::Value;
use std::alloc::{AllocError, Global};
use thiserror::Error;

/// The types that a value may be cast to.
#[derive(Clone, Copy, Debug, PartialEq, Eq)]
pub enum CastTo {
    /// INTEGER: a text becomes the integer that it begins with.
    Integer,
    /// TEXT: an integer becomes the text that writes it, a blob the text that its bytes are.
    Text,
    /// BLOB: a text becomes its bytes, an integer those of the text that writes it.
    Blob,
}

/// Why a value was not cast.
#[derive(Debug, Drop, Error)]
pub enum CastError {
    /// Memory ran out.
    #[error("out of memory")]
    Memory,
    /// A blob that goes by way of text is no UTF-8.
    #[error("the blob is no text in UTF-8")]
    NotUtf8,
}

impl From<AllocError> for CastError {
    ghost use Rattle.std.specs.Prelude.{◌≡◌};
    ghost use Rattle.cr_value.specs.declared.cast.CastError.TheVariants.{Memory};

    ghost from_gives = { λ _ e. e ≡ Memory };

    fn from(_e: AllocError) -> CastError {
        CastError::Memory
    }
}

pub(crate) fn leading_digits(text: &[u8]) -> &[u8]
    ensures value { result.now ≡ take_while is_ascii_digit text.now }
    ensures digits { EachIndex result.now (λ k. IsAsciiDigit (slice_index result.now k)) }
{
    for (at, c) in text.iter().enumerate() {
        if !c.is_ascii_digit() {
            return &text[..at];
        }
    }
    text
}

// The number that digits write, or the greatest of 64 bits where it is above that.
#[tactic(auto, using(crate::proofs::Casting::more_digits))]
fn magnitude(digits: &[u8]) -> u64
    requires { EachIndex digits.now (λ k. IsAsciiDigit (slice_index digits.now k)) }
    ensures { result ≡ min (digits_value 10 digits.now) (2 ^ 64 - 1) }
{
    let mut number: u64 = 0;
    for digit in digits {
        let value = u64::from(digit - b'0');
        number = number.saturating_mul(10).saturating_add(value);
    }
    number
}

fn without_sign(text: &[u8]) -> &[u8]
    ensures { result.now ≡ without_leading_sign text.now }
{
    match text {
        [b'-' | b'+', rest @ ..] => rest,
        _ => text,
    }
}

/// The longest prefix that is an optional sign and decimal digits, behind spaces, clamped to 64 bits; 0 where there is
/// none. SQLite's "CAST expressions"; that no other blank is skipped is this project's own rule.
#[tactic(auto, unfolding(crate::specs::Cast::integer_prefix))]
pub fn integer_prefix(text: &[u8]) -> i64
    ensures { result ≡ integer_prefix text.now }
{
    let text = without_leading_spaces(text);
    let magnitude = magnitude(leading_digits(without_sign(text)));
    if text.starts_with(b"-") {
        0i64.saturating_sub_unsigned(magnitude)
    } else {
        0i64.saturating_add_unsigned(magnitude)
    }
}

#[tactic(auto, using(crate::proofs::Texts::utf8_tests))]
fn to_integer(value: &Value) -> Result<Value, CastError>
    ensures { Casts result (as_integer value.now) }
{
    match value {
        Value::Null => Ok(Value::Null),
        Value::Int(n) => Ok(Value::Int(*n)),
        Value::Text(text) => Ok(Value::Int(integer_prefix(text.as_str().as_bytes()))),
        Value::Blob(blob) => match str::from_utf8(blob.as_slice()) {
            Ok(text) => Ok(Value::Int(integer_prefix(text.as_bytes()))),
            Err(_) => Err(CastError::NotUtf8),
        },
    }
}

#[tactic(auto, using(crate::proofs::Texts::utf8_tests))]
fn to_text(alloc: Global, value: &Value) -> Result<Value, CastError>
    ensures { Casts result (as_text value.now) }
{
    match value {
        Value::Null => Ok(Value::Null),
        Value::Int(n) => Ok(Value::Text(Text::new(n.to_string(alloc)?))),
        Value::Text(text) => Ok(Value::Text(text.copy(alloc)?)),
        Value::Blob(blob) => match str::from_utf8(blob.as_slice()) {
            Ok(text) => Ok(Value::Text(Text::from_str(alloc, text)?)),
            Err(_) => Err(CastError::NotUtf8),
        },
    }
}

fn to_blob(alloc: Global, value: &Value) -> Result<Value, CastError>
    ensures { Casts result (as_blob value.now) }
{
    match value {
        Value::Null => Ok(Value::Null),
        Value::Int(n) => Ok(Value::Blob(Bytes::new(n.to_string(alloc)?.into_bytes()))),
        Value::Text(text) => Ok(Value::Blob(Bytes::from_slice(alloc, text.as_str().as_bytes())?)),
        Value::Blob(blob) => Ok(Value::Blob(blob.copy(alloc)?)),
    }
}

/// The value as one of another type. NULL stays NULL; an integer is its decimal text, a text its bytes; a text or a
/// blob is the integer that it begins with, a blob by way of text.
///
/// # Errors
/// `NotUtf8` exactly where a blob that is no UTF-8 is cast to a text or an integer, this project's own rule; `Memory`
/// where memory ran out.
pub fn cast(alloc: Global, value: &Value, to: CastTo) -> Result<Value, CastError>
    ensures { Casts result (cast_to to value.now) }
{
    match to {
        CastTo::Integer => to_integer(value),
        CastTo::Text => to_text(alloc, value),
        CastTo::Blob => to_blob(alloc, value),
    }
}
