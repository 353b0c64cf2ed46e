//! Values as SQL literals.

ghost use Rattle.std.specs.Prelude.{◌≡◌, ℕ, ◌≤◌, ◌==◌, ◌++◌, false, not, length, IfOk, IfSome, IfNone, OnOk};
ghost use Rattle.std.specs.String.{string_bytes};
ghost use Rattle.std.specs.List.{prefix_len};
ghost use Rattle.hex.specs.Hex.{decode_of};
ghost use Rattle.cr_value.specs.declared.value.Value.{Value};
ghost use Rattle.cr_value.specs.Unpacking.{Gives};
ghost use Rattle.cr_value.specs.Literal.{is_control, is_printable, doubled, quoted, blob_literal, text_literal, literal, Begins};
ghost use Rattle.cr_value.specs.Reading.{after_prefix, numeral_len, integer_at, closed_at, text_of, decoded, quoted_at, digits_at, hex_at, blob_at, cast_at, null_at, literal_at};

use crate::affinity::int_of_text;
use crate::cast::leading_digits;
use crate::packing::Unread;
use crate::text::{Bytes, Text};
use crate::value::Value;
use hex::FromHexError;
use std::alloc::{AllocError, Global};

fn is_control(c: u8) -> bool
    ensures { result ≡ is_control c }
{
    c < b' ' || c == 127
}

/// Whether no byte of a text is a control character: then the text is written between quotes. Takes no memory.
pub fn is_printable(text: &[u8]) -> bool
    ensures { result ≡ is_printable text.now }
{
    text.iter().all(|c| !is_control(*c))
}

fn push_doubled(out: &mut String, text: &str) -> Result<(), AllocError>
    ensures { OnOk result (string_bytes out.new ≡ string_bytes out.old ++ doubled text.now) }
{
    let mut rest = text;
    while let Some((before, after)) = rest.split_once('\'') {
        out.push_str(before)?;
        out.push_str("''")?;
        rest = after;
    }
    out.push_str(rest)?;
    Ok(())
}

fn quoted(alloc: Global, text: &str) -> Result<String, AllocError>
    ensures { IfOk result (λ t. string_bytes t ≡ quoted text.now) }
{
    let mut out = String::from_str(alloc, "'")?;
    push_doubled(&mut out, text)?;
    out.push_str("'")?;
    Ok(out)
}

fn blob_literal(alloc: Global, blob: &[u8]) -> Result<String, AllocError>
    ensures { IfOk result (λ t. string_bytes t ≡ blob_literal blob.now) }
{
    let digits = hex::encode_upper(alloc, blob)?;
    format!(in alloc; "X'{digits}'")
}

fn text_literal(alloc: Global, text: &str) -> Result<String, AllocError>
    ensures { IfOk result (λ t. string_bytes t ≡ text_literal text.now) }
{
    if is_printable(text.as_bytes()) {
        quoted(alloc, text)
    } else {
        let blob = blob_literal(alloc, text.as_bytes())?;
        format!(in alloc; "CAST({blob} AS TEXT)")
    }
}

/// The value as a literal: `NULL`, a decimal number, `X'..'` with upper case digits, or `'..'` with quotes doubled; a
/// text with a character below U+0020 or U+007F is `CAST(X'..' AS TEXT)` of its bytes in UTF-8. SQLite's "Literal
/// Values (Constants)"; the last form is this project's own.
pub fn literal_text(alloc: Global, value: &Value) -> Result<String, AllocError>
    ensures { IfOk result (λ t. string_bytes t ≡ literal value.now) }
{
    match value {
        Value::Null => String::from_str(alloc, "NULL"),
        Value::Int(n) => n.to_string(alloc),
        Value::Text(text) => text_literal(alloc, text.as_str()),
        Value::Blob(blob) => blob_literal(alloc, blob.as_slice()),
    }
}

// What follows the prefix.
#[tactic(auto, unfolding(crate::specs::Reading::after_prefix))]
fn after_prefix<'a>(bytes: &'a [u8], prefix: &[u8]) -> Result<&'a [u8], Unread>
    ensures { Gives (λ x. x.now) result (after_prefix prefix.now bytes.now) }
{
    if !bytes.starts_with(prefix) {
        return Err(Unread::Malformed);
    }
    Ok(&bytes[prefix.len()..])
}

fn numeral_len(bytes: &[u8]) -> usize
    ensures value { result ≡ numeral_len bytes.now }
    ensures within { result ≤ length bytes.now }
{
    match bytes {
        [b'-', rest @ ..] => 1 + leading_digits(rest).len(),
        _ => leading_digits(bytes).len(),
    }
}

#[tactic(auto, using(crate::proofs::Texts::utf8_tests), unfolding(crate::specs::Reading::integer_at))]
fn integer_at(alloc: Global, bytes: &[u8]) -> Result<(Value, &[u8]), Unread>
    ensures { Gives (λ x. (x.0, x.1.now)) result (integer_at bytes.now) }
{
    let (numeral, rest) = bytes.split_at(numeral_len(bytes));
    let Ok(text) = str::from_utf8(numeral) else {
        return Err(Unread::Malformed);
    };
    let Some(number) = int_of_text(text) else {
        return Err(Unread::Malformed);
    };
    if number.to_string(alloc)?.as_bytes() != numeral {
        return Err(Unread::Malformed);
    }
    Ok((Value::Int(number), rest))
}

// A text up to its closing quote, and what follows.
fn closed_at(alloc: Global, bytes: &[u8]) -> Result<(Vec<u8>, &[u8]), Unread>
    ensures { Gives (λ x. (x.0.items, x.1.now)) result (closed_at false bytes.now) }
{
    let mut text = Vec::new(alloc);
    let mut after_quote = false;
    for (at, c) in bytes.iter().enumerate() {
        if *c == b'\'' {
            if after_quote {
                text.push(b'\'')?;
            }
            after_quote = !after_quote;
        } else if after_quote {
            return Ok((text, &bytes[at..]));
        } else if is_control(*c) {
            return Err(Unread::Malformed);
        } else {
            text.push(*c)?;
        }
    }
    if !after_quote {
        return Err(Unread::Malformed);
    }
    Ok((text, &[]))
}

#[tactic(auto, using(crate::proofs::Texts::utf8_tests))]
fn text_of(alloc: Global, bytes: &[u8]) -> Result<Value, Unread>
    ensures { Gives (λ v. v) result (text_of bytes.now) }
{
    match str::from_utf8(bytes) {
        Ok(text) => Ok(Value::Text(Text::from_str(alloc, text)?)),
        Err(_) => Err(Unread::Malformed),
    }
}

#[tactic(auto, unfolding(crate::specs::Reading::quoted_at))]
fn quoted_at(alloc: Global, bytes: &[u8]) -> Result<(Value, &[u8]), Unread>
    ensures { Gives (λ x. (x.0, x.1.now)) result (quoted_at bytes.now) }
{
    let (text, rest) = closed_at(alloc, bytes)?;
    Ok((text_of(alloc, &text)?, rest))
}

fn decoded(alloc: Global, digits: &[u8]) -> Result<Vec<u8>, Unread>
    ensures { Gives (λ v. v.items) result (decoded (decode_of digits.now)) }
{
    match hex::decode(alloc, digits) {
        Ok(bytes) => Ok(bytes),
        Err(FromHexError::OutOfMemory) => Err(Unread::Memory),
        Err(_) => Err(Unread::Malformed),
    }
}

fn len_before_quote(bytes: &[u8]) -> usize
    ensures { result ≡ prefix_len (λ c. not (c == 39)) bytes.now }
{
    for (at, c) in bytes.iter().enumerate() {
        if *c == b'\'' {
            return at;
        }
    }
    bytes.len()
}

// The bytes of hexadecimal digits up to a quote.
#[tactic(auto, unfolding(crate::specs::Reading::digits_at))]
fn digits_at(alloc: Global, bytes: &[u8]) -> Result<(Vec<u8>, &[u8]), Unread>
    ensures { Gives (λ x. (x.0.items, x.1.now)) result (digits_at bytes.now) }
{
    let len = len_before_quote(bytes);
    if len >= bytes.len() {
        return Err(Unread::Malformed);
    }
    Ok((decoded(alloc, &bytes[..len])?, &bytes[len + 1..]))
}

#[tactic(auto, unfolding(crate::specs::Reading::hex_at))]
fn hex_at(alloc: Global, bytes: &[u8]) -> Result<(Vec<u8>, &[u8]), Unread>
    ensures { Gives (λ x. (x.0.items, x.1.now)) result (hex_at bytes.now) }
{
    match bytes {
        [b'X' | b'x', b'\'', rest @ ..] => digits_at(alloc, rest),
        _ => Err(Unread::Malformed),
    }
}

#[tactic(auto, unfolding(crate::specs::Reading::blob_at))]
fn blob_at(alloc: Global, bytes: &[u8]) -> Result<(Value, &[u8]), Unread>
    ensures { Gives (λ x. (x.0, x.1.now)) result (blob_at bytes.now) }
{
    let (blob, rest) = hex_at(alloc, bytes)?;
    Ok((Value::Blob(Bytes::new(blob)), rest))
}

#[tactic(auto, unfolding(crate::specs::Reading::cast_at))]
fn cast_at(alloc: Global, bytes: &[u8]) -> Result<(Value, &[u8]), Unread>
    ensures { Gives (λ x. (x.0, x.1.now)) result (cast_at bytes.now) }
{
    let rest = after_prefix(bytes, b"CAST(")?;
    let (text, rest) = hex_at(alloc, rest)?;
    let rest = after_prefix(rest, b" AS TEXT)")?;
    Ok((text_of(alloc, &text)?, rest))
}

#[tactic(auto, unfolding(crate::specs::Reading::null_at))]
fn null_at(bytes: &[u8]) -> Result<(Value, &[u8]), Unread>
    ensures { Gives (λ x. (x.0, x.1.now)) result (null_at bytes.now) }
{
    let rest = after_prefix(bytes, b"NULL")?;
    Ok((Value::Null, rest))
}

#[tactic(auto, unfolding(crate::specs::Reading::literal_at))]
fn literal_at(alloc: Global, bytes: &[u8]) -> Result<(Value, &[u8]), Unread>
    ensures { Gives (λ x. (x.0, x.1.now)) result (literal_at bytes.now) }
{
    match bytes {
        [b'\'', rest @ ..] => quoted_at(alloc, rest),
        [b'X' | b'x', ..] => blob_at(alloc, bytes),
        [b'C', ..] => cast_at(alloc, bytes),
        [b'N', ..] => null_at(bytes),
        [_, ..] => integer_at(alloc, bytes),
        [] => Err(Unread::Malformed),
    }
}

/// The literal that begins at byte `at` of the text, and the byte at which it ends: exactly what `literal_text` writes,
/// with hexadecimal digits and the X in either case, and any text as `CAST(X'..' AS TEXT)`. A run of digits is read whole, and a quoted text to the quote that
/// no other follows; `None` where no literal begins there, as at `007`, `-0`, `+1` or a quoted control character.
pub fn read_literal(
    alloc: Global,
    text: &str,
    at: usize,
) -> Result<Option<(Value, usize)>, AllocError>
    ensures some { IfOk result (λ found. IfSome found (λ x. Begins text.now at x.0 x.1)) }
    ensures none { IfOk result (λ found. IfNone found ((v : Value) (end : ℕ) → ¬ (Begins text.now at v end))) }
{
    let bytes = text.as_bytes();
    if at > bytes.len() {
        return Ok(None);
    }
    match literal_at(alloc, &bytes[at..]) {
        Ok((value, rest)) => Ok(Some((value, bytes.len() - rest.len()))),
        Err(Unread::Malformed) => Ok(None),
        Err(Unread::Memory) => Err(AllocError),
    }
}
