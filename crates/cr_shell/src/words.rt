//! The words and literals of a line.

ghost use Rattle.std.specs.Prelude.{◌≡◌, drop, IfOk};
ghost use Rattle.std.specs.Option.{option_map};
ghost use Rattle.cr_value.specs.Reading.{literal_at};
ghost use Rattle.cr_shell.specs.Words.{has_space, split_at_space, behind, is_empty};

use cr_value::literal::read_literal;
use cr_value::value::Value;
use std::alloc::{AllocError, Global};

pub(crate) fn has_space(text: &str) -> bool
    ensures { result ≡ has_space text.now }
{
    text.as_bytes().iter().any(|c| *c == b' ')
}

pub(crate) fn split_at_space(text: &str) -> Option<(&str, &str)>
    ensures { option_map (λ x. (x.0.now, x.1.now)) result ≡ split_at_space text.now }
{
    text.split_once(' ')
}

// What is behind a byte that stands at a place.
pub(crate) fn behind_from(text: &str, at: usize, byte: u8) -> Option<usize>
    ensures { option_map (λ end. drop end text.now) result ≡ behind byte (drop at text.now) }
{
    let bytes = text.as_bytes();
    if at >= bytes.len() || bytes[at] != byte {
        return None;
    }
    Some(at + 1)
}

// The literal that begins at a place, and where it ends.
pub(crate) fn literal_from(
    alloc: Global,
    text: &str,
    at: usize,
) -> Result<Option<(Value, usize)>, AllocError>
    ensures { IfOk result (λ found. option_map (λ x. (x.0, drop x.1 text.now)) found ≡ literal_at (drop at text.now)) }
{
    read_literal(alloc, text, at)
}

pub(crate) fn is_at_end(text: &str, at: usize) -> bool
    ensures { result ≡ is_empty (drop at text.now) }
{
    text.len() <= at
}
