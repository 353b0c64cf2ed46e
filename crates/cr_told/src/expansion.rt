//! What the text of a case stands for. In it `{N*TEXT}` stands for the text N times, and `\n`, `\0`, `\t`, `\v`, `\\` for what
//! they are in Rust.

use crate::error::ToldError;
use std::alloc::{AllocError, Global};

// The number of times, the text, and what follows, where a repetition begins after its brace.
fn repetition(text: &str) -> Option<(usize, &str, &str)> {
    let (times, rest) = text.split_once('*')?;
    let (part, after) = rest.split_once('}')?;
    Some((times.parse().ok()?, part, after))
}

// What an escape's letter stands for.
fn escaped(letter: char) -> Option<char> {
    match letter {
        'n' => Some('\n'),
        '0' => Some('\0'),
        't' => Some('\t'),
        'v' => Some('\x0b'),
        '\\' => Some('\\'),
        _ => None,
    }
}

// The text with its escapes undone.
fn unescaped(alloc: Global, text: String) -> Result<String, ToldError> {
    if !text.as_str().contains('\\') {
        return Ok(text);
    }
    let mut out = String::new(alloc);
    let mut is_after = false;
    for c in text.as_str().chars() {
        if is_after {
            out.push(escaped(c).ok_or(ToldError::Form)?)?;
            is_after = false;
        } else if c == '\\' {
            is_after = true;
        } else {
            out.push(c)?;
        }
    }
    Ok(out)
}

// The text with its repetitions written out.
fn repeated(alloc: Global, text: &str) -> Result<String, AllocError> {
    let mut out = String::new(alloc);
    let mut rest = text;
    for _turn in 0..text.len() {
        let Some((before, after)) = rest.split_once('{') else {
            break;
        };
        out.push_str(before)?;
        match repetition(after) {
            Some((times, part, behind)) => {
                out.push_str(part.repeat(alloc, times)?.as_str())?;
                rest = behind;
            }
            None => {
                out.push_str("{")?;
                rest = after;
            }
        }
    }
    out.push_str(rest)?;
    Ok(out)
}

/// The text that a case is given.
pub fn expanded(alloc: Global, text: &str) -> Result<String, ToldError> {
    unescaped(alloc, repeated(alloc, text)?)
}
