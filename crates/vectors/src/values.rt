//! Calls of values. Their arguments are literals, words or a whole text.
//!
//! | Call | Given |
//! |---|---|
//! | `affinity` | a declared type |
//! | `integer`, `prefix` | a text that is an integer, or begins with one |
//! | `apply`, `cast` | an affinity or a type, and a literal |
//! | `collate` | a collation, and two literals of texts |
//! | `order` | two literals |
//! | `rising` | literals, each of which should be less than the next |
//! | `literal` | a place, and a text in which a literal may begin there |
//! | `write` | a literal, which is read, copied and written again |
//! | `unpack` | the digits of bytes |

use cr_told::error::ToldError;
use cr_told::reading::value;
use cr_told::writing::told_values;
use cr_value::affinity::{Affinity, int_of_text};
use cr_value::cast::{CastError, CastTo, cast, integer_prefix};
use cr_value::collation::Collation;
use cr_value::literal::{literal_text, read_literal};
use cr_value::order::cmp_binary;
use cr_value::packing::unpack;
use cr_value::value::Value;
use std::alloc::{AllocError, Global};
use std::cmp::Ordering;

fn none_or(alloc: Global, number: Option<i64>) -> Result<String, AllocError> {
    match number {
        Some(number) => format!(in alloc; "{number}"),
        None => String::from_str(alloc, "none"),
    }
}

fn affinity_of(alloc: Global, declared: &str) -> Result<String, AllocError> {
    match Affinity::of_type(declared) {
        Some(affinity) => format!(in alloc; "{affinity:?}"),
        None => String::from_str(alloc, "none"),
    }
}

fn affinity_named(word: &str) -> Result<Affinity, ToldError> {
    match word {
        "Integer" => Ok(Affinity::Integer),
        "Text" => Ok(Affinity::Text),
        "Blob" => Ok(Affinity::Blob),
        "Numeric" => Ok(Affinity::Numeric),
        _ => Err(ToldError::Form),
    }
}

fn apply(alloc: Global, given: &str) -> Result<String, ToldError> {
    let (word, literal) = given.split_once(' ').ok_or(ToldError::Form)?;
    let applied = affinity_named(word)?.apply(alloc, &value(alloc, literal)?)?;
    Ok(literal_text(alloc, &applied)?)
}

fn type_named(word: &str) -> Result<CastTo, ToldError> {
    match word {
        "Integer" => Ok(CastTo::Integer),
        "Text" => Ok(CastTo::Text),
        "Blob" => Ok(CastTo::Blob),
        _ => Err(ToldError::Form),
    }
}

fn cast_of(alloc: Global, given: &str) -> Result<String, ToldError> {
    let (word, literal) = given.split_once(' ').ok_or(ToldError::Form)?;
    match cast(alloc, &value(alloc, literal)?, type_named(word)?) {
        Ok(found) => Ok(literal_text(alloc, &found)?),
        Err(CastError::NotUtf8) => Ok(String::from_str(alloc, "NotUtf8")?),
        Err(CastError::Memory) => Err(ToldError::Memory),
    }
}

fn collation_named(word: &str) -> Result<Collation, ToldError> {
    match word {
        "binary" => Ok(Collation::Binary),
        "nocase" => Ok(Collation::Nocase),
        "rtrim" => Ok(Collation::Rtrim),
        _ => Err(ToldError::Form),
    }
}

// Literals, parted by single spaces.
fn literals(alloc: Global, text: &str) -> Result<Vec<Value>, ToldError> {
    let mut all = Vec::new(alloc);
    let mut rest = text;
    for _turn in 0..text.len() {
        let (value, end) = read_literal(alloc, rest, 0)?.ok_or(ToldError::Form)?;
        all.push(value)?;
        match rest.get(end..).unwrap_or("") {
            "" => return Ok(all),
            behind => rest = behind.strip_prefix(' ').ok_or(ToldError::Form)?,
        }
    }
    Err(ToldError::Form)
}

pub(crate) fn order_word(order: Ordering) -> &'static str {
    match order {
        Ordering::Less => "less",
        Ordering::Equal => "equal",
        Ordering::Greater => "greater",
    }
}

fn collate(alloc: Global, given: &str) -> Result<Ordering, ToldError> {
    let (word, texts) = given.split_once(' ').ok_or(ToldError::Form)?;
    match literals(alloc, texts)?.as_slice() {
        [Value::Text(a), Value::Text(b)] => {
            Ok(collation_named(word)?.compare(a.as_str(), b.as_str()))
        }
        _ => Err(ToldError::Form),
    }
}

fn order(alloc: Global, given: &str) -> Result<Ordering, ToldError> {
    match literals(alloc, given)?.as_slice() {
        [a, b] => Ok(cmp_binary(a, b)),
        _ => Err(ToldError::Form),
    }
}

// Whether each two of the values stand to one another as their places do.
fn is_rising(values: &[Value]) -> bool {
    values.iter().enumerate().all(|(i, a)| {
        values
            .iter()
            .enumerate()
            .all(|(k, b)| cmp_binary(a, b) == i.cmp(&k))
    })
}

// The class and the bytes of a value.
fn shown(alloc: Global, value: &Value) -> Result<String, AllocError> {
    match value {
        Value::Null => String::from_str(alloc, "null"),
        Value::Int(number) => format!(in alloc; "integer {number}"),
        Value::Text(text) => {
            format!(in alloc; "text {}", hex::encode(alloc, text.as_str().as_bytes())?)
        }
        Value::Blob(bytes) => format!(in alloc; "blob {}", hex::encode(alloc, bytes.as_slice())?),
    }
}

fn literal_at(alloc: Global, given: &str) -> Result<String, ToldError> {
    let (place, text) = given.split_once(' ').ok_or(ToldError::Form)?;
    let at = place.parse().map_err(|_| ToldError::Form)?;
    match read_literal(alloc, text, at)? {
        Some((value, end)) => Ok(format!(in alloc; "{} to {end}", shown(alloc, &value)?)?),
        None => Ok(String::from_str(alloc, "none")?),
    }
}

fn written(alloc: Global, literal: &str) -> Result<String, ToldError> {
    let value = value(alloc, literal)?.copy(alloc)?;
    Ok(literal_text(alloc, &value)?)
}

fn unpacked(alloc: Global, digits: &str) -> Result<String, ToldError> {
    let bytes = hex::decode(alloc, digits).map_err(|_| ToldError::Form)?;
    match unpack(alloc, &bytes)? {
        Some(values) => Ok(told_values(alloc, &values)?),
        None => Ok(String::from_str(alloc, "none")?),
    }
}

/// What a call answers; `None` where it isn't one of these.
pub(crate) fn answer(alloc: Global, call: &str, given: &str) -> Result<Option<String>, ToldError> {
    Ok(Some(match call {
        "affinity" => affinity_of(alloc, given)?,
        "integer" => none_or(alloc, int_of_text(given))?,
        "prefix" => none_or(alloc, Some(integer_prefix(given.as_bytes())))?,
        "apply" => apply(alloc, given)?,
        "cast" => cast_of(alloc, given)?,
        "collate" => String::from_str(alloc, order_word(collate(alloc, given)?))?,
        "order" => String::from_str(alloc, order_word(order(alloc, given)?))?,
        "rising" => format!(in alloc; "{}", is_rising(&literals(alloc, given)?))?,
        "literal" => literal_at(alloc, given)?,
        "write" => written(alloc, given)?,
        "unpack" => unpacked(alloc, given)?,
        _ => return Ok(None),
    }))
}
