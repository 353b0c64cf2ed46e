//! Texts: `||`, LIKE and CAST.

ghost use Rattle.cr_scalar.specs.Meaning.{Evaluates};
ghost use Rattle.cr_scalar.specs.Texts.{text_of, join_of, like_of, cast_of};

use crate::compare::is_null;
use crate::fault::EvalFault;
use crate::like::is_like;
use crate::number::truth_value;
use cr_value::cast::{CastError, CastTo, cast};
use cr_value::text::Text;
use cr_value::value::Value;
use std::alloc::Global;

/// The text of a value: decimal digits of an integer, a blob in UTF-8, and none of NULL.
///
/// # Errors
/// `NotUtf8` for a blob that is no text; `Memory`.
#[tactic(auto, using(cr_value::proofs::Texts::utf8_tests))]
pub fn text_of(alloc: Global, value: &Value) -> Result<Text, EvalFault>
    ensures { Evaluates (text_of value.now) result }
{
    match value {
        Value::Null => Ok(Text::from_str(alloc, "")?),
        Value::Int(n) => Ok(Text::new(n.to_string(alloc)?)),
        Value::Text(text) => Ok(text.copy(alloc)?),
        Value::Blob(blob) => match str::from_utf8(blob.as_slice()) {
            Ok(text) => Ok(Text::from_str(alloc, text)?),
            Err(_) => Err(EvalFault::NotUtf8),
        },
    }
}

/// `||`: two texts, one behind the other, and NULL beside a NULL.
///
/// # Errors
/// `NotUtf8` where a side is a blob that is no text and neither is NULL; `Memory`.
pub fn join(alloc: Global, left: &Value, right: &Value) -> Result<Value, EvalFault>
    ensures { Evaluates (join_of left.now right.now) result }
{
    if is_null(left) || is_null(right) {
        return Ok(Value::Null);
    }
    let mut joined = text_of(alloc, left)?.into_string();
    let right = text_of(alloc, right)?;
    joined.push_str(right.as_str())?;
    Ok(Value::Text(Text::new(joined)))
}

/// LIKE of a text and a pattern, where NOT may stand before it: `%` is any run of characters, `_` any one, and another
/// character itself, ASCII case ignored. NULL beside a NULL.
///
/// # Errors
/// `NotUtf8` where a side is a blob that is no text and neither is NULL; `Memory`.
pub fn like(
    alloc: Global,
    is_negated: bool,
    text: &Value,
    pattern: &Value,
) -> Result<Value, EvalFault>
    ensures { Evaluates (like_of is_negated text.now pattern.now) result }
{
    if is_null(text) || is_null(pattern) {
        return Ok(Value::Null);
    }
    let is_like = match (text, pattern) {
        (Value::Text(text), Value::Text(pattern)) => is_like(
            alloc,
            text.as_str(),
            pattern.as_str(),
        )?,
        _ => {
            let text = text_of(alloc, text)?;
            let pattern = text_of(alloc, pattern)?;
            is_like(alloc, text.as_str(), pattern.as_str())?
        }
    };
    Ok(truth_value(Some(is_like != is_negated)))
}

/// CAST to INTEGER, TEXT or BLOB.
///
/// # Errors
/// `NotUtf8` where a blob that is no text is cast to INTEGER or TEXT; `Memory`.
pub fn cast_value(alloc: Global, to: CastTo, value: &Value) -> Result<Value, EvalFault>
    ensures { Evaluates (cast_of to value.now) result }
{
    match cast(alloc, value, to) {
        Ok(value) => Ok(value),
        Err(CastError::NotUtf8) => Err(EvalFault::NotUtf8),
        Err(CastError::Memory) => Err(EvalFault::Memory),
    }
}
