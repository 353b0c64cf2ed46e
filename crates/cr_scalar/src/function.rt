//! The scalar functions of the engine itself, and a host's.

ghost use Rattle.std.specs.Prelude.{◌≡◌, ◌≤◌, ◌==◌, length, chars, get_or, IfOk};
ghost use Rattle.std.specs.List.{before_first, best_of, list_any};
ghost use Rattle.std.specs.Str.{str_to_ascii_lowercase, str_to_ascii_uppercase};
ghost use Rattle.hex.specs.Hex.{encode_upper};
ghost use Rattle.cr_host.specs.Registry.{found_order};
ghost use Rattle.cr_value.specs.declared.value.Value.TheVariants as variant;
ghost use Rattle.cr_scalar.specs.Meaning.{Evaluates, of_host};
ghost use Rattle.cr_scalar.specs.Host.{orders, scalar_at};
ghost use Rattle.cr_scalar.specs.Numbers.{is_null};
ghost use Rattle.cr_scalar.specs.Functions.{built_in, bytes_of, length_of, type_of, on_text, goes_before, extreme_or_null, nulled_if_equal, takes_first};

use crate::compare::{collation_named, compare_values, is_null};
use crate::fault::EvalFault;
use crate::number::magnitude;
use crate::operand::Operand;
use crate::text::text_of;
use cr_host::fault::FnFault;
use cr_host::function::FoundCollation;
use cr_host::functions::Functions;
use cr_term::operator::BuiltIn;
use cr_value::text::Text;
use cr_value::value::Value;
use std::alloc::{AllocError, Global};

// The argument at a place, or what stands for one that is missing.
fn argument<'v>(args: &'v [Operand<'_>], at: usize, missing: &'v Value) -> &'v Value
    ensures { result.now ≡ get_or args.now at missing.now }
{
    match args.get(at) {
        Some(arg) => arg.get(),
        None => missing,
    }
}

// The upper case digits of bytes.
fn digits(alloc: Global, bytes: &[u8]) -> Result<Value, AllocError>
    ensures { IfOk result (λ v. v ≡ variant.Text (encode_upper bytes.now)) }
{
    Ok(Value::Text(Text::new(hex::encode_upper(alloc, bytes)?)))
}

// `hex`: the digits of a blob's bytes, of a text's and of an integer's decimal text.
fn hex_of(alloc: Global, value: &Value) -> Result<Value, AllocError>
    ensures { IfOk result (λ v. v ≡ variant.Text (encode_upper (bytes_of value.now))) }
{
    match value {
        Value::Null => digits(alloc, &[]),
        Value::Int(n) => digits(alloc, n.to_string(alloc)?.as_bytes()),
        Value::Text(text) => digits(alloc, text.as_str().as_bytes()),
        Value::Blob(blob) => digits(alloc, blob.as_slice()),
    }
}

// How many characters a text has before its first U+0000.
fn characters(text: &str) -> usize
    ensures value { result ≡ length (before_first (λ c. c == 0) (chars text.now)) }
    ensures most { result ≤ length text.now }
{
    text.chars().take_while(|c| *c != '\0').count()
}

// `length`: characters of a text, digits and sign of an integer, bytes of a blob.
fn length_of(alloc: Global, value: &Value) -> Result<Value, AllocError>
    ensures { IfOk result (λ v. v ≡ length_of value.now) }
{
    match value {
        Value::Null => Ok(Value::Null),
        Value::Int(n) => {
            let digits = n.to_string(alloc)?;
            Ok(Value::Int(digits.as_str().len() as i64))
        }
        Value::Text(text) => {
            let text = text.as_str();
            Ok(Value::Int(characters(text) as i64))
        }
        Value::Blob(blob) => Ok(Value::Int(blob.as_slice().len() as i64)),
    }
}

// `typeof`
fn type_of(alloc: Global, value: &Value) -> Result<Value, AllocError>
    ensures { IfOk result (λ v. v ≡ type_of value.now) }
{
    let name = match value {
        Value::Null => "null",
        Value::Int(_) => "integer",
        Value::Text(_) => "text",
        Value::Blob(_) => "blob",
    };
    Ok(Value::Text(Text::from_str(alloc, name)?))
}

// `lower`
fn lower(alloc: Global, value: &Value) -> Result<Value, EvalFault>
    ensures { Evaluates (on_text str_to_ascii_lowercase value.now) result }
{
    if is_null(value) {
        return Ok(Value::Null);
    }
    let text = text_of(alloc, value)?;
    let lower = text.as_str().to_ascii_lowercase(alloc)?;
    Ok(Value::Text(Text::new(lower)))
}

// `upper`
fn upper(alloc: Global, value: &Value) -> Result<Value, EvalFault>
    ensures { Evaluates (on_text str_to_ascii_uppercase value.now) result }
{
    if is_null(value) {
        return Ok(Value::Null);
    }
    let text = text_of(alloc, value)?;
    let upper = text.as_str().to_ascii_uppercase(alloc)?;
    Ok(Value::Text(Text::new(upper)))
}

// Whether the first value is greater than the second, where the greatest is wanted, or less.
fn goes_before<F: Functions>(
    functions: &F,
    collation: FoundCollation,
    is_greatest: bool,
    a: &Value,
    b: &Value,
) -> bool
    requires { F.is_faithful functions.now }
    ensures { result ≡ goes_before (found_order (F.order_at functions.now) collation) is_greatest a.now b.now }
{
    let order = compare_values(functions, collation, a, b);
    if is_greatest {
        order.is_gt()
    } else {
        order.is_lt()
    }
}

// The first of the values before which no other goes.
fn best<'v, F: Functions>(
    functions: &F,
    collation: FoundCollation,
    is_greatest: bool,
    first: &'v Value,
    others: &'v [Operand<'_>],
) -> &'v Value
    requires { F.is_faithful functions.now }
    ensures { result.now ≡ best_of (goes_before (found_order (F.order_at functions.now) collation) is_greatest) first.now others.now }
{
    let mut best = first;
    for other in others {
        if goes_before(functions, collation, is_greatest, other.get(), best) {
            best = other.get();
        }
    }
    best
}

fn has_null(args: &[Operand<'_>]) -> bool
    ensures { result ≡ list_any is_null args.now }
{
    args.iter().any(|arg| is_null(arg.get()))
}

// The greatest or the least of several arguments, NULL beside a NULL.
fn extreme<F: Functions>(
    alloc: Global,
    functions: &F,
    collation: &Text,
    is_greatest: bool,
    args: &[Operand<'_>],
) -> Result<Value, AllocError>
    requires { F.is_faithful functions.now }
    ensures { IfOk result (λ v. v ≡ extreme_or_null (goes_before (orders (F.order_of functions.now) collation.now) is_greatest) args.now) }
{
    if has_null(args) {
        return Ok(Value::Null);
    }
    let found = collation_named(functions, collation);
    match args {
        [] => Ok(Value::Null),
        [first, others @ ..] => {
            best(functions, found, is_greatest, first.get(), others).copy(alloc)
        }
    }
}

// `nullif`: NULL where the two are equal, else the first.
fn null_if<F: Functions>(
    alloc: Global,
    functions: &F,
    collation: &Text,
    first: &Value,
    second: &Value,
) -> Result<Value, AllocError>
    requires { F.is_faithful functions.now }
    ensures { IfOk result (λ v. v ≡ nulled_if_equal (orders (F.order_of functions.now) collation.now) first.now second.now) }
{
    let found = collation_named(functions, collation);
    if compare_values(functions, found, first, second).is_eq() {
        return Ok(Value::Null);
    }
    first.copy(alloc)
}

/// Whether a function gives its first argument that is not NULL, and so needs no later ones: coalesce and ifnull.
pub fn takes_first(function: &BuiltIn) -> bool
    ensures { result ≡ takes_first function.now }
{
    matches!(function, BuiltIn::Coalesce | BuiltIn::IfNull)
}

/// What a function of the engine gives of its arguments, all of which have values.
///
/// # Errors
/// `NotANumber` and `Overflow` of `abs`; `NotUtf8` of `lower` and `upper` for a blob that is no text; `Memory`.
pub fn call_built_in<F: Functions>(
    alloc: Global,
    functions: &F,
    function: &BuiltIn,
    args: &[Operand<'_>],
) -> Result<Value, EvalFault>
    requires { F.is_faithful functions.now }
    ensures { Evaluates (built_in (orders (F.order_of functions.now)) function.now args.now) result }
{
    let first = argument(args, 0, &Value::Null);
    match function {
        BuiltIn::Abs => magnitude(first),
        BuiltIn::Coalesce | BuiltIn::IfNull => Ok(Value::Null),
        BuiltIn::Hex => Ok(hex_of(alloc, first)?),
        BuiltIn::Length => Ok(length_of(alloc, first)?),
        BuiltIn::Lower => lower(alloc, first),
        BuiltIn::Max(collation) => Ok(extreme(alloc, functions, collation, true, args)?),
        BuiltIn::Min(collation) => Ok(extreme(alloc, functions, collation, false, args)?),
        BuiltIn::NullIf(collation) => {
            let second = argument(args, 1, &Value::Null);
            Ok(null_if(alloc, functions, collation, first, second)?)
        }
        BuiltIn::TypeOf => Ok(type_of(alloc, first)?),
        BuiltIn::Upper => upper(alloc, first),
    }
}

/// What a host's scalar function gives of its arguments, NULL where there is none of that name for so many.
///
/// # Errors
/// `Host` with what the function said; `Memory`.
pub fn call_host<F: Functions>(
    functions: &F,
    name: &Text,
    args: &[Value],
) -> Result<Value, EvalFault>
    requires { F.is_faithful functions.now }
    ensures { Evaluates (of_host (scalar_at (F.scalar functions.now) (F.function_of functions.now name.now (length args.now)) args.now)) result }
{
    match functions.call(name.as_str(), args) {
        None => Ok(Value::Null),
        Some(Ok(value)) => Ok(value),
        Some(Err(FnFault::Host(text))) => Err(EvalFault::Host(text)),
        Some(Err(FnFault::Memory)) => Err(EvalFault::Memory),
    }
}
