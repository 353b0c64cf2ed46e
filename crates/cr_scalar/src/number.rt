//! Numbers and truth.

ghost use Rattle.std.specs.Prelude.{◌≡◌};
ghost use Rattle.std.specs.Option.{option_map_or};
ghost use Rattle.cr_value.specs.declared.value.Value.TheVariants.{Int};
ghost use Rattle.cr_scalar.specs.declared.fault.EvalFault.TheVariants.{Overflow};
ghost use Rattle.cr_scalar.specs.Meaning.{and_then};
ghost use Rattle.cr_scalar.specs.Numbers.{number_of, truth, is_true, truth_value, decides, joins, calculated, arithmetic_of, unary_of, magnitude_of, negated};

use crate::fault::EvalFault;
use crate::operand::Operand;
use cr_term::operator::{Arithmetic, Logic, Unary};
use cr_value::affinity::int_of_text;
use cr_value::value::Value;

/// The number of a value: of an integer itself, of a text the integer that the whole text is, none of NULL.
///
/// # Errors
/// `NotANumber` for any other text and for a blob.
pub fn number_of(value: &Value) -> Result<Option<i64>, EvalFault>
    ensures { result ≡ number_of value.now }
{
    match value {
        Value::Null => Ok(None),
        Value::Int(n) => Ok(Some(*n)),
        Value::Text(text) => match int_of_text(text.as_str()) {
            Some(n) => Ok(Some(n)),
            None => Err(EvalFault::NotANumber),
        },
        Value::Blob(_) => Err(EvalFault::NotANumber),
    }
}

/// Whether a value is true: a number other than 0 is; none where that is not known, of NULL.
///
/// # Errors
/// `NotANumber` for a text that is no number and for a blob.
pub fn truth(value: &Value) -> Result<Option<bool>, EvalFault>
    ensures { result ≡ truth value.now }
{
    match number_of(value) {
        Ok(Some(n)) => Ok(Some(n != 0)),
        Ok(None) => Ok(None),
        Err(fault) => Err(fault),
    }
}

/// 1 for true, 0 for false, and NULL where it is not known.
pub fn truth_value(truth: Option<bool>) -> Value
    ensures { result ≡ truth_value truth }
{
    match truth {
        Some(true) => Value::Int(1),
        Some(false) => Value::Int(0),
        None => Value::Null,
    }
}

/// Whether the left side alone decides: false before AND, true before OR.
pub fn decides(op: Logic, left: Option<bool>) -> bool
    ensures { result ≡ decides op left }
{
    match op {
        Logic::And => left == Some(false),
        Logic::Or => left == Some(true),
    }
}

/// Whether something is known to be true.
pub fn is_true(truth: Option<bool>) -> bool
    ensures { result ≡ is_true truth }
{
    matches!(truth, Some(true))
}

/// AND and OR of three truth values: true, false and not known.
pub fn join_truth(op: Logic, left: Option<bool>, right: Option<bool>) -> Option<bool>
    ensures { result ≡ joins op left right }
{
    match (op, left, right) {
        (Logic::And, Some(false), _) | (Logic::And, _, Some(false)) => Some(false),
        (Logic::And, Some(true), Some(true)) => Some(true),
        (Logic::Or, Some(true), _) | (Logic::Or, _, Some(true)) => Some(true),
        (Logic::Or, Some(false), Some(false)) => Some(false),
        _ => None,
    }
}

// A number that did not leave 64 bits, if it did not.
fn of_checked(number: Option<i64>) -> Result<Value, EvalFault>
    ensures { result ≡ option_map_or (λ n. Ok (Int n)) number (Err Overflow) }
{
    match number {
        Some(n) => Ok(Value::Int(n)),
        None => Err(EvalFault::Overflow),
    }
}

#[tactic(auto, using(crate::proofs::Checked::in_range_sum, crate::proofs::Checked::quotient, crate::proofs::Checked::remainder))]
fn calculate_numbers(op: Arithmetic, left: i64, right: i64) -> Result<Value, EvalFault>
    ensures { result ≡ calculated op left right }
{
    match op {
        Arithmetic::Add => of_checked(left.checked_add(right)),
        Arithmetic::Subtract => of_checked(left.checked_sub(right)),
        Arithmetic::Multiply => of_checked(left.checked_mul(right)),
        Arithmetic::Divide if right == 0 => Ok(Value::Null),
        Arithmetic::Divide => of_checked(left.checked_div(right)),
        Arithmetic::Remainder if right == 0 => Ok(Value::Null),
        Arithmetic::Remainder => Ok(Value::Int(left.wrapping_rem(right))),
    }
}

/// The sum, difference, product, quotient or remainder of two numbers, NULL beside a NULL and where the divisor is 0; a
/// quotient is cut off toward zero.
///
/// # Errors
/// `NotANumber` where a side is a text that is no number or a blob, also beside a NULL; `Overflow` where the result
/// leaves 64 bits.
pub fn calculate(op: Arithmetic, left: &Value, right: &Value) -> Result<Value, EvalFault>
    ensures { result ≡ arithmetic_of op left.now right.now }
{
    match (number_of(left)?, number_of(right)?) {
        (Some(left), Some(right)) => calculate_numbers(op, left, right),
        _ => Ok(Value::Null),
    }
}

/// The absolute value of a number, NULL of NULL.
///
/// # Errors
/// `NotANumber` for a text that is no number and for a blob; `Overflow` where it leaves 64 bits.
#[tactic(auto, using(crate::proofs::Checked::in_range_magnitude))]
pub fn magnitude(value: &Value) -> Result<Value, EvalFault>
    ensures { result ≡ magnitude_of value.now }
{
    match number_of(value)? {
        Some(n) => of_checked(n.checked_abs()),
        None => Ok(Value::Null),
    }
}

#[tactic(auto, using(crate::proofs::Checked::in_range_sum))]
fn negate(value: &Value) -> Result<Value, EvalFault>
    ensures { result ≡ and_then (number_of value.now) negated }
{
    match number_of(value)? {
        Some(n) => of_checked(n.checked_neg()),
        None => Ok(Value::Null),
    }
}

/// NOT, a sign, or a test for NULL before or behind an operand; `+` gives its operand as it is.
///
/// # Errors
/// `NotANumber` where NOT or `-` stands before a text that is no number or a blob; `Overflow` where `-` leaves 64 bits.
pub fn apply_unary<'a>(op: Unary, operand: Operand<'a>) -> Result<Operand<'a>, EvalFault>
    ensures { result ≡ unary_of op operand.entry }
{
    let is_null = matches!(operand.get(), Value::Null);
    match op {
        Unary::Plus => Ok(operand),
        Unary::Minus => negate(operand.get()).map(|value| Operand::made(value)),
        Unary::Not => {
            let truth = truth(operand.get());
            truth.map(|truth| Operand::made(truth_value(truth.map(|t| !t))))
        }
        Unary::IsNull => Ok(Operand::made(truth_value(Some(is_null)))),
        Unary::NotNull => Ok(Operand::made(truth_value(Some(!is_null)))),
    }
}
