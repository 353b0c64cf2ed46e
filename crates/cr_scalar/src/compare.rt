//! Comparisons.

ghost use Rattle.std.specs.Prelude.{◌≡◌, IfOk};
ghost use Rattle.cr_value.specs.Affinity.{applied};
ghost use Rattle.cr_scalar.specs.Compare.{value_cmp_by, meets, passes, takes_null, compared};
ghost use Rattle.cr_scalar.specs.Host.{orders};
ghost use Rattle.cr_host.specs.Registry.{found_order};
ghost use Rattle.cr_scalar.specs.Numbers.{is_null};

use crate::operand::Operand;
use cr_host::function::FoundCollation;
use cr_host::functions::Functions;
use cr_term::operator::{Adjusted, Comparison, Meeting};
use cr_value::affinity::{Affinity, int_of_text};
use cr_value::collation::Collation;
use cr_value::order::cmp_binary;
use cr_value::text::Text;
use cr_value::value::Value;
use std::alloc::{AllocError, Global};
use std::cmp::Ordering;

/// The collation of a name, to be held while values are compared under it: BINARY where there is none of that name.
pub fn collation_named<F: Functions>(functions: &F, name: &Text) -> FoundCollation
    ensures { found_order (F.order_at functions.now) result ≡ orders (F.order_of functions.now) name.now }
{
    match functions.find_collation(name.as_str()) {
        Some(found) => found,
        None => FoundCollation::BuiltIn(Collation::Binary),
    }
}

/// The order of two values: NULL, then integers by number, then texts under a collation, then blobs byte by byte.
pub fn compare_values<F: Functions>(
    functions: &F,
    collation: FoundCollation,
    a: &Value,
    b: &Value,
) -> Ordering
    requires { F.is_faithful functions.now }
    ensures { result ≡ value_cmp_by (found_order (F.order_at functions.now) collation) a.now b.now }
{
    match (a, b) {
        (Value::Text(s), Value::Text(t)) => functions.compare(collation, s.as_str(), t.as_str()),
        _ => cmp_binary(a, b),
    }
}

// The value as an operand takes on an affinity, where it stands if that changes nothing.
fn adjust<'v>(
    alloc: Global,
    affinity: Affinity,
    value: &'v Value,
) -> Result<Operand<'v>, AllocError>
    ensures { IfOk result (λ v. v ≡ applied affinity value.now) }
{
    match (affinity, value) {
        (Affinity::Text, Value::Int(n)) => {
            let text = n.to_string(alloc)?;
            Ok(Operand::made(Value::Text(Text::new(text))))
        }
        (Affinity::Integer | Affinity::Numeric, Value::Text(text)) => {
            match int_of_text(text.as_str()) {
                Some(n) => Ok(Operand::made(Value::Int(n))),
                None => Ok(Operand::standing(value)),
            }
        }
        _ => Ok(Operand::standing(value)),
    }
}

// The order of two operands that meet: one takes on an affinity first.
fn meet<F: Functions>(
    alloc: Global,
    functions: &F,
    meeting: &Meeting,
    left: &Value,
    right: &Value,
) -> Result<Ordering, AllocError>
    requires { F.is_faithful functions.now }
    ensures { IfOk result (λ o. o ≡ meets (orders (F.order_of functions.now)) meeting.now left.now right.now) }
{
    let collation = collation_named(functions, &meeting.collation);
    match meeting.adjusted {
        Adjusted::Neither => Ok(compare_values(functions, collation, left, right)),
        Adjusted::Left(affinity) => {
            let left = adjust(alloc, affinity, left)?;
            Ok(compare_values(functions, collation, left.get(), right))
        }
        Adjusted::Right(affinity) => {
            let right = adjust(alloc, affinity, right)?;
            Ok(compare_values(functions, collation, left, right.get()))
        }
    }
}

fn passes(op: Comparison, order: Ordering) -> bool
    ensures { result ≡ passes op order }
{
    match op {
        Comparison::Less => order.is_lt(),
        Comparison::AtMost => order.is_le(),
        Comparison::Greater => order.is_gt(),
        Comparison::AtLeast => order.is_ge(),
        Comparison::Equal | Comparison::Is => order.is_eq(),
        Comparison::Unequal | Comparison::IsNot => order.is_ne(),
    }
}

/// Whether a value is NULL.
pub fn is_null(value: &Value) -> bool
    ensures { result ≡ is_null value.now }
{
    matches!(value, Value::Null)
}

fn takes_null(op: Comparison) -> bool
    ensures { result ≡ takes_null op }
{
    matches!(op, Comparison::Is | Comparison::IsNot)
}

/// Whether a comparison of two operands holds; none where that is not known, beside a NULL but for IS and IS NOT. Memory
/// is taken only where an integer takes on TEXT affinity.
pub fn compare<F: Functions>(
    alloc: Global,
    functions: &F,
    op: Comparison,
    meeting: &Meeting,
    left: &Value,
    right: &Value,
) -> Result<Option<bool>, AllocError>
    requires { F.is_faithful functions.now }
    ensures { IfOk result (λ t. t ≡ compared (orders (F.order_of functions.now)) op meeting.now left.now right.now) }
{
    if !takes_null(op) && (is_null(left) || is_null(right)) {
        return Ok(None);
    }
    let order = meet(alloc, functions, meeting, left, right)?;
    Ok(Some(passes(op, order)))
}
