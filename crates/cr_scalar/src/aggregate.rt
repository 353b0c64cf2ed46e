//! Aggregates over the argument rows of a group.

ghost use Rattle.std.specs.Prelude.{◌≡◌, ◌+ℤ◌, ◌≤◌, FitsSigned, length, true, false, Err, Ok, IfOk, MatchOption};
ghost use Rattle.std.specs.Int.{w128};
ghost use Rattle.cr_host.specs.Registry.{found_order};
ghost use Rattle.cr_term.specs.declared.operator.Aggregate.TheVariants as kind;
ghost use Rattle.cr_scalar.specs.Meaning.{Evaluates};
ghost use Rattle.cr_scalar.specs.Numbers.{is_null};
ghost use Rattle.cr_scalar.specs.Host.{orders, aggregate_at};
ghost use Rattle.cr_scalar.specs.Functions.{first, extreme};
ghost use Rattle.cr_scalar.specs.Aggregates.{aggregate_of, in_order, values, number_in, total, sum_of, ranks_before};

use crate::compare::{collation_named, compare_values, is_null};
use crate::fault::EvalFault;
use crate::number::number_of;
use cr_host::fault::FnFault;
use cr_host::function::FoundCollation;
use cr_host::functions::Functions;
use cr_lattice::table::{Items, Row};
use cr_term::operator::Aggregate;
use cr_value::order::cmp_binary;
use cr_value::text::Text;
use cr_value::value::Value;
use std::alloc::{AllocError, Global};

// The first value of a row, if it is not NULL.
fn present(row: &Row) -> Option<&Value>
    ensures { MatchOption result (is_null (first row.now) ≡ true) (λ v. (v.now ≡ first row.now) × (is_null (first row.now) ≡ false)) }
{
    match row.as_slice().first() {
        Some(value) if !is_null(value) => Some(value),
        _ => None,
    }
}

// How many rows have a first value that is not NULL.
fn count_present(rows: &[Row]) -> usize
    ensures value { result ≡ length (values rows.now) }
    ensures most { result ≤ length rows.now }
{
    let mut count = 0;
    for row in rows {
        if present(row).is_some() {
            count += 1;
        }
    }
    count
}

// The number of a row's first value, 0 of NULL.
fn number_in(row: &Row) -> Result<i64, EvalFault>
    ensures { result ≡ number_in row.now }
{
    match row.as_slice().first() {
        Some(value) => match number_of(value) {
            Ok(number) => Ok(number.unwrap_or(0)),
            Err(fault) => Err(fault),
        },
        None => Ok(0),
    }
}

// A sum with one more number.
fn plus(sum: i128, number: i64) -> i128
    requires { FitsSigned w128 (sum +ℤ number) }
    ensures { result ≡ sum +ℤ number }
{
    sum + i128::from(number)
}

// The exact sum of the numbers of the first values that are not NULL.
#[tactic(auto, using(crate::proofs::Folds::total_step, crate::proofs::Folds::total_fault))]
fn total(rows: &[Row]) -> Result<i128, EvalFault>
    ensures { result ≡ total (values rows.now) }
{
    let mut total: i128 = 0;
    for row in rows {
        match number_in(row) {
            Ok(number) => total = plus(total, number),
            Err(fault) => return Err(fault),
        }
    }
    Ok(total)
}

// `sum`: NULL of no values.
fn sum(rows: &[Row]) -> Result<Value, EvalFault>
    ensures { result ≡ sum_of (values rows.now) }
{
    if count_present(rows) == 0 {
        return Ok(Value::Null);
    }
    match total(rows) {
        Ok(total) => match i64::try_from(total) {
            Ok(sum) => Ok(Value::Int(sum)),
            Err(_) => Err(EvalFault::Overflow),
        },
        Err(fault) => Err(fault),
    }
}

// Whether the first value is greater than the second, where the greatest is wanted, or less; where the collation leaves
// them tied, whether it is the lesser by bytes.
fn ranks_before<F: Functions>(
    functions: &F,
    collation: FoundCollation,
    is_greatest: bool,
    a: &Value,
    b: &Value,
) -> bool
    requires { F.is_faithful functions.now }
    ensures { result ≡ ranks_before (found_order (F.order_at functions.now) collation) is_greatest a.now b.now }
{
    let order = if is_greatest {
        compare_values(functions, collation, b, a)
    } else {
        compare_values(functions, collation, a, b)
    };
    order.then(cmp_binary(a, b)).is_lt()
}

// `min` and `max`: NULL of no values.
fn extreme<F: Functions>(
    alloc: Global,
    functions: &F,
    collation: &Text,
    is_greatest: bool,
    rows: &[Row],
) -> Result<Value, AllocError>
    requires { F.is_faithful functions.now }
    ensures { IfOk result (λ v. v ≡ extreme (ranks_before (orders (F.order_of functions.now) collation.now) is_greatest) (values rows.now)) }
{
    let found = collation_named(functions, collation);
    let mut best: Option<&Value> = None;
    for row in rows {
        if let Some(value) = present(row) {
            match best {
                Some(so_far) if !ranks_before(functions, found, is_greatest, value, so_far) => {}
                _ => best = Some(value),
            }
        }
    }
    match best {
        Some(value) => value.copy(alloc),
        None => Ok(Value::Null),
    }
}

// The rows in ascending order.
fn in_order(mut rows: Vec<Row>) -> Result<Vec<Row>, AllocError>
    ensures { IfOk result (λ sorted. sorted.items ≡ in_order rows.items) }
{
    rows.sort()?;
    Ok(rows)
}

// A host's aggregate, which sees the rows in ascending order; NULL where there is none of that name for so many.
fn fold<F: Functions>(
    functions: &F,
    name: &Text,
    count: usize,
    rows: Vec<Row>,
) -> Result<Value, EvalFault>
    requires { F.is_faithful functions.now }
    ensures { Evaluates (aggregate_of (orders (F.order_of functions.now)) (λ name rows. aggregate_at (F.step functions.now) (F.finish functions.now) (F.function_of functions.now name count) rows) (kind.Host name.now) rows.items) result }
{
    let rows = in_order(rows)?;
    match functions.fold(name.as_str(), count, &rows) {
        None => Ok(Value::Null),
        Some(Ok(value)) => Ok(value),
        Some(Err(FnFault::Host(text))) => Err(EvalFault::Host(text)),
        Some(Err(FnFault::Memory)) => Err(EvalFault::Memory),
    }
}

/// What an aggregate gives of its argument rows, each of `count` values.
///
/// # Errors
/// `NotANumber` and `Overflow` of `sum`; `Host` with what a host's aggregate said; `Memory`.
pub fn aggregate<F: Functions>(
    alloc: Global,
    functions: &F,
    kind: &Aggregate,
    count: usize,
    rows: Items<Row>,
) -> Result<Value, EvalFault>
    requires { F.is_faithful functions.now }
    ensures { Evaluates (aggregate_of (orders (F.order_of functions.now)) (λ name rows. aggregate_at (F.step functions.now) (F.finish functions.now) (F.function_of functions.now name count) rows) kind.now rows) result }
{
    match kind {
        Aggregate::CountAll => Ok(Value::Int(rows.as_slice().len() as i64)),
        Aggregate::Count => Ok(Value::Int(count_present(rows.as_slice()) as i64)),
        Aggregate::Max(collation) => Ok(extreme(
            alloc,
            functions,
            collation,
            true,
            rows.as_slice(),
        )?),
        Aggregate::Min(collation) => Ok(extreme(
            alloc,
            functions,
            collation,
            false,
            rows.as_slice(),
        )?),
        Aggregate::Sum => sum(rows.as_slice()),
        Aggregate::Host(name) => fold(functions, name, count, rows.into_vec()),
    }
}
