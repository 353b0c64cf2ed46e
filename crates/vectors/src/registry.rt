//! Calls of a host's registry. It has `f` for any count of arguments, number 7, and for one, number 8; `half` for one; the
//! aggregate `xorall` of one; and the collation `bylen`.
//!
//! | Call | Given |
//! |---|---|
//! | `function` | a name, and a count of arguments |
//! | `removed` | the same: whether one was there to be removed, and twice, and what is found then |
//! | `adds_scalar`, `adds_aggregate` | the same |
//! | `adds_collation` | a name |
//! | `calls` | a name, and values |
//! | `folds` | the name of an aggregate of one, and rows |
//! | `steps`, `finishes` | the same, with a row of what is held and what comes next; with a row of what is held |
//! | `compares` | the name of a collation, and a row of two texts |
//! | `built_in` | a name, and a count of arguments, without a registry |

use crate::values::order_word;
use cr_host::built_in::{is_built_in_aggregate, is_built_in_function, is_built_in_scalar};
use cr_host::fault::{AddFault, FnFault};
use cr_host::function::{Definition, FinishFn, OrderFn, ScalarFn, StepFn};
use cr_host::functions::Functions;
use cr_host::meaning::HostMeaning;
use cr_host::registry::Registry;
use cr_host::samples::{bylen, half, xorall_finish, xorall_step};
use cr_told::error::ToldError;
use cr_told::reading::{rows_of, values};
use cr_value::literal::literal_text;
use cr_value::value::Value;
use std::alloc::{AllocError, Global};

struct Demo;

impl HostMeaning for Demo {
    ghost use Rattle.std.specs.Prelude.{length, false};
    ghost use Rattle.std.specs.Cmp.{on_total, nat_cmp_total};
    ghost use Rattle.cr_host.specs.Samples.{half, xorall_step, xorall_finish, bylen};
    ghost use Rattle.cr_host.specs.declared.meaning.Auth.TheVariants.{Ok as Allowed};

    ghost scalar = { λ _. half };

    ghost step = { λ _. xorall_step };

    ghost finish = { λ _. xorall_finish };

    ghost order = { λ _. bylen };

    ghost order_total = { λ _. on_total length nat_cmp_total };

    ghost allows = { λ n action a b. Allowed };

    ghost vetoes = { λ n changes. false };
}

// ---- what is added

// Whether an entry was added; false where its name or count was refused.
fn was_added(added: Result<(), AddFault>) -> Result<bool, AllocError> {
    match added {
        Ok(()) => Ok(true),
        Err(AddFault::BadName) => Ok(false),
        Err(AddFault::Memory) => Err(AllocError),
    }
}

// ---- what is told

fn told_function(
    alloc: Global,
    registry: &Registry<Demo>,
    name: &str,
    count: usize,
) -> Result<String, AllocError> {
    match registry.definition(name, count) {
        Some(Definition::Scalar(number)) => format!(in alloc; "scalar {number}"),
        Some(Definition::Aggregate(number)) => format!(in alloc; "aggregate {number}"),
        None if registry.has_function(name) => String::from_str(alloc, "none for so many"),
        None => String::from_str(alloc, "none"),
    }
}

fn told_answer(alloc: Global, answer: Option<Result<Value, FnFault>>) -> Result<String, ToldError> {
    match answer {
        Some(Ok(value)) => Ok(literal_text(alloc, &value)?),
        Some(Err(FnFault::Host(text))) => Ok(format!(in alloc; "fault {}", text.as_str())?),
        Some(Err(FnFault::Memory)) => Err(ToldError::Memory),
        None => Ok(String::from_str(alloc, "none")?),
    }
}

fn told_built_in(name: &str, count: usize) -> &'static str {
    if is_built_in_scalar(name, count) {
        "scalar"
    } else if is_built_in_aggregate(name, count) {
        "aggregate"
    } else if is_built_in_function(name) {
        "none for so many"
    } else {
        "none"
    }
}

fn told_order<F: Functions>(
    functions: &F,
    name: &str,
    texts: &[Value],
) -> Result<&'static str, ToldError>
    requires { F.is_faithful functions.now }
{
    let [Value::Text(a), Value::Text(b)] = texts else {
        return Err(ToldError::Form);
    };
    let Some(found) = functions.find_collation(name) else {
        return Ok("none");
    };
    Ok(order_word(functions.compare(found, a.as_str(), b.as_str())))
}

// ---- calls

// A name, and the number that stands behind it.
fn name_and_count(given: &str) -> Result<(&str, usize), ToldError> {
    let (name, count) = given.rsplit_once(' ').ok_or(ToldError::Form)?;
    let count = count.parse().map_err(|_| ToldError::Form)?;
    Ok((name, count))
}

// A name, and what stands behind the first blank.
fn name_and_rest(given: &str) -> (&str, &str) {
    given.split_once(' ').unwrap_or((given, ""))
}

fn removed(alloc: Global, registry: &mut Registry<Demo>, given: &str) -> Result<String, ToldError>
    requires { ⟦<Registry<Demo> as Functions>⟧.is_faithful registry.old }
{
    let (name, count) = name_and_count(given)?;
    let arity = i32::try_from(count).map_err(|_| ToldError::Form)?;
    let first = registry.remove(name, arity);
    let second = registry.remove(name, arity);
    let left = told_function(alloc, registry, name, count)?;
    Ok(format!(in alloc; "{first}, {second}, {left}")?)
}

// Whether a new registry takes an entry of a name, and a count where there is one.
fn is_added(alloc: Global, call: &str, given: &str) -> Result<bool, ToldError> {
    let mut registry: Registry<Demo> = Registry::new(alloc);
    if call == "adds_collation" {
        let order: OrderFn = Box::new(alloc, |a: &str, b: &str| bylen(a, b))?;
        return Ok(was_added(registry.add_collation(given, 2, order))?);
    }
    let (name, arity) = given.rsplit_once(' ').ok_or(ToldError::Form)?;
    let arity = arity.parse().map_err(|_| ToldError::Form)?;
    if call == "adds_scalar" {
        let scalar: ScalarFn = Box::new(alloc, move |args: &[Value]| half(alloc, args))?;
        return Ok(was_added(registry.add_scalar(name, arity, 9, scalar))?);
    }
    let step: StepFn = Box::new(
        alloc,
        move |held: &Value, row: &[Value]| xorall_step(alloc, held, row),
    )?;
    let finish: FinishFn = Box::new(alloc, move |held: &Value| xorall_finish(alloc, held))?;
    Ok(was_added(registry.add_aggregate(name, arity, 1, step, finish))?)
}

fn answered(
    alloc: Global,
    registry: &Registry<Demo>,
    call: &str,
    given: &str,
) -> Result<String, ToldError>
    requires { ⟦<Registry<Demo> as Functions>⟧.is_faithful registry.now }
{
    let (name, rest) = name_and_rest(given);
    let rows = rows_of(alloc, rest)?;
    let first = rows.first().map(|row| row.as_slice()).unwrap_or(&[]);
    match (call, first) {
        ("calls", values) => told_answer(alloc, registry.call(name, values)),
        ("folds", _) => told_answer(alloc, registry.fold(name, 1, &rows)),
        ("steps", [held, row @ ..]) => told_answer(alloc, registry.step(name, 1, held, row)),
        ("finishes", [held]) => told_answer(alloc, registry.finish(name, 1, held)),
        ("compares", texts) => Ok(String::from_str(alloc, told_order(registry, name, texts)?)?),
        _ => Err(ToldError::Form),
    }
}

// What a call of the registry answers that has these entries.
fn told(
    alloc: Global,
    registry: &mut Registry<Demo>,
    call: &str,
    given: &str,
) -> Result<String, ToldError>
    requires { ⟦<Registry<Demo> as Functions>⟧.is_faithful registry.old }
{
    match call {
        "function" => {
            let (name, count) = name_and_count(given)?;
            Ok(told_function(alloc, registry, name, count)?)
        }
        "removed" => removed(alloc, registry, given),
        _ => answered(alloc, registry, call, given),
    }
}

fn told_of_demo(alloc: Global, call: &str, given: &str) -> Result<String, ToldError> {
    let mut registry: Registry<Demo> = Registry::new(alloc);
    let any: ScalarFn = Box::new(alloc, move |args: &[Value]| half(alloc, args))?;
    was_added(registry.add_scalar("f", -1, 7, any))?;
    let one: ScalarFn = Box::new(alloc, move |args: &[Value]| half(alloc, args))?;
    was_added(registry.add_scalar("f", 1, 8, one))?;
    let scalar: ScalarFn = Box::new(alloc, move |args: &[Value]| half(alloc, args))?;
    was_added(registry.add_scalar("half", 1, 0, scalar))?;
    let step: StepFn = Box::new(
        alloc,
        move |held: &Value, row: &[Value]| xorall_step(alloc, held, row),
    )?;
    let finish: FinishFn = Box::new(alloc, move |held: &Value| xorall_finish(alloc, held))?;
    was_added(registry.add_aggregate("xorall", 1, 1, step, finish))?;
    let order: OrderFn = Box::new(alloc, |a: &str, b: &str| bylen(a, b))?;
    was_added(registry.add_collation("bylen", 2, order))?;
    told(alloc, &mut registry, call, given)
}

/// What a call answers; `None` where it isn't one of these.
pub(crate) fn answer(alloc: Global, call: &str, given: &str) -> Result<Option<String>, ToldError> {
    Ok(Some(match call {
        "adds_scalar" | "adds_aggregate" | "adds_collation" => {
            format!(in alloc; "{}", is_added(alloc, call, given)?)?
        }
        "built_in" => {
            let (name, count) = name_and_count(given)?;
            String::from_str(alloc, told_built_in(name, count))?
        }
        "function" | "removed" | "calls" | "folds" | "steps" | "finishes" | "compares" => {
            told_of_demo(alloc, call, given)?
        }
        _ => return Ok(None),
    }))
}
