//! A scalar function, an aggregate and a collation that a host may register.

ghost use Rattle.std.specs.Prelude.{◌≡◌, ◌≢◌, [], ◌∷◌, IfOk, Ok};
ghost use Rattle.cr_value.specs.declared.value.Value.TheVariants.{Null};
ghost use Rattle.cr_host.specs.Meets.{Meets, Says};
ghost use Rattle.cr_host.specs.Samples.{half, xorall_step, xorall_finish, bylen};

use crate::fault::FnFault;
use cr_value::text::Text;
use cr_value::value::Value;
use std::alloc::{AllocError, Global};
use std::cmp::Ordering;

/// The fault of that text, or want of memory for it.
pub fn fault(alloc: Global, text: &str) -> FnFault
    ensures { Says text.now result }
{
    match Text::from_str(alloc, text) {
        Ok(text) => FnFault::Host(text),
        Err(AllocError) => FnFault::Memory,
    }
}

/// `half(x)`: NULL for NULL, half of an even integer, else the fault 'odd'. Only the fault takes memory.
pub fn half(alloc: Global, args: &[Value]) -> Result<Value, FnFault>
    ensures value { Meets (half args.now) result }
    ensures free { IfOk (half args.now) (λ v. result ≡ Ok v) }
{
    match args {
        [Value::Null] => Ok(Value::Null),
        [Value::Int(n)] => {
            if *n % 2 == 0 {
                Ok(Value::Int(*n / 2))
            } else {
                Err(fault(alloc, "odd"))
            }
        }
        _ => Err(fault(alloc, "odd")),
    }
}

/// A step of `xorall(x)`: exclusive or of integers, NULLs passed over, else the fault 'not an integer'. Only a NULL, where
/// what is held is copied, and the fault take memory.
pub fn xorall_step(alloc: Global, held: &Value, row: &[Value]) -> Result<Value, FnFault>
    ensures value { Meets (xorall_step held.now row.now) result }
    ensures free { row.now ≢ Null ∷ [] → IfOk (xorall_step held.now row.now) (λ v. result ≡ Ok v) }
{
    match row {
        [Value::Null] => copied(alloc, held),
        [Value::Int(n)] => match held {
            Value::Null => Ok(Value::Int(*n)),
            Value::Int(m) => Ok(Value::Int(*m ^ *n)),
            _ => Err(fault(alloc, "not an integer")),
        },
        _ => Err(fault(alloc, "not an integer")),
    }
}

/// The end of `xorall(x)`: what is held, which is NULL of no integers.
pub fn xorall_finish(alloc: Global, held: &Value) -> Result<Value, FnFault>
    ensures { Meets (xorall_finish held.now) result }
{
    copied(alloc, held)
}

fn copied(alloc: Global, value: &Value) -> Result<Value, FnFault>
    ensures { Meets (xorall_finish value.now) result }
{
    match value.copy(alloc) {
        Ok(copy) => Ok(copy),
        Err(AllocError) => Err(FnFault::Memory),
    }
}

/// `bylen`: how the number of bytes of the first text stands to that of the second.
pub fn bylen(a: &str, b: &str) -> Ordering
    ensures { result ≡ bylen a.now b.now }
{
    a.len().cmp(&b.len())
}
