//! Closures beside the number of their definition.

ghost use Rattle.std.specs.Prelude.{◌≡◌, Some, IfSome};
ghost use Rattle.cr_host.specs.Meets.{Meets, AnswersAs, StepsAs, FinishesAs, ComparesAs, CallsAt, FoldsAt, HasMemory};
ghost use Rattle.cr_host.specs.Registry.{AnswersBy, definition};

use crate::fault::FnFault;
use crate::functions::Answering;
use crate::meaning::HostMeaning;
use cr_value::collation::Collation;
use cr_value::value::Value;
use std::cmp::Ordering;
use std::marker::PhantomData;

/// A scalar function: the value of its arguments.
pub type ScalarFn = Box<dyn Fn(&[Value]) -> Result<Value, FnFault>>;

/// A step of an aggregate: what it holds after one more row.
pub type StepFn = Box<dyn Fn(&Value, &[Value]) -> Result<Value, FnFault>>;

/// The end of an aggregate: its value, of what it holds after the last row.
pub type FinishFn = Box<dyn Fn(&Value) -> Result<Value, FnFault>>;

/// A collation: how the first text stands to the second.
pub type OrderFn = Box<dyn Fn(&str, &str) -> Ordering>;

/// A scalar function of a host.
#[derive(Drop)]
pub struct Scalar<H> {
    pub number: u32,
    pub call: ScalarFn,
    pub host: PhantomData<H>,
}

impl<H: HostMeaning> Scalar<H> {
    /// The value of the function: what its closure answers, as its definition says, or want of memory.
    pub fn answer(&self, args: &[Value]) -> Result<Value, FnFault>
        requires { AnswersAs (ScalarFn.pre self.now.call) (ScalarFn.post self.now.call) (H.scalar self.now.number) }
        ensures value { Meets (H.scalar self.now.number args.now) result }
        ensures given { ScalarFn.post self.now.call args.entry result }
    {
        (self.call)(args)
    }
}

/// An aggregate of a host.
#[derive(Drop)]
pub struct Aggregate<H> {
    pub number: u32,
    pub step: StepFn,
    pub finish: FinishFn,
    pub host: PhantomData<H>,
}

impl<H: HostMeaning> Aggregate<H> {
    /// What the aggregate holds after one more row.
    pub fn step(&self, held: &Value, row: &[Value]) -> Result<Value, FnFault>
        requires { StepsAs (StepFn.pre self.now.step) (StepFn.post self.now.step) (H.step self.now.number) }
        ensures value { Meets (H.step self.now.number held.now row.now) result }
        ensures given { StepFn.post self.now.step held.entry row.entry result }
    {
        (self.step)(held, row)
    }

    /// The value of the aggregate, of what it holds after the last row.
    pub fn finish(&self, held: &Value) -> Result<Value, FnFault>
        requires { FinishesAs (FinishFn.pre self.now.finish) (FinishFn.post self.now.finish) (H.finish self.now.number) }
        ensures value { Meets (H.finish self.now.number held.now) result }
        ensures given { FinishFn.post self.now.finish held.entry result }
    {
        (self.finish)(held)
    }
}

/// A collation of a host.
#[derive(Drop)]
pub struct Collating<H> {
    pub number: u32,
    pub compare: OrderFn,
    pub host: PhantomData<H>,
}

impl<H: HostMeaning> Collating<H> {
    /// How the first text stands to the second.
    pub fn compare(&self, a: &str, b: &str) -> Ordering
        requires { ComparesAs (OrderFn.pre self.now.compare) (OrderFn.post self.now.compare) (H.order self.now.number) }
        ensures { result ≡ H.order self.now.number a.now b.now }
    {
        (self.compare)(a, b)
    }
}

/// A function of a host.
#[derive(Drop)]
pub enum Function<H> {
    Scalar(Scalar<H>),
    Aggregate(Aggregate<H>),
}

impl<H: HostMeaning> Function<H> {
    /// Which definition the function has.
    pub fn definition(&self) -> Definition
        ensures { result ≡ definition self.now }
    {
        match self {
            Function::Scalar(scalar) => Definition::Scalar(scalar.number),
            Function::Aggregate(aggregate) => Definition::Aggregate(aggregate.number),
        }
    }

    /// The value of a scalar function; `None` of an aggregate. Want of memory is answered only where the closure answers
    /// it.
    pub fn call(&self, args: &[Value]) -> Option<Result<Value, FnFault>>
        requires { ⟦<Function<H> as Answering>⟧.answers self.now }
        ensures value { CallsAt (Some (definition self.now)) (λ n. H.scalar n args.now) result }
        ensures given { AnswersBy (λ s. IfSome result (ScalarFn.post s.call args.entry)) (λ a. Unit {0}) self.now }
        ensures memory { ⟦<Function<H> as Answering>⟧.never_lacks self.now → IfSome result HasMemory }
    {
        match self {
            Function::Scalar(scalar) => Some(scalar.answer(args)),
            Function::Aggregate(_) => None,
        }
    }

    /// What an aggregate holds after one more row; `None` of a scalar function. Want of memory is answered only where the
    /// closure answers it.
    pub fn step(&self, held: &Value, row: &[Value]) -> Option<Result<Value, FnFault>>
        requires { ⟦<Function<H> as Answering>⟧.answers self.now }
        ensures value { FoldsAt (Some (definition self.now)) (λ n. H.step n held.now row.now) result }
        ensures given { AnswersBy (λ s. Unit {0}) (λ a. IfSome result (StepFn.post a.step held.entry row.entry)) self.now }
        ensures memory { ⟦<Function<H> as Answering>⟧.never_lacks self.now → IfSome result HasMemory }
    {
        match self {
            Function::Scalar(_) => None,
            Function::Aggregate(aggregate) => Some(aggregate.step(held, row)),
        }
    }

    /// The value of an aggregate, of what it holds after the last row; `None` of a scalar function. Want of memory is
    /// answered only where the closure answers it.
    pub fn finish(&self, held: &Value) -> Option<Result<Value, FnFault>>
        requires { ⟦<Function<H> as Answering>⟧.answers self.now }
        ensures value { FoldsAt (Some (definition self.now)) (λ n. H.finish n held.now) result }
        ensures given { AnswersBy (λ s. Unit {0}) (λ a. IfSome result (FinishFn.post a.finish held.entry)) self.now }
        ensures memory { ⟦<Function<H> as Answering>⟧.never_lacks self.now → IfSome result HasMemory }
    {
        match self {
            Function::Scalar(_) => None,
            Function::Aggregate(aggregate) => Some(aggregate.finish(held)),
        }
    }
}

/// Which definition a function has, by its number.
#[derive(Clone, Copy, Debug, PartialEq, Eq)]
pub enum Definition {
    Scalar(u32),
    Aggregate(u32),
}

/// A collation that was found by its name, to be held and compared by: one of the engine's own, or a host's, by its place
/// among those that it was found in, where it stays as others are added.
#[derive(Clone, Copy, Debug, PartialEq, Eq)]
pub enum FoundCollation {
    BuiltIn(Collation),
    Host(usize),
}
