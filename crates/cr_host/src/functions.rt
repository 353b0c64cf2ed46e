//! What the layers above ask of a host's functions and collations.

ghost use Rattle.std.specs.Prelude.{◌≡◌, length, IfSome};
ghost use Rattle.std.specs.Option.{option_map, is_some};
ghost use Rattle.cr_host.specs.Meets.{CallsAt, FoldsAt, HasMemory, aggregated};

use crate::fault::FnFault;
use crate::function::{
    Collating, Definition, FinishFn, FoundCollation, Function, OrderFn, ScalarFn, StepFn,
};
use crate::meaning::HostMeaning;
use crate::name::built_in_collation;
use crate::registry::Registry;
use cr_lattice::table::Row;
use cr_value::collation::Collation;
use cr_value::value::Value;
use std::cmp::Ordering;

/// Closures that answer as the definition of their number says.
pub trait Answering {
    ghost answers: { Self → Type 0 };

    /// No closure answers want of memory.
    ghost never_lacks: { Self → Type 0 };
}

impl<H: HostMeaning> Answering for Function<H> {
    ghost use Rattle.cr_host.specs.Meets.{AnswersAs, StepsAs, FinishesAs, NeverLacks, NeverLacksAt};
    ghost use Rattle.cr_host.specs.Registry.{AnswersBy};

    ghost answers = { AnswersBy
        (λ s. AnswersAs (ScalarFn.pre s.call) (ScalarFn.post s.call) (H.scalar s.number))
        (λ a. StepsAs (StepFn.pre a.step) (StepFn.post a.step) (H.step a.number) × FinishesAs (FinishFn.pre a.finish) (FinishFn.post a.finish) (H.finish a.number)) };

    ghost never_lacks = { AnswersBy
        (λ s. NeverLacks (ScalarFn.post s.call))
        (λ a. NeverLacksAt (StepFn.post a.step) × NeverLacks (FinishFn.post a.finish)) };
}

impl<H: HostMeaning> Answering for Collating<H> {
    ghost use Rattle.cr_host.specs.Meets.{ComparesAs};

    ghost answers = { λ c. ComparesAs (OrderFn.pre c.compare) (OrderFn.post c.compare) (H.order c.number) };

    ghost never_lacks = { λ c. Unit {0} };
}

/// Functions and collations that are found by name, the ASCII letters in either case. What stands above them knows them
/// by this alone, and hands on the fact `is_faithful` of those that it is given.
pub trait Functions {
    ghost use Rattle.std.specs.Prelude.{◌≡◌, ◌↔◌, ℕ, Bool, List, Result, Option, Some, IsTrue, IsSome};
    ghost use Rattle.std.specs.declared.cmp.Ordering.{Ordering};
    ghost use Rattle.std.specs.Cmp.{IsTotalOrder};
    ghost use Rattle.cr_value.specs.declared.value.Value.{Value};
    ghost use Rattle.cr_host.specs.declared.function.Definition.{Definition};
    ghost use Rattle.cr_host.specs.declared.function.FoundCollation.{FoundCollation};
    ghost use Rattle.cr_host.specs.declared.function.FoundCollation.TheVariants.{BuiltIn};
    ghost use Rattle.cr_host.specs.Names.{built_in_collation};
    ghost use Rattle.cr_host.specs.Registry.{found_order};

    /// Each closure answers as the definition of its number says.
    ghost is_faithful: { Self → Type 0 };

    /// No closure of that definition answers want of memory.
    ghost never_lacks: { Self → Definition → Type 0 };

    /// The function of a name for calls of that many arguments.
    ghost function_of: { Self → List ℕ → ℕ → Option Definition };

    /// Whether a function has that name, whatever its count of arguments.
    ghost names_function: { Self → List ℕ → Bool };

    /// What a scalar function gives, or the text of its fault.
    ghost scalar: { Self → ℕ → List Value → Result Value (List ℕ) };

    /// What an aggregate makes of what it holds and the next row.
    ghost step: { Self → ℕ → Value → List Value → Result Value (List ℕ) };

    /// What an aggregate gives of what it holds after the last row.
    ghost finish: { Self → ℕ → Value → Result Value (List ℕ) };

    /// The order of texts under the collation of a name.
    ghost order_of: { Self → List ℕ → Option (List ℕ → List ℕ → Ordering) };

    /// The collation of a name, as it is found.
    ghost found_at: { Self → List ℕ → Option FoundCollation };

    /// Each is a total preorder: any two texts compare, consistently, and some may tie.
    ghost orders_total: { (s : Self) (name : List ℕ) (order : List ℕ → List ℕ → Ordering) → order_of s name ≡ Some order → IsTotalOrder order };

    /// The order of texts under the host's collation at a place.
    ghost order_at: { Self → ℕ → List ℕ → List ℕ → Ordering };

    /// A collation that was found is a total preorder, too.
    ghost found_total: { (s : Self) (found : FoundCollation) → IsTotalOrder (found_order (order_at s) found) };

    /// The host's function of that name for calls of that many arguments. It comes before one that the engine has itself.
    fn definition(&self, name: &str, count: usize) -> Option<Definition>
        ensures { result ≡ function_of self.now name.now count };

    /// Whether the host has a function of that name, for calls of some number of arguments.
    fn has_function(&self, name: &str) -> bool
        ensures value { result ≡ names_function self.now name.now }
        ensures names { IsTrue result ↔ ((count : ℕ) × IsSome (function_of self.now name.now count)) };

    /// The value of a scalar function; `None` where there is no such scalar function. Want of memory isn't answered of one
    /// whose closure never answers that.
    fn call(&self, name: &str, args: &[Value]) -> Option<Result<Value, FnFault>>
        requires { is_faithful self.now }
        ensures value { CallsAt (function_of self.now name.now (length args.now)) (λ n. scalar self.now n args.now) result }
        ensures memory { IfSome (function_of self.now name.now (length args.now)) (never_lacks self.now) → IfSome result HasMemory };

    /// What an aggregate holds after one more row; `None` where there is no such aggregate. Before the first row it
    /// holds NULL. Want of memory isn't answered of one whose closures never answer that.
    fn step(
        &self,
        name: &str,
        count: usize,
        held: &Value,
        row: &[Value],
    ) -> Option<Result<Value, FnFault>>
        requires { is_faithful self.now }
        ensures value { FoldsAt (function_of self.now name.now count) (λ n. step self.now n held.now row.now) result }
        ensures memory { IfSome (function_of self.now name.now count) (never_lacks self.now) → IfSome result HasMemory };

    /// The value of an aggregate, of what it holds after the last row; `None` where there is no such aggregate. Want of
    /// memory isn't answered of one whose closures never answer that.
    fn finish(&self, name: &str, count: usize, held: &Value) -> Option<Result<Value, FnFault>>
        requires { is_faithful self.now }
        ensures value { FoldsAt (function_of self.now name.now count) (λ n. finish self.now n held.now) result }
        ensures memory { IfSome (function_of self.now name.now count) (never_lacks self.now) → IfSome result HasMemory };

    /// The value of an aggregate over rows, in their order: its steps from NULL, and then its end; `None` where there is
    /// no such aggregate. Want of memory isn't answered of one whose closures never answer that.
    fn fold(&self, name: &str, count: usize, rows: &[Row]) -> Option<Result<Value, FnFault>>
        requires { is_faithful self.now }
        ensures value { FoldsAt (function_of self.now name.now count) (λ n. aggregated (step self.now n) (finish self.now n) rows.now) result }
        ensures memory { IfSome (function_of self.now name.now count) (never_lacks self.now) → IfSome result HasMemory }
    {
        let mut held = Value::Null;
        for row in rows {
            match self.step(name, count, &held, row.as_slice())? {
                Ok(next) => held = next,
                Err(fault) => return Some(Err(fault)),
            }
        }
        self.finish(name, count, &held)
    }

    /// The collation of a name, to be held while texts are compared under it; `None` where there is none of that name.
    fn find_collation(&self, name: &str) -> Option<FoundCollation>
        ensures found { result ≡ found_at self.now name.now }
        ensures order { option_map (found_order (order_at self.now)) result ≡ order_of self.now name.now }
        ensures built_in { IfSome (built_in_collation name.now) (λ c. result ≡ Some (BuiltIn c)) };

    /// Whether there is a collation of that name.
    fn has_collation(&self, name: &str) -> bool
        ensures { result ≡ is_some (order_of self.now name.now) }
    {
        self.find_collation(name).is_some()
    }

    /// How the first text stands to the second under a collation that was found; under BINARY where it was found
    /// elsewhere and none has its place here.
    fn compare(&self, found: FoundCollation, a: &str, b: &str) -> Ordering
        requires { is_faithful self.now }
        ensures { result ≡ found_order (order_at self.now) found a.now b.now };
}

impl<H: HostMeaning> Functions for Registry<H> {
    ghost use Rattle.std.specs.List.{AllByRecursion};
    ghost use Rattle.cr_host.specs.Meets.{AnswersAs, StepsAs, FinishesAs, ComparesAs, NeverLacks, NeverLacksAt};
    ghost use Rattle.cr_host.specs.Registry.{AnswersBy, definition, functions, orders, listed, collations, function_for, names_function, order_for, found_for, order_at};
    ghost use Rattle.cr_host.specs.Orders.{order_for_total, order_at_total, found_order_total};

    ghost is_faithful = { λ r. AllByRecursion (AnswersBy
        (λ s. AnswersAs (ScalarFn.pre s.call) (ScalarFn.post s.call) (H.scalar s.number))
        (λ a. StepsAs (StepFn.pre a.step) (StepFn.post a.step) (H.step a.number) × FinishesAs (FinishFn.pre a.finish) (FinishFn.post a.finish) (H.finish a.number))) (functions r)
        × AllByRecursion (λ c. ComparesAs (OrderFn.pre c.compare) (OrderFn.post c.compare) (H.order c.number)) (orders r) };

    ghost never_lacks = { λ r d. AllByRecursion (λ f. definition f ≡ d → AnswersBy
        (λ s. NeverLacks (ScalarFn.post s.call))
        (λ a. NeverLacksAt (StepFn.post a.step) × NeverLacks (FinishFn.post a.finish)) f) (functions r) };

    ghost function_of = { λ r name count. function_for name count (listed r) };

    ghost names_function = { λ r name. names_function name (listed r) };

    ghost scalar = { λ r. H.scalar };

    ghost step = { λ r. H.step };

    ghost finish = { λ r. H.finish };

    ghost order_of = { λ r name. order_for H.order name (collations r) };

    ghost found_at = { λ r name. found_for name (collations r) };

    ghost orders_total = { λ r name order e. order_for_total H.order H.order_total name (collations r) order e };

    ghost order_at = { λ r. order_at H.order (collations r) };

    ghost found_total = { λ r found. found_order_total (order_at H.order (collations r)) (order_at_total H.order H.order_total (collations r)) found };

    fn definition(&self, name: &str, count: usize) -> Option<Definition> {
        let function = self.find_function(name, count)?;
        Some(function.definition())
    }

    fn has_function(&self, name: &str) -> bool {
        self.names_function(name)
    }

    fn call(&self, name: &str, args: &[Value]) -> Option<Result<Value, FnFault>> {
        let function = self.find_function(name, args.len())?;
        function.call(args)
    }

    fn step(
        &self,
        name: &str,
        count: usize,
        held: &Value,
        row: &[Value],
    ) -> Option<Result<Value, FnFault>> {
        let function = self.find_function(name, count)?;
        function.step(held, row)
    }

    fn finish(&self, name: &str, count: usize, held: &Value) -> Option<Result<Value, FnFault>> {
        let function = self.find_function(name, count)?;
        function.finish(held)
    }

    fn find_collation(&self, name: &str) -> Option<FoundCollation> {
        if let Some(collation) = built_in_collation(name) {
            return Some(FoundCollation::BuiltIn(collation));
        }
        let place = self.find_host_collation(name)?;
        Some(FoundCollation::Host(place))
    }

    fn compare(&self, found: FoundCollation, a: &str, b: &str) -> Ordering {
        match found {
            FoundCollation::BuiltIn(collation) => collation.compare(a, b),
            FoundCollation::Host(place) => self.compare_at(place, a, b),
        }
    }
}

/// The built-in collations alone, and no function of a host.
#[derive(Clone, Copy, Debug, Drop)]
pub struct BuiltIns;

impl Functions for BuiltIns {
    ghost use Rattle.std.specs.Prelude.{None, Err, [], false};
    ghost use Rattle.cr_host.specs.Registry.{order_for, found_for};
    ghost use Rattle.cr_host.specs.Orders.{order_for_total, found_order_total, built_in_only, built_in_only_total};

    ghost is_faithful = { λ s. Unit {0} };

    ghost never_lacks = { λ s d. Unit {0} };

    ghost function_of = { λ s name count. None };

    ghost names_function = { λ s name. false };

    ghost scalar = { λ s n args. Err [] };

    ghost step = { λ s n held row. Err [] };

    ghost finish = { λ s n held. Err [] };

    ghost order_of = { λ s name. order_for built_in_only name [] };

    ghost found_at = { λ s name. found_for name [] };

    ghost orders_total = { λ s name order e. order_for_total built_in_only built_in_only_total name [] order e };

    ghost order_at = { λ s. built_in_only };

    ghost found_total = { λ s found. found_order_total built_in_only built_in_only_total found };

    fn definition(&self, _name: &str, _count: usize) -> Option<Definition> {
        None
    }

    fn has_function(&self, _name: &str) -> bool {
        false
    }

    fn call(&self, _name: &str, _args: &[Value]) -> Option<Result<Value, FnFault>> {
        None
    }

    fn step(
        &self,
        _name: &str,
        _count: usize,
        _held: &Value,
        _row: &[Value],
    ) -> Option<Result<Value, FnFault>> {
        None
    }

    fn finish(&self, _name: &str, _count: usize, _held: &Value) -> Option<Result<Value, FnFault>> {
        None
    }

    fn find_collation(&self, name: &str) -> Option<FoundCollation> {
        let collation = built_in_collation(name)?;
        Some(FoundCollation::BuiltIn(collation))
    }

    fn compare(&self, found: FoundCollation, a: &str, b: &str) -> Ordering {
        match found {
            FoundCollation::BuiltIn(collation) => collation.compare(a, b),
            FoundCollation::Host(_) => Collation::Binary.compare(a, b),
        }
    }
}
