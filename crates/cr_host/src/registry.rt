//! A host's functions and collations, by name.

ghost use Rattle.std.specs.Prelude.{◌≡◌, ◌↔◌, ℕ, [], false, not, ◌&&◌, None, Some, IsTrue, IsSome, OnOk, OnErr, IfSome, position};
ghost use Rattle.std.specs.List.{list_any};
ghost use Rattle.std.specs.Option.{option_map, option_map_or, is_some};
ghost use Rattle.std.specs.Str.{bytes_eq};
ghost use Rattle.indexmap.specs.IndexMap.{keys};
ghost use Rattle.cr_host.specs.Names.{folded, arity_of, is_function_name, is_collation_name};
ghost use Rattle.cr_host.specs.Meets.{AnswersAs, StepsAs, FinishesAs, ComparesAs, NeverLacks, NeverLacksAt};
ghost use Rattle.cr_host.specs.Registry.{listed, collations, definition, is_key, is_named, is_collation_key, entry_at, number_at, with_entry, without_entry, function_for, with_collation, order_at, names_function, RefusesBadNames};
ghost use Rattle.cr_host.specs.declared.function.Definition.{Definition};
ghost use Rattle.cr_host.specs.declared.function.Definition.TheVariants.{Scalar as ScalarOf, Aggregate as AggregateOf};

use crate::arity::Arity;
use crate::fault::AddFault;
use crate::folded::FoldedName;
use crate::function::{
    Aggregate, Collating, FinishFn, Function, OrderFn, Scalar, ScalarFn, StepFn,
};
use crate::functions::{Answering, Functions};
use crate::meaning::HostMeaning;
use crate::name::{is_collation_name, is_function_name};
use cr_value::collation::Collation;
use indexmap::IndexMap;
use std::alloc::Global;
use std::cmp::Ordering;
use std::marker::PhantomData;

/// A name, its ASCII letters in lower case, and a count of arguments.
#[derive(Drop, PartialEq, Eq, Hash)]
pub struct FnKey {
    name: FoldedName,
    arity: Arity,
}

/// The functions and the collations of a host.
#[derive(Drop)]
pub struct Registry<H> {
    functions: IndexMap<FnKey, Function<H>>,
    collations: IndexMap<FoldedName, Collating<H>>,
}

// The key under which a function is registered; `None` where the name or the count may not be.
fn key_of(name: &str, arity: i32) -> Option<FnKey>
    ensures accepted { is_some result ≡ (is_function_name name.now && is_some (arity_of arity)) }
    ensures name { IfSome result (λ key. key.name.bytes.items ≡ folded name.now) }
    ensures arity { IfSome result (λ key. arity_of arity ≡ Some key.arity) }
{
    let arity = Arity::of(arity)?;
    if !is_function_name(name) {
        return None;
    }
    let name = FoldedName::of(name)?;
    Some(FnKey { name, arity })
}

// Where the function of that name and count stands.
fn place_of<V>(functions: &IndexMap<FnKey, V>, name: &str, arity: Arity) -> Option<usize>
    ensures { result ≡ position (is_key name.now arity) (keys functions.now) }
{
    let name = FoldedName::of(name)?;
    functions.get_index_of(&FnKey { name, arity })
}

// Whether a function has that name.
fn has_name<V>(functions: &IndexMap<FnKey, V>, name: &str) -> bool
    ensures { result ≡ list_any (λ key. bytes_eq (folded name.now) key.name.bytes.items) (keys functions.now) }
{
    functions.keys().any(|key| key.name.is_of(name))
}

// Where the collation of that name stands.
fn place_of_collation<V>(collations: &IndexMap<FoldedName, V>, name: &str) -> Option<usize>
    ensures { result ≡ position (is_collation_key name.now) (keys collations.now) }
{
    let name = FoldedName::of(name)?;
    collations.get_index_of(&name)
}

impl<H: HostMeaning> Registry<H> {
    /// A registry with no functions and no collations.
    pub fn new(alloc: Global) -> Self
        ensures functions { listed result ≡ [] }
        ensures collations { collations result ≡ [] }
        ensures faithful { ⟦<Registry<H> as Functions>⟧.is_faithful result }
        ensures memory { (d : Definition) → ⟦<Registry<H> as Functions>⟧.never_lacks result d }
    {
        Registry {
            functions: IndexMap::new(alloc),
            collations: IndexMap::new(alloc),
        }
    }

    /// The function under that name, its ASCII letters in either case, for calls of that many arguments: that of this
    /// very count, else that of any count, else none.
    pub fn find_function(&self, name: &str, count: usize) -> Option<&Function<H>>
        ensures definition { option_map (λ f. definition f.now) result ≡ function_for name.now count (listed self.now) }
        ensures faithful { ⟦<Registry<H> as Functions>⟧.is_faithful self.now → IfSome result (λ f. ⟦<Function<H> as Answering>⟧.answers f.now) }
        ensures memory { IfSome result (λ f. ⟦<Registry<H> as Functions>⟧.never_lacks self.now (definition f.now) → ⟦<Function<H> as Answering>⟧.never_lacks f.now) }
    {
        if let Some(function) = self.entry(name, Arity::Exactly(count)) {
            return Some(function);
        }
        self.entry(name, Arity::Any)
    }

    // The function under that name and count.
    fn entry(&self, name: &str, arity: Arity) -> Option<&Function<H>>
        ensures definition { option_map (λ f. definition f.now) result ≡ entry_at name.now arity (listed self.now) }
        ensures faithful { ⟦<Registry<H> as Functions>⟧.is_faithful self.now → IfSome result (λ f. ⟦<Function<H> as Answering>⟧.answers f.now) }
        ensures memory { IfSome result (λ f. ⟦<Registry<H> as Functions>⟧.never_lacks self.now (definition f.now) → ⟦<Function<H> as Answering>⟧.never_lacks f.now) }
    {
        let place = place_of(&self.functions, name, arity)?;
        let (_, function) = self.functions.get_index(place)?;
        Some(function)
    }

    fn add(&mut self, name: &str, arity: i32, function: Function<H>) -> Result<(), AddFault>
        requires answers { ⟦<Function<H> as Answering>⟧.answers function }
        requires faithful { ⟦<Registry<H> as Functions>⟧.is_faithful self.old }
        ensures refused { RefusesBadNames (is_function_name name.now && is_some (arity_of arity)) result }
        ensures ok { OnOk result (IfSome (arity_of arity) (λ a. listed self.new ≡ with_entry name.now a (definition function) (listed self.old))) }
        ensures err { OnErr result (listed self.new ≡ listed self.old) }
        ensures collations { collations self.new ≡ collations self.old }
        ensures faithful { ⟦<Registry<H> as Functions>⟧.is_faithful self.new }
        ensures memory { (d : Definition) → ⟦<Registry<H> as Functions>⟧.never_lacks self.old d → (definition function ≡ d → ⟦<Function<H> as Answering>⟧.never_lacks function) → ⟦<Registry<H> as Functions>⟧.never_lacks self.new d }
    {
        let Some(key) = key_of(name, arity) else {
            return Err(AddFault::BadName);
        };
        match self.functions.insert(key, function) {
            Ok(_) => Ok(()),
            Err(_) => Err(AddFault::Memory),
        }
    }

    /// Adds a scalar function, which takes the place of a function of that name and count. A count of -1 is any count.
    /// What is refused leaves the registry as it was: `BadName` where the name is empty, over 255 bytes or reserved, or
    /// the count is not -1 to 100, and `Memory` where there was none. This project's own rule.
    pub fn add_scalar(
        &mut self,
        name: &str,
        arity: i32,
        number: u32,
        call: ScalarFn,
    ) -> Result<(), AddFault>
        requires answers { AnswersAs (ScalarFn.pre call) (ScalarFn.post call) (H.scalar number) }
        requires faithful { ⟦<Registry<H> as Functions>⟧.is_faithful self.old }
        ensures refused { RefusesBadNames (is_function_name name.now && is_some (arity_of arity)) result }
        ensures ok { OnOk result (IfSome (arity_of arity) (λ a. listed self.new ≡ with_entry name.now a (ScalarOf number) (listed self.old))) }
        ensures err { OnErr result (listed self.new ≡ listed self.old) }
        ensures collations { collations self.new ≡ collations self.old }
        ensures faithful { ⟦<Registry<H> as Functions>⟧.is_faithful self.new }
        ensures memory { (d : Definition) → ⟦<Registry<H> as Functions>⟧.never_lacks self.old d → (ScalarOf number ≡ d → NeverLacks (ScalarFn.post call)) → ⟦<Registry<H> as Functions>⟧.never_lacks self.new d }
    {
        let scalar = Scalar {
            number,
            call,
            host: PhantomData,
        };
        self.add(name, arity, Function::Scalar(scalar))
    }

    /// Adds an aggregate, as `add_scalar` adds a scalar function.
    pub fn add_aggregate(
        &mut self,
        name: &str,
        arity: i32,
        number: u32,
        step: StepFn,
        finish: FinishFn,
    ) -> Result<(), AddFault>
        requires steps { StepsAs (StepFn.pre step) (StepFn.post step) (H.step number) }
        requires finishes { FinishesAs (FinishFn.pre finish) (FinishFn.post finish) (H.finish number) }
        requires faithful { ⟦<Registry<H> as Functions>⟧.is_faithful self.old }
        ensures refused { RefusesBadNames (is_function_name name.now && is_some (arity_of arity)) result }
        ensures ok { OnOk result (IfSome (arity_of arity) (λ a. listed self.new ≡ with_entry name.now a (AggregateOf number) (listed self.old))) }
        ensures err { OnErr result (listed self.new ≡ listed self.old) }
        ensures collations { collations self.new ≡ collations self.old }
        ensures faithful { ⟦<Registry<H> as Functions>⟧.is_faithful self.new }
        ensures memory { (d : Definition) → ⟦<Registry<H> as Functions>⟧.never_lacks self.old d → (AggregateOf number ≡ d → NeverLacksAt (StepFn.post step) × NeverLacks (FinishFn.post finish)) → ⟦<Registry<H> as Functions>⟧.never_lacks self.new d }
    {
        let aggregate = Aggregate {
            number,
            step,
            finish,
            host: PhantomData,
        };
        self.add(name, arity, Function::Aggregate(aggregate))
    }

    /// Takes out the function of that name and count, and no other; false where there is none.
    pub fn remove(&mut self, name: &str, arity: i32) -> bool
        requires faithful { ⟦<Registry<H> as Functions>⟧.is_faithful self.old }
        ensures removed { result ≡ option_map_or (λ a. is_some (entry_at name.now a (listed self.old))) (arity_of arity) false }
        ensures functions { listed self.new ≡ option_map_or (λ a. without_entry name.now a (listed self.old)) (arity_of arity) (listed self.old) }
        ensures collations { collations self.new ≡ collations self.old }
        ensures faithful { ⟦<Registry<H> as Functions>⟧.is_faithful self.new }
        ensures memory { (d : Definition) → ⟦<Registry<H> as Functions>⟧.never_lacks self.old d → ⟦<Registry<H> as Functions>⟧.never_lacks self.new d }
    {
        let Some(arity) = Arity::of(arity) else {
            return false;
        };
        let found = place_of(&self.functions, name, arity).is_some();
        self.functions.retain(
            |key: &FnKey, function: &mut Function<H>| -> bool
                ensures kept { result ≡ not (is_key name.entry.now arity key.now) }
                ensures same { function.new ≡ function.old }
            { !(key.name.is_of(name) && arity == key.arity) },
        );
        found
    }

    /// Adds a collation, which takes the place of one of that name. What is refused leaves the registry as it was:
    /// `BadName` where the name is empty, over 255 bytes or that of a built-in collation, and `Memory` where there was
    /// none. This project's own rule.
    pub fn add_collation(
        &mut self,
        name: &str,
        number: u32,
        compare: OrderFn,
    ) -> Result<(), AddFault>
        requires compares { ComparesAs (OrderFn.pre compare) (OrderFn.post compare) (H.order number) }
        requires faithful { ⟦<Registry<H> as Functions>⟧.is_faithful self.old }
        ensures refused { RefusesBadNames (is_collation_name name.now) result }
        ensures ok { OnOk result (collations self.new ≡ with_collation name.now number (collations self.old)) }
        ensures err { OnErr result (collations self.new ≡ collations self.old) }
        ensures functions { listed self.new ≡ listed self.old }
        ensures faithful { ⟦<Registry<H> as Functions>⟧.is_faithful self.new }
        ensures memory { (d : Definition) → ⟦<Registry<H> as Functions>⟧.never_lacks self.old d → ⟦<Registry<H> as Functions>⟧.never_lacks self.new d }
    {
        if !is_collation_name(name) {
            return Err(AddFault::BadName);
        }
        let Some(key) = FoldedName::of(name) else {
            return Err(AddFault::BadName);
        };
        let collating = Collating {
            number,
            compare,
            host: PhantomData,
        };
        match self.collations.insert(key, collating) {
            Ok(_) => Ok(()),
            Err(_) => Err(AddFault::Memory),
        }
    }

    /// Whether there is a function under that name, its ASCII letters in either case, whatever its count.
    pub(crate) fn names_function(&self, name: &str) -> bool
        ensures value { result ≡ names_function name.now (listed self.now) }
        ensures names { IsTrue result ↔ ((count : ℕ) × IsSome (function_for name.now count (listed self.now))) }
    {
        has_name(&self.functions, name)
    }

    /// The place of the host's collation under that name, its ASCII letters in either case, the oldest at 0. It stays as
    /// collations are added.
    pub(crate) fn find_host_collation(&self, name: &str) -> Option<usize>
        ensures place { result ≡ position (is_named name.now) (collations self.now) }
        ensures order { option_map (order_at H.order (collations self.now)) result ≡ option_map H.order (number_at name.now (collations self.now)) }
    {
        place_of_collation(&self.collations, name)
    }

    /// How the first text stands to the second under the host's collation at a place, or under BINARY where none is
    /// there.
    pub(crate) fn compare_at(&self, place: usize, a: &str, b: &str) -> Ordering
        requires { ⟦<Registry<H> as Functions>⟧.is_faithful self.now }
        ensures { result ≡ order_at H.order (collations self.now) place a.now b.now }
    {
        let Some((_, collating)) = self.collations.get_index(place) else {
            return Collation::Binary.compare(a, b);
        };
        collating.compare(a, b)
    }
}
