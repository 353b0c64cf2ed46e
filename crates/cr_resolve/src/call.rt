//! Which function a call means, and what it makes of its arguments once they are read.

ghost use Rattle.std.specs.Prelude.{◌≡◌, IfOk, not};
ghost use Rattle.std.specs.Option.{option_copied, option_to_list};
ghost use Rattle.cr_term.specs.Nodes as e;
ghost use Rattle.cr_term.specs.Operands.{collation_of};
ghost use Rattle.cr_resolve.specs.declared.call.Owner.TheVariants as of;
ghost use Rattle.cr_resolve.specs.Calls.{callee, engine_callee, CallsUnread, own_function, CallsScalar, engine_kind, kind_of, CallsAggregate};
ghost use Rattle.cr_resolve.specs.Expressions.{own_collations};
ghost use Rattle.cr_resolve.specs.Known.{collation, collations};
ghost use Rattle.cr_resolve.specs.Reading.{with, also_misplaced};
ghost use Rattle.cr_resolve.specs.Told.{told, Passes};

use crate::known::{check_collation, is_db_version, is_function, is_site_id};
use crate::naming::Naming;
use crate::reading::Made;
use crate::refusal::Refusal;
use cr_host::built_in::{is_built_in_aggregate, is_built_in_scalar};
use cr_host::function::Definition;
use cr_questions::operands::{collation_of_all, first_collation};
use cr_term::expr::Expr;
use cr_term::operator::{Aggregate, BuiltIn};
use cr_value::text::{Bytes, Text};
use sqlite_items::Items;
use std::alloc::{AllocError, Global};

/// Whose a function is.
#[derive(Clone, Copy)]
pub enum Owner {
    Host,
    Engine,
}

/// A call whose arguments are not read.
#[derive(Clone, Copy)]
pub enum Unread {
    /// Of the replica's own site.
    SiteId,
    /// Of the replica's version.
    DbVersion,
    /// Some function has the name, but not for that many arguments.
    OtherCount,
    /// No function has the name.
    NoFunction,
}

/// What a name means in a call of so many arguments.
#[derive(Clone, Copy)]
pub enum Callee {
    Scalar(Owner),
    Aggregate(Owner),
    Unread(Unread),
}

// What a name means where the host has no function of that name and count.
fn engine_callee<K: Naming>(known: &K, name: &Text, count: usize) -> Callee
    ensures { result ≡ engine_callee (K.known known.now) name.now count }
{
    if is_built_in_scalar(name.as_str(), count) {
        Callee::Scalar(Owner::Engine)
    } else if is_built_in_aggregate(name.as_str(), count) {
        Callee::Aggregate(Owner::Engine)
    } else if is_site_id(name) && count == 0 {
        Callee::Unread(Unread::SiteId)
    } else if is_db_version(name) && count == 0 {
        Callee::Unread(Unread::DbVersion)
    } else if is_function(known, name) {
        Callee::Unread(Unread::OtherCount)
    } else {
        Callee::Unread(Unread::NoFunction)
    }
}

/// What a name means in a call of so many arguments: a function of the host, if it has one for that name and count, else
/// one of the engine.
#[tactic(auto, unfolding(crate::specs::Calls::callee))]
pub fn callee_of<K: Naming>(known: &K, name: &Text, count: usize) -> Callee
    ensures { result ≡ callee (K.known known.now) name.now count }
{
    match known.definition(name.as_str(), count) {
        Some(Definition::Scalar(_)) => Callee::Scalar(Owner::Host),
        Some(Definition::Aggregate(_)) => Callee::Aggregate(Owner::Host),
        None => engine_callee(known, name, count),
    }
}

/// What a call is whose arguments are not read.
///
/// # Errors
/// `WrongArity` and `NoSuchFunction`, where no function has the name for that count; `Memory`.
#[tactic(auto, unfolding(crate::specs::Calls::CallsUnread))]
pub fn unread_call<K: Naming>(
    alloc: Global,
    known: &K,
    callee: Unread,
    name: &Text,
) -> Result<Made<Expr>, Refusal>
    ensures { CallsUnread (K.known known.now) callee name.now result }
{
    let made = match callee {
        Unread::SiteId => Expr::SiteId(Bytes::from_slice(alloc, known.catalog().site.as_slice())?),
        Unread::DbVersion => Expr::DbVersion(known.catalog().db_version),
        Unread::OtherCount => return Err(Refusal::WrongArity(name.copy(alloc)?)),
        Unread::NoFunction => return Err(Refusal::NoSuchFunction(name.copy(alloc)?)),
    };
    Ok(Made {
        made,
        is_misplaced: false,
    })
}

// The engine's scalar function of that name.
#[tactic(auto, unfolding(crate::specs::Calls::own_function))]
fn own_function(alloc: Global, name: &Text, args: &Items<Expr>) -> Result<BuiltIn, AllocError>
    ensures { IfOk result (λ f. f ≡ own_function name.now args.now) }
{
    let name = name.as_str();
    if name == "abs" {
        Ok(BuiltIn::Abs)
    } else if name == "coalesce" {
        Ok(BuiltIn::Coalesce)
    } else if name == "hex" {
        Ok(BuiltIn::Hex)
    } else if name == "ifnull" {
        Ok(BuiltIn::IfNull)
    } else if name == "length" {
        Ok(BuiltIn::Length)
    } else if name == "lower" {
        Ok(BuiltIn::Lower)
    } else if name == "max" {
        Ok(BuiltIn::Max(first_collation(alloc, args.as_slice())?))
    } else if name == "min" {
        Ok(BuiltIn::Min(first_collation(alloc, args.as_slice())?))
    } else if name == "nullif" {
        Ok(BuiltIn::NullIf(first_collation(alloc, args.as_slice())?))
    } else if name == "typeof" {
        Ok(BuiltIn::TypeOf)
    } else {
        Ok(BuiltIn::Upper)
    }
}

// The collation by which a function of the engine compares, if it does.
fn own_collation(function: &BuiltIn) -> Option<&Text>
    ensures { option_to_list (option_copied result) ≡ own_collations function.now }
{
    match function {
        BuiltIn::Max(name) | BuiltIn::Min(name) | BuiltIn::NullIf(name) => Some(name),
        _ => None,
    }
}

// Tests that there is the collation by which a function of the engine compares, if it does.
fn check_own_collation<K: Naming>(
    alloc: Global,
    known: &K,
    function: &BuiltIn,
) -> Result<(), Refusal>
    ensures { Passes (collations (K.known known.now) (own_collations function.now)) result }
{
    match own_collation(function) {
        Some(name) => check_collation(alloc, known, name),
        None => Ok(()),
    }
}

// A call of the engine's scalar function.
fn own_made(function: BuiltIn, args: Made<Items<Expr>>) -> Made<Expr>
    ensures { told result ≡ with (e.BuiltIn function) (told args) }
{
    Made {
        made: Expr::BuiltIn(function, args.made),
        is_misplaced: args.is_misplaced,
    }
}

// A call of the engine's scalar function of that name.
#[tactic(auto, using(crate::proofs::Called::scalar_memory, crate::proofs::Called::own_refused, crate::proofs::Called::own_is))]
fn own_call<K: Naming>(
    alloc: Global,
    known: &K,
    name: &Text,
    args: Made<Items<Expr>>,
) -> Result<Made<Expr>, Refusal>
    ensures { CallsScalar (K.known known.now) of.Engine name.now args result }
{
    let function = own_function(alloc, name, &args.made)?;
    check_own_collation(alloc, known, &function)?;
    Ok(own_made(function, args))
}

// A call of the host's scalar function of that name.
fn host_call(alloc: Global, name: &Text, args: Made<Items<Expr>>) -> Result<Made<Expr>, AllocError>
    ensures { IfOk result (λ m. told m ≡ with (e.Host name.now) (told args)) }
{
    Ok(Made {
        made: Expr::Host(name.copy(alloc)?, args.made),
        is_misplaced: args.is_misplaced,
    })
}

/// A call of a scalar function.
///
/// # Errors
/// `NoSuchCollation` just where a function of the engine compares its arguments, and there is no collation of the name that
/// they bring; `Memory`.
#[tactic(auto, using(crate::proofs::Called::scalar_memory, crate::proofs::Called::host_is))]
pub fn scalar_call<K: Naming>(
    alloc: Global,
    known: &K,
    owner: Owner,
    name: &Text,
    args: Made<Items<Expr>>,
) -> Result<Made<Expr>, Refusal>
    ensures { CallsScalar (K.known known.now) owner name.now args result }
{
    match owner {
        Owner::Host => Ok(host_call(alloc, name, args)?),
        Owner::Engine => own_call(alloc, known, name, args),
    }
}

// The engine's aggregate of that name, under a collation.
fn engine_kind(name: &Text, collation: Text) -> Aggregate
    ensures { result ≡ engine_kind name.now collation }
{
    let name = name.as_str();
    if name == "count" {
        Aggregate::Count
    } else if name == "max" {
        Aggregate::Max(collation)
    } else if name == "min" {
        Aggregate::Min(collation)
    } else {
        Aggregate::Sum
    }
}

// The aggregate of that name, under a collation.
#[tactic(auto, unfolding(crate::specs::Calls::kind_of))]
fn kind_of(
    alloc: Global,
    owner: Owner,
    name: &Text,
    collation: Text,
) -> Result<Aggregate, AllocError>
    ensures { IfOk result (λ kind. kind ≡ kind_of owner name.now collation) }
{
    match owner {
        Owner::Host => Ok(Aggregate::Host(name.copy(alloc)?)),
        Owner::Engine => Ok(engine_kind(name, collation)),
    }
}

// The collation that the arguments of an aggregate bring.
fn arguments_collation(alloc: Global, args: &Items<Expr>) -> Result<Text, AllocError>
    ensures { IfOk result (λ t. t ≡ collation_of args.now) }
{
    collation_of_all(alloc, args.as_slice())
}

// A call of an aggregate.
fn aggregate_made(kind: Aggregate, is_allowed: bool, args: Made<Items<Expr>>) -> Made<Expr>
    ensures { told result ≡ also_misplaced (not is_allowed) (with (e.Aggregate kind) (told args)) }
{
    Made {
        made: Expr::Aggregate(kind, args.made),
        is_misplaced: !is_allowed || args.is_misplaced,
    }
}

/// A call of an aggregate, which may or may not stand where it does.
///
/// # Errors
/// `NoSuchCollation` just where there is no collation of the name that the arguments bring; `Memory`.
#[tactic(auto, using(crate::proofs::Called::aggregate_memory, crate::proofs::Called::aggregate_refused, crate::proofs::Called::aggregate_is))]
pub fn aggregate_call<K: Naming>(
    alloc: Global,
    known: &K,
    owner: Owner,
    name: &Text,
    is_allowed: bool,
    args: Made<Items<Expr>>,
) -> Result<Made<Expr>, Refusal>
    ensures { CallsAggregate (K.known known.now) owner name.now is_allowed args result }
{
    let collation = arguments_collation(alloc, &args.made)?;
    check_collation(alloc, known, &collation)?;
    let kind = kind_of(alloc, owner, name, collation)?;
    Ok(aggregate_made(kind, is_allowed, args))
}
