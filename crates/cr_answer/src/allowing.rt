//! Whether a statement may be carried out on a replica as it stood at a moment.

ghost use Rattle.std.specs.Prelude.{◌≡◌, cond, Result, Ok, Err};
ghost use Rattle.cr_guard.specs.Guard.{asked};
ghost use Rattle.cr_resolve.specs.Resolve.{Resolves, resolved};
ghost use Rattle.cr_answer.specs.Allowing.{Allows, known_by};
ghost use Rattle.cr_world.specs.declared.refusal.Refusal.TheVariants.{Parameters};

use crate::asking::Asking;
use crate::refusing::of_unresolved;
use cr_guard::guarding::Guarding;
use cr_host::functions::Functions;
use cr_replica::snapshot::Snapshot;
use cr_resolve::naming::Offer;
use cr_resolve::refusal::Refusal as Unresolved;
use cr_resolved::fits::fits;
use cr_resolved::statement::resolved;
use cr_snapshot::catalog::catalog as catalog_of;
use cr_term::query::Resolved;
use cr_tree::statement::Statement;
use cr_world::refusal::Refusal;
use std::alloc::Global;

// A statement over what the replica has, whose questions the guard answers.
fn resolved_seen<F: Functions, G: Guarding>(
    alloc: Global,
    functions: &F,
    guard: &G,
    snapshot: &Snapshot,
    statement: &Statement,
) -> Result<Resolved, Unresolved>
    requires { G.is_faithful guard.now }
    ensures { Resolves result (resolved (known_by (F.function_of functions.now) (F.names_function functions.now) (F.order_of functions.now) snapshot.now) (asked (G.rules guard.now) (G.allows guard.now)) statement.now) }
{
    let catalog = catalog_of(alloc, snapshot)?;
    let offer = Offer {
        catalog: &catalog,
        functions,
    };
    resolved(alloc, &offer, &Asking { guard }, statement)
}

// A statement, where its parameters are as many as are given.
fn fitting<T: Drop>(statement: T, is_fit: bool) -> Result<T, Refusal>
    ensures { result ≡ cond is_fit (Ok statement) (Err Parameters) }
{
    if is_fit {
        Ok(statement)
    } else {
        Err(Refusal::Parameters)
    }
}

/// A statement as it is carried out with so many parameters: its names are resolved over the replica's tables, the table of
/// changes and the host's modules, the authorizer and the policy are asked, and what they ignore is gone from it.
///
/// # Errors
/// The first that stands against its definition or its CASTs, then against its names, then `Denied`, in the order of
/// `cr_resolved::statement::resolved`; then `Parameters` where its greatest parameter has another number, or one's number is none
/// from 1 to 999; `Memory`.
pub fn allowed<F: Functions, G: Guarding>(
    alloc: Global,
    functions: &F,
    guard: &G,
    snapshot: &Snapshot,
    statement: &Statement,
    count: usize,
) -> Result<Resolved, Refusal>
    requires { G.is_faithful guard.now }
    ensures { Allows (known_by (F.function_of functions.now) (F.names_function functions.now) (F.order_of functions.now) snapshot.now) (asked (G.rules guard.now) (G.allows guard.now)) statement.now count result }
{
    match resolved_seen(alloc, functions, guard, snapshot, statement) {
        Ok(resolved) => fitting(resolved, fits(statement, count)),
        Err(refusal) => Err(of_unresolved(refusal)),
    }
}
