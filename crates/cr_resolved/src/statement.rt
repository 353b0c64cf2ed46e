//! A statement once its names are resolved and its questions are answered, or what stands against it.

ghost use Rattle.cr_resolve.specs.Resolve.{Resolves, marked, read, resolved, select_or_mark};
ghost use Rattle.cr_resolve.specs.Told.{Finds};

use crate::casts::has_cast_outside;
use cr_created::alter::alter;
use cr_created::create::create;
use cr_created::mark::marked_table;
use cr_grouped::select::select;
use cr_permitted::statement::permitted;
use cr_questions::answering::Answering;
use cr_resolve::leaf::marked;
use cr_resolve::naming::Naming;
use cr_resolve::refusal::{Outside, Refusal};
use cr_term::query::{MarkReplicated, Resolved};
use cr_tree::statement::{Select, Statement};
use cr_written::delete::delete;
use cr_written::insert::insert;
use cr_written::update::update;
use std::alloc::Global;

// The query that a SELECT is, or the table that it marks as replicated, which no authorizer ignores yet.
fn select_or_mark<K: Naming>(alloc: Global, known: &K, tree: &Select) -> Result<Resolved, Refusal>
    ensures { Finds (select_or_mark (K.known known.now) tree.now (marked tree.now)) result }
{
    match marked(tree) {
        Some(name) => Ok(Resolved::MarkReplicated(MarkReplicated {
            relation: marked_table(alloc, known, name)?,
            is_ignored: false,
        })),
        None => Ok(Resolved::Select(select(alloc, known, tree)?)),
    }
}

// A statement whose names are resolved.
fn read<K: Naming>(alloc: Global, known: &K, statement: &Statement) -> Result<Resolved, Refusal>
    ensures { Finds (read (K.known known.now) statement.now) result }
{
    Ok(match statement {
        Statement::Select(tree) => select_or_mark(alloc, known, tree)?,
        Statement::Insert(tree) => Resolved::Insert(insert(alloc, known, tree)?),
        Statement::Update(tree) => Resolved::Update(update(alloc, known, tree)?),
        Statement::Delete(tree) => Resolved::Delete(delete(alloc, known, tree)?),
        Statement::Create(tree) => Resolved::Create(create(alloc, known, tree)?),
        Statement::Alter(tree) => Resolved::Alter(alter(alloc, known, tree)?),
        Statement::Begin(_) => Resolved::Begin,
        Statement::Commit => Resolved::Commit,
        Statement::Rollback => Resolved::Rollback,
    })
}

/// A statement of any form as it is carried out: its names are resolved, and what the authorizer ignores is gone from it.
///
/// # Errors
/// `OutOfProfile(Real)` where a CAST is to a type that is none of integer, text and blob; then the first that stands against
/// one of its names, in the order that `select`, `insert`, `update`, `delete`, `create`, `alter` or `marked_table` tells, with
/// what else its form refuses; last `Denied` with the first question that is denied. `Memory`.
#[tactic(auto, using(crate::proofs::Verdicts::cast_told, crate::proofs::Verdicts::names_told, crate::proofs::Verdicts::answers_told))]
pub fn resolved<K: Naming, G: Answering>(
    alloc: Global,
    known: &K,
    guard: &G,
    statement: &Statement,
) -> Result<Resolved, Refusal>
    requires { G.is_faithful guard.now }
    ensures { Resolves result (resolved (K.known known.now) (G.answers guard.now) statement.now) }
{
    if has_cast_outside(alloc, statement)? {
        return Err(Refusal::OutOfProfile(Outside::Real));
    }
    let named = read(alloc, known, statement)?;
    let left = permitted(alloc, guard, &named);
    drop(named);
    left
}
