//! A statement once its questions are answered.

ghost use Rattle.std.specs.Prelude.{◌≡◌, IfOk};
ghost use Rattle.std.specs.Option.{option_map};
ghost use Rattle.cr_questions.specs.Questions.{first_denied, left_of, questions};
ghost use Rattle.cr_questions.specs.Asked.{told};
ghost use Rattle.cr_resolve.specs.Resolve.{Resolves, or_allowed};

use crate::definitions::{alter_denied, copy_alter, copy_create, create_denied};
use crate::delete::{delete_denied, left_delete};
use crate::insert::{insert_denied, left_insert};
use crate::mark::{left_mark, mark_denied};
use crate::transactions::{begin_denied, commit_denied, rollback_denied};
use crate::update::{left_update, update_denied};
use cr_allowed::query::left_query;
use cr_questions::answering::Answering;
use cr_questions::question::Asked;
use cr_questions::select::select_denied;
use cr_resolve::refusal::Refusal;
use cr_term::query::Resolved;
use std::alloc::{AllocError, Global};

/// The first question of a statement that is denied. It asks none behind it, which no clause can say.
pub fn denied<'a, G: Answering>(guard: &G, statement: &'a Resolved) -> Option<Asked<'a>>
    requires { G.is_faithful guard.now }
    ensures { option_map told result ≡ first_denied (G.answers guard.now) (questions statement.now) }
{
    match statement {
        Resolved::Select(query) => select_denied(guard, query),
        Resolved::MarkReplicated(mark) => mark_denied(guard, mark),
        Resolved::Insert(insert) => insert_denied(guard, insert),
        Resolved::Update(update) => update_denied(guard, update),
        Resolved::Delete(delete) => delete_denied(guard, delete),
        Resolved::Create(create) => create_denied(guard, create),
        Resolved::Alter(alter) => alter_denied(guard, alter),
        Resolved::Begin => begin_denied(guard),
        Resolved::Commit => commit_denied(guard),
        Resolved::Rollback => rollback_denied(guard),
    }
}

/// What is left of a statement: NULL in the place of each column and each call that the authorizer ignores.
///
/// # Errors
/// Where memory runs out.
pub fn left_of<G: Answering>(
    alloc: Global,
    guard: &G,
    statement: &Resolved,
) -> Result<Resolved, AllocError>
    requires { G.is_faithful guard.now }
    ensures { IfOk result (λ s. s ≡ left_of (G.answers guard.now) statement.now) }
{
    Ok(match statement {
        Resolved::Select(query) => Resolved::Select(left_query(alloc, guard, query)?),
        Resolved::MarkReplicated(mark) => Resolved::MarkReplicated(left_mark(alloc, guard, mark)?),
        Resolved::Insert(insert) => Resolved::Insert(left_insert(alloc, guard, insert)?),
        Resolved::Update(update) => Resolved::Update(left_update(alloc, guard, update)?),
        Resolved::Delete(delete) => Resolved::Delete(left_delete(alloc, guard, delete)?),
        Resolved::Create(create) => Resolved::Create(copy_create(alloc, create)?),
        Resolved::Alter(alter) => Resolved::Alter(copy_alter(alloc, alter)?),
        Resolved::Begin => Resolved::Begin,
        Resolved::Commit => Resolved::Commit,
        Resolved::Rollback => Resolved::Rollback,
    })
}

/// A statement whose names are resolved, as it is carried out: what the authorizer leaves of it.
///
/// # Errors
/// `Denied` with the first question that is denied; `Memory` where there is none for that question or for what is left.
pub fn permitted<G: Answering>(
    alloc: Global,
    guard: &G,
    statement: &Resolved,
) -> Result<Resolved, Refusal>
    requires { G.is_faithful guard.now }
    ensures { Resolves result (or_allowed (G.answers guard.now) statement.now (first_denied (G.answers guard.now) (questions statement.now))) }
{
    match denied(guard, statement) {
        Some(question) => Err(Refusal::Denied(question.copy(alloc)?)),
        None => Ok(left_of(alloc, guard, statement)?),
    }
}
