//! DELETE.

ghost use Rattle.std.specs.Prelude.{◌≡◌, IfOk};
ghost use Rattle.std.specs.Option.{option_map};
ghost use Rattle.cr_term.specs.declared.query.Resolved.TheVariants as r;
ghost use Rattle.cr_questions.specs.Questions.{first_denied, left_of, questions};
ghost use Rattle.cr_questions.specs.Asked.{told};

use cr_allowed::left::left_all;
use cr_build::copy::copy_relation;
use cr_host::meaning::Action;
use cr_questions::answering::Answering;
use cr_questions::denied::{or_any_denied, or_question_denied};
use cr_questions::question::Asked;
use cr_questions::sources::Sources;
use cr_term::query::Delete;
use std::alloc::{AllocError, Global};

/// The first question of a DELETE that is denied: about the DELETE, and the columns and calls in WHERE. It asks none behind it,
/// which no clause can say.
#[tactic(auto, using(crate::proofs::InOrder::delete_from))]
pub fn delete_denied<'a, G: Answering>(guard: &G, delete: &'a Delete) -> Option<Asked<'a>>
    requires { G.is_faithful guard.now }
    ensures { option_map told result ≡ first_denied (G.answers guard.now) (questions (r.Delete delete.now)) }
{
    let relation = &delete.relation;
    let question = Asked {
        action: Action::Delete,
        a: relation.definition.name.as_str(),
        b: "",
    };
    let found = or_question_denied(None, guard, question);
    or_any_denied(
        found,
        guard,
        Sources::One(relation),
        delete.filter.as_slice(),
    )
}

/// What is left of a DELETE: NULL in the place of each column and each call that the authorizer ignores. It does not ignore
/// a DELETE as such.
///
/// # Errors
/// Where memory runs out.
pub fn left_delete<G: Answering>(
    alloc: Global,
    guard: &G,
    delete: &Delete,
) -> Result<Delete, AllocError>
    requires { G.is_faithful guard.now }
    ensures { IfOk result (λ d. r.Delete d ≡ left_of (G.answers guard.now) (r.Delete delete.now)) }
{
    let relation = copy_relation(alloc, &delete.relation)?;
    let filter = left_all(
        alloc,
        guard,
        Sources::One(&delete.relation),
        delete.filter.as_slice(),
    )?;
    Ok(Delete { relation, filter })
}
