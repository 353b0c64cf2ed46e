//! The mark of a table, `SELECT crsql_as_crr('t')`.

ghost use Rattle.std.specs.Prelude.{◌≡◌, IfOk};
ghost use Rattle.std.specs.Option.{option_map};
ghost use Rattle.cr_term.specs.declared.query.Resolved.TheVariants as r;
ghost use Rattle.cr_questions.specs.Questions.{first_denied, left_of, questions};
ghost use Rattle.cr_questions.specs.Asked.{told};

use crate::asking::is_ignored;
use cr_build::copy::copy_relation;
use cr_host::meaning::Action;
use cr_questions::answering::Answering;
use cr_questions::asked::call_of;
use cr_questions::denied::or_question_denied;
use cr_questions::question::Asked;
use cr_term::query::MarkReplicated;
use std::alloc::{AllocError, Global};

/// The first question of the mark of a table that is denied: about the SELECT, and the call of `crsql_as_crr`.
pub fn mark_denied<G: Answering>(guard: &G, mark: &MarkReplicated) -> Option<Asked<'static>>
    requires { G.is_faithful guard.now }
    ensures { option_map told result ≡ first_denied (G.answers guard.now) (questions (r.MarkReplicated mark.now)) }
{
    let question = Asked {
        action: Action::Select,
        a: "",
        b: "",
    };
    let found = or_question_denied(None, guard, question);
    or_question_denied(found, guard, call_of("crsql_as_crr"))
}

/// What is left of the mark of a table: whether the authorizer ignores the call.
///
/// # Errors
/// Where memory runs out.
pub fn left_mark<G: Answering>(
    alloc: Global,
    guard: &G,
    mark: &MarkReplicated,
) -> Result<MarkReplicated, AllocError>
    requires { G.is_faithful guard.now }
    ensures { IfOk result (λ m. r.MarkReplicated m ≡ left_of (G.answers guard.now) (r.MarkReplicated mark.now)) }
{
    let is_ignored = is_ignored(guard, call_of("crsql_as_crr"));
    let relation = copy_relation(alloc, &mark.relation)?;
    Ok(MarkReplicated {
        relation,
        is_ignored,
    })
}
