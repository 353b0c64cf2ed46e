//! BEGIN, COMMIT and ROLLBACK, of which IGNORE takes nothing.

ghost use Rattle.std.specs.Prelude.{◌≡◌, ◌∷◌, []};
ghost use Rattle.std.specs.Option.{option_map};
ghost use Rattle.cr_host.specs.declared.meaning.Action.TheVariants as action;
ghost use Rattle.cr_term.specs.declared.query.Resolved.TheVariants as r;
ghost use Rattle.cr_questions.specs.Questions.{ask, first_denied, questions};
ghost use Rattle.cr_questions.specs.Asked.{told};

use cr_host::meaning::Action;
use cr_questions::answering::Answering;
use cr_questions::denied::or_question_denied;
use cr_questions::question::Asked;

// The question about a change of transactions, if it is denied.
#[tactic(auto, using(crate::proofs::InOrder::from_nothing))]
fn transaction_denied<'a, G: Answering>(guard: &G, word: &'a str) -> Option<Asked<'a>>
    requires { G.is_faithful guard.now }
    ensures { option_map told result ≡ first_denied (G.answers guard.now) (ask action.Transaction word.now [] ∷ []) }
{
    let question = Asked {
        action: Action::Transaction,
        a: word,
        b: "",
    };
    or_question_denied(None, guard, question)
}

/// The question about a BEGIN, if it is denied.
pub fn begin_denied<G: Answering>(guard: &G) -> Option<Asked<'static>>
    requires { G.is_faithful guard.now }
    ensures { option_map told result ≡ first_denied (G.answers guard.now) (questions r.Begin) }
{
    transaction_denied(guard, "BEGIN")
}

/// The question about a COMMIT, if it is denied.
pub fn commit_denied<G: Answering>(guard: &G) -> Option<Asked<'static>>
    requires { G.is_faithful guard.now }
    ensures { option_map told result ≡ first_denied (G.answers guard.now) (questions r.Commit) }
{
    transaction_denied(guard, "COMMIT")
}

/// The question about a ROLLBACK, if it is denied.
pub fn rollback_denied<G: Answering>(guard: &G) -> Option<Asked<'static>>
    requires { G.is_faithful guard.now }
    ensures { option_map told result ≡ first_denied (G.answers guard.now) (questions r.Rollback) }
{
    transaction_denied(guard, "ROLLBACK")
}
