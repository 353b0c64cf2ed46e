//! Questions that the authorizer ignores. Takes no memory.

ghost use Rattle.std.specs.Prelude.{◌≡◌};
ghost use Rattle.cr_questions.specs.Questions.{ignored};
ghost use Rattle.cr_questions.specs.Asked.{told};

use cr_host::meaning::Auth;
use cr_questions::answering::Answering;
use cr_questions::question::Asked;

// Whether the authorizer ignores what it is asked.
pub(crate) fn is_ignored<G: Answering>(guard: &G, question: Asked<'_>) -> bool
    requires { G.is_faithful guard.now }
    ensures { result ≡ ignored (G.answers guard.now) (told question.entry) }
{
    match guard.answer(question.action, question.a, question.b) {
        Auth::Ignore => true,
        Auth::Ok | Auth::Deny => false,
    }
}
