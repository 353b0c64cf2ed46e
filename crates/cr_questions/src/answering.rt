//! Who answers the questions of a statement.

ghost use Rattle.std.specs.Prelude.{◌≡◌};

use cr_host::meaning::{Action, Auth};

/// Whoever answers questions. It is asked by this alone; what it answers does not change what it answers next.
pub trait Answering {
    ghost use Rattle.cr_questions.specs.Questions.{Answers};

    /// It answers as `answers` says.
    ghost is_faithful: { Self → Type 0 };

    /// What it answers of an action and its two texts.
    ghost answers: { Self → Answers };

    /// What it answers of an action and its two texts, of which the empty text stands for one that the action lacks.
    fn answer(&self, action: Action, a: &str, b: &str) -> Auth
        requires { is_faithful self.now }
        ensures { result ≡ answers self.now action a.now b.now };
}
