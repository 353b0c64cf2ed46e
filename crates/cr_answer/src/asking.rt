//! A session's guard as it answers the questions of a statement.

use cr_guard::guarding::Guarding;
use cr_host::meaning::{Action, Auth};
use cr_questions::answering::Answering;

/// A guard, whose policy and authorizer answer.
#[derive(Drop)]
pub struct Asking<'a, G> {
    pub guard: &'a G,
}

impl<G: Guarding> Answering for Asking<'_, G> {
    ghost use Rattle.cr_guard.specs.Guard.{asked};

    ghost is_faithful = { λ a. G.is_faithful a.guard.now };

    ghost answers = { λ a. asked (G.rules a.guard.now) (G.allows a.guard.now) };

    fn answer(&self, action: Action, a: &str, b: &str) -> Auth {
        self.guard.ask(action, a, b)
    }
}
