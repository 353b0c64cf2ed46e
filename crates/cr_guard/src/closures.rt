//! Closures of a host beside the number of their definition.

ghost use Rattle.std.specs.Prelude.{◌≡◌};
ghost use Rattle.cr_guard.specs.Closures.{AllowsAs, VetoesAs};

use crate::action::{Action, Auth};
use cr_host::meaning::HostMeaning;
use cr_lattice::change::Change;
use std::marker::PhantomData;

/// What an authorizer answers of an action and its two arguments.
pub type AuthorizerFn = Box<dyn Fn(Action, &str, &str) -> Auth>;

/// Whether a commit hook refuses the changes of a commit.
pub type CommitHookFn = Box<dyn Fn(&[Change]) -> bool>;

/// An authorizer of a host.
#[derive(Drop)]
pub struct Authorizer<H> {
    pub number: u32,
    pub answer: AuthorizerFn,
    pub host: PhantomData<H>,
}

impl<H: HostMeaning> Authorizer<H> {
    /// What the authorizer answers, as its definition says.
    pub fn answer(&self, action: Action, a: &str, b: &str) -> Auth
        requires { AllowsAs (AuthorizerFn.pre self.now.answer) (AuthorizerFn.post self.now.answer) (H.allows self.now.number) }
        ensures { result ≡ H.allows self.now.number action a.now b.now }
    {
        (self.answer)(action, a, b)
    }
}

/// A commit hook of a host.
#[derive(Drop)]
pub struct CommitHook<H> {
    pub number: u32,
    pub refuses: CommitHookFn,
    pub host: PhantomData<H>,
}

impl<H: HostMeaning> CommitHook<H> {
    /// Whether the hook refuses the changes, as its definition says.
    pub fn refuses(&self, changes: &[Change]) -> bool
        requires { VetoesAs (CommitHookFn.pre self.now.refuses) (CommitHookFn.post self.now.refuses) (H.vetoes self.now.number) }
        ensures { result ≡ H.vetoes self.now.number changes.now }
    {
        (self.refuses)(changes)
    }
}
