//! A host's authorizer, policy, commit hook and listener.

ghost use Rattle.std.specs.Prelude.{◌≡◌, None, Some};
ghost use Rattle.cr_guard.specs.Closures.{AllowsAs, VetoesAs};
ghost use Rattle.cr_guard.specs.Policy.{no_rules};
ghost use Rattle.cr_guard.specs.Guard.{rules, authorizer, commit_hook, listener};

use crate::closures::{Authorizer, AuthorizerFn, CommitHook, CommitHookFn};
use crate::guarding::Guarding;
use crate::listener::Listener;
use crate::policy::Policy;
use cr_host::meaning::HostMeaning;
use std::alloc::Global;
use std::marker::PhantomData;

/// What a host put between a session and itself.
#[derive(Drop)]
pub struct Guard<H> {
    pub(crate) policy: Policy,
    pub(crate) authorizer: Option<Authorizer<H>>,
    pub(crate) commit_hook: Option<CommitHook<H>>,
    pub(crate) listener: Option<Box<dyn Listener>>,
}

impl<H: HostMeaning> Guard<H> {
    /// A guard that allows everything and tells nobody.
    pub fn new(alloc: Global) -> Self
        ensures rules { rules result ≡ no_rules }
        ensures authorizer { authorizer result ≡ None }
        ensures commit_hook { commit_hook result ≡ None }
        ensures listener { listener result ≡ None }
        ensures faithful { ⟦<Guard<H> as Guarding>⟧.is_faithful result }
    {
        Guard {
            policy: Policy::new(alloc),
            authorizer: None,
            commit_hook: None,
            listener: None,
        }
    }

    /// Sets the authorizer, in place of an earlier one. "Compile-Time Authorization Callbacks" of SQLite's C interface.
    pub fn set_authorizer(&mut self, number: u32, answer: AuthorizerFn)
        requires answers { AllowsAs (AuthorizerFn.pre answer) (AuthorizerFn.post answer) (H.allows number) }
        requires faithful { ⟦<Guard<H> as Guarding>⟧.is_faithful self.old }
        ensures authorizer { authorizer self.new ≡ Some number }
        ensures rules { rules self.new ≡ rules self.old }
        ensures commit_hook { commit_hook self.new ≡ commit_hook self.old }
        ensures listener { listener self.new ≡ listener self.old }
        ensures faithful { ⟦<Guard<H> as Guarding>⟧.is_faithful self.new }
    {
        self.authorizer = Some(Authorizer {
            number,
            answer,
            host: PhantomData,
        });
    }

    /// Takes the authorizer out, where there is one.
    pub fn clear_authorizer(&mut self)
        requires faithful { ⟦<Guard<H> as Guarding>⟧.is_faithful self.old }
        ensures authorizer { authorizer self.new ≡ None }
        ensures rules { rules self.new ≡ rules self.old }
        ensures commit_hook { commit_hook self.new ≡ commit_hook self.old }
        ensures listener { listener self.new ≡ listener self.old }
        ensures faithful { ⟦<Guard<H> as Guarding>⟧.is_faithful self.new }
    {
        self.authorizer = None;
    }

    /// Sets the commit hook, in place of an earlier one. "Commit And Rollback Notification Callbacks" of SQLite's C
    /// interface.
    pub fn set_commit_hook(&mut self, number: u32, refuses: CommitHookFn)
        requires answers { VetoesAs (CommitHookFn.pre refuses) (CommitHookFn.post refuses) (H.vetoes number) }
        requires faithful { ⟦<Guard<H> as Guarding>⟧.is_faithful self.old }
        ensures commit_hook { commit_hook self.new ≡ Some number }
        ensures rules { rules self.new ≡ rules self.old }
        ensures authorizer { authorizer self.new ≡ authorizer self.old }
        ensures listener { listener self.new ≡ listener self.old }
        ensures faithful { ⟦<Guard<H> as Guarding>⟧.is_faithful self.new }
    {
        self.commit_hook = Some(CommitHook {
            number,
            refuses,
            host: PhantomData,
        });
    }

    /// Takes the commit hook out, where there is one.
    pub fn clear_commit_hook(&mut self)
        requires faithful { ⟦<Guard<H> as Guarding>⟧.is_faithful self.old }
        ensures commit_hook { commit_hook self.new ≡ None }
        ensures rules { rules self.new ≡ rules self.old }
        ensures authorizer { authorizer self.new ≡ authorizer self.old }
        ensures listener { listener self.new ≡ listener self.old }
        ensures faithful { ⟦<Guard<H> as Guarding>⟧.is_faithful self.new }
    {
        self.commit_hook = None;
    }

    /// Sets the listener, in place of an earlier one.
    pub fn set_listener(&mut self, hears: Box<dyn Listener>)
        requires faithful { ⟦<Guard<H> as Guarding>⟧.is_faithful self.old }
        ensures listener { listener self.new ≡ Some hears }
        ensures rules { rules self.new ≡ rules self.old }
        ensures authorizer { authorizer self.new ≡ authorizer self.old }
        ensures commit_hook { commit_hook self.new ≡ commit_hook self.old }
        ensures faithful { ⟦<Guard<H> as Guarding>⟧.is_faithful self.new }
    {
        self.listener = Some(hears);
    }

    /// Hands the listener back, where there is one.
    pub fn take_listener(&mut self) -> Option<Box<dyn Listener>>
        requires faithful { ⟦<Guard<H> as Guarding>⟧.is_faithful self.old }
        ensures taken { result ≡ listener self.old }
        ensures listener { listener self.new ≡ None }
        ensures rules { rules self.new ≡ rules self.old }
        ensures authorizer { authorizer self.new ≡ authorizer self.old }
        ensures commit_hook { commit_hook self.new ≡ commit_hook self.old }
        ensures faithful { ⟦<Guard<H> as Guarding>⟧.is_faithful self.new }
    {
        self.listener.take()
    }
}
