//! What the layers above ask of a host's authorizer, policy, commit hook and listener.

ghost use Rattle.std.specs.Prelude.{◌≡◌, [], false, None, is_some, IsOk, OnOk, OnErr};
ghost use Rattle.cr_guard.specs.Policy.{wants_memory, with_rule};
ghost use Rattle.cr_guard.specs.Guard.{asked, vetoed};
ghost use Rattle.cr_guard.specs.Run.{noted_with};

use crate::action::{Action, Auth, stricter};
use crate::closures::{AuthorizerFn, CommitHookFn};
use crate::event::Event;
use crate::guard::Guard;
use crate::listener::Listener;
use crate::policy::{Policy, PolicyRule};
use cr_host::meaning::HostMeaning;
use cr_lattice::change::Change;
use std::alloc::{AllocError, Global};

/// What may be done, what may be committed, and who hears of it. What stands above knows it by this alone, and hands on
/// the fact `is_faithful` of the one that it is given.
pub trait Guarding {
    ghost use Rattle.std.specs.Prelude.{◌≡◌, ℕ, List, Bool, Option};
    ghost use Rattle.cr_lattice.specs.declared.change.Change.{Change};
    ghost use Rattle.cr_host.specs.declared.meaning.Action.{Action};
    ghost use Rattle.cr_host.specs.declared.meaning.Auth.{Auth};
    ghost use Rattle.cr_guard.specs.declared.event.Event.{Event};
    ghost use Rattle.cr_guard.specs.Policy.{Rules};

    /// Each closure answers as the definition of its number says.
    ghost is_faithful: { Self → Type 0 };

    /// The policy.
    ghost rules: { Self → Rules };

    /// What the authorizer answers, which is OK where there is none.
    ghost allows: { Self → Action → List ℕ → List ℕ → Auth };

    /// Whether the commit hook refuses changes; false where there is none.
    ghost refuses: { Self → List Change → Bool };

    /// What the listener has noted, where there is one.
    ghost noted: { Self → Option (List Event) };

    /// What the listener has noted once it heard events at once, by what it had noted before.
    ghost noting: { Self → List Event → List Event → List Event };

    /// Adds a rule to the policy, which takes the place of an earlier one of its kind and column. Refused for want of
    /// memory, it changes nothing; a rule that answers OK, and a number of changes, want none. This project's own.
    fn policy(&mut self, alloc: Global, rule: &PolicyRule) -> Result<(), AllocError>
        requires { is_faithful self.old }
        ensures ok { OnOk result (rules self.new ≡ with_rule rule.now (rules self.old)) }
        ensures err { OnErr result (rules self.new ≡ rules self.old) }
        ensures free { wants_memory rule.now ≡ false → IsOk result }
        ensures allows { allows self.new ≡ allows self.old }
        ensures refuses { refuses self.new ≡ refuses self.old }
        ensures noted { noted self.new ≡ noted self.old }
        ensures noting { noting self.new ≡ noting self.old }
        ensures faithful { is_faithful self.new };

    /// Whether an action may be done: DENY where rule or authorizer denies, else IGNORE where one ignores, else OK. An
    /// argument that an action lacks is the empty text. Always answers, and takes no memory of its own.
    fn ask(&self, action: Action, a: &str, b: &str) -> Auth
        requires { is_faithful self.now }
        ensures { result ≡ asked (rules self.now) (allows self.now) action a.now b.now };

    /// Whether a commit of these changes is refused: there are more of them than the policy's number, or the commit hook
    /// refuses them. A commit without changes never is, and the hook isn't called for it. Always answers, and takes no
    /// memory of its own.
    fn vetoes(&self, changes: &[Change]) -> bool
        requires { is_faithful self.now }
        ensures { result ≡ vetoed (rules self.now) (refuses self.now) changes.now };

    /// Whether there is a listener. Always answers.
    fn listens(&self) -> bool
        requires { is_faithful self.now }
        ensures { result ≡ is_some (noted self.now) };

    /// Tells the listener of all of the events at once; of none it isn't told. Refused for want of memory, it has heard
    /// none of them.
    fn tell(&mut self, events: &[Event]) -> Result<(), AllocError>
        requires { is_faithful self.old }
        ensures ok { OnOk result (noted self.new ≡ noted_with (noting self.old) (noted self.old) events.now) }
        ensures none { events.now ≡ [] → IsOk result × (self.new ≡ self.old) }
        ensures nobody { noted self.old ≡ None → IsOk result × (self.new ≡ self.old) }
        ensures err { OnErr result (noted self.new ≡ noted self.old) }
        ensures noting { noting self.new ≡ noting self.old }
        ensures rules { rules self.new ≡ rules self.old }
        ensures allows { allows self.new ≡ allows self.old }
        ensures refuses { refuses self.new ≡ refuses self.old }
        ensures faithful { is_faithful self.new };
}

impl<H: HostMeaning> Guarding for Guard<H> {
    ghost use Rattle.std.specs.Prelude.{IfSome};
    ghost use Rattle.std.specs.Option.{option_map, option_map_or};
    ghost use Rattle.cr_guard.specs.Closures.{AllowsAs, VetoesAs};
    ghost use Rattle.cr_guard.specs.Guard.{rules, authorizer, commit_hook, listener, allowed_by, refused_by};

    ghost is_faithful = { λ g. IfSome g.authorizer (λ a. AllowsAs (AuthorizerFn.pre a.answer) (AuthorizerFn.post a.answer) (H.allows a.number))
        × IfSome g.commit_hook (λ h. VetoesAs (CommitHookFn.pre h.refuses) (CommitHookFn.post h.refuses) (H.vetoes h.number)) };

    ghost rules = { rules };

    ghost allows = { λ g. allowed_by H.allows (authorizer g) };

    ghost refuses = { λ g. refused_by H.vetoes (commit_hook g) };

    ghost noted = { λ g. option_map (λ l. (Listener-box l).noted l.value) (listener g) };

    ghost noting = { λ g. option_map_or (λ l. (Listener-box l).noting l.value) (listener g) (λ was events. was) };

    fn policy(&mut self, alloc: Global, rule: &PolicyRule) -> Result<(), AllocError> {
        self.policy.set(alloc, rule)
    }

    fn ask(&self, action: Action, a: &str, b: &str) -> Auth {
        let ruled = self.policy.answer(action, a, b);
        match &self.authorizer {
            Some(authorizer) => stricter(ruled, authorizer.answer(action, a, b)),
            None => ruled,
        }
    }

    fn vetoes(&self, changes: &[Change]) -> bool {
        if changes.is_empty() {
            return false;
        }
        if self.policy.refuses(changes.len()) {
            return true;
        }
        match &self.commit_hook {
            Some(hook) => hook.refuses(changes),
            None => false,
        }
    }

    fn listens(&self) -> bool {
        self.listener.is_some()
    }

    fn tell(&mut self, events: &[Event]) -> Result<(), AllocError> {
        if events.is_empty() {
            return Ok(());
        }
        match self.listener.take() {
            Some(mut listener) => {
                let heard = listener.hear(events);
                self.listener = Some(listener);
                heard
            }
            None => Ok(()),
        }
    }
}

/// A policy alone, without authorizer, commit hook and listener.
impl Guarding for Policy {
    ghost use Rattle.std.specs.Prelude.{None, false};
    ghost use Rattle.cr_host.specs.declared.meaning.Auth.TheVariants.{Ok as Allowed};

    ghost is_faithful = { λ p. Unit {0} };

    ghost rules = { λ p. p };

    ghost allows = { λ p action a b. Allowed };

    ghost refuses = { λ p changes. false };

    ghost noted = { λ p. None };

    ghost noting = { λ p was events. was };

    fn policy(&mut self, alloc: Global, rule: &PolicyRule) -> Result<(), AllocError> {
        self.set(alloc, rule)
    }

    fn ask(&self, action: Action, a: &str, b: &str) -> Auth {
        self.answer(action, a, b)
    }

    fn vetoes(&self, changes: &[Change]) -> bool {
        !changes.is_empty() && self.refuses(changes.len())
    }

    fn listens(&self) -> bool {
        false
    }

    fn tell(&mut self, _events: &[Event]) -> Result<(), AllocError> {
        Ok(())
    }
}
