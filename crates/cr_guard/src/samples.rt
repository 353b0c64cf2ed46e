//! An authorizer, a commit hook and a listener that a host may set.

ghost use Rattle.std.specs.Prelude.{◌≡◌, [], IfOk};
ghost use Rattle.cr_guard.specs.Samples.{denies_names, refuses_over_two, notes};

use crate::action::{Action, Auth};
use crate::event::Event;
use crate::listener::Listener;
use cr_lattice::change::Change;
use std::alloc::{AllocError, Global};

/// Denies READ of the column `name` of the table `t`, and nothing else.
pub fn denies_names(action: Action, a: &str, b: &str) -> Auth
    ensures { result ≡ denies_names action a.now b.now }
{
    if action == Action::Read && a == "t" && b == "name" {
        Auth::Deny
    } else {
        Auth::Ok
    }
}

/// Refuses commits of more than two changes.
pub fn refuses_over_two(changes: &[Change]) -> bool
    ensures { result ≡ refuses_over_two changes.now }
{
    changes.len() > 2
}

/// A listener that keeps what it heard, one list after the other.
#[derive(Drop)]
pub struct Notes {
    alloc: Global,
    events: Vec<Event>,
}

impl Notes {
    /// Notes of nothing.
    pub fn new(alloc: Global) -> Self
        ensures { notes result ≡ [] }
    {
        Notes {
            alloc,
            events: Vec::new(alloc),
        }
    }

    /// What it heard.
    pub fn events(&self) -> &[Event]
        ensures { result.now ≡ notes self.now }
    {
        self.events.as_slice()
    }
}

fn copies(alloc: Global, events: &[Event]) -> Result<Vec<Event>, AllocError>
    ensures { IfOk result (λ v. v.items ≡ events.now) }
{
    let mut out = Vec::new(alloc);
    for event in events {
        out.push(event.copy(alloc)?)?;
    }
    Ok(out)
}

impl Listener for Notes {
    ghost use Rattle.std.specs.Prelude.{◌++◌};
    ghost use Rattle.cr_guard.specs.Samples.{notes};

    ghost noted = { notes };

    ghost noting = { λ n was events. was ++ events };

    fn hear(&mut self, events: &[Event]) -> Result<(), AllocError> {
        let mut heard = copies(self.alloc, events)?;
        self.events.append(&mut heard)
    }
}
