//! What a session tells its host's listener: which rows changes make appear, go or show other values, before they are kept.

ghost use Rattle.std.specs.Prelude.{IfErr, OnOk};
ghost use Rattle.cr_cells.specs.Tables.{AreWellFormed};
ghost use Rattle.cr_world.specs.Causes.{IsWant};

use crate::session::Session;
use cr_cells::store::{Cells, StoreFault};
use cr_cells::tables::check_all;
use cr_guard::event::Event;
use cr_guard::guarding::Guarding;
use cr_heard::heard::heard_of_keys;
use cr_heard::keys::touched;
use cr_heard::touched::Touched;
use cr_lattice::change::Change;
use cr_lattice::check::CheckError;
use cr_lattice::table::Table;
use cr_script::speaking::Watching;
use cr_world::refusal::Refusal;
use std::alloc::Global;

// Changes that are told of were checked: where they are not well formed now, the store is not as it was a moment ago.
fn check_changes(alloc: Global, tables: &[Table], changes: &[Change]) -> Result<(), Refusal>
    ensures ok { OnOk result (AreWellFormed tables.now changes.now) }
    ensures err { IfErr result IsWant }
{
    match check_all(alloc, tables, changes) {
        Ok(()) => Ok(()),
        Err(CheckError::Memory) => Err(Refusal::Memory),
        Err(CheckError::Bad(_)) => Err(Refusal::Store(StoreFault::Refused)),
    }
}

impl<C: Cells> Session<C> {
    ghost use Rattle.std.specs.Prelude.{◌≡◌, [], ◌∷◌};
    ghost use Rattle.cr_cells.specs.Holding.{IsSound};
    ghost use Rattle.cr_session.specs.Listening.{FindsEvents, TellsListener};
    ghost use Rattle.cr_session.specs.Sessions.{clean, honest, standing};

    // What a listener hears of some keys of a table where these changes come in.
    fn events_of(
        &mut self,
        alloc: Global,
        touched: &Touched,
        changes: &[Change],
    ) -> Result<Vec<Event>, Refusal>
        requires sound { C.is_clean self.old.0 → IsSound (C.holding self.old.0) }
        ensures finds { FindsEvents (λ v. v.items) (honest C.is_honest) (clean C.is_clean) (standing C.holding) self.old (touched.now ∷ []) changes.now result self.new }
        ensures pending { self.new.1 ≡ self.old.1 }
    {
        let table = touched.definition.name.as_str();
        let kept = match self.see_keys(alloc, table, touched.keys.as_slice()) {
            Ok(kept) => kept,
            Err(error) => return Err(Refusal::from(error)),
        };
        match heard_of_keys(alloc, touched, &kept, changes)? {
            Some(events) => Ok(events),
            // The rows of a store as it was made stand by their keys.
            None => Err(Refusal::Store(StoreFault::Refused)),
        }
    }

    // The same of the keys of several tables.
    fn events(
        &mut self,
        alloc: Global,
        touched: &[Touched],
        changes: &[Change],
    ) -> Result<Vec<Event>, Refusal>
        requires sound { C.is_clean self.old.0 → IsSound (C.holding self.old.0) }
        ensures finds { FindsEvents (λ v. v.items) (honest C.is_honest) (clean C.is_clean) (standing C.holding) self.old touched.now changes.now result self.new }
        ensures pending { self.new.1 ≡ self.old.1 }
    {
        let mut events = Vec::new(alloc);
        for keys in touched {
            let mut more = match self.events_of(alloc, keys, changes) {
                Ok(more) => more,
                Err(refusal) => return Err(refusal),
            };
            events.append(&mut more)?;
        }
        Ok(events)
    }

    /// Tells the listener, where there is one, what these changes make of the rows that show; a session stays where it stands.
    ///
    /// # Errors
    /// `Memory`, or `Store(Refused)`; then the listener has heard nothing.
    pub(crate) fn tell<G: Guarding>(
        &mut self,
        alloc: Global,
        guard: &mut G,
        changes: &[Change],
    ) -> Result<(), Refusal>
        requires { G.is_faithful guard.old }
        ensures tells { TellsListener (honest C.is_honest) (clean C.is_clean) (standing C.holding) (⟦<G as Watching>⟧.hears guard.old guard.new) self.old changes.now result self.new }
        ensures guard { ⟦<G as Watching>⟧.stays guard.old guard.new }
        ensures pending { self.new.1 ≡ self.old.1 }
    {
        if !guard.listens() {
            return Ok(());
        }
        let names = match self.names(alloc) {
            Ok(names) => names,
            Err(error) => return Err(Refusal::from(error)),
        };
        let tables = names.tables.as_slice();
        if !self.is_of(tables) {
            return Err(Refusal::Store(StoreFault::Refused));
        }
        check_changes(alloc, tables, changes)?;
        let touched = touched(alloc, tables, changes)?;
        let events = match self.events(alloc, &touched, changes) {
            Ok(events) => events,
            Err(refusal) => return Err(refusal),
        };
        guard.tell(&events)?;
        Ok(())
    }
}
