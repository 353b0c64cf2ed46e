//! What a listener hears.

use cr_guard::event::Event;
use cr_guard::guard::Guard;
use cr_guard::guarding::Guarding;
use cr_guard::heard::{TableRows, have_rows_by_key, heard_of_tables};
use cr_guard::listener::Listener;
use cr_guard::samples::Notes;
use cr_host::meaning::HostMeaning;
use cr_lattice::table::Items;
use cr_told::reading::{T, definition, rows_of};
use std::alloc::{AllocError, Global};
use std::cell::RefCell;
use std::rc::Rc;
use std::test::Fail;

struct Host;

impl HostMeaning for Host {
    ghost use Rattle.std.specs.Prelude.{length, [], Err};
    ghost use Rattle.std.specs.Cmp.{on_total, nat_cmp_total};
    ghost use Rattle.cr_host.specs.Samples.{bylen};
    ghost use Rattle.cr_guard.specs.Samples.{denies_names, refuses_over_two};

    ghost scalar = { λ n args. Err [] };

    ghost step = { λ n held row. Err [] };

    ghost finish = { λ n held. Err [] };

    ghost order = { λ _. bylen };

    ghost order_total = { λ _. on_total length nat_cmp_total };

    ghost allows = { λ _. denies_names };

    ghost vetoes = { λ _. refuses_over_two };
}

// A listener that writes where its host can read. A contract knows nothing of what a cell holds, so it notes nothing.
#[derive(Drop)]
struct Shared {
    notes: Rc<RefCell<Notes>>,
}

impl Listener for Shared {
    ghost use Rattle.std.specs.Prelude.{[]};

    ghost noted = { λ s. [] };

    ghost noting = { λ s was events. [] };

    fn hear(&mut self, events: &[Event]) -> Result<(), AllocError> {
        match self.notes.try_borrow_mut() {
            Ok(mut notes) => notes.hear(events),
            Err(_) => Err(AllocError),
        }
    }
}

// The codes and the last bytes of the keys of what was noted.
fn told_events(alloc: Global, notes: &Rc<RefCell<Notes>>) -> Result<Vec<(u8, Option<u8>)>, Fail> {
    let Ok(notes) = notes.try_borrow() else {
        return Err(Fail::from("in use"));
    };
    let mut told = Vec::new(alloc);
    for event in notes.events() {
        told.push((event.kind.code(), event.pk.as_slice().last().copied()))?;
    }
    Ok(told)
}

// What is heard of `t`, whose rows were those before and are those after.
fn heard(alloc: Global, before: &str, after: &str) -> Result<Vec<Event>, Fail> {
    let table = TableRows {
        definition: definition(alloc, "t", T)?,
        before: Items::new(rows_of(alloc, before)?),
        after: Items::new(rows_of(alloc, after)?),
    };
    let tables = [table];
    if !have_rows_by_key(alloc, &tables)? {
        return Err(Fail::from("no rows by key"));
    }
    Ok(heard_of_tables(alloc, &tables)?)
}

// One goes, one shows another value, one appears.
const EVENTS: &[(u8, Option<u8>)] = &[(9, Some(1)), (23, Some(2)), (18, Some(3))];

#[test]
fn a_listener_hears_what_became_of_rows(rt: HostRuntime) -> Result<(), Fail> {
    let alloc = rt.alloc();
    let notes = Rc::new(alloc, RefCell::new(Notes::new(alloc)))?;
    let listener: Box<dyn Listener> = Box::new(
        alloc,
        Shared {
            notes: notes.clone()?,
        },
    )?;
    let mut guard: Guard<Host> = Guard::new(alloc);
    guard.set_listener(listener);
    let events = heard(alloc, "1|'a' / 2|'b'", "2|'a' / 3|'b'")?;
    guard.tell(&events)?;
    guard.tell(&heard(alloc, "1|'a'", "1|'a'")?)?;
    let told = told_events(alloc, &notes)?;
    assert!(rt; told.as_slice() == EVENTS);
    assert!(rt; guard.take_listener().is_some());
    guard.tell(&events)?;
    assert_eq!(rt; told_events(alloc, &notes)?.len(), 3);
    assert!(rt; guard.take_listener().is_none());
    Ok(())
}
