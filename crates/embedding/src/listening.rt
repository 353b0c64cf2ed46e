//! The host's listener, which writes what it hears where the host can read it.

use cr_guard::event::Event;
use cr_guard::listener::Listener;
use cr_guard::samples::Notes;
use cr_host::meaning::HostMeaning;
use cr_value::literal::literal_text;
use cr_value::value::Value;
use std::alloc::{AllocError, Global};
use std::cell::RefCell;
use std::io::{self, Write};
use std::rc::Rc;

/// What the closures of this host mean: it has none.
pub struct Silent;

impl HostMeaning for Silent {
    ghost use Rattle.std.specs.Prelude.{length, [], Err, false};
    ghost use Rattle.std.specs.Cmp.{on_total, nat_cmp_total};
    ghost use Rattle.cr_host.specs.Samples.{bylen};
    ghost use Rattle.cr_host.specs.declared.meaning.Auth.TheVariants.{Ok as Allowed};

    ghost scalar = { λ n args. Err [] };

    ghost step = { λ n held row. Err [] };

    ghost finish = { λ n held. Err [] };

    ghost order = { λ _. bylen };

    ghost order_total = { λ _. on_total length nat_cmp_total };

    ghost allows = { λ n action a b. Allowed };

    ghost vetoes = { λ n changes. false };
}

/// Notes what is heard where its host can read it. A contract knows nothing of what a cell holds, so for contracts it notes nothing.
#[derive(Drop)]
pub struct Shared {
    pub notes: Rc<RefCell<Notes>>,
}

impl Listener for Shared {
    ghost use Rattle.std.specs.Prelude.{[]};

    ghost noted = { λ s. [] };

    ghost noting = { λ s was events. [] };

    fn hear(&mut self, events: &[Event]) -> Result<(), AllocError> {
        match self.notes.try_borrow_mut() {
            Ok(mut notes) => notes.hear(events),
            Err(_) => Err(AllocError),
        }
    }
}

/// Prints what was heard since the last time, an event a line, and forgets it.
pub fn print_heard<W: Write>(
    alloc: Global,
    notes: &Rc<RefCell<Notes>>,
    out: &mut W,
) -> io::Result<()> {
    let Ok(mut notes) = notes.try_borrow_mut() else {
        return Ok(());
    };
    for event in notes.events() {
        let pk = literal_text(alloc, &Value::Blob(event.pk.copy(alloc)?))?;
        writeln!(
            out,
            "heard {} {} {}",
            event.kind.code(),
            event.table.as_str(),
            pk.as_str()
        )?;
    }
    *notes = Notes::new(alloc);
    Ok(())
}
