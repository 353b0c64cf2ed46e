//! Who hears what became of rows.

ghost use Rattle.std.specs.Prelude.{◌≡◌, OnOk, OnErr};

use crate::event::Event;
use std::alloc::AllocError;

/// Who hears what became of rows. A host makes one and boxes it.
pub trait Listener: Drop {
    ghost use Rattle.std.specs.Prelude.{List};
    ghost use Rattle.cr_guard.specs.declared.event.Event.{Event};

    /// What it has noted.
    ghost noted: { Self → List Event };

    /// What it has noted once it heard events at once, by what it had noted before. This never changes.
    ghost noting: { Self → List Event → List Event → List Event };

    /// It hears all of the events, or for want of memory none.
    fn hear(&mut self, events: &[Event]) -> Result<(), AllocError>
        ensures ok { OnOk result (noted self.new ≡ noting self.old (noted self.old) events.now) }
        ensures err { OnErr result (noted self.new ≡ noted self.old) }
        ensures noting { noting self.new ≡ noting self.old };
}
