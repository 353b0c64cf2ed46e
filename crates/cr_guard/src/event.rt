//! What a listener hears of a row.

ghost use Rattle.std.specs.Prelude.{◌≡◌, IfOk};
ghost use Rattle.cr_guard.specs.Events.{event_code};

use cr_value::text::{Bytes, Text};
use std::alloc::{AllocError, Global};

/// What became of a row.
#[derive(Clone, Copy, Debug, PartialEq, Eq)]
pub enum EventKind {
    /// The row appeared.
    Appeared,
    /// The row went.
    Gone,
    /// The row stayed and shows other values.
    Changed,
}

impl EventKind {
    /// The number of the kind: that of the actions INSERT, DELETE and UPDATE, as "Data Change Notification Callbacks" of
    /// SQLite's C interface hands it to an update hook.
    pub fn code(self) -> u8
        ensures { result ≡ event_code self }
    {
        match self {
            EventKind::Appeared => 18,
            EventKind::Gone => 9,
            EventKind::Changed => 23,
        }
    }
}

/// What became of one row.
#[derive(Debug, Drop)]
pub struct Event {
    pub kind: EventKind,
    /// The name of the table.
    pub table: Text,
    /// The packed values of the row's key.
    pub pk: Bytes,
}

impl Event {
    /// The same event in memory of its own.
    pub fn copy(&self, alloc: Global) -> Result<Event, AllocError>
        ensures { IfOk result (λ e. e ≡ self.now) }
    {
        Ok(Event {
            kind: self.kind,
            table: self.table.copy(alloc)?,
            pk: self.pk.copy(alloc)?,
        })
    }
}
