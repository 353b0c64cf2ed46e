//! The tables that a statement's columns stand in.

ghost use Rattle.std.specs.Prelude.{◌≡◌, slice_get};
ghost use Rattle.std.specs.Option.{option_copied};

use cr_term::query::{Joined, Relation};

/// The tables of a statement, in order.
#[derive(Clone, Copy)]
pub enum Sources<'a> {
    /// Those in FROM.
    Joined(&'a [Joined]),
    /// The one that is written.
    One(&'a Relation),
    Empty,
}

impl<'a> Sources<'a> {
    ghost use Rattle.cr_questions.specs.Asked.{relations};

    /// The table at a place, from 0, if there is one.
    pub fn get(self, place: usize) -> Option<&'a Relation>
        ensures { option_copied result ≡ slice_get (relations self.entry) place }
    {
        match self {
            Sources::Joined(joined) => joined.get(place).map(|j| &j.relation),
            Sources::One(relation) if place == 0 => Some(relation),
            _ => None,
        }
    }
}
