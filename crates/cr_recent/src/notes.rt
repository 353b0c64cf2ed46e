//! Notes of the rows that commits touched.

ghost use Rattle.std.specs.Prelude.{◌≡◌, [], ◌++◌, true, false, map, filter, int_lt, IfOk, MatchOption};
ghost use Rattle.cr_recent.specs.Notes.{has_room, noted_above, notes_at, notes_in, touched, Remembers};

use crate::keys::{Key, in_order, keys_of};
use cr_lattice::change::Change;
use std::alloc::{AllocError, Global};
use std::marker::Model;

/// How many rows are noted at most.
pub const ROWS: usize = 16384;

/// A row that a commit touched, and the version of the commit.
#[derive(Debug, Drop)]
pub(crate) struct Note {
    pub(crate) key: Key,
    pub(crate) version: i64,
}

/// The rows that the commits above a version touched. Contracts see that version and the notes.
#[derive(Debug, Drop)]
pub(crate) struct Notes {
    from: i64,
    // None where nothing is noted, so that it takes no memory to make notes.
    notes: Option<Vec<Note>>,
}

impl Model for Notes {
    ghost use Rattle.cr_recent.specs.Notes.{Noted, notes_in};

    ghost Value = { Noted };

    ghost view = { λ n. record { from = n.from; notes = notes_in n.notes } };
}

impl Notes {
    /// No notes yet of the commits above a version. Takes no memory.
    pub(crate) fn new(from: i64) -> Notes
        ensures { result ≡ record { from = from; notes = [] } }
    {
        Notes { from, notes: None }
    }

    /// The version above which each commit is noted.
    pub(crate) fn version(&self) -> i64
        ensures { result ≡ self.now.from }
    {
        self.from
    }

    /// Notes the rows that the changes of a commit touch. Where they might be too many, or memory is wanting, all is
    /// forgotten, and from then on the commits above this one are noted.
    pub(crate) fn add(&mut self, alloc: Global, changes: &[Change], version: i64)
        ensures { Remembers self.old self.new changes.now version }
    {
        match with_commit(alloc, self.notes.take(), changes, version) {
            Ok(Some(notes)) => self.notes = Some(notes),
            Ok(None) | Err(_) => self.from = version,
        }
    }

    /// The keys of the rows that are noted above a version, in order, each once.
    pub(crate) fn keys_above(&self, alloc: Global, version: i64) -> Result<Vec<Key>, AllocError>
        ensures { IfOk result (λ keys. keys.items ≡ noted_above self.now.notes version) }
    {
        match &self.notes {
            Some(notes) => in_order(keys_above(alloc, notes, version)?),
            None => Ok(Vec::new(alloc)),
        }
    }
}

fn keys_above(alloc: Global, notes: &[Note], version: i64) -> Result<Vec<Key>, AllocError>
    ensures { IfOk result (λ keys. keys.items ≡ map (λ n. n.key) (filter (λ n. int_lt version n.version) notes.now)) }
{
    let mut keys = Vec::new(alloc);
    for note in notes {
        if note.version > version {
            keys.push(note.key.copy(alloc)?)?;
        }
    }
    Ok(keys)
}

#[tactic(auto, unfolding(crate::specs::Notes::notes_at))]
fn notes_at(alloc: Global, keys: Vec<Key>, version: i64) -> Result<Vec<Note>, AllocError>
    ensures { IfOk result (λ notes. notes.items ≡ notes_at version keys.items) }
{
    keys.into_iter()
        .map(|key| Note { key, version })
        .collect(alloc)
}

// The notes and those of a commit, unless they might be too many. That is told by how many changes it has, so that no time
// is taken to look through very many.
fn with_commit(
    alloc: Global,
    notes: Option<Vec<Note>>,
    changes: &[Change],
    version: i64,
) -> Result<Option<Vec<Note>>, AllocError>
    ensures { IfOk result (λ all. MatchOption all (has_room (notes_in notes) changes.now ≡ false)
        (λ v. (has_room (notes_in notes) changes.now ≡ true) × (v.items ≡ notes_in notes ++ notes_at version (touched changes.now)))) }
{
    let mut notes = match notes {
        Some(notes) => notes,
        None => Vec::new(alloc),
    };
    if notes.len() + changes.len() > ROWS {
        return Ok(None);
    }
    let keys = in_order(keys_of(alloc, changes)?)?;
    let mut more = notes_at(alloc, keys, version)?;
    notes.append(&mut more)?;
    Ok(Some(notes))
}
