//! What a statement sees of the tables that it names, and of no others, unless it names the table of changes.

ghost use Rattle.std.specs.Prelude.{◌≡◌, map, IfOk};
ghost use Rattle.cr_snapshot.specs.Seen.{name_of};
ghost use Rattle.cr_session.specs.Lookup.{in_order, names_changes};

use crate::session::Session;
use cr_cells::store::{Cells, CellsError};
use cr_lattice::change::Change;
use cr_lattice::merge::merge;
use cr_lattice::table::Items;
use cr_replica::snapshot::Snapshot;
use cr_snapshot::changes::CHANGES;
use cr_term::query::Joined;
use cr_value::order::same_bytes;
use cr_value::text::Text;
use std::alloc::{AllocError, Global};

// Whether the table of changes is among the tables of these names.
fn names_changes(tables: &[Text]) -> bool
    ensures { result ≡ names_changes tables.now }
{
    tables.iter().any(|table| same_bytes(CHANGES.as_bytes(), table.as_str().as_bytes()))
}

// The names of the tables of a FROM, as they come.
fn names_of(alloc: Global, joined: &[Joined]) -> Result<Vec<Text>, AllocError>
    ensures { IfOk result (λ v. v.items ≡ map name_of joined.now) }
{
    let mut names = Vec::new(alloc);
    for table in joined {
        names.push(table.relation.definition.name.copy(alloc)?)?;
    }
    Ok(names)
}

// The same by their bytes, each once.
fn in_order(alloc: Global, joined: &[Joined]) -> Result<Vec<Text>, AllocError>
    ensures { IfOk result (λ v. v.items ≡ in_order (map name_of joined.now)) }
{
    let mut names = names_of(alloc, joined)?;
    names.sort()?;
    names.dedup();
    Ok(names)
}

impl<C: Cells> Session<C> {
    ghost use Rattle.std.specs.Prelude.{◌≡◌, ◌∷◌, [], map, IfOk};
    ghost use Rattle.cr_cells.specs.Calls.{is_want, StaysClean};
    ghost use Rattle.cr_cells.specs.Holding.{IsSound};
    ghost use Rattle.cr_lattice.specs.Keep.{keep};
    ghost use Rattle.cr_replica.specs.Snapshots.{IsOfNames};
    ghost use Rattle.cr_snapshot.specs.Seen.{IsNamed, name_of};
    ghost use Rattle.cr_session.specs.Lookup.{IsSeenIn, Looks, SeesTables, ShowsTables, in_order};
    ghost use Rattle.cr_session.specs.Sessions.{standing};

    // What a statement sees of some tables: what the last commit keeps of them, and with it the changes of the open transaction.
    // Reads the cells of these tables and no others.
    pub(crate) fn see_changes(
        &mut self,
        alloc: Global,
        tables: &[Text],
    ) -> Result<Vec<Change>, CellsError>
        requires sound { C.is_clean self.old.0 → IsSound (C.holding self.old.0) }
        ensures device { StaysClean C.is_honest C.is_clean is_want self.old.0 self.new.0 result }
        ensures sees { C.is_clean self.new.0 → SeesTables (λ v. v.items) (standing C.holding self.old) (standing C.holding self.new) tables.now result }
        ensures kept { IfOk result (λ kept. keep kept.items ≡ kept.items) }
    {
        let kept = match self.replica.kept_of_tables(alloc, tables) {
            Ok(kept) => kept,
            Err(error) => return Err(error),
        };
        let Some(pending) = &self.pending else {
            return Ok(kept);
        };
        let more = pending.of_tables(alloc, tables)?;
        Ok(merge(alloc, &kept, &more)?)
    }

    // Of some tables what shows there, under these names.
    fn see_tables(
        &mut self,
        alloc: Global,
        names: Snapshot,
        tables: &[Text],
    ) -> Result<Snapshot, CellsError>
        requires sound { C.is_clean self.old.0 → IsSound (C.holding self.old.0) }
        requires named { C.is_clean self.old.0 → IsNamed (standing C.holding self.old) names }
        ensures device { StaysClean C.is_honest C.is_clean is_want self.old.0 self.new.0 result }
        ensures sees { C.is_clean self.new.0 → Looks (IsSeenIn (standing C.holding self.old) tables.now) (standing C.holding self.old) (standing C.holding self.new) result }
        ensures names { IfOk result (IsOfNames names) }
        ensures kept { IfOk result (λ snapshot. keep snapshot.kept ≡ snapshot.kept) }
    {
        let kept = match self.see_changes(alloc, tables) {
            Ok(kept) => kept,
            Err(error) => return Err(error),
        };
        let mut snapshot = names;
        snapshot.kept = Items::new(kept);
        Ok(snapshot)
    }

    // What a statement sees that names these tables: what is kept of them, and all where the table of changes is one.
    fn see_named(
        &mut self,
        alloc: Global,
        names: Snapshot,
        tables: &[Text],
    ) -> Result<Snapshot, CellsError>
        requires sound { C.is_clean self.old.0 → IsSound (C.holding self.old.0) }
        requires named { C.is_clean self.old.0 → IsNamed (standing C.holding self.old) names }
        ensures device { StaysClean C.is_honest C.is_clean is_want self.old.0 self.new.0 result }
        ensures looks { C.is_clean self.new.0 → Looks (ShowsTables (standing C.holding self.old) tables.now) (standing C.holding self.old) (standing C.holding self.new) result }
        ensures names { IfOk result (IsOfNames names) }
        ensures kept { IfOk result (λ snapshot. keep snapshot.kept ≡ snapshot.kept) }
    {
        if names_changes(tables) {
            return self.see(alloc, names);
        }
        self.see_tables(alloc, names, tables)
    }

    /// What a statement sees that names one table: what is kept of that, and all where it is the table of changes.
    pub(crate) fn see_table(
        &mut self,
        alloc: Global,
        names: Snapshot,
        table: &str,
    ) -> Result<Snapshot, CellsError>
        requires sound { C.is_clean self.old.0 → IsSound (C.holding self.old.0) }
        requires named { C.is_clean self.old.0 → IsNamed (standing C.holding self.old) names }
        ensures device { StaysClean C.is_honest C.is_clean is_want self.old.0 self.new.0 result }
        ensures looks { C.is_clean self.new.0 → Looks (ShowsTables (standing C.holding self.old) (table.now ∷ [])) (standing C.holding self.old) (standing C.holding self.new) result }
        ensures names { IfOk result (IsOfNames names) }
        ensures kept { IfOk result (λ snapshot. keep snapshot.kept ≡ snapshot.kept) }
    {
        // a first step that cannot fail, from which the proof of the looks below sets out
        let _ = self.pending.is_some();
        let table = Text::from_str(alloc, table)?;
        self.see_named(alloc, names, &[table])
    }

    /// What a statement sees that names the tables of a FROM: what is kept of each, and all where the table of changes is one.
    ///
    /// # Errors
    /// `Memory`, or `Store(Refused)`.
    pub fn see_joined(
        &mut self,
        alloc: Global,
        names: Snapshot,
        joined: &[Joined],
    ) -> Result<Snapshot, CellsError>
        requires sound { C.is_clean self.old.0 → IsSound (C.holding self.old.0) }
        requires named { C.is_clean self.old.0 → IsNamed (standing C.holding self.old) names }
        ensures device { StaysClean C.is_honest C.is_clean is_want self.old.0 self.new.0 result }
        ensures looks { C.is_clean self.new.0 → Looks (ShowsTables (standing C.holding self.old) (in_order (map name_of joined.now))) (standing C.holding self.old) (standing C.holding self.new) result }
        ensures names { IfOk result (IsOfNames names) }
        ensures kept { IfOk result (λ snapshot. keep snapshot.kept ≡ snapshot.kept) }
    {
        // as above
        let _ = self.pending.is_some();
        let tables = in_order(alloc, joined)?;
        self.see_named(alloc, names, &tables)
    }
}
