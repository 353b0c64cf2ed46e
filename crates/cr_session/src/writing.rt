//! INSERT, UPDATE and DELETE: the changes that they make are taken as those of another replica are.

ghost use Rattle.cr_world.specs.Causes.{IsWant};

use crate::performing::{check_replicated, check_table};
use crate::session::Session;
use cr_cells::store::{Cells, StoreFault};
use cr_changed::write::{changes_of_delete, changes_of_rows, changes_of_update, check_rows};
use cr_delta::key::keys_of;
use cr_expr::given::Hosted;
use cr_guard::guarding::Guarding;
use cr_host::functions::Functions;
use cr_lattice::change::Change;
use cr_lattice::table::{Row, Table};
use cr_pending::pending::PendingError;
use cr_received::receiving::changes_of_received;
use cr_replica::snapshot::Snapshot;
use cr_script::speaking::Watching;
use cr_term::query::{Delete, Held, Insert, Update};
use cr_value::value::Value;
use cr_wanted::insert::inserted_rows;
use cr_world::command::Reply;
use cr_world::refusal::Refusal;
use std::alloc::Global;

// Why changes are not added to those of the open transaction. They are well formed, and of its tables, unless the store is not as it
// was a moment ago.
fn of_pending(error: PendingError) -> Refusal
    ensures { IsWant result }
{
    match error {
        PendingError::Memory => Refusal::Memory,
        PendingError::OtherTables | PendingError::Bad(_) => Refusal::Store(StoreFault::Refused),
    }
}

impl<C: Cells> Session<C> {
    ghost use Rattle.std.specs.Prelude.{◌≡◌, true, false, List, IfErr};
    ghost use Rattle.cr_value.specs.declared.value.Value.{Value};
    ghost use Rattle.cr_cells.specs.Holding.{IsSound};
    ghost use Rattle.cr_scalar.specs.Host.{Host as Means};
    ghost use Rattle.cr_exec.specs.Answers.{IsMeant};
    ghost use Rattle.cr_wanted.specs.Judged.{AreWide};
    ghost use Rattle.cr_changed.specs.Changed.{insert_brings};
    ghost use Rattle.cr_fit.specs.Suited.{HasRelation};
    ghost use Rattle.cr_replica.specs.Snapshots.{IsWhole};
    ghost use Rattle.cr_snapshot.specs.Seen.{IsNamed, catalog_of};
    ghost use Rattle.cr_term.specs.declared.query.Resolved.TheVariants as r;
    ghost use Rattle.cr_world.specs.Causes.{Free};
    ghost use Rattle.cr_world.specs.State.{heard_between};
    ghost use Rattle.cr_world.specs.Statement.{Host};
    ghost use Rattle.cr_script.specs.Hearing.{Hears};
    ghost use Rattle.cr_session.specs.Performing.{Adds, Commits, Performed, is_table, not_replicated};
    ghost use Rattle.cr_session.specs.Sessions.{clean, honest, standing};

    // Commits changes, all or none, once the listener is told; outside of transactions. They are well formed: where the store doesn't
    // take them as such, it is not as it was a moment ago.
    fn commit_changes<G: Guarding>(
        &mut self,
        alloc: Global,
        guard: &mut G,
        changes: &[Change],
    ) -> Result<Reply, Refusal>
        requires { G.is_faithful guard.old }
        ensures commits { Commits (⟦<G as Watching>⟧.host guard.old) (honest C.is_honest) (clean C.is_clean) (standing C.holding) self.old changes.now result self.new }
        ensures guard { ⟦<G as Watching>⟧.stays guard.old guard.new }
        ensures heard { C.is_clean self.new.0 → Hears (⟦<G as Watching>⟧.hears guard.old guard.new) (heard_between (standing C.holding self.old) (standing C.holding self.new)) result }
    {
        match self.take_all(alloc, guard, changes, None) {
            Ok(()) => Ok(Reply::Done),
            Err(Refusal::BadChange(_)) => Err(Refusal::Store(StoreFault::Refused)),
            Err(refusal) => Err(refusal),
        }
    }

    /// Commits the changes of a transaction, which rows show already, all or none: so the listener isn't told.
    ///
    /// # Errors
    /// `VersionLimit` where a kept change would change at the greatest version; `Veto` where policy or commit hook refuse what
    /// would come in; `Memory`, or `Store`. Then nothing is changed.
    pub(crate) fn commit_shown<G: Guarding>(
        &mut self,
        alloc: Global,
        guard: &G,
        changes: &[Change],
    ) -> Result<Reply, Refusal>
        requires { G.is_faithful guard.now }
        ensures commits { Commits (⟦<G as Watching>⟧.host guard.now) (honest C.is_honest) (clean C.is_clean) (standing C.holding) self.old changes.now result self.new }
        ensures pending { self.new.1 ≡ self.old.1 }
    {
        match self.take_shown(alloc, guard, changes) {
            Ok(()) => Ok(Reply::Done),
            Err(Refusal::BadChange(_)) => Err(Refusal::Store(StoreFault::Refused)),
            Err(refusal) => Err(refusal),
        }
    }

    // Keeps changes with those of the open transaction, all or none. They are well formed for these tables, there is one,
    // and it has none of other tables: else the store is not as it was a moment ago.
    fn keep_changes(
        &mut self,
        alloc: Global,
        tables: &[Table],
        changes: Vec<Change>,
    ) -> Result<Reply, Refusal>
        ensures adds { (host : Host) → Adds host (honest C.is_honest) (clean C.is_clean) (standing C.holding) self.old changes.items result self.new }
        ensures wants { IfErr result IsWant }
    {
        let Some(mut pending) = self.pending.take() else {
            return Err(Refusal::Store(StoreFault::Refused));
        };
        let added = pending.add(alloc, tables, changes);
        self.pending = Some(pending);
        match added {
            Ok(()) => Ok(Reply::Done),
            Err(error) => Err(of_pending(error)),
        }
    }

    // Commits the changes of a write, or keeps them with those of the open transaction, all or none, once the listener is told.
    fn add_changes<G: Guarding>(
        &mut self,
        alloc: Global,
        guard: &mut G,
        tables: &[Table],
        changes: Vec<Change>,
    ) -> Result<Reply, Refusal>
        requires { G.is_faithful guard.old }
        ensures adds { Adds (⟦<G as Watching>⟧.host guard.old) (honest C.is_honest) (clean C.is_clean) (standing C.holding) self.old changes.items result self.new }
        ensures guard { ⟦<G as Watching>⟧.stays guard.old guard.new }
        ensures heard { C.is_clean self.new.0 → Hears (⟦<G as Watching>⟧.hears guard.old guard.new) (heard_between (standing C.holding self.old) (standing C.holding self.new)) result }
    {
        if !self.in_transaction() {
            return self.commit_changes(alloc, guard, &changes);
        }
        if let Err(refusal) = self.tell(alloc, guard, &changes) {
            return Err(refusal);
        }
        self.keep_changes(alloc, tables, changes)
    }

    // Brings rows to a replicated table: what stands against them is told by what is kept of the keys that they have.
    fn bring<G: Guarding>(
        &mut self,
        alloc: Global,
        guard: &mut G,
        names: &Snapshot,
        insert: &Insert,
        rows: Vec<Row>,
    ) -> Result<Reply, Refusal>
        requires guard { G.is_faithful guard.old }
        requires sound { C.is_clean self.old.0 → IsSound (C.holding self.old.0) }
        requires named { C.is_clean self.old.0 → IsNamed (standing C.holding self.old) names.now }
        requires whole { IsWhole names.now }
        requires suits { HasRelation (catalog_of names.now) insert.now.relation }
        requires table { is_table insert.now.relation.held ≡ true }
        requires replicated { not_replicated insert.now.relation ≡ Free }
        requires used { insert.now.is_ignored ≡ false }
        requires width { AreWide insert.now.relation.definition.columns rows.items }
        ensures performs { (means : Means) (params : List Value) → IsMeant means params (insert_brings insert.now) rows.items
            → Performed means params (⟦<G as Watching>⟧.host guard.old) (honest C.is_honest) (clean C.is_clean) (standing C.holding) self.old (r.Insert insert.now) result self.new }
        ensures guard { ⟦<G as Watching>⟧.stays guard.old guard.new }
        ensures heard { C.is_clean self.new.0 → Hears (⟦<G as Watching>⟧.hears guard.old guard.new) (heard_between (standing C.holding self.old) (standing C.holding self.new)) result }
    {
        let tables = names.tables.as_slice();
        if !self.is_of(tables) {
            return Err(Refusal::Store(StoreFault::Refused));
        }
        let definition = &insert.relation.definition;
        if let Err(refusal) = check_rows(definition, &rows) {
            return Err(refusal);
        }
        let keys = keys_of(alloc, definition, &rows)?;
        let kept = match self.see_keys(alloc, definition.name.as_str(), &keys) {
            Ok(kept) => kept,
            Err(error) => return Err(Refusal::from(error)),
        };
        match changes_of_rows(alloc, &names.site, &kept, definition, rows) {
            Ok(changes) => self.add_changes(alloc, guard, tables, changes),
            Err(refusal) => Err(refusal),
        }
    }

    // Inserts rows into a table.
    fn insert_rows<F: Functions, G: Guarding>(
        &mut self,
        alloc: Global,
        functions: &F,
        guard: &mut G,
        names: Snapshot,
        insert: &Insert,
        params: &[Value],
    ) -> Result<Reply, Refusal>
        requires functions { F.is_faithful functions.now }
        requires guard { G.is_faithful guard.old }
        requires sound { C.is_clean self.old.0 → IsSound (C.holding self.old.0) }
        requires named { C.is_clean self.old.0 → IsNamed (standing C.holding self.old) names }
        requires whole { IsWhole names }
        requires suits { HasRelation (catalog_of names) insert.now.relation }
        requires table { is_table insert.now.relation.held ≡ true }
        ensures performs { Performed (⟦<F as Hosted>⟧.means functions.now) params.now (⟦<G as Watching>⟧.host guard.old) (honest C.is_honest) (clean C.is_clean) (standing C.holding) self.old (r.Insert insert.now) result self.new }
        ensures guard { ⟦<G as Watching>⟧.stays guard.old guard.new }
        ensures heard { C.is_clean self.new.0 → Hears (⟦<G as Watching>⟧.hears guard.old guard.new) (heard_between (standing C.holding self.old) (standing C.holding self.new)) result }
    {
        check_replicated(alloc, &insert.relation)?;
        if insert.is_ignored {
            return Ok(Reply::Done);
        }
        let columns = insert.relation.definition.columns.as_slice();
        match inserted_rows(alloc, columns, insert, functions, params) {
            Ok(rows) => self.bring(alloc, guard, &names, insert, rows),
            Err(fault) => Err(Refusal::from(fault)),
        }
    }

    // Takes the changes of rows that are inserted into the table of changes.
    fn receive<F: Functions, G: Guarding>(
        &mut self,
        alloc: Global,
        functions: &F,
        guard: &mut G,
        names: &Snapshot,
        insert: &Insert,
        params: &[Value],
    ) -> Result<Reply, Refusal>
        requires functions { F.is_faithful functions.now }
        requires guard { G.is_faithful guard.old }
        requires named { C.is_clean self.old.0 → IsNamed (standing C.holding self.old) names.now }
        requires whole { IsWhole names.now }
        requires suits { HasRelation (catalog_of names.now) insert.now.relation }
        requires module { is_table insert.now.relation.held ≡ false }
        ensures performs { Performed (⟦<F as Hosted>⟧.means functions.now) params.now (⟦<G as Watching>⟧.host guard.old) (honest C.is_honest) (clean C.is_clean) (standing C.holding) self.old (r.Insert insert.now) result self.new }
        ensures guard { ⟦<G as Watching>⟧.stays guard.old guard.new }
        ensures heard { C.is_clean self.new.0 → Hears (⟦<G as Watching>⟧.hears guard.old guard.new) (heard_between (standing C.holding self.old) (standing C.holding self.new)) result }
    {
        if insert.is_ignored {
            return Ok(Reply::Done);
        }
        let tables = names.tables.as_slice();
        match changes_of_received(alloc, functions, tables, insert, params) {
            Ok(changes) => self.add_changes(alloc, guard, tables, changes),
            Err(refusal) => Err(refusal),
        }
    }

    /// Inserts rows into a table, or into the table of changes.
    pub(crate) fn insert<F: Functions, G: Guarding>(
        &mut self,
        alloc: Global,
        functions: &F,
        guard: &mut G,
        names: Snapshot,
        insert: &Insert,
        params: &[Value],
    ) -> Result<Reply, Refusal>
        requires functions { F.is_faithful functions.now }
        requires guard { G.is_faithful guard.old }
        requires sound { C.is_clean self.old.0 → IsSound (C.holding self.old.0) }
        requires named { C.is_clean self.old.0 → IsNamed (standing C.holding self.old) names }
        requires whole { IsWhole names }
        requires suits { HasRelation (catalog_of names) insert.now.relation }
        ensures performs { Performed (⟦<F as Hosted>⟧.means functions.now) params.now (⟦<G as Watching>⟧.host guard.old) (honest C.is_honest) (clean C.is_clean) (standing C.holding) self.old (r.Insert insert.now) result self.new }
        ensures guard { ⟦<G as Watching>⟧.stays guard.old guard.new }
        ensures heard { C.is_clean self.new.0 → Hears (⟦<G as Watching>⟧.hears guard.old guard.new) (heard_between (standing C.holding self.old) (standing C.holding self.new)) result }
    {
        match insert.relation.held {
            Held::Table(_, _) => self.insert_rows(alloc, functions, guard, names, insert, params),
            Held::Module(_) => self.receive(alloc, functions, guard, &names, insert, params),
        }
    }

    /// Changes the rows of a table.
    pub(crate) fn update<F: Functions, G: Guarding>(
        &mut self,
        alloc: Global,
        functions: &F,
        guard: &mut G,
        names: Snapshot,
        update: &Update,
        params: &[Value],
    ) -> Result<Reply, Refusal>
        requires functions { F.is_faithful functions.now }
        requires guard { G.is_faithful guard.old }
        requires sound { C.is_clean self.old.0 → IsSound (C.holding self.old.0) }
        requires named { C.is_clean self.old.0 → IsNamed (standing C.holding self.old) names }
        requires whole { IsWhole names }
        requires suits { HasRelation (catalog_of names) update.now.relation }
        ensures performs { Performed (⟦<F as Hosted>⟧.means functions.now) params.now (⟦<G as Watching>⟧.host guard.old) (honest C.is_honest) (clean C.is_clean) (standing C.holding) self.old (r.Update update.now) result self.new }
        ensures guard { ⟦<G as Watching>⟧.stays guard.old guard.new }
        ensures heard { C.is_clean self.new.0 → Hears (⟦<G as Watching>⟧.hears guard.old guard.new) (heard_between (standing C.holding self.old) (standing C.holding self.new)) result }
    {
        if let Err(refusal) = check_table(alloc, &update.relation) {
            return Err(refusal);
        }
        check_replicated(alloc, &update.relation)?;
        let snapshot = match self.look_for_update(alloc, functions, names, update, params) {
            Ok(snapshot) => snapshot,
            Err(error) => return Err(Refusal::from(error)),
        };
        match changes_of_update(alloc, functions, &snapshot, update, params) {
            Ok(changes) => self.add_changes(alloc, guard, snapshot.tables.as_slice(), changes),
            Err(refusal) => Err(refusal),
        }
    }

    /// Removes rows of a table.
    pub(crate) fn delete<F: Functions, G: Guarding>(
        &mut self,
        alloc: Global,
        functions: &F,
        guard: &mut G,
        names: Snapshot,
        delete: &Delete,
        params: &[Value],
    ) -> Result<Reply, Refusal>
        requires functions { F.is_faithful functions.now }
        requires guard { G.is_faithful guard.old }
        requires sound { C.is_clean self.old.0 → IsSound (C.holding self.old.0) }
        requires named { C.is_clean self.old.0 → IsNamed (standing C.holding self.old) names }
        requires whole { IsWhole names }
        requires suits { HasRelation (catalog_of names) delete.now.relation }
        ensures performs { Performed (⟦<F as Hosted>⟧.means functions.now) params.now (⟦<G as Watching>⟧.host guard.old) (honest C.is_honest) (clean C.is_clean) (standing C.holding) self.old (r.Delete delete.now) result self.new }
        ensures guard { ⟦<G as Watching>⟧.stays guard.old guard.new }
        ensures heard { C.is_clean self.new.0 → Hears (⟦<G as Watching>⟧.hears guard.old guard.new) (heard_between (standing C.holding self.old) (standing C.holding self.new)) result }
    {
        if let Err(refusal) = check_table(alloc, &delete.relation) {
            return Err(refusal);
        }
        check_replicated(alloc, &delete.relation)?;
        let snapshot = match self.look_for_delete(alloc, functions, names, delete, params) {
            Ok(snapshot) => snapshot,
            Err(error) => return Err(Refusal::from(error)),
        };
        match changes_of_delete(alloc, functions, &snapshot, delete, params) {
            Ok(changes) => self.add_changes(alloc, guard, snapshot.tables.as_slice(), changes),
            Err(refusal) => Err(refusal),
        }
    }
}
