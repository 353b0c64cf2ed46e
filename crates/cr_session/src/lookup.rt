//! What a statement of one table sees: what is kept of some keys, where its WHERE tells the keys of the only rows that it can be
//! about, and else what is kept of the table. A query of the table of changes sees those above the version that it tells, if any.

use crate::filtering::Seen;
use crate::session::Session;
use cr_cells::store::{Cells, CellsError};
use cr_cells::tables::table_named;
use cr_exec::binary::compares_bytes;
use cr_expr::given::Hosted;
use cr_host::functions::Functions;
use cr_lattice::table::{Items, Table};
use cr_replica::snapshot::Snapshot;
use cr_snapshot::changes::CHANGES;
use cr_sought::bound::lower_bound;
use cr_sought::key::assigns_key;
use cr_sought::listed::sought_keys;
use cr_term::expr::Expr;
use cr_term::query::{Delete, Query, Update};
use cr_value::order::same_bytes;
use cr_value::text::Bytes;
use cr_value::value::Value;
use std::alloc::{AllocError, Global};

/// The place of `db_version` among the columns of the table of changes.
const DB_VERSION: usize = 5;

impl<C: Cells> Session<C> {
    ghost use Rattle.std.specs.Prelude.{◌≡◌, true, IfOk};
    ghost use Rattle.std.specs.Option.{ForSome};
    ghost use Rattle.cr_cells.specs.Calls.{is_want, StaysClean};
    ghost use Rattle.cr_cells.specs.Holding.{IsSound};
    ghost use Rattle.cr_fit.specs.Suited.{HasRelation};
    ghost use Rattle.cr_lattice.specs.Keep.{keep};
    ghost use Rattle.cr_replica.specs.Snapshots.{IsOfNames, IsWhole};
    ghost use Rattle.cr_snapshot.specs.Seen.{IsNamed, catalog_of};
    ghost use Rattle.cr_session.specs.Joining.{Finds};
    ghost use Rattle.cr_session.specs.Lookup.{IsLook, IsNewest, IsSeenAbove, IsSeenAt, IsSought, Looks, ShowsDelete, ShowsUpdate};
    ghost use Rattle.cr_session.specs.Performing.{is_table, not_replicated};
    ghost use Rattle.cr_session.specs.Scans.{IsQueryLook, Serves};
    ghost use Rattle.cr_session.specs.Sessions.{standing};
    ghost use Rattle.cr_world.specs.Causes.{Free};

    // The keys of the only rows of the replicated table of a name on which the terms can be true, where they tell them.
    fn sought<F: Functions>(
        &self,
        alloc: Global,
        functions: &F,
        tables: &[Table],
        name: &str,
        terms: &[Expr],
        params: &[Value],
    ) -> Result<Option<Vec<Bytes>>, AllocError>
        ensures { IfOk result (λ keys. ForSome keys (λ v. IsSought (⟦<F as Hosted>⟧.means functions.now) params.now self.now.1 tables.now name.now terms.now v.items)) }
    {
        let Some(table) = table_named(tables, name) else {
            return Ok(None);
        };
        if !table.is_replicated || !self.is_of(tables) || !compares_bytes(functions) {
            return Ok(None);
        }
        sought_keys(alloc, &table.definition, terms, params)
    }

    // Of some keys of a table what shows there, under these names.
    fn see_at(
        &mut self,
        alloc: Global,
        names: Snapshot,
        name: &str,
        keys: &[Bytes],
    ) -> Result<Snapshot, CellsError>
        requires sound { C.is_clean self.old.0 → IsSound (C.holding self.old.0) }
        requires named { C.is_clean self.old.0 → IsNamed (standing C.holding self.old) names }
        ensures device { StaysClean C.is_honest C.is_clean is_want self.old.0 self.new.0 result }
        ensures sees { C.is_clean self.new.0 → Looks (IsSeenAt (standing C.holding self.old) name.now keys.now) (standing C.holding self.old) (standing C.holding self.new) result }
        ensures names { IfOk result (IsOfNames names) }
        ensures kept { IfOk result (λ snapshot. keep snapshot.kept ≡ snapshot.kept) }
    {
        let kept = match self.see_keys(alloc, name, keys) {
            Ok(kept) => kept,
            Err(error) => return Err(error),
        };
        let mut snapshot = names;
        snapshot.kept = Items::new(kept);
        Ok(snapshot)
    }

    // What a write of the table of a name sees whose WHERE has these terms, and tells no keys: what is kept of the keys of the rows that
    // it may keep, if they are few, else of the table.
    fn look_within<F: Functions>(
        &mut self,
        alloc: Global,
        functions: &F,
        names: Snapshot,
        name: &str,
        terms: &[Expr],
        params: &[Value],
    ) -> Result<Snapshot, CellsError>
        requires functions { F.is_faithful functions.now }
        requires sound { C.is_clean self.old.0 → IsSound (C.holding self.old.0) }
        requires named { C.is_clean self.old.0 → IsNamed (standing C.holding self.old) names }
        requires whole { IsWhole names }
        ensures device { StaysClean C.is_honest C.is_clean is_want self.old.0 self.new.0 result }
        ensures looks { C.is_clean self.new.0
            → Looks (IsLook (⟦<F as Hosted>⟧.means functions.now) params.now (standing C.holding self.old) name.now terms.now) (standing C.holding self.old) (standing C.holding self.new) result }
        ensures names { IfOk result (IsOfNames names) }
        ensures kept { IfOk result (λ snapshot. keep snapshot.kept ≡ snapshot.kept) }
    {
        match self.passing_keys(alloc, functions, &names, name, terms, params) {
            Ok(Some(keys)) => self.see_at(alloc, names, name, &keys),
            Ok(None) => self.see_table(alloc, names, name),
            Err(error) => Err(error),
        }
    }

    // What a write of the table of a name sees whose WHERE has these terms.
    fn look<F: Functions>(
        &mut self,
        alloc: Global,
        functions: &F,
        names: Snapshot,
        name: &str,
        terms: &[Expr],
        params: &[Value],
    ) -> Result<Snapshot, CellsError>
        requires functions { F.is_faithful functions.now }
        requires sound { C.is_clean self.old.0 → IsSound (C.holding self.old.0) }
        requires named { C.is_clean self.old.0 → IsNamed (standing C.holding self.old) names }
        requires whole { IsWhole names }
        ensures device { StaysClean C.is_honest C.is_clean is_want self.old.0 self.new.0 result }
        ensures looks { C.is_clean self.new.0
            → Looks (IsLook (⟦<F as Hosted>⟧.means functions.now) params.now (standing C.holding self.old) name.now terms.now) (standing C.holding self.old) (standing C.holding self.new) result }
        ensures names { IfOk result (IsOfNames names) }
        ensures kept { IfOk result (λ snapshot. keep snapshot.kept ≡ snapshot.kept) }
    {
        match self.sought(
            alloc,
            functions,
            names.tables.as_slice(),
            name,
            terms,
            params,
        )? {
            Some(keys) => self.see_at(alloc, names, name, &keys),
            None => self.look_within(alloc, functions, names, name, terms, params),
        }
    }

    // What a query of the table of a name alone sees.
    fn look_once<F: Functions>(
        &mut self,
        alloc: Global,
        functions: &F,
        names: Snapshot,
        name: &str,
        query: &Query,
        params: &[Value],
    ) -> Result<Seen, CellsError>
        requires functions { F.is_faithful functions.now }
        requires sound { C.is_clean self.old.0 → IsSound (C.holding self.old.0) }
        requires named { C.is_clean self.old.0 → IsNamed (standing C.holding self.old) names }
        ensures device { StaysClean C.is_honest C.is_clean is_want self.old.0 self.new.0 result }
        ensures finds { C.is_clean self.new.0
            → Finds (IsQueryLook (⟦<F as Hosted>⟧.means functions.now) params.now (standing C.holding self.old) name.now query.now) (standing C.holding self.old) (standing C.holding self.new) result }
    {
        match self.sought(
            alloc,
            functions,
            names.tables.as_slice(),
            name,
            query.filter.as_slice(),
            params,
        )? {
            Some(keys) => self.see_at(alloc, names, name, &keys).map(Seen::Kept),
            None => self.look_filtered(alloc, functions, names, name, query, params),
        }
    }

    // The version above which all changes are stamped on which the terms of a query of the table of a name can be true, where it is
    // the table of changes: that which they tell, or 0.
    fn newest(
        &self,
        alloc: Global,
        tables: &[Table],
        name: &str,
        terms: &[Expr],
        params: &[Value],
    ) -> Result<Option<i64>, AllocError>
        ensures { IfOk result (λ version. ForSome version (IsNewest params.now tables.now name.now terms.now)) }
    {
        if !same_bytes(CHANGES.as_bytes(), name.as_bytes()) || table_named(tables, name).is_some() {
            return Ok(None);
        }
        match lower_bound(alloc, terms, params, DB_VERSION)? {
            Some(version) if version > 0 => Ok(Some(version)),
            _ => Ok(Some(0)),
        }
    }

    // Of the last commit what is stamped above a version, under these names.
    fn see_above(
        &mut self,
        alloc: Global,
        names: Snapshot,
        version: i64,
    ) -> Result<Snapshot, CellsError>
        requires named { C.is_clean self.old.0 → IsNamed (standing C.holding self.old) names }
        ensures device { StaysClean C.is_honest C.is_clean is_want self.old.0 self.new.0 result }
        ensures sees { C.is_clean self.new.0 → Looks (IsSeenAbove (standing C.holding self.old) version) (standing C.holding self.old) (standing C.holding self.new) result }
    {
        let cells = match self.replica.changes_since(alloc, version) {
            Ok(cells) => cells,
            Err(error) => return Err(error),
        };
        let mut snapshot = names;
        snapshot.cells = Items::new(cells);
        Ok(snapshot)
    }

    /// What a query sees: of one table whose WHERE tells the keys of its rows, what is kept of these; of the table of changes alone
    /// what is stamped above the version that its WHERE tells, or above 0; of another replicated table alone the rows that its WHERE may keep, or the
    /// answer; else what is kept of the tables that it names.
    pub(crate) fn look_for_query<F: Functions>(
        &mut self,
        alloc: Global,
        functions: &F,
        names: Snapshot,
        query: &Query,
        params: &[Value],
    ) -> Result<Seen, CellsError>
        requires functions { F.is_faithful functions.now }
        requires sound { C.is_clean self.old.0 → IsSound (C.holding self.old.0) }
        requires named { C.is_clean self.old.0 → IsNamed (standing C.holding self.old) names }
        ensures device { StaysClean C.is_honest C.is_clean is_want self.old.0 self.new.0 result }
        ensures finds { C.is_clean self.new.0
            → Finds (Serves (⟦<F as Hosted>⟧.means functions.now) params.now query.now (standing C.holding self.old)) (standing C.holding self.old) (standing C.holding self.new) result }
    {
        let [joined] = query.joined.as_slice() else {
            return self
                .see_joined(alloc, names, query.joined.as_slice())
                .map(Seen::Kept);
        };
        if joined.is_left || !joined.on.as_slice().is_empty() {
            return self
                .see_joined(alloc, names, query.joined.as_slice())
                .map(Seen::Kept);
        }
        let name = joined.relation.definition.name.as_str();
        let terms = query.filter.as_slice();
        let tables = names.tables.as_slice();
        match self.newest(alloc, tables, name, terms, params)? {
            Some(version) => self.see_above(alloc, names, version).map(Seen::Kept),
            None => self.look_once(alloc, functions, names, name, query, params),
        }
    }

    /// What an UPDATE of a replicated table sees: where its WHERE tells the keys of its rows, or may keep few rows, and it leaves keys as
    /// they are, what is kept of these keys, else of the table.
    pub(crate) fn look_for_update<F: Functions>(
        &mut self,
        alloc: Global,
        functions: &F,
        names: Snapshot,
        update: &Update,
        params: &[Value],
    ) -> Result<Snapshot, CellsError>
        requires functions { F.is_faithful functions.now }
        requires sound { C.is_clean self.old.0 → IsSound (C.holding self.old.0) }
        requires named { C.is_clean self.old.0 → IsNamed (standing C.holding self.old) names }
        requires whole { IsWhole names }
        requires suits { HasRelation (catalog_of names) update.now.relation }
        requires table { is_table update.now.relation.held ≡ true }
        requires replicated { not_replicated update.now.relation ≡ Free }
        ensures device { StaysClean C.is_honest C.is_clean is_want self.old.0 self.new.0 result }
        ensures looks { C.is_clean self.new.0
            → Looks (ShowsUpdate (⟦<F as Hosted>⟧.means functions.now) params.now update.now (standing C.holding self.old)) (standing C.holding self.old) (standing C.holding self.new) result }
        ensures names { IfOk result (IsOfNames names) }
        ensures kept { IfOk result (λ snapshot. keep snapshot.kept ≡ snapshot.kept) }
    {
        let name = update.relation.definition.name.as_str();
        if assigns_key(update) {
            return self.see_table(alloc, names, name);
        }
        self.look(
            alloc,
            functions,
            names,
            name,
            update.filter.as_slice(),
            params,
        )
    }

    /// What a DELETE from a replicated table sees: where its WHERE tells the keys of its rows, or may keep few rows, what is kept of these
    /// keys, else of the table.
    pub(crate) fn look_for_delete<F: Functions>(
        &mut self,
        alloc: Global,
        functions: &F,
        names: Snapshot,
        delete: &Delete,
        params: &[Value],
    ) -> Result<Snapshot, CellsError>
        requires functions { F.is_faithful functions.now }
        requires sound { C.is_clean self.old.0 → IsSound (C.holding self.old.0) }
        requires named { C.is_clean self.old.0 → IsNamed (standing C.holding self.old) names }
        requires whole { IsWhole names }
        requires suits { HasRelation (catalog_of names) delete.now.relation }
        requires table { is_table delete.now.relation.held ≡ true }
        requires replicated { not_replicated delete.now.relation ≡ Free }
        ensures device { StaysClean C.is_honest C.is_clean is_want self.old.0 self.new.0 result }
        ensures looks { C.is_clean self.new.0
            → Looks (ShowsDelete (⟦<F as Hosted>⟧.means functions.now) params.now delete.now (standing C.holding self.old)) (standing C.holding self.old) (standing C.holding self.new) result }
        ensures names { IfOk result (IsOfNames names) }
        ensures kept { IfOk result (λ snapshot. keep snapshot.kept ≡ snapshot.kept) }
    {
        let name = delete.relation.definition.name.as_str();
        self.look(
            alloc,
            functions,
            names,
            name,
            delete.filter.as_slice(),
            params,
        )
    }
}
