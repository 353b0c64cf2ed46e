//! The calls of a session that are no SQL: tables are defined, changes taken, given and pulled, rows shown.

use crate::session::Session;
use cr_cells::marks::Mark;
use cr_cells::store::{Cells, StoreFault};
use cr_guard::guarding::Guarding;
use cr_host::functions::Functions;
use cr_lattice::change::{Change, Site};
use cr_lattice::stamped::Stamped;
use cr_lattice::table::{Items, Row, TableDef};
use cr_script::speaking::{Speaking, Watching};
use cr_value::order::same_bytes;
use cr_world::refusal::{Refusal, of_definition, of_rows};
use std::alloc::Global;

impl<C: Cells> Session<C> {
    ghost use Rattle.std.specs.Prelude.{◌≡◌, ◌≤ℤ◌, ℕ, ℤ, Bool, List, None, Some, Err, pos, true, false, is_some};
    ghost use Rattle.cr_cells.specs.Tables.{has_folded_names};
    ghost use Rattle.cr_world.specs.declared.command.Command.TheVariants.{Define, Rows, Changes};
    ghost use Rattle.cr_world.specs.declared.command.Declaration.TheVariants as declared;
    ghost use Rattle.cr_world.specs.declared.refusal.Refusal.TheVariants as refusal;
    ghost use Rattle.cr_world.specs.Language.{Language};
    ghost use Rattle.cr_world.specs.State.{heard_between};
    ghost use Rattle.cr_world.specs.Statement.{Host};
    ghost use Rattle.cr_world.specs.Takings.{at_once, changes_above, pull_cause, pull_since_cause, seen_at, take_cause};
    ghost use Rattle.cr_script.specs.Hearing.{Hears};
    ghost use Rattle.cr_meaning.specs.View.{Ordered};
    ghost use Rattle.cr_tree.specs.declared.statement.Statement.{Statement};
    ghost use Rattle.cr_session.specs.Sessions.{Does, IsToldAtOnce, PullsUnless, TakesUnless, changes_reply, clean, honest, reply_of, rows_reply, standing, unless};

    /// Makes a replicated table, as CREATE TABLE and then `SELECT crsql_as_crr` do in one. The names of the definition are in ASCII
    /// lower case. Each default is kept as its column's affinity wants it.
    ///
    /// # Errors
    /// `OutOfProfile`, `Limit` or `BadName` where the definition is none that a table may have; then `TableExists`,
    /// `AmbiguousColumn` where a column's name stands twice, `NoSuchCollation`, `TransactionState` inside a transaction, and
    /// `NoDefault` where a column outside the key wants a value and lacks a default; `Memory`, or `Store`. Then nothing is changed.
    pub fn define<F: Functions>(
        &mut self,
        alloc: Global,
        functions: &F,
        def: &TableDef,
    ) -> Result<(), Refusal>
        requires { has_folded_names def.now ≡ true }
        ensures does { (has : List ℕ → Bool) (host : Host) → Does (⟦<F as Speaking>⟧.language functions.now has) host (honest C.is_honest) (clean C.is_clean) (standing C.holding) self.old (Define (declared.Table def.now)) (reply_of result) self.new }
        ensures pending { self.new.1 ≡ self.old.1 }
    {
        if self.in_transaction() {
            return Err(self.refuse_definition(alloc, functions, def));
        }
        match self.replica.define(alloc, functions, def) {
            Ok(()) => Ok(()),
            Err(error) => Err(of_definition(alloc, def, error)),
        }
    }

    /// The rows of a table as the last commit left them, in ascending order: none where it isn't replicated.
    ///
    /// # Errors
    /// `NoSuchTable` where no table has the name, which is looked up as it stands; `Memory`, or `Store`.
    pub fn rows_of(&mut self, alloc: Global, name: &str) -> Result<Items<Row>, Refusal>
        ensures does { (l : Language Statement Ordered) (host : Host) → Does l host (honest C.is_honest) (clean C.is_clean) (standing C.holding) self.old (Rows name.now) (rows_reply result) self.new }
        ensures pending { self.new.1 ≡ self.old.1 }
    {
        match self.replica.rows_of(alloc, name) {
            Ok(rows) => Ok(rows),
            Err(error) => Err(of_rows(alloc, name, error)),
        }
    }

    /// The kept changes that commits above a version brought, with their stamps and in the order of these: what is handed to a peer
    /// that has seen everything up to this version, and everything above 0.
    ///
    /// # Errors
    /// `Memory`, or `Store(Refused)`.
    pub fn changes_since(&mut self, alloc: Global, version: i64) -> Result<Items<Stamped>, Refusal>
        ensures does { (l : Language Statement Ordered) (host : Host) → Does l host (honest C.is_honest) (clean C.is_clean) (standing C.holding) self.old (Changes version) (changes_reply result) self.new }
        ensures pending { self.new.1 ≡ self.old.1 }
    {
        match self.replica.changes_since(alloc, version) {
            Ok(changes) => Ok(Items::new(changes)),
            Err(error) => Err(Refusal::from(error)),
        }
    }

    // What is told before the store is asked for anything: an open transaction, and then a peer's site that is this replica's own.
    fn check_peer(&self, site: &Site) -> Result<(), Refusal>
        ensures told { (version : ℤ) → C.is_clean self.now.0 → result ≡ unless (at_once (standing C.holding self.now) (Some (site.now, version))) }
        ensures inside { is_some self.now.1 ≡ true → result ≡ Err refusal.TransactionState }
    {
        if self.in_transaction() {
            return Err(Refusal::TransactionState);
        }
        if same_bytes(site, &self.site_id()) {
            return Err(Refusal::SameSite);
        }
        Ok(())
    }

    /// Takes changes, all in one commit or none. Those that lose change nothing.
    ///
    /// # Errors
    /// `TransactionState` inside a transaction; then `BadChange` where a change is not well formed; `VersionLimit` where a kept change
    /// would change at the greatest version; `Veto` where policy or commit hook refuse what would come in; `Memory`, or `Store`. Then
    /// nothing is changed.
    pub fn take<G: Guarding>(
        &mut self,
        alloc: Global,
        guard: &mut G,
        changes: &[Change],
    ) -> Result<(), Refusal>
        requires { G.is_faithful guard.old }
        ensures takes { TakesUnless (honest C.is_honest) (clean C.is_clean) (standing C.holding) (λ st. take_cause (⟦<G as Watching>⟧.host guard.old) st changes.now None) self.old changes.now None result self.new }
        ensures at_once { IsToldAtOnce (at_once (standing C.holding self.old) None) self.old result self.new }
        ensures guard { ⟦<G as Watching>⟧.stays guard.old guard.new }
        ensures heard { C.is_clean self.new.0 → Hears (⟦<G as Watching>⟧.hears guard.old guard.new) (heard_between (standing C.holding self.old) (standing C.holding self.new)) result }
        ensures pending { self.new.1 ≡ self.old.1 }
    {
        if self.in_transaction() {
            return Err(Refusal::TransactionState);
        }
        self.take_all(alloc, guard, changes, None)
    }

    /// Takes what a peer sent, all in one commit or none, and with it the peer's mark: its site, and its version, at least 0, up to
    /// which its changes were taken. The mark is kept where no change wins, too.
    ///
    /// # Errors
    /// `TransactionState` inside a transaction; then `SameSite` where the site is this replica's own; then as of `take`.
    pub fn take_from<G: Guarding>(
        &mut self,
        alloc: Global,
        guard: &mut G,
        changes: &[Change],
        mark: Mark,
    ) -> Result<(), Refusal>
        requires faithful { G.is_faithful guard.old }
        requires from_0 { pos 0 ≤ℤ mark.1 }
        ensures takes { TakesUnless (honest C.is_honest) (clean C.is_clean) (standing C.holding) (λ st. take_cause (⟦<G as Watching>⟧.host guard.old) st changes.now (Some mark)) self.old changes.now (Some mark) result self.new }
        ensures at_once { C.is_clean self.old.0 → IsToldAtOnce (at_once (standing C.holding self.old) (Some mark)) self.old result self.new }
        ensures inside { is_some self.old.1 ≡ true → (result ≡ Err refusal.TransactionState) × (self.new ≡ self.old) }
        ensures guard { ⟦<G as Watching>⟧.stays guard.old guard.new }
        ensures heard { C.is_clean self.new.0 → Hears (⟦<G as Watching>⟧.hears guard.old guard.new) (heard_between (standing C.holding self.old) (standing C.holding self.new)) result }
        ensures pending { self.new.1 ≡ self.old.1 }
    {
        match self.check_peer(&mark.0) {
            Ok(()) => self.take_all(alloc, guard, changes, Some(mark)),
            Err(refusal) => Err(refusal),
        }
    }

    /// Takes all that a peer keeps, in one commit or nothing. The peer stays where it stands; what its open transaction holds is no
    /// part of it.
    ///
    /// # Errors
    /// `TransactionState` inside a transaction; then `SameSite` where the peer has this replica's site; `Memory` or `Store` of the
    /// peer; then as of `take`. Then nothing is changed.
    pub fn pull<D: Cells, G: Guarding>(
        &mut self,
        alloc: Global,
        guard: &mut G,
        peer: &mut Session<D>,
    ) -> Result<(), Refusal>
        requires { G.is_faithful guard.old }
        ensures pulls { PullsUnless (⟦<G as Watching>⟧.host guard.old) false (honest C.is_honest) (clean C.is_clean) (standing C.holding) (honest D.is_honest) (clean D.is_clean) (standing D.holding) (pull_cause (⟦<G as Watching>⟧.host guard.old))
            (λ st from. changes_above from (pos 0)) (λ from. None) self.old peer.old result self.new peer.new }
        ensures at_once { C.is_clean self.old.0 → D.is_clean peer.old.0
            → IsToldAtOnce (at_once (standing C.holding self.old) (Some ((standing D.holding peer.old).holding.site, pos 0))) self.old result self.new }
        ensures inside { is_some self.old.1 ≡ true → (result ≡ Err refusal.TransactionState) × (self.new ≡ self.old) × (peer.new ≡ peer.old) }
        ensures peer { peer.new.1 ≡ peer.old.1 }
        ensures guard { ⟦<G as Watching>⟧.stays guard.old guard.new }
        ensures heard { C.is_clean self.new.0 → Hears (⟦<G as Watching>⟧.hears guard.old guard.new) (heard_between (standing C.holding self.old) (standing C.holding self.new)) result }
        ensures pending { self.new.1 ≡ self.old.1 }
    {
        if let Err(refusal) = self.check_peer(&peer.site_id()) {
            return Err(refusal);
        }
        match peer.changes_above(alloc, 0) {
            Ok(changes) => self.take_all(alloc, guard, &changes, None),
            Err(error) => Err(Refusal::from(error)),
        }
    }

    /// Takes what a peer keeps above the version up to which its changes were taken before, in one commit or nothing, and keeps the
    /// peer's version as its mark. The peer stays where it stands; what its open transaction holds is no part of it.
    ///
    /// # Errors
    /// As of `pull`; `Memory` or `Store` of this replica, too, before the peer's.
    pub fn pull_since<D: Cells, G: Guarding>(
        &mut self,
        alloc: Global,
        guard: &mut G,
        peer: &mut Session<D>,
    ) -> Result<(), Refusal>
        requires { G.is_faithful guard.old }
        ensures pulls { PullsUnless (⟦<G as Watching>⟧.host guard.old) true (honest C.is_honest) (clean C.is_clean) (standing C.holding) (honest D.is_honest) (clean D.is_clean) (standing D.holding) (pull_since_cause (⟦<G as Watching>⟧.host guard.old))
            (λ st from. changes_above from (seen_at st from)) (λ from. Some (from.site, from.version)) self.old peer.old result self.new peer.new }
        ensures at_once { C.is_clean self.old.0 → D.is_clean peer.old.0
            → IsToldAtOnce (at_once (standing C.holding self.old) (Some ((standing D.holding peer.old).holding.site, pos 0))) self.old result self.new }
        ensures inside { is_some self.old.1 ≡ true → (result ≡ Err refusal.TransactionState) × (self.new ≡ self.old) × (peer.new ≡ peer.old) }
        ensures peer { peer.new.1 ≡ peer.old.1 }
        ensures guard { ⟦<G as Watching>⟧.stays guard.old guard.new }
        ensures heard { C.is_clean self.new.0 → Hears (⟦<G as Watching>⟧.hears guard.old guard.new) (heard_between (standing C.holding self.old) (standing C.holding self.new)) result }
        ensures pending { self.new.1 ≡ self.old.1 }
    {
        let site = peer.site_id();
        if let Err(refusal) = self.check_peer(&site) {
            return Err(refusal);
        }
        let seen = match self.seen(alloc, site) {
            Ok(seen) => seen,
            Err(error) => return Err(Refusal::from(error)),
        };
        let changes = match peer.changes_above(alloc, seen) {
            Ok(changes) => changes,
            Err(error) => return Err(Refusal::from(error)),
        };
        let version = peer.db_version();
        if version < 0 {
            return Err(Refusal::Store(StoreFault::Refused));
        }
        self.take_all(alloc, guard, &changes, Some((site, version)))
    }
}
