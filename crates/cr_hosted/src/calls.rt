//! The calls of a session that are no SQL: tables are defined, changes taken, given and pulled, rows shown. The modules stand as
//! they stood.

ghost use Rattle.std.specs.Prelude.{◌≡◌, ◌⊎◌, false};
ghost use Rattle.cr_world.specs.declared.refusal.Refusal.TheVariants.{Memory};
ghost use Rattle.cr_world.specs.Refusals.{has_name};
ghost use Rattle.cr_hosted.specs.Hosted.{taken_name};

use crate::session::HostedSession;
use cr_cells::marks::Mark;
use cr_cells::store::{Cells, CellsError};
use cr_guard::guarding::Guarding;
use cr_host::functions::Functions;
use cr_lattice::change::{Change, Site};
use cr_lattice::profile::profile;
use cr_lattice::stamped::Stamped;
use cr_lattice::table::{Items, Row, TableDef};
use cr_module::module::Module;
use cr_replica::definition::DefineError;
use cr_script::executor::Executor;
use cr_script::speaking::{Speaking, Watching};
use cr_session::session::Session;
use cr_world::refusal::{Refusal, of_definition};
use std::alloc::Global;

// What is told of a definition whose name a module has: what it breaks by itself, or else that the name is taken.
fn of_taken_name(alloc: Global, def: &TableDef) -> Refusal
    ensures told { (result ≡ Memory) ⊎ (result ≡ taken_name def.now) }
    ensures nameless { has_name (taken_name def.now) ≡ false → result ≡ taken_name def.now }
{
    match profile(def) {
        Ok(()) => of_definition(alloc, def, DefineError::TableExists),
        Err(fault) => of_definition(alloc, def, DefineError::Profile(fault)),
    }
}

impl<C: Cells, M: Module> HostedSession<C, M> {
    ghost use Rattle.std.specs.Prelude.{◌≤ℤ◌, ℕ, Bool, List, None, Some, Err, pos, true, is_some};
    ghost use Rattle.cr_cells.specs.Calls.{Reads, StaysClean, is_want};
    ghost use Rattle.cr_cells.specs.Marks.{seen_of};
    ghost use Rattle.cr_cells.specs.Tables.{has_folded_names};
    ghost use Rattle.cr_meaning.specs.View.{Ordered};
    ghost use Rattle.cr_script.specs.Hearing.{Hears};
    ghost use Rattle.cr_session.specs.Sessions.{Does, IsToldAtOnce, PullsUnless, TakesUnless, changes_reply, clean, honest, reply_of, rows_reply, standing};
    ghost use Rattle.cr_tree.specs.declared.statement.Statement.{Statement};
    ghost use Rattle.cr_world.specs.declared.command.Command.TheVariants.{Define, Rows, Changes};
    ghost use Rattle.cr_world.specs.declared.command.Declaration.TheVariants as declared;
    ghost use Rattle.cr_world.specs.declared.refusal.Refusal.TheVariants as refusal;
    ghost use Rattle.cr_world.specs.Language.{Language};
    ghost use Rattle.cr_world.specs.State.{heard_between};
    ghost use Rattle.cr_world.specs.Statement.{Host};
    ghost use Rattle.cr_world.specs.Takings.{at_once, changes_above, pull_cause, pull_since_cause, seen_at, take_cause};

    /// Makes a replicated table, as `Session::define` does. A module's name is taken as a table's is.
    ///
    /// # Errors
    /// As of `Session::define`, `TableExists` for the name of a module, too. Then nothing is changed.
    pub fn define<F: Functions>(
        &mut self,
        alloc: Global,
        functions: &F,
        def: &TableDef,
    ) -> Result<(), Refusal>
        requires { has_folded_names def.now ≡ true }
        ensures does { (has : List ℕ → Bool) (host : Host) → Does (⟦<F as Speaking>⟧.language functions.now has) host (⟦<HostedSession<C, M> as Executor>⟧.is_honest) (⟦<HostedSession<C, M> as Executor>⟧.is_clean) (⟦<HostedSession<C, M> as Executor>⟧.stands) self.old (Define (declared.Table def.now)) (reply_of result) self.new }
        ensures pending { self.new.session.1 ≡ self.old.session.1 }
        ensures modules { self.new.modules ≡ self.old.modules }
    {
        if self.modules.has(def.name.as_str()) {
            return Err(of_taken_name(alloc, def));
        }
        self.session.define(alloc, functions, def)
    }

    /// The site that the replica was made with.
    pub fn site_id(&self) -> Site
        ensures { C.is_clean self.now.session.0 → result ≡ (C.holding self.now.session.0).site }
    {
        self.session.site_id()
    }

    /// How many commits changed a kept change.
    pub fn db_version(&self) -> i64
        ensures { C.is_clean self.now.session.0 → result ≡ (C.holding self.now.session.0).version }
    {
        self.session.db_version()
    }

    /// The version up to which the changes of a peer were taken, by the peer's site: 0 where it has no mark.
    ///
    /// # Errors
    /// `Memory`, or `Store(Refused)`.
    pub fn seen(&mut self, alloc: Global, site: Site) -> Result<i64, CellsError>
        ensures device { StaysClean C.is_honest C.is_clean is_want self.old.session.0 self.new.session.0 result }
        ensures reads { C.is_clean self.new.session.0 → Reads (C.holding self.old.session.0) (C.holding self.new.session.0) result
            (λ version. version ≡ seen_of (C.holding self.old.session.0).marks site) }
        ensures pending { self.new.session.1 ≡ self.old.session.1 }
        ensures modules { self.new.modules ≡ self.old.modules }
    {
        self.session.seen(alloc, site)
    }

    /// The rows of a table as the last commit left them, in ascending order: none where it isn't replicated.
    ///
    /// # Errors
    /// `NoSuchTable` where no table has the name, which is looked up as it stands; `Memory`, or `Store`.
    pub fn rows_of(&mut self, alloc: Global, name: &str) -> Result<Items<Row>, Refusal>
        ensures does { (l : Language Statement Ordered) (host : Host) → Does l host (honest C.is_honest) (clean C.is_clean) (standing C.holding) self.old.session (Rows name.now) (rows_reply result) self.new.session }
        ensures pending { self.new.session.1 ≡ self.old.session.1 }
        ensures modules { self.new.modules ≡ self.old.modules }
    {
        self.session.rows_of(alloc, name)
    }

    /// The kept changes that commits above a version brought, with their stamps and in the order of these.
    ///
    /// # Errors
    /// `Memory`, or `Store(Refused)`.
    pub fn changes_since(&mut self, alloc: Global, version: i64) -> Result<Items<Stamped>, Refusal>
        ensures does { (l : Language Statement Ordered) (host : Host) → Does l host (honest C.is_honest) (clean C.is_clean) (standing C.holding) self.old.session (Changes version) (changes_reply result) self.new.session }
        ensures pending { self.new.session.1 ≡ self.old.session.1 }
        ensures modules { self.new.modules ≡ self.old.modules }
    {
        self.session.changes_since(alloc, version)
    }

    /// Takes changes, all in one commit or none. Those that lose change nothing.
    ///
    /// # Errors
    /// As of `Session::take`. Then nothing is changed.
    pub fn take<G: Guarding>(
        &mut self,
        alloc: Global,
        guard: &mut G,
        changes: &[Change],
    ) -> Result<(), Refusal>
        requires { G.is_faithful guard.old }
        ensures takes { TakesUnless (honest C.is_honest) (clean C.is_clean) (standing C.holding) (λ st. take_cause (⟦<G as Watching>⟧.host guard.old) st changes.now None) self.old.session changes.now None result self.new.session }
        ensures at_once { IsToldAtOnce (at_once (standing C.holding self.old.session) None) self.old.session result self.new.session }
        ensures guard { ⟦<G as Watching>⟧.stays guard.old guard.new }
        ensures heard { C.is_clean self.new.session.0 → Hears (⟦<G as Watching>⟧.hears guard.old guard.new) (heard_between (standing C.holding self.old.session) (standing C.holding self.new.session)) result }
        ensures pending { self.new.session.1 ≡ self.old.session.1 }
        ensures modules { self.new.modules ≡ self.old.modules }
    {
        self.session.take(alloc, guard, changes)
    }

    /// Takes what a peer sent, all in one commit or none, and with it the peer's mark: its site, and its version, at least 0, up to
    /// which its changes were taken.
    ///
    /// # Errors
    /// As of `Session::take_from`. Then nothing is changed.
    pub fn take_from<G: Guarding>(
        &mut self,
        alloc: Global,
        guard: &mut G,
        changes: &[Change],
        mark: Mark,
    ) -> Result<(), Refusal>
        requires faithful { G.is_faithful guard.old }
        requires from_0 { pos 0 ≤ℤ mark.1 }
        ensures takes { TakesUnless (honest C.is_honest) (clean C.is_clean) (standing C.holding) (λ st. take_cause (⟦<G as Watching>⟧.host guard.old) st changes.now (Some mark)) self.old.session changes.now (Some mark) result self.new.session }
        ensures at_once { C.is_clean self.old.session.0 → IsToldAtOnce (at_once (standing C.holding self.old.session) (Some mark)) self.old.session result self.new.session }
        ensures inside { is_some self.old.session.1 ≡ true → (result ≡ Err refusal.TransactionState) × (self.new.session ≡ self.old.session) }
        ensures guard { ⟦<G as Watching>⟧.stays guard.old guard.new }
        ensures heard { C.is_clean self.new.session.0 → Hears (⟦<G as Watching>⟧.hears guard.old guard.new) (heard_between (standing C.holding self.old.session) (standing C.holding self.new.session)) result }
        ensures pending { self.new.session.1 ≡ self.old.session.1 }
        ensures modules { self.new.modules ≡ self.old.modules }
    {
        self.session.take_from(alloc, guard, changes, mark)
    }

    /// Takes all that a peer keeps, in one commit or nothing. The peer stays where it stands.
    ///
    /// # Errors
    /// As of `Session::pull`. Then nothing is changed.
    pub fn pull<D: Cells, G: Guarding>(
        &mut self,
        alloc: Global,
        guard: &mut G,
        peer: &mut Session<D>,
    ) -> Result<(), Refusal>
        requires { G.is_faithful guard.old }
        ensures pulls { PullsUnless (⟦<G as Watching>⟧.host guard.old) false (honest C.is_honest) (clean C.is_clean) (standing C.holding) (honest D.is_honest) (clean D.is_clean) (standing D.holding) (pull_cause (⟦<G as Watching>⟧.host guard.old))
            (λ st from. changes_above from (pos 0)) (λ from. None) self.old.session peer.old result self.new.session peer.new }
        ensures at_once { C.is_clean self.old.session.0 → D.is_clean peer.old.0
            → IsToldAtOnce (at_once (standing C.holding self.old.session) (Some ((standing D.holding peer.old).holding.site, pos 0))) self.old.session result self.new.session }
        ensures inside { is_some self.old.session.1 ≡ true → (result ≡ Err refusal.TransactionState) × (self.new.session ≡ self.old.session) × (peer.new ≡ peer.old) }
        ensures peer { peer.new.1 ≡ peer.old.1 }
        ensures guard { ⟦<G as Watching>⟧.stays guard.old guard.new }
        ensures heard { C.is_clean self.new.session.0 → Hears (⟦<G as Watching>⟧.hears guard.old guard.new) (heard_between (standing C.holding self.old.session) (standing C.holding self.new.session)) result }
        ensures pending { self.new.session.1 ≡ self.old.session.1 }
        ensures modules { self.new.modules ≡ self.old.modules }
    {
        self.session.pull(alloc, guard, peer)
    }

    /// Takes what a peer keeps above the version up to which its changes were taken before, in one commit or nothing, and keeps the
    /// peer's version as its mark. The peer stays where it stands.
    ///
    /// # Errors
    /// As of `Session::pull_since`. Then nothing is changed.
    pub fn pull_since<D: Cells, G: Guarding>(
        &mut self,
        alloc: Global,
        guard: &mut G,
        peer: &mut Session<D>,
    ) -> Result<(), Refusal>
        requires { G.is_faithful guard.old }
        ensures pulls { PullsUnless (⟦<G as Watching>⟧.host guard.old) true (honest C.is_honest) (clean C.is_clean) (standing C.holding) (honest D.is_honest) (clean D.is_clean) (standing D.holding) (pull_since_cause (⟦<G as Watching>⟧.host guard.old))
            (λ st from. changes_above from (seen_at st from)) (λ from. Some (from.site, from.version)) self.old.session peer.old result self.new.session peer.new }
        ensures at_once { C.is_clean self.old.session.0 → D.is_clean peer.old.0
            → IsToldAtOnce (at_once (standing C.holding self.old.session) (Some ((standing D.holding peer.old).holding.site, pos 0))) self.old.session result self.new.session }
        ensures inside { is_some self.old.session.1 ≡ true → (result ≡ Err refusal.TransactionState) × (self.new.session ≡ self.old.session) × (peer.new ≡ peer.old) }
        ensures peer { peer.new.1 ≡ peer.old.1 }
        ensures guard { ⟦<G as Watching>⟧.stays guard.old guard.new }
        ensures heard { C.is_clean self.new.session.0 → Hears (⟦<G as Watching>⟧.hears guard.old guard.new) (heard_between (standing C.holding self.old.session) (standing C.holding self.new.session)) result }
        ensures pending { self.new.session.1 ≡ self.old.session.1 }
        ensures modules { self.new.modules ≡ self.old.modules }
    {
        self.session.pull_since(alloc, guard, peer)
    }
}
