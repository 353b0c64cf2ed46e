//! A session with all that its host gave it.

use crate::session::HostedSession;
use cr_cells::marks::Mark;
use cr_cells::store::{Cells, CellsError};
use cr_guard::guarding::Guarding;
use cr_host::functions::Functions;
use cr_lattice::change::{Change, Site};
use cr_lattice::stamped::Stamped;
use cr_lattice::table::{Items, Row, TableDef};
use cr_module::module::Module;
use cr_modules::modules::{Modules, StandAll};
use cr_script::executor::Executor;
use cr_script::speaking::{Speaking, Watching};
use cr_session::session::Session;
use cr_value::value::Value;
use cr_world::command::{Reply, Script};
use cr_world::refusal::Refusal;
use std::alloc::Global;

/// A session that has its host's functions and collations, its guard and its table modules with it, as a connection of SQLite has
/// them. Each call promises what that of `HostedSession` promises under these, and leaves the functions as they were and a guard that
/// answers as before.
#[derive(Drop)]
pub struct Connection<C: Cells, F: Functions + Drop, G: Guarding + Drop, M: Drop> {
    hosted: HostedSession<C, M>,
    /// Its functions and collations, to register more.
    pub functions: F,
    /// Its guard, to have it ask, forbid and tell otherwise.
    pub guard: G,
}

impl<C: Cells, F: Functions + Drop, G: Guarding + Drop, M: Module> Connection<C, F, G, M> {
    ghost use Rattle.std.specs.Prelude.{◌≡◌, ◌<◌, ◌≤ℤ◌, ℕ, Bool, List, [], None, Some, Err, ◌++◌, ◌∷◌, length, pos, true, false, is_some, OnErr, OnOk};
    ghost use Rattle.std.specs.Str.{str_to_ascii_lowercase};
    ghost use Rattle.cr_cells.specs.Calls.{Reads, StaysClean, is_want};
    ghost use Rattle.cr_cells.specs.Marks.{seen_of};
    ghost use Rattle.cr_cells.specs.Tables.{has_folded_names};
    ghost use Rattle.cr_meaning.specs.View.{Ordered};
    ghost use Rattle.cr_modules.specs.States.{made};
    ghost use Rattle.cr_script.specs.Hearing.{Hears, HearsAll, heard_of_piece};
    ghost use Rattle.cr_script.specs.Scripts.{CarriesAll, Executed};
    ghost use Rattle.cr_session.specs.Sessions.{Does, IsToldAtOnce, PullsUnless, TakesUnless, changes_reply, clean, honest, reply_of, rows_reply, standing};
    ghost use Rattle.cr_tree.specs.declared.statement.Statement.{Statement};
    ghost use Rattle.cr_world.specs.declared.command.Command.TheVariants.{Define, Rows, Changes};
    ghost use Rattle.cr_world.specs.declared.command.Declaration.TheVariants as declared;
    ghost use Rattle.cr_world.specs.Language.{Language};
    ghost use Rattle.cr_world.specs.Refusals as refusals;
    ghost use Rattle.cr_world.specs.State.{heard_between};
    ghost use Rattle.cr_world.specs.Statement.{Host};
    ghost use Rattle.cr_world.specs.Takings.{at_once, changes_above, pull_cause, pull_since_cause, seen_at, take_cause};
    ghost use Rattle.cr_hosted.specs.Hosted.{IsRegistered};
    ghost use Rattle.cr_world.specs.declared.refusal.Refusal.TheVariants as refusal;
    ghost use Rattle.cr_world.specs.declared.refusal.Limit.TheVariants as limit;

    /// The session with these functions and this guard, and no module yet.
    pub fn new(alloc: Global, session: Session<C>, functions: F, guard: G) -> Connection<C, F, G, M>
        ensures session { result.hosted.session ≡ session }
        ensures modules { ⟦<Modules<M> as StandAll>⟧.states result.hosted.modules ≡ [] }
        ensures functions { result.functions ≡ functions }
        ensures guard { result.guard ≡ guard }
    {
        Connection {
            hosted: HostedSession::new(alloc, session),
            functions,
            guard,
        }
    }

    /// The session as it stands; functions, guard and modules are dropped.
    pub fn into_session(self) -> Session<C>
        ensures { result ≡ self.hosted.session }
    {
        self.hosted.into_session()
    }

    /// Whether a transaction is open.
    pub fn in_transaction(&self) -> bool
        ensures { result ≡ is_some self.now.hosted.session.1 }
    {
        self.hosted.in_transaction()
    }

    /// The site that the replica was made with.
    pub fn site_id(&self) -> Site
        ensures { C.is_clean self.now.hosted.session.0 → result ≡ (C.holding self.now.hosted.session.0).site }
    {
        self.hosted.site_id()
    }

    /// How many commits changed a kept change.
    pub fn db_version(&self) -> i64
        ensures { C.is_clean self.now.hosted.session.0 → result ≡ (C.holding self.now.hosted.session.0).version }
    {
        self.hosted.db_version()
    }

    /// Registers a table module, as `HostedSession::register_module` does.
    ///
    /// # Errors
    /// `BadName`, then `TableExists`; `Memory`, or `Store`. Then the module is dropped, and nothing is changed.
    pub fn register_module(&mut self, alloc: Global, name: &str, host: M) -> Result<(), Refusal>
        ensures device { StaysClean C.is_honest C.is_clean refusals.is_want self.old.hosted.session.0 self.new.hosted.session.0 result }
        ensures registers { C.is_clean self.new.hosted.session.0 → IsRegistered (⟦<HostedSession<C, M> as Executor>⟧.stands self.old.hosted) (made (str_to_ascii_lowercase name.now) (M.columns_of host) (M.rows_of host) (M.updated host)) result (⟦<HostedSession<C, M> as Executor>⟧.stands self.new.hosted) }
        ensures registered { OnOk result (⟦<Modules<M> as StandAll>⟧.states self.new.hosted.modules ≡ ⟦<Modules<M> as StandAll>⟧.states self.old.hosted.modules ++ (made (str_to_ascii_lowercase name.now) (M.columns_of host) (M.rows_of host) (M.updated host) ∷ [])) }
        ensures refused { OnErr result (⟦<Modules<M> as StandAll>⟧.states self.new.hosted.modules ≡ ⟦<Modules<M> as StandAll>⟧.states self.old.hosted.modules) }
        ensures pending { self.new.hosted.session.1 ≡ self.old.hosted.session.1 }
        ensures functions { self.new.functions ≡ self.old.functions }
        ensures guard { self.new.guard ≡ self.old.guard }
    {
        self.hosted.register_module(alloc, name, host)
    }

    /// Makes a replicated table, as `HostedSession::define` does. The names of the definition are in ASCII lower case.
    ///
    /// # Errors
    /// As of `Session::define`, `TableExists` for the name of a module, too. Then nothing is changed.
    pub fn define(&mut self, alloc: Global, def: &TableDef) -> Result<(), Refusal>
        requires { has_folded_names def.now ≡ true }
        ensures does { (has : List ℕ → Bool) (host : Host) → Does (⟦<F as Speaking>⟧.language self.old.functions has) host ⟦<HostedSession<C, M> as Executor>⟧.is_honest ⟦<HostedSession<C, M> as Executor>⟧.is_clean ⟦<HostedSession<C, M> as Executor>⟧.stands self.old.hosted (Define (declared.Table def.now)) (reply_of result) self.new.hosted }
        ensures pending { self.new.hosted.session.1 ≡ self.old.hosted.session.1 }
        ensures modules { self.new.hosted.modules ≡ self.old.hosted.modules }
        ensures functions { self.new.functions ≡ self.old.functions }
        ensures guard { self.new.guard ≡ self.old.guard }
    {
        self.hosted.define(alloc, &self.functions, def)
    }

    /// Runs a script: carries out its statements in order, up to the first that is refused. What was done before it stands.
    ///
    /// # Errors
    /// The script's `refusal`: `Limit` where it is longer than 1,000,000 bytes; `Syntax`, `OutOfProfile` or `Limit` where a
    /// statement can't be read; else why a statement is refused.
    pub fn run(&mut self, alloc: Global, source: &str) -> Script
        requires functions { F.is_faithful self.old.functions }
        requires guard { G.is_faithful self.old.guard }
        ensures carries { (has : List ℕ → Bool) → ⟦<F as Speaking>⟧.are_names self.old.functions has
            → CarriesAll (⟦<F as Speaking>⟧.language self.old.functions has) (⟦<G as Watching>⟧.host self.old.guard) ⟦<HostedSession<C, M> as Executor>⟧.is_honest ⟦<HostedSession<C, M> as Executor>⟧.is_clean ⟦<HostedSession<C, M> as Executor>⟧.stands self.old.hosted ((⟦<F as Speaking>⟧.language self.old.functions has).pieces source.now) result.replies result.refusal self.new.hosted }
        ensures guard { ⟦<G as Watching>⟧.stays self.old.guard self.new.guard }
        ensures heard { (has : List ℕ → Bool) → ⟦<F as Speaking>⟧.are_names self.old.functions has → ⟦<HostedSession<C, M> as Executor>⟧.is_clean self.new.hosted
            → HearsAll (⟦<F as Speaking>⟧.language self.old.functions has) (⟦<G as Watching>⟧.host self.old.guard) ⟦<G as Watching>⟧.hears self.old.guard (⟦<HostedSession<C, M> as Executor>⟧.stands self.old.hosted) ((⟦<F as Speaking>⟧.language self.old.functions has).pieces source.now) result.replies result.refusal self.new.guard }
        ensures functions { self.new.functions ≡ self.old.functions }
        ensures long { 1000000 < length source.now → result.refusal ≡ Some (refusal.Limit limit.Script) }
    {
        self.hosted
            .run(alloc, &self.functions, &mut self.guard, source)
    }

    /// Carries out a text that is one statement, with values for its parameters; a text of blanks, comments and one `;` at
    /// most is done at once.
    ///
    /// # Errors
    /// As of `HostedSession::execute`.
    pub fn execute(
        &mut self,
        alloc: Global,
        source: &str,
        params: &[Value],
    ) -> Result<Reply, Refusal>
        requires functions { F.is_faithful self.old.functions }
        requires guard { G.is_faithful self.old.guard }
        ensures executes { (has : List ℕ → Bool) → ⟦<F as Speaking>⟧.are_names self.old.functions has
            → Executed (⟦<F as Speaking>⟧.language self.old.functions has) (⟦<G as Watching>⟧.host self.old.guard) ⟦<HostedSession<C, M> as Executor>⟧.is_honest ⟦<HostedSession<C, M> as Executor>⟧.is_clean ⟦<HostedSession<C, M> as Executor>⟧.stands self.old.hosted params.now ((⟦<F as Speaking>⟧.language self.old.functions has).single source.now) result self.new.hosted }
        ensures guard { ⟦<G as Watching>⟧.stays self.old.guard self.new.guard }
        ensures heard { (has : List ℕ → Bool) → ⟦<F as Speaking>⟧.are_names self.old.functions has
            → ⟦<HostedSession<C, M> as Executor>⟧.is_clean self.new.hosted → Hears (⟦<G as Watching>⟧.hears self.old.guard self.new.guard) (heard_of_piece ((⟦<F as Speaking>⟧.language self.old.functions has).single source.now) (⟦<HostedSession<C, M> as Executor>⟧.stands self.old.hosted) (⟦<HostedSession<C, M> as Executor>⟧.stands self.new.hosted)) result }
        ensures functions { self.new.functions ≡ self.old.functions }
        ensures long { 1000000 < length source.now → result ≡ Err (refusal.Limit limit.Script) }
    {
        self.hosted
            .execute(alloc, &self.functions, &mut self.guard, source, params)
    }

    /// The version up to which the changes of a peer were taken, by the peer's site: 0 where it has no mark.
    ///
    /// # Errors
    /// `Memory`, or `Store(Refused)`.
    pub fn seen(&mut self, alloc: Global, site: Site) -> Result<i64, CellsError>
        ensures device { StaysClean C.is_honest C.is_clean is_want self.old.hosted.session.0 self.new.hosted.session.0 result }
        ensures reads { C.is_clean self.new.hosted.session.0 → Reads (C.holding self.old.hosted.session.0) (C.holding self.new.hosted.session.0) result
            (λ version. version ≡ seen_of (C.holding self.old.hosted.session.0).marks site) }
        ensures pending { self.new.hosted.session.1 ≡ self.old.hosted.session.1 }
        ensures modules { self.new.hosted.modules ≡ self.old.hosted.modules }
        ensures functions { self.new.functions ≡ self.old.functions }
        ensures guard { self.new.guard ≡ self.old.guard }
    {
        self.hosted.seen(alloc, site)
    }

    /// The rows of a table as the last commit left them, in ascending order: none where it isn't replicated.
    ///
    /// # Errors
    /// `NoSuchTable` where no table has the name, which is looked up as it stands; `Memory`, or `Store`.
    pub fn rows_of(&mut self, alloc: Global, name: &str) -> Result<Items<Row>, Refusal>
        ensures does { (l : Language Statement Ordered) (host : Host) → Does l host (honest C.is_honest) (clean C.is_clean) (standing C.holding) self.old.hosted.session (Rows name.now) (rows_reply result) self.new.hosted.session }
        ensures pending { self.new.hosted.session.1 ≡ self.old.hosted.session.1 }
        ensures modules { self.new.hosted.modules ≡ self.old.hosted.modules }
        ensures functions { self.new.functions ≡ self.old.functions }
        ensures guard { self.new.guard ≡ self.old.guard }
    {
        self.hosted.rows_of(alloc, name)
    }

    /// The kept changes that commits above a version brought, with their stamps and in the order of these.
    ///
    /// # Errors
    /// `Memory`, or `Store(Refused)`.
    pub fn changes_since(&mut self, alloc: Global, version: i64) -> Result<Items<Stamped>, Refusal>
        ensures does { (l : Language Statement Ordered) (host : Host) → Does l host (honest C.is_honest) (clean C.is_clean) (standing C.holding) self.old.hosted.session (Changes version) (changes_reply result) self.new.hosted.session }
        ensures pending { self.new.hosted.session.1 ≡ self.old.hosted.session.1 }
        ensures modules { self.new.hosted.modules ≡ self.old.hosted.modules }
        ensures functions { self.new.functions ≡ self.old.functions }
        ensures guard { self.new.guard ≡ self.old.guard }
    {
        self.hosted.changes_since(alloc, version)
    }

    /// Takes changes, all in one commit or none. Those that lose change nothing.
    ///
    /// # Errors
    /// As of `Session::take`. Then nothing is changed.
    pub fn take(&mut self, alloc: Global, changes: &[Change]) -> Result<(), Refusal>
        requires { G.is_faithful self.old.guard }
        ensures takes { TakesUnless (honest C.is_honest) (clean C.is_clean) (standing C.holding) (λ st. take_cause (⟦<G as Watching>⟧.host self.old.guard) st changes.now None) self.old.hosted.session changes.now None result self.new.hosted.session }
        ensures at_once { IsToldAtOnce (at_once (standing C.holding self.old.hosted.session) None) self.old.hosted.session result self.new.hosted.session }
        ensures guard { ⟦<G as Watching>⟧.stays self.old.guard self.new.guard }
        ensures heard { C.is_clean self.new.hosted.session.0 → Hears (⟦<G as Watching>⟧.hears self.old.guard self.new.guard) (heard_between (standing C.holding self.old.hosted.session) (standing C.holding self.new.hosted.session)) result }
        ensures pending { self.new.hosted.session.1 ≡ self.old.hosted.session.1 }
        ensures modules { self.new.hosted.modules ≡ self.old.hosted.modules }
        ensures functions { self.new.functions ≡ self.old.functions }
    {
        self.hosted.take(alloc, &mut self.guard, changes)
    }

    /// Takes what a peer sent, all in one commit or none, and with it the peer's mark: its site, and its version, at least 0, up to
    /// which its changes were taken.
    ///
    /// # Errors
    /// As of `Session::take_from`. Then nothing is changed.
    pub fn take_from(
        &mut self,
        alloc: Global,
        changes: &[Change],
        mark: Mark,
    ) -> Result<(), Refusal>
        requires faithful { G.is_faithful self.old.guard }
        requires from_0 { pos 0 ≤ℤ mark.1 }
        ensures takes { TakesUnless (honest C.is_honest) (clean C.is_clean) (standing C.holding) (λ st. take_cause (⟦<G as Watching>⟧.host self.old.guard) st changes.now (Some mark)) self.old.hosted.session changes.now (Some mark) result self.new.hosted.session }
        ensures at_once { C.is_clean self.old.hosted.session.0 → IsToldAtOnce (at_once (standing C.holding self.old.hosted.session) (Some mark)) self.old.hosted.session result self.new.hosted.session }
        ensures inside { is_some self.old.hosted.session.1 ≡ true → (result ≡ Err refusal.TransactionState) × (self.new.hosted.session ≡ self.old.hosted.session) }
        ensures guard { ⟦<G as Watching>⟧.stays self.old.guard self.new.guard }
        ensures heard { C.is_clean self.new.hosted.session.0 → Hears (⟦<G as Watching>⟧.hears self.old.guard self.new.guard) (heard_between (standing C.holding self.old.hosted.session) (standing C.holding self.new.hosted.session)) result }
        ensures pending { self.new.hosted.session.1 ≡ self.old.hosted.session.1 }
        ensures modules { self.new.hosted.modules ≡ self.old.hosted.modules }
        ensures functions { self.new.functions ≡ self.old.functions }
    {
        self.hosted.take_from(alloc, &mut self.guard, changes, mark)
    }

    /// Takes all that a peer keeps, in one commit or nothing. The peer stays where it stands.
    ///
    /// # Errors
    /// As of `Session::pull`. Then nothing is changed.
    pub fn pull<D: Cells, E: Functions + Drop, H: Guarding + Drop, N: Drop>(
        &mut self,
        alloc: Global,
        peer: &mut Connection<D, E, H, N>,
    ) -> Result<(), Refusal>
        requires { G.is_faithful self.old.guard }
        ensures pulls { PullsUnless (⟦<G as Watching>⟧.host self.old.guard) false (honest C.is_honest) (clean C.is_clean) (standing C.holding) (honest D.is_honest) (clean D.is_clean) (standing D.holding) (pull_cause (⟦<G as Watching>⟧.host self.old.guard))
            (λ st from. changes_above from (pos 0)) (λ from. None) self.old.hosted.session peer.old.hosted.session result self.new.hosted.session peer.new.hosted.session }
        ensures at_once { C.is_clean self.old.hosted.session.0 → D.is_clean peer.old.hosted.session.0
            → IsToldAtOnce (at_once (standing C.holding self.old.hosted.session) (Some ((standing D.holding peer.old.hosted.session).holding.site, pos 0))) self.old.hosted.session result self.new.hosted.session }
        ensures inside { is_some self.old.hosted.session.1 ≡ true → (result ≡ Err refusal.TransactionState) × (self.new.hosted.session ≡ self.old.hosted.session) × (peer.new.hosted.session ≡ peer.old.hosted.session) }
        ensures peer { peer.new.hosted.session.1 ≡ peer.old.hosted.session.1 }
        ensures guard { ⟦<G as Watching>⟧.stays self.old.guard self.new.guard }
        ensures heard { C.is_clean self.new.hosted.session.0 → Hears (⟦<G as Watching>⟧.hears self.old.guard self.new.guard) (heard_between (standing C.holding self.old.hosted.session) (standing C.holding self.new.hosted.session)) result }
        ensures pending { self.new.hosted.session.1 ≡ self.old.hosted.session.1 }
        ensures modules { self.new.hosted.modules ≡ self.old.hosted.modules }
        ensures functions { self.new.functions ≡ self.old.functions }
        ensures peer_functions { peer.new.functions ≡ peer.old.functions }
        ensures peer_guard { peer.new.guard ≡ peer.old.guard }
        ensures peer_modules { peer.new.hosted.modules ≡ peer.old.hosted.modules }
    {
        self.hosted
            .pull(alloc, &mut self.guard, &mut peer.hosted.session)
    }

    /// Takes what a peer keeps above the version up to which its changes were taken before, in one commit or nothing, and keeps the
    /// peer's version as its mark. The peer stays where it stands.
    ///
    /// # Errors
    /// As of `Session::pull_since`. Then nothing is changed.
    pub fn pull_since<D: Cells, E: Functions + Drop, H: Guarding + Drop, N: Drop>(
        &mut self,
        alloc: Global,
        peer: &mut Connection<D, E, H, N>,
    ) -> Result<(), Refusal>
        requires { G.is_faithful self.old.guard }
        ensures pulls { PullsUnless (⟦<G as Watching>⟧.host self.old.guard) true (honest C.is_honest) (clean C.is_clean) (standing C.holding) (honest D.is_honest) (clean D.is_clean) (standing D.holding) (pull_since_cause (⟦<G as Watching>⟧.host self.old.guard))
            (λ st from. changes_above from (seen_at st from)) (λ from. Some (from.site, from.version)) self.old.hosted.session peer.old.hosted.session result self.new.hosted.session peer.new.hosted.session }
        ensures at_once { C.is_clean self.old.hosted.session.0 → D.is_clean peer.old.hosted.session.0
            → IsToldAtOnce (at_once (standing C.holding self.old.hosted.session) (Some ((standing D.holding peer.old.hosted.session).holding.site, pos 0))) self.old.hosted.session result self.new.hosted.session }
        ensures inside { is_some self.old.hosted.session.1 ≡ true → (result ≡ Err refusal.TransactionState) × (self.new.hosted.session ≡ self.old.hosted.session) × (peer.new.hosted.session ≡ peer.old.hosted.session) }
        ensures peer { peer.new.hosted.session.1 ≡ peer.old.hosted.session.1 }
        ensures guard { ⟦<G as Watching>⟧.stays self.old.guard self.new.guard }
        ensures heard { C.is_clean self.new.hosted.session.0 → Hears (⟦<G as Watching>⟧.hears self.old.guard self.new.guard) (heard_between (standing C.holding self.old.hosted.session) (standing C.holding self.new.hosted.session)) result }
        ensures pending { self.new.hosted.session.1 ≡ self.old.hosted.session.1 }
        ensures modules { self.new.hosted.modules ≡ self.old.hosted.modules }
        ensures functions { self.new.functions ≡ self.old.functions }
        ensures peer_functions { peer.new.functions ≡ peer.old.functions }
        ensures peer_guard { peer.new.guard ≡ peer.old.guard }
        ensures peer_modules { peer.new.hosted.modules ≡ peer.old.hosted.modules }
    {
        self.hosted
            .pull_since(alloc, &mut self.guard, &mut peer.hosted.session)
    }
}
