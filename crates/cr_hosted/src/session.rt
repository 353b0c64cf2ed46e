//! A session whose host has table modules.

ghost use Rattle.std.specs.Prelude.{◌≡◌};
ghost use Rattle.cr_world.specs.Refusals as refusals;

use cr_answer::allowing::allowed;
use cr_cells::store::{Cells, CellsError};
use cr_guard::guarding::Guarding;
use cr_host::functions::Functions;
use cr_module::module::Module;
use cr_modules::modules::{Modules, StandAll};
use cr_replica::snapshot::Snapshot;
use cr_script::executor::Executor;
use cr_script::script::run_script;
use cr_script::single::execute;
use cr_script::speaking::{Speaking, Watching};
use cr_session::session::Session;
use cr_session::transacting::is_transaction;
use cr_tree::statement::Statement;
use cr_value::value::Value;
use cr_world::command::{Reply, Script};
use cr_world::refusal::Refusal;
use std::alloc::Global;

/// A session, and the table modules of its host, all of one type: a host with several has an enum. A statement may name
/// tables and modules: SELECT reads the rows of either, and INSERT hands rows to a module in one update. What a module's
/// update changes is no part of a transaction, so that it is refused inside one.
#[derive(Drop)]
pub struct HostedSession<C: Cells, M: Drop> {
    pub(crate) session: Session<C>,
    pub(crate) modules: Modules<M>,
}

impl<C: Cells, M: Module> HostedSession<C, M> {
    ghost use Rattle.std.specs.Prelude.{◌<◌, ◌++◌, ◌∷◌, ℕ, Bool, List, [], Some, Err, IfOk, OnErr, OnOk, is_some, length, map};
    ghost use Rattle.std.specs.Str.{str_to_ascii_lowercase};
    ghost use Rattle.cr_cells.specs.Calls.{is_want, StaysClean};
    ghost use Rattle.cr_cells.specs.Holding.{IsSound};
    ghost use Rattle.cr_fit.specs.Folded.{DefinesFolded};
    ghost use Rattle.cr_replica.specs.Snapshots.{IsWhole};
    ghost use Rattle.cr_modules.specs.States.{definition_listed, made};
    ghost use Rattle.cr_script.specs.Hearing.{Hears, HearsAll, heard_of_piece, heard_of_statement};
    ghost use Rattle.cr_script.specs.Scripts.{Carries, CarriesAll, Executed};
    ghost use Rattle.cr_session.specs.Sessions.{Names};
    ghost use Rattle.cr_hosted.specs.Hosted.{IsRegistered, alone};
    ghost use Rattle.cr_world.specs.declared.refusal.Refusal.TheVariants as refusal;
    ghost use Rattle.cr_world.specs.declared.refusal.Limit.TheVariants as limit;

    /// The session, with no module yet.
    pub fn new(alloc: Global, session: Session<C>) -> HostedSession<C, M>
        ensures session { result.session ≡ session }
        ensures modules { ⟦<Modules<M> as StandAll>⟧.states result.modules ≡ [] }
    {
        HostedSession {
            session,
            modules: Modules::new(alloc),
        }
    }

    /// The session as it stands; the modules are dropped.
    pub fn into_session(self) -> Session<C>
        ensures { result ≡ self.session }
    {
        self.session
    }

    /// Whether a transaction is open.
    pub fn in_transaction(&self) -> bool
        ensures { result ≡ is_some self.now.session.1 }
    {
        self.session.in_transaction()
    }

    // What a statement may name: what the session has, and the modules.
    fn names(&mut self, alloc: Global) -> Result<Snapshot, CellsError>
        ensures device { StaysClean C.is_honest C.is_clean is_want self.old.session.0 self.new.session.0 result }
        ensures sound { C.is_clean self.new.session.0 → IsSound (C.holding self.new.session.0) }
        ensures names { C.is_clean self.new.session.0 → Names (⟦<HostedSession<C, M> as Executor>⟧.stands self.old) (⟦<HostedSession<C, M> as Executor>⟧.stands self.new) result }
        ensures modules { self.new.modules ≡ self.old.modules }
        ensures listed { IfOk result (λ names. names.modules ≡ map definition_listed (⟦<Modules<M> as StandAll>⟧.states self.old.modules)) }
        ensures whole { IfOk result (λ names. IsWhole (alone names)) }
    {
        let mut names = match self.session.names(alloc) {
            Ok(names) => names,
            Err(error) => return Err(error),
        };
        names.modules = self.modules.definitions(alloc)?;
        Ok(names)
    }

    // Carries out a statement, with values for its parameters.
    fn carry_out<F: Functions, G: Guarding>(
        &mut self,
        alloc: Global,
        functions: &F,
        guard: &mut G,
        statement: &Statement,
        params: &[Value],
    ) -> Result<Reply, Refusal>
        requires functions { F.is_faithful functions.now }
        requires guard { G.is_faithful guard.old }
        requires folded { DefinesFolded statement.now }
        ensures carries { (has : List ℕ → Bool) → ⟦<F as Speaking>⟧.are_names functions.now has
            → Carries (⟦<F as Speaking>⟧.language functions.now has) (⟦<G as Watching>⟧.host guard.old) (⟦<HostedSession<C, M> as Executor>⟧.is_honest) (⟦<HostedSession<C, M> as Executor>⟧.is_clean) (⟦<HostedSession<C, M> as Executor>⟧.stands) self.old params.now statement.now result self.new }
        ensures guard { ⟦<G as Watching>⟧.stays guard.old guard.new }
        ensures heard { (⟦<HostedSession<C, M> as Executor>⟧.is_clean) self.new → Hears (⟦<G as Watching>⟧.hears guard.old guard.new) (heard_of_statement statement.now (⟦<HostedSession<C, M> as Executor>⟧.stands self.old) (⟦<HostedSession<C, M> as Executor>⟧.stands self.new)) result }
    {
        if is_transaction(statement) {
            return self
                .session
                .transact(alloc, functions, guard, statement, params);
        }
        let names = match self.names(alloc) {
            Ok(names) => names,
            Err(error) => return Err(Refusal::from(error)),
        };
        let resolved = match allowed(alloc, functions, guard, &names, statement, params.len()) {
            Ok(resolved) => resolved,
            Err(refusal) => return Err(refusal),
        };
        let reply = self.perform(alloc, functions, guard, names, &resolved, params);
        drop(resolved);
        reply
    }

    /// Registers a table module under a name in whatever case, which is kept in ASCII lower case. From then on statements may
    /// name it. Tables and modules share their names.
    ///
    /// # Errors
    /// `BadName` where the name is empty or begins with `sqlite_` or `crsql_`; `TableExists` where a table or a module has it;
    /// `Memory`, or `Store`. Then the module is dropped, and nothing is changed.
    pub fn register_module(&mut self, alloc: Global, name: &str, host: M) -> Result<(), Refusal>
        ensures device { StaysClean C.is_honest C.is_clean refusals.is_want self.old.session.0 self.new.session.0 result }
        ensures registers { C.is_clean self.new.session.0 → IsRegistered (⟦<HostedSession<C, M> as Executor>⟧.stands self.old) (made (str_to_ascii_lowercase name.now) (M.columns_of host) (M.rows_of host) (M.updated host)) result (⟦<HostedSession<C, M> as Executor>⟧.stands self.new) }
        ensures registered { OnOk result (⟦<Modules<M> as StandAll>⟧.states self.new.modules ≡ ⟦<Modules<M> as StandAll>⟧.states self.old.modules ++ (made (str_to_ascii_lowercase name.now) (M.columns_of host) (M.rows_of host) (M.updated host) ∷ [])) }
        ensures refused { OnErr result (⟦<Modules<M> as StandAll>⟧.states self.new.modules ≡ ⟦<Modules<M> as StandAll>⟧.states self.old.modules) }
        ensures pending { self.new.session.1 ≡ self.old.session.1 }
    {
        let names = match self.session.names(alloc) {
            Ok(names) => names,
            Err(error) => return Err(Refusal::from(error)),
        };
        self.modules
            .register(alloc, names.tables.as_slice(), name, host)
    }

    /// Runs a script: carries out its statements in order, up to the first that is refused. What was done before it stands.
    ///
    /// # Errors
    /// The script's `refusal`: `Limit` where it is longer than 1,000,000 bytes, and then no want of memory is told; `Syntax`,
    /// `OutOfProfile` or `Limit` where a statement can't be read; else why a statement is refused.
    pub fn run<F: Functions, G: Guarding>(
        &mut self,
        alloc: Global,
        functions: &F,
        guard: &mut G,
        source: &str,
    ) -> Script
        requires functions { F.is_faithful functions.now }
        requires guard { G.is_faithful guard.old }
        ensures carries { (has : List ℕ → Bool) → ⟦<F as Speaking>⟧.are_names functions.now has
            → CarriesAll (⟦<F as Speaking>⟧.language functions.now has) (⟦<G as Watching>⟧.host guard.old) (⟦<HostedSession<C, M> as Executor>⟧.is_honest) (⟦<HostedSession<C, M> as Executor>⟧.is_clean) (⟦<HostedSession<C, M> as Executor>⟧.stands) self.old ((⟦<F as Speaking>⟧.language functions.now has).pieces source.now) result.replies result.refusal self.new }
        ensures guard { ⟦<G as Watching>⟧.stays guard.old guard.new }
        ensures heard { (has : List ℕ → Bool) → ⟦<F as Speaking>⟧.are_names functions.now has → (⟦<HostedSession<C, M> as Executor>⟧.is_clean) self.new
            → HearsAll (⟦<F as Speaking>⟧.language functions.now has) (⟦<G as Watching>⟧.host guard.old) (⟦<G as Watching>⟧.hears) guard.old ((⟦<HostedSession<C, M> as Executor>⟧.stands) self.old) ((⟦<F as Speaking>⟧.language functions.now has).pieces source.now) result.replies result.refusal guard.new }
        ensures long { 1000000 < length source.now → result.refusal ≡ Some (refusal.Limit limit.Script) }
    {
        run_script(alloc, self, functions, guard, source)
    }

    /// Carries out a text that is one statement, with values for its parameters; a text of blanks, comments and one `;` at
    /// most is done at once.
    ///
    /// # Errors
    /// `Limit` where the text is longer than 1,000,000 bytes, and then no want of memory is told; `Syntax`, `OutOfProfile`
    /// or `Limit` where it can't be read, with `Syntax` for what stands behind its `;`; else why the statement is refused,
    /// `Parameters` where it has more parameters than there are values, or fewer. Nothing is changed then, but that a
    /// COMMIT which is refused as it is carried out ends its transaction, unless for want of memory.
    pub fn execute<F: Functions, G: Guarding>(
        &mut self,
        alloc: Global,
        functions: &F,
        guard: &mut G,
        source: &str,
        params: &[Value],
    ) -> Result<Reply, Refusal>
        requires functions { F.is_faithful functions.now }
        requires guard { G.is_faithful guard.old }
        ensures executes { (has : List ℕ → Bool) → ⟦<F as Speaking>⟧.are_names functions.now has
            → Executed (⟦<F as Speaking>⟧.language functions.now has) (⟦<G as Watching>⟧.host guard.old) (⟦<HostedSession<C, M> as Executor>⟧.is_honest) (⟦<HostedSession<C, M> as Executor>⟧.is_clean) (⟦<HostedSession<C, M> as Executor>⟧.stands) self.old params.now ((⟦<F as Speaking>⟧.language functions.now has).single source.now) result self.new }
        ensures guard { ⟦<G as Watching>⟧.stays guard.old guard.new }
        ensures heard { (has : List ℕ → Bool) → ⟦<F as Speaking>⟧.are_names functions.now has
            → (⟦<HostedSession<C, M> as Executor>⟧.is_clean) self.new → Hears (⟦<G as Watching>⟧.hears guard.old guard.new) (heard_of_piece ((⟦<F as Speaking>⟧.language functions.now has).single source.now) (⟦<HostedSession<C, M> as Executor>⟧.stands self.old) (⟦<HostedSession<C, M> as Executor>⟧.stands self.new)) result }
        ensures long { 1000000 < length source.now → result ≡ Err (refusal.Limit limit.Script) }
    {
        execute(alloc, self, functions, guard, source, params)
    }
}

impl<C: Cells, M: Module> Executor for HostedSession<C, M> {
    ghost use Rattle.cr_session.specs.Sessions.{clean, honest, standing};
    ghost use Rattle.cr_session.specs.Performing.{placed};

    ghost stands = { λ s. placed (⟦<Modules<M> as StandAll>⟧.states s.modules) (standing C.holding s.session) };

    ghost is_honest = { λ s. honest C.is_honest s.session };

    ghost is_clean = { λ s. clean C.is_clean s.session };

    fn statement<F: Functions, G: Guarding>(
        &mut self,
        alloc: Global,
        functions: &F,
        guard: &mut G,
        statement: &Statement,
        params: &[Value],
    ) -> Result<Reply, Refusal> {
        self.carry_out(alloc, functions, guard, statement, params)
    }
}
