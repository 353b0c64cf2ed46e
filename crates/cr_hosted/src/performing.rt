//! Statements that may be carried out, and touch modules.

ghost use Rattle.std.specs.Prelude.{◌≡◌, ◌⊎◌};
ghost use Rattle.cr_world.specs.declared.refusal.Refusal.TheVariants as refusal;
ghost use Rattle.cr_hosted.specs.Hosted.{alone};

use crate::session::HostedSession;
use crate::touching::touches;
use cr_cells::store::Cells;
use cr_expr::given::Hosted;
use cr_guard::guarding::Guarding;
use cr_host::functions::Functions;
use cr_lattice::table::Items;
use cr_module::module::Module;
use cr_modules::modules::{Modules, StandAll};
use cr_replica::snapshot::Snapshot;
use cr_script::executor::Executor;
use cr_script::speaking::Watching;
use cr_session::performing::answered;
use cr_term::query::{Insert, Query, Relation, Resolved};
use cr_value::value::Value;
use cr_wanted::insert::inserted_rows;
use cr_world::command::Reply;
use cr_world::refusal::Refusal;
use std::alloc::Global;

// The snapshot without its modules.
fn without_modules(alloc: Global, mut names: Snapshot) -> Snapshot
    ensures { result ≡ alone names }
{
    names.modules = Items::new(Vec::new(alloc));
    names
}

// A module is changed by INSERT alone.
fn read_only(alloc: Global, relation: &Relation) -> Refusal
    ensures { (result ≡ refusal.Memory) ⊎ (result ≡ refusal.ReadOnly relation.now.definition.name) }
{
    match relation.definition.name.copy(alloc) {
        Ok(name) => Refusal::ReadOnly(name),
        Err(_) => Refusal::Memory,
    }
}

impl<C: Cells, M: Module> HostedSession<C, M> {
    ghost use Rattle.std.specs.Prelude.{true, false, is_some, map};
    ghost use Rattle.std.specs.Option.{ForSome};
    ghost use Rattle.cr_value.specs.declared.value.Value.{Value};
    ghost use Rattle.cr_cells.specs.Holding.{IsSound};
    ghost use Rattle.cr_fit.specs.Suited.{Suits};
    ghost use Rattle.cr_language.specs.Sql.{target, view};
    ghost use Rattle.cr_modules.specs.States.{definition_listed, module_in};
    ghost use Rattle.cr_replica.specs.Snapshots.{IsWhole};
    ghost use Rattle.cr_snapshot.specs.Seen.{IsNamed, catalog_of};
    ghost use Rattle.cr_term.specs.declared.query.Resolved.TheVariants as r;
    ghost use Rattle.cr_world.specs.State.{heard_between};
    ghost use Rattle.cr_world.specs.Statement.{Host, is_module_target, touches};
    ghost use Rattle.cr_script.specs.Hearing.{Hears};
    ghost use Rattle.cr_session.specs.Performing.{PerformedWith, is_performed};
    ghost use Rattle.cr_session.specs.Sessions.{standing};

    // Answers a SELECT that names a module.
    fn select<F: Functions>(
        &mut self,
        alloc: Global,
        functions: &F,
        names: Snapshot,
        query: &Query,
        params: &[Value],
    ) -> Result<Reply, Refusal>
        requires functions { F.is_faithful functions.now }
        requires sound { C.is_clean self.old.session.0 → IsSound (C.holding self.old.session.0) }
        requires named { C.is_clean self.old.session.0 → IsNamed (standing C.holding self.old.session) names }
        requires touched { touches (⟦<Modules<M> as StandAll>⟧.states self.old.modules) (view (r.Select query.now)) ≡ true }
        ensures { (host : Host) → PerformedWith (⟦<F as Hosted>⟧.means functions.now) params.now host (⟦<HostedSession<C, M> as Executor>⟧.is_honest) (⟦<HostedSession<C, M> as Executor>⟧.is_clean) (⟦<HostedSession<C, M> as Executor>⟧.stands) self.old (r.Select query.now) result self.new }
    {
        let joined = query.joined.as_slice();
        let mut snapshot = match self.session.see_joined(alloc, names, joined) {
            Ok(snapshot) => snapshot,
            Err(error) => return Err(Refusal::from(error)),
        };
        let tables = snapshot.tables.as_slice();
        snapshot.modules = self.listings(alloc, functions, tables, query, params)?;
        answered(alloc, functions, &snapshot, query, params)
    }

    // Hands rows to a module, which a transaction forbids: they are no part of it.
    fn insert<F: Functions>(
        &mut self,
        alloc: Global,
        functions: &F,
        insert: &Insert,
        params: &[Value],
    ) -> Result<Reply, Refusal>
        requires functions { F.is_faithful functions.now }
        requires of_host { is_module_target (target insert.now.relation) ≡ true }
        requires columns { ForSome (module_in (⟦<Modules<M> as StandAll>⟧.states self.old.modules) insert.now.relation.definition.name) (λ m. m.columns ≡ insert.now.relation.definition.columns) }
        ensures performs { (host : Host) → PerformedWith (⟦<F as Hosted>⟧.means functions.now) params.now host (⟦<HostedSession<C, M> as Executor>⟧.is_honest) (⟦<HostedSession<C, M> as Executor>⟧.is_clean) (⟦<HostedSession<C, M> as Executor>⟧.stands) self.old (r.Insert insert.now) result self.new }
        ensures session { self.new.session ≡ self.old.session }
        ensures inside { is_some self.old.session.1 ≡ true → result ≡ Err refusal.TransactionState }
    {
        if self.session.in_transaction() {
            return Err(Refusal::TransactionState);
        }
        if insert.is_ignored {
            return Ok(Reply::Done);
        }
        let definition = &insert.relation.definition;
        let columns = definition.columns.as_slice();
        let rows = match inserted_rows(alloc, columns, insert, functions, params) {
            Ok(rows) => rows,
            Err(fault) => return Err(Refusal::from(fault)),
        };
        match self.modules.update(alloc, definition.name.as_str(), &rows) {
            Ok(()) => Ok(Reply::Done),
            Err(refusal) => Err(refusal),
        }
    }

    // Why a module neither becomes replicated nor gets a column.
    fn not_a_table(&self, alloc: Global, relation: &Relation) -> Refusal
        ensures { ((is_some self.now.session.1 ≡ true) × (result ≡ refusal.TransactionState))
            ⊎ ((is_some self.now.session.1 ≡ false) × ((result ≡ refusal.Memory) ⊎ (result ≡ refusal.ReadOnly relation.now.definition.name))) }
    {
        if self.session.in_transaction() {
            return Refusal::TransactionState;
        }
        read_only(alloc, relation)
    }

    /// Carries out a statement that neither opens nor ends a transaction, under these names, with these parameters.
    ///
    /// # Errors
    /// Why the statement is refused, whose names are resolved and which is allowed; then nothing is changed.
    pub(crate) fn perform<F: Functions, G: Guarding>(
        &mut self,
        alloc: Global,
        functions: &F,
        guard: &mut G,
        names: Snapshot,
        statement: &Resolved,
        params: &[Value],
    ) -> Result<Reply, Refusal>
        requires functions { F.is_faithful functions.now }
        requires guard { G.is_faithful guard.old }
        requires sound { C.is_clean self.old.session.0 → IsSound (C.holding self.old.session.0) }
        requires named { C.is_clean self.old.session.0 → IsNamed (⟦<HostedSession<C, M> as Executor>⟧.stands self.old) names }
        requires whole { IsWhole (alone names) }
        requires listed { names.modules ≡ map definition_listed (⟦<Modules<M> as StandAll>⟧.states self.old.modules) }
        requires suits { Suits (catalog_of names) statement.now }
        requires form { is_performed statement.now ≡ true }
        ensures performs { PerformedWith (⟦<F as Hosted>⟧.means functions.now) params.now (⟦<G as Watching>⟧.host guard.old) (⟦<HostedSession<C, M> as Executor>⟧.is_honest) (⟦<HostedSession<C, M> as Executor>⟧.is_clean) (⟦<HostedSession<C, M> as Executor>⟧.stands) self.old statement.now result self.new }
        ensures guard { ⟦<G as Watching>⟧.stays guard.old guard.new }
        ensures heard { (⟦<HostedSession<C, M> as Executor>⟧.is_clean) self.new → Hears (⟦<G as Watching>⟧.hears guard.old guard.new) (heard_between (⟦<HostedSession<C, M> as Executor>⟧.stands self.old) (⟦<HostedSession<C, M> as Executor>⟧.stands self.new)) result }
    {
        let touches = touches(&self.modules, statement);
        let names = without_modules(alloc, names);
        if !touches {
            return self
                .session
                .perform(alloc, functions, guard, names, statement, params);
        }
        match statement {
            Resolved::Select(query) => self.select(alloc, functions, names, query, params),
            Resolved::Insert(insert) => self.insert(alloc, functions, insert, params),
            Resolved::Update(update) => Err(read_only(alloc, &update.relation)),
            Resolved::Delete(delete) => Err(read_only(alloc, &delete.relation)),
            Resolved::MarkReplicated(mark) => Err(self.not_a_table(alloc, &mark.relation)),
            Resolved::Alter(alter) => Err(self.not_a_table(alloc, &alter.relation)),
            // No such statement touches a module.
            Resolved::Create(_) | Resolved::Begin | Resolved::Commit | Resolved::Rollback => {
                Err(Refusal::TransactionState)
            }
        }
    }
}
