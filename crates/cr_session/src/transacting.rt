//! BEGIN, COMMIT and ROLLBACK.

ghost use Rattle.std.specs.Prelude.{◌≡◌};
ghost use Rattle.cr_guard.specs.Guard.{asked};
ghost use Rattle.cr_world.specs.Statement.{is_memory};
ghost use Rattle.cr_answer.specs.Allowing.{known_by};
ghost use Rattle.cr_script.specs.Hearing.{asks_commit, is_transaction};
ghost use Rattle.cr_session.specs.Performing.{Permits};

use crate::session::Session;
use cr_answer::allowing::allowed;
use cr_cells::store::Cells;
use cr_guard::guarding::Guarding;
use cr_host::functions::Functions;
use cr_lattice::change::Site;
use cr_lattice::table::Items;
use cr_pending::pending::Pending;
use cr_replica::snapshot::Snapshot;
use cr_script::speaking::{Speaking, Watching};
use cr_tree::statement::Statement;
use cr_value::value::Value;
use cr_world::command::Reply;
use cr_world::refusal::Refusal;
use std::alloc::Global;

fn is_memory(refusal: &Refusal) -> bool
    ensures { result ≡ is_memory refusal.now }
{
    matches!(refusal, Refusal::Memory)
}

// A replica without tables and modules, which a statement that names none may as well be asked of.
fn empty_snapshot(alloc: Global, site: Site) -> Snapshot {
    Snapshot {
        tables: Items::new(Vec::new(alloc)),
        site,
        version: 0,
        cells: Items::new(Vec::new(alloc)),
        kept: Items::new(Vec::new(alloc)),
        modules: Items::new(Vec::new(alloc)),
    }
}

// Whether authorizer and policy allow a statement, with so many parameters.
fn check_allowed<F: Functions, G: Guarding>(
    alloc: Global,
    functions: &F,
    guard: &G,
    snapshot: &Snapshot,
    statement: &Statement,
    count: usize,
) -> Result<(), Refusal>
    requires { G.is_faithful guard.now }
    ensures { Permits (known_by (F.function_of functions.now) (F.names_function functions.now) (F.order_of functions.now) snapshot.now) (asked (G.rules guard.now) (G.allows guard.now)) statement.now count result }
{
    match allowed(alloc, functions, guard, snapshot, statement, count) {
        Ok(resolved) => {
            drop(resolved);
            Ok(())
        }
        Err(refusal) => Err(refusal),
    }
}

/// Whether a statement opens or ends a transaction.
pub fn is_transaction(statement: &Statement) -> bool
    ensures { result ≡ is_transaction statement.now }
{
    match statement {
        Statement::Begin(_) | Statement::Commit | Statement::Rollback => true,
        Statement::Select(_)
        | Statement::Insert(_)
        | Statement::Update(_)
        | Statement::Delete(_)
        | Statement::Create(_)
        | Statement::Alter(_) => false,
    }
}

impl<C: Cells> Session<C> {
    ghost use Rattle.std.specs.Prelude.{◌≡◌, ◌⊎◌, true, false, ℕ, Bool, List, [], None, Some, MatchResult};
    ghost use Rattle.cr_scalar.specs.Host.{Host as Means};
    ghost use Rattle.cr_value.specs.declared.value.Value.{Value};
    ghost use Rattle.cr_world.specs.State.{ModuleState};
    ghost use Rattle.cr_world.specs.Statement.{Host};
    ghost use Rattle.cr_term.specs.declared.query.Resolved.TheVariants as r;
    ghost use Rattle.cr_session.specs.Performing.{Performed, beside, left_open};
    ghost use Rattle.cr_script.specs.Scripts.{Carries};
    ghost use Rattle.cr_session.specs.Sessions.{clean, honest, standing};

    // Opens a transaction.
    fn begin(&mut self, alloc: Global) -> Result<Reply, Refusal>
        ensures performs { (means : Means) (params : List Value) (host : Host) → Performed means params host (honest C.is_honest) (clean C.is_clean) (standing C.holding) self.old r.Begin result self.new }
        ensures store { self.new.0 ≡ self.old.0 }
        ensures opened { MatchResult result (λ _. self.new.1 ≡ Some []) (λ _. self.new.1 ≡ self.old.1) }
    {
        if self.in_transaction() {
            return Err(Refusal::TransactionState);
        }
        self.pending = Some(Pending::new(alloc));
        Ok(Reply::Done)
    }

    // Commits the changes of the open transaction, all or none, and ends it; where memory is wanting, it stays open.
    fn commit<G: Guarding>(&mut self, alloc: Global, guard: &G) -> Result<Reply, Refusal>
        requires { G.is_faithful guard.now }
        ensures performs { (means : Means) (params : List Value) → Performed means params (⟦<G as Watching>⟧.host guard.now) (honest C.is_honest) (clean C.is_clean) (standing C.holding) self.old r.Commit result self.new }
        ensures ended { MatchResult result (λ _. self.new.1 ≡ None) (λ why. (is_memory why ≡ true → self.new.1 ≡ self.old.1) × (is_memory why ≡ false → self.new.1 ≡ None)) }
    {
        let Some(pending) = self.pending.take() else {
            return Err(Refusal::TransactionState);
        };
        match self.commit_shown(alloc, guard, pending.changes()) {
            Ok(reply) => Ok(reply),
            Err(refusal) => {
                if is_memory(&refusal) {
                    self.pending = Some(pending);
                }
                Err(refusal)
            }
        }
    }

    // Ends the open transaction: its changes are gone.
    fn rollback(&mut self) -> Result<Reply, Refusal>
        ensures performs { (means : Means) (params : List Value) (host : Host) → Performed means params host (honest C.is_honest) (clean C.is_clean) (standing C.holding) self.old r.Rollback result self.new }
        ensures store { self.new.0 ≡ self.old.0 }
        ensures ended { MatchResult result (λ _. self.new.1 ≡ None) (λ _. self.new.1 ≡ self.old.1) }
    {
        match self.pending.take() {
            Some(_) => Ok(Reply::Done),
            None => Err(Refusal::TransactionState),
        }
    }

    /// Carries out BEGIN, COMMIT or ROLLBACK, beside any modules. They name no table, so that the store isn't asked which there
    /// are: it may be broken, and a COMMIT that it refuses ends its transaction. BEGIN and ROLLBACK leave it untouched.
    ///
    /// # Errors
    /// Why the statement is refused: `Denied`, `Parameters`, `TransactionState`, and of COMMIT what stands against its changes.
    pub fn transact<F: Functions, G: Guarding>(
        &mut self,
        alloc: Global,
        functions: &F,
        guard: &G,
        statement: &Statement,
        params: &[Value],
    ) -> Result<Reply, Refusal>
        requires guard { G.is_faithful guard.now }
        requires form { is_transaction statement.now ≡ true }
        ensures carries { (ms : List ModuleState) (has : List ℕ → Bool) → ⟦<F as Speaking>⟧.are_names functions.now has
            → Carries (⟦<F as Speaking>⟧.language functions.now has) (⟦<G as Watching>⟧.host guard.now) (honest C.is_honest) (clean C.is_clean) (beside ms (standing C.holding)) self.old params.now statement.now result self.new }
        ensures store { asks_commit statement.now ≡ false → self.new.0 ≡ self.old.0 }
        ensures opened { MatchResult result (λ _. self.new.1 ≡ left_open statement.now) (λ _. (self.new.1 ≡ self.old.1) ⊎ ((asks_commit statement.now ≡ true) × (self.new.1 ≡ None))) }
    {
        let nothing = empty_snapshot(alloc, self.site_id());
        if let Err(refusal) = check_allowed(
            alloc,
            functions,
            guard,
            &nothing,
            statement,
            params.len(),
        ) {
            return Err(refusal);
        }
        match statement {
            Statement::Begin(_) => self.begin(alloc),
            Statement::Commit => self.commit(alloc, guard),
            _ => self.rollback(),
        }
    }
}
