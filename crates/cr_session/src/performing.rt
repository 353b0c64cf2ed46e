//! Statements that may be carried out, form by form.

ghost use Rattle.std.specs.Prelude.{◌≡◌, IfErr, IfOk};
ghost use Rattle.cr_term.specs.declared.query.Resolved.TheVariants as r;
ghost use Rattle.cr_language.specs.Sql.{target, view};
ghost use Rattle.cr_world.specs.Resolved as world;
ghost use Rattle.cr_world.specs.State.{State};
ghost use Rattle.cr_world.specs.Statement.{Host, marked_reply, no_default, not_a_table};
ghost use Rattle.cr_lattice.specs.Profile.{lacks_default};
ghost use Rattle.cr_world.specs.Causes.{where_true};
ghost use Rattle.cr_world.specs.declared.refusal.Refusal.TheVariants.{NoDefault};
ghost use Rattle.cr_bags.specs.Bags.{single};
ghost use Rattle.cr_exec.specs.Combinations.{IsOfOneTable};
ghost use Rattle.cr_session.specs.Joining.{Suffice};
ghost use Rattle.cr_session.specs.Lookup.{ShowsQuery, ShowsStrictly};
ghost use Rattle.cr_session.specs.Performing.{IsFound, Passes, Performs, Says, not_replicated};

use crate::filtering::Seen;
use crate::session::Session;
use cr_answer::selecting::{answer_query, answer_rows, answer_view};
use cr_cells::store::Cells;
use cr_expr::given::Hosted;
use cr_guard::guarding::Guarding;
use cr_host::functions::Functions;
use cr_lattice::profile::{lacks_default, no_default};
use cr_lattice::table::{ColumnDef, Items, Row, TableDef};
use cr_replica::definition::DefineError;
use cr_replica::snapshot::Snapshot;
use cr_script::speaking::Watching;
use cr_term::query::{Alter, Create, Held, MarkReplicated, Query, Relation, Resolved};
use cr_value::text::Text;
use cr_value::value::Value;
use cr_world::command::Reply;
use cr_world::refusal::{Refusal, of_definition};
use std::alloc::{AllocError, Global};

/// Only a table can be changed but by INSERT: a module is refused as `ReadOnly`.
pub(crate) fn check_table(alloc: Global, relation: &Relation) -> Result<(), Refusal>
    ensures { Passes (not_a_table (target relation.now)) result }
{
    match relation.held {
        Held::Table(_, _) => Ok(()),
        Held::Module(_) => Err(Refusal::ReadOnly(relation.definition.name.copy(alloc)?)),
    }
}

/// Only a table that is replicated takes rows: another is refused as `NotYet`. A module passes.
pub(crate) fn check_replicated(alloc: Global, relation: &Relation) -> Result<(), Refusal>
    ensures { Passes (not_replicated relation.now) result }
{
    match relation.held {
        Held::Table(_, false) => Err(Refusal::NotYet(relation.definition.name.copy(alloc)?)),
        Held::Table(_, true) | Held::Module(_) => Ok(()),
    }
}

// Each column outside the key that wants a value has a default.
fn check_defaults(alloc: Global, def: &TableDef) -> Result<(), Refusal>
    ensures { Passes (no_default (world.Table def.now)) result }
{
    match no_default(def) {
        Some(place) => Err(of_definition(alloc, def, DefineError::NoDefault(place))),
        None => Ok(()),
    }
}

// A column that wants a value has a default.
fn check_default(alloc: Global, column: &ColumnDef) -> Result<(), Refusal>
    ensures { Passes (where_true (lacks_default column.now) (NoDefault column.now.name)) result }
{
    if lacks_default(column) {
        return Err(Refusal::NoDefault(column.name.copy(alloc)?));
    }
    Ok(())
}

// What the call replies that makes a table replicated.
fn marked_reply(alloc: Global, is_ignored: bool) -> Result<Reply, AllocError>
    ensures { IfOk result (λ reply. reply ≡ marked_reply is_ignored) }
{
    let value = if is_ignored {
        Value::Null
    } else {
        Value::Text(Text::from_str(alloc, "OK")?)
    };
    let mut row = Vec::new(alloc);
    row.push(value)?;
    let mut rows = Vec::new(alloc);
    rows.push(Items::new(row))?;
    Ok(Reply::Rows(Items::new(rows)))
}

// Answers a SELECT over rows of its tables.
fn answered_over<F: Functions>(
    alloc: Global,
    functions: &F,
    tables: &[Items<Row>],
    query: &Query,
    params: &[Value],
) -> Result<Reply, Refusal>
    requires { F.is_faithful functions.now }
    ensures { (host : Host) (st : State) → Suffice (⟦<F as Hosted>⟧.means functions.now) params.now query.now st tables.now → Performs (⟦<F as Hosted>⟧.means functions.now) params.now host st (view (r.Select query.now)) result st }
{
    match answer_query(alloc, functions, tables, query, params) {
        Ok(rows) => Ok(Reply::Rows(rows)),
        Err(refusal) => Err(refusal),
    }
}

// Answers a SELECT of one table over rows of it.
fn answered_of<F: Functions>(
    alloc: Global,
    functions: &F,
    rows: Items<Row>,
    query: &Query,
    params: &[Value],
) -> Result<Reply, Refusal>
    requires { F.is_faithful functions.now }
    ensures { (host : Host) (st : State) → IsOfOneTable query.now → Suffice (⟦<F as Hosted>⟧.means functions.now) params.now query.now st (single rows) → Performs (⟦<F as Hosted>⟧.means functions.now) params.now host st (view (r.Select query.now)) result st }
{
    match answer_rows(alloc, functions, rows, query, params) {
        Ok(rows) => Ok(Reply::Rows(rows)),
        Err(refusal) => Err(refusal),
    }
}

/// Answers a SELECT over what is seen.
///
/// # Errors
/// `Eval` and `TooBig` where an expression has a fault; `Memory`.
pub fn answered<F: Functions>(
    alloc: Global,
    functions: &F,
    snapshot: &Snapshot,
    query: &Query,
    params: &[Value],
) -> Result<Reply, Refusal>
    requires { F.is_faithful functions.now }
    ensures says { (host : Host) (st : State) → ShowsStrictly (⟦<F as Hosted>⟧.means functions.now) params.now query.now st snapshot.now → Says (⟦<F as Hosted>⟧.means functions.now) params.now host st (view (r.Select query.now)) result st }
    ensures finds { (host : Host) (st : State) → ShowsQuery (⟦<F as Hosted>⟧.means functions.now) params.now query.now st snapshot.now → IfErr result (IsFound (⟦<F as Hosted>⟧.means functions.now) params.now host st (view (r.Select query.now))) }
{
    match answer_view(alloc, functions, snapshot, query, params) {
        Ok(shown) => Ok(Reply::Rows(shown)),
        Err(refusal) => Err(refusal),
    }
}

impl<C: Cells> Session<C> {
    ghost use Rattle.std.specs.Prelude.{◌≡◌, true, false, List};
    ghost use Rattle.cr_cells.specs.Holding.{IsSound};
    ghost use Rattle.cr_cells.specs.Tables.{IsNewTable};
    ghost use Rattle.cr_fit.specs.Suited.{FitsIn, HasRelation, Suits};
    ghost use Rattle.cr_replica.specs.Snapshots.{IsWhole};
    ghost use Rattle.cr_scalar.specs.Host.{Host as Means};
    ghost use Rattle.cr_value.specs.declared.value.Value.{Value};
    ghost use Rattle.cr_snapshot.specs.Seen.{IsNamed, catalog_of};
    ghost use Rattle.cr_term.specs.declared.query.Resolved.TheVariants as r;
    ghost use Rattle.cr_world.specs.State.{catalog, heard_between};
    ghost use Rattle.cr_world.specs.Statement.{Host};
    ghost use Rattle.cr_script.specs.Hearing.{Hears};
    ghost use Rattle.cr_session.specs.Joining.{IsJoinOf};
    ghost use Rattle.cr_session.specs.Performing.{Performed, is_performed};
    ghost use Rattle.cr_session.specs.Sessions.{clean, honest, standing};

    // Answers a SELECT of tables that are joined.
    fn select_join<F: Functions>(
        &mut self,
        alloc: Global,
        functions: &F,
        names: &Snapshot,
        query: &Query,
        params: &[Value],
    ) -> Result<Reply, Refusal>
        requires functions { F.is_faithful functions.now }
        requires sound { C.is_clean self.old.0 → IsSound (C.holding self.old.0) }
        requires named { C.is_clean self.old.0 → IsNamed (standing C.holding self.old) names.now }
        requires join { IsJoinOf (⟦<F as Hosted>⟧.means functions.now) self.old.1 names.now.tables query.now }
        ensures { (host : Host) → Performed (⟦<F as Hosted>⟧.means functions.now) params.now host (honest C.is_honest) (clean C.is_clean) (standing C.holding) self.old (r.Select query.now) result self.new }
    {
        match self.see_join(alloc, functions, names.tables.as_slice(), query, params) {
            Ok(tables) => answered_over(alloc, functions, &tables, query, params),
            Err(error) => Err(Refusal::from(error)),
        }
    }

    // Answers a SELECT.
    fn select<F: Functions>(
        &mut self,
        alloc: Global,
        functions: &F,
        names: Snapshot,
        query: &Query,
        params: &[Value],
    ) -> Result<Reply, Refusal>
        requires functions { F.is_faithful functions.now }
        requires sound { C.is_clean self.old.0 → IsSound (C.holding self.old.0) }
        requires named { C.is_clean self.old.0 → IsNamed (standing C.holding self.old) names }
        ensures { (host : Host) → Performed (⟦<F as Hosted>⟧.means functions.now) params.now host (honest C.is_honest) (clean C.is_clean) (standing C.holding) self.old (r.Select query.now) result self.new }
    {
        if self.is_join_of(functions, names.tables.as_slice(), query) {
            return self.select_join(alloc, functions, &names, query, params);
        }
        match self.look_for_query(alloc, functions, names, query, params) {
            Ok(Seen::Kept(snapshot)) => answered(alloc, functions, &snapshot, query, params),
            Ok(Seen::Rows(rows)) => answered_of(alloc, functions, rows, query, params),
            Ok(Seen::Answer(answer)) => Ok(Reply::Rows(answer)),
            Err(error) => Err(Refusal::from(error)),
        }
    }

    // Makes a new table outside of transactions, unless its name is taken and that is no matter.
    fn create(&mut self, alloc: Global, create: &Create) -> Result<Reply, Refusal>
        requires { C.is_clean self.old.0 → create.now.is_there ≡ false → IsNewTable (C.holding self.old.0).tables create.now.definition }
        ensures { (means : Means) (params : List Value) (host : Host) → Performed means params host (honest C.is_honest) (clean C.is_clean) (standing C.holding) self.old (r.Create create.now) result self.new }
    {
        if self.in_transaction() {
            return Err(Refusal::TransactionState);
        }
        if create.is_there {
            return Ok(Reply::Done);
        }
        match self.replica.add_table(alloc, &create.definition) {
            Ok(()) => Ok(Reply::Done),
            Err(error) => Err(Refusal::from(error)),
        }
    }

    // Adds a column to a table outside of transactions.
    fn alter(&mut self, alloc: Global, alter: &Alter) -> Result<Reply, Refusal>
        requires sound { C.is_clean self.old.0 → IsSound (C.holding self.old.0) }
        requires relation { C.is_clean self.old.0 → HasRelation (catalog (standing C.holding self.old)) alter.now.relation }
        requires fits { FitsIn alter.now.relation.definition alter.now.column }
        ensures { (means : Means) (params : List Value) (host : Host) → Performed means params host (honest C.is_honest) (clean C.is_clean) (standing C.holding) self.old (r.Alter alter.now) result self.new }
    {
        if self.in_transaction() {
            return Err(Refusal::TransactionState);
        }
        if let Err(refusal) = check_table(alloc, &alter.relation) {
            return Err(refusal);
        }
        check_default(alloc, &alter.column)?;
        match self.replica.add_column(
            alloc,
            alter.relation.definition.name.as_str(),
            &alter.column,
        ) {
            Ok(()) => Ok(Reply::Done),
            Err(error) => Err(Refusal::from(error)),
        }
    }

    // Makes a table replicated outside of transactions, unless the authorizer ignores the call.
    fn mark_replicated(&mut self, alloc: Global, mark: &MarkReplicated) -> Result<Reply, Refusal>
        requires { C.is_clean self.old.0 → HasRelation (catalog (standing C.holding self.old)) mark.now.relation }
        ensures { (means : Means) (params : List Value) (host : Host) → Performed means params host (honest C.is_honest) (clean C.is_clean) (standing C.holding) self.old (r.MarkReplicated mark.now) result self.new }
    {
        if self.in_transaction() {
            return Err(Refusal::TransactionState);
        }
        if let Err(refusal) = check_table(alloc, &mark.relation) {
            return Err(refusal);
        }
        if let Err(refusal) = check_defaults(alloc, &mark.relation.definition) {
            return Err(refusal);
        }
        let reply = marked_reply(alloc, mark.is_ignored)?;
        if mark.is_ignored {
            return Ok(reply);
        }
        match self
            .replica
            .mark_crr(alloc, mark.relation.definition.name.as_str())
        {
            Ok(()) => Ok(reply),
            Err(error) => Err(Refusal::from(error)),
        }
    }

    /// Carries out a statement that neither opens nor ends a transaction, under these names, with these parameters.
    ///
    /// # Errors
    /// Why the statement is refused, whose names are resolved and which is allowed; then nothing is changed.
    pub fn perform<F: Functions, G: Guarding>(
        &mut self,
        alloc: Global,
        functions: &F,
        guard: &mut G,
        names: Snapshot,
        statement: &Resolved,
        params: &[Value],
    ) -> Result<Reply, Refusal>
        requires functions { F.is_faithful functions.now }
        requires guard { G.is_faithful guard.old }
        requires sound { C.is_clean self.old.0 → IsSound (C.holding self.old.0) }
        requires named { C.is_clean self.old.0 → IsNamed (standing C.holding self.old) names }
        requires whole { IsWhole names }
        requires suits { Suits (catalog_of names) statement.now }
        requires form { is_performed statement.now ≡ true }
        ensures performs { Performed (⟦<F as Hosted>⟧.means functions.now) params.now (⟦<G as Watching>⟧.host guard.old) (honest C.is_honest) (clean C.is_clean) (standing C.holding) self.old statement.now result self.new }
        ensures guard { ⟦<G as Watching>⟧.stays guard.old guard.new }
        ensures heard { C.is_clean self.new.0 → Hears (⟦<G as Watching>⟧.hears guard.old guard.new) (heard_between (standing C.holding self.old) (standing C.holding self.new)) result }
    {
        match statement {
            Resolved::Select(query) => self.select(alloc, functions, names, query, params),
            Resolved::MarkReplicated(mark) => self.mark_replicated(alloc, mark),
            Resolved::Create(create) => self.create(alloc, create),
            Resolved::Insert(insert) => self.insert(alloc, functions, guard, names, insert, params),
            Resolved::Update(update) => self.update(alloc, functions, guard, names, update, params),
            Resolved::Delete(delete) => self.delete(alloc, functions, guard, names, delete, params),
            Resolved::Alter(alter) => self.alter(alloc, alter),
            // No such statement comes here: it is carried out without a look at the store.
            Resolved::Begin | Resolved::Commit | Resolved::Rollback => {
                Err(Refusal::TransactionState)
            }
        }
    }
}
