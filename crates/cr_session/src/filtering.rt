//! What a statement of one table sees whose WHERE tells no keys. A replicated table is read page by page: a query sees the rows that its
//! WHERE may keep, or the answer, where its results are made of aggregates; a write sees the keys of these rows, if they are few. Of
//! another table what is kept is seen.

ghost use Rattle.std.specs.Prelude.{◌≡◌, []};
ghost use Rattle.std.specs.Option.{ForSome, option_copied, option_map_or};
ghost use Rattle.cr_session.specs.Scans.{IsReplicated};

use crate::session::Session;
use cr_cells::store::{Cells, CellsError, StoreFault};
use cr_cells::tables::table_named;
use cr_changed::write::check_rows;
use cr_delta::key::keys_of;
use cr_expr::given::Hosted;
use cr_host::functions::Functions;
use cr_lattice::change::Change;
use cr_lattice::table::{Items, Row, Table, TableDef};
use cr_pending::pending::Pending;
use cr_pushdown::scan::passing_rows;
use cr_replica::snapshot::Snapshot;
use cr_tally::answer::answer_by_tallies;
use cr_term::expr::Expr;
use cr_term::query::Query;
use cr_value::text::Bytes;
use cr_value::value::Value;
use std::alloc::Global;

/// How many keys a write looks up at most that it finds by its WHERE.
const MOST_KEYS: usize = 4_096;

/// What a query sees.
#[derive(Drop)]
pub(crate) enum Seen {
    /// What is kept.
    Kept(Snapshot),
    /// Rows of its one table.
    Rows(Items<Row>),
    /// What it answers.
    Answer(Items<Row>),
}

// The changes of a transaction, if one is open.
fn changes_of(pending: &Option<Pending>) -> &[Change]
    ensures { result.now ≡ option_map_or (λ p. p.1) pending.now [] }
{
    match pending {
        Some(pending) => pending.changes(),
        None => &[],
    }
}

// The table of a name, where it is replicated.
fn replicated_named<'a>(tables: &'a [Table], name: &str) -> Option<&'a Table>
    ensures { ForSome (option_copied result) (IsReplicated tables.now name.now) }
{
    let table = table_named(tables, name)?;
    if table.is_replicated {
        Some(table)
    } else {
        None
    }
}

impl<C: Cells> Session<C> {
    ghost use Rattle.std.specs.Prelude.{◌≡◌, IfOk};
    ghost use Rattle.std.specs.Option.{ForSome};
    ghost use Rattle.cr_bags.specs.Bags.{single};
    ghost use Rattle.cr_cells.specs.Calls.{is_want, StaysClean};
    ghost use Rattle.cr_cells.specs.Holding.{IsSound};
    ghost use Rattle.cr_exec.specs.Answers.{IsMeant};
    ghost use Rattle.cr_exec.specs.Combinations.{IsOfOneTable};
    ghost use Rattle.cr_lattice.specs.Rows.{rows};
    ghost use Rattle.cr_meaning.specs.View as view;
    ghost use Rattle.cr_pushdown.specs.Passing.{passing};
    ghost use Rattle.cr_query.specs.Query.{answer};
    ghost use Rattle.cr_snapshot.specs.Seen.{IsNamed};
    ghost use Rattle.cr_world.specs.State.{now};
    ghost use Rattle.cr_replica.specs.Snapshots.{IsWhole};
    ghost use Rattle.cr_wanted.specs.Judged.{AreWide};
    ghost use Rattle.cr_session.specs.Joining.{Finds};
    ghost use Rattle.cr_session.specs.Lookup.{IsWithin};
    ghost use Rattle.cr_session.specs.Scans.{IsScan};
    ghost use Rattle.cr_session.specs.Sessions.{standing};

    // The rows that show of a table and that a WHERE of these terms may keep; `None` where they are more than so many.
    fn see_few<F: Functions>(
        &mut self,
        alloc: Global,
        functions: &F,
        def: &TableDef,
        terms: &[Expr],
        params: &[Value],
        most: usize,
    ) -> Result<Option<Items<Row>>, CellsError>
        requires functions { F.is_faithful functions.now }
        requires sound { C.is_clean self.old.0 → IsSound (C.holding self.old.0) }
        ensures device { StaysClean C.is_honest C.is_clean is_want self.old.0 self.new.0 result }
        ensures finds { C.is_clean self.new.0
            → Finds (λ found. ForSome found (λ rows. rows ≡ passing (⟦<F as Hosted>⟧.means functions.now) params.now terms.now def.now (now (standing C.holding self.old)))) (standing C.holding self.old) (standing C.holding self.new) result }
        ensures wide { IfOk result (λ found. ForSome found (AreWide def.now.columns)) }
    {
        let changes = changes_of(&self.pending);
        passing_rows(
            alloc,
            &mut self.replica,
            functions,
            def,
            changes,
            terms,
            params,
            most,
        )
    }

    // The rows that show of a table and that a WHERE of these terms may keep.
    pub(crate) fn see_passing<F: Functions>(
        &mut self,
        alloc: Global,
        functions: &F,
        def: &TableDef,
        terms: &[Expr],
        params: &[Value],
    ) -> Result<Items<Row>, CellsError>
        requires functions { F.is_faithful functions.now }
        requires sound { C.is_clean self.old.0 → IsSound (C.holding self.old.0) }
        ensures device { StaysClean C.is_honest C.is_clean is_want self.old.0 self.new.0 result }
        ensures finds { C.is_clean self.new.0
            → Finds (λ rows. rows ≡ passing (⟦<F as Hosted>⟧.means functions.now) params.now terms.now def.now (now (standing C.holding self.old))) (standing C.holding self.old) (standing C.holding self.new) result }
    {
        match self.see_few(alloc, functions, def, terms, params, usize::MAX) {
            Ok(Some(rows)) => Ok(rows),
            // No list has more rows.
            Ok(None) => Err(CellsError::Store(StoreFault::Refused)),
            Err(error) => Err(error),
        }
    }

    /// The keys of the rows of the replicated table of a name that a WHERE of these terms may keep: on rows of other keys the terms are
    /// known not to be all true. `None` where they are not told: they are more than 4,096, a row has no key, there is no such table,
    /// there are no terms, or the open transaction's changes may be of other tables.
    ///
    /// # Errors
    /// `Memory`, or `Store(Refused)`.
    pub(crate) fn passing_keys<F: Functions>(
        &mut self,
        alloc: Global,
        functions: &F,
        names: &Snapshot,
        name: &str,
        terms: &[Expr],
        params: &[Value],
    ) -> Result<Option<Vec<Bytes>>, CellsError>
        requires functions { F.is_faithful functions.now }
        requires sound { C.is_clean self.old.0 → IsSound (C.holding self.old.0) }
        requires named { C.is_clean self.old.0 → IsNamed (standing C.holding self.old) names.now }
        requires whole { IsWhole names.now }
        ensures device { StaysClean C.is_honest C.is_clean is_want self.old.0 self.new.0 result }
        ensures finds { C.is_clean self.new.0
            → Finds (λ found. ForSome found (λ keys. IsWithin (⟦<F as Hosted>⟧.means functions.now) params.now (standing C.holding self.old) name.now terms.now keys.items)) (standing C.holding self.old) (standing C.holding self.new) result }
    {
        let tables = names.tables.as_slice();
        let Some(table) = replicated_named(tables, name) else {
            return Ok(None);
        };
        if terms.is_empty() || !self.is_of(tables) {
            return Ok(None);
        }
        let definition = &table.definition;
        let rows = match self.see_few(alloc, functions, definition, terms, params, MOST_KEYS) {
            Ok(Some(rows)) => rows,
            Ok(None) => return Ok(None),
            Err(error) => return Err(error),
        };
        // The rows of a table have keys; where some had none, the whole table is looked at.
        if check_rows(definition, rows.as_slice()).is_err() {
            return Ok(None);
        }
        Ok(Some(keys_of(alloc, definition, rows.as_slice())?))
    }

    // What a query of a table alone answers, where one value for each aggregate suffices for that.
    fn see_answer<F: Functions>(
        &mut self,
        alloc: Global,
        functions: &F,
        def: &TableDef,
        query: &Query,
        params: &[Value],
    ) -> Result<Option<Items<Row>>, CellsError>
        requires functions { F.is_faithful functions.now }
        requires sound { C.is_clean self.old.0 → IsSound (C.holding self.old.0) }
        ensures device { StaysClean C.is_honest C.is_clean is_want self.old.0 self.new.0 result }
        ensures finds { C.is_clean self.new.0
            → Finds (λ o. ForSome o (λ found. IsOfOneTable query.now → IsMeant (⟦<F as Hosted>⟧.means functions.now) params.now (λ m. answer m (view.query query.now) (single (rows (now (standing C.holding self.old)) def.now))) found)) (standing C.holding self.old) (standing C.holding self.new) result }
    {
        let changes = changes_of(&self.pending);
        answer_by_tallies(
            alloc,
            &mut self.replica,
            functions,
            def,
            changes,
            query,
            params,
        )
    }

    /// What a query of the table of a name alone sees.
    ///
    /// # Errors
    /// `Memory`, or `Store(Refused)`.
    pub(crate) fn look_filtered<F: Functions>(
        &mut self,
        alloc: Global,
        functions: &F,
        names: Snapshot,
        name: &str,
        query: &Query,
        params: &[Value],
    ) -> Result<Seen, CellsError>
        requires functions { F.is_faithful functions.now }
        requires sound { C.is_clean self.old.0 → IsSound (C.holding self.old.0) }
        requires named { C.is_clean self.old.0 → IsNamed (standing C.holding self.old) names }
        ensures device { StaysClean C.is_honest C.is_clean is_want self.old.0 self.new.0 result }
        ensures finds { C.is_clean self.new.0
            → Finds (IsScan (⟦<F as Hosted>⟧.means functions.now) params.now (standing C.holding self.old) name.now query.now) (standing C.holding self.old) (standing C.holding self.new) result }
    {
        let Some(table) = replicated_named(names.tables.as_slice(), name) else {
            return self.see_table(alloc, names, name).map(Seen::Kept);
        };
        let definition = &table.definition;
        match self.see_answer(alloc, functions, definition, query, params) {
            Ok(Some(answer)) => Ok(Seen::Answer(answer)),
            Ok(None) => {
                let terms = query.filter.as_slice();
                self.see_passing(alloc, functions, definition, terms, params)
                    .map(Seen::Rows)
            }
            Err(error) => Err(error),
        }
    }
}
