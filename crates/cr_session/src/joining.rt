//! What a SELECT sees of tables that are joined: of each what is kept of the keys that its terms tell beside the rows of the tables
//! before it, where they tell some, and else what is kept of the table.

ghost use Rattle.std.specs.Prelude.{◌≡◌, ◌+◌, IfOk, IsTrue};
ghost use Rattle.std.specs.List.{list_all, AllByRecursion};
ghost use Rattle.std.specs.Option.{ForSome};
ghost use Rattle.cr_sought.specs.Joins.{has_quiet_on, is_safe, width};
ghost use Rattle.cr_session.specs.Joining.{IsTableOf, IsTold};

use crate::session::Session;
use cr_cells::store::{Cells, CellsError};
use cr_cells::tables::table_named;
use cr_delta::key::in_order;
use cr_exec::binary::compares_bytes;
use cr_exec::push::push;
use cr_expr::given::Hosted;
use cr_host::functions::Functions;
use cr_lattice::table::{Items, Row, Table, TableDef};
use cr_snapshot::rows::table_rows;
use cr_sought::joined::{
    Lookup, Partner, first_partner, has_quiet_on, is_safe, joined_keys, push_partner,
};
use cr_sought::listed::listed_keys;
use cr_term::query::{Joined, Query};
use cr_value::text::Bytes;
use cr_value::value::Value;
use std::alloc::{AllocError, Global};

// Whether a joined table is one of these, of as many columns.
fn is_table_of(tables: &[Table], joined: &Joined) -> bool
    ensures { IsTrue result → IsTableOf tables.now joined.now }
{
    let definition = &joined.relation.definition;
    match table_named(tables, definition.name.as_str()) {
        Some(table) => {
            table.definition.columns.as_slice().len() == definition.columns.as_slice().len()
        }
        None => false,
    }
}

// Whether each joined table is one of these, of as many columns.
fn are_tables_of(tables: &[Table], joined: &[Joined]) -> bool
    ensures { IsTrue result → AllByRecursion (IsTableOf tables.now) joined.now }
{
    for table in joined {
        if !is_table_of(tables, table) {
            return false;
        }
    }
    true
}

// Whether no ON of a LEFT JOIN can fault.
fn are_safe(joined: &[Joined]) -> bool
    ensures { result ≡ list_all is_safe joined.now }
{
    joined.iter().all(|table| is_safe(table))
}

// The place behind the columns of a joined table. A combination of more columns than there are numbers does not fit in memory.
fn place_behind(base: usize, joined: &Joined) -> Result<usize, AllocError>
    ensures { IfOk result (λ next. next ≡ base + width joined.now) }
{
    match base.checked_add(joined.relation.definition.columns.as_slice().len()) {
        Some(next) => Ok(next),
        None => Err(AllocError),
    }
}

// Whether no ON can have a fault.
fn have_quiet_ons(joined: &[Joined]) -> bool
    ensures { result ≡ list_all has_quiet_on joined.now }
{
    joined.iter().all(|one| has_quiet_on(one))
}

// The keys of the rows of a table that can be joined with rows of others, by the terms of its ON, else of WHERE, else by a list in
// WHERE where no ON can have a fault; `None` where they tell none. The columns of the table begin at `base` in a combination.
fn told(
    alloc: Global,
    definition: &TableDef,
    query: &Query,
    joined: &Joined,
    base: usize,
    partners: &[Partner],
    params: &[Value],
) -> Result<Option<Vec<Bytes>>, AllocError>
    ensures { IfOk result (λ o. ForSome o (λ keys. IsTold params.now query.now joined.now definition.now base partners.now keys.items)) }
{
    let by_on = Lookup {
        definition,
        base,
        terms: joined.on.as_slice(),
        params,
    };
    if let Some(keys) = joined_keys(alloc, &by_on, partners)? {
        return Ok(Some(in_order(keys)?));
    }
    if joined.is_left {
        return Ok(None);
    }
    let by_where = Lookup {
        definition,
        base,
        terms: query.filter.as_slice(),
        params,
    };
    if let Some(keys) = joined_keys(alloc, &by_where, partners)? {
        return Ok(Some(in_order(keys)?));
    }
    if !have_quiet_ons(query.joined.as_slice()) {
        return Ok(None);
    }
    match listed_keys(alloc, &by_where)? {
        Some(keys) => Ok(Some(in_order(keys)?)),
        None => Ok(None),
    }
}

impl<C: Cells> Session<C> {
    ghost use Rattle.std.specs.Prelude.{◌≡◌, IsTrue};
    ghost use Rattle.cr_cells.specs.Calls.{is_want, StaysClean};
    ghost use Rattle.cr_cells.specs.Holding.{IsSound};
    ghost use Rattle.cr_scalar.specs.Host.{Host as Means};
    ghost use Rattle.cr_touched.specs.Parts.{is_key_of, part};
    ghost use Rattle.cr_world.specs.State.{now, table_rows};
    ghost use Rattle.cr_session.specs.Joining.{Finds, IsFoundIn, IsJoinOf, Suffice};
    ghost use Rattle.cr_session.specs.Sessions.{standing};

    // Whether a query joins tables of which rows may be looked up by keys.
    pub(crate) fn is_join_of<F: Functions>(
        &self,
        functions: &F,
        tables: &[Table],
        query: &Query,
    ) -> bool
        ensures { IsTrue result → IsJoinOf (⟦<F as Hosted>⟧.means functions.now) self.now.1 tables.now query.now }
    {
        let joined = query.joined.as_slice();
        joined.len() > 1
            && compares_bytes(functions)
            && self.is_of(tables)
            && are_tables_of(tables, joined)
            && are_safe(joined)
    }

    // The rows that show of some keys of a table.
    fn see_rows_of_keys(
        &mut self,
        alloc: Global,
        table: &Table,
        name: &str,
        keys: &[Bytes],
    ) -> Result<Items<Row>, CellsError>
        requires sound { C.is_clean self.old.0 → IsSound (C.holding self.old.0) }
        ensures device { StaysClean C.is_honest C.is_clean is_want self.old.0 self.new.0 result }
        ensures finds { C.is_clean self.new.0
            → Finds (λ rows. rows ≡ table_rows (part name.now (is_key_of keys.now) (now (standing C.holding self.old))) table.now) (standing C.holding self.old) (standing C.holding self.new) result }
    {
        let kept = match self.see_keys(alloc, name, keys) {
            Ok(kept) => kept,
            Err(error) => return Err(error),
        };
        Ok(table_rows(alloc, &kept, table)?)
    }

    // The rows that show of a table that is joined, or those whose keys the terms of the query tell beside these partners.
    fn see_rows<F: Functions>(
        &mut self,
        alloc: Global,
        functions: &F,
        tables: &[Table],
        query: &Query,
        joined: &Joined,
        base: usize,
        partners: &[Partner],
        params: &[Value],
    ) -> Result<Items<Row>, CellsError>
        requires functions { F.is_faithful functions.now }
        requires sound { C.is_clean self.old.0 → IsSound (C.holding self.old.0) }
        ensures device { StaysClean C.is_honest C.is_clean is_want self.old.0 self.new.0 result }
        ensures finds { C.is_clean self.new.0
            → Finds (IsFoundIn params.now (standing C.holding self.old) tables.now query.now joined.now base partners.now) (standing C.holding self.old) (standing C.holding self.new) result }
    {
        let name = joined.relation.definition.name.as_str();
        let Some(table) = table_named(tables, name) else {
            return Ok(Items::new(Vec::new(alloc)));
        };
        if !table.is_replicated {
            return Ok(Items::new(Vec::new(alloc)));
        }
        let definition = &table.definition;
        match told(alloc, definition, query, joined, base, partners, params)? {
            Some(keys) => self.see_rows_of_keys(alloc, table, name, &keys),
            None => self.see_passing(alloc, functions, definition, &[], params),
        }
    }

    /// The rows of each table of a query in the order of FROM, or some of them that answer it alike.
    ///
    /// # Errors
    /// `Memory`, or `Store(Refused)`.
    pub(crate) fn see_join<F: Functions>(
        &mut self,
        alloc: Global,
        functions: &F,
        tables: &[Table],
        query: &Query,
        params: &[Value],
    ) -> Result<Vec<Items<Row>>, CellsError>
        requires functions { F.is_faithful functions.now }
        requires sound { C.is_clean self.old.0 → IsSound (C.holding self.old.0) }
        requires named { C.is_clean self.old.0 → tables.now ≡ (C.holding self.old.0).tables }
        ensures device { StaysClean C.is_honest C.is_clean is_want self.old.0 self.new.0 result }
        ensures finds { (means : Means) → IsJoinOf means self.old.1 tables.now query.now → C.is_clean self.new.0
            → Finds (λ v. Suffice means params.now query.now (standing C.holding self.old) v.items) (standing C.holding self.old) (standing C.holding self.new) result }
    {
        let mut seen = Vec::new(alloc);
        let mut partners = first_partner(alloc)?;
        let mut base: usize = 0;
        for joined in query.joined.as_slice() {
            let rows = match self.see_rows(
                alloc, functions, tables, query, joined, base, &partners, params,
            ) {
                Ok(rows) => rows,
                Err(error) => return Err(error),
            };
            push_partner(alloc, &mut partners, base, joined, rows.as_slice())?;
            push(&mut seen, rows)?;
            base = place_behind(base, joined)?;
        }
        Ok(seen)
    }
}
