//! SELECTs over tables that are lists, read row by row, and over such whose reading fails.
//!
//! | Call | Given | Answers |
//! |---|---|---|
//! | `select` | a SELECT | its rows, or its fault |
//! | `failing` | a SELECT | how many calls of its readings fail it, as each of them fails in turn, and its rows or its fault then |

use crate::failing::FailingLists;
use cr_exec::streamed::{SourceFault, select_from};
use cr_grouped::select::select as query_of;
use cr_host::functions::BuiltIns;
use cr_lattice::catalog::Catalog;
use cr_lattice::table::{Items, Row, Table};
use cr_lex::scan::tokens;
use cr_resolve::naming::Offer;
use cr_statement::sql::statement;
use cr_term::query::{Joined, Query};
use cr_told::error::ToldError;
use cr_told::reading::{definition, rows_of};
use cr_told::writing::told_rows;
use cr_tree::statement::Statement;
use std::alloc::{AllocError, Global};

/// The columns and the rows of the tables `t` and `u`.
const T: (&str, &str) = (
    "id|INT|1|NULL / name|TEXT||NULL / n|INT||NULL",
    "1|'a'|10 / 2|'b'|NULL / 3|'a'|30 / 4|NULL|20",
);

const U: (&str, &str) = ("id|INT|1|NULL / t|INT||NULL", "1|1 / 2|3 / 3|9");

/// More calls than any SELECT here takes.
const MOST_CALLS: usize = 1000;

fn table(alloc: Global, name: &str, columns: &str) -> Result<Table, ToldError> {
    Ok(Table {
        definition: definition(alloc, name, columns)?,
        is_replicated: true,
    })
}

fn catalog(alloc: Global) -> Result<Catalog, ToldError> {
    let mut tables = Vec::new(alloc);
    tables.push(table(alloc, "t", T.0)?)?;
    tables.push(table(alloc, "u", U.0)?)?;
    Ok(Catalog {
        tables: Items::new(tables),
        modules: Items::new(Vec::new(alloc)),
        site: [10; 16],
        db_version: 0,
    })
}

// The query of a text. What a call answers is named before trees are dropped: with the call at the end proofs take long.
fn resolved(alloc: Global, catalog: &Catalog, text: &str) -> Result<Query, ToldError> {
    let Ok(tokens) = tokens(alloc, text) else {
        return Err(ToldError::Form);
    };
    let read = statement(alloc, text, &tokens);
    let Ok((Statement::Select(tree), _)) = &read else {
        return Err(ToldError::Form);
    };
    let offer = Offer {
        catalog,
        functions: &BuiltIns,
    };
    let Ok(query) = query_of(alloc, &offer, tree) else {
        return Err(ToldError::Form);
    };
    Ok(query)
}

// The rows of the tables in FROM.
fn tables(alloc: Global, joined: &[Joined]) -> Result<Vec<Items<Row>>, ToldError> {
    let mut tables = Vec::new(alloc);
    for source in joined {
        let is_first = source.relation.definition.name.as_str() == "t";
        let rows = rows_of(alloc, if is_first { T.1 } else { U.1 })?;
        tables.push(Items::new(rows))?;
    }
    Ok(tables)
}

// What a query answers over tables of which so many calls don't fail.
fn answer_within(
    alloc: Global,
    query: &Query,
    tables: &[Items<Row>],
    calls: usize,
) -> Result<Vec<Row>, SourceFault> {
    let mut source = FailingLists::new(tables, calls);
    select_from(alloc, query, &mut source, &BuiltIns, &[])
}

fn told(alloc: Global, answer: &Result<Vec<Row>, SourceFault>) -> Result<String, AllocError> {
    match answer {
        Ok(rows) => told_rows(alloc, rows.as_slice()),
        Err(SourceFault::Eval(fault)) => Ok(format!(in alloc; "{fault:?}")?),
        Err(SourceFault::Store) => String::from_str(alloc, "Store"),
    }
}

// What a query answers whose reading doesn't fail.
fn of_select(alloc: Global, query: &Query, tables: &[Items<Row>]) -> Result<String, ToldError> {
    let answer = answer_within(alloc, query, tables, MOST_CALLS);
    Ok(told(alloc, &answer)?)
}

// How many calls fail it, and what it answers then.
fn of_failing(alloc: Global, query: &Query, tables: &[Items<Row>]) -> Result<String, ToldError> {
    for calls in 0..MOST_CALLS {
        let answer = answer_within(alloc, query, tables, calls);
        if !matches!(answer, Err(SourceFault::Store)) {
            let told = told(alloc, &answer)?;
            return Ok(format!(in alloc; "fails at each of {calls} calls, then {told}")?);
        }
    }
    Err(ToldError::Form)
}

/// What a call of SELECTs answers; `None` where there is no call of that name.
pub fn answer(alloc: Global, call: &str, given: &str) -> Result<Option<String>, ToldError> {
    let is_failing = call == "failing";
    if !is_failing && call != "select" {
        return Ok(None);
    }
    let catalog = catalog(alloc)?;
    let query = resolved(alloc, &catalog, given)?;
    let tables = tables(alloc, query.joined.as_slice())?;
    let told = if is_failing {
        of_failing(alloc, &query, &tables)?
    } else {
        of_select(alloc, &query, &tables)?
    };
    Ok(Some(told))
}
