//! What a SELECT of one table answers that is made of aggregates.

ghost use Rattle.std.specs.Prelude.{◌≡◌, true, IfOk, IsTrue};
ghost use Rattle.std.specs.List.{AllByRecursion};
ghost use Rattle.std.specs.Option.{ForSome};
ghost use Rattle.cr_bags.specs.Bags.{single};
ghost use Rattle.cr_cells.specs.Calls.{Reads, is_want, StaysClean};
ghost use Rattle.cr_cells.specs.Holding.{kept_of};
ghost use Rattle.cr_exec.specs.Answers.{IsMeant};
ghost use Rattle.cr_exec.specs.Combinations.{IsOfOneTable};
ghost use Rattle.cr_lattice.specs.Keep.{join};
ghost use Rattle.cr_lattice.specs.Rows.{rows};
ghost use Rattle.cr_query.specs.Query.{answer};
ghost use Rattle.cr_meaning.specs.View as view;
ghost use Rattle.cr_pushdown.specs.Passing.{passing};
ghost use Rattle.cr_tally.specs.Queries.{AnswersOver, AreTrue, Finishes, HasOneGroup, TellsOf};

use crate::over::{OverGroup, over_group, shown_over};
use crate::show::Call;
use crate::tallies::{tallies_of, values_of, with_rows};
use crate::tally::Tally;
use cr_cells::store::{Cells, CellsError, StoreFault};
use cr_exec::order::finished;
use cr_exec::terms::{all_true, with_quiet_first};
use cr_expr::given::Hosted;
use cr_host::functions::Functions;
use cr_lattice::change::Change;
use cr_lattice::table::{Items, Row, TableDef};
use cr_pushdown::scan::{MOST_PAGES, Scan, own_changes};
use cr_replica::replica::Replica;
use cr_scalar::fault::EvalFault;
use cr_term::expr::Expr;
use cr_term::query::Query;
use cr_value::value::Value;
use std::alloc::{AllocError, Global};

// Whether a query has one group of the rows on which its terms are true.
fn has_one_group(query: &Query) -> bool
    ensures { IsTrue result → HasOneGroup query.now }
{
    query.is_grouped && query.groups.as_slice().is_empty()
}

// Whether terms are all true on each of some rows, without a fault.
fn are_true<F: Functions>(
    alloc: Global,
    functions: &F,
    rows: &[Row],
    terms: &[Expr],
    params: &[Value],
) -> Result<bool, AllocError>
    requires { F.is_faithful functions.now }
    ensures { IfOk result (λ b. b ≡ true → AllByRecursion (AreTrue (⟦<F as Hosted>⟧.means functions.now) params.now terms.now) rows.now) }
{
    let ordered = with_quiet_first(alloc, terms)?;
    for row in rows {
        match all_true(alloc, ordered.as_slice(), row.as_slice(), functions, params) {
            Ok(true) => {}
            Err(EvalFault::Memory) => return Err(AllocError),
            Ok(false) | Err(_) => return Ok(false),
        }
    }
    Ok(true)
}

// What aggregates give of the rows of a table on which terms are all true, behind the rows that they have seen; `None` where that can't
// be told so, as where a term or an aggregate has a fault.
fn tallied<'q, C: Cells, F: Functions>(
    alloc: Global,
    replica: &mut Replica<C>,
    functions: &F,
    def: &TableDef,
    changes: &[Change],
    mut tallies: Vec<Tally<'q>>,
    terms: &[Expr],
    params: &[Value],
) -> Result<Option<Vec<Tally<'q>>>, CellsError>
    requires functions { F.is_faithful functions.now }
    ensures device { StaysClean C.is_honest C.is_clean is_want replica.old replica.new result }
    ensures reads { C.is_clean replica.new → Reads (C.holding replica.old) (C.holding replica.new) result
        (λ o. ForSome o (λ v. TellsOf (⟦<F as Hosted>⟧.means functions.now) params.now terms.now tallies.entry.items (passing (⟦<F as Hosted>⟧.means functions.now) params.now terms.now def.now (join (kept_of (C.holding replica.old)) changes.now)) v.items)) }
{
    let own = own_changes(alloc, def, changes)?;
    let mut scan = Scan::new(def, &own);
    for _ in 0..MOST_PAGES {
        if scan.is_at_end() {
            return Ok(Some(tallies));
        }
        let page = match scan.next_page(alloc, replica, functions, terms, params) {
            Ok(page) => page,
            Err(error) => return Err(error),
        };
        if !are_true(alloc, functions, &page, terms, params)? {
            return Ok(None);
        }
        match with_rows(alloc, functions, tallies, &page, params) {
            Ok(Some(next)) => tallies = next,
            Ok(None) => return Ok(None),
            Err(_) => return Err(CellsError::Memory),
        }
    }
    Err(CellsError::Store(StoreFault::Refused))
}

// The rows that a query answers which evaluates this over its one group, where what the aggregates are worth is shown; `None` where one
// is over the limit or an expression has a fault.
fn answer_of<F: Functions>(
    alloc: Global,
    functions: &F,
    query: &Query,
    over: &OverGroup,
    tallies: Vec<Tally<'_>>,
    params: &[Value],
) -> Result<Option<Items<Row>>, AllocError>
    requires { F.is_faithful functions.now }
    ensures { IfOk result (λ o. ForSome o (λ answer. Finishes (⟦<F as Hosted>⟧.means functions.now) params.now query.now over.now tallies.entry.items answer)) }
{
    let Some(values) = values_of(alloc, tallies)? else {
        return Ok(None);
    };
    let Some(shown) = shown_over(alloc, functions, over, values.as_slice(), params)? else {
        return Ok(None);
    };
    Ok(Some(Items::new(finished(alloc, query, shown, functions)?)))
}

// The rows that a query answers over a table which evaluates this over its one group, where what these aggregates give is shown; `None`
// where one of them is none that SQLite has or stands in an argument, a value is over the limit, or something has a fault.
fn answer_over<C: Cells, F: Functions>(
    alloc: Global,
    replica: &mut Replica<C>,
    functions: &F,
    def: &TableDef,
    changes: &[Change],
    query: &Query,
    over: &OverGroup,
    calls: &[Call<'_>],
    params: &[Value],
) -> Result<Option<Items<Row>>, CellsError>
    requires functions { F.is_faithful functions.now }
    ensures device { StaysClean C.is_honest C.is_clean is_want replica.old replica.new result }
    ensures reads { C.is_clean replica.new → Reads (C.holding replica.old) (C.holding replica.new) result
        (λ o. ForSome o (AnswersOver (⟦<F as Hosted>⟧.means functions.now) params.now query.now over.now calls.now (passing (⟦<F as Hosted>⟧.means functions.now) params.now query.now.filter def.now (join (kept_of (C.holding replica.old)) changes.now)))) }
{
    let Some(tallies) = tallies_of(alloc, functions, calls)? else {
        return Ok(None);
    };
    let terms = query.filter.as_slice();
    match tallied(
        alloc, replica, functions, def, changes, tallies, terms, params,
    ) {
        Ok(Some(tallies)) => Ok(answer_of(alloc, functions, query, over, tallies, params)?),
        Ok(None) => Ok(None),
        Err(error) => Err(error),
    }
}

/// What a SELECT of one table answers: of what is kept, and with it of further changes, as those of an open transaction, in any order
/// and of any tables. `None` where it is not grouped or has GROUP BY, where an aggregate is none that SQLite has, where a value is over
/// the limit of 1,000,000 bytes, and where a term, an argument, an aggregate, HAVING, a result or a term of ORDER BY has a fault. The
/// table is read page by page, and beside a page one value is held for each aggregate.
///
/// `params` are the parameters' values, from number 1 on.
///
/// # Errors
/// `Memory`, or `Store(Refused)`.
pub fn answer_by_tallies<C: Cells, F: Functions>(
    alloc: Global,
    replica: &mut Replica<C>,
    functions: &F,
    def: &TableDef,
    changes: &[Change],
    query: &Query,
    params: &[Value],
) -> Result<Option<Items<Row>>, CellsError>
    requires functions { F.is_faithful functions.now }
    ensures device { StaysClean C.is_honest C.is_clean is_want replica.old replica.new result }
    ensures reads { C.is_clean replica.new → Reads (C.holding replica.old) (C.holding replica.new) result
        (λ o. ForSome o (λ rs. IsOfOneTable query.now
        → IsMeant (⟦<F as Hosted>⟧.means functions.now) params.now (λ m. answer m (view.query query.now) (single (rows (join (kept_of (C.holding replica.old)) changes.now) def.now))) rs)) }
{
    if !has_one_group(query) {
        return Ok(None);
    }
    let mut calls = Vec::new(alloc);
    let over = over_group(alloc, query, &mut calls)?;
    let calls = calls.as_slice();
    answer_over(
        alloc, replica, functions, def, changes, query, &over, calls, params,
    )
}
