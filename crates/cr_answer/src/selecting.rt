//! What a query answers.

ghost use Rattle.cr_bags.specs.Bags.{single};
ghost use Rattle.cr_exec.specs.Combinations.{IsOfOneTable};
ghost use Rattle.cr_answer.specs.Selecting.{Gives, answer_over, answer_seen};

use cr_exec::select::{select as rows_of, select_rows};
use cr_exec::streamed::{SourceFault, select_from};
use cr_expr::given::Hosted;
use cr_host::functions::Functions;
use cr_lattice::table::{Items, Row};
use cr_replica::snapshot::Snapshot;
use cr_tables::view::View;
use cr_term::query::Query;
use cr_value::value::Value;
use cr_world::refusal::Refusal;
use std::alloc::Global;

/// The rows that a query answers over rows of its tables, in the order of FROM, with these parameters.
///
/// # Errors
/// `Eval` and `TooBig` where an expression has a fault; `Memory`.
pub fn answer_query<F: Functions>(
    alloc: Global,
    functions: &F,
    tables: &[Items<Row>],
    query: &Query,
    params: &[Value],
) -> Result<Items<Row>, Refusal>
    requires { F.is_faithful functions.now }
    ensures { Gives (⟦<F as Hosted>⟧.means functions.now) params.now (answer_over tables.now query.now) result }
{
    match rows_of(alloc, query, tables, functions, params) {
        Ok(rows) => Ok(Items::new(rows)),
        Err(fault) => Err(Refusal::from(fault)),
    }
}

/// The rows that a query of one table, which no LEFT JOIN and no ON brings, answers over rows of that table, with these parameters. Of
/// these rows those are held on which its WHERE is true, and each once.
///
/// # Errors
/// As of `answer_query`.
pub fn answer_rows<F: Functions>(
    alloc: Global,
    functions: &F,
    rows: Items<Row>,
    query: &Query,
    params: &[Value],
) -> Result<Items<Row>, Refusal>
    requires { F.is_faithful functions.now }
    ensures { IsOfOneTable query.now → Gives (⟦<F as Hosted>⟧.means functions.now) params.now (answer_over (single rows) query.now) result }
{
    match select_rows(alloc, query, rows.into_vec(), functions, params) {
        Ok(rows) => Ok(Items::new(rows)),
        Err(fault) => Err(Refusal::from(fault)),
    }
}

/// The rows that a query answers over what is seen of a replica, with these parameters. The rows of its first table are made
/// one after another.
///
/// # Errors
/// `Eval` and `TooBig` where an expression has a fault; `Memory`.
pub fn answer_view<F: Functions>(
    alloc: Global,
    functions: &F,
    snapshot: &Snapshot,
    query: &Query,
    params: &[Value],
) -> Result<Items<Row>, Refusal>
    requires { F.is_faithful functions.now }
    ensures { Gives (⟦<F as Hosted>⟧.means functions.now) params.now (answer_seen snapshot.now query.now) result }
{
    let mut view = View {
        snapshot,
        joined: query.joined.as_slice(),
    };
    match select_from(alloc, query, &mut view, functions, params) {
        Ok(rows) => Ok(Items::new(rows)),
        Err(SourceFault::Eval(fault)) => Err(Refusal::from(fault)),
        // A view reads what stands in memory, which doesn't fail.
        Err(SourceFault::Store) => Err(Refusal::Memory),
    }
}
