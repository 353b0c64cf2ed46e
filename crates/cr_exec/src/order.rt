//! Which of what a query shows stands in the answer.

ghost use Rattle.std.specs.Prelude.{◌≡◌, map, drop, cond, List, IfOk};
ghost use Rattle.cr_bags.specs.Bags.{sort};
ghost use Rattle.cr_value.specs.declared.value.Value.{Value as Content};
ghost use Rattle.cr_query.specs.Query.{limited, shown_row, distinct, finished};
ghost use Rattle.cr_meaning.specs.View as view;
ghost use Rattle.cr_meaning.specs.Meaning.{Regard, regarded};
ghost use Rattle.cr_exec.specs.Comparisons.{held_order};
ghost use Rattle.cr_exec.specs.Shows.{row_of, shown_of, keyed_cmp};

use crate::compare::{Sense, compare_rows, senses_of_order};
use crate::distinct::distinct;
use crate::show::Shown;
use cr_expr::given::Hosted;
use cr_host::functions::Functions;
use cr_lattice::table::Row;
use cr_term::query::Query;
use std::alloc::{AllocError, Global};
use std::cmp::Ordering;

// The order of two rows that are shown: by their keys, then by the whole row.
fn compare_shown<F: Functions>(functions: &F, senses: &[Sense], a: &Shown, b: &Shown) -> Ordering
    requires { F.is_faithful functions.now }
    ensures { result ≡ keyed_cmp (map (held_order (F.order_at functions.now)) senses.now) (shown_of a.now) (shown_of b.now) }
{
    let order = compare_rows(functions, senses, a.keys.as_slice(), b.keys.as_slice());
    order.then(a.row.as_slice().cmp(b.row.as_slice()))
}

// What is shown in order; what ties shows the same row.
fn sorted<F: Functions>(
    mut shown: Vec<Shown>,
    senses: &[Sense],
    functions: &F,
) -> Result<Vec<Shown>, AllocError>
    requires { F.is_faithful functions.now }
    ensures { IfOk result (λ v. map row_of v.items ≡ map shown_row (sort (keyed_cmp (map (held_order (F.order_at functions.now)) senses.now)) (map shown_of shown.items))) }
{
    shown.sort_by(|a, b| compare_shown(functions, senses, a, b))?;
    Ok(shown)
}

// The rows of what is shown.
fn rows_of(alloc: Global, shown: Vec<Shown>) -> Result<Vec<Row>, AllocError>
    ensures { IfOk result (λ v. v.items ≡ map row_of shown.items) }
{
    let mut rows = Vec::new(alloc);
    for one in shown {
        rows.push(one.row)?;
    }
    Ok(rows)
}

// Without the first so many.
fn past(mut rows: Vec<Row>, offset: u64) -> Result<Vec<Row>, AllocError>
    ensures { IfOk result (λ v. v.items ≡ drop offset rows.items) }
{
    if offset >= rows.len() as u64 {
        rows.clear();
        return Ok(rows);
    }
    rows.split_off(offset as usize)
}

// No more than the limit, if there is one.
fn within(mut rows: Vec<Row>, limit: Option<u64>) -> Vec<Row>
    ensures { result.items ≡ limited limit rows.items }
{
    if let Some(most) = limit {
        if most < rows.len() as u64 {
            rows.truncate(most as usize);
        }
    }
    rows
}

/// The rows of what is shown behind the first so many, and of those no more than the limit, if there is one.
pub fn limited(
    alloc: Global,
    shown: Vec<Shown>,
    offset: u64,
    limit: Option<u64>,
) -> Result<Vec<Row>, AllocError>
    ensures { IfOk result (λ v. v.items ≡ limited limit (drop offset (map row_of shown.items))) }
{
    let rows = rows_of(alloc, shown)?;
    let rows = past(rows, offset)?;
    Ok(within(rows, limit))
}

// Each class once, where the query asks for that.
fn distinct_if_asked<F: Functions>(
    alloc: Global,
    query: &Query,
    shown: Vec<Shown>,
    functions: &F,
) -> Result<Vec<Shown>, AllocError>
    requires { F.is_faithful functions.now }
    ensures { IfOk result (λ v. (regard : Regard) (params : List Content) → map shown_of v.items ≡ cond query.now.is_distinct (distinct (regarded regard (⟦<F as Hosted>⟧.means functions.now) params) (map view.result_term query.now.results) (map shown_of shown.items)) (map shown_of shown.items)) }
{
    if query.is_distinct {
        distinct(alloc, query.results.as_slice(), shown, functions)
    } else {
        Ok(shown)
    }
}

/// The rows of an answer, of what its combinations or groups show: each class once under DISTINCT, in the order of ORDER
/// BY, and of those behind OFFSET no more than LIMIT.
pub fn finished<F: Functions>(
    alloc: Global,
    query: &Query,
    shown: Vec<Shown>,
    functions: &F,
) -> Result<Vec<Row>, AllocError>
    requires { F.is_faithful functions.now }
    ensures { IfOk result (λ v. (regard : Regard) (params : List Content) → v.items ≡ finished (regarded regard (⟦<F as Hosted>⟧.means functions.now) params) (view.query query.now) (map shown_of shown.items)) }
{
    let senses = senses_of_order(alloc, functions, query.order.as_slice())?;
    let shown = distinct_if_asked(alloc, query, shown, functions)?;
    let shown = sorted(shown, senses.as_slice(), functions)?;
    limited(alloc, shown, query.offset, query.limit)
}
