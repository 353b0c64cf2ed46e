//! What a query answers of lists of rows.

ghost use Rattle.std.specs.Prelude.{◌≡◌, map, option_map, IfOk};
ghost use Rattle.cr_bags.specs.Bags.{single};
ghost use Rattle.cr_query.specs.Query.{shown, finished, answer};
ghost use Rattle.cr_meaning.specs.View as view;
ghost use Rattle.cr_exec.specs.Answers.{Answers};
ghost use Rattle.cr_exec.specs.Combinations.{IsOfOneTable};
ghost use Rattle.cr_exec.specs.Groups.{result_expr, order_expr};
ghost use Rattle.cr_exec.specs.Scopes.{there};
ghost use Rattle.cr_exec.specs.Shows.{shown_of};

use crate::grouped::show_groups;
use crate::join::{joined, kept};
use crate::order::finished;
use crate::show::{Shown, show_each};
use crate::terms::terms_of;
use cr_expr::given::Hosted;
use cr_host::functions::Functions;
use cr_lattice::table::{Items, Row};
use cr_scalar::fault::EvalFault;
use cr_term::expr::Expr;
use cr_term::query::{OrderTerm, Query, ResultColumn};
use cr_value::value::Value;
use std::alloc::{AllocError, Global};

/// The expressions of results.
///
/// # Errors
/// `AllocError` where memory runs out.
pub fn exprs_of_results(alloc: Global, results: &[ResultColumn]) -> Result<Vec<&Expr>, AllocError>
    ensures { IfOk result (λ v. map there v.items ≡ map result_expr results.now) }
{
    let mut exprs = Vec::new(alloc);
    for column in results {
        exprs.push(&column.expr)?;
    }
    Ok(exprs)
}

/// The expressions of the terms of ORDER BY.
///
/// # Errors
/// `AllocError` where memory runs out.
pub fn exprs_of_order(alloc: Global, terms: &[OrderTerm]) -> Result<Vec<&Expr>, AllocError>
    ensures { IfOk result (λ v. map there v.items ≡ map order_expr terms.now) }
{
    let mut exprs = Vec::new(alloc);
    for term in terms {
        exprs.push(&term.expr)?;
    }
    Ok(exprs)
}

// What the combinations of a query show, or their groups.
fn show_asked<F: Functions>(
    alloc: Global,
    query: &Query,
    combinations: &[Row],
    functions: &F,
    params: &[Value],
) -> Result<Vec<Shown>, EvalFault>
    requires { F.is_faithful functions.now }
    ensures { Answers (⟦<F as Hosted>⟧.means functions.now) params.now result (λ v. map shown_of v.items) (λ m. shown m (view.query query.now) combinations.now) }
{
    let results = exprs_of_results(alloc, query.results.as_slice())?;
    let results = results.as_slice();
    let keys = exprs_of_order(alloc, query.order.as_slice())?;
    let keys = keys.as_slice();
    if query.is_grouped {
        let terms = query.groups.as_slice();
        let having = &query.having;
        return show_groups(
            alloc,
            terms,
            having,
            results,
            keys,
            combinations,
            functions,
            params,
        );
    }
    show_each(alloc, results, keys, combinations, functions, params)
}

/// The rows that a query answers, as `select` does, of combinations on which its terms are true. They are dropped once it is known
/// what they show, so that a sort holds that alone.
///
/// # Errors
/// As of `select`.
pub fn answered<F: Functions>(
    alloc: Global,
    query: &Query,
    combinations: Vec<Row>,
    functions: &F,
    params: &[Value],
) -> Result<Vec<Row>, EvalFault>
    requires { F.is_faithful functions.now }
    ensures { Answers (⟦<F as Hosted>⟧.means functions.now) params.now result (λ v. v.items)
        (λ m. option_map (finished m (view.query query.now)) (shown m (view.query query.now) combinations.items)) }
{
    let shown = show_asked(alloc, query, combinations.as_slice(), functions, params)?;
    drop(combinations);
    let rows = finished(alloc, query, shown, functions)?;
    Ok(rows)
}

/// The rows that a query answers, of tables in the order of FROM: of the combinations on which its terms are true, or of
/// their groups, each once under DISTINCT, in the order of ORDER BY, behind OFFSET and within LIMIT. All is evaluated, so
/// a limit hides no fault.
///
/// # Errors
/// The fault of an expression, where there is no answer whatever values stand for other faults; `TooBig` the same with the
/// limit of 1,000,000 bytes; `Memory`.
pub fn select<F: Functions>(
    alloc: Global,
    query: &Query,
    tables: &[Items<Row>],
    functions: &F,
    params: &[Value],
) -> Result<Vec<Row>, EvalFault>
    requires { F.is_faithful functions.now }
    ensures { Answers (⟦<F as Hosted>⟧.means functions.now) params.now result (λ v. v.items) (λ m. answer m (view.query query.now) tables.now) }
{
    let combinations = joined(alloc, query, tables, functions, params)?;
    answered(alloc, query, combinations, functions, params)
}

/// The rows that a query of one table answers, as `select` does, of the rows of that table, which no LEFT JOIN and no ON brings. Those on
/// which its terms are true are held once, and the others not.
///
/// # Errors
/// As of `select`.
pub fn select_rows<F: Functions>(
    alloc: Global,
    query: &Query,
    rows: Vec<Row>,
    functions: &F,
    params: &[Value],
) -> Result<Vec<Row>, EvalFault>
    requires { F.is_faithful functions.now }
    ensures { IsOfOneTable query.now → Answers (⟦<F as Hosted>⟧.means functions.now) params.now result (λ v. v.items) (λ m. answer m (view.query query.now) (single rows.items)) }
{
    let terms = terms_of(alloc, query)?;
    let combinations = kept(alloc, terms.as_slice(), rows, functions, params)?;
    answered(alloc, query, combinations, functions, params)
}
