//! What a query without GROUP BY evaluates over its one group, where what the aggregates give is shown.

ghost use Rattle.std.specs.Prelude.{[], map, IfOk};
ghost use Rattle.std.specs.Option.{ForSome};
ghost use Rattle.cr_exec.specs.Answers.{IsMeant};
ghost use Rattle.cr_exec.specs.Shows.{shown_of};
ghost use Rattle.cr_tally.specs.Showing.{ShowsAll, ShowsIfAny};
ghost use Rattle.cr_tally.specs.Over.{ShowsQuery, group_shows};

use crate::show::{Call, show};
use cr_exec::group::judge;
use cr_exec::select::{exprs_of_order, exprs_of_results};
use cr_exec::show::Shown;
use cr_exec::value::Scope;
use cr_expr::given::Hosted;
use cr_host::functions::Functions;
use cr_scalar::fault::EvalFault;
use cr_term::expr::Expr;
use cr_term::query::Query;
use cr_value::value::Value;
use cr_wanted::exprs::there_of;
use std::alloc::{AllocError, Global};

/// What a query evaluates over its one group.
#[derive(Drop)]
pub struct OverGroup {
    pub having: Option<Expr>,
    pub results: Vec<Expr>,
    /// The terms of ORDER BY.
    pub keys: Vec<Expr>,
}

// HAVING with its aggregates shown, which are put behind others.
fn shown_having<'q>(
    alloc: Global,
    having: &'q Option<Expr>,
    calls: &mut Vec<Call<'q>>,
) -> Result<Option<Expr>, AllocError>
    ensures { IfOk result (ShowsIfAny calls.old.items calls.new.items having.now) }
{
    match having {
        Some(expr) => {
            let shown = show(alloc, expr, calls)?;
            Ok(Some(shown))
        }
        None => Ok(None),
    }
}

// Expressions with their aggregates shown, which are put behind others.
fn shown_each<'q>(
    alloc: Global,
    exprs: &[&'q Expr],
    calls: &mut Vec<Call<'q>>,
) -> Result<Vec<Expr>, AllocError>
    ensures { IfOk result (λ v. ShowsAll calls.old.items calls.new.items (map (λ e. e.now) exprs.now) v.items) }
{
    let mut out = Vec::new(alloc);
    for expr in exprs {
        let shown = show(alloc, expr, calls)?;
        out.push(shown)?;
    }
    Ok(out)
}

/// What a query evaluates over its group, with its aggregates shown, which are put behind others.
///
/// # Errors
/// `AllocError` where memory runs out.
pub fn over_group<'q>(
    alloc: Global,
    query: &'q Query,
    calls: &mut Vec<Call<'q>>,
) -> Result<OverGroup, AllocError>
    ensures { IfOk result (ShowsQuery calls.old.items calls.new.items query.now) }
{
    let results = exprs_of_results(alloc, query.results.as_slice())?;
    let keys = exprs_of_order(alloc, query.order.as_slice())?;
    let having = shown_having(alloc, &query.having, calls)?;
    let results = shown_each(alloc, results.as_slice(), calls)?;
    let keys = shown_each(alloc, keys.as_slice(), calls)?;
    Ok(OverGroup {
        having,
        results,
        keys,
    })
}

/// What the group shows where its aggregates give these values, one row or, where HAVING isn't true, none; `None` where an expression
/// has a fault, or HAVING a value that is no number.
///
/// # Errors
/// `AllocError` where memory runs out.
pub fn shown_over<F: Functions>(
    alloc: Global,
    functions: &F,
    over: &OverGroup,
    values: &[Value],
    params: &[Value],
) -> Result<Option<Vec<Shown>>, AllocError>
    requires { F.is_faithful functions.now }
    ensures { IfOk result (λ o. ForSome o (λ v. IsMeant (⟦<F as Hosted>⟧.means functions.now) params.now (λ m. group_shows m over.now (record { shown = values.now; members = [] })) (map shown_of v.items))) }
{
    let results = there_of(alloc, over.results.as_slice())?;
    let keys = there_of(alloc, over.keys.as_slice())?;
    let having = &over.having;
    let scope = Scope::Group(values, &[]);
    let mut shown = Vec::new(alloc);
    match judge(
        alloc,
        &mut shown,
        having,
        results.as_slice(),
        keys.as_slice(),
        scope,
        functions,
        params,
    ) {
        Ok(()) => Ok(Some(shown)),
        Err(EvalFault::Memory) => Err(AllocError),
        Err(_) => Ok(None),
    }
}
