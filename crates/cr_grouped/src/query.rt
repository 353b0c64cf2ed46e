//! A query over its groups: result columns, HAVING, ORDER BY, and which rows are left.

ghost use Rattle.std.specs.Prelude.{◌≡◌, map, position, IfOk};
ghost use Rattle.std.specs.Option.{option_map};
ghost use Rattle.cr_term.specs.Same.{same};
ghost use Rattle.cr_resolve.specs.Queries.{found_result};
ghost use Rattle.cr_grouped.specs.Grouping.{exprs_shown, ordered_in, shown_in, within};
ghost use Rattle.cr_grouped.specs.Finished.{query_in};

use cr_build::copy::copy;
use cr_questions::operands::collation_of;
use cr_resolve::limits::{count_limit, offset_of};
use cr_select::named::Named;
use cr_select::outputs::Output;
use cr_select::parts::terms_of;
use cr_select::placed::placed;
use cr_select::same::same;
use cr_term::expr::Expr;
use cr_term::query::{GroupTerm, OrderTerm, Query, ResultColumn};
use cr_tree::statement::Select;
use sqlite_items::{Boxed, Items};
use std::alloc::{AllocError, Global};

// An expression of a query, with the terms of groups put in where there are groups.
#[tactic(auto, using(crate::proofs::Within::in_groups, crate::proofs::Within::in_no_groups))]
fn within(
    alloc: Global,
    is_grouped: bool,
    terms: &[GroupTerm],
    expr: &Expr,
) -> Result<Expr, AllocError>
    ensures { IfOk result (λ e. e ≡ within is_grouped terms.now expr.now) }
{
    if is_grouped {
        placed(alloc, terms, expr)
    } else {
        copy(alloc, expr)
    }
}

// The result columns, each with the collation by which DISTINCT compares it.
fn result_columns(
    alloc: Global,
    is_grouped: bool,
    terms: &[GroupTerm],
    outputs: &[Output],
) -> Result<Items<ResultColumn>, AllocError>
    ensures { IfOk result (λ cs. cs ≡ map (shown_in is_grouped terms.now) outputs.now) }
{
    let mut columns = Items::new(alloc);
    for output in outputs {
        let expr = within(alloc, is_grouped, terms, &output.expr)?;
        let collation = collation_of(alloc, &expr);
        columns.push(collation.map(|collation| ResultColumn { expr, collation })?)?;
    }
    Ok(columns)
}

// HAVING, if it is there.
fn having_in(
    alloc: Global,
    is_grouped: bool,
    terms: &[GroupTerm],
    having: &Option<Boxed<Expr>>,
) -> Result<Option<Expr>, AllocError>
    ensures { IfOk result (λ h. h ≡ option_map (within is_grouped terms.now) having.now) }
{
    match having {
        Some(having) => Ok(Some(within(alloc, is_grouped, terms, having.get())?)),
        None => Ok(None),
    }
}

// The place of the first result column that an expression is the same as.
fn result_place(columns: &[ResultColumn], expr: &Expr) -> Option<usize>
    ensures { result ≡ position (λ c. same expr.now c.expr) columns.now }
{
    columns.iter().position(|column| same(expr, &column.expr))
}

// The same beside DISTINCT.
#[tactic(auto, using(crate::proofs::Within::beside_distinct, crate::proofs::Within::without_distinct))]
fn found_result(is_distinct: bool, columns: &[ResultColumn], expr: &Expr) -> Option<usize>
    ensures { result ≡ found_result is_distinct (exprs_shown columns.now) expr.now }
{
    if is_distinct {
        result_place(columns, expr)
    } else {
        None
    }
}

// A term of ORDER BY.
#[tactic(none)]
fn order_term(
    alloc: Global,
    is_distinct: bool,
    is_grouped: bool,
    terms: &[GroupTerm],
    columns: &[ResultColumn],
    term: &OrderTerm,
) -> Result<OrderTerm, AllocError>
    ensures { IfOk result (λ t. t ≡ ordered_in is_distinct is_grouped terms.now columns.now term.now) }
{
    let expr = within(alloc, is_grouped, terms, &term.expr)?;
    let collation = collation_of(alloc, &expr)?;
    let found = found_result(is_distinct, columns, &expr);
    Ok(OrderTerm {
        result: term.result.or(found),
        expr,
        collation,
        is_descending: term.is_descending,
    })
}

// The terms of ORDER BY.
fn order_terms(
    alloc: Global,
    is_distinct: bool,
    is_grouped: bool,
    terms: &[GroupTerm],
    columns: &[ResultColumn],
    order: &[OrderTerm],
) -> Result<Items<OrderTerm>, AllocError>
    ensures { IfOk result (λ ts. ts ≡ map (ordered_in is_distinct is_grouped terms.now columns.now) order.now) }
{
    let mut ordered = Items::new(alloc);
    for term in order {
        ordered.push(order_term(alloc, is_distinct, is_grouped, terms, columns, term)?)?;
    }
    Ok(ordered)
}

/// A query whose names are read, over these terms of GROUP BY, which have no COLLATE around them.
///
/// # Errors
/// Where memory runs out.
#[tactic(none)]
pub fn query_in(
    alloc: Global,
    select: &Select,
    is_grouped: bool,
    groups: Items<GroupTerm>,
    named: Named,
) -> Result<Query, AllocError>
    ensures { IfOk result (λ q. q ≡ query_in select.now is_grouped groups named) }
{
    let terms = groups.as_slice();
    let results = result_columns(alloc, is_grouped, terms, named.results.as_slice())?;
    let having = having_in(alloc, is_grouped, terms, &named.having)?;
    let order = order_terms(
        alloc,
        select.distinct,
        is_grouped,
        terms,
        results.as_slice(),
        named.order.as_slice(),
    )?;
    let filter = terms_of(alloc, named.filter)?;
    Ok(Query {
        is_distinct: select.distinct,
        results,
        joined: named.joined,
        filter,
        is_grouped,
        groups,
        having,
        order,
        limit: count_limit(&select.limit),
        offset: offset_of(&select.limit),
    })
}
