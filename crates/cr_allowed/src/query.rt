//! What is left of a SELECT.

ghost use Rattle.std.specs.Prelude.{◌≡◌, map, IfOk};
ghost use Rattle.std.specs.Option.{option_map};
ghost use Rattle.cr_questions.specs.Questions.{left, left_joined, left_order, left_query, relations_of, result_column};
ghost use Rattle.cr_questions.specs.Asked.{relations};

use crate::left::{left, left_all};
use cr_build::copy::copy_relation;
use cr_questions::answering::Answering;
use cr_questions::operands::collation_of;
use cr_questions::sources::Sources;
use cr_term::expr::Expr;
use cr_term::query::{GroupTerm, Joined, OrderTerm, Query, ResultColumn};
use sqlite_items::Items;
use std::alloc::{AllocError, Global};

fn left_results<G: Answering>(
    alloc: Global,
    guard: &G,
    sources: Sources<'_>,
    results: &[ResultColumn],
) -> Result<Items<ResultColumn>, AllocError>
    requires { G.is_faithful guard.now }
    ensures { IfOk result (λ cs. cs ≡ map (λ r. result_column (left (G.answers guard.now) (relations sources.entry) r.expr)) results.now) }
{
    let mut lefts = Vec::new(alloc);
    for column in results {
        let expr = left(alloc, guard, sources, &column.expr)?;
        let collation = collation_of(alloc, &expr);
        lefts.push(collation.map(|collation| ResultColumn { expr, collation })?)?;
    }
    Ok(Items::from_vec(lefts))
}

fn left_tables<G: Answering>(
    alloc: Global,
    guard: &G,
    sources: Sources<'_>,
    joined: &[Joined],
) -> Result<Items<Joined>, AllocError>
    requires { G.is_faithful guard.now }
    ensures { IfOk result (λ js. js ≡ map (left_joined (left (G.answers guard.now) (relations sources.entry))) joined.now) }
{
    let mut lefts = Vec::new(alloc);
    for table in joined {
        let relation = copy_relation(alloc, &table.relation)?;
        let on = left_all(alloc, guard, sources, table.on.as_slice())?;
        let is_left = table.is_left;
        lefts.push(Joined {
            relation,
            is_left,
            on,
        })?;
    }
    Ok(Items::from_vec(lefts))
}

// The classes of a group stay as they were.
fn left_groups<G: Answering>(
    alloc: Global,
    guard: &G,
    sources: Sources<'_>,
    groups: &[GroupTerm],
) -> Result<Items<GroupTerm>, AllocError>
    requires { G.is_faithful guard.now }
    ensures { IfOk result (λ gs. gs ≡ map (λ g. record { expr = left (G.answers guard.now) (relations sources.entry) g.expr; collation = g.collation }) groups.now) }
{
    let mut lefts = Vec::new(alloc);
    for group in groups {
        let collation = group.collation.copy(alloc)?;
        let expr = left(alloc, guard, sources, &group.expr)?;
        lefts.push(GroupTerm { expr, collation })?;
    }
    Ok(Items::from_vec(lefts))
}

fn left_terms<G: Answering>(
    alloc: Global,
    guard: &G,
    sources: Sources<'_>,
    order: &[OrderTerm],
) -> Result<Items<OrderTerm>, AllocError>
    requires { G.is_faithful guard.now }
    ensures { IfOk result (λ ts. ts ≡ map (left_order (left (G.answers guard.now) (relations sources.entry))) order.now) }
{
    let mut lefts = Vec::new(alloc);
    for term in order {
        let expr = left(alloc, guard, sources, &term.expr)?;
        let (result, is_descending) = (term.result, term.is_descending);
        let collation = collation_of(alloc, &expr);
        lefts.push(collation.map(|collation| OrderTerm {
            result,
            expr,
            collation,
            is_descending,
        })?)?;
    }
    Ok(Items::from_vec(lefts))
}

fn left_having<G: Answering>(
    alloc: Global,
    guard: &G,
    sources: Sources<'_>,
    having: &Option<Expr>,
) -> Result<Option<Expr>, AllocError>
    requires { G.is_faithful guard.now }
    ensures { IfOk result (λ h. h ≡ option_map (left (G.answers guard.now) (relations sources.entry)) having.now) }
{
    match having {
        Some(expr) => Ok(Some(left(alloc, guard, sources, expr)?)),
        None => Ok(None),
    }
}

/// What is left of a SELECT: NULL in the place of each column and each call that the authorizer ignores. It is grouped as
/// it was, in the same classes; results and terms of ORDER BY take their collations anew.
///
/// # Errors
/// Where memory runs out.
pub fn left_query<G: Answering>(
    alloc: Global,
    guard: &G,
    query: &Query,
) -> Result<Query, AllocError>
    requires { G.is_faithful guard.now }
    ensures { IfOk result (λ q. q ≡ left_query (left (G.answers guard.now) (relations_of query.now)) query.now) }
{
    let sources = Sources::Joined(query.joined.as_slice());
    let results = left_results(alloc, guard, sources, query.results.as_slice())?;
    let joined = left_tables(alloc, guard, sources, query.joined.as_slice())?;
    let filter = left_all(alloc, guard, sources, query.filter.as_slice())?;
    let groups = left_groups(alloc, guard, sources, query.groups.as_slice())?;
    let order = left_terms(alloc, guard, sources, query.order.as_slice())?;
    let having = left_having(alloc, guard, sources, &query.having)?;
    Ok(Query {
        is_distinct: query.is_distinct,
        results,
        joined,
        filter,
        is_grouped: query.is_grouped,
        groups,
        having,
        order,
        limit: query.limit,
        offset: query.offset,
    })
}
