//! A SELECT as SQL text.

ghost use Rattle.std.specs.Prelude.{◌≡◌, [], ◌++◌, map, OnOk};
ghost use Rattle.std.specs.String.{string_bytes};
ghost use Rattle.cr_print.specs.Pieces.{in_row};
ghost use Rattle.cr_print.specs.Layout as layout;

use crate::expr::{push_expr, push_exprs};
use crate::pieces::{push_int, push_name};
use cr_tree::expr::Expr;
use cr_tree::statement::{Join, JoinKind, Limit, Select, Shown, Source, Tables, Term};
use cr_value::text::Text;
use sqlite_items::Items;
use std::alloc::{AllocError, Global};

/// Appends words and an expression, if there is one.
pub fn push_clause(
    alloc: Global,
    out: &mut String,
    before: &str,
    e: &Option<Expr>,
) -> Result<(), AllocError>
    ensures { OnOk result (string_bytes out.new ≡ string_bytes out.old ++ layout.clause before.now e.now) }
{
    match e {
        Some(e) => {
            out.push_str(before)?;
            push_expr(alloc, out, e)
        }
        None => Ok(()),
    }
}

fn push_alias(out: &mut String, alias: &Option<Text>) -> Result<(), AllocError>
    ensures { OnOk result (string_bytes out.new ≡ string_bytes out.old ++ layout.alias alias.now) }
{
    match alias {
        Some(alias) => {
            out.push_str(" AS ")?;
            push_name(out, alias)
        }
        None => Ok(()),
    }
}

fn push_shown(alloc: Global, out: &mut String, it: &Shown) -> Result<(), AllocError>
    ensures { OnOk result (string_bytes out.new ≡ string_bytes out.old ++ layout.shown it.now) }
{
    match it {
        Shown::All => out.push_str("*"),
        Shown::AllOf(source) => {
            push_name(out, source)?;
            out.push_str(".*")
        }
        Shown::One(e, alias) => {
            push_expr(alloc, out, e)?;
            push_alias(out, alias)
        }
    }
}

#[tactic(auto, using(crate::proofs::Loops::rest_at))]
fn push_all_shown(
    alloc: Global,
    out: &mut String,
    between: &str,
    all: &[Shown],
) -> Result<(), AllocError>
    ensures { OnOk result
        (string_bytes out.new ≡ string_bytes out.old ++ in_row [] between.now (map layout.shown all.now)) }
{
    let mut before = "";
    for it in all {
        out.push_str(before)?;
        push_shown(alloc, out, it)?;
        before = between;
    }
    Ok(())
}

fn select_words(is_distinct: bool) -> &'static str
    ensures { result.now ≡ layout.distinct is_distinct }
{
    if is_distinct {
        "SELECT DISTINCT "
    } else {
        "SELECT "
    }
}

fn push_results(alloc: Global, out: &mut String, query: &Select) -> Result<(), AllocError>
    ensures { OnOk result (string_bytes out.new ≡ string_bytes out.old ++ layout.results query.now) }
{
    out.push_str(select_words(query.distinct))?;
    push_all_shown(alloc, out, ", ", query.shown.as_slice())
}

fn push_source(out: &mut String, source: &Source) -> Result<(), AllocError>
    ensures { OnOk result (string_bytes out.new ≡ string_bytes out.old ++ layout.source source.now) }
{
    push_name(out, &source.table)?;
    push_alias(out, &source.alias)
}

fn join_word(kind: JoinKind) -> &'static str
    ensures { result.now ≡ layout.join_word kind }
{
    match kind {
        JoinKind::Comma => ", ",
        JoinKind::Inner => " INNER JOIN ",
        JoinKind::Cross => " CROSS JOIN ",
        JoinKind::Left => " LEFT JOIN ",
    }
}

fn push_join(alloc: Global, out: &mut String, join: &Join) -> Result<(), AllocError>
    ensures { OnOk result (string_bytes out.new ≡ string_bytes out.old ++ layout.join join.now) }
{
    out.push_str(join_word(join.kind))?;
    push_source(out, &join.source)?;
    push_clause(alloc, out, " ON ", &join.on)
}

#[tactic(auto, using(crate::proofs::Loops::rest_at))]
fn push_joins(alloc: Global, out: &mut String, joins: &[Join]) -> Result<(), AllocError>
    ensures { OnOk result (string_bytes out.new ≡ string_bytes out.old ++ in_row [] [] (map layout.join joins.now)) }
{
    for join in joins {
        push_join(alloc, out, join)?;
    }
    Ok(())
}

fn push_from(alloc: Global, out: &mut String, from: &Option<Tables>) -> Result<(), AllocError>
    ensures { OnOk result (string_bytes out.new ≡ string_bytes out.old ++ layout.from from.now) }
{
    match from {
        Some(tables) => {
            out.push_str(" FROM ")?;
            push_source(out, &tables.first)?;
            push_joins(alloc, out, tables.joins.as_slice())
        }
        None => Ok(()),
    }
}

fn push_group(
    alloc: Global,
    out: &mut String,
    group: &Option<Items<Expr>>,
) -> Result<(), AllocError>
    ensures { OnOk result (string_bytes out.new ≡ string_bytes out.old ++ layout.group group.now) }
{
    match group {
        Some(terms) => {
            out.push_str(" GROUP BY ")?;
            push_exprs(alloc, out, terms.as_slice())
        }
        None => Ok(()),
    }
}

fn push_groups(alloc: Global, out: &mut String, query: &Select) -> Result<(), AllocError>
    ensures { OnOk result (string_bytes out.new ≡ string_bytes out.old ++ layout.groups query.now) }
{
    push_group(alloc, out, &query.group)?;
    push_clause(alloc, out, " HAVING ", &query.having)
}

fn push_term(alloc: Global, out: &mut String, term: &Term) -> Result<(), AllocError>
    ensures { OnOk result (string_bytes out.new ≡ string_bytes out.old ++ layout.term term.now) }
{
    push_expr(alloc, out, &term.expr)?;
    if term.descending {
        out.push_str(" DESC")?;
    }
    Ok(())
}

#[tactic(auto, using(crate::proofs::Loops::rest_at))]
fn push_terms(
    alloc: Global,
    out: &mut String,
    between: &str,
    terms: &[Term],
) -> Result<(), AllocError>
    ensures { OnOk result
        (string_bytes out.new ≡ string_bytes out.old ++ in_row [] between.now (map layout.term terms.now)) }
{
    let mut before = "";
    for term in terms {
        out.push_str(before)?;
        push_term(alloc, out, term)?;
        before = between;
    }
    Ok(())
}

fn push_order(
    alloc: Global,
    out: &mut String,
    order: &Option<Items<Term>>,
) -> Result<(), AllocError>
    ensures { OnOk result (string_bytes out.new ≡ string_bytes out.old ++ layout.order order.now) }
{
    match order {
        Some(terms) => {
            out.push_str(" ORDER BY ")?;
            push_terms(alloc, out, ", ", terms.as_slice())
        }
        None => Ok(()),
    }
}

fn push_offset(alloc: Global, out: &mut String, offset: Option<i64>) -> Result<(), AllocError>
    ensures { OnOk result (string_bytes out.new ≡ string_bytes out.old ++ layout.offset offset) }
{
    match offset {
        Some(number) => {
            out.push_str(" OFFSET ")?;
            push_int(alloc, out, number)
        }
        None => Ok(()),
    }
}

fn push_limit(alloc: Global, out: &mut String, limit: Option<Limit>) -> Result<(), AllocError>
    ensures { OnOk result (string_bytes out.new ≡ string_bytes out.old ++ layout.limit limit) }
{
    match limit {
        Some(limit) => {
            out.push_str(" LIMIT ")?;
            push_int(alloc, out, limit.count)?;
            push_offset(alloc, out, limit.offset)
        }
        None => Ok(()),
    }
}

/// Appends a SELECT.
pub fn push_select(alloc: Global, out: &mut String, query: &Select) -> Result<(), AllocError>
    ensures { OnOk result (string_bytes out.new ≡ string_bytes out.old ++ layout.select query.now) }
{
    push_results(alloc, out, query)?;
    push_from(alloc, out, &query.from)?;
    push_clause(alloc, out, " WHERE ", &query.filter)?;
    push_groups(alloc, out, query)?;
    push_order(alloc, out, &query.order)?;
    push_limit(alloc, out, query.limit)
}
