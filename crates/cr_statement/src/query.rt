//! SELECT.

ghost use Rattle.std.specs.Prelude.{◌≡◌, []};
ghost use Rattle.cr_tree.specs.Marks.{is_mark};
ghost use Rattle.cr_tree.specs.Reading as spec;
ghost use Rattle.cr_parse.specs.Given.{Gives, Tells};
ghost use Rattle.cr_statement.specs.Reading as reading;
ghost use Rattle.cr_statement.specs.Queries as query;

use crate::list::commas;
use crate::number::{int, negative};
use crate::part::{expr, expr_behind, exprs, filter};
use cr_parse::cursor::Cursor;
use cr_parse::fault::Fault;
use cr_tree::expr::Expr;
use cr_tree::limits::{LIMITS, LimitKind};
use cr_tree::statement::{Join, JoinKind, Limit, Select, Shown, Source, Tables, Term};
use cr_tree::symbol::{Mark, Symbol};
use cr_value::text::Text;
use sqlite_items::Items;
use std::alloc::Global;

// AS and a name, or the name alone, if it is there.
#[tactic(auto, unfolding(crate::specs::Queries::alias))]
fn alias(alloc: Global, tokens: &mut Cursor<'_>) -> Result<Option<Text>, Fault>
    ensures { Gives (λ x. x) (query.alias tokens.old) result tokens.new }
{
    if !tokens.sees(Mark::As) && !tokens.sees_name() {
        return Ok(None);
    }
    tokens.eat(Mark::As);
    Ok(Some(tokens.name(alloc)?))
}

// ---- what is shown

// Whether a name, a dot and a star come next.
fn sees_starred(tokens: &Cursor<'_>) -> bool
    ensures { result ≡ query.sees_starred tokens.now }
{
    let second = tokens.after_next();
    let third = second.after_next();
    tokens.sees_name() && second.sees(Mark::Dot) && third.sees(Mark::Star)
}

#[tactic(auto, unfolding(crate::specs::Queries::starred))]
fn starred(alloc: Global, tokens: &mut Cursor<'_>) -> Result<Shown, Fault>
    ensures { Gives (λ x. x) (query.starred tokens.old) result tokens.new }
{
    let table = tokens.name(alloc)?;
    tokens.expect(Mark::Dot)?;
    tokens.expect(Mark::Star)?;
    Ok(Shown::AllOf(table))
}

#[tactic(auto, unfolding(crate::specs::Queries::labelled))]
fn labelled(alloc: Global, tokens: &mut Cursor<'_>) -> Result<Shown, Fault>
    ensures { Gives (λ x. x) (query.labelled LIMITS tokens.old) result tokens.new }
{
    let shown = expr(alloc, tokens)?;
    let alias = alias(alloc, tokens)?;
    Ok(Shown::One(shown, alias))
}

#[tactic(auto, unfolding(crate::specs::Queries::shown))]
fn shown(alloc: Global, tokens: &mut Cursor<'_>) -> Result<Shown, Fault>
    ensures { Gives (λ x. x) (query.shown LIMITS tokens.old) result tokens.new }
{
    if tokens.sees(Mark::Star) {
        tokens.expect(Mark::Star)?;
        return Ok(Shown::All);
    }
    if sees_starred(tokens) {
        return starred(alloc, tokens);
    }
    labelled(alloc, tokens)
}

fn all_shown(alloc: Global, tokens: &mut Cursor<'_>) -> Result<Items<Shown>, Fault>
    ensures { Gives (λ x. x) (reading.commas (query.shown LIMITS) tokens.old) result tokens.new }
{
    commas(alloc, tokens, shown)
}

// ---- FROM

#[tactic(auto, unfolding(crate::specs::Queries::source))]
fn source(alloc: Global, tokens: &mut Cursor<'_>) -> Result<Source, Fault>
    ensures { Gives (λ x. x) (query.source tokens.old) result tokens.new }
{
    let table = tokens.name(alloc)?;
    let alias = alias(alloc, tokens)?;
    Ok(Source { table, alias })
}

#[tactic(auto, unfolding(crate::specs::Queries::joined))]
fn joined(alloc: Global, tokens: &mut Cursor<'_>, kind: JoinKind) -> Result<Join, Fault>
    ensures { Gives (λ x. x) (query.joined kind LIMITS tokens.old) result tokens.new }
{
    tokens.expect(Mark::Join)?;
    let source = source(alloc, tokens)?;
    let on = expr_behind(alloc, tokens, Mark::On)?;
    Ok(Join { kind, source, on })
}

#[tactic(auto, unfolding(crate::specs::Queries::comma_join))]
fn comma_join(alloc: Global, tokens: &mut Cursor<'_>) -> Result<Join, Fault>
    ensures { Gives (λ x. x) (query.comma_join tokens.old) result tokens.new }
{
    tokens.expect(Mark::Comma)?;
    let source = source(alloc, tokens)?;
    Ok(Join {
        kind: JoinKind::Comma,
        source,
        on: None,
    })
}

#[tactic(auto, unfolding(crate::specs::Queries::left_join))]
fn left_join(alloc: Global, tokens: &mut Cursor<'_>) -> Result<Join, Fault>
    ensures { Gives (λ x. x) (query.left_join LIMITS tokens.old) result tokens.new }
{
    tokens.expect(Mark::Left)?;
    tokens.eat(Mark::Outer);
    joined(alloc, tokens, JoinKind::Left)
}

#[tactic(auto, unfolding(crate::specs::Queries::plain_join))]
fn plain_join(alloc: Global, tokens: &mut Cursor<'_>) -> Result<Join, Fault>
    ensures { Gives (λ x. x) (query.plain_join LIMITS tokens.old) result tokens.new }
{
    if tokens.sees(Mark::Inner) {
        tokens.expect(Mark::Inner)?;
        return joined(alloc, tokens, JoinKind::Inner);
    }
    if tokens.sees(Mark::Cross) {
        tokens.expect(Mark::Cross)?;
        return joined(alloc, tokens, JoinKind::Cross);
    }
    joined(alloc, tokens, JoinKind::Inner)
}

#[tactic(auto, unfolding(crate::specs::Queries::join))]
fn join(alloc: Global, tokens: &mut Cursor<'_>) -> Result<Join, Fault>
    ensures { Gives (λ x. x) (query.join LIMITS tokens.old) result tokens.new }
{
    if tokens.sees(Mark::Comma) {
        return comma_join(alloc, tokens);
    }
    if tokens.sees(Mark::Left) {
        return left_join(alloc, tokens);
    }
    plain_join(alloc, tokens)
}

fn begins_join(symbol: &Symbol) -> bool
    ensures { result ≡ query.begins_join symbol.now }
{
    matches!(
        symbol,
        Symbol::Mark(Mark::Comma | Mark::Left | Mark::Inner | Mark::Cross | Mark::Join)
    )
}

fn sees_join(tokens: &Cursor<'_>) -> bool
    ensures { result ≡ query.sees_join tokens.now }
{
    match tokens.peek() {
        Some(symbol) => begins_join(symbol),
        None => false,
    }
}

// The further tables, as many as there may be.
fn joins(alloc: Global, tokens: &mut Cursor<'_>) -> Result<Items<Join>, Fault>
    ensures { Gives (λ x. x) (spec.up_to LimitKind.Tables query.begins_join (query.join LIMITS) spec.listed LIMITS.joins [] tokens.old) result tokens.new }
{
    let mut all = Items::new(alloc);
    for _turn in 0..LIMITS.joins {
        if !sees_join(tokens) {
            return Ok(all);
        }
        let next = join(alloc, tokens)?;
        all.push(next)?;
    }
    if sees_join(tokens) {
        return Err(Fault::Limit(LimitKind::Tables));
    }
    Ok(all)
}

#[tactic(auto, unfolding(crate::specs::Queries::tables))]
fn tables(alloc: Global, tokens: &mut Cursor<'_>) -> Result<Tables, Fault>
    ensures { Gives (λ x. x) (query.tables LIMITS tokens.old) result tokens.new }
{
    let first = source(alloc, tokens)?;
    let joins = joins(alloc, tokens)?;
    Ok(Tables { first, joins })
}

#[tactic(auto, unfolding(crate::specs::Queries::from))]
fn from(alloc: Global, tokens: &mut Cursor<'_>) -> Result<Option<Tables>, Fault>
    ensures { Gives (λ x. x) (query.from LIMITS tokens.old) result tokens.new }
{
    if !tokens.sees(Mark::From) {
        return Ok(None);
    }
    tokens.expect(Mark::From)?;
    Ok(Some(tables(alloc, tokens)?))
}

// ---- GROUP BY, HAVING and ORDER BY

#[tactic(auto, unfolding(crate::specs::Queries::group))]
fn group(alloc: Global, tokens: &mut Cursor<'_>) -> Result<Option<Items<Expr>>, Fault>
    ensures { Gives (λ x. x) (query.group LIMITS tokens.old) result tokens.new }
{
    if !tokens.sees(Mark::Group) {
        return Ok(None);
    }
    tokens.expect(Mark::Group)?;
    tokens.expect(Mark::By)?;
    Ok(Some(exprs(alloc, tokens)?))
}

#[tactic(auto, unfolding(crate::specs::Queries::having))]
fn having(alloc: Global, tokens: &mut Cursor<'_>) -> Result<Option<Expr>, Fault>
    ensures { Gives (λ x. x) (query.having LIMITS tokens.old) result tokens.new }
{
    expr_behind(alloc, tokens, Mark::Having)
}

// Whether the one mark comes next; else the other may.
#[tactic(auto, unfolding(crate::specs::Queries::flag, cr_tree::specs::Reading::expect))]
fn flag(tokens: &mut Cursor<'_>, on: Mark, off: Mark) -> bool
    ensures { query.flag on off tokens.old ≡ spec.Reads result tokens.new }
{
    if tokens.sees(on) {
        tokens.take();
        return true;
    }
    tokens.eat(off);
    false
}

#[tactic(auto, unfolding(crate::specs::Queries::term))]
fn term(alloc: Global, tokens: &mut Cursor<'_>) -> Result<Term, Fault>
    ensures { Gives (λ x. x) (query.term LIMITS tokens.old) result tokens.new }
{
    let expr = expr(alloc, tokens)?;
    let descending = flag(tokens, Mark::Desc, Mark::Asc);
    Ok(Term { expr, descending })
}

fn terms(alloc: Global, tokens: &mut Cursor<'_>) -> Result<Items<Term>, Fault>
    ensures { Gives (λ x. x) (reading.commas (query.term LIMITS) tokens.old) result tokens.new }
{
    commas(alloc, tokens, term)
}

#[tactic(auto, unfolding(crate::specs::Queries::order))]
fn order(alloc: Global, tokens: &mut Cursor<'_>) -> Result<Option<Items<Term>>, Fault>
    ensures { Gives (λ x. x) (query.order LIMITS tokens.old) result tokens.new }
{
    if !tokens.sees(Mark::Order) {
        return Ok(None);
    }
    tokens.expect(Mark::Order)?;
    tokens.expect(Mark::By)?;
    Ok(Some(terms(alloc, tokens)?))
}

// ---- LIMIT

#[tactic(auto, unfolding(crate::specs::Queries::count))]
fn count(tokens: &mut Cursor<'_>) -> Result<i64, Fault>
    ensures { Tells (λ x. x) (query.count tokens.old) result tokens.new }
{
    if !tokens.sees(Mark::Minus) {
        return int(tokens);
    }
    tokens.expect(Mark::Minus)?;
    negative(tokens)
}

fn offset(tokens: &mut Cursor<'_>) -> Result<Option<i64>, Fault>
    ensures { Tells (λ x. x) (reading.optional (is_mark Mark.Offset) (spec.behind Mark.Offset query.count) tokens.old) result tokens.new }
{
    if !tokens.sees(Mark::Offset) {
        return Ok(None);
    }
    tokens.expect(Mark::Offset)?;
    Ok(Some(count(tokens)?))
}

#[tactic(auto, unfolding(crate::specs::Queries::limit))]
fn limit(tokens: &mut Cursor<'_>) -> Result<Limit, Fault>
    ensures { Tells (λ x. x) (query.limit tokens.old) result tokens.new }
{
    tokens.expect(Mark::Limit)?;
    let count = count(tokens)?;
    let offset = offset(tokens)?;
    Ok(Limit { count, offset })
}

#[tactic(auto, unfolding(crate::specs::Queries::limited))]
fn limited(tokens: &mut Cursor<'_>) -> Result<Option<Limit>, Fault>
    ensures { Tells (λ x. x) (query.limited tokens.old) result tokens.new }
{
    if !tokens.sees(Mark::Limit) {
        return Ok(None);
    }
    Ok(Some(limit(tokens)?))
}

// ---- the whole

// FROM and WHERE.
#[tactic(auto, unfolding(crate::specs::Queries::sources))]
fn sources(alloc: Global, tokens: &mut Cursor<'_>) -> Result<(Option<Tables>, Option<Expr>), Fault>
    ensures { Gives (λ x. x) (query.sources LIMITS tokens.old) result tokens.new }
{
    let from = from(alloc, tokens)?;
    let filter = filter(alloc, tokens)?;
    Ok((from, filter))
}

// GROUP BY and HAVING.
#[tactic(auto, unfolding(crate::specs::Queries::grouping))]
fn grouping(
    alloc: Global,
    tokens: &mut Cursor<'_>,
) -> Result<(Option<Items<Expr>>, Option<Expr>), Fault>
    ensures { Gives (λ x. x) (query.grouping LIMITS tokens.old) result tokens.new }
{
    let group = group(alloc, tokens)?;
    let having = having(alloc, tokens)?;
    Ok((group, having))
}

// ORDER BY and LIMIT.
#[tactic(auto, unfolding(crate::specs::Queries::ending))]
fn ending(
    alloc: Global,
    tokens: &mut Cursor<'_>,
) -> Result<(Option<Items<Term>>, Option<Limit>), Fault>
    ensures { Gives (λ x. x) (query.ending LIMITS tokens.old) result tokens.new }
{
    let order = order(alloc, tokens)?;
    let limit = limited(tokens)?;
    Ok((order, limit))
}

#[tactic(auto, unfolding(crate::specs::Queries::select, crate::specs::Queries::clauses))]
pub fn select(alloc: Global, tokens: &mut Cursor<'_>) -> Result<Select, Fault>
    ensures { Gives (λ x. x) (query.select LIMITS tokens.old) result tokens.new }
{
    tokens.expect(Mark::Select)?;
    let distinct = flag(tokens, Mark::Distinct, Mark::All);
    let shown = all_shown(alloc, tokens)?;
    let (from, filter) = sources(alloc, tokens)?;
    let (group, having) = grouping(alloc, tokens)?;
    ending(alloc, tokens).map(|(order, limit)| Select {
        distinct,
        shown,
        from,
        filter,
        group,
        having,
        order,
        limit,
    })
}
