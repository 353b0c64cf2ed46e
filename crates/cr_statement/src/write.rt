//! INSERT, UPDATE and DELETE.

ghost use Rattle.cr_tree.specs.declared.limits.TheConstants.{LIMITS};
ghost use Rattle.cr_parse.specs.Given.{Gives};
ghost use Rattle.cr_statement.specs.Reading as reading;

use crate::list::commas;
use crate::part::{expr, exprs, filter, names};
use cr_parse::cursor::Cursor;
use cr_parse::fault::Fault;
use cr_tree::expr::Expr;
use cr_tree::statement::{Assignment, Delete, Insert, Update};
use cr_tree::symbol::Mark;
use cr_value::text::Text;
use sqlite_items::Items;
use std::alloc::Global;

// The names of columns, if they are there.
#[tactic(auto, unfolding(crate::specs::Reading::columns))]
fn columns(alloc: Global, tokens: &mut Cursor<'_>) -> Result<Option<Items<Text>>, Fault>
    ensures { Gives (λ x. x) (reading.columns tokens.old) result tokens.new }
{
    if !tokens.sees(Mark::Open) {
        return Ok(None);
    }
    Ok(Some(names(alloc, tokens)?))
}

#[tactic(auto, unfolding(crate::specs::Reading::row))]
fn row(alloc: Global, tokens: &mut Cursor<'_>) -> Result<Items<Expr>, Fault>
    ensures { Gives (λ x. x) (reading.row LIMITS tokens.old) result tokens.new }
{
    tokens.expect(Mark::Open)?;
    let all = exprs(alloc, tokens)?;
    tokens.expect(Mark::Close)?;
    Ok(all)
}

fn rows(alloc: Global, tokens: &mut Cursor<'_>) -> Result<Items<Items<Expr>>, Fault>
    ensures { Gives (λ x. x) (reading.commas (reading.row LIMITS) tokens.old) result tokens.new }
{
    commas(alloc, tokens, row)
}

#[tactic(auto, unfolding(crate::specs::Reading::insert))]
pub fn insert(alloc: Global, tokens: &mut Cursor<'_>) -> Result<Insert, Fault>
    ensures { Gives (λ x. x) (reading.insert LIMITS tokens.old) result tokens.new }
{
    tokens.expect(Mark::Insert)?;
    tokens.expect(Mark::Into)?;
    let table = tokens.name(alloc)?;
    let columns = columns(alloc, tokens)?;
    tokens.expect(Mark::Values)?;
    let rows = rows(alloc, tokens)?;
    Ok(Insert {
        table,
        columns,
        rows,
    })
}

#[tactic(auto, unfolding(crate::specs::Reading::assignment))]
fn assignment(alloc: Global, tokens: &mut Cursor<'_>) -> Result<Assignment, Fault>
    ensures { Gives (λ x. x) (reading.assignment LIMITS tokens.old) result tokens.new }
{
    let column = tokens.name(alloc)?;
    tokens.expect(Mark::Equal)?;
    let value = expr(alloc, tokens)?;
    Ok(Assignment { column, value })
}

fn assignments(alloc: Global, tokens: &mut Cursor<'_>) -> Result<Items<Assignment>, Fault>
    ensures { Gives (λ x. x) (reading.commas (reading.assignment LIMITS) tokens.old) result tokens.new }
{
    commas(alloc, tokens, assignment)
}

#[tactic(auto, unfolding(crate::specs::Reading::update))]
pub fn update(alloc: Global, tokens: &mut Cursor<'_>) -> Result<Update, Fault>
    ensures { Gives (λ x. x) (reading.update LIMITS tokens.old) result tokens.new }
{
    tokens.expect(Mark::Update)?;
    let table = tokens.name(alloc)?;
    tokens.expect(Mark::Set)?;
    let assignments = assignments(alloc, tokens)?;
    let filter = filter(alloc, tokens)?;
    Ok(Update {
        table,
        assignments,
        filter,
    })
}

#[tactic(auto, unfolding(crate::specs::Reading::delete))]
pub fn delete(alloc: Global, tokens: &mut Cursor<'_>) -> Result<Delete, Fault>
    ensures { Gives (λ x. x) (reading.delete LIMITS tokens.old) result tokens.new }
{
    tokens.expect(Mark::Delete)?;
    tokens.expect(Mark::From)?;
    let table = tokens.name(alloc)?;
    let filter = filter(alloc, tokens)?;
    Ok(Delete { table, filter })
}
