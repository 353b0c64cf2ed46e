//! Parts that several statements have.

ghost use Rattle.cr_tree.specs.Marks.{is_mark};
ghost use Rattle.cr_tree.specs.Reading as spec;
ghost use Rattle.cr_parse.specs.Given.{Gives};
ghost use Rattle.cr_statement.specs.Reading as reading;

use crate::list::commas;
use cr_parse::cursor::Cursor;
use cr_parse::fault::Fault;
use cr_parse::level;
use cr_tree::expr::Expr;
use cr_tree::limits::LIMITS;
use cr_tree::symbol::Mark;
use cr_value::text::Text;
use sqlite_items::Items;
use std::alloc::Global;

/// A name.
pub fn name(alloc: Global, tokens: &mut Cursor<'_>) -> Result<Text, Fault>
    ensures { Gives (λ x. x) (spec.name tokens.old) result tokens.new }
{
    tokens.name(alloc)
}

/// An expression.
#[tactic(auto, unfolding(cr_tree::specs::Reading::whole))]
pub fn expr(alloc: Global, tokens: &mut Cursor<'_>) -> Result<Expr, Fault>
    ensures { Gives (λ x. x) (spec.whole LIMITS tokens.old) result tokens.new }
{
    let (tree, _) = level::expr(alloc, tokens, LIMITS, 1)?;
    Ok(tree)
}

/// A mark and an expression behind it, if the mark is there.
pub fn expr_behind(
    alloc: Global,
    tokens: &mut Cursor<'_>,
    mark: Mark,
) -> Result<Option<Expr>, Fault>
    ensures { Gives (λ x. x) (reading.optional (is_mark mark) (spec.behind mark (spec.whole LIMITS)) tokens.old) result tokens.new }
{
    if !tokens.sees(mark) {
        return Ok(None);
    }
    tokens.expect(mark)?;
    Ok(Some(expr(alloc, tokens)?))
}

/// WHERE and what stands behind it, if it is there.
#[tactic(auto, unfolding(crate::specs::Reading::filter))]
pub fn filter(alloc: Global, tokens: &mut Cursor<'_>) -> Result<Option<Expr>, Fault>
    ensures { Gives (λ x. x) (reading.filter LIMITS tokens.old) result tokens.new }
{
    expr_behind(alloc, tokens, Mark::Where)
}

/// One expression or more, with commas between.
pub fn exprs(alloc: Global, tokens: &mut Cursor<'_>) -> Result<Items<Expr>, Fault>
    ensures { Gives (λ x. x) (reading.commas (spec.whole LIMITS) tokens.old) result tokens.new }
{
    commas(alloc, tokens, expr)
}

fn name_list(alloc: Global, tokens: &mut Cursor<'_>) -> Result<Items<Text>, Fault>
    ensures { Gives (λ x. x) (reading.commas spec.name tokens.old) result tokens.new }
{
    commas(alloc, tokens, name)
}

/// Names in parentheses.
#[tactic(auto, unfolding(crate::specs::Reading::names))]
pub fn names(alloc: Global, tokens: &mut Cursor<'_>) -> Result<Items<Text>, Fault>
    ensures { Gives (λ x. x) (reading.names tokens.old) result tokens.new }
{
    tokens.expect(Mark::Open)?;
    let all = name_list(alloc, tokens)?;
    tokens.expect(Mark::Close)?;
    Ok(all)
}
