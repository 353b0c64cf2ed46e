//! Whole expressions.

ghost use Rattle.std.specs.Prelude.{◌≡◌, ◌≢◌, ℕ, IfOk};
ghost use Rattle.cr_tree.specs.Reading as spec;
ghost use Rattle.cr_tree.specs.Language as language;
ghost use Rattle.cr_tree.specs.Judging.{IsRead, IsBadPlace, MeetsLimit};
ghost use Rattle.cr_tree.specs.declared.expr.Expr as trees;
ghost use Rattle.cr_tree.specs.declared.limits.LimitKind.{LimitKind};
ghost use Rattle.cr_parse.specs.Given.{Gives};
ghost use Rattle.cr_parse.specs.Judge.{judge};

use crate::cursor::Cursor;
use crate::error::{ParseError, refusal};
use crate::fault::Fault;
use crate::level::expr;
use cr_tree::expr::Expr;
use cr_tree::limits::LIMITS;
use cr_tree::symbol::Symbol;
use std::alloc::Global;

// An expression within the limits, with its height.
fn limited(alloc: Global, tokens: &mut Cursor<'_>) -> Result<(Expr, u8), Fault>
    ensures { Gives (λ x. x) (spec.expr LIMITS 1 tokens.old) result tokens.new }
{
    expr(alloc, tokens, LIMITS, 1)
}

// What the executable reading judges.
#[tactic(auto, using(crate::proofs::Refusals::told_then), unfolding(cr_tree::specs::Reading::whole))]
fn read(alloc: Global, symbols: &[Symbol]) -> Result<Expr, ParseError>
    ensures { result ≢ Err ParseError.Memory → result ≡ judge symbols.now (spec.whole LIMITS symbols.now) }
{
    let mut cursor = Cursor::new(symbols);
    let outcome = limited(alloc, &mut cursor);
    let place = symbols.len().saturating_sub(cursor.len());
    match outcome {
        Ok((tree, _)) => {
            if cursor.len() == 0 {
                Ok(tree)
            } else {
                Err(ParseError::Syntax(place))
            }
        }
        Err(fault) => Err(refusal(fault, place)),
    }
}

/// The tree of the expression that the symbols are, all of them. The grammar is a part of SQLite's "SQL Language
/// Expressions", in levels. Takes time in proportion to the number of symbols.
///
/// # Errors
/// `Syntax` with the number of symbols before the first with which no expression goes on, or with their number where
/// more are wanted; `Limit` with its kind where the depth would pass 100, the open parentheses 200 or the arguments of a
/// call 100, if that is met first from the left; `Memory`.
pub fn expression(alloc: Global, symbols: &[Symbol]) -> Result<Expr, ParseError>
    // What is read is an expression with this tree.
    ensures read { IfOk result (λ x. IsRead language.expr symbols.now x) }
    // Each expression within the limits is read, unless memory runs out.
    ensures only { (x : trees.Expr) → IsRead language.expr symbols.now x → result ≢ Err ParseError.Memory → result ≡ Ok x }
    ensures syntax { (n : ℕ) → result ≡ Err (ParseError.Syntax n) → IsBadPlace language.expr symbols.now n }
    ensures limit { (which : LimitKind) → result ≡ Err (ParseError.Limit which) → MeetsLimit which language.expr symbols.now }
{
    read(alloc, symbols)
}
