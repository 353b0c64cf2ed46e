//! The sizes of types.

ghost use Rattle.cr_tree.specs.Reading as spec;
ghost use Rattle.cr_parse.specs.Given.{Tells};

use crate::cursor::Cursor;
use crate::fault::Fault;
use cr_tree::symbol::{Mark, Symbol};

#[tactic(auto, unfolding(cr_tree::specs::Reading::size))]
fn size(tokens: &mut Cursor<'_>) -> Result<(), Fault>
    ensures { Tells (λ _. tt) (spec.size tokens.old) result tokens.new }
{
    let is_size = match tokens.peek() {
        Some(Symbol::Number(n)) => *n < 1 << 63,
        Some(Symbol::Bits(_)) => true,
        _ => false,
    };
    if !is_size {
        return Err(Fault::Syntax);
    }
    tokens.take();
    Ok(())
}

#[tactic(auto, unfolding(cr_tree::specs::Reading::second_size))]
fn second_size(tokens: &mut Cursor<'_>) -> Result<(), Fault>
    ensures { Tells (λ _. tt) (spec.second_size tokens.old) result tokens.new }
{
    if !tokens.sees(Mark::Comma) {
        return Ok(());
    }
    tokens.expect(Mark::Comma)?;
    size(tokens)
}

/// The sizes of a type, if they are there: one integer or two, in parentheses. They are dropped.
#[tactic(auto, unfolding(cr_tree::specs::Reading::sizes))]
pub fn sizes(tokens: &mut Cursor<'_>) -> Result<(), Fault>
    ensures { Tells (λ _. tt) (spec.sizes tokens.old) result tokens.new }
{
    if !tokens.sees(Mark::Open) {
        return Ok(());
    }
    tokens.expect(Mark::Open)?;
    size(tokens)?;
    second_size(tokens)?;
    tokens.expect(Mark::Close)
}
