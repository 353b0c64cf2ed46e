//! Lists, with commas between their items or without.

ghost use Rattle.std.specs.Prelude.{Option};
ghost use Rattle.cr_tree.specs.Reading.{Parser};
ghost use Rattle.cr_parse.specs.Given.{Gives};
ghost use Rattle.cr_statement.specs.Given.{ReadsAs};
ghost use Rattle.cr_statement.specs.Reading as reading;

use cr_parse::cursor::Cursor;
use cr_parse::fault::Fault;
use cr_tree::symbol::Mark;
use sqlite_items::Items;
use std::alloc::Global;

/// One item or more, with commas between.
#[tactic(auto, unfolding(crate::specs::Reading::commas))]
pub fn commas<T: Drop, F: Fn(Global, &mut Cursor<'_>) -> Result<T, Fault>>(
    alloc: Global,
    tokens: &mut Cursor<'_>,
    item: F,
) -> Result<Items<T>, Fault>
    requires { F.IsAlwaysCallable item }
    ensures { (p : Parser T) → ReadsAs p (F.post item) → Gives (λ x. x) (reading.commas p tokens.old) result tokens.new }
{
    let first = item(alloc, tokens)?;
    let mut all = Items::new(alloc);
    all.push(first)?;
    for _turn in 0..tokens.len() {
        if !tokens.sees(Mark::Comma) {
            break;
        }
        tokens.take();
        let next = item(alloc, tokens)?;
        all.push(next)?;
    }
    Ok(all)
}

/// As many items as are found, with nothing between them, behind those that there are.
#[tactic(auto, unfolding(crate::specs::Reading::found))]
pub fn many<T: Drop, F: Fn(Global, &mut Cursor<'_>) -> Result<Option<T>, Fault>>(
    alloc: Global,
    tokens: &mut Cursor<'_>,
    mut all: Items<T>,
    item: F,
) -> Result<Items<T>, Fault>
    requires { F.IsAlwaysCallable item }
    ensures { (p : Parser (Option T)) → ReadsAs p (F.post item) → Gives (λ x. x) (reading.found p all tokens.old) result tokens.new }
{
    for _turn in 0..tokens.len() {
        match item(alloc, tokens)? {
            Some(next) => all.push(next)?,
            None => break,
        }
    }
    Ok(all)
}
