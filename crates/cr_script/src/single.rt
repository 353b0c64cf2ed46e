//! Texts that are one statement, with values for its parameters.

ghost use Rattle.std.specs.Prelude.{◌≡◌, ◌<◌, ℕ, Bool, List, Err, length};
ghost use Rattle.cr_script.specs.Hearing.{Hears, heard_of_piece};
ghost use Rattle.cr_script.specs.Scripts.{Executed, is_empty, second_place, single_left};
ghost use Rattle.cr_world.specs.declared.refusal.Refusal.TheVariants as refusal;
ghost use Rattle.cr_world.specs.declared.refusal.Limit.TheVariants as limit;

use crate::executor::Executor;
use crate::script::{behind, of_unread};
use crate::speaking::{Speaking, Watching};
use cr_guard::guarding::Guarding;
use cr_host::functions::Functions;
use cr_lex::scan::tokens;
use cr_lex::token::{LexError, Token};
use cr_statement::script::next_statement;
use cr_statement::sql::is_semicolon;
use cr_value::value::Value;
use cr_world::command::Reply;
use cr_world::refusal::{Limit, Refusal};
use std::alloc::Global;

// Whether nothing stands before the first `;`.
fn is_empty(source: &str, tokens: &[Token]) -> bool
    ensures { result ≡ is_empty source.now tokens.now }
{
    match tokens {
        [] => true,
        [first, ..] => is_semicolon(source.as_bytes(), first),
    }
}

// Where the token behind the first begins.
fn second_place(tokens: &[Token]) -> Option<usize>
    ensures { result ≡ second_place tokens.now }
{
    match tokens {
        [_, second, ..] => Some(second.from),
        _ => None,
    }
}

// Carries out the one statement of these tokens, if there is one.
fn single<E: Executor, F: Functions, G: Guarding>(
    alloc: Global,
    executor: &mut E,
    functions: &F,
    guard: &mut G,
    source: &str,
    tokens: &[Token],
    params: &[Value],
) -> Result<Reply, Refusal>
    requires functions { F.is_faithful functions.now }
    requires guard { G.is_faithful guard.old }
    ensures executes { (has : List ℕ → Bool) → ⟦<F as Speaking>⟧.are_names functions.now has
        → Executed (⟦<F as Speaking>⟧.language functions.now has) (⟦<G as Watching>⟧.host guard.old) E.is_honest E.is_clean E.stands executor.old params.now (single_left source.now tokens.now) result executor.new }
    ensures guard { ⟦<G as Watching>⟧.stays guard.old guard.new }
    ensures heard { E.is_clean executor.new → Hears (⟦<G as Watching>⟧.hears guard.old guard.new) (heard_of_piece (single_left source.now tokens.now) (E.stands executor.old) (E.stands executor.new)) result }
{
    if is_empty(source, tokens) {
        return match second_place(tokens) {
            Some(at) => Err(Refusal::Syntax(at)),
            None => Ok(Reply::Done),
        };
    }
    let next = next_statement(alloc, source, tokens);
    match &next {
        Ok(Some((statement, len))) => match second_place(behind(tokens, *len)) {
            Some(at) => Err(Refusal::Syntax(at)),
            None => executor.statement(alloc, functions, guard, statement, params),
        },
        Ok(None) => Ok(Reply::Done),
        Err(error) => Err(of_unread(alloc, *error)),
    }
}

/// Carries out a text that is one statement, with values for its parameters; a text of blanks, comments and one `;` at
/// most is done at once.
///
/// # Errors
/// `Limit` where the text is longer than 1,000,000 bytes, and then no want of memory is told; `Syntax`, `OutOfProfile` or
/// `Limit` where it can't be read, with `Syntax` for what stands behind its `;`; else why the statement is refused,
/// `Parameters` where it has more parameters than there are values, or fewer. Nothing is changed then, but that a COMMIT which
/// is refused as it is carried out, not one that is denied or given values, ends its transaction, unless for want of memory.
pub fn execute<E: Executor, F: Functions, G: Guarding>(
    alloc: Global,
    executor: &mut E,
    functions: &F,
    guard: &mut G,
    source: &str,
    params: &[Value],
) -> Result<Reply, Refusal>
    requires functions { F.is_faithful functions.now }
    requires guard { G.is_faithful guard.old }
    ensures executes { (has : List ℕ → Bool) → ⟦<F as Speaking>⟧.are_names functions.now has
        → Executed (⟦<F as Speaking>⟧.language functions.now has) (⟦<G as Watching>⟧.host guard.old) E.is_honest E.is_clean E.stands executor.old params.now ((⟦<F as Speaking>⟧.language functions.now has).single source.now) result executor.new }
    ensures guard { ⟦<G as Watching>⟧.stays guard.old guard.new }
    ensures heard { (has : List ℕ → Bool) → ⟦<F as Speaking>⟧.are_names functions.now has
        → E.is_clean executor.new → Hears (⟦<G as Watching>⟧.hears guard.old guard.new) (heard_of_piece ((⟦<F as Speaking>⟧.language functions.now has).single source.now) (E.stands executor.old) (E.stands executor.new)) result }
    ensures long { 1000000 < length source.now → result ≡ Err (refusal.Limit limit.Script) }
{
    match tokens(alloc, source) {
        Ok(tokens) => single(alloc, executor, functions, guard, source, &tokens, params),
        Err(LexError::Limit) => Err(Refusal::Limit(Limit::Script)),
        Err(LexError::Memory) => Err(Refusal::Memory),
    }
}
