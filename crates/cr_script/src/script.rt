//! Scripts: their statements in order, up to the first that is refused.

ghost use Rattle.std.specs.Prelude.{◌≡◌, ◌⊎◌, ◌<◌, ◌≤◌, ◌+◌, ℕ, Bool, false, List, [], Some, IfOk, IfSome, drop, length};
ghost use Rattle.std.specs.Vec.{vec_capacity, vec_len};
ghost use Rattle.cr_statement.specs.Sql.{says};
ghost use Rattle.cr_statement.specs.Sql as read;
ghost use Rattle.cr_world.specs.declared.refusal.Refusal.TheVariants.{Memory};
ghost use Rattle.cr_world.specs.declared.refusal.Refusal.TheVariants as refusal;
ghost use Rattle.cr_world.specs.declared.refusal.Limit.TheVariants as limit;
ghost use Rattle.cr_world.specs.Refusals.{has_name};
ghost use Rattle.cr_language.specs.Sql.{of_kind, of_unread};
ghost use Rattle.cr_script.specs.Hearing.{HearsAll, HearsTurn};
ghost use Rattle.cr_script.specs.Scripts.{CarriesAll, Turns, next, pieces_left};

use crate::executor::Executor;
use crate::speaking::{Speaking, Watching};
use cr_guard::guarding::Guarding;
use cr_host::functions::Functions;
use cr_lattice::table::Items;
use cr_lex::scan::tokens;
use cr_lex::token::{LexError, Token};
use cr_statement::error::SqlError;
use cr_statement::script::next_statement;
use cr_tree::limits::LimitKind;
use cr_value::text::Text;
use cr_world::command::{Reply, Script};
use cr_world::refusal::{Limit, OutOfProfile, Refusal};
use std::alloc::{AllocError, Global};

fn of_kind(kind: LimitKind) -> Limit
    ensures { result ≡ of_kind kind }
{
    match kind {
        LimitKind::Depth => Limit::Depth,
        LimitKind::Arguments => Limit::Arguments,
        LimitKind::Tables => Limit::Tables,
    }
}

fn outside(alloc: Global, word: &str) -> Result<Refusal, AllocError>
    ensures { IfOk result (λ r. r ≡ of_unread (read.OutOfProfile word.now)) }
{
    let word = Text::from_str(alloc, word)?;
    Ok(Refusal::OutOfProfile(OutOfProfile::Word(word)))
}

/// How a text that is read no further is told; as want of memory where there is none for the word.
pub(crate) fn of_unread(alloc: Global, error: SqlError) -> Refusal
    ensures told { (result ≡ of_unread (says error)) ⊎ (result ≡ Memory) }
    ensures exact { has_name (of_unread (says error)) ≡ false → result ≡ of_unread (says error) }
{
    match error {
        SqlError::Memory => Refusal::Memory,
        SqlError::Syntax(at) => Refusal::Syntax(at),
        SqlError::OutOfProfile(word) => outside(alloc, word).unwrap_or(Refusal::Memory),
        SqlError::Limit(kind) => Refusal::Limit(of_kind(kind)),
    }
}

/// The tokens behind the first so many.
pub(crate) fn behind(tokens: &[Token], len: usize) -> &[Token]
    requires { len ≤ length tokens.now }
    ensures { result.now ≡ drop len tokens.now }
{
    &tokens[len..]
}

// Carries out the next statement of a script, and tells how many tokens stand up to its end; none where no statement is
// left. There is room for the reply then.
fn turn<E: Executor, F: Functions, G: Guarding>(
    alloc: Global,
    executor: &mut E,
    functions: &F,
    guard: &mut G,
    source: &str,
    tokens: &[Token],
    replies: &mut Vec<Reply>,
) -> Result<Option<(Reply, usize)>, Refusal>
    requires functions { F.is_faithful functions.now }
    requires guard { G.is_faithful guard.old }
    ensures takes { IfOk result (λ o. IfSome o (λ t. (0 < t.1) × (t.1 ≤ length tokens.now))) }
    ensures replies { replies.new.items ≡ replies.old.items }
    ensures room { IfOk result (λ o. IfSome o (λ t. vec_len replies.new + 1 ≤ vec_capacity replies.new)) }
    ensures turns { (has : List ℕ → Bool) → ⟦<F as Speaking>⟧.are_names functions.now has
        → Turns (⟦<F as Speaking>⟧.language functions.now has) (⟦<G as Watching>⟧.host guard.old) E.is_honest E.is_clean E.stands executor.old (next source.now tokens.now) result executor.new }
    ensures guard { ⟦<G as Watching>⟧.stays guard.old guard.new }
    ensures heard { E.is_clean executor.new → HearsTurn (⟦<G as Watching>⟧.hears guard.old guard.new) (E.stands executor.old) (next source.now tokens.now) result (E.stands executor.new) }
{
    let next = next_statement(alloc, source, tokens);
    match &next {
        Ok(None) => Ok(None),
        Ok(Some((statement, len))) => {
            // Memory for the reply first: what a statement did can't be taken back.
            if replies.reserve(1).is_err() {
                return Err(Refusal::Memory);
            }
            match executor.statement(alloc, functions, guard, statement, &[]) {
                Ok(reply) => Ok(Some((reply, *len))),
                Err(refusal) => Err(refusal),
            }
        }
        Err(error) => Err(of_unread(alloc, *error)),
    }
}

// Carries out the statements of these tokens, up to the first that is refused, and tells why it is.
fn turns<E: Executor, F: Functions, G: Guarding>(
    alloc: Global,
    executor: &mut E,
    functions: &F,
    guard: &mut G,
    source: &str,
    tokens: &[Token],
    replies: &mut Vec<Reply>,
) -> Option<Refusal>
    requires functions { F.is_faithful functions.now }
    requires guard { G.is_faithful guard.old }
    requires empty { replies.old.items ≡ [] }
    ensures carries { (has : List ℕ → Bool) → ⟦<F as Speaking>⟧.are_names functions.now has
        → CarriesAll (⟦<F as Speaking>⟧.language functions.now has) (⟦<G as Watching>⟧.host guard.old) E.is_honest E.is_clean E.stands executor.old (pieces_left (length tokens.now) source.now tokens.now) replies.new.items result executor.new }
    ensures guard { ⟦<G as Watching>⟧.stays guard.old guard.new }
    ensures heard { (has : List ℕ → Bool) → ⟦<F as Speaking>⟧.are_names functions.now has → E.is_clean executor.new
        → HearsAll (⟦<F as Speaking>⟧.language functions.now has) (⟦<G as Watching>⟧.host guard.old) (⟦<G as Watching>⟧.hears) guard.old (E.stands executor.old) (pieces_left (length tokens.now) source.now tokens.now) replies.new.items result guard.new }
{
    let mut rest = tokens;
    loop {
        match turn(alloc, executor, functions, guard, source, rest, replies) {
            Ok(None) => return None,
            Ok(Some((reply, len))) => {
                replies.push(reply).unwrap();
                rest = behind(rest, len);
            }
            Err(refusal) => return Some(refusal),
        }
    }
}

/// Runs a script: carries out its statements in order, up to the first that is refused. What was done before it stands.
///
/// # Errors
/// The script's `refusal`, which is none where all its statements are accepted: `Limit` where it is longer than 1,000,000
/// bytes, and then no want of memory is told; `Syntax`, `OutOfProfile` or `Limit` where a statement can't be read; else why a
/// statement is refused. `Memory`, also of a script that has no statement.
pub fn run_script<E: Executor, F: Functions, G: Guarding>(
    alloc: Global,
    executor: &mut E,
    functions: &F,
    guard: &mut G,
    source: &str,
) -> Script
    requires functions { F.is_faithful functions.now }
    requires guard { G.is_faithful guard.old }
    ensures carries { (has : List ℕ → Bool) → ⟦<F as Speaking>⟧.are_names functions.now has
        → CarriesAll (⟦<F as Speaking>⟧.language functions.now has) (⟦<G as Watching>⟧.host guard.old) E.is_honest E.is_clean E.stands executor.old ((⟦<F as Speaking>⟧.language functions.now has).pieces source.now) result.replies result.refusal executor.new }
    ensures guard { ⟦<G as Watching>⟧.stays guard.old guard.new }
    ensures heard { (has : List ℕ → Bool) → ⟦<F as Speaking>⟧.are_names functions.now has → E.is_clean executor.new
        → HearsAll (⟦<F as Speaking>⟧.language functions.now has) (⟦<G as Watching>⟧.host guard.old) (⟦<G as Watching>⟧.hears) guard.old (E.stands executor.old) ((⟦<F as Speaking>⟧.language functions.now has).pieces source.now) result.replies result.refusal guard.new }
    ensures long { 1000000 < length source.now → result.refusal ≡ Some (refusal.Limit limit.Script) }
{
    let mut replies = Vec::new(alloc);
    let refusal = match tokens(alloc, source) {
        Ok(tokens) => turns(
            alloc,
            executor,
            functions,
            guard,
            source,
            &tokens,
            &mut replies,
        ),
        Err(LexError::Limit) => Some(Refusal::Limit(Limit::Script)),
        Err(LexError::Memory) => Some(Refusal::Memory),
    };
    Script {
        replies: Items::new(replies),
        refusal,
    }
}
