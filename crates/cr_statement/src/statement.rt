//! Whole statements.

ghost use Rattle.std.specs.Prelude.{◌≡◌, ◌≢◌, ℕ, IfOk};
ghost use Rattle.cr_tree.specs.declared.limits.LimitKind.{LimitKind};
ghost use Rattle.cr_tree.specs.declared.limits.TheConstants.{LIMITS};
ghost use Rattle.cr_tree.specs.Reading as spec;
ghost use Rattle.cr_tree.specs.Judging.{IsRead, IsBadPlace, MeetsLimit};
ghost use Rattle.cr_parse.specs.Given.{Gives, Tells};
ghost use Rattle.cr_parse.specs.Judge.{judge};
ghost use Rattle.cr_statement.specs.Statements as language;
ghost use Rattle.cr_statement.specs.Reading as reading;
ghost use Rattle.cr_statement.specs.Whole as whole;
ghost use Rattle.cr_tree.specs.declared.statement.Statement as trees;

use crate::create::{alter, create};
use crate::query::select;
use crate::write::{delete, insert, update};
use cr_parse::cursor::Cursor;
use cr_parse::error::{ParseError, refusal};
use cr_parse::fault::Fault;
use cr_tree::statement::{Mode, Statement};
use cr_tree::symbol::{Mark, Symbol};
use std::alloc::Global;

fn mode_of(symbol: &Symbol) -> Option<Mode>
    ensures { result ≡ language.mode_of symbol.now }
{
    let Symbol::Mark(mark) = symbol else {
        return None;
    };
    match mark {
        Mark::Deferred => Some(Mode::Deferred),
        Mark::Immediate => Some(Mode::Immediate),
        Mark::Exclusive => Some(Mode::Exclusive),
        _ => None,
    }
}

// What stands behind BEGIN, if it is there.
#[tactic(auto, unfolding(crate::specs::Reading::mode))]
fn mode(tokens: &mut Cursor<'_>) -> Option<Mode>
    ensures { reading.mode tokens.old ≡ spec.Reads result tokens.new }
{
    let mode = mode_of(tokens.peek()?)?;
    tokens.take();
    Some(mode)
}

#[tactic(auto, unfolding(crate::specs::Reading::begin))]
fn begin(tokens: &mut Cursor<'_>) -> Result<Statement, Fault>
    ensures { Tells (λ x. x) (reading.begin tokens.old) result tokens.new }
{
    tokens.expect(Mark::Begin)?;
    let mode = mode(tokens);
    tokens.eat(Mark::Transaction);
    Ok(Statement::Begin(mode))
}

// A word, and perhaps TRANSACTION.
#[tactic(auto, unfolding(crate::specs::Reading::ended))]
fn ended<T: Drop>(tokens: &mut Cursor<'_>, mark: Mark, statement: T) -> Result<T, Fault>
    ensures { Tells (λ x. x) (reading.ended mark statement tokens.old) result tokens.new }
{
    tokens.expect(mark)?;
    tokens.eat(Mark::Transaction);
    Ok(statement)
}

#[tactic(auto, unfolding(crate::specs::Reading::transaction))]
fn transaction(tokens: &mut Cursor<'_>) -> Result<Statement, Fault>
    ensures { Tells (λ x. x) (reading.transaction tokens.old) result tokens.new }
{
    if tokens.sees(Mark::Begin) {
        return begin(tokens);
    }
    if tokens.sees(Mark::Commit) {
        return ended(tokens, Mark::Commit, Statement::Commit);
    }
    if tokens.sees(Mark::End) {
        return ended(tokens, Mark::End, Statement::Commit);
    }
    ended(tokens, Mark::Rollback, Statement::Rollback)
}

// A statement that shows nothing.
#[tactic(auto, unfolding(crate::specs::Reading::command))]
fn command(alloc: Global, tokens: &mut Cursor<'_>) -> Result<Statement, Fault>
    ensures { Gives (λ x. x) (reading.command LIMITS tokens.old) result tokens.new }
{
    if tokens.sees(Mark::Insert) {
        return Ok(Statement::Insert(insert(alloc, tokens)?));
    }
    if tokens.sees(Mark::Update) {
        return Ok(Statement::Update(update(alloc, tokens)?));
    }
    if tokens.sees(Mark::Delete) {
        return Ok(Statement::Delete(delete(alloc, tokens)?));
    }
    transaction(tokens)
}

#[tactic(auto, unfolding(crate::specs::Whole::statement))]
fn any(alloc: Global, tokens: &mut Cursor<'_>) -> Result<Statement, Fault>
    ensures { Gives (λ x. x) (whole.statement LIMITS tokens.old) result tokens.new }
{
    if tokens.sees(Mark::Select) {
        return Ok(Statement::Select(select(alloc, tokens)?));
    }
    if tokens.sees(Mark::Create) {
        return Ok(Statement::Create(create(alloc, tokens)?));
    }
    if tokens.sees(Mark::Alter) {
        return Ok(Statement::Alter(alter(alloc, tokens)?));
    }
    command(alloc, tokens)
}

// What the executable reading judges.
#[tactic(auto, using(cr_parse::proofs::Refusals::told))]
fn read(alloc: Global, symbols: &[Symbol]) -> Result<Statement, ParseError>
    ensures { result ≢ Err ParseError.Memory → result ≡ judge symbols.now (whole.statement LIMITS symbols.now) }
{
    let mut cursor = Cursor::new(symbols);
    let outcome = any(alloc, &mut cursor);
    let place = symbols.len().saturating_sub(cursor.len());
    let tree = outcome.map_err(|fault| refusal(fault, place));
    if cursor.len() == 0 {
        tree
    } else {
        tree.and(Err(ParseError::Syntax(place)))
    }
}

/// The tree of the statement that the symbols are, all of them, with no semicolon: SELECT, CREATE TABLE, ALTER
/// TABLE, INSERT, UPDATE, DELETE, BEGIN, COMMIT, END or ROLLBACK. The grammar is a part of SQLite's "SQL As Understood By
/// SQLite". Takes time in proportion to the number of symbols.
///
/// # Errors
/// `Syntax` with the number of symbols before the first with which no statement goes on, or with their number where
/// more are wanted; `Limit` with its kind where the depth of an expression would pass 100, its open parentheses 200, the
/// arguments of a call 100 or the tables of a FROM 16, if that is met first from the left; `Memory`.
pub fn statement(alloc: Global, symbols: &[Symbol]) -> Result<Statement, ParseError>
    // What is read is a statement with this tree.
    ensures read { IfOk result (λ x. IsRead language.statement symbols.now x) }
    // Each statement within the limits is read, unless memory runs out.
    ensures only { (x : trees.Statement) → IsRead language.statement symbols.now x → result ≢ Err ParseError.Memory → result ≡ Ok x }
    ensures syntax { (n : ℕ) → result ≡ Err (ParseError.Syntax n) → IsBadPlace language.statement symbols.now n }
    ensures limit { (which : LimitKind) → result ≡ Err (ParseError.Limit which) → MeetsLimit which language.statement symbols.now }
{
    read(alloc, symbols)
}
