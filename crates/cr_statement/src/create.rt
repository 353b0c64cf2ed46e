//! CREATE TABLE and ALTER TABLE.

ghost use Rattle.std.specs.Prelude.{◌≡◌, IfOk};
ghost use Rattle.cr_tree.specs.Reading as spec;
ghost use Rattle.cr_parse.specs.Given.{Gives, Tells};
ghost use Rattle.cr_statement.specs.Statements as language;
ghost use Rattle.cr_statement.specs.Reading as reading;
ghost use Rattle.cr_statement.specs.Creating as creating;

use crate::list::many;
use crate::number::{int, negative};
use crate::part::names;
use cr_parse::cursor::Cursor;
use cr_parse::fault::Fault;
use cr_parse::sizes::sizes;
use cr_tree::statement::{Alter, Column, Constraint, Create};
use cr_tree::symbol::{Mark, Symbol};
use cr_value::text::Text;
use cr_value::value::Value;
use sqlite_items::Items;
use std::alloc::{AllocError, Global};

// ---- what stands behind DEFAULT

// The value that a symbol is by itself.
fn plain_of(alloc: Global, symbol: &Symbol) -> Result<Option<Value>, AllocError>
    ensures { IfOk result (λ v. v ≡ language.plain_of symbol.now) }
{
    Ok(match symbol {
        Symbol::Text(text) => Some(Value::Text(text.copy(alloc)?)),
        Symbol::Blob(bytes) => Some(Value::Blob(bytes.copy(alloc)?)),
        Symbol::Mark(Mark::Null) => Some(Value::Null),
        Symbol::Number(n) if *n < 1 << 63 => Some(Value::Int(*n as i64)),
        Symbol::Bits(n) => Some(Value::Int(*n)),
        _ => None,
    })
}

fn plain(alloc: Global, tokens: &mut Cursor<'_>) -> Result<Value, Fault>
    ensures { Gives (λ x. x) (reading.one_of language.plain_of tokens.old) result tokens.new }
{
    let Some(symbol) = tokens.peek() else {
        return Err(Fault::Syntax);
    };
    let Some(value) = plain_of(alloc, symbol)? else {
        return Err(Fault::Syntax);
    };
    tokens.take();
    Ok(value)
}

#[tactic(auto, unfolding(crate::specs::Creating::literal))]
fn literal(alloc: Global, tokens: &mut Cursor<'_>) -> Result<Value, Fault>
    ensures { Gives (λ x. x) (creating.literal tokens.old) result tokens.new }
{
    if tokens.sees(Mark::Minus) {
        tokens.expect(Mark::Minus)?;
        return Ok(Value::Int(negative(tokens)?));
    }
    if tokens.sees(Mark::Plus) {
        tokens.expect(Mark::Plus)?;
        return Ok(Value::Int(int(tokens)?));
    }
    plain(alloc, tokens)
}

// ---- columns

fn primary_key(tokens: &mut Cursor<'_>) -> Result<Constraint, Fault>
    ensures { Tells (λ x. x) (spec.behind Mark.Primary (spec.behind Mark.Key (spec.pure Constraint.PrimaryKey)) tokens.old) result tokens.new }
{
    tokens.expect(Mark::Primary)?;
    tokens.expect(Mark::Key)?;
    Ok(Constraint::PrimaryKey)
}

fn not_null(tokens: &mut Cursor<'_>) -> Result<Constraint, Fault>
    ensures { Tells (λ x. x) (spec.behind Mark.Not (spec.behind Mark.Null (spec.pure Constraint.NotNull)) tokens.old) result tokens.new }
{
    tokens.expect(Mark::Not)?;
    tokens.expect(Mark::Null)?;
    Ok(Constraint::NotNull)
}

fn default(alloc: Global, tokens: &mut Cursor<'_>) -> Result<Constraint, Fault>
    ensures { Gives (λ x. x) (reading.made Constraint.Default (spec.behind Mark.Default creating.literal) tokens.old) result tokens.new }
{
    tokens.expect(Mark::Default)?;
    Ok(Constraint::Default(literal(alloc, tokens)?))
}

fn collate(alloc: Global, tokens: &mut Cursor<'_>) -> Result<Constraint, Fault>
    ensures { Gives (λ x. x) (reading.made Constraint.Collate (spec.behind Mark.Collate spec.name) tokens.old) result tokens.new }
{
    tokens.expect(Mark::Collate)?;
    Ok(Constraint::Collate(tokens.name(alloc)?))
}

#[tactic(auto, unfolding(crate::specs::Creating::constraint))]
fn constraint(alloc: Global, tokens: &mut Cursor<'_>) -> Result<Constraint, Fault>
    ensures { Gives (λ x. x) (creating.constraint tokens.old) result tokens.new }
{
    if tokens.sees(Mark::Primary) {
        return primary_key(tokens);
    }
    if tokens.sees(Mark::Not) {
        return not_null(tokens);
    }
    if tokens.sees(Mark::Default) {
        return default(alloc, tokens);
    }
    collate(alloc, tokens)
}

fn begins_constraint(symbol: &Symbol) -> bool
    ensures { result ≡ creating.begins_constraint symbol.now }
{
    matches!(
        symbol,
        Symbol::Mark(Mark::Primary | Mark::Not | Mark::Default | Mark::Collate)
    )
}

fn next_constraint(alloc: Global, tokens: &mut Cursor<'_>) -> Result<Option<Constraint>, Fault>
    ensures { Gives (λ x. x) (reading.optional creating.begins_constraint creating.constraint tokens.old) result tokens.new }
{
    let Some(symbol) = tokens.peek() else {
        return Ok(None);
    };
    if !begins_constraint(symbol) {
        return Ok(None);
    }
    Ok(Some(constraint(alloc, tokens)?))
}

#[tactic(auto, unfolding(crate::specs::Creating::constraints))]
fn constraints(alloc: Global, tokens: &mut Cursor<'_>) -> Result<Items<Constraint>, Fault>
    ensures { Gives (λ x. x) (creating.constraints tokens.old) result tokens.new }
{
    many(alloc, tokens, Items::new(alloc), next_constraint)
}

fn next_name(alloc: Global, tokens: &mut Cursor<'_>) -> Result<Option<Text>, Fault>
    ensures { Gives (λ x. x) (reading.optional spec.is_name spec.name tokens.old) result tokens.new }
{
    if !tokens.sees_name() {
        return Ok(None);
    }
    Ok(Some(tokens.name(alloc)?))
}

#[tactic(auto, unfolding(crate::specs::Creating::type_words))]
fn type_words(alloc: Global, tokens: &mut Cursor<'_>) -> Result<Items<Text>, Fault>
    ensures { Gives (λ x. x) (creating.type_words tokens.old) result tokens.new }
{
    many(alloc, tokens, Items::new(alloc), next_name)
}

#[tactic(auto, unfolding(crate::specs::Creating::column))]
fn column(alloc: Global, tokens: &mut Cursor<'_>) -> Result<Column, Fault>
    ensures { Gives (λ x. x) (creating.column tokens.old) result tokens.new }
{
    let name = tokens.name(alloc)?;
    let type_words = type_words(alloc, tokens)?;
    sizes(tokens)?;
    let constraints = constraints(alloc, tokens)?;
    Ok(Column {
        name,
        type_words,
        constraints,
    })
}

// ---- their list, and the key behind it

fn sees_column(tokens: &Cursor<'_>) -> bool
    ensures { result ≡ creating.sees_column tokens.now }
{
    tokens.sees(Mark::Comma) && tokens.after_next().sees_name()
}

#[tactic(auto, unfolding(crate::specs::Creating::next_column))]
fn next_column(alloc: Global, tokens: &mut Cursor<'_>) -> Result<Option<Column>, Fault>
    ensures { Gives (λ x. x) (creating.next_column tokens.old) result tokens.new }
{
    if !sees_column(tokens) {
        return Ok(None);
    }
    tokens.expect(Mark::Comma)?;
    Ok(Some(column(alloc, tokens)?))
}

#[tactic(auto, unfolding(crate::specs::Creating::columns))]
fn columns(alloc: Global, tokens: &mut Cursor<'_>) -> Result<Items<Column>, Fault>
    ensures { Gives (λ x. x) (creating.columns tokens.old) result tokens.new }
{
    let mut all = Items::new(alloc);
    all.push(column(alloc, tokens)?)?;
    many(alloc, tokens, all, next_column)
}

// A comma, PRIMARY KEY and names, if the comma is there.
#[tactic(auto, unfolding(crate::specs::Creating::key))]
fn key(alloc: Global, tokens: &mut Cursor<'_>) -> Result<Option<Items<Text>>, Fault>
    ensures { Gives (λ x. x) (creating.key tokens.old) result tokens.new }
{
    if !tokens.sees(Mark::Comma) {
        return Ok(None);
    }
    tokens.expect(Mark::Comma)?;
    tokens.expect(Mark::Primary)?;
    tokens.expect(Mark::Key)?;
    Ok(Some(names(alloc, tokens)?))
}

#[tactic(auto, unfolding(crate::specs::Creating::body))]
fn body(
    alloc: Global,
    tokens: &mut Cursor<'_>,
) -> Result<(Items<Column>, Option<Items<Text>>), Fault>
    ensures { Gives (λ x. x) (creating.body tokens.old) result tokens.new }
{
    tokens.expect(Mark::Open)?;
    let columns = columns(alloc, tokens)?;
    let key = key(alloc, tokens)?;
    tokens.expect(Mark::Close)?;
    Ok((columns, key))
}

// Whether IF NOT EXISTS stands there.
#[tactic(auto, unfolding(crate::specs::Creating::if_not_exists))]
fn if_not_exists(tokens: &mut Cursor<'_>) -> Result<bool, Fault>
    ensures { Tells (λ x. x) (creating.if_not_exists tokens.old) result tokens.new }
{
    if !tokens.sees(Mark::If) {
        return Ok(false);
    }
    tokens.expect(Mark::If)?;
    tokens.expect(Mark::Not)?;
    tokens.expect(Mark::Exists)?;
    Ok(true)
}

#[tactic(auto, unfolding(crate::specs::Creating::create))]
pub fn create(alloc: Global, tokens: &mut Cursor<'_>) -> Result<Create, Fault>
    ensures { Gives (λ x. x) (creating.create tokens.old) result tokens.new }
{
    tokens.expect(Mark::Create)?;
    tokens.expect(Mark::Table)?;
    let if_not_exists = if_not_exists(tokens)?;
    let table = tokens.name(alloc)?;
    let (columns, key) = body(alloc, tokens)?;
    Ok(Create {
        if_not_exists,
        table,
        columns,
        key,
    })
}

#[tactic(auto, unfolding(crate::specs::Creating::alter))]
pub fn alter(alloc: Global, tokens: &mut Cursor<'_>) -> Result<Alter, Fault>
    ensures { Gives (λ x. x) (creating.alter tokens.old) result tokens.new }
{
    tokens.expect(Mark::Alter)?;
    tokens.expect(Mark::Table)?;
    let table = tokens.name(alloc)?;
    tokens.expect(Mark::Add)?;
    tokens.eat(Mark::Column);
    let column = column(alloc, tokens)?;
    Ok(Alter { table, column })
}
