//! INSERT, UPDATE, DELETE, CREATE TABLE and ALTER TABLE as SQL text.

ghost use Rattle.std.specs.Prelude.{◌≡◌, [], ◌++◌, map, OnOk};
ghost use Rattle.std.specs.String.{string_bytes};
ghost use Rattle.cr_print.specs.Pieces.{name, in_row};
ghost use Rattle.cr_print.specs.Layout as layout;

use crate::expr::{push_expr, push_exprs};
use crate::pieces::{push_name, push_names, push_value};
use crate::select::push_clause;
use cr_tree::expr::Expr;
use cr_tree::statement::{Alter, Assignment, Column, Constraint, Create, Delete, Insert, Update};
use cr_value::text::Text;
use sqlite_items::Items;
use std::alloc::{AllocError, Global};

fn push_columns(out: &mut String, columns: &Option<Items<Text>>) -> Result<(), AllocError>
    ensures { OnOk result (string_bytes out.new ≡ string_bytes out.old ++ layout.columns columns.now) }
{
    match columns {
        Some(names) => {
            out.push_str(" (")?;
            push_names(out, ", ", names.as_slice())?;
            out.push_str(")")
        }
        None => Ok(()),
    }
}

fn push_row(alloc: Global, out: &mut String, values: &[Expr]) -> Result<(), AllocError>
    ensures { OnOk result (string_bytes out.new ≡ string_bytes out.old ++ layout.row values.now) }
{
    out.push_str("(")?;
    push_exprs(alloc, out, values)?;
    out.push_str(")")
}

#[tactic(auto, using(crate::proofs::Loops::rest_at))]
fn push_rows(
    alloc: Global,
    out: &mut String,
    between: &str,
    rows: &[Items<Expr>],
) -> Result<(), AllocError>
    ensures { OnOk result
        (string_bytes out.new ≡ string_bytes out.old ++ in_row [] between.now (map layout.row rows.now)) }
{
    let mut before = "";
    for row in rows {
        out.push_str(before)?;
        push_row(alloc, out, row.as_slice())?;
        before = between;
    }
    Ok(())
}

// Where the rows of an INSERT go.
fn push_into(out: &mut String, insert: &Insert) -> Result<(), AllocError>
    ensures { OnOk result (string_bytes out.new ≡ string_bytes out.old ++ layout.into insert.now) }
{
    out.push_str("INSERT INTO ")?;
    push_name(out, &insert.table)?;
    push_columns(out, &insert.columns)
}

/// Appends an INSERT.
pub fn push_insert(alloc: Global, out: &mut String, insert: &Insert) -> Result<(), AllocError>
    ensures { OnOk result (string_bytes out.new ≡ string_bytes out.old ++ layout.insert insert.now) }
{
    push_into(out, insert)?;
    out.push_str(" VALUES ")?;
    push_rows(alloc, out, ", ", insert.rows.as_slice())
}

fn push_assignment(alloc: Global, out: &mut String, it: &Assignment) -> Result<(), AllocError>
    ensures { OnOk result (string_bytes out.new ≡ string_bytes out.old ++ layout.assignment it.now) }
{
    push_name(out, &it.column)?;
    out.push_str(" = ")?;
    push_expr(alloc, out, &it.value)
}

#[tactic(auto, using(crate::proofs::Loops::rest_at))]
fn push_assignments(
    alloc: Global,
    out: &mut String,
    between: &str,
    all: &[Assignment],
) -> Result<(), AllocError>
    ensures { OnOk result
        (string_bytes out.new ≡ string_bytes out.old ++ in_row [] between.now (map layout.assignment all.now)) }
{
    let mut before = "";
    for it in all {
        out.push_str(before)?;
        push_assignment(alloc, out, it)?;
        before = between;
    }
    Ok(())
}

/// Appends an UPDATE.
pub fn push_update(alloc: Global, out: &mut String, update: &Update) -> Result<(), AllocError>
    ensures { OnOk result (string_bytes out.new ≡ string_bytes out.old ++ layout.update update.now) }
{
    out.push_str("UPDATE ")?;
    push_name(out, &update.table)?;
    out.push_str(" SET ")?;
    push_assignments(alloc, out, ", ", update.assignments.as_slice())?;
    push_clause(alloc, out, " WHERE ", &update.filter)
}

/// Appends a DELETE.
pub fn push_delete(alloc: Global, out: &mut String, delete: &Delete) -> Result<(), AllocError>
    ensures { OnOk result (string_bytes out.new ≡ string_bytes out.old ++ layout.delete delete.now) }
{
    out.push_str("DELETE FROM ")?;
    push_name(out, &delete.table)?;
    push_clause(alloc, out, " WHERE ", &delete.filter)
}

fn push_constraint(alloc: Global, out: &mut String, it: &Constraint) -> Result<(), AllocError>
    ensures { OnOk result (string_bytes out.new ≡ string_bytes out.old ++ layout.constraint it.now) }
{
    match it {
        Constraint::PrimaryKey => out.push_str(" PRIMARY KEY"),
        Constraint::NotNull => out.push_str(" NOT NULL"),
        Constraint::Default(value) => {
            out.push_str(" DEFAULT ")?;
            push_value(alloc, out, value)
        }
        Constraint::Collate(name) => {
            out.push_str(" COLLATE ")?;
            push_name(out, name)
        }
    }
}

#[tactic(auto, using(crate::proofs::Loops::rest_at))]
fn push_constraints(alloc: Global, out: &mut String, all: &[Constraint]) -> Result<(), AllocError>
    ensures { OnOk result
        (string_bytes out.new ≡ string_bytes out.old ++ in_row [] [] (map layout.constraint all.now)) }
{
    for it in all {
        push_constraint(alloc, out, it)?;
    }
    Ok(())
}

// Each behind a text.
#[tactic(auto, using(crate::proofs::Loops::rest_at))]
fn push_words(out: &mut String, before: &str, words: &[Text]) -> Result<(), AllocError>
    ensures { OnOk result
        (string_bytes out.new ≡ string_bytes out.old ++ in_row before.now before.now (map name words.now)) }
{
    for word in words {
        out.push_str(before)?;
        push_name(out, word)?;
    }
    Ok(())
}

fn push_column(alloc: Global, out: &mut String, column: &Column) -> Result<(), AllocError>
    ensures { OnOk result (string_bytes out.new ≡ string_bytes out.old ++ layout.column column.now) }
{
    push_name(out, &column.name)?;
    push_words(out, " ", column.type_words.as_slice())?;
    push_constraints(alloc, out, column.constraints.as_slice())
}

#[tactic(auto, using(crate::proofs::Loops::rest_at))]
fn push_all_columns(
    alloc: Global,
    out: &mut String,
    between: &str,
    columns: &[Column],
) -> Result<(), AllocError>
    ensures { OnOk result
        (string_bytes out.new ≡ string_bytes out.old ++ in_row [] between.now (map layout.column columns.now)) }
{
    let mut before = "";
    for column in columns {
        out.push_str(before)?;
        push_column(alloc, out, column)?;
        before = between;
    }
    Ok(())
}

fn push_key(out: &mut String, key: &Option<Items<Text>>) -> Result<(), AllocError>
    ensures { OnOk result (string_bytes out.new ≡ string_bytes out.old ++ layout.key key.now) }
{
    match key {
        Some(names) => {
            out.push_str(", PRIMARY KEY (")?;
            push_names(out, ", ", names.as_slice())?;
            out.push_str(")")
        }
        None => Ok(()),
    }
}

fn create_word(if_not_exists: bool) -> &'static str
    ensures { result.now ≡ layout.create_word if_not_exists }
{
    if if_not_exists {
        "CREATE TABLE IF NOT EXISTS "
    } else {
        "CREATE TABLE "
    }
}

/// Appends a CREATE TABLE.
pub fn push_create(alloc: Global, out: &mut String, create: &Create) -> Result<(), AllocError>
    ensures { OnOk result (string_bytes out.new ≡ string_bytes out.old ++ layout.create create.now) }
{
    out.push_str(create_word(create.if_not_exists))?;
    push_name(out, &create.table)?;
    out.push_str(" (")?;
    push_all_columns(alloc, out, ", ", create.columns.as_slice())?;
    push_key(out, &create.key)?;
    out.push_str(")")
}

/// Appends an ALTER TABLE.
pub fn push_alter(alloc: Global, out: &mut String, alter: &Alter) -> Result<(), AllocError>
    ensures { OnOk result (string_bytes out.new ≡ string_bytes out.old ++ layout.alter alter.now) }
{
    out.push_str("ALTER TABLE ")?;
    push_name(out, &alter.table)?;
    out.push_str(" ADD COLUMN ")?;
    push_column(alloc, out, &alter.column)
}
