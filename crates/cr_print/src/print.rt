//! A statement as SQL text.

ghost use Rattle.std.specs.Prelude.{◌≡◌, ◌++◌, OnOk, IfOk};
ghost use Rattle.std.specs.String.{string_bytes};
ghost use Rattle.cr_print.specs.Layout as layout;

use crate::select::push_select;
use crate::write::{push_alter, push_create, push_delete, push_insert, push_update};
use cr_tree::statement::{Mode, Statement};
use std::alloc::{AllocError, Global};

fn begin(mode: Option<Mode>) -> &'static str
    ensures { result.now ≡ layout.begin mode }
{
    match mode {
        None => "BEGIN",
        Some(Mode::Deferred) => "BEGIN DEFERRED",
        Some(Mode::Immediate) => "BEGIN IMMEDIATE",
        Some(Mode::Exclusive) => "BEGIN EXCLUSIVE",
    }
}

fn push_statement(alloc: Global, out: &mut String, statement: &Statement) -> Result<(), AllocError>
    ensures { OnOk result (string_bytes out.new ≡ string_bytes out.old ++ layout.statement statement.now) }
{
    match statement {
        Statement::Select(query) => push_select(alloc, out, query),
        Statement::Insert(insert) => push_insert(alloc, out, insert),
        Statement::Update(update) => push_update(alloc, out, update),
        Statement::Delete(delete) => push_delete(alloc, out, delete),
        Statement::Create(create) => push_create(alloc, out, create),
        Statement::Alter(alter) => push_alter(alloc, out, alter),
        Statement::Begin(mode) => out.push_str(begin(*mode)),
        Statement::Commit => out.push_str("COMMIT"),
        Statement::Rollback => out.push_str("ROLLBACK"),
    }
}

/// The statement as SQL text: keywords in upper case, each name in double quotes, and parentheses around each node of an
/// expression that isn't a leaf, a call, CAST or CASE, and around an integer behind a sign. Of a statement that was read
/// from SQL it reads as the same tree. It fails where memory runs out. SQLite's "SQL As Understood By SQLite"; which of its spellings is written is this project's own.
pub fn print(alloc: Global, statement: &Statement) -> Result<String, AllocError>
    ensures { IfOk result (λ text. string_bytes text ≡ layout.statement statement.now) }
{
    let mut out = String::new(alloc);
    push_statement(alloc, &mut out, statement)?;
    Ok(out)
}
