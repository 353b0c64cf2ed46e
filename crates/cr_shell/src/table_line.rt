//! The definition of a table in a line.

ghost use Rattle.std.specs.Prelude.{◌≡◌, ◌≤◌, drop, map, length, IfOk, IfSome};
ghost use Rattle.std.specs.List.{list_any};
ghost use Rattle.std.specs.Option.{option_map};
ghost use Rattle.cr_world.specs.Answers.{IsReady};
ghost use Rattle.cr_shell.specs.TableLine.{mark_at, marks_at, word_len, word_at, default_at, place_in_key, column_of, column_at, columns_in, declaration_of, table_of};

use crate::words::{behind_from, is_at_end, literal_from, split_at_space};
use cr_lattice::table::{ColumnDef, Items, TableDef};
use cr_value::affinity::Affinity;
use cr_value::text::Text;
use cr_value::value::Value;
use cr_world::command::{Command, Declaration};
use std::alloc::{AllocError, Global};

// What stands before the name of a column.
#[derive(Clone, Copy, Debug, PartialEq, Eq)]
struct Marks {
    in_key: bool,
    not_null: bool,
}

// A column as a line has it: where its type is REAL, the affinity in its definition stands for none.
#[derive(Debug, Drop)]
struct Column {
    definition: ColumnDef,
    is_real: bool,
}

fn mark_from(text: &str, at: usize, byte: u8) -> (bool, usize)
    ensures { (result.0, drop result.1 text.now) ≡ mark_at byte (drop at text.now) }
{
    match behind_from(text, at, byte) {
        Some(end) => (true, end),
        None => (false, at),
    }
}

fn marks_from(text: &str, at: usize) -> (Marks, usize)
    ensures { (result.0, drop result.1 text.now) ≡ marks_at (drop at text.now) }
{
    let (in_key, at) = mark_from(text, at, b'*');
    let (not_null, at) = mark_from(text, at, b'!');
    if in_key {
        return (Marks { in_key, not_null }, at);
    }
    let (in_key, at) = mark_from(text, at, b'*');
    (Marks { in_key, not_null }, at)
}

fn word_len(bytes: &[u8], stop: u8) -> usize
    ensures value { result ≡ word_len stop bytes.now }
    ensures within { result ≤ length bytes.now }
{
    for (at, c) in bytes.iter().enumerate() {
        if *c == b' ' || *c == stop {
            return at;
        }
    }
    bytes.len()
}

// The word that bytes begin with, and how many it takes.
#[tactic(auto, using(cr_value::proofs::Texts::utf8_tests), unfolding(crate::specs::TableLine::word_at))]
fn first_word(bytes: &[u8], stop: u8) -> Option<(&str, usize)>
    ensures value { option_map (λ x. (x.0.now, drop x.1 bytes.now)) result ≡ word_at stop bytes.now }
    ensures within { IfSome result (λ x. x.1 ≤ length bytes.now) }
{
    let len = word_len(bytes, stop);
    let Ok(word) = str::from_utf8(&bytes[..len]) else {
        return None;
    };
    Some((word, len))
}

fn word_from(text: &str, at: usize, stop: u8) -> Option<(&str, usize)>
    ensures { option_map (λ x. (x.0.now, drop x.1 text.now)) result ≡ word_at stop (drop at text.now) }
{
    let bytes = text.as_bytes();
    if at >= bytes.len() {
        return Some(("", at));
    }
    let Some((word, len)) = first_word(&bytes[at..], stop) else {
        return None;
    };
    Some((word, at + len))
}

fn default_from(alloc: Global, text: &str, at: usize) -> Result<Option<(Value, usize)>, AllocError>
    ensures { IfOk result (λ found. option_map (λ x. (x.0, drop x.1 text.now)) found ≡ default_at (drop at text.now)) }
{
    match behind_from(text, at, b'=') {
        Some(at) => literal_from(alloc, text, at),
        None => Ok(Some((Value::Null, at))),
    }
}

fn place_in_key(keys: u8, in_key: bool) -> Option<u8>
    ensures { result ≡ place_in_key keys in_key }
{
    if in_key { keys.checked_add(1) } else { None }
}

#[tactic(auto, unfolding(crate::specs::TableLine::column_of))]
fn column_of(
    alloc: Global,
    keys: u8,
    marks: Marks,
    name: &str,
    type_name: &str,
    default: Value,
) -> Result<Column, AllocError>
    ensures { IfOk result (λ column. column ≡ column_of keys marks name.now type_name.now default) }
{
    let affinity = Affinity::of_type(type_name);
    let name = Text::folded(alloc, name)?;
    Ok(Column {
        definition: ColumnDef {
            name,
            affinity: affinity.unwrap_or(Affinity::Blob),
            collation: Text::from_str(alloc, "binary")?,
            not_null: marks.not_null,
            key: place_in_key(keys, marks.in_key),
            default,
        },
        is_real: affinity.is_none(),
    })
}

// The column that begins at a place, and where it ends.
#[tactic(auto, unfolding(crate::specs::TableLine::column_at))]
fn column_from(
    alloc: Global,
    keys: u8,
    text: &str,
    at: usize,
) -> Result<Option<(Column, usize)>, AllocError>
    ensures { IfOk result (λ found. option_map (λ x. (x.0, drop x.1 text.now)) found ≡ column_at keys (drop at text.now)) }
{
    let (marks, at) = marks_from(text, at);
    let Some((name, at)) = word_from(text, at, b':') else {
        return Ok(None);
    };
    let Some(at) = behind_from(text, at, b':') else {
        return Ok(None);
    };
    let Some((type_name, at)) = word_from(text, at, b'=') else {
        return Ok(None);
    };
    let Some((default, at)) = default_from(alloc, text, at)? else {
        return Ok(None);
    };
    Ok(Some((column_of(alloc, keys, marks, name, type_name, default)?, at)))
}

fn columns_in(alloc: Global, text: &str) -> Result<Option<Vec<Column>>, AllocError>
    ensures { IfOk result (λ columns. option_map (λ v. v.items) columns ≡ columns_in (length text.now) 0 text.now) }
{
    let mut columns = Vec::new(alloc);
    let mut keys: u8 = 0;
    let mut at = 0;
    for _ in 0..text.len() {
        let Some((column, end)) = column_from(alloc, keys, text, at)? else {
            return Ok(None);
        };
        keys = column.definition.key.unwrap_or(keys);
        columns.push(column)?;
        if is_at_end(text, end) {
            return Ok(Some(columns));
        }
        let Some(next) = behind_from(text, end, b' ') else {
            return Ok(None);
        };
        at = next;
    }
    Ok(None)
}

fn definitions_of(alloc: Global, columns: Vec<Column>) -> Result<Items<ColumnDef>, AllocError>
    ensures { IfOk result (λ definitions. definitions ≡ map (λ c. c.definition) columns.items) }
{
    let definitions = columns
        .into_iter()
        .map(|column| column.definition)
        .collect(alloc)?;
    Ok(Items::new(definitions))
}

fn has_real(columns: &[Column]) -> bool
    ensures { result ≡ list_any (λ c. c.is_real) columns.now }
{
    columns.iter().any(|column| column.is_real)
}

fn declaration_of(
    alloc: Global,
    name: &str,
    columns: Vec<Column>,
) -> Result<Declaration, AllocError>
    ensures { IfOk result (λ declaration. declaration ≡ declaration_of name.now columns.items) }
{
    if has_real(&columns) {
        return Ok(Declaration::Real);
    }
    Ok(Declaration::Table(TableDef {
        name: Text::folded(alloc, name)?,
        columns: definitions_of(alloc, columns)?,
    }))
}

/// The command that defines the table of a line, `NAME COL COL ..`.
#[tactic(auto, unfolding(crate::specs::TableLine::table_of))]
pub(crate) fn table_of(alloc: Global, text: &str) -> Result<Option<Command>, AllocError>
    ensures value { IfOk result (λ command. command ≡ table_of text.now) }
    ensures ready { IfOk result (λ command. IfSome command IsReady) }
{
    let Some((name, columns)) = split_at_space(text) else {
        return Ok(None);
    };
    let Some(columns) = columns_in(alloc, columns)? else {
        return Ok(None);
    };
    Ok(Some(Command::Define(declaration_of(alloc, name, columns)?)))
}
