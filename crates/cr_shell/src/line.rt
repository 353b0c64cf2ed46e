//! What a line asks of a fleet.

ghost use Rattle.std.specs.Prelude.{◌≡◌, drop, IfOk, IfSome};
ghost use Rattle.cr_world.specs.Answers.{IsReady};
ghost use Rattle.std.specs.Option.{option_map};
ghost use Rattle.hex.specs.Hex.{decode_sized};
ghost use Rattle.cr_world.specs.declared.command.Command.TheVariants.{Use, Rows, Changes, Pull, PullSince, Take};
ghost use Rattle.cr_host.specs.Names.{folded};
ghost use Rattle.cr_shell.specs.Lines.{barred, integer_behind_bar, cell_of, content_of, origin_of, row_of, site_in, open_of, word_of, integer_of, most_of, rule_of, veto_of, command_in, command_of};

use crate::table_line::table_of;
use crate::words::{behind_from, has_space, is_at_end, literal_from, split_at_space};
use cr_guard::action::Auth;
use cr_guard::policy::{PolicyRule, ReadRule};
use cr_lattice::change::Site;
use cr_replica::change_row::ChangeRow;
use cr_value::text::Text;
use cr_value::value::Value;
use cr_world::command::Command;
use hex::FromHex;
use std::alloc::{AllocError, Global};

fn barred_from(alloc: Global, text: &str, at: usize) -> Result<Option<(Value, usize)>, AllocError>
    ensures { IfOk result (λ found. option_map (λ x. (x.0, drop x.1 text.now)) found ≡ barred (drop at text.now)) }
{
    match behind_from(text, at, b'|') {
        Some(at) => literal_from(alloc, text, at),
        None => Ok(None),
    }
}

// Where the integer behind a bar ends.
fn integer_from(alloc: Global, text: &str, at: usize) -> Result<Option<usize>, AllocError>
    ensures { IfOk result (λ found. option_map (λ end. drop end text.now) found ≡ integer_behind_bar (barred (drop at text.now))) }
{
    match barred_from(alloc, text, at)? {
        Some((Value::Int(_), end)) => Ok(Some(end)),
        _ => Ok(None),
    }
}

// The cell that a change is of, and where what stands behind it begins.
#[tactic(auto, unfolding(crate::specs::Lines::cell_of))]
fn cell_from(
    alloc: Global,
    text: &str,
) -> Result<Option<((Value, Value, Value), usize)>, AllocError>
    ensures { IfOk result (λ found. option_map (λ x. (x.0, drop x.1 text.now)) found ≡ cell_of text.now) }
{
    let Some((table, at)) = literal_from(alloc, text, 0)? else {
        return Ok(None);
    };
    let Some((pk, at)) = barred_from(alloc, text, at)? else {
        return Ok(None);
    };
    let Some((cid, at)) = barred_from(alloc, text, at)? else {
        return Ok(None);
    };
    Ok(Some(((table, pk, cid), at)))
}

#[tactic(auto, unfolding(crate::specs::Lines::content_of))]
fn content_from(
    alloc: Global,
    text: &str,
    at: usize,
) -> Result<Option<((Value, Value), usize)>, AllocError>
    ensures { IfOk result (λ found. option_map (λ x. (x.0, drop x.1 text.now)) found ≡ content_of (drop at text.now)) }
{
    let Some((val, at)) = barred_from(alloc, text, at)? else {
        return Ok(None);
    };
    let Some((col_version, at)) = barred_from(alloc, text, at)? else {
        return Ok(None);
    };
    let Some(at) = integer_from(alloc, text, at)? else {
        return Ok(None);
    };
    Ok(Some(((val, col_version), at)))
}

#[tactic(auto, unfolding(crate::specs::Lines::origin_of))]
fn origin_from(alloc: Global, text: &str, at: usize) -> Result<Option<(Value, Value)>, AllocError>
    ensures { IfOk result (λ origin. origin ≡ origin_of (drop at text.now)) }
{
    let Some((site_id, at)) = barred_from(alloc, text, at)? else {
        return Ok(None);
    };
    let Some((cl, at)) = barred_from(alloc, text, at)? else {
        return Ok(None);
    };
    let Some(end) = integer_from(alloc, text, at)? else {
        return Ok(None);
    };
    if !is_at_end(text, end) {
        return Ok(None);
    }
    Ok(Some((site_id, cl)))
}

#[tactic(auto, unfolding(crate::specs::Lines::row_of))]
fn row_of(alloc: Global, text: &str) -> Result<Option<ChangeRow>, AllocError>
    ensures { IfOk result (λ row. row ≡ row_of text.now) }
{
    let Some(((table, pk, cid), at)) = cell_from(alloc, text)? else {
        return Ok(None);
    };
    let Some(((val, col_version), at)) = content_from(alloc, text, at)? else {
        return Ok(None);
    };
    let Some((site_id, cl)) = origin_from(alloc, text, at)? else {
        return Ok(None);
    };
    Ok(Some(ChangeRow {
        table,
        pk,
        cid,
        val,
        col_version,
        site_id,
        cl,
    }))
}

fn site_of(digits: &str) -> Option<Site>
    ensures { result ≡ site_in (decode_sized digits.now 16) }
{
    Site::from_hex(digits).ok()
}

#[tactic(auto, unfolding(crate::specs::Lines::open_of))]
fn open_of(alloc: Global, text: &str) -> Result<Option<Command>, AllocError>
    ensures value { IfOk result (λ command. command ≡ open_of text.now) }
    ensures ready { IfOk result (λ command. IfSome command IsReady) }
{
    let Some((name, digits)) = split_at_space(text) else {
        return Ok(None);
    };
    let Some(site) = site_of(digits) else {
        return Ok(None);
    };
    Ok(Some(Command::Open(Text::from_str(alloc, name)?, site)))
}

fn word_of(alloc: Global, text: &str) -> Result<Option<Text>, AllocError>
    ensures { IfOk result (λ word. word ≡ word_of text.now) }
{
    if has_space(text) {
        return Ok(None);
    }
    Ok(Some(Text::from_str(alloc, text)?))
}

fn use_of(alloc: Global, text: &str) -> Result<Option<Command>, AllocError>
    ensures value { IfOk result (λ command. command ≡ option_map Use (word_of text.now)) }
    ensures ready { IfOk result (λ command. IfSome command IsReady) }
{
    Ok(word_of(alloc, text)?.map(Command::Use))
}

fn rows_of(alloc: Global, text: &str) -> Result<Option<Command>, AllocError>
    ensures value { IfOk result (λ command. command ≡ option_map (λ name. Rows (folded name)) (word_of text.now)) }
    ensures ready { IfOk result (λ command. IfSome command IsReady) }
{
    let Some(name) = word_of(alloc, text)? else {
        return Ok(None);
    };
    Ok(Some(Command::Rows(Text::folded(alloc, name.as_str())?)))
}

fn pull_of(alloc: Global, text: &str) -> Result<Option<Command>, AllocError>
    ensures value { IfOk result (λ command. command ≡ option_map Pull (word_of text.now)) }
    ensures ready { IfOk result (λ command. IfSome command IsReady) }
{
    Ok(word_of(alloc, text)?.map(Command::Pull))
}

fn pull_since_of(alloc: Global, text: &str) -> Result<Option<Command>, AllocError>
    ensures value { IfOk result (λ command. command ≡ option_map PullSince (word_of text.now)) }
    ensures ready { IfOk result (λ command. IfSome command IsReady) }
{
    Ok(word_of(alloc, text)?.map(Command::PullSince))
}

#[tactic(auto, unfolding(crate::specs::Lines::integer_of))]
fn integer_of(alloc: Global, text: &str) -> Result<Option<i64>, AllocError>
    ensures { IfOk result (λ number. number ≡ integer_of text.now) }
{
    let Some((Value::Int(number), end)) = literal_from(alloc, text, 0)? else {
        return Ok(None);
    };
    if !is_at_end(text, end) {
        return Ok(None);
    }
    Ok(Some(number))
}

fn changes_of(alloc: Global, text: &str) -> Result<Option<Command>, AllocError>
    ensures value { IfOk result (λ command. command ≡ option_map Changes (integer_of text.now)) }
    ensures ready { IfOk result (λ command. IfSome command IsReady) }
{
    Ok(integer_of(alloc, text)?.map(Command::Changes))
}

// The rule of a policy that a table and a column are.
#[tactic(auto, unfolding(crate::specs::Lines::rule_of))]
fn rule_of(alloc: Global, text: &str, answer: Auth) -> Result<Option<Command>, AllocError>
    ensures value { IfOk result (λ command. command ≡ rule_of answer text.now) }
    ensures ready { IfOk result (λ command. IfSome command IsReady) }
{
    let Some((table, column)) = split_at_space(text) else {
        return Ok(None);
    };
    if has_space(column) {
        return Ok(None);
    }
    let table = Text::folded(alloc, table)?;
    let column = Text::folded(alloc, column)?;
    Ok(Some(Command::Policy(PolicyRule::Read(ReadRule {
        table,
        column,
        answer,
    }))))
}

fn most_of(number: i64) -> Option<u64>
    ensures { result ≡ most_of number }
{
    if number < 0 {
        return None;
    }
    Some(number as u64)
}

// How many changes a commit may have.
#[tactic(auto, unfolding(crate::specs::Lines::veto_of))]
fn veto_of(alloc: Global, text: &str) -> Result<Option<Command>, AllocError>
    ensures value { IfOk result (λ command. command ≡ veto_of text.now) }
    ensures ready { IfOk result (λ command. IfSome command IsReady) }
{
    if text == "off" {
        return Ok(Some(Command::Policy(PolicyRule::MaxChanges(None))));
    }
    let Some(number) = integer_of(alloc, text)? else {
        return Ok(None);
    };
    let Some(most) = most_of(number) else {
        return Ok(None);
    };
    Ok(Some(Command::Policy(PolicyRule::MaxChanges(Some(most)))))
}

fn take_of(alloc: Global, text: &str) -> Result<Option<Command>, AllocError>
    ensures value { IfOk result (λ command. command ≡ option_map Take (row_of text.now)) }
    ensures ready { IfOk result (λ command. IfSome command IsReady) }
{
    Ok(row_of(alloc, text)?.map(Command::Take))
}

#[tactic(auto, unfolding(crate::specs::Lines::command_in))]
fn command_in(alloc: Global, word: &str, text: &str) -> Result<Option<Command>, AllocError>
    ensures value { IfOk result (λ command. command ≡ command_in word.now text.now) }
    ensures ready { IfOk result (λ command. IfSome command IsReady) }
{
    match word {
        ".open" => open_of(alloc, text),
        ".use" => use_of(alloc, text),
        ".table" => table_of(alloc, text),
        ".take" => take_of(alloc, text),
        ".rows" => rows_of(alloc, text),
        ".changes" => changes_of(alloc, text),
        ".pull" => pull_of(alloc, text),
        ".pullnew" => pull_since_of(alloc, text),
        ".deny" => rule_of(alloc, text, Auth::Deny),
        ".ignore" => rule_of(alloc, text, Auth::Ignore),
        ".allow" => rule_of(alloc, text, Auth::Ok),
        ".veto" => veto_of(alloc, text),
        _ => Ok(None),
    }
}

/// The command that a line is, if it is one.
///
/// # Errors
/// Where there is no memory for it.
#[tactic(auto, unfolding(crate::specs::Lines::command_of))]
pub fn command_of(alloc: Global, line: &str) -> Result<Option<Command>, AllocError>
    ensures value { IfOk result (λ command. command ≡ command_of line.now) }
    ensures ready { IfOk result (λ command. IfSome command IsReady) }
{
    let Some((word, text)) = split_at_space(line) else {
        return Ok(None);
    };
    command_in(alloc, word, text)
}
