//! Replies as bytes, in pieces that take no memory.

ghost use Rattle.std.specs.Prelude.{◌∷◌, [], List};
ghost use Rattle.std.specs.List.{flat_map};
ghost use Rattle.cr_value.specs.declared.value.Value.TheVariants.{Int, Text, Blob};
ghost use Rattle.cr_value.specs.Literal.{blob_literal, text_literal, literal};
ghost use Rattle.cr_shell.specs.Printing.{Prints, behind_bars, row_line, change_line, reply_lines, script_lines, printed, answer_printed};

use crate::helping::print_help;
use crate::literals::{print_blob, print_text, print_value};
use crate::refusing::print_refusal;
use crate::watched::Watched;
use cr_lattice::change::Change;
use cr_lattice::stamped::Stamped;
use cr_lattice::table::Row;
use cr_value::value::Value;
use cr_world::command::{FleetReply, Reply, Script};
use std::io::Write;

/// What is answered to a line, or to the end of the input.
#[derive(Debug, Drop)]
pub enum Answer {
    /// What was replied to a command, or why there is none.
    Reply(FleetReply),
    /// What the commands are.
    Help,
}

fn print_behind_bar<W: Write>(writer: &mut Watched<W>, value: &Value)
    ensures { Prints W.contents writer.old writer.new (124 ∷ literal value.now) }
{
    writer.write_all(b"|");
    print_value(writer, value);
}

fn print_behind_bars<W: Write>(writer: &mut Watched<W>, values: &[Value])
    ensures { Prints W.contents writer.old writer.new (behind_bars values.now) }
{
    for value in values {
        print_behind_bar(writer, value);
    }
}

fn print_values<W: Write>(writer: &mut Watched<W>, first: &Value, others: &[Value])
    ensures { Prints W.contents writer.old writer.new (row_line (first.now ∷ others.now)) }
{
    print_value(writer, first);
    print_behind_bars(writer, others);
    writer.write_all(b"\n");
}

fn print_row<W: Write>(writer: &mut Watched<W>, row: &Row)
    ensures { Prints W.contents writer.old writer.new (row_line row.now) }
{
    match row.as_slice() {
        [first, others @ ..] => print_values(writer, first, others),
        [] => writer.write_all(b"\n"),
    }
}

fn print_rows<W: Write>(writer: &mut Watched<W>, rows: &[Row])
    ensures { Prints W.contents writer.old writer.new (flat_map row_line rows.now) }
{
    for row in rows {
        print_row(writer, row);
    }
}

fn print_blob_behind_bar<W: Write>(writer: &mut Watched<W>, bytes: &[u8])
    ensures { Prints W.contents writer.old writer.new (124 ∷ blob_literal bytes.now) }
{
    writer.write_all(b"|");
    print_blob(writer, bytes);
}

fn print_text_behind_bar<W: Write>(writer: &mut Watched<W>, text: &str)
    ensures { Prints W.contents writer.old writer.new (124 ∷ text_literal text.now) }
{
    writer.write_all(b"|");
    print_text(writer, text);
}

// Which cell a change is of, what that holds and its version, behind the table.
fn print_cell<W: Write>(writer: &mut Watched<W>, change: &Change)
    ensures { Prints W.contents writer.old writer.new
        (behind_bars (Blob change.now.pk ∷ Text change.now.cid ∷ change.now.val ∷ Int change.now.col_version ∷ [])) }
{
    print_blob_behind_bar(writer, change.pk.as_slice());
    print_text_behind_bar(writer, change.cid.as_str());
    print_behind_bar(writer, &change.val);
    print_behind_bar(writer, &Value::Int(change.col_version));
}

// When a change came in, who made it, and the causal length.
fn print_stamp<W: Write>(writer: &mut Watched<W>, stamped: &Stamped)
    ensures { Prints W.contents writer.old writer.new
        (behind_bars (Int stamped.now.version ∷ Blob stamped.now.change.site ∷ Int stamped.now.change.cl ∷ Int stamped.now.seq ∷ [])) }
{
    print_behind_bar(writer, &Value::Int(stamped.version));
    print_blob_behind_bar(writer, &stamped.change.site);
    print_behind_bar(writer, &Value::Int(stamped.change.cl));
    print_behind_bar(writer, &Value::Int(stamped.seq));
}

fn print_change<W: Write>(writer: &mut Watched<W>, stamped: &Stamped)
    ensures { Prints W.contents writer.old writer.new (change_line stamped.now) }
{
    print_text(writer, stamped.change.table.as_str());
    print_cell(writer, &stamped.change);
    print_stamp(writer, stamped);
    writer.write_all(b"\n");
}

fn print_changes<W: Write>(writer: &mut Watched<W>, changes: &[Stamped])
    ensures { Prints W.contents writer.old writer.new (flat_map change_line changes.now) }
{
    for change in changes {
        print_change(writer, change);
    }
}

fn print_statement<W: Write>(writer: &mut Watched<W>, reply: &Reply)
    ensures { Prints W.contents writer.old writer.new (reply_lines reply.now) }
{
    match reply {
        Reply::Rows(rows) => print_rows(writer, rows.as_slice()),
        Reply::Done => {}
    }
}

fn print_statements<W: Write>(writer: &mut Watched<W>, replies: &[Reply])
    ensures { Prints W.contents writer.old writer.new (flat_map reply_lines replies.now) }
{
    for reply in replies {
        print_statement(writer, reply);
    }
}

fn print_script<W: Write>(writer: &mut Watched<W>, script: &Script)
    ensures { Prints W.contents writer.old writer.new (script_lines script.now.replies script.now.refusal) }
{
    print_statements(writer, script.replies.as_slice());
    if let Some(refusal) = &script.refusal {
        print_refusal(writer, refusal);
    }
}

/// Prints a reply: a line for each row or change, its values as SQL literals joined by `|`; `error`, the code, the name and
/// the details of a refusal, behind the rows that a script has shown before; nothing where a command was carried out and
/// there is no more to tell. Takes no memory. Where the writer fails, a front of this is written, and then nothing more.
pub fn print_reply<W: Write>(writer: &mut Watched<W>, reply: &FleetReply)
    ensures { Prints W.contents writer.old writer.new (printed reply.now) }
{
    match reply {
        FleetReply::Script(script) => print_script(writer, script),
        FleetReply::Rows(rows) => print_rows(writer, rows.as_slice()),
        FleetReply::Changes(changes) => print_changes(writer, changes.as_slice()),
        FleetReply::Done => {}
        FleetReply::Refused(refusal) => print_refusal(writer, refusal),
    }
}

/// Prints an answer: a reply as `print_reply` does, or how commands are written.
pub fn print_answer<W: Write>(writer: &mut Watched<W>, answer: &Answer)
    ensures { Prints W.contents writer.old writer.new (answer_printed answer.now) }
{
    match answer {
        Answer::Reply(reply) => print_reply(writer, reply),
        Answer::Help => print_help(writer),
    }
}
