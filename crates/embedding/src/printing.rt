//! How rows and refusals are printed.

use cr_value::literal::literal_text;
use cr_value::value::Value;
use cr_world::command::Reply;
use cr_world::refusal::Refusal;
use std::alloc::Global;
use std::io::{self, Write};

/// Prints why something was refused: its code, its name, and its sentence.
pub fn print_refusal<W: Write>(refusal: &Refusal, out: &mut W) -> io::Result<()> {
    writeln!(
        out,
        "error {} {}: {refusal}",
        refusal.code(),
        refusal.name()
    )
}

/// Prints the values of a row, as literals.
pub fn print_row<W: Write>(alloc: Global, row: &[Value], out: &mut W) -> io::Result<()> {
    for (place, value) in row.iter().enumerate() {
        let mark = if place == 0 { "" } else { "|" };
        write!(out, "{mark}{}", literal_text(alloc, value)?.as_str())?;
    }
    writeln!(out)
}

/// Prints the rows that a statement gave, that it is done, or why it was refused.
pub fn print_reply<W: Write>(
    alloc: Global,
    outcome: &Result<Reply, Refusal>,
    out: &mut W,
) -> io::Result<()> {
    match outcome {
        Ok(Reply::Done) => writeln!(out, "done"),
        Ok(Reply::Rows(rows)) => {
            for row in rows.as_slice() {
                print_row(alloc, row.as_slice(), out)?;
            }
            Ok(())
        }
        Err(refusal) => print_refusal(refusal, out),
    }
}

/// Prints a call, and that it is done or why it was refused.
pub fn print_done<W: Write>(
    call: &str,
    outcome: &Result<(), Refusal>,
    out: &mut W,
) -> io::Result<()> {
    writeln!(out, "{call}")?;
    match outcome {
        Ok(()) => writeln!(out, "done"),
        Err(refusal) => print_refusal(refusal, out),
    }
}
