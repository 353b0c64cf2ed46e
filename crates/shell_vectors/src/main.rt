//! Whole inputs of the shell with known output. A line `shell NAME` begins a case: the lines up to one that is `end` are
//! served over a new fleet in memory, and what that prints is printed, and how it ended. Of a line `shell-cut NAME` the
//! last line of the input has no line feed. Of a line `shell-told NAME` the input is the text that the lines stand for, of a line
//! `shell-hex NAME` the bytes that they spell in hexadecimal digits. A line `alone NAME` has its input served over one replica
//! that stands alone, of the site X'0A..0A'. A line `shell-faults NAME` has its input served as of `shell`, and then once more over
//! each writer that has room for less and over each reader that fails somewhere, and tells how many of them end as they should.
//! A line `commands` has a list of commands run by a fleet. Lines that begin with `#` and empty lines are printed as they are.
#![tactic(auto)]

mod faults;
mod running;
mod serving;

use cr_told::expansion::expanded;
use cr_told::lines::next_line;
use std::alloc::Global;
use std::io::{self, BufReader, BufWriter, ErrorKind, Write};

// The lines up to `end`, each with its line feed but for the last; the text becomes what follows `end`.
fn block<'a>(rest: &mut &'a str) -> &'a str {
    let (block, after) = match rest.split_once("end\n") {
        Some(("", after)) => ("", after),
        _ => rest.split_once("\nend\n").unwrap_or((*rest, "")),
    };
    *rest = after;
    block
}

// The lines of a case are no input.
fn malformed() -> io::Error {
    io::Error::from(ErrorKind::InvalidData)
}

// The lines of a case as an input.
fn input(alloc: Global, line: &str, block: &str) -> io::Result<Vec<u8>> {
    if line.starts_with("shell-hex ") {
        return hex::decode(alloc, block).map_err(|_| malformed());
    }
    let mut input = if line.starts_with("shell-told ") {
        expanded(alloc, block).map_err(|_| malformed())?
    } else {
        String::from_str(alloc, block)?
    };
    if !block.is_empty() && !line.starts_with("shell-cut ") {
        input.push_str("\n")?;
    }
    Ok(input.into_bytes())
}

fn print_case<W: Write>(alloc: Global, line: &str, block: &str, out: &mut W) -> io::Result<()> {
    let input = input(alloc, line, block)?;
    writeln!(out, "{line}")?;
    if line.starts_with("alone ") {
        serving::print_alone(alloc, &input, out)
    } else if line.starts_with("shell-faults ") {
        faults::print_faults(alloc, &input, out)
    } else {
        serving::print_fleet(alloc, &input, out)
    }
}

// Prints what begins with a line: a case, or a line that is printed as it is. The text is what follows the line; it
// becomes what follows the case.
fn print_next<W: Write>(alloc: Global, line: &str, rest: &mut &str, out: &mut W) -> io::Result<()> {
    if line.is_empty() || line.starts_with('#') {
        return writeln!(out, "{line}");
    }
    if line == "commands" {
        writeln!(out, "{line}")?;
        return running::print_commands(alloc, out);
    }
    let block = block(rest);
    print_case(alloc, line, block, out)
}

fn run<W: Write>(alloc: Global, input: &str, out: &mut W) -> io::Result<()> {
    let mut rest = input;
    for _turn in 0..=input.len() {
        let Some(line) = next_line(&mut rest) else {
            break;
        };
        print_next(alloc, line, &mut rest, out)?;
    }
    Ok(())
}

fn main(rt: HostRuntime) -> io::Result<()> {
    let alloc = rt.alloc();
    let input = io::read_to_string(alloc, BufReader::new(alloc, rt.stdin())?)?;
    let mut out = BufWriter::new(alloc, rt.stdout())?;
    run(alloc, input.as_str(), &mut out)?;
    out.flush()
}
