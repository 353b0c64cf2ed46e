//! Inputs in which a line is a case.

use crate::error::ToldError;
use crate::expansion::expanded;
use crate::lines::next_line;
use std::alloc::Global;
use std::io::{self, Write};

/// The calls that cases name.
pub trait Calls {
    /// What the call of a name answers to a text.
    ///
    /// # Errors
    /// `Form` where no call has the name, or the text has not the form that it wants; `Memory` where there was none.
    fn answer(&self, alloc: Global, call: &str, given: &str) -> Result<String, ToldError>;
}

fn answer<C: Calls>(
    alloc: Global,
    calls: &C,
    call: &str,
    given: &str,
) -> Result<String, ToldError> {
    let given = expanded(alloc, given)?;
    calls.answer(alloc, call, given.as_str())
}

fn print_case<C: Calls, W: Write>(
    alloc: Global,
    calls: &C,
    line: &str,
    out: &mut W,
) -> io::Result<()> {
    let (call, given) = line.split_once(' ').unwrap_or((line, ""));
    let answer = match answer(alloc, calls, call, given) {
        Ok(answer) => answer,
        Err(ToldError::Form) => String::from_str(alloc, "no case")?,
        Err(ToldError::Memory) => String::from_str(alloc, "no memory")?,
    };
    writeln!(out, "{line} => {answer}")
}

/// Prints the lines of an input: a case with what its call answers behind `=>`, a line that begins with `#` and an empty one as it
/// is. A case is the name of a call and, behind a space, what it is given.
///
/// # Errors
/// The writer's, and want of memory.
pub fn print_cases<C: Calls, W: Write>(
    alloc: Global,
    calls: &C,
    input: &str,
    out: &mut W,
) -> io::Result<()> {
    let mut rest = input;
    for _turn in 0..=input.len() {
        let Some(line) = next_line(&mut rest) else {
            break;
        };
        if line.is_empty() || line.starts_with('#') {
            writeln!(out, "{line}")?;
        } else {
            print_case(alloc, calls, line, out)?;
        }
    }
    Ok(())
}
