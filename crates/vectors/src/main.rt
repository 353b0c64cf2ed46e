//! Calls with known answers, a line each. A line of the input is a case: a call, and what it is given, as the files of
//! this crate say of each. The program prints the case again with what the call answers behind `=>`. Lines that begin
//! with `#` and empty lines are printed as they are.
//!
//! In a case `{N*TEXT}` stands for the text N times, and `\n`, `\0`, `\t`, `\v`, `\\` for what they are in Rust.
#![tactic(auto)]

mod changes;
mod guard;
mod registry;
mod values;

use cr_told::cases::{Calls, print_cases};
use cr_told::error::ToldError;
use std::alloc::Global;
use std::io::{self, BufReader, BufWriter, Write};

struct Vectors;

impl Calls for Vectors {
    fn answer(&self, alloc: Global, call: &str, given: &str) -> Result<String, ToldError> {
        if let Some(answer) = values::answer(alloc, call, given)? {
            return Ok(answer);
        }
        if let Some(answer) = changes::answer(alloc, call, given)? {
            return Ok(answer);
        }
        if let Some(answer) = guard::answer(alloc, call, given)? {
            return Ok(answer);
        }
        registry::answer(alloc, call, given)?.ok_or(ToldError::Form)
    }
}

fn main(rt: HostRuntime) -> io::Result<()> {
    let alloc = rt.alloc();
    let input = io::read_to_string(alloc, BufReader::new(alloc, rt.stdin())?)?;
    let mut out = BufWriter::new(alloc, rt.stdout())?;
    print_cases(alloc, &Vectors, input.as_str(), &mut out)?;
    out.flush()
}
