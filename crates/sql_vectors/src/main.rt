//! SQL texts with known answers, a line each: their tokens and symbols, what they are read as, what that is printed as, and
//! what SELECTs answer over lists. A line of the input is a case: a call, and the text that it is given, as the files of
//! this crate say of each. The program prints the case again with what the call answers behind `=>`. Lines that begin with
//! `#` and empty lines are printed as they are.
//!
//! In a case `{N*TEXT}` stands for the text N times, and `\n`, `\0`, `\t`, `\v`, `\\` for what they are in Rust.
#![tactic(auto)]

mod failing;
mod refusals;
mod selects;
mod trees;
mod words;

use cr_told::cases::{Calls, print_cases};
use cr_told::error::ToldError;
use std::alloc::Global;
use std::io::{self, BufReader, BufWriter, Write};

struct SqlVectors;

impl Calls for SqlVectors {
    fn answer(&self, alloc: Global, call: &str, given: &str) -> Result<String, ToldError> {
        if let Some(answer) = words::answer(alloc, call, given)? {
            return Ok(answer);
        }
        if let Some(answer) = selects::answer(alloc, call, given)? {
            return Ok(answer);
        }
        trees::answer(alloc, call, given)?.ok_or(ToldError::Form)
    }
}

fn main(rt: HostRuntime) -> io::Result<()> {
    let alloc = rt.alloc();
    let input = io::read_to_string(alloc, BufReader::new(alloc, rt.stdin())?)?;
    let mut out = BufWriter::new(alloc, rt.stdout())?;
    print_cases(alloc, &SqlVectors, input.as_str(), &mut out)?;
    out.flush()
}
