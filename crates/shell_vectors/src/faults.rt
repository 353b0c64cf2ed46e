//! Devices that fail while an input is served.

use crate::serving::{serve_fleet, serve_input};
use cr_shell::serving::ServeFault;
use std::alloc::{AllocError, Global};
use std::io::{self, Read, Write};

// Gives bytes one by one, and fails behind them.
#[derive(Drop)]
struct Failing<'a> {
    bytes: &'a [u8],
}

impl Read for Failing<'_> {
    fn read(&mut self, buf: &mut [u8]) -> io::Result<usize> {
        match (self.bytes, buf.first_mut()) {
            ([byte, rest @ ..], Some(place)) => {
                *place = *byte;
                self.bytes = rest;
                Ok(1)
            }
            _ => Err(io::ErrorKind::Other.into()),
        }
    }
}

// Whether a writer with room for so many bytes is told as failed, and has a front of what is wanted.
fn fails_with_room(
    alloc: Global,
    input: &[u8],
    wanted: &[u8],
    room: usize,
) -> Result<bool, AllocError> {
    let mut held = vec![in alloc; 0; room]?;
    let ended = serve_fleet(alloc, input, held.as_mut_slice());
    Ok(ended == Err(ServeFault::Write) && wanted.starts_with(&held))
}

// Whether a reader that fails behind the bytes is told, and a front of what is wanted is written.
fn fails_behind(alloc: Global, bytes: &[u8], wanted: &[u8]) -> bool {
    let mut printed = Vec::new(alloc);
    let ended = serve_fleet(alloc, Failing { bytes }, &mut printed);
    ended == Err(ServeFault::Read) && wanted.starts_with(&printed)
}

/// Prints what an input is answered, and of how many writers and readers that fail, one at each place, that is told, with a front
/// of the answers.
pub(crate) fn print_faults<W: Write>(alloc: Global, input: &[u8], out: &mut W) -> io::Result<()> {
    let wanted = serve_input(alloc, input, out)?;
    let mut writers: u32 = 0;
    for room in 0..wanted.len() {
        if fails_with_room(alloc, input, &wanted, room)? {
            writers = writers.wrapping_add(1);
        }
    }
    let mut readers: u32 = 0;
    for place in 0..=input.len() {
        if fails_behind(alloc, &input[..place], &wanted) {
            readers = readers.wrapping_add(1);
        }
    }
    writeln!(out, "{writers} of {} writers", wanted.len())?;
    writeln!(out, "{readers} of {} readers", input.len().wrapping_add(1))
}
