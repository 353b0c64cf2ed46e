//! Whole inputs of the shell.

use cr_cells::store::{CellsError, NewCells};
use cr_fleet::fleet::Fleet;
use cr_guard::policy::Policy;
use cr_host::functions::BuiltIns;
use cr_lattice::change::Site;
use cr_memory::MemoryCells;
use cr_served::served::Served;
use cr_session::session::Session;
use cr_shell::serving::{End, ServeFault, serve};
use cr_shell::watched::Watched;
use std::alloc::Global;
use std::io::{self, Read, Write};

// The site of a replica that stands alone.
const SITE: Site = [10; 16];

fn end_word(end: Result<End, ServeFault>) -> &'static str {
    match end {
        Ok(End::Input) => "end",
        Ok(End::Quit) => "end by .quit",
        Err(ServeFault::Read) => "end for a read fault",
        Err(ServeFault::Write) => "end for a write fault",
    }
}

// What an input over these devices is answered by what is served, and how that ended.
fn serve_over<T: Served, R: Read + Drop, V: Write + Drop>(
    alloc: Global,
    reader: R,
    writer: V,
    served: &mut T,
) -> Result<End, ServeFault> {
    let mut reader = Watched::new(reader);
    let mut writer = Watched::new(writer);
    let mut policy = Policy::new(alloc);
    serve(
        alloc,
        &mut reader,
        &mut writer,
        served,
        &BuiltIns,
        &mut policy,
    )
}

fn print_served<T: Served, W: Write>(
    alloc: Global,
    input: &[u8],
    served: &mut T,
    out: &mut W,
) -> io::Result<Vec<u8>> {
    let mut printed = Vec::new(alloc);
    let end = serve_over(alloc, input, &mut printed, served);
    out.write_all(&printed)?;
    writeln!(out, "{}", end_word(end))?;
    Ok(printed)
}

/// Has an input served over a new fleet and these devices.
pub(crate) fn serve_fleet<R: Read + Drop, V: Write + Drop>(
    alloc: Global,
    reader: R,
    writer: V,
) -> Result<End, ServeFault> {
    serve_over(alloc, reader, writer, &mut Fleet::<MemoryCells>::new(alloc))
}

/// Prints what a new fleet answers to an input, and how that ended; gives back what was answered.
pub(crate) fn serve_input<W: Write>(
    alloc: Global,
    input: &[u8],
    out: &mut W,
) -> io::Result<Vec<u8>> {
    let mut fleet = Fleet::<MemoryCells>::new(alloc);
    print_served(alloc, input, &mut fleet, out)
}

/// Prints what a new fleet answers to an input, and how that ended.
pub(crate) fn print_fleet<W: Write>(alloc: Global, input: &[u8], out: &mut W) -> io::Result<()> {
    serve_input(alloc, input, out)?;
    Ok(())
}

/// Prints what a new replica that stands alone answers to an input, and how that ended.
pub(crate) fn print_alone<W: Write>(alloc: Global, input: &[u8], out: &mut W) -> io::Result<()> {
    match MemoryCells::create(alloc, SITE) {
        Ok(cells) => {
            print_served(alloc, input, &mut Session::new(cells), out)?;
            Ok(())
        }
        Err(CellsError::Memory) => Err(io::Error::from(io::ErrorKind::OutOfMemory)),
        Err(_) => Err(io::Error::from(io::ErrorKind::Other)),
    }
}
