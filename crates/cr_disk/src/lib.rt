//! A file in memory, as the store of sqlite's files asks for one.
#![tactic(auto)]

ghost use Rattle.std.specs.Prelude.{◌≡◌, ◌+◌, ◌-◌, ◌^◌, ◌++◌, min, take, replicate, length, [], true, refl, false, is_ok, IfErr, OnOk, OnErr};
ghost use Rattle.sqlite_disk.specs.Disk.{Holds, Torn, Cut, CountsFault};
ghost use Rattle.std.specs.IoError.{error_kind};
ghost use Rattle.std.specs.declared.io.ErrorKind.TheVariants.{OutOfMemory};
ghost use Rattle.sqlite_disk.specs.Refusal.{finds_no_room};

use sqlite_disk::{Disk, Tally};
use std::alloc::{AllocError, Global};
use std::io;

/// A file in memory, in which each write is made at once and stays. A call fails where memory runs out, and where it is
/// to read what is not there.
#[derive(Drop)]
pub struct MemoryFile {
    bytes: Vec<u8>,
    faults: u64,
}

impl MemoryFile {
    ghost use Rattle.cr_disk.specs.Bytes.{bytes_of, faults_of};

    /// An empty file, of which no call has failed.
    pub fn new(alloc: Global) -> MemoryFile
        ensures empty { bytes_of result ≡ [] }
        ensures faults { faults_of result ≡ 0 }
    {
        MemoryFile {
            bytes: Vec::new(alloc),
            faults: 0,
        }
    }
}

// What comes past the old end is 0, as in a file on a disk.
fn resize(bytes: &mut Vec<u8>, len: usize) -> Result<(), AllocError>
    ensures items { OnOk result (bytes.new.items ≡ take len bytes.old.items ++ replicate (len - length bytes.old.items) 0) }
    ensures same { OnErr result (bytes.new.items ≡ bytes.old.items) }
    ensures len { OnOk result (length bytes.new.items ≡ len) }
    ensures others { Cut len bytes.old.items bytes.new.items }
{
    bytes.resize(len, 0)
}

fn overwrite(file: &mut Vec<u8>, at: usize, bytes: &[u8]) -> Result<(), AllocError>
    ensures written { OnOk result (Holds file.new.items at bytes.now) }
    ensures others { Torn at (length bytes.now) file.old.items file.new.items }
{
    let end = at.checked_add(bytes.len()).ok_or(AllocError)?;
    if end > file.len() {
        resize(file, end)?;
    }
    file[at..end].copy_from_slice(bytes);
    Ok(())
}

// What a call answers, where want of memory counts as a fault.
fn counted(outcome: Result<(), AllocError>, faults: &mut u64) -> io::Result<()>
    ensures variant { is_ok result ≡ is_ok outcome }
    ensures kind { IfErr result (λ e. error_kind e ≡ OutOfMemory) }
    ensures room { finds_no_room result ≡ false }
    ensures faults { CountsFault result faults.old faults.new }
    ensures once { OnErr result (faults.new ≡ min (faults.old + 1) (2 ^ 64 - 1)) }
{
    if outcome.is_err() {
        *faults = faults.saturating_add(1);
        return Err(io::Error::from(io::ErrorKind::OutOfMemory));
    }
    Ok(())
}

impl Disk for MemoryFile {
    ghost seen = { λ m. m.bytes.items };

    ghost may_leave = { λ m left. left ≡ m.bytes.items };

    ghost is_usable = { λ _. true };

    ghost faults = { λ m. m.faults };

    ghost is_clean = { λ _. true };

    ghost tally_of = { λ _. record { caught = 0; refused = 0 } };

    ghost key_of = { λ _. 0 };

    ghost is_fair = { λ _ _. true };

    ghost fair_if_clean = { λ _ _ _. refl };

    ghost seen_may_stay = { λ _. refl };

    fn mixes(&self) -> bool {
        false
    }

    // Memory tells no lie, so it needs no secret.
    fn key(&self) -> u64 {
        0
    }

    fn tally(&self) -> Tally {
        Tally {
            caught: 0,
            refused: 0,
        }
    }

    fn may_be_used(&self) -> bool {
        true
    }

    fn len(&mut self) -> io::Result<usize> {
        Ok(self.bytes.len())
    }

    fn read_at(&mut self, at: usize, buf: &mut [u8]) -> io::Result<()> {
        if at > self.bytes.len() || buf.len() > self.bytes.len() - at {
            return Err(io::ErrorKind::UnexpectedEof.into());
        }
        buf.copy_from_slice(&self.bytes[at..at + buf.len()]);
        Ok(())
    }

    // Memory gives back what was written, so there is nothing to test.
    fn read_checked(&mut self, _key: u64, _want: u64, at: usize, buf: &mut [u8]) -> io::Result<()> {
        self.read_at(at, buf)
    }

    fn write_at(&mut self, at: usize, bytes: &[u8]) -> io::Result<()> {
        counted(overwrite(&mut self.bytes, at, bytes), &mut self.faults)
    }

    fn set_len(&mut self, len: usize) -> io::Result<()> {
        counted(resize(&mut self.bytes, len), &mut self.faults)
    }

    fn sync(&mut self) -> io::Result<()> {
        Ok(())
    }
}
