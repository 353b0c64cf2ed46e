//! A reader or writer that keeps whether a call of it failed.
ghost use Rattle.std.specs.Prelude.{◌≡◌, ◌≤◌, ◌||◌, true, false, length, is_err, IfOk};
ghost use Rattle.std.specs.Io.KnownBytes.{Appends, ReadConsumes};
ghost use Rattle.cr_shell.specs.Printing.{AppendsPart, Prints};
ghost use Rattle.cr_shell.specs.Reading.{ReadsByte};

use std::io::{Read, Write};
use std::marker::Model;
use thiserror::Error;

/// The device failed.
#[derive(Clone, Copy, Debug, PartialEq, Eq, Drop, Error)]
#[error("the device failed")]
pub struct Failed;

/// A device, and whether a call of it has failed.
#[derive(Drop)]
pub struct Watched<D> {
    device: D,
    failed: bool,
}

impl<D> Model for Watched<D> {
    ghost use Rattle.std.specs.Prelude.{Bool};
    ghost use Rattle.std.specs.Coded.{coded×, coded_bool};

    ghost Value = { D × Bool };

    ghost coded = { coded× D.code coded_bool };

    ghost view = { λ w. (w.device, w.failed) };
}

impl<D> Watched<D> {
    /// The device, of which nothing has failed yet.
    pub fn new(device: D) -> Self
        ensures { result ≡ (device, false) }
    {
        Watched {
            device,
            failed: false,
        }
    }

    /// Whether a call of the device has failed.
    pub fn failed(&self) -> bool
        ensures { result ≡ self.now.1 }
    {
        self.failed
    }
}

impl<R: Read> Watched<R> {
    /// Reads as the device does.
    ///
    /// # Errors
    /// Where the device failed, which is kept.
    pub fn read(&mut self, buf: &mut [u8]) -> Result<usize, Failed>
        ensures within { IfOk result (λ n. n ≤ length buf.new) }
        ensures bytes { ReadConsumes (R.remaining self.old.0) (R.remaining self.new.0) result buf.new }
        ensures failed { self.new.1 ≡ (self.old.1 || is_err result) }
    {
        match self.device.read(buf) {
            Ok(n) => Ok(n),
            Err(_) => {
                self.failed = true;
                Err(Failed)
            }
        }
    }

    /// The next byte, `None` at the end.
    ///
    /// # Errors
    /// Where the reader failed, which is kept.
    pub fn read_byte(&mut self) -> Result<Option<u8>, Failed>
        ensures byte { ReadsByte (R.remaining self.old.0) (R.remaining self.new.0) result }
        ensures failed { self.new.1 ≡ (self.old.1 || is_err result) }
    {
        let mut byte = [0];
        match self.read(&mut byte) {
            Ok(0) => Ok(None),
            Ok(_) => Ok(Some(byte[0])),
            Err(Failed) => Err(Failed),
        }
    }
}

// Whether the writer took all of the bytes: if not, some are not written.
fn takes<W: Write>(writer: &mut W, bytes: &[u8]) -> bool
    ensures whole { result ≡ true → Appends (W.contents writer.old) (W.contents writer.new) bytes.now }
    ensures part { result ≡ false → AppendsPart (W.contents writer.old) (W.contents writer.new) bytes.now }
{
    let mut at = 0;
    while at < bytes.len() {
        match writer.write(&bytes[at..]) {
            Ok(0) => return false,
            Ok(n) => at += n,
            Err(_) => return false,
        }
    }
    true
}

impl<W: Write> Watched<W> {
    /// Writes all of the bytes, and keeps whether that failed; a write that takes none of its bytes is a failure. Once the
    /// writer has failed, nothing more is written.
    pub fn write_all(&mut self, bytes: &[u8])
        ensures { Prints W.contents self.old self.new bytes.now }
    {
        if !self.failed {
            self.failed = !takes(&mut self.device, bytes);
        }
    }

    /// Writes a text as `write_all` does its bytes.
    pub fn write_text(&mut self, text: &str)
        ensures { Prints W.contents self.old self.new text.now }
    {
        self.write_all(text.as_bytes());
    }
}
