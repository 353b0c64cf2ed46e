//! A prompt for each line that a person types.

ghost use Rattle.std.specs.Prelude.{◌≡◌};

use cr_shell::asking::Gathered;
use std::alloc::Global;
use std::io::{self, Read, Write};

const PROMPT: &str = "caurnepa> ";

// Where the line goes on with SQL that no `;` has ended; as long as the other.
const GOES_ON: &str = "    ...> ";

/// A reader of lines. Where a person types them, it shows before each which kind of line is awaited.
#[derive(Drop)]
pub(crate) struct Prompted<R: Drop, W: Drop> {
    reader: R,
    prompts: W,
    alloc: Global,
    is_shown: bool,
    is_at_start: bool,
    // The line as far as it was read, and what the lines before it leave gathered.
    line: Vec<u8>,
    gathered: Gathered,
}

impl<R: Read + Drop, W: Write + Drop> Prompted<R, W> {
    /// A reader of these lines, which shows prompts on the writer only if it is told to.
    pub(crate) fn new(alloc: Global, reader: R, prompts: W, is_shown: bool) -> Prompted<R, W> {
        Prompted {
            reader,
            prompts,
            alloc,
            is_shown,
            is_at_start: true,
            line: Vec::new(alloc),
            gathered: Gathered::new(alloc),
        }
    }

    // A prompt that can't be written is none: what is served doesn't depend on it.
    fn show(&mut self)
        ensures { self.new.reader ≡ self.old.reader }
    {
        let prompt = if self.gathered.has_token(self.alloc).unwrap_or(false) {
            GOES_ON
        } else {
            PROMPT
        };
        if self.prompts.write_all(prompt.as_bytes()).is_ok() {
            self.prompts.flush().ok();
        }
    }

    // Follows what is gathered as the lines go; where memory is wanting, it is taken for nothing.
    fn follow(&mut self, byte: u8)
        ensures { self.new.reader ≡ self.old.reader }
    {
        self.is_at_start = byte == b'\n';
        if !self.is_at_start {
            self.line.push(byte).ok();
            return;
        }
        if self.gathered.ask(self.alloc, &self.line).is_err() {
            self.gathered.clear();
        }
        self.line.clear();
    }

    fn follow_all(&mut self, bytes: &[u8])
        ensures { self.new.reader ≡ self.old.reader }
    {
        for byte in bytes {
            self.follow(*byte);
        }
    }
}

impl<R: Read + Drop, W: Write + Drop> Read for Prompted<R, W> {
    ghost remaining = { λ p. R.remaining p.reader };

    fn read(&mut self, buf: &mut [u8]) -> io::Result<usize> {
        if !self.is_shown {
            return self.reader.read(buf);
        }
        if self.is_at_start {
            self.show();
        }
        let count = self.reader.read(buf)?;
        self.follow_all(&buf[..count]);
        Ok(count)
    }
}
