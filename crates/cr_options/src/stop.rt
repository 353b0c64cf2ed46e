//! Why crsh stops, and what is told then.

ghost use Rattle.std.specs.Prelude.{◌≡◌};
ghost use Rattle.cr_options.specs.Stops.{status_of, text_of};

/// Why the program stops.
#[derive(Clone, Copy, Debug, PartialEq, Eq, Drop)]
pub enum Stop {
    /// At `.quit`.
    Quit,
    /// At the end of the input.
    Input,
    /// The reader failed, or the input reached the limit.
    Read,
    /// The writer failed.
    Write,
    /// The store was refused, or there was no memory to open it.
    Store,
    /// The words of the command line ask nothing that is known.
    Usage,
}

const READ: &str = "crsh: read fault";

const WRITE: &str = "crsh: write fault";

const STORE: &str = "crsh: store refused";

const USAGE: &str = "usage: crsh [--db FILE [--site HEX32]]
Without options it serves replicas in memory. The store in FILE is opened, and where FILE holds none, one is made with the site.";

/// The exit status at which the program stops, and the text that is told then, without an end of line: none where the
/// input was served to its end, one line where it stopped before, and the usage, of two lines.
pub fn report(stop: Stop) -> (u8, &'static str)
    ensures status { result.0 ≡ status_of stop }
    ensures text { result.1.now ≡ text_of stop }
{
    match stop {
        Stop::Quit | Stop::Input => (0, ""),
        Stop::Read => (1, READ),
        Stop::Write => (1, WRITE),
        Stop::Store => (1, STORE),
        Stop::Usage => (2, USAGE),
    }
}
