//! What the commands are.

ghost use Rattle.cr_shell.specs.Helping.{help_text};
ghost use Rattle.cr_shell.specs.Printing.{Prints};

use crate::watched::Watched;
use std::io::Write;

const HELP: &str = ".open NAME SITE     opens a replica and uses it; SITE is 32 hexadecimal digits
.use NAME           uses another replica
.table NAME COL ..  defines a replicated table; a COL is name:TYPE, with * before
                    it for the key, ! for NOT NULL, =VALUE behind it for a DEFAULT
.take CHANGE        takes a change, written as .changes prints it
.rows NAME          shows the rows of a table
.changes N          shows the changes above version N
.pull NAME          takes all changes of another replica
.pullnew NAME       takes those that came to it since the last .pullnew
.deny TABLE COL     refuses statements that read the column
.ignore TABLE COL   has the column read as NULL
.allow TABLE COL    lets the column be read again
.veto N             refuses commits of more than N changes
.veto off           refuses none for their number
.help               shows this
.quit               ends
Any other line is SQL, which is run once a ; ends it.
";

/// Prints how each command is written, and what any other line is.
#[tactic(auto, unfolding(crate::specs::Helping::help_text))]
pub(crate) fn print_help<W: Write>(writer: &mut Watched<W>)
    ensures { Prints W.contents writer.old writer.new help_text }
{
    writer.write_text(HELP);
}
