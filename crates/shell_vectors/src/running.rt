//! A list of commands that a fleet runs at once.

use cr_fleet::fleet::Fleet;
use cr_guard::policy::Policy;
use cr_host::functions::BuiltIns;
use cr_lattice::change::Site;
use cr_memory::MemoryCells;
use cr_shell::printing::print_reply;
use cr_shell::watched::Watched;
use cr_value::text::Text;
use cr_world::command::{Command, Declaration, FleetReply};
use std::alloc::{AllocError, Global};
use std::io::{self, Write};

const SITE: Site = [10; 16];

// What a new fleet replies to `.open A`, `.use B`, `.use A`, a table with a REAL column, and `.rows p`.
fn replies(alloc: Global) -> Result<Vec<FleetReply>, AllocError> {
    let commands = [
        Command::Open(Text::from_str(alloc, "A")?, SITE),
        Command::Use(Text::from_str(alloc, "B")?),
        Command::Use(Text::from_str(alloc, "A")?),
        Command::Define(Declaration::Real),
        Command::Rows(Text::from_str(alloc, "p")?),
    ];
    let mut fleet = Fleet::<MemoryCells>::new(alloc);
    let mut policy = Policy::new(alloc);
    fleet.run(alloc, &BuiltIns, &mut policy, &commands)
}

/// Prints what the commands are replied, a line each.
pub(crate) fn print_commands<W: Write>(alloc: Global, out: &mut W) -> io::Result<()> {
    let replies = replies(alloc)?;
    let mut printed = Vec::new(alloc);
    let mut writer = Watched::new(&mut printed);
    for reply in &replies {
        match reply {
            FleetReply::Done => writer.write_text("done\n"),
            other => print_reply(&mut writer, other),
        }
    }
    out.write_all(&printed)
}
