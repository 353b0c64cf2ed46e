//! The table that `SELECT crsql_as_crr('t')` marks.

ghost use Rattle.std.specs.Str.{str_to_ascii_lowercase};
ghost use Rattle.cr_resolve.specs.Known.{table as meant};
ghost use Rattle.cr_resolve.specs.Told.{Finds};

use cr_resolve::known::table;
use cr_resolve::naming::Naming;
use cr_resolve::refusal::Refusal;
use cr_term::query::Relation;
use cr_value::text::Text;
use std::alloc::Global;

/// The table of that name, whatever the case of its letters.
///
/// # Errors
/// `NoSuchTable` just where there is none; `Memory`.
pub fn marked_table<K: Naming>(alloc: Global, known: &K, name: &Text) -> Result<Relation, Refusal>
    ensures { Finds (meant (K.known known.now) (str_to_ascii_lowercase name.now)) result }
{
    let lower = Text::folded(alloc, name.as_str())?;
    table(alloc, known, &lower)
}
