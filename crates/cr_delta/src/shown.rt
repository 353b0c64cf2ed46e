//! What kept changes show in one column of one row.

ghost use Rattle.std.specs.Prelude.{◌≡◌, ◌&&◌, find};
ghost use Rattle.std.specs.Option.{option_copied};
ghost use Rattle.cr_lattice.specs.Check.{is_odd};
ghost use Rattle.cr_lattice.specs.Rows.{is_of_row, is_alive};

use cr_lattice::change::Change;
use cr_lattice::rows::is_of_row;

fn is_of_present_row(change: &Change, table: &str, pk: &[u8]) -> bool
    ensures { result ≡ (is_of_row table.now pk.now change.now && is_odd change.now.cl) }
{
    is_of_row(change, table, pk) && change.cl.unsigned_abs() % 2 == 1
}

/// Whether the row is present.
#[tactic(auto, unfolding(cr_lattice::specs::Rows::is_alive))]
pub(crate) fn is_alive(kept: &[Change], table: &str, pk: &[u8]) -> bool
    ensures { result ≡ is_alive kept.now table.now pk.now }
{
    kept.iter()
        .any(|change| is_of_present_row(change, table, pk))
}

/// The first kept change of the row.
pub(crate) fn row_change_of<'a>(kept: &'a [Change], table: &str, pk: &[u8]) -> Option<&'a Change>
    ensures { option_copied result ≡ find (is_of_row table.now pk.now) kept.now }
{
    kept.iter().find(|change| is_of_row(change, table, pk))
}
