//! The changes that a write on a replicated table makes.

ghost use Rattle.std.specs.Prelude.{◌≡◌, ◌++◌, true, OnOk};
ghost use Rattle.std.specs.List.{AllByRecursion};
ghost use Rattle.cr_lattice.specs.Keep.{keep};
ghost use Rattle.cr_lattice.specs.Profile.{has_key};
ghost use Rattle.cr_lattice.specs.Rows.{rows};
ghost use Rattle.cr_delta.specs.Delta.{delta};
ghost use Rattle.cr_delta.specs.Key.{HasKey};
ghost use Rattle.cr_wanted.specs.Judged.{AreWide};
ghost use Rattle.cr_changed.specs.Changed.{Changes, LeadsTo, StandAlone, update_wants, delete_wants};
ghost use Rattle.cr_changed.specs.Steps.{Gives};

use crate::told::{of_against, of_delta};
use crate::wants::{delete_wants, update_wants};
use cr_delta::delta::delta;
use cr_expr::given::Hosted;
use cr_host::functions::Functions;
use cr_lattice::change::{Change, Site};
use cr_lattice::rows::rows;
use cr_lattice::table::{Row, TableDef};
use cr_replica::snapshot::Snapshot;
use cr_term::query::{Delete, Update};
use cr_value::value::Value;
use cr_wanted::judged::judged;
use cr_wanted::keyed::read_keys;
use cr_wanted::long::has_long_key;
use cr_wanted::nulls::lacks_value;
use cr_world::refusal::Refusal;
use std::alloc::Global;

// The changes that lead to rows that a table takes.
fn changes_from(
    alloc: Global,
    site: &Site,
    kept: &[Change],
    definition: &TableDef,
    taken: &[Row],
) -> Result<Vec<Change>, Refusal>
    requires kept { keep kept.now ≡ kept.now }
    requires keys { AllByRecursion (HasKey definition.now) taken.now }
    ensures { Gives (delta definition.now site.now kept.now taken.now) result (λ v. v.items) }
{
    match delta(alloc, definition, kept, taken, site) {
        Ok(changes) => Ok(changes),
        Err(error) => Err(of_delta(error)),
    }
}

// The changes that lead to rows that are wanted of a table, by whatever write they are.
fn changes_to(
    alloc: Global,
    site: &Site,
    kept: &[Change],
    definition: &TableDef,
    wanted: Vec<Row>,
) -> Result<Vec<Change>, Refusal>
    requires kept { keep kept.now ≡ kept.now }
    requires key { has_key definition.now ≡ true }
    requires width { AreWide definition.now.columns wanted.items }
    ensures { LeadsTo definition.now site.now kept.now wanted.items result (λ v. v.items) }
{
    match judged(alloc, definition, wanted) {
        Ok(taken) => changes_from(alloc, site, kept, definition, taken.as_slice()),
        Err(against) => Err(of_against(against)),
    }
}

/// Whether a table may take rows as far as they are looked at by themselves: then each has a key that can be packed, and every
/// value that the table wants.
///
/// # Errors
/// `TooBig` where the packed key of a row has over 1,000,000 bytes; then `NotNull` where a row has NULL in a key column or in a
/// NOT NULL column.
pub fn check_rows(definition: &TableDef, rows: &[Row]) -> Result<(), Refusal>
    requires key { has_key definition.now ≡ true }
    requires width { AreWide definition.now.columns rows.now }
    ensures alone { StandAlone definition.now rows.now result }
    ensures keys { OnOk result (AllByRecursion (HasKey definition.now) rows.now) }
{
    if has_long_key(definition, rows) {
        return Err(Refusal::TooBig);
    }
    if lacks_value(definition, rows) {
        return Err(Refusal::NotNull);
    }
    read_keys(definition, rows);
    Ok(())
}

/// The changes by a site that bring rows to a replicated table of which this is kept: they lead from the rows that it shows to
/// these and the rows that come.
///
/// What is kept is what a set of changes keeps. Of rows that have keys it tells the changes, and what stands against them, if it
/// is what is kept of these keys alone, too.
///
/// # Errors
/// `TooBig` where the packed key of a row has over 1,000,000 bytes; then `NotNull` where a row has NULL in a key column or in a
/// NOT NULL column; then `PrimaryKey` where two rows have one key; then `VersionLimit` where a version or a causal length would
/// pass 9223372036854775807; `Memory`.
pub fn changes_of_rows(
    alloc: Global,
    site: &Site,
    kept: &[Change],
    definition: &TableDef,
    more: Vec<Row>,
) -> Result<Vec<Change>, Refusal>
    requires kept { keep kept.now ≡ kept.now }
    requires key { has_key definition.now ≡ true }
    requires width { AreWide definition.now.columns more.items }
    ensures { LeadsTo definition.now site.now kept.now (rows kept.now definition.now ++ more.items) result (λ v. v.items) }
{
    let mut more = more;
    let mut wanted = rows(alloc, kept, definition)?;
    wanted.append(&mut more)?;
    changes_to(alloc, site, kept, definition, wanted)
}

/// The changes that an UPDATE makes on a replicated table: those of the snapshot's site that lead from the rows that the
/// snapshot shows to the same with their new values. A row whose key changes goes, and one of the new key comes.
///
/// `params` are the parameters' values, from number 1 on. The snapshot's changes are what a set of changes keeps.
///
/// # Errors
/// `Eval` or `TooBig` for the fault of an expression; then those of `changes_of_rows`.
pub fn changes_of_update<F: Functions>(
    alloc: Global,
    functions: &F,
    snapshot: &Snapshot,
    update: &Update,
    params: &[Value],
) -> Result<Vec<Change>, Refusal>
    requires functions { F.is_faithful functions.now }
    requires kept { keep snapshot.now.kept ≡ snapshot.now.kept }
    requires key { has_key update.now.relation.definition ≡ true }
    ensures { Changes (⟦<F as Hosted>⟧.means functions.now) params.now update.now.relation.definition snapshot.now.site snapshot.now.kept (update_wants snapshot.now update.now) result (λ v. v.items) }
{
    let wanted = update_wants(alloc, functions, snapshot, update, params)?;
    let kept = snapshot.kept.as_slice();
    changes_to(
        alloc,
        &snapshot.site,
        kept,
        &update.relation.definition,
        wanted,
    )
}

/// The changes that a DELETE makes on a replicated table: those of the snapshot's site that lead from the rows that the
/// snapshot shows to those on which not all of its terms are true.
///
/// `params` are the parameters' values, from number 1 on. The snapshot's changes are what a set of changes keeps.
///
/// # Errors
/// As those of `changes_of_update`.
pub fn changes_of_delete<F: Functions>(
    alloc: Global,
    functions: &F,
    snapshot: &Snapshot,
    delete: &Delete,
    params: &[Value],
) -> Result<Vec<Change>, Refusal>
    requires functions { F.is_faithful functions.now }
    requires kept { keep snapshot.now.kept ≡ snapshot.now.kept }
    requires key { has_key delete.now.relation.definition ≡ true }
    ensures { Changes (⟦<F as Hosted>⟧.means functions.now) params.now delete.now.relation.definition snapshot.now.site snapshot.now.kept (delete_wants snapshot.now delete.now) result (λ v. v.items) }
{
    let wanted = delete_wants(alloc, functions, snapshot, delete, params)?;
    let kept = snapshot.kept.as_slice();
    changes_to(
        alloc,
        &snapshot.site,
        kept,
        &delete.relation.definition,
        wanted,
    )
}
