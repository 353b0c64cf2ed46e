//! The changes of a local write.

ghost use Rattle.std.specs.Prelude.{◌≡◌, ◌++◌, ◌+ℤ◌, pos, true, false, Err, map, IfOk, OnOk};
ghost use Rattle.std.specs.List.{flat_map, AllByRecursion};
ghost use Rattle.std.specs.List.Sorted.{IsStrictlySortedBy};
ghost use Rattle.cr_value.specs.Order.{bytes_cmp};
ghost use Rattle.cr_lattice.specs.Keep.{keep};
ghost use Rattle.cr_lattice.specs.Rows.{is_present, kept_change, column_value};
ghost use Rattle.cr_delta.specs.Adds.{Adds};
ghost use Rattle.cr_delta.specs.Key.{cells_of, key_of, HasKey};
ghost use Rattle.cr_delta.specs.Delta.{length_of, version_of, arrival, update, row_delta, delta, passes_limit};
ghost use Rattle.cr_delta.specs.Steps.{new_cell, changed_cell, removal};
ghost use Rattle.cr_delta.specs.declared.error.DeltaError.TheVariants.{VersionLimit};

use crate::changes::{column_change, next, row_change};
use crate::error::DeltaError;
use crate::key::{in_order, keys_of};
use crate::run::{has_key, row_run};
use crate::shown::{is_alive, row_change_of};
use cr_lattice::change::{Change, Site};
use cr_lattice::rows::{column_value, is_present, kept_change};
use cr_lattice::table::{ColumnDef, Row, TableDef};
use cr_value::order::cmp_binary;
use cr_value::text::Bytes;
use cr_value::value::Value;
use std::alloc::{AllocError, Global};

// The causal length of the row, 0 where nothing of it is kept.
#[tactic(auto, unfolding(crate::specs::Delta::length_of))]
fn length_of(kept: &[Change], table: &str, pk: &[u8]) -> i64
    ensures { result ≡ length_of kept.now table.now pk.now }
{
    match row_change_of(kept, table, pk) {
        Some(change) => change.cl,
        None => 0,
    }
}

// The version of what is kept of a column, 0 where nothing is.
#[tactic(auto, unfolding(crate::specs::Delta::version_of))]
fn version_of(kept: &[Change], table: &str, pk: &[u8], cid: &str) -> i64
    ensures { result ≡ version_of kept.now table.now pk.now cid.now }
{
    match kept_change(kept, table, pk, cid) {
        Some(change) => change.col_version,
        None => 0,
    }
}

// Adds a change of a column outside the key.
fn add_new_column(
    alloc: Global,
    out: &mut Vec<Change>,
    def: &TableDef,
    site: &Site,
    pk: &[u8],
    cl: i64,
    cell: (&ColumnDef, &Value),
) -> Result<(), AllocError>
    ensures { OnOk result (out.new.items ≡ out.old.items ++ new_cell def.now site.now pk.now cl (cell.entry.0.now, cell.entry.1.now)) }
{
    let (column, _) = cell;
    if column.key.is_none() {
        out.push(column_change(alloc, def, site, pk, cl, cell, 1)?)?;
    }
    Ok(())
}

// Adds a change of each column of a row that comes.
fn add_new_columns(
    alloc: Global,
    out: &mut Vec<Change>,
    def: &TableDef,
    site: &Site,
    pk: &[u8],
    cl: i64,
    row: &[Value],
) -> Result<(), AllocError>
    ensures { OnOk result (out.new.items ≡ out.old.items ++ flat_map (new_cell def.now site.now pk.now cl) (cells_of def.now row.now)) }
{
    for (column, value) in def.columns.as_slice().iter().zip(row) {
        add_new_column(alloc, out, def, site, pk, cl, (column, value))?;
    }
    Ok(())
}

// Adds the changes of a row that comes.
fn add_arrival(
    alloc: Global,
    out: &mut Vec<Change>,
    def: &TableDef,
    site: &Site,
    kept: &[Change],
    pk: &[u8],
    row: &[Value],
) -> Result<(), DeltaError>
    ensures { Adds result out.old.items out.new.items (arrival def.now site.now pk.now (length_of kept.now def.now.name pk.now +ℤ pos 1) row.now) }
{
    let cl = next(length_of(kept, def.name.as_str(), pk))?;
    out.push(row_change(alloc, def, site, pk, cl)?)?;
    add_new_columns(alloc, out, def, site, pk, cl, row)?;
    Ok(())
}

// Adds a change of a column outside the key where the value that it shows changes.
fn add_changed_column(
    alloc: Global,
    out: &mut Vec<Change>,
    def: &TableDef,
    site: &Site,
    kept: &[Change],
    pk: &[u8],
    cell: (&ColumnDef, &Value),
) -> Result<(), DeltaError>
    ensures { Adds result out.old.items out.new.items (changed_cell def.now site.now kept.now pk.now (cell.entry.0.now, cell.entry.1.now)) }
{
    let (column, value) = cell;
    let table = def.name.as_str();
    if column.key.is_some() {
        return Ok(());
    }
    let before = column_value(alloc, kept, table, pk, column)?;
    if cmp_binary(value, &before).is_eq() {
        return Ok(());
    }
    let cl = length_of(kept, table, pk);
    let version = next(version_of(kept, table, pk, column.name.as_str()))?;
    out.push(column_change(alloc, def, site, pk, cl, cell, version)?)?;
    Ok(())
}

// Adds the changes of a row that stays.
fn add_update(
    alloc: Global,
    out: &mut Vec<Change>,
    def: &TableDef,
    site: &Site,
    kept: &[Change],
    pk: &[u8],
    row: &[Value],
) -> Result<(), DeltaError>
    ensures { Adds result out.old.items out.new.items (update def.now site.now kept.now pk.now row.now) }
{
    for (column, value) in def.columns.as_slice().iter().zip(row) {
        add_changed_column(alloc, out, def, site, kept, pk, (column, value))?;
    }
    Ok(())
}

// Adds the changes at the key of a wanted row.
fn add_row(
    alloc: Global,
    out: &mut Vec<Change>,
    def: &TableDef,
    site: &Site,
    kept: &[Change],
    pk: &[u8],
    row: &[Value],
) -> Result<(), DeltaError>
    requires { keep kept.now ≡ kept.now }
    ensures { Adds result out.old.items out.new.items (row_delta def.now site.now kept.now pk.now row.now) }
{
    let table = def.name.as_str();
    let run = row_run(kept, table, pk);
    if is_alive(run, table, pk) {
        add_update(alloc, out, def, site, run, pk, row)
    } else {
        add_arrival(alloc, out, def, site, run, pk, row)
    }
}

// Adds the changes of all wanted rows, of which these are the keys.
fn add_rows(
    alloc: Global,
    out: &mut Vec<Change>,
    def: &TableDef,
    site: &Site,
    kept: &[Change],
    keys: &[Bytes],
    wanted: &[Row],
) -> Result<(), DeltaError>
    requires kept { keep kept.now ≡ kept.now }
    requires keys { keys.now ≡ map (key_of def.now) wanted.now }
    ensures { Adds result out.old.items out.new.items (flat_map (λ row. row_delta def.now site.now kept.now (key_of def.now row) row) wanted.now) }
{
    for (pk, row) in keys.iter().zip(wanted) {
        add_row(alloc, out, def, site, kept, pk.as_slice(), row.as_slice())?;
    }
    Ok(())
}

// Adds that each row goes that is present and not wanted. What the several changes of a row add is one change.
fn add_removals(
    alloc: Global,
    out: &mut Vec<Change>,
    def: &TableDef,
    site: &Site,
    kept: &[Change],
    keys: &[Bytes],
) -> Result<(), DeltaError>
    requires { IsStrictlySortedBy bytes_cmp keys.now }
    ensures { Adds result out.old.items out.new.items (flat_map (removal def.now site.now keys.now) kept.now) }
{
    for change in kept {
        if is_present(change, def.name.as_str()) && !has_key(keys, &change.pk) {
            let cl = next(change.cl)?;
            out.push(row_change(alloc, def, site, change.pk.as_slice(), cl)?)?;
        }
    }
    Ok(())
}

/// The changes that a write by `site` makes, in the order of changes: joined to what is kept they show the wanted rows.
///
/// A row that comes has the causal length 1, or one more than the even length that is kept of it, a change of the row
/// itself, and a change of version 1 of every column outside the key. A row that goes has a change of the row itself with
/// one more than its length. A row that stays has, for each column whose shown value changes, a change with one more than
/// the column's version (from 0 where nothing is kept) and the row's length.
///
/// `kept` is what a set of changes keeps, and each wanted row has a key that can be packed.
/// `VersionLimit` where a version or a causal length would pass 9223372036854775807; `Memory` where memory runs out.
pub fn delta(
    alloc: Global,
    def: &TableDef,
    kept: &[Change],
    wanted: &[Row],
    site: &Site,
) -> Result<Vec<Change>, DeltaError>
    requires kept { keep kept.now ≡ kept.now }
    requires keys { AllByRecursion (HasKey def.now) wanted.now }
    ensures value { IfOk result (λ v. v.items ≡ delta def.now site.now kept.now wanted.now) }
    ensures within { OnOk result (passes_limit (delta def.now site.now kept.now wanted.now) ≡ false) }
    ensures limit { result ≡ Err VersionLimit → passes_limit (delta def.now site.now kept.now wanted.now) ≡ true }
{
    let keys = keys_of(alloc, def, wanted)?;
    let mut out = Vec::new(alloc);
    add_rows(alloc, &mut out, def, site, kept, &keys, wanted)?;
    let keys = in_order(keys)?;
    add_removals(alloc, &mut out, def, site, kept, &keys)?;
    out.sort()?;
    out.dedup();
    Ok(out)
}
