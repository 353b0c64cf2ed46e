//! Which keys changes touch.

ghost use Rattle.std.specs.Prelude.{◌≡◌, map, filter, find, IfOk};
ghost use Rattle.std.specs.Option.{option_copied};
ghost use Rattle.cr_value.specs.Order.{bytes_cmp};
ghost use Rattle.cr_lattice.specs.Sets.{set_of};
ghost use Rattle.cr_cells.specs.Holding.{is_of_table};
ghost use Rattle.cr_cells.specs.Tables.{is_named};
ghost use Rattle.cr_world.specs.State.{by_name};
ghost use Rattle.cr_heard.specs.Touched.{touched_keys, touched_of, touched_named, touched};

use crate::touched::Touched;
use cr_lattice::change::Change;
use cr_lattice::table::{Items, Table};
use cr_value::order::same_bytes;
use cr_value::text::{Bytes, Text};
use std::alloc::{AllocError, Global};

// The names of the tables of changes, as they come.
fn tables_of(alloc: Global, changes: &[Change]) -> Result<Vec<Text>, AllocError>
    ensures { IfOk result (λ v. v.items ≡ map (λ c. c.table) changes.now) }
{
    let mut names = Vec::new(alloc);
    for change in changes {
        names.push(change.table.copy(alloc)?)?;
    }
    Ok(names)
}

// The same by their bytes, each once.
fn names_of(alloc: Global, changes: &[Change]) -> Result<Vec<Text>, AllocError>
    ensures { IfOk result (λ v. v.items ≡ set_of bytes_cmp (map (λ c. c.table) changes.now)) }
{
    let mut names = tables_of(alloc, changes)?;
    names.sort()?;
    names.dedup();
    Ok(names)
}

// The keys of the changes of a table, as they come.
fn keys_of(alloc: Global, changes: &[Change], table: &str) -> Result<Vec<Bytes>, AllocError>
    ensures { IfOk result (λ v. v.items ≡ map (λ c. c.pk) (filter (is_of_table table.now) changes.now)) }
{
    let mut keys = Vec::new(alloc);
    for change in changes {
        if same_bytes(change.table.as_str().as_bytes(), table.as_bytes()) {
            keys.push(change.pk.copy(alloc)?)?;
        }
    }
    Ok(keys)
}

// The same by their bytes, each once.
fn touched_keys(alloc: Global, changes: &[Change], table: &str) -> Result<Vec<Bytes>, AllocError>
    ensures { IfOk result (λ v. v.items ≡ touched_keys table.now changes.now) }
{
    let mut keys = keys_of(alloc, changes, table)?;
    keys.sort()?;
    keys.dedup();
    Ok(keys)
}

// The table of a name: the last of several.
fn table_of<'a>(tables: &'a [Table], name: &str) -> Option<&'a Table>
    ensures { option_copied result ≡ find (is_named name.now) (by_name tables.now) }
{
    let mut found = None;
    for table in tables {
        if same_bytes(table.definition.name.as_str().as_bytes(), name.as_bytes()) {
            found = Some(table);
        }
    }
    found
}

// Of a replicated table, the keys under which some of the changes stand; `None` where there are none.
#[tactic(auto, unfolding(crate::specs::Touched::touched_of), using(crate::proofs::ByName::none_in, crate::proofs::ByName::some_in))]
fn touched_of(
    alloc: Global,
    table: &Table,
    changes: &[Change],
) -> Result<Option<Touched>, AllocError>
    ensures { IfOk result (λ o. o ≡ touched_of changes.now table.now) }
{
    if !table.is_replicated {
        return Ok(None);
    }
    let keys = touched_keys(alloc, changes, table.definition.name.as_str())?;
    if keys.is_empty() {
        return Ok(None);
    }
    Ok(Some(Touched {
        definition: table.definition.copy(alloc)?,
        keys: Items::new(keys),
    }))
}

// The same of the table of a name; `None` where there is no such table.
fn touched_named(
    alloc: Global,
    tables: &[Table],
    changes: &[Change],
    name: &str,
) -> Result<Option<Touched>, AllocError>
    ensures { IfOk result (λ o. o ≡ touched_named tables.now changes.now name.now) }
{
    match table_of(tables, name) {
        Some(table) => touched_of(alloc, table, changes),
        None => Ok(None),
    }
}

/// Which keys of which replicated tables changes touch: the tables by the bytes of their names, the keys by their bytes.
/// Takes time in proportion to the tables that are touched, times all tables and changes. Fails for want of memory alone.
pub fn touched(
    alloc: Global,
    tables: &[Table],
    changes: &[Change],
) -> Result<Vec<Touched>, AllocError>
    ensures { IfOk result (λ v. v.items ≡ touched tables.now changes.now) }
{
    let names = names_of(alloc, changes)?;
    let mut all = Vec::new(alloc);
    for name in &names {
        if let Some(one) = touched_named(alloc, tables, changes, name.as_str())? {
            all.push(one)?;
        }
    }
    Ok(all)
}
