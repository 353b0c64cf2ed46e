//! Tables of a store: which may be added, which be replicated, and which changes are well formed for one of them.

ghost use Rattle.std.specs.Prelude.{◌≡◌, true, false, find, IfOk, OnOk, OnErr, ◌||◌, ◌&&◌};
ghost use Rattle.std.specs.List.{list_all};
ghost use Rattle.std.specs.Option.{option_copied};
ghost use Rattle.cr_lattice.specs.Check.{Checks};
ghost use Rattle.cr_cells.specs.Tables.{is_folded, has_folded_names, has_defaults, IsNewTable, is_named, is_markable, marked, with_replicated, with_table, with_column, altered, with_added, is_table_of, fault_in, first_fault, AreWellFormed};

use cr_lattice::change::Change;
use cr_lattice::check::{CheckError, check};
use cr_lattice::profile::{duplicate, no_default, profile};
use cr_lattice::table::{ColumnDef, Items, Table, TableDef};
use cr_value::order::same_bytes;
use std::alloc::{AllocError, Global};

/// Whether a name has no ASCII capital letter.
pub fn is_folded(name: &str) -> bool
    ensures { result ≡ is_folded name.now }
{
    name.as_bytes()
        .iter()
        .all(|byte| !(*byte > 64 && *byte < 91))
}

fn has_folded_columns(columns: &[ColumnDef]) -> bool
    ensures { result ≡ list_all (λ col. is_folded col.name && is_folded col.collation) columns.now }
{
    columns.iter().all(|column| is_folded(column.name.as_str())
        && is_folded(column.collation.as_str()))
}

/// Whether the names of a table, its columns and their collations are in ASCII lower case.
#[tactic(auto, unfolding(crate::specs::Tables::has_folded_names))]
pub fn has_folded_names(def: &TableDef) -> bool
    ensures { result ≡ has_folded_names def.now }
{
    is_folded(def.name.as_str()) && has_folded_columns(def.columns.as_slice())
}

/// Whether each column outside the key that wants a value has a default.
#[tactic(auto, unfolding(crate::specs::Tables::has_defaults))]
pub fn has_defaults(def: &TableDef) -> bool
    ensures { result ≡ has_defaults def.now }
{
    no_default(def).is_none()
}

fn is_named(table: &Table, name: &str) -> bool
    ensures { result ≡ is_named name.now table.now }
{
    same_bytes(table.definition.name.as_str().as_bytes(), name.as_bytes())
}

/// The table of that name.
pub fn table_named<'a>(tables: &'a [Table], name: &str) -> Option<&'a Table>
    ensures { option_copied result ≡ find (is_named name.now) tables.now }
{
    tables.iter().find(|table| is_named(table, name))
}

/// Whether a definition may be added beside the tables: its names are in ASCII lower case, it is within the profile, its
/// columns have distinct names, and no table has its name.
pub fn is_new_table(tables: &[Table], def: &TableDef) -> bool
    ensures new { result ≡ true → IsNewTable tables.now def.now }
    ensures not_new { result ≡ false → ¬ IsNewTable tables.now def.now }
{
    if !has_folded_names(def) {
        return false;
    }
    match profile(def) {
        Ok(()) => {}
        Err(_) => return false,
    }
    match duplicate(def) {
        None => {}
        Some(_) => return false,
    }
    table_named(tables, def.name.as_str()).is_none()
}

/// Whether a table of that name is there, and each of its columns outside the key that wants a value has a default.
#[tactic(auto, unfolding(crate::specs::Tables::is_markable))]
pub fn is_markable(tables: &[Table], name: &str) -> bool
    ensures { result ≡ is_markable name.now tables.now }
{
    tables.iter().any(|table| is_named(table, name) && has_defaults(&table.definition))
}

fn is_table_of(table: &Table, change: &Change) -> bool
    ensures { result ≡ is_table_of change.now table.now }
{
    table.is_replicated && is_named(table, change.table.as_str())
}

/// The replicated table of a change's table name.
pub fn table_of<'a>(tables: &'a [Table], change: &Change) -> Option<&'a Table>
    ensures { option_copied result ≡ find (is_table_of change.now) tables.now }
{
    tables.iter().find(|table| is_table_of(table, change))
}

/// Whether a change is well formed for a replicated table of its name.
///
/// # Errors
/// `Bad` with the first reason why it is not, or `Memory`.
#[tactic(auto, unfolding(crate::specs::Tables::fault_in))]
pub fn check_in(alloc: Global, tables: &[Table], change: &Change) -> Result<(), CheckError>
    ensures { Checks result (fault_in tables.now change.now) }
{
    match table_of(tables, change) {
        Some(table) => check(alloc, change, Some(&table.definition)),
        None => check(alloc, change, None),
    }
}

/// Whether each change is well formed for a replicated table of its name.
///
/// # Errors
/// `Bad` with the reason why the first that is not well formed is not, or `Memory`.
pub fn check_all(alloc: Global, tables: &[Table], changes: &[Change]) -> Result<(), CheckError>
    ensures first { Checks result (first_fault tables.now changes.now) }
    ensures each { OnOk result (AreWellFormed tables.now changes.now) }
{
    for change in changes {
        check_in(alloc, tables, change)?;
    }
    Ok(())
}

/// Copies of tables.
pub fn copies(alloc: Global, tables: &[Table]) -> Result<Vec<Table>, AllocError>
    ensures { IfOk result (λ v. v.items ≡ tables.now) }
{
    let mut out = Vec::new(alloc);
    for table in tables {
        out.push(table.copy(alloc)?)?;
    }
    Ok(out)
}

/// Adds a table.
pub fn add(
    alloc: Global,
    tables: &mut Vec<Table>,
    def: &TableDef,
    is_replicated: bool,
) -> Result<(), AllocError>
    ensures ok { OnOk result (tables.new.items ≡ with_table tables.old.items def.now is_replicated) }
    ensures err { OnErr result (tables.new.items ≡ tables.old.items) }
{
    tables.push(Table {
        definition: def.copy(alloc)?,
        is_replicated,
    })?;
    Ok(())
}

// A copy of a table, replicated if it is or has that name.
fn marked(alloc: Global, table: &Table, name: &str) -> Result<Table, AllocError>
    ensures { IfOk result (λ t. t ≡ marked name.now table.now) }
{
    Ok(Table {
        definition: table.definition.copy(alloc)?,
        is_replicated: table.is_replicated || is_named(table, name),
    })
}

/// Copies of tables, of which the one of that name is replicated.
#[tactic(auto, unfolding(crate::specs::Tables::with_replicated))]
pub fn with_replicated(
    alloc: Global,
    tables: &[Table],
    name: &str,
) -> Result<Vec<Table>, AllocError>
    ensures { IfOk result (λ v. v.items ≡ with_replicated name.now tables.now) }
{
    let mut out = Vec::new(alloc);
    for table in tables {
        out.push(marked(alloc, table, name)?)?;
    }
    Ok(out)
}

/// A definition with a column behind its others.
pub fn with_column(
    alloc: Global,
    def: &TableDef,
    column: &ColumnDef,
) -> Result<TableDef, AllocError>
    ensures { IfOk result (λ d. d ≡ with_column column.now def.now) }
{
    let TableDef { name, columns } = def.copy(alloc)?;
    let mut columns = columns.into_vec();
    columns.push(column.copy(alloc)?)?;
    Ok(TableDef {
        name,
        columns: Items::new(columns),
    })
}

// A copy of a table, which has the column if it is of that name.
fn altered(
    alloc: Global,
    table: &Table,
    name: &str,
    column: &ColumnDef,
) -> Result<Table, AllocError>
    ensures { IfOk result (λ t. t ≡ altered name.now column.now table.now) }
{
    if !is_named(table, name) {
        return table.copy(alloc);
    }
    Ok(Table {
        definition: with_column(alloc, &table.definition, column)?,
        is_replicated: table.is_replicated,
    })
}

/// Copies of tables, of which the one of that name has the column behind its others.
#[tactic(auto, unfolding(crate::specs::Tables::with_added))]
pub fn with_added(
    alloc: Global,
    tables: &[Table],
    name: &str,
    column: &ColumnDef,
) -> Result<Vec<Table>, AllocError>
    ensures { IfOk result (λ v. v.items ≡ with_added name.now column.now tables.now) }
{
    let mut out = Vec::new(alloc);
    for table in tables {
        out.push(altered(alloc, table, name, column)?)?;
    }
    Ok(out)
}
