//! The table of changes: cr-sqlite's `crsql_changes`.

ghost use Rattle.std.specs.Prelude.{◌≡◌, IfOk};
ghost use Rattle.cr_world.specs.State.{change_column, changes_columns, changes_definition};

use cr_lattice::table::{ColumnDef, Items, TableDef};
use cr_value::affinity::Affinity;
use cr_value::text::Text;
use cr_value::value::Value;
use std::alloc::{AllocError, Global};

/// The name of the table of changes.
pub const CHANGES: &str = "crsql_changes";

// A column of the table of changes.
fn column(alloc: Global, name: &str, affinity: Affinity) -> Result<ColumnDef, AllocError>
    ensures { IfOk result (λ c. c ≡ change_column name.now affinity) }
{
    Ok(ColumnDef {
        name: Text::from_str(alloc, name)?,
        affinity,
        collation: Text::from_str(alloc, "binary")?,
        not_null: false,
        key: None,
        default: Value::Null,
    })
}

// The columns of the table of changes.
fn changes_columns(alloc: Global) -> Result<Items<ColumnDef>, AllocError>
    ensures { IfOk result (λ cs. cs ≡ changes_columns) }
{
    let mut columns = Vec::new(alloc);
    columns.push(column(alloc, "table", Affinity::Text)?)?;
    columns.push(column(alloc, "pk", Affinity::Blob)?)?;
    columns.push(column(alloc, "cid", Affinity::Text)?)?;
    columns.push(column(alloc, "val", Affinity::Blob)?)?;
    columns.push(column(alloc, "col_version", Affinity::Integer)?)?;
    columns.push(column(alloc, "db_version", Affinity::Integer)?)?;
    columns.push(column(alloc, "site_id", Affinity::Blob)?)?;
    columns.push(column(alloc, "cl", Affinity::Integer)?)?;
    columns.push(column(alloc, "seq", Affinity::Integer)?)?;
    Ok(Items::new(columns))
}

/// The definition of the table of changes. Fails for want of memory alone.
pub fn changes_definition(alloc: Global) -> Result<TableDef, AllocError>
    ensures { IfOk result (λ d. d ≡ changes_definition) }
{
    Ok(TableDef {
        name: Text::from_str(alloc, CHANGES)?,
        columns: changes_columns(alloc)?,
    })
}
