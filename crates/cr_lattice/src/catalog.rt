//! The names that a statement can use.

ghost use Rattle.std.specs.Prelude.{◌≡◌, IfOk};

use crate::change::Site;
use crate::table::{Items, Table, TableDef};
use std::alloc::{AllocError, Global};

/// What a replica offers to a statement.
#[derive(Debug, Drop)]
pub struct Catalog {
    /// The tables of the replica's store.
    pub tables: Items<Table>,
    /// The name and the columns of each module.
    pub modules: Items<TableDef>,
    /// The replica's own site.
    pub site: Site,
    /// The version of the replica's last commit that changed a kept change, 0 before the first.
    pub db_version: i64,
}

/// The same tables in memory of their own.
pub fn copy_tables(alloc: Global, tables: &[Table]) -> Result<Items<Table>, AllocError>
    ensures { IfOk result (λ ts. ts ≡ tables.now) }
{
    let mut copies = Vec::new(alloc);
    for table in tables {
        copies.push(table.copy(alloc)?)?;
    }
    Ok(Items::new(copies))
}
