//! What a statement may name on a replica.

ghost use Rattle.std.specs.Prelude.{◌≡◌, ◌++◌, map, IfOk, OnOk};
ghost use Rattle.cr_snapshot.specs.Seen.{catalog_of, definition_of};

use crate::changes::changes_definition;
use cr_lattice::catalog::{Catalog, copy_tables};
use cr_lattice::table::{Items, TableDef};
use cr_replica::snapshot::{Listing, Snapshot};
use std::alloc::{AllocError, Global};

// Puts copies of the definitions of listed modules behind others.
fn push_definitions(
    alloc: Global,
    definitions: &mut Vec<TableDef>,
    modules: &[Listing],
) -> Result<(), AllocError>
    ensures { OnOk result (definitions.new.items ≡ definitions.old.items ++ map definition_of modules.now) }
{
    for module in modules {
        definitions.push(module.definition.copy(alloc)?)?;
    }
    Ok(())
}

/// What a statement may name: the replica's tables, the table of changes and the modules; with the replica's site and version,
/// which it may ask for. Fails for want of memory alone.
pub fn catalog(alloc: Global, snapshot: &Snapshot) -> Result<Catalog, AllocError>
    ensures { IfOk result (λ c. c ≡ catalog_of snapshot.now) }
{
    let mut modules = Vec::new(alloc);
    modules.push(changes_definition(alloc)?)?;
    push_definitions(alloc, &mut modules, snapshot.modules.as_slice())?;
    Ok(Catalog {
        tables: copy_tables(alloc, snapshot.tables.as_slice())?,
        modules: Items::new(modules),
        site: snapshot.site,
        db_version: snapshot.version,
    })
}
