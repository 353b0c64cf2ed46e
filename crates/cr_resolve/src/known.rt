//! What a statement may name.

ghost use Rattle.std.specs.Prelude.{◌≡◌, IfOk};
ghost use Rattle.cr_resolve.specs.Known.{table_at, module_at, relation_of, table, collation, is_function, is_site_id, is_db_version};
ghost use Rattle.cr_resolve.specs.Told.{Finds, Passes};

use crate::naming::Naming;
use crate::refusal::Refusal;
use cr_host::built_in::is_built_in_function;
use cr_lattice::table::{Table, TableDef};
use cr_term::query::{Held, Relation};
use cr_value::text::Text;
use std::alloc::{AllocError, Global};

// The table of that name, with its place in the list.
fn find_table(alloc: Global, tables: &[Table], name: &Text) -> Result<Option<Relation>, AllocError>
    ensures { IfOk result (λ r. r ≡ table_at name.now 0 tables.now) }
{
    for (place, table) in tables.iter().enumerate() {
        if name.as_str() == table.definition.name.as_str() {
            return Ok(Some(Relation {
                held: Held::Table(place, table.is_replicated),
                definition: table.definition.copy(alloc)?,
            }));
        }
    }
    Ok(None)
}

// The module of that name, with its place in the list.
fn find_module(
    alloc: Global,
    modules: &[TableDef],
    name: &Text,
) -> Result<Option<Relation>, AllocError>
    ensures { IfOk result (λ r. r ≡ module_at name.now 0 modules.now) }
{
    for (place, module) in modules.iter().enumerate() {
        if name.as_str() == module.name.as_str() {
            return Ok(Some(Relation {
                held: Held::Module(place),
                definition: module.copy(alloc)?,
            }));
        }
    }
    Ok(None)
}

/// The table or module of that name; a table comes first. `AllocError` where memory runs out.
pub fn relation_of<K: Naming>(
    alloc: Global,
    known: &K,
    name: &Text,
) -> Result<Option<Relation>, AllocError>
    ensures { IfOk result (λ r. r ≡ relation_of (K.known known.now) name.now) }
{
    let catalog = known.catalog();
    if let Some(relation) = find_table(alloc, catalog.tables.as_slice(), name)? {
        return Ok(Some(relation));
    }
    find_module(alloc, catalog.modules.as_slice(), name)
}

/// The table or module of that name.
///
/// # Errors
/// `NoSuchTable` just where there is none; `Memory`.
pub fn table<K: Naming>(alloc: Global, known: &K, name: &Text) -> Result<Relation, Refusal>
    ensures { Finds (table (K.known known.now) name.now) result }
{
    match relation_of(alloc, known, name)? {
        Some(relation) => Ok(relation),
        None => Err(Refusal::NoSuchTable(name.copy(alloc)?)),
    }
}

/// Whether some function has that name, whatever its count of arguments.
pub fn is_function<K: Naming>(known: &K, name: &Text) -> bool
    ensures { result ≡ is_function (K.known known.now) name.now }
{
    is_built_in_function(name.as_str())
        || is_site_id(name)
        || is_db_version(name)
        || known.has_function(name.as_str())
}

/// Whether it is the name of the function of the replica's own site.
pub fn is_site_id(name: &Text) -> bool
    ensures { result ≡ is_site_id name.now }
{
    name.as_str() == "crsql_site_id"
}

/// Whether it is the name of the function of the replica's version.
pub fn is_db_version(name: &Text) -> bool
    ensures { result ≡ is_db_version name.now }
{
    name.as_str() == "crsql_db_version"
}

/// Tests that there is a collation of that name.
///
/// # Errors
/// `NoSuchCollation` just where there is none; `Memory`.
pub fn check_collation<K: Naming>(alloc: Global, known: &K, name: &Text) -> Result<(), Refusal>
    ensures { Passes (collation (K.known known.now) name.now) result }
{
    if known.has_collation(name.as_str()) {
        Ok(())
    } else {
        Err(Refusal::NoSuchCollation(name.copy(alloc)?))
    }
}
