//! CREATE TABLE.

ghost use Rattle.std.specs.Prelude.{◌≡◌, IfOk};
ghost use Rattle.std.specs.Option.{is_some};
ghost use Rattle.cr_resolve.specs.Creates.{create as meant, is_taken};
ghost use Rattle.cr_resolve.specs.Told.{Finds};
ghost use Rattle.cr_created.specs.Drafts.{drafted, names_read};

use crate::column::column_defs;
use crate::names::{check_collations, check_columns, check_table};
use crate::profile::{check_limits, check_profile};
use cr_lattice::table::{ColumnDef, Items as Definitions, TableDef};
use cr_resolve::known::relation_of;
use cr_resolve::naming::Naming;
use cr_resolve::refusal::Refusal;
use cr_term::query::Create;
use cr_tree::statement::Create as Tree;
use std::alloc::{AllocError, Global};

// Whether a table or a module has that name.
fn is_taken<K: Naming>(alloc: Global, known: &K, create: &Tree) -> Result<bool, AllocError>
    ensures { IfOk result (λ b. b ≡ is_taken (K.known known.now) create.now) }
{
    Ok(relation_of(alloc, known, &create.table)?.is_some())
}

// The columns of a definition that is in the profile and within the limits.
#[tactic(auto, using(crate::proofs::Defined::types_fail, crate::proofs::Defined::profile_fails, crate::proofs::Defined::limits_fail, crate::proofs::Defined::drafts_found))]
fn columns(alloc: Global, create: &Tree) -> Result<Definitions<ColumnDef>, Refusal>
    ensures { Finds (drafted create.now) result }
{
    let columns = column_defs(alloc, &create.key, create.columns.as_slice())?;
    check_profile(create, columns.as_slice())?;
    check_limits(create, columns.as_slice())?;
    Ok(columns)
}

// Tests the names of a definition. It is told whether the table's is taken.
fn check_names<K: Naming>(
    alloc: Global,
    known: &K,
    create: &Tree,
    columns: &[ColumnDef],
) -> Result<bool, Refusal>
    ensures { Finds (names_read (K.known known.now) create.now columns.now) result }
{
    let is_taken = is_taken(alloc, known, create)?;
    check_table(alloc, create, is_taken)?;
    check_columns(alloc, create.columns.as_slice(), &create.key)?;
    check_collations(alloc, known, columns)?;
    Ok(is_taken)
}

/// The table that CREATE TABLE defines.
///
/// # Errors
/// The first that stands against it: `OutOfProfile`, then `Limit`, then of its names `BadName`, `TableExists`,
/// `AmbiguousColumn` for a column, `NoSuchColumn` and then `AmbiguousColumn` for those of the key, `NoSuchCollation`; `Memory`.
#[tactic(auto, using(crate::proofs::Defined::columns_fail, crate::proofs::Defined::names_fail, crate::proofs::Defined::created))]
pub fn create<K: Naming>(alloc: Global, known: &K, create: &Tree) -> Result<Create, Refusal>
    ensures { Finds (meant (K.known known.now) create.now) result }
{
    let columns = columns(alloc, create)?;
    let is_there = check_names(alloc, known, create, columns.as_slice())?;
    let name = create.table.copy(alloc)?;
    Ok(Create {
        definition: TableDef { name, columns },
        is_there,
    })
}
