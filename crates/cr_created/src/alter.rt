//! ALTER TABLE ADD COLUMN.

ghost use Rattle.cr_resolve.specs.Creates.{against_column, alter as meant, has_column};
ghost use Rattle.std.specs.Prelude.{◌≡◌};
ghost use Rattle.std.specs.List.{list_any};
ghost use Rattle.std.specs.Str.{bytes_eq};
ghost use Rattle.cr_resolve.specs.Told.{Finds, Passes};
ghost use Rattle.cr_created.specs.Drafts.{added_outside};

use crate::column::{column_def, has_primary};
use cr_lattice::profile::{COLUMN_LIMIT, is_default_too_long, is_named_row};
use cr_lattice::table::{ColumnDef, TableDef};
use cr_resolve::known::{check_collation, table};
use cr_resolve::naming::Naming;
use cr_resolve::refusal::{Limit, Outside, Refusal};
use cr_term::query::Alter;
use cr_tree::statement::{Alter as Tree, Column};
use cr_value::text::Text;
use std::alloc::Global;

// Tests that a column whose type is none of REAL's may be added. `OutOfProfile`.
fn check_added(tree: &Column, column: &ColumnDef) -> Result<(), Refusal>
    ensures { Passes (added_outside tree.now column.now) result }
{
    if has_primary(tree.constraints.as_slice()) {
        return Err(Refusal::OutOfProfile(Outside::PrimaryKey));
    }
    if is_named_row(column) {
        return Err(Refusal::OutOfProfile(Outside::RowCid));
    }
    if is_default_too_long(column) {
        return Err(Refusal::OutOfProfile(Outside::Default));
    }
    Ok(())
}

fn has_column(columns: &[ColumnDef], name: &Text) -> bool
    ensures { result ≡ list_any (λ c. bytes_eq name.now c.name) columns.now }
{
    columns
        .iter()
        .any(|column| name.as_str() == column.name.as_str())
}

// Tests that a table may get a column. `AmbiguousColumn`, then `NoSuchCollation`, then `Limit`; `Memory`.
fn check_column<K: Naming>(
    alloc: Global,
    known: &K,
    definition: &TableDef,
    column: &ColumnDef,
) -> Result<(), Refusal>
    ensures { Passes (against_column (K.known known.now) definition.now column.now) result }
{
    let columns = definition.columns.as_slice();
    if has_column(columns, &column.name) {
        return Err(Refusal::AmbiguousColumn(column.name.copy(alloc)?));
    }
    check_collation(alloc, known, &column.collation)?;
    if columns.len() >= COLUMN_LIMIT {
        return Err(Refusal::Limit(Limit::Columns));
    }
    Ok(())
}

/// The column that ALTER TABLE adds, and the table that gets it.
///
/// # Errors
/// The first that stands against it: `OutOfProfile`, then `NoSuchTable`, `AmbiguousColumn` where the table has a column of
/// that name, `NoSuchCollation`, then `Limit` where it has as many columns as it may; `Memory`.
#[tactic(auto, using(crate::proofs::Defined::type_fails, crate::proofs::Defined::added_fails, crate::proofs::Defined::no_table_fails, crate::proofs::Defined::column_fails, crate::proofs::Defined::altered))]
pub fn alter<K: Naming>(alloc: Global, known: &K, alter: &Tree) -> Result<Alter, Refusal>
    ensures { Finds (meant (K.known known.now) alter.now) result }
{
    let column = column_def(alloc, &None, &alter.column)?;
    check_added(&alter.column, &column)?;
    let relation = table(alloc, known, &alter.table)?;
    check_column(alloc, known, &relation.definition, &column)?;
    Ok(Alter { relation, column })
}
