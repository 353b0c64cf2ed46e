//! What stands against the names of a definition.

ghost use Rattle.std.specs.Prelude.{◌≡◌, [], map, IfOk};
ghost use Rattle.std.specs.List.{list_any};
ghost use Rattle.std.specs.Str.{bytes_eq};
ghost use Rattle.cr_resolve.specs.Known.{collations};
ghost use Rattle.cr_resolve.specs.Creates.{missing, or_none, repeats};
ghost use Rattle.cr_resolve.specs.Told.{Passes};
ghost use Rattle.cr_created.specs.Drafts.{against_columns, against_table};

use cr_lattice::profile::is_reserved;
use cr_lattice::table::ColumnDef;
use cr_resolve::known::check_collation;
use cr_resolve::naming::Naming;
use cr_resolve::refusal::Refusal;
use cr_tree::statement::{Column, Create};
use cr_value::text::Text;
use sqlite_items::Items;
use std::alloc::{AllocError, Global};

/// Tests that a new table may have its name, which is taken or not.
///
/// # Errors
/// `BadName` where it is reserved, then `TableExists` where it is taken and IF NOT EXISTS does not stand there; `Memory`.
pub(crate) fn check_table(alloc: Global, create: &Create, is_taken: bool) -> Result<(), Refusal>
    ensures { Passes (against_table create.now is_taken) result }
{
    if is_reserved(create.table.as_str().as_bytes()) {
        return Err(Refusal::BadName(create.table.copy(alloc)?));
    }
    if is_taken && !create.if_not_exists {
        return Err(Refusal::TableExists(create.table.copy(alloc)?));
    }
    Ok(())
}

fn has_name(names: &[Text], name: &Text) -> bool
    ensures { result ≡ list_any (bytes_eq name.now) names.now }
{
    names.iter().any(|other| name.as_str() == other.as_str())
}

// Tests that no name stands before itself. The first that does is `AmbiguousColumn`; `Memory`.
#[tactic(auto, using(crate::proofs::Repeats::next_name, crate::proofs::Repeats::repeated_name))]
fn check_distinct(alloc: Global, names: &[Text]) -> Result<(), Refusal>
    ensures { Passes (repeats [] names.now) result }
{
    for (i, name) in names.iter().enumerate() {
        if has_name(&names[..i], name) {
            return Err(Refusal::AmbiguousColumn(name.copy(alloc)?));
        }
    }
    Ok(())
}

// Tests that each name of a key is a column's. The first that is not is `NoSuchColumn`; `Memory`.
fn check_listed(alloc: Global, columns: &[Text], key: &[Text]) -> Result<(), Refusal>
    ensures { Passes (missing columns.now key.now) result }
{
    for name in key {
        if !has_name(columns, name) {
            return Err(Refusal::NoSuchColumn(name.copy(alloc)?));
        }
    }
    Ok(())
}

// The names of columns, copied.
fn names_of(alloc: Global, columns: &[Column]) -> Result<Items<Text>, AllocError>
    ensures { IfOk result (λ ns. ns ≡ map (λ c. c.name) columns.now) }
{
    let mut names = Items::new(alloc);
    for column in columns {
        names.push(column.name.copy(alloc)?)?;
    }
    Ok(names)
}

/// Tests the names of the columns and those of the key's list.
///
/// # Errors
/// `AmbiguousColumn` of a name that columns share, then `NoSuchColumn` of a key's that is no column's, then
/// `AmbiguousColumn` of one that stands in the list twice; `Memory`.
pub(crate) fn check_columns(
    alloc: Global,
    columns: &[Column],
    key: &Option<Items<Text>>,
) -> Result<(), Refusal>
    ensures { Passes (against_columns columns.now (or_none key.now)) result }
{
    let names = names_of(alloc, columns)?;
    check_distinct(alloc, names.as_slice())?;
    match key {
        Some(key) => {
            check_listed(alloc, names.as_slice(), key.as_slice())?;
            check_distinct(alloc, key.as_slice())
        }
        None => Ok(()),
    }
}

/// Tests that there is a collation of each column's name of one.
///
/// # Errors
/// `NoSuchCollation` of the first that is not there; `Memory`.
pub(crate) fn check_collations<K: Naming>(
    alloc: Global,
    known: &K,
    columns: &[ColumnDef],
) -> Result<(), Refusal>
    ensures { Passes (collations (K.known known.now) (map (λ c. c.collation) columns.now)) result }
{
    for column in columns {
        check_collation(alloc, known, &column.collation)?;
    }
    Ok(())
}
