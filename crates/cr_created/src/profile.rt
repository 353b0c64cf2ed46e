//! What of a definition is out of this SQL's profile or over its limits.

ghost use Rattle.std.specs.Prelude.{◌≡◌, ◌^◌, ◌-◌, ◌==◌, min, count_by, length};
ghost use Rattle.cr_lattice.specs.Check.{is_key_column};
ghost use Rattle.cr_resolve.specs.Creates.{clauses, or_none, over_limits};
ghost use Rattle.cr_resolve.specs.Told.{Passes};
ghost use Rattle.cr_created.specs.Drafts.{outside_types, primaries, table_of};

use crate::column::count_primary;
use cr_lattice::profile::{
    COLUMN_LIMIT, KEY_COLUMN_LIMIT, has_collated_key, has_default_too_long, has_named_row,
};
use cr_lattice::table::ColumnDef;
use cr_resolve::refusal::{Limit, Outside, Refusal};
use cr_tree::statement::{Column, Create};
use cr_value::text::Text;
use sqlite_items::Items;

// ---- the columns of a table

fn count_key(columns: &[ColumnDef]) -> usize
    ensures { result ≡ count_by is_key_column columns.now }
{
    columns.iter().filter(|column| column.key.is_some()).count()
}

// How often PRIMARY KEY is written at a column. So many that their number is no number of 64 bits stand as the greatest.
fn count_at_columns(columns: &[Column]) -> usize
    ensures { result ≡ min (primaries columns.now) (2 ^ 64 - 1) }
{
    let mut count: usize = 0;
    for column in columns {
        count = count.saturating_add(count_primary(column.constraints.as_slice()));
    }
    count
}

fn key_len(key: &Option<Items<Text>>) -> usize
    ensures { result ≡ length (or_none key.now) }
{
    match key {
        Some(names) => names.len(),
        None => 0,
    }
}

// Whether PRIMARY KEY is written once.
fn has_one_key(create: &Create) -> bool
    ensures { result ≡ (clauses create.now == 1) }
{
    let behind = key_len(&create.key).min(1);
    count_at_columns(create.columns.as_slice()).saturating_add(behind) == 1
}

/// Tests that a definition whose columns have types is in the profile.
///
/// # Errors
/// `OutOfProfile`: first where PRIMARY KEY is not written once, then a key column with another collation than `binary`, a
/// column of the name `-1`, a default that makes a packed key over the limit.
pub(crate) fn check_profile(create: &Create, columns: &[ColumnDef]) -> Result<(), Refusal>
    ensures { Passes (outside_types create.now columns.now) result }
{
    if !has_one_key(create) {
        return Err(Refusal::OutOfProfile(Outside::PrimaryKey));
    }
    if has_collated_key(columns) {
        return Err(Refusal::OutOfProfile(Outside::Collate));
    }
    if has_named_row(columns) {
        return Err(Refusal::OutOfProfile(Outside::RowCid));
    }
    if has_default_too_long(columns) {
        return Err(Refusal::OutOfProfile(Outside::Default));
    }
    Ok(())
}

/// Tests that there are no more columns, and no more of them in the key, than a table may have. A list of key columns
/// counts as it is written.
///
/// # Errors
/// `Limit`: first the columns, then those of the key.
pub(crate) fn check_limits(create: &Create, columns: &[ColumnDef]) -> Result<(), Refusal>
    ensures { Passes (over_limits create.now (table_of create.now columns.now)) result }
{
    if columns.len() > COLUMN_LIMIT {
        return Err(Refusal::Limit(Limit::Columns));
    }
    if count_key(columns).max(key_len(&create.key)) > KEY_COLUMN_LIMIT {
        return Err(Refusal::Limit(Limit::KeyColumns));
    }
    Ok(())
}
