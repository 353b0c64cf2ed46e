//! Which definitions of tables are accepted. The rules are this project's own profile of SQLite's CREATE TABLE.

ghost use Rattle.std.specs.Prelude.{◌≡◌, ◌||◌, None, Some, count_by, position, MatchResult, IfSome, IfNone};
ghost use Rattle.std.specs.List.{list_any};
ghost use Rattle.std.specs.Option.{is_some};
ghost use Rattle.cr_value.specs.declared.value.Value.TheVariants.{Text};
ghost use Rattle.cr_lattice.specs.Check.{same_bytes, stands_at};
ghost use Rattle.cr_lattice.specs.Profile.{has_key, is_collated_key, is_named_row, has_row_cid, is_too_long, is_default_too_long, is_reserved, profile_fault, HasDistinctNames, IsFirstRepeat, lacks_default};

use crate::check::{key_len, stands_at};
use crate::order::ROW_CID;
use crate::table::{ColumnDef, TableDef};
use cr_value::affinity::{Affinity, int_of_text};
use cr_value::order::same_bytes;
use cr_value::packing::SIZE_LIMIT;
use cr_value::value::Value;
use thiserror::Error;

/// The greatest number of columns of a table.
pub const COLUMN_LIMIT: usize = 200;

/// The greatest number of columns of a table's key.
pub const KEY_COLUMN_LIMIT: usize = 8;

/// The collation that compares texts byte by byte, which every key column has.
pub const BINARY: &str = "binary";

// A text or a blob that is packed alone stands after the count of values, its tag and its length in four bytes.
const LONGEST_IN_KEY: usize = SIZE_LIMIT - 6;

/// The first rule that a definition breaks, in the order in which the rules are tested.
#[derive(Clone, Copy, Debug, PartialEq, Eq, Error)]
pub enum ProfileFault {
    /// No column is in the key, or the places in the key are not 1 up to their number, each once.
    #[error("no column is in the primary key, or its places are not 1, 2 and so on")]
    PrimaryKey,
    /// A key column has another collation than `binary`.
    #[error("a key column has another collation than binary")]
    Collation,
    /// A column has the name `-1`, which speaks of the row itself.
    #[error("a column has the name -1")]
    RowCid,
    /// A default, after the column's affinity, makes a packed key of over 1,000,000 bytes.
    #[error("a default is too long for a packed key")]
    Default,
    /// There are over 200 columns.
    #[error("the table has over 200 columns")]
    Columns,
    /// There are over 8 key columns.
    #[error("the key has over 8 columns")]
    KeyColumns,
    /// The table's name is empty, or begins with `sqlite_` or `crsql_`.
    #[error("the name of the table is empty or reserved")]
    Name,
}

fn count_at(columns: &[ColumnDef], place: usize) -> usize
    ensures { result ≡ count_by (stands_at place) columns.now }
{
    columns
        .iter()
        .filter(|column| stands_at(place, column))
        .count()
}

#[tactic(auto, unfolding(crate::specs::Profile::has_key))]
fn has_key(def: &TableDef) -> bool
    ensures { result ≡ has_key def.now }
{
    let columns = def.columns.as_slice();
    let count = key_len(columns);
    for before in 0..count {
        if count_at(columns, before + 1) != 1 {
            return false;
        }
    }
    count > 0
}

fn is_collated_key(column: &ColumnDef) -> bool
    ensures { result ≡ is_collated_key column.now }
{
    column.key.is_some() && !same_bytes(column.collation.as_str().as_bytes(), BINARY.as_bytes())
}

/// Whether a column of the key compares by another collation than BINARY. Takes no memory.
pub fn has_collated_key(columns: &[ColumnDef]) -> bool
    ensures { result ≡ list_any is_collated_key columns.now }
{
    columns.iter().any(|column| is_collated_key(column))
}

/// Whether a column has the name that speaks of the row itself. Takes no memory.
pub fn is_named_row(column: &ColumnDef) -> bool
    ensures { result ≡ is_named_row column.now }
{
    same_bytes(column.name.as_str().as_bytes(), ROW_CID.as_bytes())
}

/// Whether one of the columns has the name that speaks of the row itself. Takes no memory.
pub fn has_named_row(columns: &[ColumnDef]) -> bool
    ensures { result ≡ list_any is_named_row columns.now }
{
    columns.iter().any(|column| is_named_row(column))
}

fn is_text_too_long(affinity: Affinity, text: &str) -> bool
    ensures { result ≡ is_too_long affinity (Text text.now) }
{
    match affinity {
        Affinity::Integer | Affinity::Numeric => text.len() > LONGEST_IN_KEY
            && int_of_text(text).is_none(),
        Affinity::Text | Affinity::Blob => text.len() > LONGEST_IN_KEY,
    }
}

/// Whether a column's default makes a packed key over the limit. Takes no memory.
pub fn is_default_too_long(column: &ColumnDef) -> bool
    ensures { result ≡ is_default_too_long column.now }
{
    match &column.default {
        Value::Null => false,
        // An integer of 64 bits has 19 digits at most. The proof knows that a number behind a reference has 64 bits only
        // where the code reads it.
        Value::Int(number) => {
            let _number = *number;
            false
        }
        Value::Text(text) => is_text_too_long(column.affinity, text.as_str()),
        Value::Blob(blob) => blob.as_slice().len() > LONGEST_IN_KEY,
    }
}

/// Whether one of the columns' defaults makes a packed key over the limit. Takes no memory.
pub fn has_default_too_long(columns: &[ColumnDef]) -> bool
    ensures { result ≡ list_any is_default_too_long columns.now }
{
    columns.iter().any(|column| is_default_too_long(column))
}

/// Whether no table and no module may have a name: the empty one, and those that begin with `sqlite_` or `crsql_`. The name is folded.
/// Takes no memory.
pub fn is_reserved(name: &[u8]) -> bool
    ensures { result ≡ is_reserved name.now }
{
    name.is_empty() || name.starts_with(b"sqlite_") || name.starts_with(b"crsql_")
}

/// Whether a definition is accepted, or the first rule that it breaks. Whether its names are folded is the caller's.
/// Takes no memory.
#[tactic(auto, unfolding(crate::specs::Profile::profile_fault, crate::specs::Profile::has_row_cid))]
pub fn profile(def: &TableDef) -> Result<(), ProfileFault>
    ensures { MatchResult result (λ _. profile_fault def.now ≡ None) (λ fault. profile_fault def.now ≡ Some fault) }
{
    let columns = def.columns.as_slice();
    if !has_key(def) {
        return Err(ProfileFault::PrimaryKey);
    }
    if has_collated_key(columns) {
        return Err(ProfileFault::Collation);
    }
    if has_named_row(columns) {
        return Err(ProfileFault::RowCid);
    }
    if has_default_too_long(columns) {
        return Err(ProfileFault::Default);
    }
    if columns.len() > COLUMN_LIMIT {
        return Err(ProfileFault::Columns);
    }
    if key_len(columns) > KEY_COLUMN_LIMIT {
        return Err(ProfileFault::KeyColumns);
    }
    if is_reserved(def.name.as_str().as_bytes()) {
        return Err(ProfileFault::Name);
    }
    Ok(())
}

fn has_name(column: &ColumnDef, name: &[u8]) -> bool
    ensures { result ≡ same_bytes column.now.name name.now }
{
    same_bytes(column.name.as_str().as_bytes(), name)
}

fn some_has_name(columns: &[ColumnDef], name: &[u8]) -> bool
    ensures { result ≡ list_any (λ c. same_bytes c.name name.now) columns.now }
{
    columns.iter().any(|column| has_name(column, name))
}

/// The place, from 0, of the first column whose name a column before it has; `None` where all names differ.
/// Takes no memory.
pub fn duplicate(def: &TableDef) -> Option<usize>
    ensures repeated { IfSome result (IsFirstRepeat def.now) }
    ensures distinct { IfNone result (HasDistinctNames def.now) }
{
    let columns = def.columns.as_slice();
    for (i, column) in columns.iter().enumerate() {
        if some_has_name(&columns[..i], column.name.as_str().as_bytes()) {
            return Some(i);
        }
    }
    None
}

/// Whether a column is NOT NULL and outside the key, and its default is NULL: a row can't leave it out.
pub fn lacks_default(column: &ColumnDef) -> bool
    ensures { result ≡ lacks_default column.now }
{
    column.key.is_none() && column.not_null && matches!(&column.default, Value::Null)
}

fn first_without_default(columns: &[ColumnDef]) -> Option<usize>
    ensures { result ≡ position lacks_default columns.now }
{
    columns.iter().position(|column| lacks_default(column))
}

/// The place, from 0, of the first NOT NULL column outside the key whose default is NULL, which keeps a table from
/// being replicated; `None` where there is none. Takes no memory.
pub fn no_default(def: &TableDef) -> Option<usize>
    ensures { result ≡ position lacks_default def.now.columns }
{
    first_without_default(def.columns.as_slice())
}
