//! Columns that get a value.

ghost use Rattle.std.specs.Prelude.{◌≡◌, [], length, position, IfOk};
ghost use Rattle.std.specs.List.{list_any, range_with_len};
ghost use Rattle.std.specs.Str.{bytes_eq};
ghost use Rattle.cr_resolve.specs.Told.{Finds};
ghost use Rattle.cr_resolve.specs.Writes.{targets};
ghost use Rattle.cr_written.specs.Targets.{target_once};

use cr_lattice::table::TableDef;
use cr_resolve::refusal::Refusal;
use cr_value::text::Text;
use sqlite_items::Items;
use std::alloc::{AllocError, Global};

// The place of the column of that name.
fn place_of(definition: &TableDef, name: &Text) -> Option<usize>
    ensures { result ≡ position (λ c. bytes_eq name.now c.name) definition.now.columns }
{
    definition
        .columns
        .as_slice()
        .iter()
        .position(|column| name.as_str() == column.name.as_str())
}

/// The place of a column that gets a value, which may have got one before.
///
/// # Errors
/// `NoSuchColumn` where the table has no column of that name, and else `AmbiguousColumn` where it got one before; `Memory`.
pub(crate) fn target(
    alloc: Global,
    definition: &TableDef,
    is_repeated: bool,
    name: &Text,
) -> Result<usize, Refusal>
    ensures { Finds (target_once definition.now is_repeated name.now) result }
{
    let Some(place) = place_of(definition, name) else {
        return Err(Refusal::NoSuchColumn(name.copy(alloc)?));
    };
    if is_repeated {
        Err(Refusal::AmbiguousColumn(name.copy(alloc)?))
    } else {
        Ok(place)
    }
}

// Whether a name stands among names.
fn has_name(names: &[Text], name: &Text) -> bool
    ensures { result ≡ list_any (bytes_eq name.now) names.now }
{
    names.iter().any(|other| name.as_str() == other.as_str())
}

/// The places of columns by their names.
///
/// # Errors
/// The first of the names, from left to right, that is `NoSuchColumn`, or `AmbiguousColumn` since it stands before; `Memory`.
pub(crate) fn targets(
    alloc: Global,
    definition: &TableDef,
    names: &[Text],
) -> Result<Items<usize>, Refusal>
    ensures { Finds (targets definition.now [] names.now) result }
{
    let mut places = Items::new(alloc);
    for (number, name) in names.iter().enumerate() {
        let is_repeated = has_name(&names[..number], name);
        let place = target(alloc, definition, is_repeated, name)?;
        places.push(place)?;
    }
    Ok(places)
}

/// The places of all columns, in their order. `AllocError` where memory runs out.
pub(crate) fn all_columns(alloc: Global, definition: &TableDef) -> Result<Items<usize>, AllocError>
    ensures { IfOk result (λ ps. ps ≡ range_with_len 0 (length definition.now.columns)) }
{
    let places = (0..definition.columns.as_slice().len()).collect(alloc)?;
    Ok(Items::from_vec(places))
}
