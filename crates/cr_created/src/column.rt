//! The definition of a column.

ghost use Rattle.std.specs.Prelude.{◌≡◌, ◌++◌, ◌∷◌, [], codes, count_by, position, IfOk, OnOk};
ghost use Rattle.std.specs.List.{list_any};
ghost use Rattle.std.specs.Option.{option_copied, unwrap_or};
ghost use Rattle.std.specs.Str.{bytes_eq};
ghost use Rattle.cr_value.specs.declared.value.Value.TheVariants.{Null};
ghost use Rattle.cr_value.specs.Affinity.{applied};
ghost use Rattle.cr_resolve.specs.Creates.{affinity_of, collation_after, default_after, is_not_null, is_primary, listed_place};
ghost use Rattle.cr_resolve.specs.Told.{Finds};
ghost use Rattle.cr_created.specs.Drafts.{column_read, columns_read, key_place};

use cr_lattice::profile::BINARY;
use cr_lattice::table::{ColumnDef, Items as Definitions};
use cr_resolve::refusal::{Outside, Refusal};
use cr_tree::statement::{Column, Constraint};
use cr_tree::type_name::type_name;
use cr_value::affinity::Affinity;
use cr_value::text::Text;
use cr_value::value::Value;
use sqlite_items::Items;
use std::alloc::{AllocError, Global};

// The greatest place in a key that is told: a key with more columns is refused, and not by its places.
const LAST_PLACE: usize = 255;

fn is_primary(constraint: &Constraint) -> bool
    ensures { result ≡ is_primary constraint.now }
{
    matches!(constraint, Constraint::PrimaryKey)
}

fn is_not_null(constraint: &Constraint) -> bool
    ensures { result ≡ is_not_null constraint.now }
{
    matches!(constraint, Constraint::NotNull)
}

/// Whether PRIMARY KEY stands among the constraints of a column.
pub(crate) fn has_primary(constraints: &[Constraint]) -> bool
    ensures { result ≡ list_any is_primary constraints.now }
{
    constraints.iter().any(|constraint| is_primary(constraint))
}

/// How often PRIMARY KEY stands among the constraints of a column.
pub(crate) fn count_primary(constraints: &[Constraint]) -> usize
    ensures { result ≡ count_by is_primary constraints.now }
{
    constraints
        .iter()
        .filter(|constraint| is_primary(constraint))
        .count()
}

fn has_not_null(constraints: &[Constraint]) -> bool
    ensures { result ≡ list_any is_not_null constraints.now }
{
    constraints.iter().any(|constraint| is_not_null(constraint))
}

// The value of the last DEFAULT.
fn last_default(constraints: &[Constraint]) -> Option<&Value>
    ensures { unwrap_or (option_copied result) Null ≡ default_after Null constraints.now }
{
    let mut last = None;
    for constraint in constraints {
        if let Constraint::Default(value) = constraint {
            last = Some(value);
        }
    }
    last
}

// The default of a column of that affinity: NULL where there is none.
fn default_of(
    alloc: Global,
    affinity: Affinity,
    constraints: &[Constraint],
) -> Result<Value, AllocError>
    ensures { IfOk result (λ v. v ≡ applied affinity (default_after Null constraints.now)) }
{
    match last_default(constraints) {
        Some(value) => affinity.apply(alloc, value),
        None => Ok(Value::Null),
    }
}

// The name of the last COLLATE.
fn collation_of(constraints: &[Constraint]) -> &str
    ensures { result.now ≡ collation_after (codes "binary") constraints.now }
{
    let mut last = BINARY;
    for constraint in constraints {
        if let Constraint::Collate(name) = constraint {
            last = name.as_str();
        }
    }
    last
}

// The affinity of a column's type; none is REAL's.
#[tactic(auto, using(cr_resolve::proofs::Words::spaced_is))]
fn affinity_of(alloc: Global, column: &Column) -> Result<Option<Affinity>, AllocError>
    ensures { IfOk result (λ a. a ≡ affinity_of column.now) }
{
    let name = type_name(alloc, column.type_words.as_slice())?;
    Ok(Affinity::of_type(name.as_str()))
}

// The place of a name in a list, from 0.
fn place_of(names: &[Text], name: &Text) -> Option<usize>
    ensures { result ≡ position (bytes_eq name.now) names.now }
{
    names
        .iter()
        .position(|listed| name.as_str() == listed.as_str())
}

// The place of a name in a list, from 1, if there is a list and it stands there.
fn listed_place(key: &Option<Items<Text>>, name: &Text) -> Option<usize>
    ensures { result ≡ listed_place key.now name.now }
{
    let place = place_of(key.as_ref()?.as_slice(), name)?;
    Some(place + 1)
}

// The place of a column in the primary key, from 1; one over 255 stands as 255.
fn key_place(key: &Option<Items<Text>>, column: &Column) -> Option<u8>
    ensures { result ≡ key_place key.now column.now }
{
    match listed_place(key, &column.name) {
        Some(place) => Some(place.min(LAST_PLACE) as u8),
        None => if has_primary(column.constraints.as_slice()) {
            Some(1)
        } else {
            None
        },
    }
}

/// The definition of a column of a table whose primary key stands behind the columns, if it does. A place in the key of
/// over 255 stands as 255.
///
/// # Errors
/// `OutOfProfile(Real)` just where the type is REAL's; `Memory`.
#[tactic(auto, unfolding(crate::specs::Drafts::draft))]
pub(crate) fn column_def(
    alloc: Global,
    key: &Option<Items<Text>>,
    column: &Column,
) -> Result<ColumnDef, Refusal>
    ensures { Finds (column_read key.now column.now) result }
{
    let Some(affinity) = affinity_of(alloc, column)? else {
        return Err(Refusal::OutOfProfile(Outside::Real));
    };
    let constraints = column.constraints.as_slice();
    Ok(ColumnDef {
        name: column.name.copy(alloc)?,
        affinity,
        collation: Text::from_str(alloc, collation_of(constraints))?,
        not_null: has_not_null(constraints),
        key: key_place(key, column),
        default: default_of(alloc, affinity, constraints)?,
    })
}

// Appends a definition. `AllocError` where memory runs out.
fn push(definitions: &mut Vec<ColumnDef>, definition: ColumnDef) -> Result<(), AllocError>
    ensures { OnOk result (definitions.new.items ≡ definitions.old.items ++ definition ∷ []) }
{
    definitions.push(definition)?;
    Ok(())
}

/// The definitions of the columns of a table.
///
/// # Errors
/// `OutOfProfile(Real)` just where the type of some column is REAL's; `Memory`.
#[tactic(auto, using(crate::proofs::Drafted::next, crate::proofs::Drafted::fails, cr_resolve::proofs::Refusals::ahead))]
pub(crate) fn column_defs(
    alloc: Global,
    key: &Option<Items<Text>>,
    columns: &[Column],
) -> Result<Definitions<ColumnDef>, Refusal>
    ensures { Finds (columns_read key.now columns.now) result }
{
    let mut definitions = Vec::new(alloc);
    for column in columns {
        push(&mut definitions, column_def(alloc, key, column)?)?;
    }
    Ok(Definitions::new(definitions))
}
