//! Which tables a replica defines.

ghost use Rattle.std.specs.Prelude.{◌≡◌, position, IfOk, MatchResult};
ghost use Rattle.std.specs.Option.{is_some};
ghost use Rattle.cr_replica.specs.Definition.{has_unknown_collation, is_taken, settled, with_settled_default, IsAccepted, IsRefusal, IsRefusedFor};

use cr_cells::store::{CellsError, StoreFault};
use cr_cells::tables::table_named;
use cr_host::functions::Functions;
use cr_lattice::profile::{ProfileFault, duplicate, no_default, profile};
use cr_lattice::table::{ColumnDef, Items, Table, TableDef};
use std::alloc::{AllocError, Global};
use thiserror::Error;

/// Why a table is not defined. Of several causes the first of this order is told: the profile, the table's name, its
/// columns' names, their collations, their defaults.
#[derive(Clone, Copy, Debug, PartialEq, Eq, Drop, Error)]
pub enum DefineError {
    /// Memory ran out.
    #[error("out of memory")]
    Memory,
    /// The store refused.
    #[error(transparent)]
    Store(StoreFault),
    /// The definition breaks a rule of the profile.
    #[error(transparent)]
    Profile(ProfileFault),
    /// A table has the name.
    #[error("a table has the name")]
    TableExists,
    /// The column at this place, from 0, has the name of one before it.
    #[error("the column at place {0} has the name of one before it")]
    Duplicate(usize),
    /// The column at this place has a collation that there is not.
    #[error("the column at place {0} has an unknown collation")]
    NoSuchCollation(usize),
    /// The column at this place is NOT NULL, outside the key, and has no default.
    #[error("the column at place {0} is NOT NULL, outside the key, and has no default")]
    NoDefault(usize),
}

impl From<AllocError> for DefineError {
    ghost use Rattle.std.specs.Prelude.{◌≡◌};
    ghost use Rattle.cr_replica.specs.declared.definition.DefineError.TheVariants.{Memory};

    ghost from_gives = { λ _ e. e ≡ Memory };

    fn from(_e: AllocError) -> DefineError {
        DefineError::Memory
    }
}

fn has_unknown_collation<F: Functions>(functions: &F, column: &ColumnDef) -> bool
    ensures { result ≡ has_unknown_collation (λ name. is_some (F.order_of functions.now name)) column.now }
{
    !functions.has_collation(column.collation.as_str())
}

fn first_unknown_collation<F: Functions>(functions: &F, columns: &[ColumnDef]) -> Option<usize>
    ensures { result ≡ position (has_unknown_collation (λ name. is_some (F.order_of functions.now name))) columns.now }
{
    columns
        .iter()
        .position(|column| has_unknown_collation(functions, column))
}

// Whether a table has the definition's name.
fn is_taken(tables: &[Table], def: &TableDef) -> bool
    ensures { result ≡ is_taken tables.now def.now }
{
    table_named(tables, def.name.as_str()).is_some()
}

/// What stands against a definition, if anything does, among tables and collations that are there.
///
/// # Errors
/// The first that stands against it. Takes no memory.
pub fn accept<F: Functions>(
    functions: &F,
    tables: &[Table],
    def: &TableDef,
) -> Result<(), DefineError>
    ensures { MatchResult result (λ _. IsAccepted (λ name. is_some (F.order_of functions.now name)) tables.now def.now)
        (λ e. IsRefusal e × IsRefusedFor (λ name. is_some (F.order_of functions.now name)) tables.now def.now e) }
{
    if let Err(fault) = profile(def) {
        return Err(DefineError::Profile(fault));
    }
    if is_taken(tables, def) {
        return Err(DefineError::TableExists);
    }
    if let Some(at) = duplicate(def) {
        return Err(DefineError::Duplicate(at));
    }
    if let Some(at) = first_unknown_collation(functions, def.columns.as_slice()) {
        return Err(DefineError::NoSuchCollation(at));
    }
    match no_default(def) {
        Some(at) => Err(DefineError::NoDefault(at)),
        None => Ok(()),
    }
}

// A column with its default as its affinity wants it.
fn with_settled_default(alloc: Global, column: &ColumnDef) -> Result<ColumnDef, AllocError>
    ensures { IfOk result (λ c. c ≡ with_settled_default column.now) }
{
    Ok(ColumnDef {
        default: column.affinity.apply(alloc, &column.default)?,
        ..column.copy(alloc)?
    })
}

/// A definition with its defaults as their affinities want them. Fails for want of memory alone.
pub(crate) fn settled(alloc: Global, def: &TableDef) -> Result<TableDef, AllocError>
    ensures { IfOk result (λ d. d ≡ settled def.now) }
{
    let mut columns = Vec::new(alloc);
    for column in def.columns.as_slice() {
        columns.push(with_settled_default(alloc, column)?)?;
    }
    Ok(TableDef {
        name: def.name.copy(alloc)?,
        columns: Items::new(columns),
    })
}

impl From<CellsError> for DefineError {
    ghost use Rattle.std.specs.Prelude.{◌≡◌};
    ghost use Rattle.cr_replica.specs.Definition.{of_store};

    ghost from_gives = { λ e d. d ≡ of_store e };

    fn from(e: CellsError) -> DefineError {
        match e {
            CellsError::Memory => DefineError::Memory,
            CellsError::Store(fault) => DefineError::Store(fault),
            // A store tells it of commits alone.
            CellsError::VersionLimit => DefineError::Store(StoreFault::Refused),
        }
    }
}
