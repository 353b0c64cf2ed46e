//! What a replica holds at a moment.

ghost use Rattle.std.specs.Prelude.{◌≡◌, map, IfOk};
ghost use Rattle.std.specs.List.{list_all};
ghost use Rattle.cr_replica.specs.Snapshots.{is_in_profile};

use cr_lattice::change::{Change, Site};
use cr_lattice::profile::profile;
use cr_lattice::stamped::Stamped;
use cr_lattice::table::{Items, Row, Table, TableDef};
use std::alloc::{AllocError, Global};

/// A host's table module at a moment.
#[derive(Debug, Drop)]
pub struct Listing {
    /// What it is called, and its columns.
    pub definition: TableDef,
    /// Its rows, none where they were not read.
    pub rows: Items<Row>,
}

/// What a replica holds at a moment, but for the marks of its peers, and the table modules that a host has beside it.
#[derive(Debug, Drop)]
pub struct Snapshot {
    /// The tables in the order in which they came.
    pub tables: Items<Table>,
    /// The replica's own site.
    pub site: Site,
    /// How many commits changed a kept change.
    pub version: i64,
    /// The kept changes with their stamps, by version, then by place.
    pub cells: Items<Stamped>,
    /// The kept changes, in the order of changes.
    pub kept: Items<Change>,
    /// The modules in the order in which they were registered.
    pub modules: Items<Listing>,
}

fn is_in_profile(table: &Table) -> bool
    ensures { result ≡ is_in_profile table.now }
{
    profile(&table.definition).is_ok()
}

/// Whether each table is in the profile.
pub(crate) fn are_in_profile(tables: &[Table]) -> bool
    ensures { result ≡ list_all is_in_profile tables.now }
{
    tables.iter().all(|table| is_in_profile(table))
}

/// The changes of the cells, in memory of their own.
pub(crate) fn copied_changes(alloc: Global, cells: &[Stamped]) -> Result<Vec<Change>, AllocError>
    ensures { IfOk result (λ changes. changes.items ≡ map (λ s. s.change) cells.now) }
{
    let mut changes = Vec::new(alloc);
    for cell in cells {
        changes.push(cell.change.copy(alloc)?)?;
    }
    Ok(changes)
}
