//! What a statement sees of a replica, as a source: the tables that it names, by their places.

ghost use Rattle.std.specs.Prelude.{◌≡◌, find, IfOk};
ghost use Rattle.std.specs.Option.{option_copied};
ghost use Rattle.cr_snapshot.specs.Seen.{is_listing, rows_listed, rows_seen};
ghost use Rattle.cr_world.specs.State.{table_rows};
ghost use Rattle.cr_tables.specs.Views.{rows_before};

use crate::standing::{Standing, read_kept};
use cr_cells::tables::table_named;
use cr_lattice::change::Change;
use cr_lattice::table::{Row, Table};
use cr_module::source::{ReadFault, Source};
use cr_replica::snapshot::{Listing, Snapshot};
use cr_snapshot::changes::CHANGES;
use cr_term::query::Joined;
use cr_value::order::same_bytes;
use cr_value::value::Value;
use std::alloc::{AllocError, Global};

/// The tables that a query names, in the order of FROM, over what is seen of a replica.
#[derive(Drop)]
pub struct View<'a> {
    pub snapshot: &'a Snapshot,
    pub joined: &'a [Joined],
}

fn is_listing(listing: &Listing, name: &str) -> bool
    ensures { result ≡ is_listing name.now listing.now }
{
    same_bytes(listing.definition.name.as_str().as_bytes(), name.as_bytes())
}

// The listed module of a name.
fn module_named<'a>(modules: &'a [Listing], name: &str) -> Option<&'a Listing>
    ensures { option_copied result ≡ find (is_listing name.now) modules.now }
{
    modules.iter().find(|listing| is_listing(listing, name))
}

// The rows of the listed module of a name, none where no module has it.
fn rows_listed<'a>(modules: &'a [Listing], name: &str) -> &'a [Row]
    ensures { result.now ≡ rows_listed modules.now name.now }
{
    match module_named(modules, name) {
        Some(listing) => listing.rows.as_slice(),
        None => &[],
    }
}

// A reading of a table, which has no rows where it isn't replicated.
fn of_table<'a>(
    alloc: Global,
    kept: &'a [Change],
    table: &'a Table,
) -> Result<Standing<'a>, AllocError>
    ensures { IfOk result (λ s. rows_before s ≡ table_rows kept.now table.now) }
{
    if !table.is_replicated {
        return Ok(Standing::Listed(&[]));
    }
    read_kept(alloc, kept, &table.definition)
}

// A reading of the table of a name, or of the table of changes, or of a module.
fn of_name<'a>(
    alloc: Global,
    snapshot: &'a Snapshot,
    name: &str,
) -> Result<Standing<'a>, AllocError>
    ensures { IfOk result (λ s. rows_before s ≡ rows_seen snapshot.now name.now) }
{
    match table_named(snapshot.tables.as_slice(), name) {
        Some(table) => of_table(alloc, snapshot.kept.as_slice(), table),
        None if same_bytes(CHANGES.as_bytes(), name.as_bytes()) => {
            Ok(Standing::Changes(snapshot.cells.as_slice()))
        }
        None => Ok(Standing::Listed(rows_listed(snapshot.modules.as_slice(), name))),
    }
}

impl<'a> Source for View<'a> {
    ghost use Rattle.std.specs.Prelude.{false};
    ghost use Rattle.cr_tables.specs.Views.{rows_at, rows_before};

    type Cursor = Standing<'a>;

    ghost rows_of = { λ v n. rows_at v.snapshot.now v.joined.now n };

    ghost left = { λ _ s. rows_before s };

    ghost has_failed = { λ _. false };

    fn filter(&mut self, alloc: Global, table: usize) -> Result<Standing<'a>, ReadFault> {
        match self.joined.get(table) {
            Some(source) => {
                let name = source.relation.definition.name.as_str();
                Ok(of_name(alloc, self.snapshot, name)?)
            }
            None => Ok(Standing::Listed(&[])),
        }
    }

    fn eof(&self, cursor: &Standing<'a>) -> bool {
        cursor.is_at_end()
    }

    fn width(&self, cursor: &Standing<'a>) -> usize {
        cursor.width()
    }

    fn column(
        &mut self,
        alloc: Global,
        cursor: &Standing<'a>,
        at: usize,
    ) -> Result<Value, ReadFault> {
        Ok(cursor.column(alloc, at)?)
    }

    fn next(&mut self, alloc: Global, cursor: &mut Standing<'a>) -> Result<(), ReadFault> {
        cursor.advance(alloc)?;
        Ok(())
    }
}
