//! A host's table module under its name.

ghost use Rattle.std.specs.Prelude.{◌≡◌, ◌⊎◌, [], length, map, IfOk};
ghost use Rattle.cr_module.specs.Lawful.{AreWide};
ghost use Rattle.cr_module.specs.declared.module.UpdateError.TheVariants as update;
ghost use Rattle.cr_world.specs.State.{ModuleState, is_module};
ghost use Rattle.cr_world.specs.declared.refusal.Refusal.TheVariants as refusal;
ghost use Rattle.cr_plan.specs.Offers.{IsReadBy};
ghost use Rattle.cr_plan.specs.Orders.{orders_for};
ghost use Rattle.cr_modules.specs.States.{IsListed, UpdatesTo, definition_listed, is_among, made, of_update, offered};
ghost use Rattle.cr_snapshot.specs.Seen.{name_of};

use cr_lattice::table::{ColumnDef, Items, Row, TableDef};
use cr_module::module::{Module, UpdateError};
use cr_plan::order::orders;
use cr_plan::reading::rows_for;
use cr_plan::told::offers_to;
use cr_replica::snapshot::Listing;
use cr_term::query::{Joined, Query};
use cr_value::order::same_bytes;
use cr_value::text::Text;
use cr_value::value::Value;
use cr_world::refusal::{EvalFault, Refusal};
use std::alloc::{AllocError, Global};

/// A module under the name by which statements call it.
#[derive(Drop)]
pub struct Registered<M: Drop> {
    name: Text,
    host: M,
}

/// How a module stands in a session.
pub trait Stands {
    ghost use Rattle.cr_world.specs.State.{ModuleState};

    /// Its name, its columns, its rows, and what an update makes of them.
    ghost state: { Self → ModuleState };
}

impl<M: Module> Stands for Registered<M> {
    ghost use Rattle.cr_modules.specs.States.{made};

    ghost state = { λ r. made r.name (M.columns_of r.host) (M.rows_of r.host) (M.updated r.host) };
}

// The refusal that tells why the module of a name takes no rows, where there is memory for the name.
fn refused(alloc: Global, name: &Text, error: UpdateError) -> Refusal
    ensures { (result ≡ of_update name.now error) ⊎ ((error ≡ update.ReadOnly) × (result ≡ refusal.Memory)) }
{
    match error {
        UpdateError::ReadOnly => match name.copy(alloc) {
            Ok(name) => Refusal::ReadOnly(name),
            Err(_) => Refusal::Memory,
        },
        UpdateError::Host(text) => Refusal::Eval(EvalFault::Host(text)),
        UpdateError::Memory => Refusal::Memory,
    }
}

// Definitions of columns, in memory of their own.
fn copied_columns(alloc: Global, columns: &[ColumnDef]) -> Result<Items<ColumnDef>, AllocError>
    ensures { IfOk result (λ cs. cs ≡ columns.now) }
{
    let mut copies = Vec::new(alloc);
    for column in columns {
        copies.push(column.copy(alloc)?)?;
    }
    Ok(Items::new(copies))
}

impl<M: Module> Registered<M> {
    /// The module under this name.
    pub(crate) fn new(name: Text, host: M) -> Registered<M>
        ensures name { result.name ≡ name }
        ensures stands { ⟦<Registered<M> as Stands>⟧.state result ≡ made name (M.columns_of host) (M.rows_of host) (M.updated host) }
    {
        Registered { name, host }
    }

    /// Whether it has this name.
    pub(crate) fn is_called(&self, name: &str) -> bool
        ensures { result ≡ is_module name.now (⟦<Registered<M> as Stands>⟧.state self.now) }
    {
        same_bytes(self.name.as_str().as_bytes(), name.as_bytes())
    }

    /// How many columns it has.
    pub(crate) fn width(&self) -> usize
        ensures { result ≡ length (⟦<Registered<M> as Stands>⟧.state self.now).columns }
    {
        self.host.columns().len()
    }

    /// What it is called and its columns, without its rows.
    ///
    /// # Errors
    /// Want of memory.
    pub(crate) fn definition(&self, alloc: Global) -> Result<Listing, AllocError>
        ensures { IfOk result (λ l. l ≡ definition_listed (⟦<Registered<M> as Stands>⟧.state self.now)) }
    {
        Ok(Listing {
            definition: TableDef {
                name: self.name.copy(alloc)?,
                columns: copied_columns(alloc, self.host.columns())?,
            },
            rows: Items::new(Vec::new(alloc)),
        })
    }

    // What it gives of its rows by what a query offers it.
    fn rows_by_offers(
        &self,
        alloc: Global,
        query: &Query,
        params: &[Value],
        may_offer: bool,
    ) -> Result<Items<Row>, AllocError>
        ensures given { IfOk result (IsReadBy (M.best self.now.host) (M.rows_of self.now.host) (offered may_offer params.now query.now self.now.name) (orders_for query.now)) }
        ensures wide { IfOk result (AreWide (M.columns_of self.now.host)) }
        ensures all_wide { IfOk result (λ _. AreWide (M.columns_of self.now.host) (M.rows_of self.now.host)) }
    {
        let orders = orders(alloc, query)?;
        if !may_offer {
            return rows_for(alloc, &self.host, &[], &orders);
        }
        let offers = offers_to(alloc, query, self.name.as_str(), params)?;
        rows_for(alloc, &self.host, &offers, &orders)
    }

    // Whether a query has its name among those of its tables.
    fn is_among(&self, joined: &[Joined]) -> bool
        ensures { result ≡ is_among (map name_of joined.now) self.now.name }
    {
        for source in joined {
            if self.is_called(source.relation.definition.name.as_str()) {
                return true;
            }
        }
        false
    }

    /// What it is called and its columns, with what it gives of its rows by what a query offers it, if the query may, where the
    /// query has its name.
    ///
    /// # Errors
    /// Want of memory, of the module or for the rows.
    pub(crate) fn listing(
        &self,
        alloc: Global,
        query: &Query,
        params: &[Value],
        may_offer: bool,
    ) -> Result<Listing, AllocError>
        ensures { IfOk result (IsListed (is_among (map name_of query.now.joined) self.now.name) (M.best self.now.host) (offered may_offer params.now query.now self.now.name) (orders_for query.now) (⟦<Registered<M> as Stands>⟧.state self.now)) }
    {
        let mut listing = self.definition(alloc)?;
        if self.is_among(query.joined.as_slice()) {
            listing.rows = self.rows_by_offers(alloc, query, params, may_offer)?;
        }
        Ok(listing)
    }

    /// Hands rows over in one update, each with a value for each column.
    ///
    /// # Errors
    /// `ReadOnly` with its name, what the host says, or `Memory`. Then it stands as it was.
    pub(crate) fn update(&mut self, alloc: Global, rows: &[Row]) -> Result<(), Refusal>
        requires { AreWide (⟦<Registered<M> as Stands>⟧.state self.old).columns rows.now }
        ensures name { self.new.name ≡ self.old.name }
        ensures updated { UpdatesTo (⟦<Registered<M> as Stands>⟧.state self.old) rows.now result (⟦<Registered<M> as Stands>⟧.state self.new) }
    {
        match self.host.update(alloc, rows) {
            Ok(()) => Ok(()),
            Err(error) => Err(refused(alloc, &self.name, error)),
        }
    }
}
