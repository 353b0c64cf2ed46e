//! The modules of a session.

ghost use Rattle.std.specs.Prelude.{◌≡◌, ◌⊎◌, [], true, map, IfErr, IfOk, OnOk, is_some};
ghost use Rattle.std.specs.Option.{ForSome};
ghost use Rattle.std.specs.Str.{str_to_ascii_lowercase};
ghost use Rattle.cr_lattice.specs.Check.{same_bytes};
ghost use Rattle.cr_module.specs.Lawful.{AreWide};
ghost use Rattle.cr_world.specs.State.{ModuleState};
ghost use Rattle.cr_world.specs.Causes.{Free, Tells};
ghost use Rattle.cr_world.specs.declared.refusal.Refusal.TheVariants.{Memory};
ghost use Rattle.cr_modules.specs.States.{AreListed, IsPlace, Registers, Updates, are_distinct, definition_listed, made, module_in, module_width, register_cause};

use crate::registered::{Registered, Stands};
use cr_cells::tables::table_named;
use cr_lattice::profile::is_reserved;
use cr_lattice::table::{Items, Row, Table};
use cr_module::module::Module;
use cr_replica::snapshot::Listing;
use cr_term::query::Query;
use cr_value::text::Text;
use cr_value::value::Value;
use cr_world::refusal::Refusal;
use std::alloc::{AllocError, Global};

/// The modules that a host registered, in the order in which they came. No two have one name.
#[derive(Drop)]
pub struct Modules<M: Drop> {
    list: Vec<Registered<M>>,
    ghost distinct: { are_distinct (map (λ r. r.name) list.items) ≡ true },
}

/// How modules stand in a session.
pub trait StandAll {
    ghost use Rattle.std.specs.Prelude.{List};
    ghost use Rattle.cr_world.specs.State.{ModuleState};
    ghost use Rattle.cr_modules.specs.States.{Best};

    /// Each module's name, columns, rows, and what an update makes of them.
    ghost states: { Self → List ModuleState };

    /// What each module chooses where constraints and an order are offered.
    ghost bests: { Self → List Best };
}

impl<M: Module> StandAll for Modules<M> {
    ghost use Rattle.std.specs.Prelude.{map};
    ghost use Rattle.cr_modules.specs.States.{made};

    ghost states = { λ ms. map (λ r. made r.name (M.columns_of r.host) (M.rows_of r.host) (M.updated r.host)) ms.list.items };

    ghost bests = { λ ms. map (λ r. M.best r.host) ms.list.items };
}

// The place of the module of a name.
fn place_of<M: Module>(list: &[Registered<M>], name: &str) -> Option<usize>
    ensures { IsPlace (λ r. same_bytes r.name name.now) list.now result }
{
    for at in 0..list.len() {
        if list[at].is_called(name) {
            return Some(at);
        }
    }
    None
}

impl<M: Module> Modules<M> {
    /// No modules.
    pub fn new(alloc: Global) -> Modules<M>
        ensures { ⟦<Modules<M> as StandAll>⟧.states result ≡ [] }
    {
        Modules {
            list: Vec::new(alloc),
        }
    }

    /// Whether a module has this name.
    pub fn has(&self, name: &str) -> bool
        ensures { result ≡ is_some (module_in (⟦<Modules<M> as StandAll>⟧.states self.now) name.now) }
    {
        place_of(&self.list, name).is_some()
    }

    /// What the modules are called and their columns, without their rows.
    ///
    /// # Errors
    /// Want of memory.
    pub fn definitions(&self, alloc: Global) -> Result<Items<Listing>, AllocError>
        ensures { IfOk result (λ ls. ls ≡ map definition_listed (⟦<Modules<M> as StandAll>⟧.states self.now)) }
    {
        let mut listings = Vec::new(alloc);
        for registered in &self.list {
            listings.push(registered.definition(alloc)?)?;
        }
        Ok(Items::new(listings))
    }

    /// What the modules are called and their columns, with what those that a query has among its tables give of their rows: all
    /// of them, or, if the query may offer its terms, those that each gives by what it is offered.
    ///
    /// # Errors
    /// Want of memory, of a module or for the rows.
    pub fn listings(
        &self,
        alloc: Global,
        query: &Query,
        params: &[Value],
        may_offer: bool,
    ) -> Result<Items<Listing>, AllocError>
        ensures { IfOk result (AreListed may_offer params.now query.now (⟦<Modules<M> as StandAll>⟧.bests self.now) (⟦<Modules<M> as StandAll>⟧.states self.now)) }
    {
        let mut listings = Vec::new(alloc);
        for registered in &self.list {
            listings.push(registered.listing(alloc, query, params, may_offer)?)?;
        }
        Ok(Items::new(listings))
    }

    /// How many columns the module of a name has; 0 where no module has the name.
    pub fn width(&self, name: &str) -> usize
        ensures { result ≡ module_width (module_in (⟦<Modules<M> as StandAll>⟧.states self.now) name.now) }
    {
        match place_of(&self.list, name) {
            Some(at) => self.list[at].width(),
            None => 0,
        }
    }

    /// Hands rows over to the module of a name in one update, each with a value for each column; where no module has the name,
    /// nothing is done.
    ///
    /// # Errors
    /// `ReadOnly` with the name, what the host says, or `Memory`. Then all modules stand as they were.
    pub fn update(&mut self, alloc: Global, name: &str, rows: &[Row]) -> Result<(), Refusal>
        requires { ForSome (module_in (⟦<Modules<M> as StandAll>⟧.states self.old) name.now) (λ m. AreWide m.columns rows.now) }
        ensures { Updates name.now rows.now (⟦<Modules<M> as StandAll>⟧.states self.old) result (⟦<Modules<M> as StandAll>⟧.states self.new) }
    {
        match place_of(&self.list, name) {
            Some(at) => self.list[at].update(alloc, rows),
            None => Ok(()),
        }
    }

    // Tests that a module may have a name.
    fn check_name(&self, alloc: Global, tables: &[Table], name: &Text) -> Result<(), Refusal>
        ensures free { OnOk result (register_cause tables.now (⟦<Modules<M> as StandAll>⟧.states self.now) name.now ≡ Free) }
        ensures told { IfErr result (λ r. (r ≡ Memory) ⊎ Tells (register_cause tables.now (⟦<Modules<M> as StandAll>⟧.states self.now) name.now) r) }
    {
        if is_reserved(name.as_str().as_bytes()) {
            return Err(Refusal::BadName(name.copy(alloc)?));
        }
        if table_named(tables, name.as_str()).is_some() || self.has(name.as_str()) {
            return Err(Refusal::TableExists(name.copy(alloc)?));
        }
        Ok(())
    }

    /// Puts a module behind the others, under a name in whatever case, which is kept in ASCII lower case.
    ///
    /// # Errors
    /// `BadName` where the name is empty or begins as those of the engine's own tables; then `TableExists` where one of these
    /// tables or a module has it; `Memory`. Then the module is dropped, and all others stand as they were.
    pub fn register(
        &mut self,
        alloc: Global,
        tables: &[Table],
        name: &str,
        host: M,
    ) -> Result<(), Refusal>
        ensures { Registers tables.now (⟦<Modules<M> as StandAll>⟧.states self.old) (made (str_to_ascii_lowercase name.now) (M.columns_of host) (M.rows_of host) (M.updated host)) result (⟦<Modules<M> as StandAll>⟧.states self.new) }
    {
        let name = Text::folded(alloc, name)?;
        self.check_name(alloc, tables, &name)?;
        match self.list.push(Registered::new(name, host)) {
            Ok(()) => Ok(()),
            Err(_) => Err(Refusal::Memory),
        }
    }
}
