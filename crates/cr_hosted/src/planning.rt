//! What a SELECT sees of the modules that it names: of each what that gives by what it is offered.

use crate::session::HostedSession;
use cr_cells::store::Cells;
use cr_cells::tables::table_named;
use cr_exec::binary::compares_bytes;
use cr_expr::given::Hosted;
use cr_host::functions::Functions;
use cr_lattice::table::{Items, Table};
use cr_module::module::Module;
use cr_modules::modules::{Modules, StandAll};
use cr_replica::snapshot::Listing;
use cr_snapshot::changes::CHANGES;
use cr_tables::changes::WIDTH;
use cr_term::query::{Joined, Query};
use cr_value::order::same_bytes;
use cr_value::value::Value;
use std::alloc::{AllocError, Global};

impl<C: Cells, M: Module> HostedSession<C, M> {
    ghost use Rattle.std.specs.Prelude.{◌≡◌, IfOk};
    ghost use Rattle.std.specs.List.{list_all};
    ghost use Rattle.cr_hosted.specs.Planned.{ShowsModules, is_as_wide, width_seen};

    // How many columns the table of a name has, or the table of changes, or the module of the name.
    fn width_seen(&self, tables: &[Table], name: &str) -> usize
        ensures { result ≡ width_seen tables.now (⟦<Modules<M> as StandAll>⟧.states self.now.modules) name.now }
    {
        match table_named(tables, name) {
            Some(table) => table.definition.columns.as_slice().len(),
            None if same_bytes(CHANGES.as_bytes(), name.as_bytes()) => WIDTH,
            None => self.modules.width(name),
        }
    }

    // Whether a table of a query has as many columns as the query takes it to have.
    fn is_as_wide(&self, tables: &[Table], joined: &Joined) -> bool
        ensures { result ≡ is_as_wide tables.now (⟦<Modules<M> as StandAll>⟧.states self.now.modules) joined.now }
    {
        let definition = &joined.relation.definition;
        let width = self.width_seen(tables, definition.name.as_str());
        width == definition.columns.as_slice().len()
    }

    // Whether each has.
    fn are_as_wide(&self, tables: &[Table], joined: &[Joined]) -> bool
        ensures { result ≡ list_all (is_as_wide tables.now (⟦<Modules<M> as StandAll>⟧.states self.now.modules)) joined.now }
    {
        joined.iter().all(|table| self.is_as_wide(tables, table))
    }

    /// What a query sees of modules. Where texts are compared byte by byte, and each table is as wide as the query takes it to be, a
    /// module is offered what it is told.
    ///
    /// # Errors
    /// Want of memory, of a module or for the rows.
    pub(crate) fn listings<F: Functions>(
        &self,
        alloc: Global,
        functions: &F,
        tables: &[Table],
        query: &Query,
        params: &[Value],
    ) -> Result<Items<Listing>, AllocError>
        ensures { IfOk result (ShowsModules (⟦<F as Hosted>⟧.means functions.now) params.now tables.now (⟦<Modules<M> as StandAll>⟧.bests self.now.modules) (⟦<Modules<M> as StandAll>⟧.states self.now.modules) query.now) }
    {
        let joined = query.joined.as_slice();
        let may_offer = compares_bytes(functions) && self.are_as_wide(tables, joined);
        self.modules.listings(alloc, query, params, may_offer)
    }
}
