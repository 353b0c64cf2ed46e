//! The changes that an INSERT into the table of changes brings.

ghost use Rattle.std.specs.Prelude.{◌≡◌};
ghost use Rattle.cr_world.specs.State.{changes_definition};
ghost use Rattle.cr_received.specs.Received.{Receives};

use crate::rows::changes_in;
use cr_expr::given::Hosted;
use cr_host::functions::Functions;
use cr_lattice::change::Change;
use cr_lattice::table::Table;
use cr_term::query::Insert;
use cr_value::value::Value;
use cr_wanted::insert::inserted_rows;
use cr_world::refusal::Refusal;
use std::alloc::Global;

/// The changes that an INSERT into the table of changes brings, each well formed for a replicated table of its name.
///
/// # Errors
/// The fault of an expression, as of `inserted_rows`; then `BadChange` with the reason why the first row that is no such
/// change is none; `Memory`.
pub fn changes_of_received<F: Functions>(
    alloc: Global,
    functions: &F,
    tables: &[Table],
    insert: &Insert,
    params: &[Value],
) -> Result<Vec<Change>, Refusal>
    requires functions { F.is_faithful functions.now }
    requires changes { insert.now.relation.definition ≡ changes_definition }
    ensures { Receives (⟦<F as Hosted>⟧.means functions.now) params.now tables.now insert.now (λ v. v.items) result }
{
    let columns = insert.relation.definition.columns.as_slice();
    let rows = inserted_rows(alloc, columns, insert, functions, params)?;
    changes_in(alloc, tables, rows.as_slice())
}
