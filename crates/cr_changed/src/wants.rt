//! The rows that a write wants of its table, given what a snapshot keeps of it.

ghost use Rattle.cr_exec.specs.Answers.{Answers};
ghost use Rattle.cr_changed.specs.Changed.{update_wants, delete_wants};

use crate::told::of_source;
use cr_expr::given::Hosted;
use cr_host::functions::Functions;
use cr_lattice::table::Row;
use cr_replica::snapshot::Snapshot;
use cr_scalar::fault::EvalFault;
use cr_tables::kept::Kept;
use cr_term::query::{Delete, Update};
use cr_value::value::Value;
use cr_wanted::delete::wanted_by_delete;
use cr_wanted::update::wanted_by_update;
use std::alloc::Global;

/// The rows that an UPDATE wants. Those that the snapshot shows of its table are made one after another.
///
/// # Errors
/// The fault of an expression, where there are no such rows whatever values stand for other faults; `TooBig` the same with
/// the limit of 1,000,000 bytes; `Memory`.
pub(crate) fn update_wants<F: Functions>(
    alloc: Global,
    functions: &F,
    snapshot: &Snapshot,
    update: &Update,
    params: &[Value],
) -> Result<Vec<Row>, EvalFault>
    requires { F.is_faithful functions.now }
    ensures { Answers (⟦<F as Hosted>⟧.means functions.now) params.now result (λ v. v.items) (update_wants snapshot.now update.now) }
{
    let definition = &update.relation.definition;
    let columns = definition.columns.as_slice();
    let changes = snapshot.kept.as_slice();
    let mut kept = Kept {
        changes,
        definition,
    };
    match wanted_by_update(alloc, columns, update, &mut kept, 0, functions, params) {
        Ok(rows) => Ok(rows),
        Err(fault) => Err(of_source(fault)),
    }
}

/// The rows that a DELETE wants. Those that the snapshot shows of its table are made one after another.
///
/// # Errors
/// As those of `update_wants`.
pub(crate) fn delete_wants<F: Functions>(
    alloc: Global,
    functions: &F,
    snapshot: &Snapshot,
    delete: &Delete,
    params: &[Value],
) -> Result<Vec<Row>, EvalFault>
    requires { F.is_faithful functions.now }
    ensures { Answers (⟦<F as Hosted>⟧.means functions.now) params.now result (λ v. v.items) (delete_wants snapshot.now delete.now) }
{
    let definition = &delete.relation.definition;
    let changes = snapshot.kept.as_slice();
    let mut kept = Kept {
        changes,
        definition,
    };
    match wanted_by_delete(alloc, delete, &mut kept, 0, functions, params) {
        Ok(rows) => Ok(rows),
        Err(fault) => Err(of_source(fault)),
    }
}
