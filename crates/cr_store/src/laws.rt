//! Laws of stores. The contracts are the theorems.

ghost use Rattle.std.specs.Prelude.{◌≡◌, IfOk, IfErr};
ghost use Rattle.std.specs.List.{AllByRecursion};
ghost use Rattle.sqlite.specs.Held.{state};
ghost use Rattle.cr_cells.specs.Calls.{IsRefusal};
ghost use Rattle.cr_store.specs.Kept.{IsClean, holding_of};
ghost use Rattle.cr_store.specs.Laws.{HoldsOne};
ghost use Rattle.cr_store.specs.Opening.{IsReadable, IsReadableTable};

use crate::store::Store;
use cr_cells::store::CellsError;
use sqlite::{Alter, Connection};
use std::alloc::Global;

/// A database holds one holding at most.
pub fn databases_hold_one()
    ensures { HoldsOne }
{}

/// The store that the connection of a store holds: it holds what that did, if that can be read.
///
/// # Errors
/// `Memory`, or `Store(Refused)`, of what can be read; else what `open` is refused for.
pub fn reopened<S: Alter>(
    alloc: Global,
    store: Store<S>,
) -> Result<Store<S>, (CellsError, Connection<S>)>
    ensures same { IfOk result (λ it. IsClean S.Store it.0 → AllByRecursion IsReadableTable store.1.tables.items
        → holding_of (state S.Store it.0).now it.1 ≡ holding_of (state S.Store store.0).now store.1) }
    ensures why { IfErr result (λ e. IsClean S.Store e.1 → IsReadable (holding_of (state S.Store store.0).now store.1) → IsRefusal e.0) }
{
    Store::open(alloc, store.into_connection())
}
