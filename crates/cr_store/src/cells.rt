//! The statements that write cells.

ghost use Rattle.std.specs.Prelude.{◌≡◌, ◌∷◌, List, OnOk};
ghost use Rattle.sqlite.specs.Held.{state};
ghost use Rattle.sqlite.specs.Order.{Row};
ghost use Rattle.sqlite.specs.State.{HasCleanDisk, KeepsCommit, Survives};
ghost use Rattle.cr_lattice.specs.declared.stamped.Stamped.{Stamped};
ghost use Rattle.cr_store.specs.Ordinals.{IsNamed};
ghost use Rattle.cr_store.specs.Shows.{HasCells};
ghost use Rattle.cr_store.specs.Plan.{without_old};
ghost use Rattle.cr_store.specs.Words.{replaced};

use crate::rows::{columns, old_key};
use cr_lattice::change::Change;
use cr_lattice::stamped::Stamped;
use cr_lattice::table::Table;
use cr_rows::write;
use sqlite::{Alter, Error, Transaction};

const INSERT: &str = "INSERT INTO cr_cell2 VALUES(?1, ?2, ?3, ?4, ?5, ?6, ?7, ?8, ?9)";

const UPDATE: &str =
    "UPDATE cr_cell2 SET cl = ?4, ver = ?5, val = ?6, site = ?7, dbv = ?8, seq = ?9 WHERE tab = ?1 AND pk = ?2 AND cid = ?3";

const DELETE: &str = "DELETE FROM cr_cell2 WHERE tab = ?1 AND pk = ?2 AND cid = ?3 AND dbv < ?4";

/// Adds a cell whose key is not there.
pub(crate) fn insert<S: Alter>(
    tx: &mut Transaction<'_, S>,
    tables: &[Table],
    cell: &Stamped,
) -> Result<(), Error>
    ensures same_reference { tx.new.conn.ghost_name ≡ tx.old.conn.ghost_name }
    ensures put { HasCleanDisk (state S.Store tx.new.conn.now) → (a b o d : List Row) → (ss : List Stamped) → IsNamed tables.now cell.now → HasCells (state S.Store tx.old.conn.now).now tables.now a b o d ss
        → OnOk result (HasCells (state S.Store tx.new.conn.now).now tables.now a b o d (cell.now ∷ ss)) }
    ensures inside { HasCleanDisk (state S.Store tx.new.conn.now) → OnOk result (tx.new.conn.now.in_transaction ≡ tx.old.conn.now.in_transaction) }
    ensures kept { HasCleanDisk (state S.Store tx.new.conn.now) → KeepsCommit (state S.Store tx.old.conn.now) (state S.Store tx.new.conn.now) }
    ensures survives { Survives (state S.Store tx.old.conn.now) (state S.Store tx.new.conn.now) (λ _. ⊥) }
{
    let values = columns(tables, cell);
    write(tx, INSERT, &values)
}

/// Puts a cell in place of the one that has its key.
pub(crate) fn update<S: Alter>(
    tx: &mut Transaction<'_, S>,
    tables: &[Table],
    cell: &Stamped,
) -> Result<(), Error>
    ensures same_reference { tx.new.conn.ghost_name ≡ tx.old.conn.ghost_name }
    ensures put { HasCleanDisk (state S.Store tx.new.conn.now) → (a b o d : List Row) → (ss : List Stamped) → IsNamed tables.now cell.now → HasCells (state S.Store tx.old.conn.now).now tables.now a b o d ss
        → OnOk result (HasCells (state S.Store tx.new.conn.now).now tables.now a b o d (replaced cell.now ss)) }
    ensures inside { HasCleanDisk (state S.Store tx.new.conn.now) → OnOk result (tx.new.conn.now.in_transaction ≡ tx.old.conn.now.in_transaction) }
    ensures kept { HasCleanDisk (state S.Store tx.new.conn.now) → KeepsCommit (state S.Store tx.old.conn.now) (state S.Store tx.new.conn.now) }
    ensures survives { Survives (state S.Store tx.old.conn.now) (state S.Store tx.new.conn.now) (λ _. ⊥) }
{
    let values = columns(tables, cell);
    write(tx, UPDATE, &values)
}

/// Removes the cell of a change, if it was there before a version.
pub(crate) fn delete_old<S: Alter>(
    tx: &mut Transaction<'_, S>,
    tables: &[Table],
    change: &Change,
    version: i64,
) -> Result<(), Error>
    ensures same_reference { tx.new.conn.ghost_name ≡ tx.old.conn.ghost_name }
    ensures cut { HasCleanDisk (state S.Store tx.new.conn.now) → (a b o d : List Row) → (ss : List Stamped) → HasCells (state S.Store tx.old.conn.now).now tables.now a b o d ss
        → OnOk result (HasCells (state S.Store tx.new.conn.now).now tables.now a b o d (without_old version change.now ss)) }
    ensures inside { HasCleanDisk (state S.Store tx.new.conn.now) → OnOk result (tx.new.conn.now.in_transaction ≡ tx.old.conn.now.in_transaction) }
    ensures kept { HasCleanDisk (state S.Store tx.new.conn.now) → KeepsCommit (state S.Store tx.old.conn.now) (state S.Store tx.new.conn.now) }
    ensures survives { Survives (state S.Store tx.old.conn.now) (state S.Store tx.new.conn.now) (λ _. ⊥) }
{
    let values = old_key(tables, change, version);
    write(tx, DELETE, &values)
}
