//! Stores of the first format, made ones of the second.

ghost use Rattle.std.specs.Prelude.{◌≡◌, ℕ, ℤ, [], List, map, false, IsTrue, OnOk, OnErr};
ghost use Rattle.std.specs.List.{AllByRecursion};
ghost use Rattle.sqlite.specs.Held.{state};
ghost use Rattle.sqlite.specs.Order.{Row};
ghost use Rattle.sqlite.specs.State.{HasCleanDisk, KeepsCommit, Survives};
ghost use Rattle.cr_store.specs.Ordinals.{IsNamed};
ghost use Rattle.cr_store.specs.Rows.{cell_row, meta_rows};
ghost use Rattle.cr_store.specs.Shows.{HoldsFirst, Holds, HasCells};

use crate::cells::insert;
use crate::format::Format;
use crate::records::set_format;
use crate::schema::make_cells;
use cr_lattice::stamped::Stamped;
use cr_lattice::table::Table;
use cr_rows::write;
use sqlite::{Alter, Connection, Error, Transaction};

const EMPTY: &str = "DELETE FROM cr_cell";

fn copy_cells<S: Alter>(
    tx: &mut Transaction<'_, S>,
    tables: &[Table],
    cells: &[Stamped],
) -> Result<(), Error>
    ensures same_reference { tx.new.conn.ghost_name ≡ tx.old.conn.ghost_name }
    ensures put { HasCleanDisk (state S.Store tx.new.conn.now) → (a b o d : List Row) → AllByRecursion (IsNamed tables.now) cells.now → HasCells (state S.Store tx.old.conn.now).now tables.now a b o d []
        → OnOk result (HasCells (state S.Store tx.new.conn.now).now tables.now a b o d cells.now) }
    ensures inside { HasCleanDisk (state S.Store tx.new.conn.now) → OnOk result (tx.new.conn.now.in_transaction ≡ tx.old.conn.now.in_transaction) }
    ensures kept { HasCleanDisk (state S.Store tx.new.conn.now) → KeepsCommit (state S.Store tx.old.conn.now) (state S.Store tx.new.conn.now) }
    ensures survives { Survives (state S.Store tx.old.conn.now) (state S.Store tx.new.conn.now) (λ _. ⊥) }
{
    for cell in cells {
        insert(tx, tables, cell)?;
    }
    Ok(())
}

// Takes all rows out of cr_cell.
fn empty_old_cells<S: Alter>(tx: &mut Transaction<'_, S>) -> Result<(), Error>
    ensures same_reference { tx.new.conn.ghost_name ≡ tx.old.conn.ghost_name }
    ensures cut { HasCleanDisk (state S.Store tx.new.conn.now) → (a b o c d : List Row) → Holds (state S.Store tx.old.conn.now).now a b o c d
        → OnOk result (Holds (state S.Store tx.new.conn.now).now a b [] c d) }
    ensures inside { HasCleanDisk (state S.Store tx.new.conn.now) → OnOk result (tx.new.conn.now.in_transaction ≡ tx.old.conn.now.in_transaction) }
    ensures kept { HasCleanDisk (state S.Store tx.new.conn.now) → KeepsCommit (state S.Store tx.old.conn.now) (state S.Store tx.new.conn.now) }
    ensures survives { Survives (state S.Store tx.old.conn.now) (state S.Store tx.new.conn.now) (λ _. ⊥) }
{
    write(tx, EMPTY, &[])
}

fn rewrite<S: Alter>(
    tx: &mut Transaction<'_, S>,
    tables: &[Table],
    cells: &[Stamped],
) -> Result<(), Error>
    ensures same_reference { tx.new.conn.ghost_name ≡ tx.old.conn.ghost_name }
    ensures made { HasCleanDisk (state S.Store tx.new.conn.now) → (site : List ℕ) → (version : ℤ) → (b c d : List Row) → AllByRecursion (IsNamed tables.now) cells.now
        → HoldsFirst (state S.Store tx.old.conn.now).now (meta_rows Format.First site version) b c d
        → OnOk result (Holds (state S.Store tx.new.conn.now).now (meta_rows Format.Second site version) b [] (map (cell_row Format.Second tables.now) cells.now) d) }
    ensures inside { HasCleanDisk (state S.Store tx.new.conn.now) → OnOk result (tx.new.conn.now.in_transaction ≡ tx.old.conn.now.in_transaction) }
    ensures kept { HasCleanDisk (state S.Store tx.new.conn.now) → KeepsCommit (state S.Store tx.old.conn.now) (state S.Store tx.new.conn.now) }
    ensures survives { Survives (state S.Store tx.old.conn.now) (state S.Store tx.new.conn.now) (λ _. ⊥) }
{
    make_cells(tx)?;
    copy_cells(tx, tables, cells)?;
    empty_old_cells(tx)?;
    set_format(tx)
}

/// Makes a store of the first format, which has these tables and holds these cells, one of the second that holds the same,
/// in one transaction.
pub(crate) fn migrate<S: Alter>(
    conn: &mut Connection<S>,
    tables: &[Table],
    cells: &[Stamped],
) -> Result<(), Error>
    requires auto { conn.old.in_transaction ≡ false }
    requires settled { IsTrue (state S.Store conn.old).is_open → (state S.Store conn.old).now ≡ (state S.Store conn.old).committed }
    ensures made { HasCleanDisk (state S.Store conn.new) → (site : List ℕ) → (version : ℤ) → (b c d : List Row) → AllByRecursion (IsNamed tables.now) cells.now
        → HoldsFirst (state S.Store conn.old).now (meta_rows Format.First site version) b c d
        → OnOk result (Holds (state S.Store conn.new).now (meta_rows Format.Second site version) b [] (map (cell_row Format.Second tables.now) cells.now) d) }
    ensures opened { HasCleanDisk (state S.Store conn.new) → OnOk result (IsTrue (state S.Store conn.new).is_open) }
    ensures same { HasCleanDisk (state S.Store conn.new) → IsTrue (state S.Store conn.new).is_open → OnErr result ((state S.Store conn.new).now ≡ (state S.Store conn.old).now) }
    ensures auto { conn.new.in_transaction ≡ false }
    ensures clean { HasCleanDisk (state S.Store conn.new) → HasCleanDisk (state S.Store conn.old) }
    ensures was_open { HasCleanDisk (state S.Store conn.new) → IsTrue (state S.Store conn.new).is_open → IsTrue (state S.Store conn.old).is_open }
{
    let mut tx = conn.transaction();
    rewrite(&mut tx, tables, cells)?;
    tx.commit()?;
    Ok(())
}
