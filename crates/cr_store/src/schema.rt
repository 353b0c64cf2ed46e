//! The tables of a store.

ghost use Rattle.std.specs.Prelude.{◌≡◌, [], List, OnOk};
ghost use Rattle.sqlite.specs.Held.{state};
ghost use Rattle.sqlite.specs.Order.{Row};
ghost use Rattle.sqlite.specs.State.{HasCleanDisk, KeepsCommit, Survives};
ghost use Rattle.cr_rows.specs.Schema.{no_schema};
ghost use Rattle.cr_store.specs.Shows.{HoldsFirst, Holds};

use cr_rows::write;
use sqlite::{Alter, Error, Transaction};

const META: &str = "CREATE TABLE cr_meta(name TEXT PRIMARY KEY, val)";

const TABLES: &str =
    "CREATE TABLE cr_schema(name TEXT PRIMARY KEY, ordinal INTEGER, crr INTEGER, def BLOB)";

const OLD_CELLS: &str =
    "CREATE TABLE cr_cell(tbl TEXT, pk BLOB, cid TEXT, cl INTEGER, ver INTEGER, val, site BLOB, dbv INTEGER, seq INTEGER, PRIMARY KEY(tbl, pk, cid))";

const PEERS: &str = "CREATE TABLE cr_peer(site BLOB PRIMARY KEY, seen INTEGER)";

const CELLS: &str =
    "CREATE TABLE cr_cell2(tab INTEGER, pk BLOB, cid TEXT, cl INTEGER, ver INTEGER, val, site BLOB, dbv INTEGER, seq INTEGER, PRIMARY KEY(tab, pk, cid))";

// Makes the four tables that a store of the first format has, with no row in them.
fn make_first_tables<S: Alter>(tx: &mut Transaction<'_, S>) -> Result<(), Error>
    ensures same_reference { tx.new.conn.ghost_name ≡ tx.old.conn.ghost_name }
    ensures made { HasCleanDisk (state S.Store tx.new.conn.now) → (state S.Store tx.old.conn.now).now.schema ≡ no_schema → OnOk result (HoldsFirst (state S.Store tx.new.conn.now).now [] [] [] []) }
    ensures inside { HasCleanDisk (state S.Store tx.new.conn.now) → OnOk result (tx.new.conn.now.in_transaction ≡ tx.old.conn.now.in_transaction) }
    ensures kept { HasCleanDisk (state S.Store tx.new.conn.now) → KeepsCommit (state S.Store tx.old.conn.now) (state S.Store tx.new.conn.now) }
    ensures survives { Survives (state S.Store tx.old.conn.now) (state S.Store tx.new.conn.now) (λ _. ⊥) }
{
    write(tx, META, &[])?;
    write(tx, TABLES, &[])?;
    write(tx, OLD_CELLS, &[])?;
    write(tx, PEERS, &[])
}

/// Makes the table of cells that the second format has beside the tables of the first, with no row in it.
pub(crate) fn make_cells<S: Alter>(tx: &mut Transaction<'_, S>) -> Result<(), Error>
    ensures same_reference { tx.new.conn.ghost_name ≡ tx.old.conn.ghost_name }
    ensures made { HasCleanDisk (state S.Store tx.new.conn.now) → (a b c d : List Row) → HoldsFirst (state S.Store tx.old.conn.now).now a b c d → OnOk result (Holds (state S.Store tx.new.conn.now).now a b c [] d) }
    ensures inside { HasCleanDisk (state S.Store tx.new.conn.now) → OnOk result (tx.new.conn.now.in_transaction ≡ tx.old.conn.now.in_transaction) }
    ensures kept { HasCleanDisk (state S.Store tx.new.conn.now) → KeepsCommit (state S.Store tx.old.conn.now) (state S.Store tx.new.conn.now) }
    ensures survives { Survives (state S.Store tx.old.conn.now) (state S.Store tx.new.conn.now) (λ _. ⊥) }
{
    write(tx, CELLS, &[])
}

/// Makes the five tables, with no row in them.
pub(crate) fn make_tables<S: Alter>(tx: &mut Transaction<'_, S>) -> Result<(), Error>
    ensures same_reference { tx.new.conn.ghost_name ≡ tx.old.conn.ghost_name }
    ensures made { HasCleanDisk (state S.Store tx.new.conn.now) → (state S.Store tx.old.conn.now).now.schema ≡ no_schema → OnOk result (Holds (state S.Store tx.new.conn.now).now [] [] [] [] []) }
    ensures inside { HasCleanDisk (state S.Store tx.new.conn.now) → OnOk result (tx.new.conn.now.in_transaction ≡ tx.old.conn.now.in_transaction) }
    ensures kept { HasCleanDisk (state S.Store tx.new.conn.now) → KeepsCommit (state S.Store tx.old.conn.now) (state S.Store tx.new.conn.now) }
    ensures survives { Survives (state S.Store tx.old.conn.now) (state S.Store tx.new.conn.now) (λ _. ⊥) }
{
    make_first_tables(tx)?;
    make_cells(tx)
}
