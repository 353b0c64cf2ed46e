//! The transactions that change a store's tables.

ghost use Rattle.std.specs.Prelude.{◌≡◌, None, [], ◌∷◌, List, false, IsTrue, OnOk, OnErr};
ghost use Rattle.sqlite.specs.Held.{state};
ghost use Rattle.sqlite.specs.Order.{Row};
ghost use Rattle.sqlite.specs.State.{HasCleanDisk, KeepsCommit, Survives};
ghost use Rattle.sqlite.specs.declared.types.Value.TheVariants.{Text as SqlText, Int as SqlInt, Blob as SqlBlob};
ghost use Rattle.cr_lattice.specs.declared.table.ColumnDef.{ColumnDef};
ghost use Rattle.cr_lattice.specs.declared.table.Table.{Table};
ghost use Rattle.cr_cells.specs.Holding.{empty_holding};
ghost use Rattle.cr_cells.specs.Tables.{with_replicated, with_added};
ghost use Rattle.cr_rows.specs.Schema.{no_schema};
ghost use Rattle.cr_store.specs.Rows.{table_rows};
ghost use Rattle.cr_store.specs.Shows.{Holds, Shows};
ghost use Rattle.cr_store.specs.Words.{AreWidened};

use crate::records::{insert_meta, insert_table, set_definition, set_replicated};
use crate::schema::make_tables;
use cr_lattice::change::Site;
use sqlite::types::ValueRef;
use sqlite::{Alter, Connection, Error, Transaction};

// The rows of cr_meta in a new store.
fn insert_all_meta<S: Alter>(tx: &mut Transaction<'_, S>, site: &Site) -> Result<(), Error>
    ensures same_reference { tx.new.conn.ghost_name ≡ tx.old.conn.ghost_name }
    ensures put { HasCleanDisk (state S.Store tx.new.conn.now) → Holds (state S.Store tx.old.conn.now).now [] [] [] [] []
        → OnOk result (Shows (state S.Store tx.new.conn.now).now (empty_holding site.now)) }
    ensures inside { HasCleanDisk (state S.Store tx.new.conn.now) → OnOk result (tx.new.conn.now.in_transaction ≡ tx.old.conn.now.in_transaction) }
    ensures kept { HasCleanDisk (state S.Store tx.new.conn.now) → KeepsCommit (state S.Store tx.old.conn.now) (state S.Store tx.new.conn.now) }
    ensures survives { Survives (state S.Store tx.old.conn.now) (state S.Store tx.new.conn.now) (λ _. ⊥) }
{
    insert_meta(tx, "db_version", ValueRef::Int(0))?;
    insert_meta(tx, "site", ValueRef::Blob(site))?;
    insert_meta(tx, "format", ValueRef::Int(2))
}

// The tables of a store that holds nothing, in one transaction.
fn fill<S: Alter>(conn: &mut Connection<S>, site: &Site) -> Result<(), Error>
    requires auto { conn.old.in_transaction ≡ false }
    requires settled { IsTrue (state S.Store conn.old).is_open → (state S.Store conn.old).now ≡ (state S.Store conn.old).committed }
    ensures made { HasCleanDisk (state S.Store conn.new) → (state S.Store conn.old).now.schema ≡ no_schema
        → OnOk result (Shows (state S.Store conn.new).now (empty_holding site.now)) }
    ensures opened { HasCleanDisk (state S.Store conn.new) → OnOk result (IsTrue (state S.Store conn.new).is_open) }
    ensures same { HasCleanDisk (state S.Store conn.new) → IsTrue (state S.Store conn.new).is_open → OnErr result ((state S.Store conn.new).now ≡ (state S.Store conn.old).now) }
    ensures auto { conn.new.in_transaction ≡ false }
    ensures clean { HasCleanDisk (state S.Store conn.new) → HasCleanDisk (state S.Store conn.old) }
    ensures was_open { HasCleanDisk (state S.Store conn.new) → IsTrue (state S.Store conn.new).is_open → IsTrue (state S.Store conn.old).is_open }
{
    let mut tx = conn.transaction();
    make_tables(&mut tx)?;
    insert_all_meta(&mut tx, site)?;
    tx.commit()?;
    Ok(())
}

/// Makes the tables of a store that holds nothing, in a database that has nothing. A limit of steps, which
/// could stop a later call halfway, is taken off.
pub(crate) fn make<S: Alter>(conn: &mut Connection<S>, site: &Site) -> Result<(), Error>
    requires auto { conn.old.in_transaction ≡ false }
    requires settled { IsTrue (state S.Store conn.old).is_open → (state S.Store conn.old).now ≡ (state S.Store conn.old).committed }
    ensures made { HasCleanDisk (state S.Store conn.new) → (state S.Store conn.old).now.schema ≡ no_schema
        → OnOk result (Shows (state S.Store conn.new).now (empty_holding site.now)) }
    ensures opened { HasCleanDisk (state S.Store conn.new) → OnOk result (IsTrue (state S.Store conn.new).is_open) }
    ensures same { HasCleanDisk (state S.Store conn.new) → IsTrue (state S.Store conn.new).is_open → OnErr result ((state S.Store conn.new).now ≡ (state S.Store conn.old).now) }
    ensures limit { OnOk result (conn.new.step_limit ≡ None) }
    ensures auto { conn.new.in_transaction ≡ false }
    ensures clean { HasCleanDisk (state S.Store conn.new) → HasCleanDisk (state S.Store conn.old) }
    ensures was_open { HasCleanDisk (state S.Store conn.new) → IsTrue (state S.Store conn.new).is_open → IsTrue (state S.Store conn.old).is_open }
{
    fill(conn, site)?;
    conn.set_step_limit(None);
    Ok(())
}

/// Adds a table, by its name, its place from 1, its `crr` and the bytes of its definition.
pub(crate) fn add_table<'a, S: Alter>(
    conn: &mut Connection<S>,
    name: &'a str,
    ordinal: i64,
    crr: i64,
    definition: &'a [u8],
) -> Result<(), Error>
    requires auto { conn.old.in_transaction ≡ false }
    requires settled { IsTrue (state S.Store conn.old).is_open → (state S.Store conn.old).now ≡ (state S.Store conn.old).committed }
    ensures put { HasCleanDisk (state S.Store conn.new) → (a b o c d : List Row) → Holds (state S.Store conn.old).now a b o c d
        → OnOk result (Holds (state S.Store conn.new).now a ((SqlText name.now ∷ SqlInt ordinal ∷ SqlInt crr ∷ SqlBlob definition.now ∷ []) ∷ b) o c d) }
    ensures opened { HasCleanDisk (state S.Store conn.new) → OnOk result (IsTrue (state S.Store conn.new).is_open) }
    ensures same { HasCleanDisk (state S.Store conn.new) → IsTrue (state S.Store conn.new).is_open → OnErr result ((state S.Store conn.new).now ≡ (state S.Store conn.old).now) }
    ensures auto { conn.new.in_transaction ≡ false }
    ensures clean { HasCleanDisk (state S.Store conn.new) → HasCleanDisk (state S.Store conn.old) }
    ensures was_open { HasCleanDisk (state S.Store conn.new) → IsTrue (state S.Store conn.new).is_open → IsTrue (state S.Store conn.old).is_open }
{
    let mut tx = conn.transaction();
    insert_table(&mut tx, name, ordinal, crr, definition)?;
    tx.commit()?;
    Ok(())
}

/// Sets the bytes of a definition, that of the table of that name with one column more.
pub(crate) fn redefine<'a, S: Alter>(
    conn: &mut Connection<S>,
    name: &'a str,
    definition: &'a [u8],
) -> Result<(), Error>
    requires auto { conn.old.in_transaction ≡ false }
    requires settled { IsTrue (state S.Store conn.old).is_open → (state S.Store conn.old).now ≡ (state S.Store conn.old).committed }
    ensures set { HasCleanDisk (state S.Store conn.new) → (a o c d : List Row) → (column : ColumnDef) → (tables : List Table) → AreWidened name.now column definition.now tables → Holds (state S.Store conn.old).now a (table_rows 1 tables) o c d
        → OnOk result (Holds (state S.Store conn.new).now a (table_rows 1 (with_added name.now column tables)) o c d) }
    ensures opened { HasCleanDisk (state S.Store conn.new) → OnOk result (IsTrue (state S.Store conn.new).is_open) }
    ensures same { HasCleanDisk (state S.Store conn.new) → IsTrue (state S.Store conn.new).is_open → OnErr result ((state S.Store conn.new).now ≡ (state S.Store conn.old).now) }
    ensures auto { conn.new.in_transaction ≡ false }
    ensures clean { HasCleanDisk (state S.Store conn.new) → HasCleanDisk (state S.Store conn.old) }
    ensures was_open { HasCleanDisk (state S.Store conn.new) → IsTrue (state S.Store conn.new).is_open → IsTrue (state S.Store conn.old).is_open }
{
    let mut tx = conn.transaction();
    set_definition(&mut tx, name, definition)?;
    tx.commit()?;
    Ok(())
}

/// Marks the table of that name as replicated.
pub(crate) fn replicate<S: Alter>(conn: &mut Connection<S>, name: &str) -> Result<(), Error>
    requires auto { conn.old.in_transaction ≡ false }
    requires settled { IsTrue (state S.Store conn.old).is_open → (state S.Store conn.old).now ≡ (state S.Store conn.old).committed }
    ensures set { HasCleanDisk (state S.Store conn.new) → (a o c d : List Row) → (tables : List Table) → Holds (state S.Store conn.old).now a (table_rows 1 tables) o c d
        → OnOk result (Holds (state S.Store conn.new).now a (table_rows 1 (with_replicated name.now tables)) o c d) }
    ensures opened { HasCleanDisk (state S.Store conn.new) → OnOk result (IsTrue (state S.Store conn.new).is_open) }
    ensures same { HasCleanDisk (state S.Store conn.new) → IsTrue (state S.Store conn.new).is_open → OnErr result ((state S.Store conn.new).now ≡ (state S.Store conn.old).now) }
    ensures auto { conn.new.in_transaction ≡ false }
    ensures clean { HasCleanDisk (state S.Store conn.new) → HasCleanDisk (state S.Store conn.old) }
    ensures was_open { HasCleanDisk (state S.Store conn.new) → IsTrue (state S.Store conn.new).is_open → IsTrue (state S.Store conn.old).is_open }
{
    let mut tx = conn.transaction();
    set_replicated(&mut tx, name)?;
    tx.commit()?;
    Ok(())
}
