//! The statements that write a store's version, tables and marks.

ghost use Rattle.std.specs.Prelude.{◌≡◌, ℕ, ℤ, [], ◌∷◌, List, map, OnOk};
ghost use Rattle.sqlite.specs.Held.{state};
ghost use Rattle.sqlite.specs.Order.{Row};
ghost use Rattle.sqlite.specs.State.{HasCleanDisk, KeepsCommit, Survives};
ghost use Rattle.sqlite.specs.Values.{bound_value};
ghost use Rattle.sqlite.specs.declared.types.Value.TheVariants.{Text as SqlText, Int as SqlInt, Blob as SqlBlob};
ghost use Rattle.sqlite_value.specs.Value.{owned};
ghost use Rattle.cr_lattice.specs.declared.table.ColumnDef.{ColumnDef};
ghost use Rattle.cr_lattice.specs.declared.table.Table.{Table};
ghost use Rattle.cr_cells.specs.Marks.{Mark};
ghost use Rattle.cr_cells.specs.Tables.{with_replicated, with_added};
ghost use Rattle.cr_store.specs.Rows.{meta_rows, table_rows, one_if, mark_row};
ghost use Rattle.cr_store.specs.Shows.{Holds};
ghost use Rattle.cr_store.specs.Words.{set_mark, AreWidened};

use crate::format::Format;
use cr_lattice::change::Site;
use cr_rows::write;
use sqlite::types::ValueRef;
use sqlite::{Alter, Error, Transaction};

const META: &str = "INSERT INTO cr_meta VALUES(?1, ?2)";

const SET: &str = "UPDATE cr_meta SET val = ?2 WHERE name = ?1";

const TABLE: &str = "INSERT INTO cr_schema VALUES(?1, ?2, ?3, ?4)";

const CRR: &str = "UPDATE cr_schema SET crr = ?2 WHERE name = ?1";

const DEFINITION: &str = "UPDATE cr_schema SET def = ?2 WHERE name = ?1";

const MARK: &str = "INSERT INTO cr_peer VALUES(?1, ?2)";

const SEEN: &str = "UPDATE cr_peer SET seen = ?2 WHERE site = ?1";

/// Adds a row to `cr_meta`.
pub(crate) fn insert_meta<S: Alter>(
    tx: &mut Transaction<'_, S>,
    name: &str,
    value: ValueRef<'_>,
) -> Result<(), Error>
    ensures same_reference { tx.new.conn.ghost_name ≡ tx.old.conn.ghost_name }
    ensures put { HasCleanDisk (state S.Store tx.new.conn.now) → (a b o c d : List Row) → Holds (state S.Store tx.old.conn.now).now a b o c d
        → OnOk result (Holds (state S.Store tx.new.conn.now).now ((SqlText name.now ∷ bound_value (owned value.entry) ∷ []) ∷ a) b o c d) }
    ensures inside { HasCleanDisk (state S.Store tx.new.conn.now) → OnOk result (tx.new.conn.now.in_transaction ≡ tx.old.conn.now.in_transaction) }
    ensures kept { HasCleanDisk (state S.Store tx.new.conn.now) → KeepsCommit (state S.Store tx.old.conn.now) (state S.Store tx.new.conn.now) }
    ensures survives { Survives (state S.Store tx.old.conn.now) (state S.Store tx.new.conn.now) (λ _. ⊥) }
{
    write(tx, META, &[ValueRef::Text(name.as_bytes()), value])
}

/// Sets the version.
pub(crate) fn set_version<S: Alter>(tx: &mut Transaction<'_, S>, version: i64) -> Result<(), Error>
    ensures same_reference { tx.new.conn.ghost_name ≡ tx.old.conn.ghost_name }
    ensures set { HasCleanDisk (state S.Store tx.new.conn.now) → (site : List ℕ) → (old : ℤ) → (b o c d : List Row) → Holds (state S.Store tx.old.conn.now).now (meta_rows Format.Second site old) b o c d
        → OnOk result (Holds (state S.Store tx.new.conn.now).now (meta_rows Format.Second site version) b o c d) }
    ensures inside { HasCleanDisk (state S.Store tx.new.conn.now) → OnOk result (tx.new.conn.now.in_transaction ≡ tx.old.conn.now.in_transaction) }
    ensures kept { HasCleanDisk (state S.Store tx.new.conn.now) → KeepsCommit (state S.Store tx.old.conn.now) (state S.Store tx.new.conn.now) }
    ensures survives { Survives (state S.Store tx.old.conn.now) (state S.Store tx.new.conn.now) (λ _. ⊥) }
{
    write(
        tx,
        SET,
        &[ValueRef::Text(b"db_version"), ValueRef::Int(version)],
    )
}

/// Sets the format, of a store that was of the first one, to the second.
pub(crate) fn set_format<S: Alter>(tx: &mut Transaction<'_, S>) -> Result<(), Error>
    ensures same_reference { tx.new.conn.ghost_name ≡ tx.old.conn.ghost_name }
    ensures set { HasCleanDisk (state S.Store tx.new.conn.now) → (site : List ℕ) → (version : ℤ) → (b o c d : List Row) → Holds (state S.Store tx.old.conn.now).now (meta_rows Format.First site version) b o c d
        → OnOk result (Holds (state S.Store tx.new.conn.now).now (meta_rows Format.Second site version) b o c d) }
    ensures inside { HasCleanDisk (state S.Store tx.new.conn.now) → OnOk result (tx.new.conn.now.in_transaction ≡ tx.old.conn.now.in_transaction) }
    ensures kept { HasCleanDisk (state S.Store tx.new.conn.now) → KeepsCommit (state S.Store tx.old.conn.now) (state S.Store tx.new.conn.now) }
    ensures survives { Survives (state S.Store tx.old.conn.now) (state S.Store tx.new.conn.now) (λ _. ⊥) }
{
    write(tx, SET, &[ValueRef::Text(b"format"), ValueRef::Int(2)])
}

/// What `crr` is of a table.
pub(crate) fn crr_of(is_replicated: bool) -> i64
    ensures { result ≡ one_if is_replicated }
{
    if is_replicated { 1 } else { 0 }
}

/// Adds a table, by its name, its place from 1, its `crr` and the bytes of its definition.
pub(crate) fn insert_table<'a, S: Alter>(
    tx: &mut Transaction<'_, S>,
    name: &'a str,
    ordinal: i64,
    crr: i64,
    definition: &'a [u8],
) -> Result<(), Error>
    ensures same_reference { tx.new.conn.ghost_name ≡ tx.old.conn.ghost_name }
    ensures put { HasCleanDisk (state S.Store tx.new.conn.now) → (a b o c d : List Row) → Holds (state S.Store tx.old.conn.now).now a b o c d
        → OnOk result (Holds (state S.Store tx.new.conn.now).now a ((SqlText name.now ∷ SqlInt ordinal ∷ SqlInt crr ∷ SqlBlob definition.now ∷ []) ∷ b) o c d) }
    ensures inside { HasCleanDisk (state S.Store tx.new.conn.now) → OnOk result (tx.new.conn.now.in_transaction ≡ tx.old.conn.now.in_transaction) }
    ensures kept { HasCleanDisk (state S.Store tx.new.conn.now) → KeepsCommit (state S.Store tx.old.conn.now) (state S.Store tx.new.conn.now) }
    ensures survives { Survives (state S.Store tx.old.conn.now) (state S.Store tx.new.conn.now) (λ _. ⊥) }
{
    write(
        tx,
        TABLE,
        &[
            ValueRef::Text(name.as_bytes()),
            ValueRef::Int(ordinal),
            ValueRef::Int(crr),
            ValueRef::Blob(definition),
        ],
    )
}

/// Marks the table of that name as replicated.
pub(crate) fn set_replicated<S: Alter>(tx: &mut Transaction<'_, S>, name: &str) -> Result<(), Error>
    ensures same_reference { tx.new.conn.ghost_name ≡ tx.old.conn.ghost_name }
    ensures set { HasCleanDisk (state S.Store tx.new.conn.now) → (a o c d : List Row) → (tables : List Table) → Holds (state S.Store tx.old.conn.now).now a (table_rows 1 tables) o c d
        → OnOk result (Holds (state S.Store tx.new.conn.now).now a (table_rows 1 (with_replicated name.now tables)) o c d) }
    ensures inside { HasCleanDisk (state S.Store tx.new.conn.now) → OnOk result (tx.new.conn.now.in_transaction ≡ tx.old.conn.now.in_transaction) }
    ensures kept { HasCleanDisk (state S.Store tx.new.conn.now) → KeepsCommit (state S.Store tx.old.conn.now) (state S.Store tx.new.conn.now) }
    ensures survives { Survives (state S.Store tx.old.conn.now) (state S.Store tx.new.conn.now) (λ _. ⊥) }
{
    write(
        tx,
        CRR,
        &[ValueRef::Text(name.as_bytes()), ValueRef::Int(1)],
    )
}

/// Sets the bytes of a definition, that of the table of that name with one column more.
pub(crate) fn set_definition<'a, S: Alter>(
    tx: &mut Transaction<'_, S>,
    name: &'a str,
    definition: &'a [u8],
) -> Result<(), Error>
    ensures same_reference { tx.new.conn.ghost_name ≡ tx.old.conn.ghost_name }
    ensures set { HasCleanDisk (state S.Store tx.new.conn.now) → (a o c d : List Row) → (column : ColumnDef) → (tables : List Table) → AreWidened name.now column definition.now tables → Holds (state S.Store tx.old.conn.now).now a (table_rows 1 tables) o c d
        → OnOk result (Holds (state S.Store tx.new.conn.now).now a (table_rows 1 (with_added name.now column tables)) o c d) }
    ensures inside { HasCleanDisk (state S.Store tx.new.conn.now) → OnOk result (tx.new.conn.now.in_transaction ≡ tx.old.conn.now.in_transaction) }
    ensures kept { HasCleanDisk (state S.Store tx.new.conn.now) → KeepsCommit (state S.Store tx.old.conn.now) (state S.Store tx.new.conn.now) }
    ensures survives { Survives (state S.Store tx.old.conn.now) (state S.Store tx.new.conn.now) (λ _. ⊥) }
{
    write(
        tx,
        DEFINITION,
        &[ValueRef::Text(name.as_bytes()), ValueRef::Blob(definition)],
    )
}

/// Adds the mark of a site that has none.
pub(crate) fn insert_mark<S: Alter>(
    tx: &mut Transaction<'_, S>,
    site: &Site,
    version: i64,
) -> Result<(), Error>
    ensures same_reference { tx.new.conn.ghost_name ≡ tx.old.conn.ghost_name }
    ensures put { HasCleanDisk (state S.Store tx.new.conn.now) → (a b o c : List Row) → (marks : List Mark) → Holds (state S.Store tx.old.conn.now).now a b o c (map mark_row marks)
        → OnOk result (Holds (state S.Store tx.new.conn.now).now a b o c (map mark_row ((site.now, version) ∷ marks))) }
    ensures inside { HasCleanDisk (state S.Store tx.new.conn.now) → OnOk result (tx.new.conn.now.in_transaction ≡ tx.old.conn.now.in_transaction) }
    ensures kept { HasCleanDisk (state S.Store tx.new.conn.now) → KeepsCommit (state S.Store tx.old.conn.now) (state S.Store tx.new.conn.now) }
    ensures survives { Survives (state S.Store tx.old.conn.now) (state S.Store tx.new.conn.now) (λ _. ⊥) }
{
    write(tx, MARK, &[ValueRef::Blob(site), ValueRef::Int(version)])
}

/// Sets the mark of a site that has one.
pub(crate) fn update_mark<S: Alter>(
    tx: &mut Transaction<'_, S>,
    site: &Site,
    version: i64,
) -> Result<(), Error>
    ensures same_reference { tx.new.conn.ghost_name ≡ tx.old.conn.ghost_name }
    ensures set { HasCleanDisk (state S.Store tx.new.conn.now) → (a b o c : List Row) → (marks : List Mark) → Holds (state S.Store tx.old.conn.now).now a b o c (map mark_row marks)
        → OnOk result (Holds (state S.Store tx.new.conn.now).now a b o c (map mark_row (set_mark (site.now, version) marks))) }
    ensures inside { HasCleanDisk (state S.Store tx.new.conn.now) → OnOk result (tx.new.conn.now.in_transaction ≡ tx.old.conn.now.in_transaction) }
    ensures kept { HasCleanDisk (state S.Store tx.new.conn.now) → KeepsCommit (state S.Store tx.old.conn.now) (state S.Store tx.new.conn.now) }
    ensures survives { Survives (state S.Store tx.old.conn.now) (state S.Store tx.new.conn.now) (λ _. ⊥) }
{
    write(tx, SEEN, &[ValueRef::Blob(site), ValueRef::Int(version)])
}
