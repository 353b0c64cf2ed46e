//! The transaction of a commit.

ghost use Rattle.std.specs.Prelude.{◌≡◌, ℕ, ℤ, List, false, map, IsTrue, OnOk, OnErr, Option};
ghost use Rattle.std.specs.List.{AllByRecursion};
ghost use Rattle.sqlite.specs.Held.{state};
ghost use Rattle.sqlite.specs.Order.{Row};
ghost use Rattle.sqlite.specs.State.{HasCleanDisk, KeepsCommit, Survives};
ghost use Rattle.cr_lattice.specs.declared.stamped.Stamped.{Stamped};
ghost use Rattle.cr_cells.specs.Marks.{Mark, marks_after};
ghost use Rattle.cr_store.specs.Plan.{put_new, put_all, without_all};
ghost use Rattle.cr_store.specs.Ordinals.{IsNamed};
ghost use Rattle.cr_store.specs.Rows.{meta_rows, mark_row};
ghost use Rattle.cr_store.specs.Shows.{Holds, HasCells};
ghost use Rattle.cr_store.specs.Words.{has_site, IsTold};

use crate::cells::{delete_old, insert, update};
use crate::format::Format;
use crate::plan::{New, Plan};
use crate::records::{insert_mark, set_version, update_mark};
use cr_cells::marks::Mark;
use cr_lattice::change::{Change, Site};
use cr_lattice::table::Table;
use cr_value::order::same_bytes;
use sqlite::{Alter, Connection, Error, Transaction};

fn put<S: Alter>(tx: &mut Transaction<'_, S>, tables: &[Table], new: &New) -> Result<(), Error>
    ensures same_reference { tx.new.conn.ghost_name ≡ tx.old.conn.ghost_name }
    ensures put { HasCleanDisk (state S.Store tx.new.conn.now) → (a b o d : List Row) → (ss : List Stamped) → IsNamed tables.now new.now.cell → HasCells (state S.Store tx.old.conn.now).now tables.now a b o d ss
        → OnOk result (HasCells (state S.Store tx.new.conn.now).now tables.now a b o d (put_new new.now ss)) }
    ensures inside { HasCleanDisk (state S.Store tx.new.conn.now) → OnOk result (tx.new.conn.now.in_transaction ≡ tx.old.conn.now.in_transaction) }
    ensures kept { HasCleanDisk (state S.Store tx.new.conn.now) → KeepsCommit (state S.Store tx.old.conn.now) (state S.Store tx.new.conn.now) }
    ensures survives { Survives (state S.Store tx.old.conn.now) (state S.Store tx.new.conn.now) (λ _. ⊥) }
{
    if new.is_there {
        update(tx, tables, &new.cell)
    } else {
        insert(tx, tables, &new.cell)
    }
}

fn put_all<S: Alter>(
    tx: &mut Transaction<'_, S>,
    tables: &[Table],
    news: &[New],
) -> Result<(), Error>
    ensures same_reference { tx.new.conn.ghost_name ≡ tx.old.conn.ghost_name }
    ensures put { HasCleanDisk (state S.Store tx.new.conn.now) → (a b o d : List Row) → (ss : List Stamped) → AllByRecursion (λ n. IsNamed tables.now n.cell) news.now → HasCells (state S.Store tx.old.conn.now).now tables.now a b o d ss
        → OnOk result (HasCells (state S.Store tx.new.conn.now).now tables.now a b o d (put_all news.now ss)) }
    ensures inside { HasCleanDisk (state S.Store tx.new.conn.now) → OnOk result (tx.new.conn.now.in_transaction ≡ tx.old.conn.now.in_transaction) }
    ensures kept { HasCleanDisk (state S.Store tx.new.conn.now) → KeepsCommit (state S.Store tx.old.conn.now) (state S.Store tx.new.conn.now) }
    ensures survives { Survives (state S.Store tx.old.conn.now) (state S.Store tx.new.conn.now) (λ _. ⊥) }
{
    for new in news {
        put(tx, tables, new)?;
    }
    Ok(())
}

fn delete_all<S: Alter>(
    tx: &mut Transaction<'_, S>,
    tables: &[Table],
    gone: &[Change],
    version: i64,
) -> Result<(), Error>
    ensures same_reference { tx.new.conn.ghost_name ≡ tx.old.conn.ghost_name }
    ensures cut { HasCleanDisk (state S.Store tx.new.conn.now) → (a b o d : List Row) → (ss : List Stamped) → HasCells (state S.Store tx.old.conn.now).now tables.now a b o d ss
        → OnOk result (HasCells (state S.Store tx.new.conn.now).now tables.now a b o d (without_all version gone.now ss)) }
    ensures inside { HasCleanDisk (state S.Store tx.new.conn.now) → OnOk result (tx.new.conn.now.in_transaction ≡ tx.old.conn.now.in_transaction) }
    ensures kept { HasCleanDisk (state S.Store tx.new.conn.now) → KeepsCommit (state S.Store tx.old.conn.now) (state S.Store tx.new.conn.now) }
    ensures survives { Survives (state S.Store tx.old.conn.now) (state S.Store tx.new.conn.now) (λ _. ⊥) }
{
    for change in gone {
        delete_old(tx, tables, change, version)?;
    }
    Ok(())
}

fn has_site(marks: &[Mark], site: &Site) -> bool
    ensures { result ≡ has_site marks.now site.now }
{
    marks.iter().any(|mark| same_bytes(&mark.0, site))
}

/// Whether the mark's site has a mark.
pub(crate) fn is_marked(marks: &[Mark], mark: &Option<Mark>) -> bool
    ensures { IsTold mark.now result marks.now }
{
    match mark {
        Some(mark) => has_site(marks, &mark.0),
        None => false,
    }
}

fn put_mark<S: Alter>(
    tx: &mut Transaction<'_, S>,
    mark: Option<Mark>,
    is_there: bool,
) -> Result<(), Error>
    ensures same_reference { tx.new.conn.ghost_name ≡ tx.old.conn.ghost_name }
    ensures put { HasCleanDisk (state S.Store tx.new.conn.now) → (a b o c : List Row) → (marks : List Mark) → IsTold mark is_there marks → Holds (state S.Store tx.old.conn.now).now a b o c (map mark_row marks)
        → OnOk result (Holds (state S.Store tx.new.conn.now).now a b o c (map mark_row (marks_after marks mark))) }
    ensures inside { HasCleanDisk (state S.Store tx.new.conn.now) → OnOk result (tx.new.conn.now.in_transaction ≡ tx.old.conn.now.in_transaction) }
    ensures kept { HasCleanDisk (state S.Store tx.new.conn.now) → KeepsCommit (state S.Store tx.old.conn.now) (state S.Store tx.new.conn.now) }
    ensures survives { Survives (state S.Store tx.old.conn.now) (state S.Store tx.new.conn.now) (λ _. ⊥) }
{
    match mark {
        Some(mark) => {
            let site = mark.0;
            let version = mark.1;
            if is_there {
                update_mark(tx, &site, version)
            } else {
                insert_mark(tx, &site, version)
            }
        }
        None => Ok(()),
    }
}

// What a commit writes, in its transaction.
fn write_all<S: Alter>(
    tx: &mut Transaction<'_, S>,
    tables: &[Table],
    plan: &Plan,
    stamp: i64,
    version: i64,
    mark: Option<Mark>,
    is_there: bool,
) -> Result<(), Error>
    ensures same_reference { tx.new.conn.ghost_name ≡ tx.old.conn.ghost_name }
    ensures put { HasCleanDisk (state S.Store tx.new.conn.now) → (site : List ℕ) → (old : ℤ) → (b o : List Row) → (ss : List Stamped) → (marks : List Mark) → IsTold mark is_there marks → AllByRecursion (λ n. IsNamed tables.now n.cell) plan.now.news.items
        → HasCells (state S.Store tx.old.conn.now).now tables.now (meta_rows Format.Second site old) b o (map mark_row marks) ss
        → OnOk result (HasCells (state S.Store tx.new.conn.now).now tables.now (meta_rows Format.Second site version) b o (map mark_row (marks_after marks mark)) (without_all stamp plan.now.gone.items (put_all plan.now.news.items ss))) }
    ensures inside { HasCleanDisk (state S.Store tx.new.conn.now) → OnOk result (tx.new.conn.now.in_transaction ≡ tx.old.conn.now.in_transaction) }
    ensures kept { HasCleanDisk (state S.Store tx.new.conn.now) → KeepsCommit (state S.Store tx.old.conn.now) (state S.Store tx.new.conn.now) }
    ensures survives { Survives (state S.Store tx.old.conn.now) (state S.Store tx.new.conn.now) (λ _. ⊥) }
{
    put_all(tx, tables, &plan.news)?;
    delete_all(tx, tables, &plan.gone, stamp)?;
    set_version(tx, version)?;
    put_mark(tx, mark, is_there)
}

/// Writes what a commit is to write, in one transaction.
pub(crate) fn write_commit<S: Alter>(
    conn: &mut Connection<S>,
    tables: &[Table],
    plan: &Plan,
    stamp: i64,
    version: i64,
    mark: Option<Mark>,
    is_there: bool,
) -> Result<(), Error>
    requires auto { conn.old.in_transaction ≡ false }
    requires settled { IsTrue (state S.Store conn.old).is_open → (state S.Store conn.old).now ≡ (state S.Store conn.old).committed }
    ensures put { HasCleanDisk (state S.Store conn.new) → (site : List ℕ) → (old : ℤ) → (b o : List Row) → (ss : List Stamped) → (marks : List Mark) → IsTold mark is_there marks → AllByRecursion (λ n. IsNamed tables.now n.cell) plan.now.news.items
        → HasCells (state S.Store conn.old).now tables.now (meta_rows Format.Second site old) b o (map mark_row marks) ss
        → OnOk result (HasCells (state S.Store conn.new).now tables.now (meta_rows Format.Second site version) b o (map mark_row (marks_after marks mark)) (without_all stamp plan.now.gone.items (put_all plan.now.news.items ss))) }
    ensures opened { HasCleanDisk (state S.Store conn.new) → OnOk result (IsTrue (state S.Store conn.new).is_open) }
    ensures same { HasCleanDisk (state S.Store conn.new) → IsTrue (state S.Store conn.new).is_open → OnErr result ((state S.Store conn.new).now ≡ (state S.Store conn.old).now) }
    ensures auto { conn.new.in_transaction ≡ false }
    ensures clean { HasCleanDisk (state S.Store conn.new) → HasCleanDisk (state S.Store conn.old) }
    ensures was_open { HasCleanDisk (state S.Store conn.new) → IsTrue (state S.Store conn.new).is_open → IsTrue (state S.Store conn.old).is_open }
{
    let mut tx = conn.transaction();
    write_all(&mut tx, tables, plan, stamp, version, mark, is_there)?;
    tx.commit()?;
    Ok(())
}
