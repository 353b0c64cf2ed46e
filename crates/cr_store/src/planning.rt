//! What a commit is to write, from the cells that it touches.

ghost use Rattle.std.specs.Prelude.{◌≡◌, pos, length, [], ◌∷◌, ◌++◌, List, true, false, ◌&&◌, filter, IsTrue, IfErr, OnOk, MatchResult};
ghost use Rattle.std.specs.List.Sorted.{IsStrictlySortedBy};
ghost use Rattle.sqlite.specs.Held.{state};
ghost use Rattle.sqlite.specs.Order.{Row};
ghost use Rattle.sqlite.specs.State.{HasCleanDisk};
ghost use Rattle.cr_lattice.specs.declared.change.Change.{Change};
ghost use Rattle.cr_lattice.specs.declared.stamped.Stamped.{Stamped};
ghost use Rattle.cr_cells.specs.Calls.{IsRefusal, is_want};
ghost use Rattle.cr_cells.specs.Holding.{changes_of, cell_cmp, cells_of};
ghost use Rattle.cr_store.specs.Schema.{store_schema};
ghost use Rattle.cr_store.specs.Shows.{HasCells};
ghost use Rattle.cr_store.specs.Plan.{is_there, removes, IsPlan};
ghost use Rattle.cr_store.specs.Words.{same_key};

use crate::plan::{New, Plan};
use crate::reads::cells_of;
use cr_cells::newly::{is_new, is_read};
use cr_cells::store::CellsError;
use cr_lattice::change::Change;
use cr_lattice::order::beats;
use cr_lattice::stamped::Stamped;
use cr_lattice::table::Table;
use cr_value::order::same_bytes;
use sqlite::{Alter, Connection};
use std::alloc::{AllocError, Global};

fn same_key(a: &Change, b: &Change) -> bool
    ensures { result ≡ same_key a.now b.now }
{
    same_bytes(a.table.as_str().as_bytes(), b.table.as_str().as_bytes())
        && same_bytes(a.pk.as_slice(), b.pk.as_slice())
        && same_bytes(a.cid.as_str().as_bytes(), b.cid.as_str().as_bytes())
}

fn is_there(row: &[Stamped], change: &Change) -> bool
    ensures { result ≡ is_there row.now change.now }
{
    row.iter().any(|cell| same_key(&cell.change, change))
}

fn removes(change: &Change, other: &Change) -> bool
    ensures { result ≡ removes change.now other.now }
{
    beats(change, other) && !same_key(other, change)
}

fn push_removed(
    alloc: Global,
    gone: &mut Vec<Change>,
    row: &[Stamped],
    change: &Change,
) -> Result<(), AllocError>
    ensures { OnOk result (gone.new.items ≡ gone.old.items ++ filter (removes change.now) (changes_of row.now)) }
{
    for cell in row {
        if removes(change, &cell.change) {
            gone.push(cell.change.copy(alloc)?)?;
        }
    }
    Ok(())
}

// The places of a commit's cells are counted from 0.
fn next_place(news: &[New]) -> i64
    ensures { result ≡ pos (length news.now) }
{
    news.len() as i64
}

// Takes a change over the cells of its row.
fn take(
    alloc: Global,
    plan: &mut Plan,
    row: &[Stamped],
    change: &Change,
    version: i64,
) -> Result<(), AllocError>
    ensures { (ss : List Stamped) → (cs : List Change) → row.now ≡ cells_of ss change.now.table change.now.pk → IsPlan ss cs version plan.old
        → OnOk result (IsPlan ss (cs ++ change.now ∷ []) version plan.new) }
{
    if !is_new(row, change) {
        return Ok(());
    }
    push_removed(alloc, &mut plan.gone, row, change)?;
    let seq = next_place(&plan.news);
    let change = change.copy(alloc)?;
    let is_there = is_there(row, &change);
    let cell = Stamped {
        change,
        version,
        seq,
    };
    plan.news.push(New { cell, is_there })?;
    Ok(())
}

/// What is to be written where changes are taken, of which none beats another. Reads the cells of their rows and no others,
/// those of a row once for changes that stand together.
///
/// # Errors
/// `Memory`, or `Store(Refused)`.
pub(crate) fn plan<S: Alter>(
    alloc: Global,
    conn: &mut Connection<S>,
    tables: &[Table],
    changes: &[Change],
    version: i64,
) -> Result<Plan, CellsError>
    requires mode { conn.old.in_transaction ≡ false }
    ensures planned { HasCleanDisk (state S.Store conn.new) → IsTrue (state S.Store conn.new).is_open → (a b o d : List Row) → (ss : List Stamped) → HasCells (state S.Store conn.old).now tables.now a b o d ss → IsStrictlySortedBy cell_cmp ss
        → MatchResult result (IsPlan ss changes.now version) IsRefusal }
    ensures opened { HasCleanDisk (state S.Store conn.new) → IsTrue (state S.Store conn.old).is_open → OnOk result (IsTrue (state S.Store conn.new).is_open) }
    ensures wants { IfErr result (λ e. is_want e ≡ true) }
    ensures same { HasCleanDisk (state S.Store conn.new) → (state S.Store conn.old).now.schema ≡ store_schema
        → IsTrue (state S.Store conn.new).is_open → (state S.Store conn.new).now ≡ (state S.Store conn.old).now }
    ensures was_open { HasCleanDisk (state S.Store conn.new) → IsTrue (state S.Store conn.new).is_open → IsTrue (state S.Store conn.old).is_open }
    ensures mode { conn.new.in_transaction ≡ false }
    ensures clean { HasCleanDisk (state S.Store conn.new) → HasCleanDisk (state S.Store conn.old) }
{
    let mut plan = Plan {
        news: Vec::new(alloc),
        gone: Vec::new(alloc),
    };
    let mut row = Vec::new(alloc);
    let mut read = None;
    for change in changes {
        if !is_read(read, change) {
            let _ = conn.is_autocommit();
            let table = change.table.as_str();
            row = cells_of(conn, tables, table, change.pk.as_slice(), alloc)?;
            read = Some(change);
        }
        take(alloc, &mut plan, &row, change, version)?;
    }
    Ok(plan)
}
