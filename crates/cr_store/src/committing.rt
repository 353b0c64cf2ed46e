//! A commit, over a connection.

ghost use Rattle.std.specs.Prelude.{◌≡◌, ℤ, pos, ◌+ℤ◌, not, cond, false, IsTrue, MatchResult, IfOk, Option};
ghost use Rattle.std.specs.Ordering.{int_eq};
ghost use Rattle.sqlite.specs.Held.{state};
ghost use Rattle.sqlite.specs.State.{HasCleanDisk};
ghost use Rattle.cr_lattice.specs.Keep.{keep};
ghost use Rattle.cr_cells.specs.Calls.{is_want, UnlessWant};
ghost use Rattle.cr_cells.specs.Commit.{greatest_version};
ghost use Rattle.cr_cells.specs.Holding.{IsSound};
ghost use Rattle.cr_cells.specs.Tables.{AreWellFormed};
ghost use Rattle.cr_store.specs.Committing.{is_none, IsDecided, HasCommitted, IsUndecided};
ghost use Rattle.cr_store.specs.Kept.{holding_of};
ghost use Rattle.cr_store.specs.Schema.{store_schema};
ghost use Rattle.cr_store.specs.Shows.{Shows};

use crate::known::Known;
use crate::outcome::{Decision, Outcome};
use crate::plan::New;
use crate::planning::plan;
use crate::rows::refusal;
use crate::writing::{is_marked, write_commit};
use cr_cells::marks::{Mark, marks_after};
use cr_cells::newly::stay_within_limit;
use cr_cells::store::CellsError;
use cr_lattice::change::Change;
use cr_lattice::merge::merge;
use sqlite::{Alter, Connection};
use std::alloc::{AllocError, Global};

// The version of a commit that changes something, but for the greatest.
fn stamp_after(version: i64) -> i64
    ensures { int_eq version greatest_version ≡ false → result ≡ version +ℤ pos 1 }
{
    match version.checked_add(1) {
        Some(next) => next,
        None => version,
    }
}

fn version_after(is_changed: bool, stamp: i64, version: i64) -> i64
    ensures { result ≡ cond is_changed stamp version }
{
    if is_changed { stamp } else { version }
}

fn has_news(news: &[New]) -> bool
    ensures { result ≡ not (is_none news.now) }
{
    !news.is_empty()
}

// What changes keep of one another.
fn kept_of(alloc: Global, changes: &[Change]) -> Result<Vec<Change>, AllocError>
    ensures { IfOk result (λ v. v.items ≡ keep changes.now) }
{
    merge(alloc, &[], changes)
}

// What is to be written for changes, from the cells that they touch.
fn decide<S: Alter>(
    alloc: Global,
    conn: &mut Connection<S>,
    known: &Known,
    changes: &[Change],
) -> Result<Decision, CellsError>
    requires mode { conn.old.in_transaction ≡ false }
    ensures decided { HasCleanDisk (state S.Store conn.new) → IsTrue (state S.Store conn.new).is_open → Shows (state S.Store conn.old).now (holding_of (state S.Store conn.old).now known.now) → IsSound (holding_of (state S.Store conn.old).now known.now) → AreWellFormed known.now.tables.items changes.now
        → MatchResult result (IsDecided (holding_of (state S.Store conn.old).now known.now) changes.now) (IsUndecided (holding_of (state S.Store conn.old).now known.now) changes.now) }
    ensures same { HasCleanDisk (state S.Store conn.new) → (state S.Store conn.old).now.schema ≡ store_schema
        → IsTrue (state S.Store conn.new).is_open → (state S.Store conn.new).now ≡ (state S.Store conn.old).now }
    ensures opened { HasCleanDisk (state S.Store conn.new) → IsTrue (state S.Store conn.old).is_open → UnlessWant is_want result (IsTrue (state S.Store conn.new).is_open) }
    ensures was_open { HasCleanDisk (state S.Store conn.new) → IsTrue (state S.Store conn.new).is_open → IsTrue (state S.Store conn.old).is_open }
    ensures mode { conn.new.in_transaction ≡ false }
    ensures clean { HasCleanDisk (state S.Store conn.new) → HasCleanDisk (state S.Store conn.old) }
{
    let kept = kept_of(alloc, changes)?;
    let stamp = stamp_after(known.version);
    let plan = plan(alloc, conn, &known.tables, &kept, stamp)?;
    let is_changed = has_news(&plan.news);
    stay_within_limit(is_changed, known.version)?;
    let version = version_after(is_changed, stamp, known.version);
    Ok(Decision {
        plan,
        stamp,
        version,
        is_changed,
    })
}

/// Takes changes and the mark of a peer, in one transaction. All that takes memory comes before it.
///
/// # Errors
/// `VersionLimit`, `Memory`, or `Store(Refused)`; then the database is as it was.
pub(crate) fn commit<S: Alter>(
    alloc: Global,
    conn: &mut Connection<S>,
    known: &Known,
    changes: &[Change],
    peer: Option<Mark>,
) -> Result<Outcome, CellsError>
    requires mode { conn.old.in_transaction ≡ false }
    ensures done { HasCleanDisk (state S.Store conn.new) → IsTrue (state S.Store conn.new).is_open → Shows (state S.Store conn.old).now (holding_of (state S.Store conn.old).now known.now) → IsSound (holding_of (state S.Store conn.old).now known.now) → AreWellFormed known.now.tables.items changes.now
        → MatchResult result (HasCommitted (state S.Store conn.new).now (holding_of (state S.Store conn.old).now known.now) changes.now peer)
        (λ e. ((state S.Store conn.new).now ≡ (state S.Store conn.old).now) × IsUndecided (holding_of (state S.Store conn.old).now known.now) changes.now e) }
    ensures opened { HasCleanDisk (state S.Store conn.new) → IsTrue (state S.Store conn.old).is_open → UnlessWant is_want result (IsTrue (state S.Store conn.new).is_open) }
    ensures was_open { HasCleanDisk (state S.Store conn.new) → IsTrue (state S.Store conn.new).is_open → IsTrue (state S.Store conn.old).is_open }
    ensures mode { conn.new.in_transaction ≡ false }
    ensures clean { HasCleanDisk (state S.Store conn.new) → HasCleanDisk (state S.Store conn.old) }
{
    let marks = marks_after(alloc, &known.marks, peer)?;
    let is_there = is_marked(&known.marks, &peer);
    let decision = decide(alloc, conn, known, changes)?;
    let _ = conn.is_autocommit();
    match write_commit(
        conn,
        &known.tables,
        &decision.plan,
        decision.stamp,
        decision.version,
        peer,
        is_there,
    ) {
        Ok(()) => Ok(Outcome {
            version: decision.version,
            marks,
            is_changed: decision.is_changed,
        }),
        Err(error) => Err(refusal(error)),
    }
}
