//! The rows of sqlite's tables, and what SQL texts do to them.
//!
//! `proofs/` has a lemma for each kind of statement on a table whose schema is written out, generic over the table.
#![tactic(auto)]

ghost use Rattle.std.specs.Prelude.{◌≡◌, ◌≢◌, ◌⊎◌, ◌<◌, ℕ, List, length, Ok, Err, false, IsTrue, IsUtf8, IfOk, IfErr, OnOk, OnErr, map};
ghost use Rattle.std.specs.String.{string_bytes};
ghost use Rattle.sqlite.specs.declared.types.Value.TheVariants.{Text, Blob, Int};
ghost use Rattle.sqlite.specs.declared.error.Error.TheVariants.{SqliteFailure};
ghost use Rattle.sqlite.specs.declared.error.ErrorCode.TheVariants.{OutOfMemory};
ghost use Rattle.sqlite.specs.Values.{IsInt, bound};
ghost use Rattle.sqlite.specs.Listing.{understood};
ghost use Rattle.sqlite.specs.State.{HasCleanDisk, KeepsCommit, IsUnchanged, IsRolledBack, Survives, ExecutesIn, ExecutesInside, FailsToQuery, Shown};
ghost use Rattle.sqlite.specs.Given.{IsPlain};
ghost use Rattle.sqlite.specs.Held.{state};
ghost use Rattle.sqlite_value.specs.Order.{column, Row as Values};
ghost use Rattle.cr_rows.specs.Made.{MakesAs};

use sqlite::types::ValueRef;
use sqlite::{Alter, Connection, Error, ErrorCode, Row, Transaction};
use std::alloc::Global;

/// The text in a column, by its place from 0.
///
/// # Errors
/// Where there is no such column, or it has no text, or for want of memory.
pub fn text_at(row: &Row, at: usize) -> Result<String, Error>
    ensures ok { IfOk result (λ t. column row.now at ≡ Text (string_bytes t)) }
    ensures err { IfErr result (λ e. e ≢ SqliteFailure OutOfMemory → at < length row.now → ¬ ((t : List ℕ) × (column row.now at ≡ Text t) × IsUtf8 t)) }
{
    row.get(at)
}

/// The blob in a column, by its place from 0.
///
/// # Errors
/// Where there is no such column, or it has no blob, or for want of memory.
pub fn blob_at(row: &Row, at: usize) -> Result<Vec<u8>, Error>
    ensures ok { IfOk result (λ b. column row.now at ≡ Blob b.items) }
    ensures err { IfErr result (λ e. e ≢ SqliteFailure OutOfMemory → at < length row.now → ¬ ((b : List ℕ) × (column row.now at ≡ Blob b))) }
{
    row.get(at)
}

/// The integer in a column, by its place from 0.
///
/// # Errors
/// Where there is no such column, or it has no integer, or for want of memory.
pub fn int_at(row: &Row, at: usize) -> Result<i64, Error>
    ensures ok { IfOk result (λ n. column row.now at ≡ Int n) }
    ensures err { IfErr result (λ e. e ≢ SqliteFailure OutOfMemory → at < length row.now → ¬ IsInt (column row.now at)) }
{
    row.get(at)
}

/// Runs one statement in a transaction.
///
/// # Errors
/// sqlite's. Then nothing was committed; the statement did nothing, or the transaction is rolled back.
pub fn write<S: Alter>(
    tx: &mut Transaction<'_, S>,
    sql: &str,
    params: &[ValueRef<'_>],
) -> Result<(), Error>
    ensures same_reference { tx.new.conn.ghost_name ≡ tx.old.conn.ghost_name }
    ensures ran { HasCleanDisk (state S.Store tx.new.conn.now) → OnOk result ((count : ℕ) × ExecutesIn false sql.now (bound params.now) (state S.Store tx.old.conn.now) (state S.Store tx.new.conn.now) (Ok count)) }
    ensures inside { HasCleanDisk (state S.Store tx.new.conn.now) → OnOk result (tx.new.conn.now.in_transaction ≡ tx.old.conn.now.in_transaction) }
    ensures told { HasCleanDisk (state S.Store tx.new.conn.now) → IsTrue (state S.Store tx.old.conn.now).in_transaction → IfErr result (λ e. ExecutesInside 0 sql.now (bound params.now) (state S.Store tx.old.conn.now) (state S.Store tx.new.conn.now) (Err e)) }
    ensures failed { HasCleanDisk (state S.Store tx.new.conn.now) → IsTrue (state S.Store tx.new.conn.now).is_open → OnErr result (IsUnchanged (state S.Store tx.old.conn.now) (state S.Store tx.new.conn.now) ⊎ IsRolledBack (state S.Store tx.old.conn.now) (state S.Store tx.new.conn.now)) }
    ensures kept { HasCleanDisk (state S.Store tx.new.conn.now) → KeepsCommit (state S.Store tx.old.conn.now) (state S.Store tx.new.conn.now) }
    ensures survives { Survives (state S.Store tx.old.conn.now) (state S.Store tx.new.conn.now) (λ _. ⊥) }
{
    tx.execute(sql, params)?;
    Ok(())
}

/// The rows that a query shows, all of them.
///
/// # Errors
/// sqlite's. Then nothing was committed; nothing is changed, or an open transaction is rolled back.
pub fn ask<S: Alter>(
    conn: &mut Connection<S>,
    sql: &str,
    params: &[ValueRef<'_>],
) -> Result<Vec<Row>, Error>
    ensures found { HasCleanDisk (state S.Store conn.new) → IfOk result (λ rows. Shown sql.now (bound params.now) (state S.Store conn.old) (state S.Store conn.new) rows.items) }
    ensures failed { HasCleanDisk (state S.Store conn.new) → IfErr result (FailsToQuery sql.now (bound params.now) (state S.Store conn.old) (state S.Store conn.new)) }
    ensures same { HasCleanDisk (state S.Store conn.new) → IsPlain (understood (state S.Store conn.old).now.schema sql.now) → (state S.Store conn.old).now ≡ (state S.Store conn.old).committed
        → IsTrue (state S.Store conn.new).is_open → (state S.Store conn.new).now ≡ (state S.Store conn.old).now }
    ensures was_open { HasCleanDisk (state S.Store conn.new) → IsTrue (state S.Store conn.new).is_open → IsTrue (state S.Store conn.old).is_open }
    ensures mode { conn.old.in_transaction ≡ false → conn.new.in_transaction ≡ false }
    ensures survives { HasCleanDisk (state S.Store conn.new) → HasCleanDisk (state S.Store conn.old) }
{
    conn.query_all(sql, params)
}

/// What `read` makes of each row that a query shows, in their order. The rows are never held together: there is one at a
/// time, and what sqlite reads ahead.
///
/// # Errors
/// sqlite's, those of `read`, and want of memory. Then nothing is changed, or an open transaction is rolled back, unless the text
/// is a write that shows rows.
pub fn read_each<S: Alter, T: Drop, F: Fn(&Row) -> Result<T, Error>>(
    conn: &mut Connection<S>,
    sql: &str,
    params: &[ValueRef<'_>],
    alloc: Global,
    read: F,
) -> Result<Vec<T>, Error>
    requires { F.IsAlwaysCallable read }
    ensures found { HasCleanDisk (state S.Store conn.new) → IfOk result (λ made. (rows : List Values) × Shown sql.now (bound params.now) (state S.Store conn.old) (state S.Store conn.new) rows
        × ((f : Values → T) → MakesAs f (F.post read) → made.items ≡ map f rows)) }
    ensures same { HasCleanDisk (state S.Store conn.new) → IsPlain (understood (state S.Store conn.old).now.schema sql.now) → (state S.Store conn.old).now ≡ (state S.Store conn.old).committed
        → IsTrue (state S.Store conn.new).is_open → (state S.Store conn.new).now ≡ (state S.Store conn.old).now }
    ensures was_open { HasCleanDisk (state S.Store conn.new) → IsTrue (state S.Store conn.new).is_open → IsTrue (state S.Store conn.old).is_open }
    ensures mode { conn.old.in_transaction ≡ false → conn.new.in_transaction ≡ false }
    ensures survives { HasCleanDisk (state S.Store conn.new) → HasCleanDisk (state S.Store conn.old) }
{
    let mut made = Vec::new(alloc);
    let mut rows = conn.query(sql, params)?;
    // A loop has a bound; no query shows as many rows.
    'rows: for _ in 0..u64::MAX {
        let Some(row) = rows.next()? else {
            return Ok(made);
        };
        made.push(read(row)?)?;
    }
    Err(Error::SqliteFailure(ErrorCode::TooBig))
}
