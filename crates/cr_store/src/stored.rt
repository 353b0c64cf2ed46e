//! What the rows of a store's tables say, read without trust in them.

ghost use Rattle.std.specs.Prelude.{◌≡◌, ◌≢◌, ◌<◌, List, map, length, IfOk, MatchOption, MatchResult, Decides};
ghost use Rattle.std.specs.List.{AllByRecursion, IsDistinct};
ghost use Rattle.std.specs.Ordering.{int_eq};
ghost use Rattle.sqlite.specs.declared.error.Error.TheVariants.{SqliteFailure};
ghost use Rattle.sqlite.specs.declared.error.ErrorCode.TheVariants.{OutOfMemory};
ghost use Rattle.sqlite.specs.Order.{Row as SqlRow};
ghost use Rattle.sqlite_value.specs.Order.{bytes, column};
ghost use Rattle.sqlite_value.specs.Value.{owned};
ghost use Rattle.sqlite_rules.specs.Edit.{id_in};
ghost use Rattle.sqlite_trees.specs.Tree.{rowid};
ghost use Rattle.cr_lattice.specs.Sets.{set_of};
ghost use Rattle.cr_store.specs.Rows.{value_in};
ghost use Rattle.cr_store.specs.Stored.{IsText, IsBlob, IsInteger, IsSite, IsFlag, is_one, IsKept, AreStored};
ghost use Rattle.cr_store.specs.Opening.{IsDamage};

use cr_cells::marks::Mark;
use cr_cells::store::{CellsError, StoreFault};
use cr_lattice::change::Site;
use cr_rows::{blob_at, int_at, text_at};
use cr_value::order::{cmp_binary, cmp_bytes};
use cr_value::text::{Bytes, Text};
use cr_value::value::Value;
use sqlite::types::ValueRef;
use sqlite::{Error, ErrorCode, Row};
use std::alloc::{AllocError, Global};
use std::cmp::Ordering;

/// What a row says that no store writes.
pub(crate) const DAMAGED: CellsError = CellsError::Store(StoreFault::Damaged);

/// A row of `cr_meta`.
#[derive(Debug, Drop)]
pub(crate) struct MetaEntry {
    pub(crate) name: Text,
    pub(crate) val: Value,
}

/// A row of `cr_schema`, with the bytes of the table's definition.
#[derive(Debug, Drop)]
pub(crate) struct TableEntry {
    pub(crate) ordinal: i64,
    pub(crate) name: Text,
    pub(crate) is_replicated: bool,
    pub(crate) layout: Bytes,
}

// ---- columns

// Where a column that is there cannot be read: want of memory, or damage.
fn damage(error: Error) -> CellsError
    ensures { IsDamage (error ≢ SqliteFailure OutOfMemory) result }
{
    match error {
        Error::SqliteFailure(ErrorCode::OutOfMemory) => CellsError::Memory,
        _ => DAMAGED,
    }
}

pub(crate) fn read_text(row: &Row, at: usize) -> Result<Text, CellsError>
    requires { at < length row.now }
    ensures { MatchResult result (λ t. (t ≡ bytes (column row.now at)) × IsText (column row.now at))
        (IsDamage (¬ IsText (column row.now at))) }
{
    match text_at(row, at) {
        Ok(text) => Ok(Text::new(text)),
        Err(error) => Err(damage(error)),
    }
}

pub(crate) fn read_blob(row: &Row, at: usize) -> Result<Bytes, CellsError>
    requires { at < length row.now }
    ensures { MatchResult result (λ b. (b ≡ bytes (column row.now at)) × IsBlob (column row.now at))
        (IsDamage (¬ IsBlob (column row.now at))) }
{
    match blob_at(row, at) {
        Ok(blob) => Ok(Bytes::new(blob)),
        Err(error) => Err(damage(error)),
    }
}

pub(crate) fn read_int(row: &Row, at: usize) -> Result<i64, CellsError>
    requires { at < length row.now }
    ensures { MatchResult result (λ n. (n ≡ id_in (column row.now at)) × IsInteger (column row.now at))
        (IsDamage (¬ IsInteger (column row.now at))) }
{
    match int_at(row, at) {
        Ok(n) => Ok(n),
        Err(error) => Err(damage(error)),
    }
}

/// The site that bytes are, which are 16.
pub(crate) fn site_of(bytes: &[u8]) -> Option<Site>
    ensures { MatchOption result (length bytes.now ≢ 16) (λ s. s ≡ bytes.now) }
{
    if bytes.len() != 16 {
        return None;
    }
    let mut site = [0; 16];
    site.copy_from_slice(bytes);
    Some(site)
}

pub(crate) fn read_site(row: &Row, at: usize) -> Result<Site, CellsError>
    requires { at < length row.now }
    ensures { MatchResult result (λ s. (s ≡ bytes (column row.now at)) × IsSite (column row.now at))
        (IsDamage (¬ IsSite (column row.now at))) }
{
    let blob = read_blob(row, at)?;
    match site_of(blob.as_slice()) {
        Some(site) => Ok(site),
        None => Err(DAMAGED),
    }
}

fn read_flag(row: &Row, at: usize) -> Result<bool, CellsError>
    requires { at < length row.now }
    ensures { MatchResult result (λ b. (b ≡ is_one (column row.now at)) × IsFlag (column row.now at))
        (IsDamage (¬ IsFlag (column row.now at))) }
{
    match read_int(row, at)? {
        0 => Ok(false),
        1 => Ok(true),
        _ => Err(DAMAGED),
    }
}

fn keep(value: ValueRef<'_>, alloc: Global) -> Result<Value, CellsError>
    ensures { MatchResult result (λ v. (v ≡ value_in (owned value.entry)) × IsKept (owned value.entry))
        (IsDamage (¬ IsKept (owned value.entry))) }
{
    match value {
        ValueRef::Null => Ok(Value::Null),
        ValueRef::Int(n) => Ok(Value::Int(n)),
        ValueRef::Real(_) => Err(DAMAGED),
        ValueRef::Text(text) => match std::str::from_utf8(text) {
            Ok(text) => Ok(Value::Text(Text::from_str(alloc, text)?)),
            Err(_) => Err(DAMAGED),
        },
        ValueRef::Blob(blob) => Ok(Value::Blob(Bytes::from_slice(alloc, blob)?)),
    }
}

pub(crate) fn read_value(row: &Row, at: usize, alloc: Global) -> Result<Value, CellsError>
    requires { at < length row.now }
    ensures { MatchResult result (λ v. (v ≡ value_in (column row.now at)) × IsKept (column row.now at))
        (IsDamage (¬ IsKept (column row.now at))) }
{
    match row.get_ref(at) {
        Ok(value) => keep(value, alloc),
        Err(_) => Err(DAMAGED),
    }
}

// ---- rows

/// What a row of one of the tables is read as. Its rowid is of no concern to it.
pub(crate) trait Stored: Drop + Sized {
    ghost use Rattle.std.specs.declared.cmp.Ordering.{Ordering as Cmp};
    ghost use Rattle.std.specs.Cmp.{IsTotalOrder};
    ghost use Rattle.std.specs.FinMap.{IsAntisymmetric};

    /// What the columns say, whatever is there.
    ghost of: { SqlRow → Self };

    /// The row has the columns that a store writes.
    ghost is_stored: { SqlRow → Type 0 };

    ghost order: { Self → Self → Cmp };

    /// # Errors
    /// `Memory`, or `Store(Damaged)` where no store writes such a row.
    fn read(row: &Row, alloc: Global) -> Result<Self, CellsError>
        ensures { MatchResult result (λ it. (it ≡ of row.now) × is_stored row.now) (IsDamage (¬ is_stored row.now)) };

    fn compare(&self, other: &Self) -> Ordering
        ensures { result ≡ order self.now other.now };

    ghost total: { IsTotalOrder order };

    ghost exact: { IsAntisymmetric order };
}

impl Stored for MetaEntry {
    ghost use Rattle.cr_store.specs.Stored.{meta_of, IsMetaRow, meta_cmp};
    ghost use Rattle.cr_store.specs.StoredOrders.{meta_total, meta_exact};

    ghost of = { meta_of };

    ghost is_stored = { IsMetaRow };

    ghost order = { meta_cmp };

    ghost total = { meta_total };

    ghost exact = { meta_exact };

    fn read(row: &Row, alloc: Global) -> Result<MetaEntry, CellsError> {
        if row.column_count() != 3 {
            return Err(DAMAGED);
        }
        let name = read_text(row, 1)?;
        let val = read_value(row, 2, alloc)?;
        Ok(MetaEntry { name, val })
    }

    fn compare(&self, other: &MetaEntry) -> Ordering {
        cmp_bytes(
            self.name.as_str().as_bytes(),
            other.name.as_str().as_bytes(),
        )
        .then(cmp_binary(&self.val, &other.val))
    }
}

impl Stored for TableEntry {
    ghost use Rattle.cr_store.specs.Stored.{table_of, IsTableRow, table_cmp};
    ghost use Rattle.cr_store.specs.StoredOrders.{table_total, table_exact};

    ghost of = { table_of };

    ghost is_stored = { IsTableRow };

    ghost order = { table_cmp };

    ghost total = { table_total };

    ghost exact = { table_exact };

    fn read(row: &Row, _alloc: Global) -> Result<TableEntry, CellsError> {
        if row.column_count() != 5 {
            return Err(DAMAGED);
        }
        let name = read_text(row, 1)?;
        let ordinal = read_int(row, 2)?;
        let is_replicated = read_flag(row, 3)?;
        let layout = read_blob(row, 4)?;
        Ok(TableEntry {
            ordinal,
            name,
            is_replicated,
            layout,
        })
    }

    fn compare(&self, other: &TableEntry) -> Ordering {
        self.ordinal
            .cmp(&other.ordinal)
            .then(cmp_bytes(
                self.name.as_str().as_bytes(),
                other.name.as_str().as_bytes(),
            ))
            .then(self.is_replicated.cmp(&other.is_replicated))
            .then(cmp_bytes(self.layout.as_slice(), other.layout.as_slice()))
    }
}

impl Stored for Mark {
    ghost use Rattle.cr_store.specs.Stored.{mark_of, IsMarkRow, seen_cmp};
    ghost use Rattle.cr_store.specs.StoredOrders.{seen_total, seen_exact};

    ghost of = { mark_of };

    ghost is_stored = { IsMarkRow };

    ghost order = { seen_cmp };

    ghost total = { seen_total };

    ghost exact = { seen_exact };

    fn read(row: &Row, _alloc: Global) -> Result<Mark, CellsError> {
        if row.column_count() != 3 {
            return Err(DAMAGED);
        }
        let site = read_site(row, 1)?;
        let seen = read_int(row, 2)?;
        Ok((site, seen))
    }

    fn compare(&self, other: &Mark) -> Ordering {
        cmp_bytes(&self.0, &other.0).then(self.1.cmp(&other.1))
    }
}

// ---- tables

pub(crate) fn read_ids(rows: &[Row], alloc: Global) -> Result<Vec<i64>, CellsError>
    ensures { MatchResult result (λ ids. (ids.items ≡ map (λ r. id_in (rowid r)) rows.now) × AllByRecursion (λ r. IsInteger (rowid r)) rows.now)
        (IsDamage (¬ AllByRecursion (λ r. IsInteger (rowid r)) rows.now)) }
{
    let mut ids = Vec::new(alloc);
    for row in rows {
        if row.column_count() == 0 {
            return Err(DAMAGED);
        }
        let id = read_int(row, 0)?;
        match ids.push(id) {
            Ok(()) => {}
            Err(_) => return Err(CellsError::Memory),
        }
    }
    Ok(ids)
}

// Sorts the numbers, so that equal ones are neighbours.
pub(crate) fn are_distinct(mut ids: Vec<i64>) -> bool
    ensures { Decides result (IsDistinct int_eq ids.items) }
{
    ids.sort_unstable();
    ids.is_sorted_by(|last, next| last < next)
}

fn read_all<T: Stored>(rows: &[Row], alloc: Global) -> Result<Vec<T>, CellsError>
    ensures { MatchResult result (λ v. (v.items ≡ map T.of rows.now) × AllByRecursion T.is_stored rows.now)
        (IsDamage (¬ AllByRecursion T.is_stored rows.now)) }
{
    let mut items = Vec::new(alloc);
    for row in rows {
        let item = T::read(row, alloc)?;
        match items.push(item) {
            Ok(()) => {}
            Err(_) => return Err(CellsError::Memory),
        }
    }
    Ok(items)
}

fn in_order<T: Stored>(mut items: Vec<T>) -> Result<Vec<T>, AllocError>
    ensures { IfOk result (λ v. v.items ≡ set_of T.order items.items) }
{
    items.sort_by(|a, b| a.compare(b))?;
    items.dedup_by(|a, b| a.compare(b).is_eq());
    Ok(items)
}

/// What the rows of a table are read as, in order, each once. Each row begins with its rowid.
///
/// # Errors
/// `Memory`, or `Store(Damaged)` where a rowid is no integer or comes twice, or where no store writes such a row.
pub(crate) fn read_table<T: Stored>(rows: &[Row], alloc: Global) -> Result<Vec<T>, CellsError>
    ensures { MatchResult result (λ v. (v.items ≡ set_of T.order (map T.of rows.now)) × AreStored T.is_stored rows.now)
        (IsDamage (¬ AreStored T.is_stored rows.now)) }
{
    let ids = read_ids(rows, alloc)?;
    if !are_distinct(ids) {
        return Err(DAMAGED);
    }
    let items = read_all(rows, alloc)?;
    Ok(in_order(items)?)
}
