//! What a store holds, read from the rows of its tables.

ghost use Rattle.std.specs.Prelude.{◌≡◌, ◌≢◌, ℕ, ℤ, pos, [], List, map, length, codes, Decides, MatchOption, MatchResult, false, IsTrue, IfOk, IfErr, OnOk};
ghost use Rattle.std.specs.List.{AllByRecursion, IsDistinct};
ghost use Rattle.sqlite.specs.Held.{state};
ghost use Rattle.sqlite.specs.State.{HasCleanDisk, IsLive};
ghost use Rattle.cr_rows.specs.Rows.{Lists};
ghost use Rattle.cr_value.specs.declared.value.Value.TheVariants.{Int, Blob};
ghost use Rattle.cr_lattice.specs.declared.table.Table.{Table};
ghost use Rattle.cr_lattice.specs.declared.stamped.Stamped.{Stamped};
ghost use Rattle.cr_lattice.specs.Sets.{set_of};
ghost use Rattle.cr_cells.specs.Holding.{Holding, IsSound};
ghost use Rattle.cr_cells.specs.Marks.{Mark};
ghost use Rattle.cr_sound.specs.Sound.{holding};
ghost use Rattle.cr_cells.specs.Tables.{same_name};
ghost use Rattle.cr_store.specs.Ordinals.{IsNamed};
ghost use Rattle.cr_store.specs.Rows.{number_of, meta_rows, table_rows, cell_row, mark_row};
ghost use Rattle.cr_store.specs.Asking.{OnlyAsks};
ghost use Rattle.cr_store.specs.Kept.{holding_of};
ghost use Rattle.cr_store.specs.Schema.{schema_of};
ghost use Rattle.cr_store.specs.Shows.{cells_in};
ghost use Rattle.cr_store.specs.Stored.{meta_entries, table_entry, table_entries, mark_of, seen_cmp};
ghost use Rattle.cr_store.specs.Opening.{IsReadableTable, IsReadableCell, IsReadableMark, IsReadable, IsDamage, ListsAll, IsKnown, IsHeldIn, holding_with, IsOpenError, FailsToOpen};

use crate::asking::read_rows;
use crate::cell_rows::read_cells;
use crate::format::Format;
use crate::known::Known;
use crate::migrating::migrate;
use crate::ordinals::next_ordinal;
use crate::rows::refusal;
use crate::stored::{DAMAGED, MetaEntry, TableEntry, read_table, site_of};
use cr_cells::marks::Mark;
use cr_cells::store::CellsError;
use cr_lattice::change::Site;
use cr_lattice::stamped::Stamped;
use cr_lattice::table::Table;
use cr_layout::reading::read_definition;
use cr_sound::is_sound;
use cr_value::value::Value;
use sqlite::{Alter, Connection, Row};
use std::alloc::Global;

/// The rows of a store's tables, each behind its rowid. The old ones are those of `cr_cell` where the cells lie elsewhere.
#[derive(Drop)]
pub(crate) struct Rows {
    pub(crate) meta: Vec<Row>,
    pub(crate) tables: Vec<Row>,
    pub(crate) old: Vec<Row>,
    pub(crate) cells: Vec<Row>,
    pub(crate) marks: Vec<Row>,
}

// ---- cr_meta

fn number_in(entry: &MetaEntry, name: &[u8]) -> Option<i64>
    ensures { MatchOption result ((n : ℤ) → entry.now ≢ record { name = name.now; val = Int n })
        (λ n. entry.now ≡ record { name = name.now; val = Int n }) }
{
    if entry.name.as_str().as_bytes() != name {
        return None;
    }
    match &entry.val {
        Value::Int(n) => Some(*n),
        _ => None,
    }
}

fn site_in(entry: &MetaEntry, name: &[u8]) -> Option<Site>
    ensures { MatchOption result ((s : List ℕ) → length s ≡ 16 → entry.now ≢ record { name = name.now; val = Blob s })
        (λ s. entry.now ≡ record { name = name.now; val = Blob s }) }
{
    if entry.name.as_str().as_bytes() != name {
        return None;
    }
    match &entry.val {
        Value::Blob(blob) => site_of(blob.as_slice()),
        _ => None,
    }
}

fn number_of(format: Format) -> i64
    ensures { result ≡ number_of format }
{
    match format {
        Format::First => 1,
        Format::Second => 2,
    }
}

fn is_format(entry: &MetaEntry, format: Format) -> bool
    ensures { Decides result (entry.now ≡ record { name = codes "format"; val = Int (number_of format) }) }
{
    match number_in(entry, b"format") {
        Some(number) => number == number_of(format),
        None => false,
    }
}

// The site and the version that the rows of cr_meta tell, in the order of their names.
fn meta_in(entries: &[MetaEntry], format: Format) -> Option<(Site, i64)>
    ensures { MatchOption result ((site : List ℕ) (version : ℤ) → length site ≡ 16 → entries.now ≢ meta_entries format site version)
        (λ m. entries.now ≡ meta_entries format m.0 m.1) }
{
    let [version, number, site] = entries else {
        return None;
    };
    if !is_format(number, format) {
        return None;
    }
    let site = site_in(site, b"site")?;
    let version = number_in(version, b"db_version")?;
    Some((site, version))
}

fn read_meta(rows: &[Row], format: Format, alloc: Global) -> Result<(Site, i64), CellsError>
    ensures { MatchResult result (λ m. Lists rows.now (meta_rows format m.0 m.1))
        (IsDamage ((site : List ℕ) (version : ℤ) → length site ≡ 16 → ¬ Lists rows.now (meta_rows format site version))) }
{
    let entries: Vec<MetaEntry> = read_table(rows, alloc)?;
    match meta_in(&entries, format) {
        Some(meta) => Ok(meta),
        None => Err(DAMAGED),
    }
}

// ---- cr_schema

// The table of an entry, which is to have this ordinal.
fn table_in(entry: &TableEntry, ordinal: i64, alloc: Global) -> Result<Table, CellsError>
    ensures { (n : ℕ) → ordinal ≡ pos n → MatchResult result (λ t. (entry.now ≡ table_entry n t) × IsReadableTable t)
        (IsDamage ((t : Table) → IsReadableTable t → entry.now ≢ table_entry n t)) }
{
    if entry.ordinal != ordinal {
        return Err(DAMAGED);
    }
    match read_definition(alloc, entry.name.as_str(), entry.layout.as_slice())? {
        Some(definition) => Ok(Table {
            definition,
            is_replicated: entry.is_replicated,
        }),
        None => Err(DAMAGED),
    }
}

fn tables_in(entries: &[TableEntry], alloc: Global) -> Result<Vec<Table>, CellsError>
    ensures { MatchResult result (λ ts. (entries.now ≡ table_entries 1 ts.items) × AllByRecursion IsReadableTable ts.items)
        (IsDamage ((ts : List Table) → AllByRecursion IsReadableTable ts → entries.now ≢ table_entries 1 ts)) }
{
    let mut tables = Vec::new(alloc);
    for entry in entries {
        let table = table_in(entry, next_ordinal(&tables), alloc)?;
        match tables.push(table) {
            Ok(()) => {}
            Err(_) => return Err(CellsError::Memory),
        }
    }
    Ok(tables)
}

fn read_tables(rows: &[Row], alloc: Global) -> Result<Vec<Table>, CellsError>
    ensures { MatchResult result (λ ts. Lists rows.now (table_rows 1 ts.items) × AllByRecursion IsReadableTable ts.items)
        (IsDamage ((ts : List Table) → AllByRecursion IsReadableTable ts → ¬ Lists rows.now (table_rows 1 ts))) }
{
    let entries: Vec<TableEntry> = read_table(rows, alloc)?;
    tables_in(&entries, alloc)
}

// ---- cells and cr_peer

// Drops the rows one by one, as `read_cells` does.
fn list_cells(
    rows: Vec<Row>,
    format: Format,
    tables: &[Table],
    alloc: Global,
) -> Result<Vec<Stamped>, CellsError>
    ensures { MatchResult result (λ cells. (IsDistinct same_name tables.now → Lists rows.items (map (cell_row format tables.now) cells.items)) × (cells.items ≡ cells_in format tables.now rows.items))
        (IsDamage ((ss : List Stamped) → AllByRecursion IsReadableCell ss → AllByRecursion (IsNamed tables.now) ss → ¬ Lists rows.items (map (cell_row format tables.now) ss))) }
{
    read_cells(rows, format, tables, alloc)
}

fn read_marks(rows: &[Row], alloc: Global) -> Result<Vec<Mark>, CellsError>
    ensures { MatchResult result (λ marks. Lists rows.now (map mark_row marks.items) × (marks.items ≡ set_of seen_cmp (map mark_of rows.now)))
        (IsDamage ((ms : List Mark) → AllByRecursion IsReadableMark ms → ¬ Lists rows.now (map mark_row ms))) }
{
    read_table(rows, alloc)
}

// ---- all

fn check(alloc: Global, known: &Known, cells: &[Stamped]) -> Result<(), CellsError>
    ensures { (site : List ℕ) → MatchResult result (λ _. IsSound (holding known.now.tables.items site known.now.version cells.now known.now.marks.items))
        (IsDamage (¬ IsSound (holding known.now.tables.items site known.now.version cells.now known.now.marks.items))) }
{
    if is_sound(alloc, &known.tables, known.version, cells, &known.marks)? {
        Ok(())
    } else {
        Err(DAMAGED)
    }
}

fn has_none(rows: &[Row]) -> bool
    ensures { Decides result (rows.now ≡ []) }
{
    rows.is_empty()
}

/// What a store holds, of the rows of its tables in a format: what it knows, and its cells. The rows of cells are dropped one
/// by one, each as soon as its cell is made, since a store's rows take more memory than its cells.
///
/// # Errors
/// `Memory`, or `Store(Damaged)` where the rows are those of nothing that a store holds.
pub(crate) fn known_in(
    rows: Rows,
    format: Format,
    alloc: Global,
) -> Result<(Known, Vec<Stamped>), CellsError>
    ensures { MatchResult result (λ it. IsKnown format rows.meta.items rows.tables.items rows.old.items rows.cells.items rows.marks.items it.0 it.1.items)
        (IsDamage ((h : Holding) → IsReadable h → IsSound h → ¬ ListsAll format rows.meta.items rows.tables.items rows.old.items rows.cells.items rows.marks.items h)) }
{
    let (site, version) = read_meta(&rows.meta, format, alloc)?;
    let tables = read_tables(&rows.tables, alloc)?;
    if !has_none(&rows.old) {
        return Err(DAMAGED);
    }
    let cells = list_cells(rows.cells, format, &tables, alloc)?;
    let marks = read_marks(&rows.marks, alloc)?;
    let known = Known {
        site,
        version,
        tables,
        marks,
    };
    check(alloc, &known, &cells)?;
    Ok((known, cells))
}

// What a store holds whose database has the schema of a format.
fn read_held<S: Alter>(
    conn: &mut Connection<S>,
    format: Format,
    alloc: Global,
) -> Result<(Known, Vec<Stamped>), CellsError>
    requires mode { conn.old.in_transaction ≡ false }
    requires live { IsLive (state S.Store conn.old) }
    ensures found { HasCleanDisk (state S.Store conn.new) → (state S.Store conn.old).now.schema ≡ schema_of format
        → IfOk result (λ it. IsHeldIn format (state S.Store conn.old).now (holding_with it.0 it.1.items) × AllByRecursion IsReadableTable it.0.tables.items) }
    ensures opened { HasCleanDisk (state S.Store conn.new) → (state S.Store conn.old).now.schema ≡ schema_of format
        → OnOk result (IsTrue (state S.Store conn.new).is_open) }
    ensures why { IfErr result IsOpenError }
    ensures damaged { HasCleanDisk (state S.Store conn.new) → IsTrue (state S.Store conn.new).is_open → (state S.Store conn.old).now.schema ≡ schema_of format
        → IfErr result (FailsToOpen (state S.Store conn.old).now) }
    ensures asks { HasCleanDisk (state S.Store conn.new) → (state S.Store conn.old).now.schema ≡ schema_of format
        → OnlyAsks (state S.Store conn.old) (state S.Store conn.new) }
    ensures mode { conn.new.in_transaction ≡ false }
    ensures clean { HasCleanDisk (state S.Store conn.new) → HasCleanDisk (state S.Store conn.old) }
{
    match read_rows(conn, format, alloc) {
        Ok(rows) => known_in(rows, format, alloc),
        Err(error) => Err(refusal(error)),
    }
}

/// What a store holds whose database has the schema of a format; it is left in the second.
///
/// # Errors
/// `Memory` and `Store(Refused)` where sqlite refuses to tell or to write, and `Store(Damaged)` where the database holds
/// nothing. Then it is as it was.
pub(crate) fn open_known<S: Alter>(
    conn: &mut Connection<S>,
    format: Format,
    alloc: Global,
) -> Result<Known, CellsError>
    requires mode { conn.old.in_transaction ≡ false }
    requires live { IsLive (state S.Store conn.old) }
    ensures found { HasCleanDisk (state S.Store conn.new) → (state S.Store conn.old).now.schema ≡ schema_of format
        → IfOk result (λ k. IsHeldIn format (state S.Store conn.old).now (holding_of (state S.Store conn.new).now k) × IsHeldIn Format.Second (state S.Store conn.new).now (holding_of (state S.Store conn.new).now k) × AllByRecursion IsReadableTable k.tables.items) }
    ensures opened { HasCleanDisk (state S.Store conn.new) → (state S.Store conn.old).now.schema ≡ schema_of format
        → OnOk result (IsTrue (state S.Store conn.new).is_open) }
    ensures why { IfErr result IsOpenError }
    ensures damaged { HasCleanDisk (state S.Store conn.new) → IsTrue (state S.Store conn.new).is_open → (state S.Store conn.old).now.schema ≡ schema_of format
        → IfErr result (FailsToOpen (state S.Store conn.old).now) }
    ensures same { HasCleanDisk (state S.Store conn.new) → IsTrue (state S.Store conn.new).is_open → (state S.Store conn.old).now.schema ≡ schema_of format
        → MatchResult result (λ _. format ≡ Format.Second → (state S.Store conn.new).now ≡ (state S.Store conn.old).now) (λ _. (state S.Store conn.new).now ≡ (state S.Store conn.old).now) }
    ensures was_open { HasCleanDisk (state S.Store conn.new) → IsTrue (state S.Store conn.new).is_open → (state S.Store conn.old).now.schema ≡ schema_of format
        → IsTrue (state S.Store conn.old).is_open }
    ensures mode { conn.new.in_transaction ≡ false }
    ensures clean { HasCleanDisk (state S.Store conn.new) → HasCleanDisk (state S.Store conn.old) }
{
    let (known, cells) = read_held(conn, format, alloc)?;
    let _ = conn.is_autocommit();
    match format {
        Format::First => match migrate(conn, &known.tables, &cells) {
            Ok(()) => Ok(known),
            Err(refused) => Err(refusal(refused)),
        },
        Format::Second => Ok(known),
    }
}
