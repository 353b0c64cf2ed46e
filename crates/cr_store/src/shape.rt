//! Which format the schema of a database is of.

ghost use Rattle.std.specs.Prelude.{◌≡◌, [], ◌∷◌, None, true, false, drop, codes, Decides, ◌≢◌, MatchOption};
ghost use Rattle.sqlite_value.specs.Keys.{plain};
ghost use Rattle.cr_rows.specs.Schema.{column, keyed, index_of};
ghost use Rattle.cr_store.specs.Schema.{meta_columns, table_columns, cell_columns, cell2_columns, peer_columns, meta_table, schema_table, cell_table, cell2_table, peer_table, old_schema, store_schema, schema_of};

use crate::format::Format;
use sqlite_items::Items;
use sqlite_schema::code::Terms;
use sqlite_schema::schema::{Column, Index, Kind, Schema, Stamps, Table};
use sqlite_value::keys::{Collation, Order};
use sqlite_value::value::{Bytes, Value};

// ---- parts

fn is_named(name: &Bytes, wanted: &[u8]) -> bool
    ensures { Decides result (name.now ≡ wanted.now) }
{
    name.as_slice() == wanted
}

fn is_kind(kind: Kind, wanted: Kind) -> bool
    ensures { Decides result (kind ≡ wanted) }
{
    kind == wanted
}

fn is_null(value: &Value) -> bool
    ensures { Decides result (value.now ≡ Value.Null) }
{
    match value {
        Value::Null => true,
        _ => false,
    }
}

fn is_binary(collation: Collation) -> bool
    ensures { Decides result (collation ≡ Collation.Binary) }
{
    match collation {
        Collation::Binary => true,
        _ => false,
    }
}

fn is_at(places: &Items<usize>, wanted: &[usize]) -> bool
    ensures { Decides result (places.now ≡ wanted.now) }
{
    places.as_slice() == wanted
}

fn has_no_terms(terms: &Terms) -> bool
    ensures { Decides result (terms.now ≡ []) }
{
    terms.roots.is_empty()
}

fn has_no_stamps(stamps: &Stamps) -> bool
    ensures { Decides result (stamps.now ≡ record { places = []; terms = []; formats = [] }) }
{
    stamps.places.is_empty() && has_no_terms(&stamps.terms) && stamps.formats.is_empty()
}

fn is_column(it: &Column, name: &[u8], kind: Kind) -> bool
    ensures { Decides result (it.now ≡ column name.now kind) }
{
    is_named(&it.name, name)
        && is_kind(it.kind, kind)
        && !it.is_strict
        && !it.not_null
        && is_null(&it.default)
        && is_binary(it.collation)
}

fn is_only(uniques: &Items<Items<usize>>, key: &[usize]) -> bool
    ensures { Decides result (uniques.now ≡ key.now ∷ []) }
{
    match uniques.as_slice() {
        [unique] => is_at(unique, key),
        _ => false,
    }
}

fn is_plain(orders: &Items<Order>) -> bool
    ensures { Decides result (orders.now ≡ plain ∷ []) }
{
    match orders.as_slice() {
        [order] => order.digits == 0,
        _ => false,
    }
}

fn has_no_more(table: &Table) -> bool
    ensures { Decides result (table.now ≡ record table.now { checks = []; references = []; computed = []; stamps = record { places = []; terms = []; formats = [] }; is_counted = false }) }
{
    has_no_terms(&table.checks)
        && table.references.is_empty()
        && table.computed.is_empty()
        && has_no_stamps(&table.stamps)
        && !table.is_counted
}

// All of a table but its columns: its name, its tree and its key, and that it has nothing else.
fn is_keyed(table: &Table, name: &[u8], tree: u32, key: &[usize]) -> bool
    ensures { Decides result (table.now ≡ keyed name.now tree table.now.columns key.now) }
{
    is_named(&table.name, name)
        && table.tree == tree
        && table.key.is_none()
        && is_at(&table.primary, key)
        && is_only(&table.uniques, key)
        && is_plain(&table.orders)
        && has_no_more(table)
}

fn is_index(index: &Index, name: &[u8], table: u32, key: &[usize], tree: u32) -> bool
    ensures { Decides result (index.now ≡ record { name = name.now; tree = tree; table = table; columns = key.now; order = plain; is_unique = true }) }
{
    is_named(&index.name, name)
        && index.tree == tree
        && index.table == table
        && is_at(&index.columns, key)
        && index.order.digits == 0
        && index.is_unique
}

// ---- tables

fn has_meta_columns(columns: &[Column]) -> bool
    ensures { Decides result (columns.now ≡ meta_columns) }
{
    match columns {
        [name, val] => is_column(name, b"name", Kind::Text) && is_column(val, b"val", Kind::Any),
        _ => false,
    }
}

fn is_meta(table: &Table) -> bool
    ensures { Decides result (table.now ≡ meta_table 0) }
{
    is_keyed(table, b"cr_meta", 0, &[1]) && has_meta_columns(table.columns.as_slice())
}

fn has_table_columns(columns: &[Column]) -> bool
    ensures { Decides result (columns.now ≡ table_columns) }
{
    match columns {
        [name, ordinal, crr, def] => {
            is_column(name, b"name", Kind::Text)
                && is_column(ordinal, b"ordinal", Kind::Integer)
                && is_column(crr, b"crr", Kind::Integer)
                && is_column(def, b"def", Kind::Any)
        }
        _ => false,
    }
}

fn is_schema(table: &Table) -> bool
    ensures { Decides result (table.now ≡ schema_table 2) }
{
    is_keyed(table, b"cr_schema", 2, &[1]) && has_table_columns(table.columns.as_slice())
}

fn has_stamp_columns(columns: &[Column]) -> bool
    ensures { Decides result (columns.now ≡ drop 6 cell_columns) }
{
    match columns {
        [site, dbv, seq] => {
            is_column(site, b"site", Kind::Any)
                && is_column(dbv, b"dbv", Kind::Integer)
                && is_column(seq, b"seq", Kind::Integer)
        }
        _ => false,
    }
}

fn has_change_columns(columns: &[Column]) -> bool
    ensures { Decides result (columns.now ≡ drop 3 cell_columns) }
{
    match columns {
        [cl, ver, val, stamp @ ..] => {
            is_column(cl, b"cl", Kind::Integer)
                && is_column(ver, b"ver", Kind::Integer)
                && is_column(val, b"val", Kind::Any)
                && has_stamp_columns(stamp)
        }
        _ => false,
    }
}

fn has_cell_columns(columns: &[Column]) -> bool
    ensures { Decides result (columns.now ≡ cell_columns) }
{
    match columns {
        [tbl, pk, cid, change @ ..] => {
            is_column(tbl, b"tbl", Kind::Text)
                && is_column(pk, b"pk", Kind::Any)
                && is_column(cid, b"cid", Kind::Text)
                && has_change_columns(change)
        }
        _ => false,
    }
}

fn is_cell(table: &Table) -> bool
    ensures { Decides result (table.now ≡ cell_table 4) }
{
    is_keyed(table, b"cr_cell", 4, &[1, 2, 3]) && has_cell_columns(table.columns.as_slice())
}

fn has_peer_columns(columns: &[Column]) -> bool
    ensures { Decides result (columns.now ≡ peer_columns) }
{
    match columns {
        [site, seen] => {
            is_column(site, b"site", Kind::Any) && is_column(seen, b"seen", Kind::Integer)
        }
        _ => false,
    }
}

fn is_peer(table: &Table) -> bool
    ensures { Decides result (table.now ≡ peer_table 6) }
{
    is_keyed(table, b"cr_peer", 6, &[1]) && has_peer_columns(table.columns.as_slice())
}

fn has_cell2_columns(columns: &[Column]) -> bool
    ensures { Decides result (columns.now ≡ cell2_columns) }
{
    match columns {
        [tab, pk, cid, change @ ..] => {
            is_column(tab, b"tab", Kind::Integer)
                && is_column(pk, b"pk", Kind::Any)
                && is_column(cid, b"cid", Kind::Text)
                && has_change_columns(change)
        }
        _ => false,
    }
}

fn is_cell2(table: &Table) -> bool
    ensures { Decides result (table.now ≡ cell2_table 8) }
{
    is_keyed(table, b"cr_cell2", 8, &[1, 2, 3]) && has_cell2_columns(table.columns.as_slice())
}

fn has_old_tables(tables: &[Table]) -> bool
    ensures { Decides result (tables.now ≡ old_schema.tables) }
{
    match tables {
        [meta, schema, cell, peer] => {
            is_meta(meta) && is_schema(schema) && is_cell(cell) && is_peer(peer)
        }
        _ => false,
    }
}

fn has_tables(tables: &[Table]) -> bool
    ensures { Decides result (tables.now ≡ store_schema.tables) }
{
    match tables {
        [meta, schema, cell, peer, cell2] => {
            is_meta(meta) && is_schema(schema) && is_cell(cell) && is_peer(peer) && is_cell2(cell2)
        }
        _ => false,
    }
}

fn is_meta_index(index: &Index) -> bool
    ensures { Decides result (index.now ≡ index_of (codes "sqlite_autoindex_cr_meta_1") (meta_table 0) (1 ∷ []) 1) }
{
    is_index(index, b"sqlite_autoindex_cr_meta_1", 0, &[1], 1)
}

fn is_schema_index(index: &Index) -> bool
    ensures { Decides result (index.now ≡ index_of (codes "sqlite_autoindex_cr_schema_1") (schema_table 2) (1 ∷ []) 3) }
{
    is_index(index, b"sqlite_autoindex_cr_schema_1", 2, &[1], 3)
}

fn is_cell_index(index: &Index) -> bool
    ensures { Decides result (index.now ≡ index_of (codes "sqlite_autoindex_cr_cell_1") (cell_table 4) (1 ∷ 2 ∷ 3 ∷ []) 5) }
{
    is_index(index, b"sqlite_autoindex_cr_cell_1", 4, &[1, 2, 3], 5)
}

fn is_peer_index(index: &Index) -> bool
    ensures { Decides result (index.now ≡ index_of (codes "sqlite_autoindex_cr_peer_1") (peer_table 6) (1 ∷ []) 7) }
{
    is_index(index, b"sqlite_autoindex_cr_peer_1", 6, &[1], 7)
}

fn is_cell2_index(index: &Index) -> bool
    ensures { Decides result (index.now ≡ index_of (codes "sqlite_autoindex_cr_cell2_1") (cell2_table 8) (1 ∷ 2 ∷ 3 ∷ []) 9) }
{
    is_index(index, b"sqlite_autoindex_cr_cell2_1", 8, &[1, 2, 3], 9)
}

fn has_old_indexes(indexes: &[Index]) -> bool
    ensures { Decides result (indexes.now ≡ old_schema.indexes) }
{
    match indexes {
        [meta, schema, cell, peer] => {
            is_meta_index(meta)
                && is_schema_index(schema)
                && is_cell_index(cell)
                && is_peer_index(peer)
        }
        _ => false,
    }
}

fn has_indexes(indexes: &[Index]) -> bool
    ensures { Decides result (indexes.now ≡ store_schema.indexes) }
{
    match indexes {
        [meta, schema, cell, peer, cell2] => {
            is_meta_index(meta)
                && is_schema_index(schema)
                && is_cell_index(cell)
                && is_peer_index(peer)
                && is_cell2_index(cell2)
        }
        _ => false,
    }
}

fn is_old_schema(schema: &Schema) -> bool
    ensures { Decides result (schema.now ≡ old_schema) }
{
    has_old_tables(schema.tables.as_slice())
        && has_old_indexes(schema.indexes.as_slice())
        && schema.views.is_empty()
}

fn is_store_schema(schema: &Schema) -> bool
    ensures { Decides result (schema.now ≡ store_schema) }
{
    schema.views.is_empty()
        && has_tables(schema.tables.as_slice())
        && has_indexes(schema.indexes.as_slice())
}

/// The format whose schema this is: the tables of a store as they are made, in their order, and nothing else.
pub(crate) fn format_of(schema: &Schema) -> Option<Format>
    ensures { MatchOption result ((format : Format) → schema.now ≢ schema_of format) (λ format. schema.now ≡ schema_of format) }
{
    if is_store_schema(schema) {
        return Some(Format::Second);
    }
    if is_old_schema(schema) {
        return Some(Format::First);
    }
    None
}
