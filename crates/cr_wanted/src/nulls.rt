//! Rows that lack a value.

ghost use Rattle.std.specs.Prelude.{◌≡◌};
ghost use Rattle.std.specs.List.{list_any};
ghost use Rattle.cr_delta.specs.Key.{cells_of};
ghost use Rattle.cr_query.specs.Writes.{lacks, has_null_key, lacks_value};

use cr_lattice::table::{ColumnDef, Row, TableDef};
use cr_value::value::Value;

// Whether a key column is NULL, or also a NOT NULL column.
fn lacks(of_key: bool, column: &ColumnDef, value: &Value) -> bool
    ensures { result ≡ lacks of_key (column.now, value.now) }
{
    (column.key.is_some() || (!of_key && column.not_null)) && matches!(value, Value::Null)
}

// Whether that is so of some column of a row.
fn has_lacking(of_key: bool, def: &TableDef, row: &[Value]) -> bool
    ensures { result ≡ list_any (lacks of_key) (cells_of def.now row.now) }
{
    for (column, value) in def.columns.as_slice().iter().zip(row) {
        if lacks(of_key, column, value) {
            return true;
        }
    }
    false
}

/// Whether a key column of a row is NULL.
pub fn has_null_key(def: &TableDef, row: &[Value]) -> bool
    ensures { result ≡ has_null_key def.now row.now }
{
    has_lacking(true, def, row)
}

/// Whether some row has NULL in a key column or in a NOT NULL column.
pub fn lacks_value(def: &TableDef, rows: &[Row]) -> bool
    ensures { result ≡ lacks_value def.now rows.now }
{
    for row in rows {
        if has_lacking(false, def, row.as_slice()) {
            return true;
        }
    }
    false
}
