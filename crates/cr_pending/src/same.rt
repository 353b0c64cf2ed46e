//! Whether two lists of tables are the same, by each name, type, key and default of them.

ghost use Rattle.std.specs.Prelude.{◌≡◌, ◌↔◌, IsTrue};

use cr_lattice::table::{ColumnDef, Table};
use cr_value::affinity::Affinity;
use cr_value::order::{cmp_binary, same_bytes};
use cr_value::text::Text;
use cr_value::value::Value;

fn same_text(a: &Text, b: &Text) -> bool
    ensures { IsTrue result ↔ (a.now ≡ b.now) }
{
    same_bytes(a.as_str().as_bytes(), b.as_str().as_bytes())
}

fn same_affinity(a: Affinity, b: Affinity) -> bool
    ensures { IsTrue result ↔ (a ≡ b) }
{
    a == b
}

fn same_place(a: Option<u8>, b: Option<u8>) -> bool
    ensures { IsTrue result ↔ (a ≡ b) }
{
    a == b
}

fn same_value(a: &Value, b: &Value) -> bool
    ensures { IsTrue result ↔ (a.now ≡ b.now) }
{
    cmp_binary(a, b).is_eq()
}

fn same_column(a: &ColumnDef, b: &ColumnDef) -> bool
    ensures { IsTrue result ↔ (a.now ≡ b.now) }
{
    if !same_text(&a.name, &b.name) {
        return false;
    }
    if !same_affinity(a.affinity, b.affinity) {
        return false;
    }
    if !same_text(&a.collation, &b.collation) {
        return false;
    }
    if a.not_null != b.not_null {
        return false;
    }
    if !same_place(a.key, b.key) {
        return false;
    }
    same_value(&a.default, &b.default)
}

fn same_columns(a: &[ColumnDef], b: &[ColumnDef]) -> bool
    ensures { IsTrue result ↔ (a.now ≡ b.now) }
{
    if a.len() != b.len() {
        return false;
    }
    for i in 0..a.len() {
        if !same_column(&a[i], &b[i]) {
            return false;
        }
    }
    true
}

fn same_table(a: &Table, b: &Table) -> bool
    ensures { IsTrue result ↔ (a.now ≡ b.now) }
{
    if a.is_replicated != b.is_replicated {
        return false;
    }
    if !same_text(&a.definition.name, &b.definition.name) {
        return false;
    }
    same_columns(
        a.definition.columns.as_slice(),
        b.definition.columns.as_slice(),
    )
}

/// Whether the tables are the same, in the same order.
pub(crate) fn same_tables(a: &[Table], b: &[Table]) -> bool
    ensures { IsTrue result ↔ (a.now ≡ b.now) }
{
    if a.len() != b.len() {
        return false;
    }
    for i in 0..a.len() {
        if !same_table(&a[i], &b[i]) {
            return false;
        }
    }
    true
}
