//! Parts of sorted lists.

ghost use Rattle.std.specs.Prelude.{◌≡◌, ◌≤◌, true, false, length, filter, slice_range};
ghost use Rattle.std.specs.List.{list_any};
ghost use Rattle.std.specs.List.Sorted.{IsStrictlySortedBy, IsPartitionPoint};
ghost use Rattle.std.specs.Ordering.{is_lt, is_le};
ghost use Rattle.cr_value.specs.Order.{bytes_cmp};
ghost use Rattle.cr_lattice.specs.Check.{same_bytes};
ghost use Rattle.cr_lattice.specs.Keep.{keep};
ghost use Rattle.cr_lattice.specs.Rows.{is_of_row};
ghost use Rattle.cr_delta.specs.Run.{row_order};

use cr_lattice::change::Change;
use cr_value::order::cmp_bytes;
use cr_value::text::Bytes;
use std::cmp::Ordering;

#[tactic(auto, unfolding(crate::specs::Run::row_order))]
fn row_order(change: &Change, table: &str, pk: &[u8]) -> Ordering
    ensures { result ≡ row_order table.now pk.now change.now }
{
    cmp_bytes(change.table.as_str().as_bytes(), table.as_bytes()).then(cmp_bytes(
        change.pk.as_slice(),
        pk,
    ))
}

// Where the changes of the row begin, by halving.
fn row_start(kept: &[Change], table: &str, pk: &[u8]) -> usize
    requires { keep kept.now ≡ kept.now }
    ensures bound { result ≤ length kept.now }
    ensures point { IsPartitionPoint (λ c. is_lt (row_order table.now pk.now c) ≡ true) (λ c. is_lt (row_order table.now pk.now c) ≡ false) kept.now result }
{
    kept.partition_point(|change| row_order(change, table, pk).is_lt())
}

// Where they end.
fn row_end(kept: &[Change], table: &str, pk: &[u8]) -> usize
    requires { keep kept.now ≡ kept.now }
    ensures bound { result ≤ length kept.now }
    ensures point { IsPartitionPoint (λ c. is_le (row_order table.now pk.now c) ≡ true) (λ c. is_le (row_order table.now pk.now c) ≡ false) kept.now result }
{
    kept.partition_point(|change| row_order(change, table, pk).is_le())
}

// Where the changes of the row begin and end.
fn row_bounds(kept: &[Change], table: &str, pk: &[u8]) -> (usize, usize)
    requires { keep kept.now ≡ kept.now }
    ensures rising { result.0 ≤ result.1 }
    ensures within { result.1 ≤ length kept.now }
    ensures run { slice_range kept.now result.0 result.1 ≡ filter (is_of_row table.now pk.now) kept.now }
{
    (row_start(kept, table, pk), row_end(kept, table, pk))
}

/// The kept changes of one row.
pub(crate) fn row_run<'a>(kept: &'a [Change], table: &str, pk: &[u8]) -> &'a [Change]
    requires { keep kept.now ≡ kept.now }
    ensures { result.now ≡ filter (is_of_row table.now pk.now) kept.now }
{
    let (start, end) = row_bounds(kept, table, pk);
    &kept[start..end]
}

/// Whether the key is among these, which are in order.
pub(crate) fn has_key(keys: &[Bytes], pk: &Bytes) -> bool
    requires { IsStrictlySortedBy bytes_cmp keys.now }
    ensures { result ≡ list_any (λ k. same_bytes k pk.now) keys.now }
{
    keys.binary_search(pk).is_ok()
}
