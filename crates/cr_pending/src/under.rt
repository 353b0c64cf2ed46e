//! The changes of a list that are under some keys of a table.

ghost use Rattle.std.specs.Prelude.{◌≡◌, filter, IfOk};
ghost use Rattle.std.specs.List.Sorted.{IsStrictlySortedBy};
ghost use Rattle.cr_value.specs.Order.{bytes_cmp};
ghost use Rattle.cr_lattice.specs.Rows.{keys_in_order};
ghost use Rattle.cr_touched.specs.Parts.{is_at, is_key_of, part};
ghost use Rattle.cr_pending.specs.Touched.{AreUnder};

use crate::touched::among;
use cr_lattice::change::Change;
use cr_value::order::same_bytes;
use cr_value::text::Bytes;
use std::alloc::{AllocError, Global};
use std::collections::BTreeSet;

// Those of the keys that are among others, by their bytes and each once, so that a change takes but a search in them.
fn in_order(
    alloc: Global,
    others: &BTreeSet<Bytes>,
    keys: &[Bytes],
) -> Result<Vec<Bytes>, AllocError>
    ensures { IfOk result (λ v. v.items ≡ keys_in_order (filter (is_key_of others.now.keys) keys.now)) }
{
    let mut keys = among(alloc, others, keys)?;
    keys.sort()?;
    keys.dedup();
    Ok(keys)
}

fn has_key(keys: &[Bytes], pk: &Bytes) -> bool
    requires { IsStrictlySortedBy bytes_cmp keys.now }
    ensures { result ≡ is_key_of keys.now pk.now }
{
    keys.binary_search(pk).is_ok()
}

fn is_at(table: &str, keys: &[Bytes], change: &Change) -> bool
    requires { IsStrictlySortedBy bytes_cmp keys.now }
    ensures { result ≡ is_at table.now (is_key_of keys.now) change.now }
{
    same_bytes(change.table.as_str().as_bytes(), table.as_bytes()) && has_key(keys, &change.pk)
}

// Those under keys that are in order.
#[tactic(auto, unfolding(cr_touched::specs::Parts::part))]
fn part(
    alloc: Global,
    changes: &[Change],
    table: &str,
    keys: &[Bytes],
) -> Result<Vec<Change>, AllocError>
    requires { IsStrictlySortedBy bytes_cmp keys.now }
    ensures { IfOk result (λ v. v.items ≡ part table.now (is_key_of keys.now) changes.now) }
{
    let mut found = Vec::new(alloc);
    for change in changes {
        if is_at(table, keys, change) {
            found.push(change.copy(alloc)?)?;
        }
    }
    Ok(found)
}

/// The changes of a table under some keys, in their order. They are under the touched keys, so that where none of the keys is one
/// of those, no change is looked at.
pub(crate) fn under_keys(
    alloc: Global,
    changes: &[Change],
    touched: &BTreeSet<Bytes>,
    table: &str,
    keys: &[Bytes],
) -> Result<Vec<Change>, AllocError>
    requires { AreUnder touched.now.keys changes.now }
    ensures { IfOk result (λ v. v.items ≡ part table.now (is_key_of keys.now) changes.now) }
{
    let keys = in_order(alloc, touched, keys)?;
    if keys.is_empty() {
        return Ok(Vec::new(alloc));
    }
    part(alloc, changes, table, &keys)
}
