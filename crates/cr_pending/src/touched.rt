//! The keys that changes are under: whether there is a change under a key is told by a search in them.

ghost use Rattle.std.specs.Prelude.{◌≡◌, List, ℕ, true, filter, IfOk, OnOk};
ghost use Rattle.cr_touched.specs.Parts.{is_key_of};
ghost use Rattle.cr_pending.specs.Touched.{AreUnder};

use cr_lattice::change::Change;
use cr_value::text::Bytes;
use std::alloc::{AllocError, Global};
use std::collections::BTreeSet;

fn add_key(alloc: Global, keys: &mut BTreeSet<Bytes>, pk: &Bytes) -> Result<(), AllocError>
    ensures stay { (other : List ℕ) → is_key_of keys.old.keys other ≡ true → is_key_of keys.new.keys other ≡ true }
    ensures there { OnOk result (is_key_of keys.new.keys pk.now ≡ true) }
{
    keys.insert(pk.copy(alloc)?)?;
    Ok(())
}

/// Adds the keys of changes to others. Where memory is wanting, it has added some or none.
pub(crate) fn add_keys(
    alloc: Global,
    keys: &mut BTreeSet<Bytes>,
    changes: &[Change],
) -> Result<(), AllocError>
    ensures stay { (pk : List ℕ) → is_key_of keys.old.keys pk ≡ true → is_key_of keys.new.keys pk ≡ true }
    ensures under { OnOk result (AreUnder keys.new.keys changes.now) }
{
    for change in changes {
        add_key(alloc, keys, &change.pk)?;
    }
    Ok(())
}

fn is_among(others: &BTreeSet<Bytes>, key: &Bytes) -> bool
    ensures { result ≡ is_key_of others.now.keys key.now }
{
    others.contains(key)
}

/// Copies of those of the keys that are among others.
pub(crate) fn among(
    alloc: Global,
    others: &BTreeSet<Bytes>,
    keys: &[Bytes],
) -> Result<Vec<Bytes>, AllocError>
    ensures { IfOk result (λ v. v.items ≡ filter (is_key_of others.now.keys) keys.now) }
{
    let mut out = Vec::new(alloc);
    for key in keys {
        if is_among(others, key) {
            out.push(key.copy(alloc)?)?;
        }
    }
    Ok(out)
}
