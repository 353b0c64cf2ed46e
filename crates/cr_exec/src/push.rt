//! Values put behind others.

ghost use Rattle.std.specs.Prelude.{◌≡◌, ◌∷◌, ◌++◌, [], OnOk, OnErr};

use std::alloc::AllocError;

/// Puts one more behind others; what was there stays in place where memory runs out.
pub fn push<T: Drop>(out: &mut Vec<T>, item: T) -> Result<(), AllocError>
    ensures puts { OnOk result (out.new.items ≡ out.old.items ++ item ∷ []) }
    ensures stays { OnErr result (out.new.items ≡ out.old.items) }
{
    out.push(item)?;
    Ok(())
}
