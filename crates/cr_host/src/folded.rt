//! Names as they are looked up: their ASCII letters in lower case.

ghost use Rattle.std.specs.Prelude.{◌≡◌, ◌≤◌, length, nat_le, IfSome};
ghost use Rattle.std.specs.Option.{is_some};
ghost use Rattle.std.specs.Str.{str_to_ascii_lowercase, bytes_eq};

use crate::name::{NAME_LIMIT, folds_to_bytes};
use arrayvec::ArrayVec;

/// A name of at most 255 bytes, its ASCII letters in lower case. It lies in the value itself, so that looking a name up
/// takes no memory.
#[derive(Drop, PartialEq, Eq, Hash)]
pub struct FoldedName {
    bytes: ArrayVec<u8, NAME_LIMIT>,
    ghost fits: { length bytes.items ≤ 255 },
}

impl FoldedName {
    /// The folded name, or `None` of a name of over 255 bytes.
    pub fn of(name: &str) -> Option<FoldedName>
        ensures fits { is_some result ≡ nat_le (length name.now) 255 }
        ensures folded { IfSome result (λ f. f.bytes.items ≡ str_to_ascii_lowercase name.now) }
    {
        if name.len() > NAME_LIMIT {
            return None;
        }
        let mut bytes = ArrayVec::new();
        for byte in name.as_bytes() {
            bytes.push(byte.to_ascii_lowercase());
        }
        Some(FoldedName { bytes })
    }

    /// Whether this is that name, the ASCII letters in either case.
    pub fn is_of(&self, name: &str) -> bool
        ensures { result ≡ bytes_eq (str_to_ascii_lowercase name.now) self.now.bytes.items }
    {
        folds_to_bytes(name.as_bytes(), self.bytes.as_slice())
    }
}
