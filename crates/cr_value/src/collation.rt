//! The three built-in orders of texts.

ghost use Rattle.std.specs.Prelude.{◌≡◌, map};
ghost use Rattle.std.specs.Char.{to_ascii_lowercase};
ghost use Rattle.cr_value.specs.Bytes.{bytes_cmp};
ghost use Rattle.cr_value.specs.Collation.{without_leading_spaces, without_trailing_spaces, text_cmp};

use std::cmp::Ordering;

/// A built-in collating sequence. "Datatypes In SQLite", section 7.
#[derive(Clone, Copy, Debug, PartialEq, Eq)]
pub enum Collation {
    /// By the bytes in UTF-8.
    Binary,
    /// By the bytes, with the ASCII letters in lower case.
    Nocase,
    /// By the bytes, without the spaces at the end.
    Rtrim,
}

// The order of texts whose ASCII letters are taken in lower case.
fn cmp_lowercase(a: &[u8], b: &[u8]) -> Ordering
    ensures { result ≡ bytes_cmp (map to_ascii_lowercase a.now) (map to_ascii_lowercase b.now) }
{
    for at in 0..a.len().min(b.len()) {
        let order = a[at].to_ascii_lowercase().cmp(&b[at].to_ascii_lowercase());
        if order.is_ne() {
            return order;
        }
    }
    a.len().cmp(&b.len())
}

// The bytes from the first on that is no space.
pub(crate) fn without_leading_spaces(mut text: &[u8]) -> &[u8]
    ensures { result.now ≡ without_leading_spaces text.entry.now }
{
    while let [b' ', rest @ ..] = text {
        text = rest;
    }
    text
}

fn without_trailing_spaces(mut text: &[u8]) -> &[u8]
    ensures { result.now ≡ without_trailing_spaces text.entry.now }
{
    while let Some((b' ', front)) = text.split_last() {
        text = front;
    }
    text
}

impl Collation {
    /// How the first text stands to the second. Two texts may tie that are not the same.
    pub fn compare(self, a: &str, b: &str) -> Ordering
        ensures { result ≡ text_cmp self a.now b.now }
    {
        let (a, b) = (a.as_bytes(), b.as_bytes());
        match self {
            Collation::Binary => a.cmp(b),
            Collation::Nocase => cmp_lowercase(a, b),
            Collation::Rtrim => without_trailing_spaces(a).cmp(without_trailing_spaces(b)),
        }
    }
}
