//! Names of functions and collations, whose ASCII letters count in either case.

ghost use Rattle.std.specs.Prelude.{◌≡◌};
ghost use Rattle.std.specs.Str.{str_to_ascii_lowercase, bytes_eq};
ghost use Rattle.cr_host.specs.Names.{is_function_name, is_collation_name, built_in_collation};

use cr_value::collation::Collation;

/// The greatest number of bytes of a name.
pub const NAME_LIMIT: usize = 255;

/// Whether a name, its ASCII letters in lower case, is the folded name.
pub fn folds_to(name: &str, folded: &str) -> bool
    ensures { result ≡ bytes_eq (str_to_ascii_lowercase name.now) folded.now }
{
    folds_to_bytes(name.as_bytes(), folded.as_bytes())
}

/// `folds_to` of the names' bytes.
pub(crate) fn folds_to_bytes(name: &[u8], folded: &[u8]) -> bool
    ensures { result ≡ bytes_eq (str_to_ascii_lowercase name.now) folded.now }
{
    let (mut rest, mut wanted) = (name, folded);
    while let ([letter, after @ ..], [first, others @ ..]) = (rest, wanted) {
        if letter.to_ascii_lowercase() != *first {
            return false;
        }
        rest = after;
        wanted = others;
    }
    rest.is_empty() && wanted.is_empty()
}

/// Whether a host may register a function under this name: 1 to 255 bytes, and none of the functions that the
/// engine keeps for itself. This project's own rule.
pub fn is_function_name(name: &str) -> bool
    ensures { result ≡ is_function_name name.now }
{
    !name.is_empty()
        && name.len() <= NAME_LIMIT
        && !folds_to(name, "crsql_as_crr")
        && !folds_to(name, "crsql_site_id")
        && !folds_to(name, "crsql_db_version")
}

/// The built-in collation of that name. "Datatypes In SQLite", section 7.
pub fn built_in_collation(name: &str) -> Option<Collation>
    ensures { result ≡ built_in_collation name.now }
{
    if folds_to(name, "binary") {
        return Some(Collation::Binary);
    }
    if folds_to(name, "nocase") {
        return Some(Collation::Nocase);
    }
    if folds_to(name, "rtrim") {
        return Some(Collation::Rtrim);
    }
    None
}

/// Whether a host may register a collation under this name: 1 to 255 bytes, and none of the built-in ones.
/// This project's own rule.
pub fn is_collation_name(name: &str) -> bool
    ensures { result ≡ is_collation_name name.now }
{
    !name.is_empty() && name.len() <= NAME_LIMIT && built_in_collation(name).is_none()
}
