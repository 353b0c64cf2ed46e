//! Laws of values. The contracts are the theorems; nothing runs.

ghost use Rattle.std.specs.Cmp.{IsTotalOrder};
ghost use Rattle.std.specs.FinSet.{IsAntisymmetric};
ghost use Rattle.cr_value.specs.Order.{value_cmp};
ghost use Rattle.cr_value.specs.Laws.{CollationsAreTotal, AffinityOnceIsEnough, OneSpelling, OneMeaning, OneLiteral, IsWritten, LiteralsAreReadBack};

/// The order of values is total, and only equal values tie.
pub fn values_are_in_a_strict_order()
    ensures total { IsTotalOrder value_cmp }
    ensures only_equal_values_tie { IsAntisymmetric value_cmp }
{}

/// Each built-in collation is a total preorder of texts: any two compare, consistently, and some may tie.
pub fn collations_are_total_preorders()
    ensures { CollationsAreTotal }
{}

/// Applying an affinity twice is applying it once.
pub fn affinity_once_is_enough()
    ensures { AffinityOnceIsEnough }
{}

/// A list of values has one packed spelling, and packed bytes spell one list.
pub fn packed_keys_have_one_spelling()
    ensures one_spelling { OneSpelling }
    ensures one_meaning { OneMeaning }
{}

/// At most one literal begins at a place, and each value that is written is read back there, unless a digit follows an
/// integer or a quote a quoted text.
pub fn literals_are_read_back()
    ensures one_literal { OneLiteral }
    ensures written { IsWritten }
    ensures read_back { LiteralsAreReadBack }
{}
