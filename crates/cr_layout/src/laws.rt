//! Laws of definitions and their bytes. The contracts are the theorems; nothing runs.

ghost use Rattle.cr_layout.specs.Laws.{OneDefinition, AreReadBack};

/// Two written definitions of one name with the same bytes are equal, and what is written is read back.
pub fn definitions_are_read_back()
    ensures one_definition { OneDefinition }
    ensures read_back { AreReadBack }
{}
