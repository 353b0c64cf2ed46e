//! Laws of the tables that statements define and name. The contracts are the theorems; nothing runs.

ghost use Rattle.cr_fit.specs.Folded.{NamesAreFolded};
ghost use Rattle.cr_fit.specs.Fit.{CreatedAreNew};
ghost use Rattle.cr_fit.specs.Suited.{ResolvedSuit};

/// The names of a table that a statement defines, of its columns and of their collations have no ASCII capital letter, and
/// so have those of a column that it adds, whatever text the statement was read from.
pub fn names_are_folded()
    ensures { NamesAreFolded }
{}

/// A table against which nothing stands as it is created is one that a store takes, where no table has its name.
pub fn created_tables_are_new()
    ensures { CreatedAreNew }
{}

/// A statement that is resolved names tables and modules of the catalog as they stand there, makes a table only such as a
/// store takes, where no table has its name, and adds a column only such as leaves its table one that a store takes.
pub fn resolved_statements_suit()
    ensures { ResolvedSuit }
{}
