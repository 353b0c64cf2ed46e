//! Laws of the rows that are wanted. The contracts are the theorems; nothing runs.

ghost use Rattle.std.specs.Prelude.{◌≡◌, List, Some};
ghost use Rattle.cr_lattice.specs.declared.change.Change.{Change};
ghost use Rattle.cr_lattice.specs.declared.table.ColumnDef.{ColumnDef};
ghost use Rattle.cr_lattice.specs.declared.table.TableDef.{TableDef};
ghost use Rattle.cr_lattice.specs.Rows.{rows};
ghost use Rattle.cr_query.specs.Query.{Row, Meaning};
ghost use Rattle.cr_query.specs.Queries.{Insert, Update, Delete};
ghost use Rattle.cr_query.specs.Writes.{wanted_by_insert, wanted_by_update, wanted_by_delete};
ghost use Rattle.cr_wanted.specs.Judged.{AreWide};

/// The rows that a table shows have a value for each column.
pub fn shown_rows_are_wide()
    ensures { (kept : List Change) (def : TableDef) → AreWide def.columns (rows kept def) }
{}

/// Where they have, so have the rows that a write wants.
pub fn wanted_rows_are_wide<E>()
    ensures insert { (m : Meaning E) (cols : List ColumnDef) (w : Insert E) (rows out : List Row) → AreWide cols rows → wanted_by_insert m cols w rows ≡ Some out → AreWide cols out }
    ensures update { (m : Meaning E) (cols : List ColumnDef) (w : Update E) (rows out : List Row) → AreWide cols rows → wanted_by_update m cols w rows ≡ Some out → AreWide cols out }
    ensures delete { (m : Meaning E) (cols : List ColumnDef) (w : Delete E) (rows out : List Row) → AreWide cols rows → wanted_by_delete m w rows ≡ Some out → AreWide cols out }
{}
