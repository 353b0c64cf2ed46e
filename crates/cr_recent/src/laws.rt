//! Laws of notes. The contracts are the theorems; nothing runs.

ghost use Rattle.cr_recent.specs.Laws.{NotesTellTheCells, NothingIsAbove, CommitsAreNoted};

/// Notes tell which cells are stamped above a version, and stay such as commits come.
pub fn notes_tell_the_cells()
    ensures told { NotesTellTheCells }
    ensures begun { NothingIsAbove }
    ensures noted { CommitsAreNoted }
{}
