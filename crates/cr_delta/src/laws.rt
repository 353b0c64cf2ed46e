//! Laws of the changes of a local write. The contracts are the theorems; nothing runs.

ghost use Rattle.cr_delta.specs.Wanted.{DeltaShowsWanted, DeltaLeavesOthers, DeltaOfShownIsEmpty, DeltaIsOnce, DeltaIsWellFormed};

/// Joined to what is kept, the changes of a write show exactly the rows that are wanted.
pub fn delta_shows_wanted()
    ensures { DeltaShowsWanted }
{}

/// The rows of every other table stay as they are.
pub fn delta_leaves_others()
    ensures { DeltaLeavesOthers }
{}

/// Rows that are shown already have no changes.
pub fn delta_of_shown_is_empty()
    ensures { DeltaOfShownIsEmpty }
{}

/// The same write again has no changes.
pub fn delta_is_once()
    ensures { DeltaIsOnce }
{}

/// Each change is well formed for the table, where those before are and no wanted value is too long.
pub fn delta_is_well_formed()
    ensures { DeltaIsWellFormed }
{}
