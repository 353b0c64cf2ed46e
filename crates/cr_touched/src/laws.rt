//! Laws of writes that look at the keys that they touch. The contracts are the theorems; nothing runs.

ghost use Rattle.cr_touched.specs.Parts.{PartsAreKept, PartsAreJoined, KeysMakeTheirPart, PartsShowTheirRows};
ghost use Rattle.cr_touched.specs.Tables.{TablesAreKept, TablesAreJoined, EachMakesThem, TheyShowTheirRows, TheyLeadAlike};
ghost use Rattle.cr_touched.specs.Touched.{DeltaOfTouchedKeys, KeysByLookUps, NewlyKeptOfTheirRows};
ghost use Rattle.cr_touched.specs.Shown.{ShownRowsAreSound};
ghost use Rattle.cr_touched.specs.Inserts.{InsertsLookAtTheirKeys, InsertsMayLookFurther, InsertsAreJudgedAlike, InsertsFaultAlike};

/// What is kept of some keys of a table is kept like the whole, is what is kept of each key, put together, and shows the rows
/// of those keys, in their order.
pub fn parts_are_kept()
    ensures kept { PartsAreKept }
    ensures joined { PartsAreJoined }
    ensures made { KeysMakeTheirPart }
    ensures shown { PartsShowTheirRows }
{}

/// What is kept of some tables is kept like the whole, is what is kept of each table, put together, shows the rows of these
/// tables, and tells the changes that lead from there to other rows.
pub fn tables_are_kept()
    ensures kept { TablesAreKept }
    ensures joined { TablesAreJoined }
    ensures made { EachMakesThem }
    ensures shown { TheyShowTheirRows }
    ensures led { TheyLeadAlike }
{}

/// The changes of a write are those of the keys that it touches, from what is kept of those keys.
pub fn delta_of_touched_keys()
    ensures { DeltaOfTouchedKeys }
{}

/// Whether a write gives a key twice is told by looking up the keys of the rows that come.
pub fn keys_by_look_ups()
    ensures { KeysByLookUps }
{}

/// The changes that come in with a commit are told from what is kept of their rows.
pub fn newly_kept_of_their_rows()
    ensures { NewlyKeptOfTheirRows }
{}

/// Rows that are shown have the keys that they are kept under, each once and within its limit, and every value that they want.
pub fn shown_rows_are_sound()
    ensures { ShownRowsAreSound }
{}

/// An INSERT looks at what is kept of the keys of its rows: that alone tells what stands against it and which changes it
/// makes. It may look at what is kept of other keys too.
pub fn inserts_look_at_their_keys()
    ensures theirs { InsertsLookAtTheirKeys }
    ensures further { InsertsMayLookFurther }
{}

/// What stands against an INSERT over what is kept of the keys of its rows, and the changes that it makes there, are those over
/// all that is kept. It has a fault there where it has one over all.
pub fn inserts_are_judged_alike<E>()
    ensures judged { InsertsAreJudgedAlike E }
    ensures fault { InsertsFaultAlike E }
{}
