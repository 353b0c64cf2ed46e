//! Laws of what is heard and of policies. The contracts are the theorems; nothing runs.

ghost use Rattle.cr_guard.specs.Laws.{HeardIsWhatBecame, HeardIsInOrder, StayingIsSilent, SameRowsAreEqual, LaterRuleDecides};

/// An event is heard exactly where it is of the table and tells what became of the row under its key.
pub fn heard_is_what_became()
    ensures { HeardIsWhatBecame }
{}

/// Of tables in the order of their names, the events are in the order of tables and keys, and there is one of a row at
/// most.
pub fn heard_is_in_order()
    ensures { HeardIsInOrder }
{}

/// Where all rows stay as they were, nothing is heard.
pub fn staying_is_silent()
    ensures { StayingIsSilent }
{}

/// Two rows show the same values exactly where they are equal.
pub fn same_rows_are_equal()
    ensures { SameRowsAreEqual }
{}

/// With a rule, READ of its column is answered as it says, and of every other column as before.
pub fn later_rule_decides()
    ensures { LaterRuleDecides }
{}
