//! Laws of statements that look at some keys. The contracts are the theorems; nothing runs.

ghost use Rattle.cr_sought.specs.Bounds.{AnswersAbove};
ghost use Rattle.cr_sought.specs.Joins.{JoinsByKeys, JoinsByList};
ghost use Rattle.cr_sought.specs.Laws.{AnswersByKeys, KeysAreKept, TellingLeavesOut};
ghost use Rattle.cr_sought.specs.Writes.{DeletesByKeys, UpdatesByKeys};

/// Where texts are compared byte by byte, terms that tell keys are known not to be all true on rows of other keys.
pub fn telling_leaves_out()
    ensures { TellingLeavesOut }
{}

/// A SELECT of one table answers the same over what is kept of some keys as over all, if its terms leave out the rows of other keys.
pub fn answers_by_keys()
    ensures { AnswersByKeys }
{}

/// A SELECT of one table, which no LEFT JOIN brings, answers the same over the rows that are above the bound that its terms tell as
/// over all.
pub fn answers_above()
    ensures { AnswersAbove }
{}

/// Where texts are compared byte by byte and no ON of a LEFT JOIN can fault, a SELECT answers the same over what is kept of the keys
/// that terms tell beside the rows of tables further left as over all that is kept of a table.
pub fn joins_by_keys()
    ensures { JoinsByKeys }
{}

/// Where texts are compared byte by byte and no ON can fault, a SELECT answers the same over what is kept of the keys that a list in
/// WHERE tells, of a table that no LEFT JOIN brings, as over all that is kept of it.
pub fn joins_by_list()
    ensures { JoinsByList }
{}

/// What is kept of some keys is kept like the whole.
pub fn keys_are_kept()
    ensures { KeysAreKept }
{}

/// What a DELETE makes over what is kept of some keys, it makes over all, if its terms leave out the rows of other keys.
pub fn deletes_by_keys<X>()
    ensures { DeletesByKeys X }
{}

/// What an UPDATE of no key column makes over what is kept of some keys, it makes over all, if its terms leave out the rows of other keys.
pub fn updates_by_keys<X>()
    ensures { UpdatesByKeys X }
{}
