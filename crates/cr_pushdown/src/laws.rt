//! The laws of rows that pass. The contracts are the theorems; nothing runs.

ghost use Rattle.cr_pushdown.specs.Laws.{AnswersByPassing, PassingLeavesOut};

/// A SELECT of one table answers the same over the rows that pass as over all.
pub fn answers_by_passing()
    ensures { AnswersByPassing }
{}

/// Terms are known not to be all true on rows of other keys than those of the rows that pass.
pub fn passing_leaves_out()
    ensures { PassingLeavesOut }
{}
