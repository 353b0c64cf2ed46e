//! Laws of plans. The contracts are the theorems; nothing runs.

ghost use Rattle.cr_plan.specs.Laws.{AnswersByPlan};

/// A SELECT answers the same over what a lawful module gives by the terms that it is told as over all that the module has.
pub fn answers_by_plan()
    ensures { AnswersByPlan }
{}
