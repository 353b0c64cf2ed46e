//! Laws of the grammar of statements. The contracts are the theorems; nothing runs.

ghost use Rattle.cr_tree.specs.Laws.{OneAnswer};
ghost use Rattle.cr_statement.specs.Laws.{TrueAnswersAreJudged, JudgedAnswersAreTrue};
ghost use Rattle.cr_statement.specs.Statements as language;

/// Of any symbols exactly one of these is true: they are a statement within the limits, with one tree; or they have a
/// bad place, and one alone; or they meet a limit, of one kind.
pub fn statements_have_one_answer()
    ensures { OneAnswer language.statement }
{}

/// Whatever is answered of the statement at the front of a source's tokens, and is not that memory ran out, is true by
/// the grammar exactly where it says what `judged` gives. So `judged`, by which `next` tells of a script, is the
/// grammar's one answer, and how it is come by doesn't matter.
pub fn true_answers_are_judged()
    ensures alone { TrueAnswersAreJudged }
    ensures holds { JudgedAnswersAreTrue }
{}
