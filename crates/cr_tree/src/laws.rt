//! Laws of the grammar of expressions. The contracts are the theorems; nothing runs.

ghost use Rattle.cr_tree.specs.Language as language;
ghost use Rattle.cr_tree.specs.Laws.{OneAnswer};

/// Of any symbols exactly one of these is true: they are an expression within the limits, with one tree; or they have a
/// bad place, and one alone; or they meet a limit, of one kind.
pub fn expressions_have_one_answer()
    ensures { OneAnswer language.expr }
{}
