//! Whether a statement has a CAST to a type that is none of the three.

ghost use Rattle.std.specs.Prelude.{◌≡◌, ◌∷◌, ◌++◌, [], map, false, IfOk};
ghost use Rattle.std.specs.Option.{is_none, option_map, option_to_list};
ghost use Rattle.std.specs.List.{flat_map, list_any};
ghost use Rattle.cr_resolve.specs.Expressions.{cast_target};
ghost use Rattle.cr_resolve.specs.Queries.{or_none};
ghost use Rattle.cr_resolve.specs.Resolve.{on_trees, select_trees, trees};
ghost use Rattle.cr_resolve.specs.Trees.{all, casts, if_any};
ghost use Rattle.cr_resolved.specs.Casts.{arm_casts, assignment_casts, is_outside, join_casts, or_outside, row_casts, shown_casts, term_casts};

use cr_resolve::node::cast_target;
use cr_tree::expr::{Expr as Tree, When};
use cr_tree::statement::{
    Assignment, Delete, Insert, Join, Select, Shown, Statement, Tables, Term, Update,
};
use cr_value::text::Text;
use sqlite_items::{Boxed, Items};
use std::alloc::{AllocError, Global};

// Whether the type of these words is none of the three.
fn is_outside(alloc: Global, words: &[Text]) -> Result<bool, AllocError>
    ensures { IfOk result (λ b. b ≡ is_outside words.now) }
{
    match cast_target(alloc, words)? {
        Some(_) => Ok(false),
        None => Ok(true),
    }
}

// Whether it was found, or the type of these words is none of the three.
#[tactic(auto, unfolding(crate::specs::Casts::or_outside), using(cr_select::proofs::Each::or_false))]
fn or_outside(alloc: Global, found: bool, words: &[Text]) -> Result<bool, AllocError>
    ensures { IfOk result (λ b. b ≡ or_outside found (words.now ∷ [])) }
{
    if found {
        return Ok(true);
    }
    is_outside(alloc, words)
}

// Whether it was found, or a CAST in an expression is to another type.
#[cycle(casts)]
fn or_casts(alloc: Global, found: bool, tree: &Tree) -> Result<bool, AllocError>
    ensures { IfOk result (λ b. b ≡ or_outside found (casts tree.now)) }
{
    match tree {
        Tree::Literal(_) | Tree::Param(_) | Tree::Column(..) | Tree::CountAll => Ok(found),
        Tree::Unary(_, operand) | Tree::Collate(operand, _) => {
            or_casts(alloc, found, operand.get())
        }
        Tree::Binary(_, left, right) => {
            let found = or_casts(alloc, found, left.get())?;
            or_casts(alloc, found, right.get())
        }
        Tree::In(_, operand, items) => {
            let found = or_casts(alloc, found, operand.get())?;
            or_any_casts(alloc, found, items.as_slice())
        }
        Tree::Between(_, operand, low, high) => {
            let found = or_casts(alloc, found, operand.get())?;
            let found = or_casts(alloc, found, low.get())?;
            or_casts(alloc, found, high.get())
        }
        Tree::Call(_, args) => or_any_casts(alloc, found, args.as_slice()),
        Tree::Cast(operand, words) => {
            let found = or_casts(alloc, found, operand.get())?;
            or_outside(alloc, found, words.as_slice())
        }
        Tree::Case(operand, arms, otherwise) => {
            let found = or_operand_casts(alloc, found, operand)?;
            let found = or_arm_casts(alloc, found, arms.as_slice())?;
            or_operand_casts(alloc, found, otherwise)
        }
    }
}

// Whether it was found, or a CAST in one of several expressions is to another type.
#[cycle(casts)]
fn or_any_casts(alloc: Global, mut found: bool, trees: &[Tree]) -> Result<bool, AllocError>
    ensures { IfOk result (λ b. b ≡ or_outside found (all (map casts trees.now))) }
{
    for tree in trees {
        found = or_casts(alloc, found, tree)?;
    }
    Ok(found)
}

// Whether it was found, or a CAST in an arm of a CASE is to another type.
#[cycle(casts)]
fn or_arm_casts(alloc: Global, mut found: bool, arms: &[When]) -> Result<bool, AllocError>
    ensures { IfOk result (λ b. b ≡ or_outside found (all (map arm_casts arms.now))) }
{
    for arm in arms {
        found = or_casts(alloc, found, &arm.when)?;
        found = or_casts(alloc, found, &arm.then)?;
    }
    Ok(found)
}

// Whether it was found, or a CAST in an operand that need not be there is to another type.
#[cycle(casts)]
#[tactic(auto, using(crate::proofs::Outside::or_nothing))]
fn or_operand_casts(
    alloc: Global,
    found: bool,
    operand: &Option<Boxed<Tree>>,
) -> Result<bool, AllocError>
    ensures { IfOk result (λ b. b ≡ or_outside found (if_any (option_map casts operand.now))) }
{
    match operand {
        Some(operand) => or_casts(alloc, found, operand.get()),
        None => Ok(found),
    }
}

// Whether it was found, or a CAST in what stands behind WHERE, HAVING or ON is to another type.
#[tactic(auto, using(crate::proofs::Outside::or_nothing, crate::proofs::Outside::or_one))]
fn or_clause_casts(alloc: Global, found: bool, clause: &Option<Tree>) -> Result<bool, AllocError>
    ensures { IfOk result (λ b. b ≡ or_outside found (flat_map casts (option_to_list clause.now))) }
{
    match clause {
        Some(tree) => or_casts(alloc, found, tree),
        None => Ok(found),
    }
}

// Whether it was found, or a CAST in what is shown is to another type.
#[tactic(auto, using(crate::proofs::Outside::or_nothing, crate::proofs::Outside::or_one))]
fn or_column_casts(alloc: Global, found: bool, column: &Shown) -> Result<bool, AllocError>
    ensures { IfOk result (λ b. b ≡ or_outside found (shown_casts column.now)) }
{
    match column {
        Shown::One(tree, _) => or_casts(alloc, found, tree),
        Shown::All | Shown::AllOf(_) => Ok(found),
    }
}

// Whether it was found, or a CAST in one of what is shown is to another type.
fn or_shown_casts(alloc: Global, mut found: bool, shown: &[Shown]) -> Result<bool, AllocError>
    ensures { IfOk result (λ b. b ≡ or_outside found (flat_map shown_casts shown.now)) }
{
    for column in shown {
        found = or_column_casts(alloc, found, column)?;
    }
    Ok(found)
}

// Whether it was found, or a CAST behind an ON is to another type.
fn or_join_casts(alloc: Global, mut found: bool, joins: &[Join]) -> Result<bool, AllocError>
    ensures { IfOk result (λ b. b ≡ or_outside found (flat_map join_casts joins.now)) }
{
    for join in joins {
        found = or_clause_casts(alloc, found, &join.on)?;
    }
    Ok(found)
}

// Whether it was found, or a CAST in FROM is to another type.
#[tactic(auto, using(crate::proofs::Outside::or_nothing, crate::proofs::Outside::or_joins))]
fn or_from_casts(alloc: Global, found: bool, from: &Option<Tables>) -> Result<bool, AllocError>
    ensures { IfOk result (λ b. b ≡ or_outside found (flat_map casts (on_trees from.now))) }
{
    match from {
        Some(tables) => or_join_casts(alloc, found, tables.joins.as_slice()),
        None => Ok(found),
    }
}

// Whether it was found, or a CAST in GROUP BY is to another type.
#[tactic(auto, using(crate::proofs::Outside::or_nothing))]
fn or_group_casts(
    alloc: Global,
    found: bool,
    group: &Option<Items<Tree>>,
) -> Result<bool, AllocError>
    ensures { IfOk result (λ b. b ≡ or_outside found (flat_map casts (or_none group.now))) }
{
    match group {
        Some(trees) => or_any_casts(alloc, found, trees.as_slice()),
        None => Ok(found),
    }
}

// Whether it was found, or a CAST in a term of ORDER BY is to another type.
fn or_term_casts(alloc: Global, mut found: bool, terms: &[Term]) -> Result<bool, AllocError>
    ensures { IfOk result (λ b. b ≡ or_outside found (flat_map term_casts terms.now)) }
{
    for term in terms {
        found = or_casts(alloc, found, &term.expr)?;
    }
    Ok(found)
}

// Whether it was found, or a CAST in ORDER BY is to another type.
#[tactic(auto, using(crate::proofs::Outside::or_nothing, crate::proofs::Outside::or_order))]
fn or_order_casts(
    alloc: Global,
    found: bool,
    order: &Option<Items<Term>>,
) -> Result<bool, AllocError>
    ensures { IfOk result (λ b. b ≡ or_outside found (flat_map casts (map (λ t. t.expr) (or_none order.now)))) }
{
    match order {
        Some(terms) => or_term_casts(alloc, found, terms.as_slice()),
        None => Ok(found),
    }
}

// Whether a CAST somewhere in a SELECT is to another type.
fn in_select(alloc: Global, select: &Select) -> Result<bool, AllocError>
    ensures { IfOk result (λ b. b ≡ or_outside false (flat_map casts (select_trees select.now))) }
{
    let found = or_shown_casts(alloc, false, select.shown.as_slice())?;
    let found = or_from_casts(alloc, found, &select.from)?;
    let found = or_clause_casts(alloc, found, &select.filter)?;
    let found = or_group_casts(alloc, found, &select.group)?;
    let found = or_clause_casts(alloc, found, &select.having)?;
    or_order_casts(alloc, found, &select.order)
}

// Whether a CAST in the rows of an INSERT is to another type.
fn in_insert(alloc: Global, insert: &Insert) -> Result<bool, AllocError>
    ensures { IfOk result (λ b. b ≡ or_outside false (flat_map row_casts insert.now.rows)) }
{
    let mut found = false;
    for row in insert.rows.as_slice() {
        found = or_any_casts(alloc, found, row.as_slice())?;
    }
    Ok(found)
}

// Whether it was found, or a CAST in a value that a column gets is to another type.
fn or_assignment_casts(
    alloc: Global,
    mut found: bool,
    assignments: &[Assignment],
) -> Result<bool, AllocError>
    ensures { IfOk result (λ b. b ≡ or_outside found (flat_map assignment_casts assignments.now)) }
{
    for assignment in assignments {
        found = or_casts(alloc, found, &assignment.value)?;
    }
    Ok(found)
}

// Whether a CAST in an UPDATE is to another type.
fn in_update(alloc: Global, update: &Update) -> Result<bool, AllocError>
    ensures { IfOk result (λ b. b ≡ or_outside false (flat_map casts (map (λ a. a.value) update.now.assignments ++ option_to_list update.now.filter))) }
{
    let found = or_assignment_casts(alloc, false, update.assignments.as_slice())?;
    or_clause_casts(alloc, found, &update.filter)
}

// Whether a CAST in a DELETE is to another type.
fn in_delete(alloc: Global, delete: &Delete) -> Result<bool, AllocError>
    ensures { IfOk result (λ b. b ≡ or_outside false (flat_map casts (option_to_list delete.now.filter))) }
{
    or_clause_casts(alloc, false, &delete.filter)
}

/// Whether a CAST somewhere in a statement is to a type that is none of integer, text and blob.
///
/// # Errors
/// Where memory runs out.
#[tactic(auto, using(crate::proofs::Outside::none_before, crate::proofs::Outside::in_rows))]
pub fn has_cast_outside(alloc: Global, statement: &Statement) -> Result<bool, AllocError>
    ensures { IfOk result (λ b. b ≡ list_any (λ words. is_none (cast_target words)) (flat_map casts (trees statement.now))) }
{
    match statement {
        Statement::Select(select) => in_select(alloc, select),
        Statement::Insert(insert) => in_insert(alloc, insert),
        Statement::Update(update) => in_update(alloc, update),
        Statement::Delete(delete) => in_delete(alloc, delete),
        Statement::Create(_)
        | Statement::Alter(_)
        | Statement::Begin(_)
        | Statement::Commit
        | Statement::Rollback => Ok(false),
    }
}
