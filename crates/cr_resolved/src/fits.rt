//! Whether the values that are given fit the parameters of a statement. Takes no memory.

ghost use Rattle.std.specs.Prelude.{◌≡◌, ◌∷◌, ◌++◌, [], map};
ghost use Rattle.std.specs.Option.{option_map, option_to_list};
ghost use Rattle.std.specs.List.{flat_map};
ghost use Rattle.cr_resolve.specs.Parameters.{fits};
ghost use Rattle.cr_resolve.specs.Queries.{or_none};
ghost use Rattle.cr_resolve.specs.Resolve.{on_trees, select_trees, trees};
ghost use Rattle.cr_resolve.specs.Trees.{all, if_any, params};
ghost use Rattle.cr_resolved.specs.Fits.{arm_params, assignment_params, is_in_range, join_params, nothing_seen, row_params, seen_with, shown_params, term_params};

use cr_tree::expr::{Expr as Tree, When};
use cr_tree::statement::{
    Assignment, Delete, Insert, Join, Select, Shown, Statement, Tables, Term, Update,
};
use sqlite_items::{Boxed, Items};

// What is seen of parameters: the greatest, 0 where there is none, and whether each is 1 to 999.
#[derive(Clone, Copy)]
struct Seen {
    greatest: u16,
    are_in_range: bool,
}

// Before any parameter is seen.
fn nothing_seen() -> Seen
    ensures { result ≡ nothing_seen }
{
    Seen {
        greatest: 0,
        are_in_range: true,
    }
}

// Whether a parameter's number is one that a statement may have.
fn is_in_range(number: u16) -> bool
    ensures { result ≡ is_in_range number }
{
    1 <= number && number <= 999
}

// One more parameter.
#[tactic(auto, unfolding(crate::specs::Fits::seen_with), using(crate::proofs::Seen::and_true))]
fn with_param(seen: Seen, number: u16) -> Seen
    ensures { result ≡ seen_with seen (number ∷ []) }
{
    Seen {
        greatest: seen.greatest.max(number),
        are_in_range: seen.are_in_range && is_in_range(number),
    }
}

// With the parameters of an expression.
#[cycle(params)]
fn with_tree(seen: Seen, tree: &Tree) -> Seen
    ensures { result ≡ seen_with seen (params tree.now) }
{
    match tree {
        Tree::Param(number) => with_param(seen, *number),
        Tree::Literal(_) | Tree::Column(..) | Tree::CountAll => seen,
        Tree::Unary(_, operand) | Tree::Collate(operand, _) | Tree::Cast(operand, _) => {
            with_tree(seen, operand.get())
        }
        Tree::Binary(_, left, right) => {
            let seen = with_tree(seen, left.get());
            with_tree(seen, right.get())
        }
        Tree::In(_, operand, items) => {
            let seen = with_tree(seen, operand.get());
            with_trees(seen, items.as_slice())
        }
        Tree::Between(_, operand, low, high) => {
            let seen = with_tree(seen, operand.get());
            let seen = with_tree(seen, low.get());
            with_tree(seen, high.get())
        }
        Tree::Call(_, args) => with_trees(seen, args.as_slice()),
        Tree::Case(operand, arms, otherwise) => {
            let seen = with_operand(seen, operand);
            let seen = with_arms(seen, arms.as_slice());
            with_operand(seen, otherwise)
        }
    }
}

// With the parameters of several expressions.
#[cycle(params)]
fn with_trees(mut seen: Seen, trees: &[Tree]) -> Seen
    ensures { result ≡ seen_with seen (all (map params trees.now)) }
{
    for tree in trees {
        seen = with_tree(seen, tree);
    }
    seen
}

// With the parameters of the arms of a CASE.
#[cycle(params)]
fn with_arms(mut seen: Seen, arms: &[When]) -> Seen
    ensures { result ≡ seen_with seen (all (map arm_params arms.now)) }
{
    for arm in arms {
        seen = with_tree(seen, &arm.when);
        seen = with_tree(seen, &arm.then);
    }
    seen
}

// With the parameters of an operand that need not be there.
#[cycle(params)]
#[tactic(auto, using(crate::proofs::Seen::with_nothing))]
fn with_operand(seen: Seen, operand: &Option<Boxed<Tree>>) -> Seen
    ensures { result ≡ seen_with seen (if_any (option_map params operand.now)) }
{
    match operand {
        Some(operand) => with_tree(seen, operand.get()),
        None => seen,
    }
}

// With the parameters of what stands behind WHERE, HAVING or ON.
#[tactic(auto, using(crate::proofs::Seen::with_nothing, crate::proofs::Seen::with_one))]
fn with_clause(seen: Seen, clause: &Option<Tree>) -> Seen
    ensures { result ≡ seen_with seen (flat_map params (option_to_list clause.now)) }
{
    match clause {
        Some(tree) => with_tree(seen, tree),
        None => seen,
    }
}

// With the parameters of a part of what is shown.
#[tactic(auto, using(crate::proofs::Seen::with_nothing, crate::proofs::Seen::with_one))]
fn with_column(seen: Seen, column: &Shown) -> Seen
    ensures { result ≡ seen_with seen (shown_params column.now) }
{
    match column {
        Shown::One(tree, _) => with_tree(seen, tree),
        Shown::All | Shown::AllOf(_) => seen,
    }
}

// With the parameters of all that is shown.
fn with_shown(mut seen: Seen, shown: &[Shown]) -> Seen
    ensures { result ≡ seen_with seen (flat_map shown_params shown.now) }
{
    for column in shown {
        seen = with_column(seen, column);
    }
    seen
}

// With the parameters behind each ON.
fn with_joins(mut seen: Seen, joins: &[Join]) -> Seen
    ensures { result ≡ seen_with seen (flat_map join_params joins.now) }
{
    for join in joins {
        seen = with_clause(seen, &join.on);
    }
    seen
}

// With the parameters in FROM.
#[tactic(auto, using(crate::proofs::Seen::with_nothing, crate::proofs::Seen::with_on))]
fn with_from(seen: Seen, from: &Option<Tables>) -> Seen
    ensures { result ≡ seen_with seen (flat_map params (on_trees from.now)) }
{
    match from {
        Some(tables) => with_joins(seen, tables.joins.as_slice()),
        None => seen,
    }
}

// With the parameters in GROUP BY.
#[tactic(auto, using(crate::proofs::Seen::with_nothing))]
fn with_group(seen: Seen, group: &Option<Items<Tree>>) -> Seen
    ensures { result ≡ seen_with seen (flat_map params (or_none group.now)) }
{
    match group {
        Some(trees) => with_trees(seen, trees.as_slice()),
        None => seen,
    }
}

// With the parameters of the terms of ORDER BY.
fn with_terms(mut seen: Seen, terms: &[Term]) -> Seen
    ensures { result ≡ seen_with seen (flat_map term_params terms.now) }
{
    for term in terms {
        seen = with_tree(seen, &term.expr);
    }
    seen
}

// With the parameters in ORDER BY.
#[tactic(auto, using(crate::proofs::Seen::with_nothing, crate::proofs::Seen::with_order_trees))]
fn with_order(seen: Seen, order: &Option<Items<Term>>) -> Seen
    ensures { result ≡ seen_with seen (flat_map params (map (λ t. t.expr) (or_none order.now))) }
{
    match order {
        Some(terms) => with_terms(seen, terms.as_slice()),
        None => seen,
    }
}

// The parameters of a SELECT.
fn of_select(select: &Select) -> Seen
    ensures { result ≡ seen_with nothing_seen (flat_map params (select_trees select.now)) }
{
    let seen = with_shown(nothing_seen(), select.shown.as_slice());
    let seen = with_from(seen, &select.from);
    let seen = with_clause(seen, &select.filter);
    let seen = with_group(seen, &select.group);
    let seen = with_clause(seen, &select.having);
    with_order(seen, &select.order)
}

// The parameters of an INSERT.
fn of_insert(insert: &Insert) -> Seen
    ensures { result ≡ seen_with nothing_seen (flat_map row_params insert.now.rows) }
{
    let mut seen = nothing_seen();
    for row in insert.rows.as_slice() {
        seen = with_trees(seen, row.as_slice());
    }
    seen
}

// With the parameters of the values that columns get.
fn with_assignments(mut seen: Seen, assignments: &[Assignment]) -> Seen
    ensures { result ≡ seen_with seen (flat_map assignment_params assignments.now) }
{
    for assignment in assignments {
        seen = with_tree(seen, &assignment.value);
    }
    seen
}

// The parameters of an UPDATE.
fn of_update(update: &Update) -> Seen
    ensures { result ≡ seen_with nothing_seen (flat_map params (map (λ a. a.value) update.now.assignments ++ option_to_list update.now.filter)) }
{
    let seen = with_assignments(nothing_seen(), update.assignments.as_slice());
    with_clause(seen, &update.filter)
}

// The parameters of a DELETE.
fn of_delete(delete: &Delete) -> Seen
    ensures { result ≡ seen_with nothing_seen (flat_map params (option_to_list delete.now.filter)) }
{
    with_clause(nothing_seen(), &delete.filter)
}

// The parameters of a statement.
#[tactic(auto, using(crate::proofs::Seen::with_nothing, crate::proofs::Seen::in_rows))]
fn of_statement(statement: &Statement) -> Seen
    ensures { result ≡ seen_with nothing_seen (flat_map params (trees statement.now)) }
{
    match statement {
        Statement::Select(select) => of_select(select),
        Statement::Insert(insert) => of_insert(insert),
        Statement::Update(update) => of_update(update),
        Statement::Delete(delete) => of_delete(delete),
        Statement::Create(_)
        | Statement::Alter(_)
        | Statement::Begin(_)
        | Statement::Commit
        | Statement::Rollback => nothing_seen(),
    }
}

/// Whether so many values fit a statement: its greatest parameter is that number, 0 where it has none, and each is 1 to
/// 999.
#[tactic(auto, unfolding(crate::specs::Fits::seen_with))]
pub fn fits(statement: &Statement, count: usize) -> bool
    ensures { result ≡ fits statement.now count }
{
    let seen = of_statement(statement);
    usize::from(seen.greatest) == count && seen.are_in_range
}
