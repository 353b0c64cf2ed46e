//! The parameters of a statement.

ghost use Rattle.std.specs.Prelude.{◌≡◌};
ghost use Rattle.cr_tree.specs.Parameters as spec;

use crate::expr::{Expr, When};
use crate::statement::{
    Assignment, Delete, Insert, Join, Select, Shown, Statement, Tables, Term, Update,
};
use sqlite_items::{Boxed, Items};

#[cycle(parameters)]
fn of_expr(e: &Expr) -> u16
    ensures { result ≡ spec.of_expr e.now }
{
    match e {
        Expr::Param(number) => *number,
        Expr::Unary(_, x) | Expr::Collate(x, _) | Expr::Cast(x, _) => of_expr(x.get()),
        Expr::Binary(_, x, y) => of_expr(x.get()).max(of_expr(y.get())),
        Expr::In(_, x, items) => of_expr(x.get()).max(of_exprs(items.as_slice())),
        Expr::Between(_, x, low, high) => {
            let bounds = of_expr(low.get()).max(of_expr(high.get()));
            of_expr(x.get()).max(bounds)
        }
        Expr::Call(_, args) => of_exprs(args.as_slice()),
        Expr::Case(x, arms, other) => {
            let arms = of_arms(arms.as_slice());
            of_operand(x).max(arms.max(of_operand(other)))
        }
        Expr::Literal(_) | Expr::Column(..) | Expr::CountAll => 0,
    }
}

#[cycle(parameters)]
fn of_operand(x: &Option<Boxed<Expr>>) -> u16
    ensures { result ≡ spec.if_any spec.of_expr x.now }
{
    match x {
        Some(x) => of_expr(x.get()),
        None => 0,
    }
}

#[cycle(parameters)]
#[tactic(auto, using(crate::proofs::Greatest::one_more))]
fn of_exprs(exprs: &[Expr]) -> u16
    ensures { result ≡ spec.of_all spec.of_expr exprs.now }
{
    let mut greatest = 0;
    for x in exprs {
        greatest = of_expr(x).max(greatest);
    }
    greatest
}

#[cycle(parameters)]
#[tactic(auto, using(crate::proofs::Greatest::one_more))]
fn of_arms(arms: &[When]) -> u16
    ensures { result ≡ spec.of_all spec.of_arm arms.now }
{
    let mut greatest = 0;
    for arm in arms {
        let of_arm = of_expr(&arm.when).max(of_expr(&arm.then));
        greatest = of_arm.max(greatest);
    }
    greatest
}

fn of_any(x: &Option<Expr>) -> u16
    ensures { result ≡ spec.if_any spec.of_expr x.now }
{
    match x {
        Some(x) => of_expr(x),
        None => 0,
    }
}

#[tactic(auto, using(crate::proofs::Greatest::one_more))]
fn of_shown(shown: &[Shown]) -> u16
    ensures { result ≡ spec.of_all spec.of_shown shown.now }
{
    let mut greatest = 0;
    for each in shown {
        if let Shown::One(x, _) = each {
            greatest = of_expr(x).max(greatest);
        }
    }
    greatest
}

#[tactic(auto, using(crate::proofs::Greatest::one_more))]
fn of_joins(joins: &[Join]) -> u16
    ensures { result ≡ spec.of_all spec.of_join joins.now }
{
    let mut greatest = 0;
    for join in joins {
        greatest = of_any(&join.on).max(greatest);
    }
    greatest
}

fn of_tables(tables: &Option<Tables>) -> u16
    ensures { result ≡ spec.if_any spec.of_tables tables.now }
{
    match tables {
        Some(tables) => of_joins(tables.joins.as_slice()),
        None => 0,
    }
}

fn of_group(group: &Option<Items<Expr>>) -> u16
    ensures { result ≡ spec.if_any (spec.of_all spec.of_expr) group.now }
{
    match group {
        Some(group) => of_exprs(group.as_slice()),
        None => 0,
    }
}

#[tactic(auto, using(crate::proofs::Greatest::one_more))]
fn of_terms(terms: &[Term]) -> u16
    ensures { result ≡ spec.of_all spec.of_term terms.now }
{
    let mut greatest = 0;
    for term in terms {
        greatest = of_expr(&term.expr).max(greatest);
    }
    greatest
}

fn of_order(order: &Option<Items<Term>>) -> u16
    ensures { result ≡ spec.if_any (spec.of_all spec.of_term) order.now }
{
    match order {
        Some(order) => of_terms(order.as_slice()),
        None => 0,
    }
}

fn of_select(select: &Select) -> u16
    ensures { result ≡ spec.of_select select.now }
{
    let sorted = of_any(&select.having).max(of_order(&select.order));
    let grouped = of_group(&select.group).max(sorted);
    let kept = of_any(&select.filter).max(grouped);
    let read = of_tables(&select.from).max(kept);
    of_shown(select.shown.as_slice()).max(read)
}

#[tactic(auto, using(crate::proofs::Greatest::one_more))]
fn of_insert(insert: &Insert) -> u16
    ensures { result ≡ spec.of_insert insert.now }
{
    let mut greatest = 0;
    for row in insert.rows.as_slice() {
        greatest = of_exprs(row.as_slice()).max(greatest);
    }
    greatest
}

#[tactic(auto, using(crate::proofs::Greatest::one_more))]
fn of_assignments(assignments: &[Assignment]) -> u16
    ensures { result ≡ spec.of_all spec.of_assignment assignments.now }
{
    let mut greatest = 0;
    for assignment in assignments {
        greatest = of_expr(&assignment.value).max(greatest);
    }
    greatest
}

fn of_update(update: &Update) -> u16
    ensures { result ≡ spec.of_update update.now }
{
    of_assignments(update.assignments.as_slice()).max(of_any(&update.filter))
}

fn of_delete(delete: &Delete) -> u16
    ensures { result ≡ spec.of_delete delete.now }
{
    of_any(&delete.filter)
}

/// The greatest number of a parameter that stands in the statement, in a part that is never evaluated too: 1000 where one
/// above 999 does, and 0 where none does. So many values a statement is given, as "Number Of SQL Parameters" of SQLite's
/// C interface has it.
pub fn greatest_parameter(statement: &Statement) -> u16
    ensures { result ≡ spec.greatest_parameter statement.now }
{
    match statement {
        Statement::Select(select) => of_select(select),
        Statement::Insert(insert) => of_insert(insert),
        Statement::Update(update) => of_update(update),
        Statement::Delete(delete) => of_delete(delete),
        Statement::Create(_)
        | Statement::Alter(_)
        | Statement::Begin(_)
        | Statement::Commit
        | Statement::Rollback => 0,
    }
}
