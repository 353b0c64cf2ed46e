//! Expressions over a group in which what their aggregates give is shown: once that is known, their values need no rows.

ghost use Rattle.std.specs.Prelude.{IfOk};
ghost use Rattle.cr_tally.specs.Showing.{Shows, ShowsAll, ShowsArms, ShowsIfAny};

use cr_build::copy::{copy_built_in, copy_column, copy_meeting};
use cr_term::expr::{Expr, When};
use cr_term::operator::Aggregate;
use cr_value::value::Value;
use sqlite_items::{Boxed, Items};
use std::alloc::{AllocError, Global};

/// An aggregate with its arguments.
#[derive(Clone, Copy, Drop)]
pub struct Call<'q> {
    pub kind: &'q Aggregate,
    pub args: &'q [Expr],
}

/// An expression over a group that shows no terms, with each of its aggregates put behind others, and what that gives shown in its
/// place. It has the value of the expression wherever the values of all these aggregates are shown, in their order.
///
/// # Errors
/// `AllocError` where memory runs out.
#[cycle(show)]
pub fn show<'q>(
    alloc: Global,
    expr: &'q Expr,
    calls: &mut Vec<Call<'q>>,
) -> Result<Expr, AllocError>
    ensures { IfOk result (Shows calls.old.items calls.new.items expr.now) }
{
    match expr {
        Expr::Literal(value) => Ok(Expr::Literal(value.copy(alloc)?)),
        Expr::Param(n) => Ok(Expr::Param(*n)),
        Expr::Column(column) => Ok(Expr::Column(copy_column(alloc, column)?)),
        Expr::SiteId(bytes) => Ok(Expr::SiteId(bytes.copy(alloc)?)),
        Expr::DbVersion(n) => Ok(Expr::DbVersion(*n)),
        // The group shows no term.
        Expr::Shown(..) => Ok(Expr::Literal(Value::Null)),
        Expr::Aggregate(kind, args) => {
            let place = calls.len();
            calls.push(Call {
                kind,
                args: args.as_slice(),
            })?;
            let nothing = Boxed::new(alloc, Expr::Literal(Value::Null))?;
            Ok(Expr::Shown(place, nothing))
        }
        Expr::Unary(op, operand) => {
            let operand = show_boxed(alloc, operand.get(), calls)?;
            Ok(Expr::Unary(*op, operand))
        }
        Expr::Cast(to, operand) => {
            let operand = show_boxed(alloc, operand.get(), calls)?;
            Ok(Expr::Cast(*to, operand))
        }
        Expr::Collate(operand, name) => {
            let operand = show_boxed(alloc, operand.get(), calls)?;
            Ok(Expr::Collate(operand, name.copy(alloc)?))
        }
        Expr::Arithmetic(op, left, right) => {
            let left = show_boxed(alloc, left.get(), calls)?;
            let right = show_boxed(alloc, right.get(), calls)?;
            Ok(Expr::Arithmetic(*op, left, right))
        }
        Expr::Join(left, right) => {
            let left = show_boxed(alloc, left.get(), calls)?;
            let right = show_boxed(alloc, right.get(), calls)?;
            Ok(Expr::Join(left, right))
        }
        Expr::Like(is_negated, text, pattern) => {
            let text = show_boxed(alloc, text.get(), calls)?;
            let pattern = show_boxed(alloc, pattern.get(), calls)?;
            Ok(Expr::Like(*is_negated, text, pattern))
        }
        Expr::Logic(op, left, right) => {
            let left = show_boxed(alloc, left.get(), calls)?;
            let right = show_boxed(alloc, right.get(), calls)?;
            Ok(Expr::Logic(*op, left, right))
        }
        Expr::Compare(op, meeting, left, right) => {
            let left = show_boxed(alloc, left.get(), calls)?;
            let right = show_boxed(alloc, right.get(), calls)?;
            Ok(Expr::Compare(*op, copy_meeting(alloc, meeting)?, left, right))
        }
        Expr::In(is_negated, meeting, operand, items) => {
            let operand = show_boxed(alloc, operand.get(), calls)?;
            let items = show_all(alloc, items.as_slice(), calls)?;
            let meeting = copy_meeting(alloc, meeting)?;
            Ok(Expr::In(*is_negated, meeting, operand, items))
        }
        Expr::Between(is_negated, low_meeting, high_meeting, operand, low, high) => {
            let operand = show_boxed(alloc, operand.get(), calls)?;
            let low = show_boxed(alloc, low.get(), calls)?;
            let high = show_boxed(alloc, high.get(), calls)?;
            let low_meeting = copy_meeting(alloc, low_meeting)?;
            let high_meeting = copy_meeting(alloc, high_meeting)?;
            Ok(Expr::Between(*is_negated, low_meeting, high_meeting, operand, low, high))
        }
        Expr::Case(operand, arms, otherwise) => {
            let operand = show_if_any(alloc, operand, calls)?;
            let arms = show_arms(alloc, arms.as_slice(), calls)?;
            let otherwise = show_if_any(alloc, otherwise, calls)?;
            Ok(Expr::Case(operand, arms, otherwise))
        }
        Expr::BuiltIn(function, args) => {
            let args = show_all(alloc, args.as_slice(), calls)?;
            Ok(Expr::BuiltIn(copy_built_in(alloc, function)?, args))
        }
        Expr::Host(name, args) => {
            let args = show_all(alloc, args.as_slice(), calls)?;
            Ok(Expr::Host(name.copy(alloc)?, args))
        }
    }
}

#[cycle(show)]
fn show_boxed<'q>(
    alloc: Global,
    expr: &'q Expr,
    calls: &mut Vec<Call<'q>>,
) -> Result<Boxed<Expr>, AllocError>
    ensures { IfOk result (Shows calls.old.items calls.new.items expr.now) }
{
    let shown = show(alloc, expr, calls)?;
    Boxed::new(alloc, shown)
}

#[cycle(show)]
fn show_if_any<'q>(
    alloc: Global,
    expr: &'q Option<Boxed<Expr>>,
    calls: &mut Vec<Call<'q>>,
) -> Result<Option<Boxed<Expr>>, AllocError>
    ensures { IfOk result (ShowsIfAny calls.old.items calls.new.items expr.now) }
{
    match expr {
        Some(expr) => {
            let shown = show_boxed(alloc, expr.get(), calls)?;
            Ok(Some(shown))
        }
        None => Ok(None),
    }
}

#[cycle(show)]
fn show_all<'q>(
    alloc: Global,
    exprs: &'q [Expr],
    calls: &mut Vec<Call<'q>>,
) -> Result<Items<Expr>, AllocError>
    ensures { IfOk result (ShowsAll calls.old.items calls.new.items exprs.now) }
{
    let mut out = Vec::new(alloc);
    for expr in exprs {
        let shown = show(alloc, expr, calls)?;
        out.push(shown)?;
    }
    Ok(Items::from_vec(out))
}

#[cycle(show)]
fn show_arms<'q>(
    alloc: Global,
    arms: &'q [When],
    calls: &mut Vec<Call<'q>>,
) -> Result<Items<When>, AllocError>
    ensures { IfOk result (ShowsArms calls.old.items calls.new.items arms.now) }
{
    let mut out = Vec::new(alloc);
    for arm in arms {
        let when = show(alloc, &arm.when, calls)?;
        let then = show(alloc, &arm.then, calls)?;
        let meeting = copy_meeting(alloc, &arm.meeting)?;
        out.push(When {
            meeting,
            when,
            then,
        })?;
    }
    Ok(Items::from_vec(out))
}
