//! The value of an expression in a query.

ghost use Rattle.std.specs.Prelude.{◌≡◌, IfOk, MatchOption, None, true, false, map};
ghost use Rattle.cr_bags.specs.Bags.{each};
ghost use Rattle.cr_term.specs.Terms.{plain, quiet};
ghost use Rattle.cr_scalar.specs.Host.{Host};
ghost use Rattle.cr_expr.specs.Setting.{setting};
ghost use Rattle.cr_meaning.specs.View as view;
ghost use Rattle.cr_exec.specs.Answers.{Answers};
ghost use Rattle.cr_exec.specs.Values.{null_wanted, null_test, HasValue};
ghost use Rattle.cr_exec.specs.Scopes.{in_scope, is_so_in, there};

use crate::push::push;
use cr_expr::eval::{eval, value_at};
use cr_expr::given::{Given, Hosted};
use cr_host::functions::Functions;
use cr_lattice::table::{Items, Row};
use cr_scalar::compare::{compare, is_null};
use cr_scalar::fault::EvalFault;
use cr_scalar::number::{is_true, truth, truth_value};
use cr_scalar::operand::Operand;
use cr_term::expr::Expr;
use cr_term::operator::Unary;
use cr_value::value::Value;
use std::alloc::{AllocError, Global};

/// What an expression is evaluated over.
#[derive(Clone, Copy, Drop)]
pub enum Scope<'a> {
    /// A combination: the columns of the tables in FROM, one after another.
    Row(&'a [Value]),
    /// A group: the values that it shows for its terms, and its combinations.
    Group(&'a [Value], &'a [Row]),
}

// The value of a column, a literal or a parameter, possibly under COLLATE; none of another expression.
#[tactic(auto, using(cr_expr::proofs::Nodes::one_node))]
pub(crate) fn plain_value<'a>(expr: &'a Expr, given: &Given<'a>) -> Option<Operand<'a>>
    ensures { MatchOption result (plain expr.now ≡ false) (λ v. (host : Host) → HasValue plain (setting None host given.now) expr.now v) }
{
    match expr {
        Expr::Literal(value) => Some(Operand::standing(value)),
        Expr::Param(n) => Some(value_at(given.params, usize::from(*n).saturating_sub(1))),
        Expr::Column(column) => Some(value_at(given.row, column.at)),
        Expr::Collate(operand, _) => plain_value(operand.get(), given),
        _ => None,
    }
}

// Whether a null test wants a NULL; none of another operator.
fn null_wanted(op: Unary) -> Option<bool>
    ensures { result ≡ null_wanted op }
{
    match op {
        Unary::IsNull => Some(true),
        Unary::NotNull => Some(false),
        _ => None,
    }
}

fn null_test(is_null: bool, is_null_wanted: bool) -> Value
    ensures { result ≡ null_test is_null is_null_wanted }
{
    if is_null_wanted {
        truth_value(Some(is_null))
    } else {
        truth_value(Some(!is_null))
    }
}

// The value of a quiet expression, whatever its size; none of another expression.
#[tactic(auto, using(cr_expr::proofs::Nodes::one_node))]
fn quiet_value<'a, F: Functions>(
    alloc: Global,
    expr: &'a Expr,
    given: &Given<'a>,
    functions: &F,
) -> Result<Option<Value>, AllocError>
    requires { F.is_faithful functions.now }
    ensures { IfOk result (λ o. MatchOption o (quiet expr.now ≡ false) (λ v. HasValue quiet (setting None (⟦<F as Hosted>⟧.means functions.now) given.now) expr.now v)) }
{
    match expr {
        Expr::Compare(op, meeting, left, right) => {
            let Some(left) = plain_value(left.get(), given) else {
                return Ok(None);
            };
            let Some(right) = plain_value(right.get(), given) else {
                return Ok(None);
            };
            let holds = compare(alloc, functions, *op, meeting, left.get(), right.get())?;
            Ok(Some(truth_value(holds)))
        }
        Expr::Unary(op, operand) => {
            let Some(is_null_wanted) = null_wanted(*op) else {
                return Ok(None);
            };
            let Some(value) = plain_value(operand.get(), given) else {
                return Ok(None);
            };
            Ok(Some(null_test(is_null(value.get()), is_null_wanted)))
        }
        _ => Ok(None),
    }
}

// The value of an expression over a combination; no limit stands for a quiet one.
fn row_value<'a, F: Functions>(
    alloc: Global,
    expr: &'a Expr,
    row: &'a [Value],
    functions: &F,
    params: &'a [Value],
) -> Result<Operand<'a>, EvalFault>
    requires { F.is_faithful functions.now }
    ensures { Answers (⟦<F as Hosted>⟧.means functions.now) params.now result (λ v. v) (λ m. m.value (view.plain expr.now) row.now) }
{
    let given = Given {
        row,
        params,
        group: &[],
        shown: &[],
    };
    let quiet = quiet_value(alloc, expr, &given, functions)?;
    match quiet {
        Some(value) => Ok(Operand::made(value)),
        None => eval(alloc, expr, &given, functions),
    }
}

/// The value of an expression over a combination or a group, or its fault where it has none; `TooBig` where a value on the
/// way is over 1,000,000 bytes. That limit passes over a quiet expression of a combination.
pub fn value_in<'a, F: Functions>(
    alloc: Global,
    expr: &'a Expr,
    scope: Scope<'a>,
    functions: &F,
    params: &'a [Value],
) -> Result<Operand<'a>, EvalFault>
    requires { F.is_faithful functions.now }
    ensures { Answers (⟦<F as Hosted>⟧.means functions.now) params.now result (λ v. v) (λ m. in_scope m scope.entry (view.plain expr.now)) }
{
    match scope {
        Scope::Row(row) => row_value(alloc, expr, row, functions, params),
        Scope::Group(shown, members) => {
            let given = Given {
                row: &[],
                params,
                group: members,
                shown,
            };
            eval(alloc, expr, &given, functions)
        }
    }
}

/// Whether an expression is known to be true over a combination or a group. Faults as its value does, and with
/// `NotANumber` where the value is no number.
pub fn is_so_in<'a, F: Functions>(
    alloc: Global,
    expr: &'a Expr,
    scope: Scope<'a>,
    functions: &F,
    params: &'a [Value],
) -> Result<bool, EvalFault>
    requires { F.is_faithful functions.now }
    ensures { Answers (⟦<F as Hosted>⟧.means functions.now) params.now result (λ b. b) (λ m. is_so_in m scope.entry (view.plain expr.now)) }
{
    let value = value_in(alloc, expr, scope, functions, params)?;
    match truth(value.get()) {
        Ok(known) => Ok(is_true(known)),
        Err(fault) => Err(fault),
    }
}

/// The values of expressions from left to right.
pub fn values_in<'a, F: Functions>(
    alloc: Global,
    exprs: &[&'a Expr],
    scope: Scope<'a>,
    functions: &F,
    params: &'a [Value],
) -> Result<Row, EvalFault>
    requires { F.is_faithful functions.now }
    ensures { Answers (⟦<F as Hosted>⟧.means functions.now) params.now result (λ r. r) (λ m. each (in_scope m scope.entry) (map there exprs.now)) }
{
    let mut values = Vec::new(alloc);
    for expr in exprs {
        let value = value_in(alloc, expr, scope, functions, params)?;
        let value = value.into_value(alloc)?;
        push(&mut values, value)?;
    }
    Ok(Items::new(values))
}
