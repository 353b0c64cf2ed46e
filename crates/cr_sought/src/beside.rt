//! A row of another table in a join, by which a term may tell a value.

ghost use Rattle.std.specs.Prelude.{◌≡◌};
ghost use Rattle.cr_sought.specs.Sought.{held, known, standing};

use crate::pin::{column_under, constant};
use cr_scalar::operand::Operand;
use cr_term::expr::Expr;
use cr_value::value::Value;

/// A row of a table, and the place of its first column in a combination.
#[derive(Clone, Copy, Drop)]
pub struct Beside<'a> {
    pub start: usize,
    pub row: &'a [Value],
}

// The value of the column at a place of the combination, where the row has one there.
fn held<'a>(beside: &Beside<'a>, at: usize) -> Option<Operand<'a>>
    ensures { result ≡ held (standing beside.now) at }
{
    if at < beside.start {
        return None;
    }
    match beside.row.get(at - beside.start) {
        Some(value) => Some(Operand::standing(value)),
        None => None,
    }
}

/// The value of a literal or a parameter, or of a column of the row, possibly under COLLATE.
///
/// `params` are the parameters' values, from number 1 on.
pub fn known<'a>(beside: &Beside<'a>, params: &'a [Value], expr: &'a Expr) -> Option<Operand<'a>>
    ensures { result ≡ known (standing beside.now) params.now expr.now }
{
    match constant(params, expr) {
        Some(value) => Some(value),
        None => match column_under(expr) {
            Some(at) => held(beside, at),
            None => None,
        },
    }
}
