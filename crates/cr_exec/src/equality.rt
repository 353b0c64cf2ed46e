//! Terms that are true only where a column has one value.

ghost use Rattle.std.specs.Prelude.{◌≡◌, false, IfOk, MatchOption};
ghost use Rattle.std.specs.Option.{option_map};
ghost use Rattle.cr_term.specs.Terms.{plain};
ghost use Rattle.cr_exec.specs.Equalities.{equality, is_known, left_takes, own_place, right_takes, side, sought};
ghost use Rattle.cr_exec.specs.LookUps.{Wants};

use crate::value::plain_value;
use cr_expr::given::{Given, Hosted};
use cr_host::functions::Functions;
use cr_lattice::profile::BINARY;
use cr_term::expr::Expr;
use cr_term::operator::{Adjusted, Comparison};
use cr_value::affinity::Affinity;
use cr_value::order::same_bytes;
use cr_value::value::Value;
use std::alloc::{AllocError, Global};

/// What a term asks of the rows of a table: at this place the value of the operand, after that took on the affinity. The
/// operand's value is known before the rows are gone through.
#[derive(Clone, Copy, Drop)]
pub(crate) struct Equality<'a> {
    pub(crate) place: usize,
    pub(crate) wanted: &'a Expr,
    pub(crate) takes: Option<Affinity>,
}

// The place of a column in the rows of a table whose columns begin at `start` of a combination.
fn own_place(start: usize, expr: &Expr) -> Option<usize>
    ensures { result ≡ own_place start expr.now }
{
    match expr {
        Expr::Column(column) => column.at.checked_sub(start),
        Expr::Collate(operand, _) => own_place(start, operand.get()),
        _ => None,
    }
}

// Whether an expression is a literal, a parameter, or a column of a table further left.
fn is_known(start: usize, expr: &Expr) -> bool
    ensures { result ≡ is_known start expr.now }
{
    match expr {
        Expr::Literal(_) | Expr::Param(_) => true,
        Expr::Column(column) => column.at < start,
        Expr::Collate(operand, _) => is_known(start, operand.get()),
        _ => false,
    }
}

// Which affinity the right operand takes on, where the left one stays as it is.
fn right_takes(adjusted: Adjusted) -> Option<Option<Affinity>>
    ensures { result ≡ right_takes adjusted }
{
    match adjusted {
        Adjusted::Neither => Some(None),
        Adjusted::Left(_) => None,
        Adjusted::Right(affinity) => Some(Some(affinity)),
    }
}

// Which affinity the left operand takes on, where the right one stays as it is.
fn left_takes(adjusted: Adjusted) -> Option<Option<Affinity>>
    ensures { result ≡ left_takes adjusted }
{
    match adjusted {
        Adjusted::Neither => Some(None),
        Adjusted::Left(affinity) => Some(Some(affinity)),
        Adjusted::Right(_) => None,
    }
}

// What an equality asks of a column on one side by the operand on the other.
fn side<'a>(
    start: usize,
    column: &Expr,
    wanted: &'a Expr,
    takes: Option<Option<Affinity>>,
) -> Option<Equality<'a>>
    ensures { option_map sought result ≡ side start column.now wanted.now takes }
{
    if !is_known(start, wanted) {
        return None;
    }
    let place = own_place(start, column)?;
    let takes = takes?;
    Some(Equality {
        place,
        wanted,
        takes,
    })
}

/// What a term asks of the rows of a table whose columns begin at `start` of a combination, where it is an equality under
/// BINARY of a column of that table, whose value it takes as it is, with an operand that is known to the left of it.
pub(crate) fn equality_of<'a>(start: usize, term: &'a Expr) -> Option<Equality<'a>>
    ensures { option_map sought result ≡ equality start term.now }
{
    let Expr::Compare(Comparison::Equal, meeting, left, right) = term else {
        return None;
    };
    if !same_bytes(meeting.collation.as_str().as_bytes(), BINARY.as_bytes()) {
        return None;
    }
    let (left, right) = (left.get(), right.get());
    let turned = side(start, right, left, left_takes(meeting.adjusted));
    side(start, left, right, right_takes(meeting.adjusted)).or(turned)
}

/// The value of an operand beside a combination of the tables to the left, after it took on an affinity; `None` where it is
/// no literal, parameter or column.
pub(crate) fn wanted_value<'a>(
    alloc: Global,
    wanted: &'a Expr,
    takes: Option<Affinity>,
    combination: &'a [Value],
    params: &'a [Value],
) -> Result<Option<Value>, AllocError>
    ensures { IfOk result (λ o. MatchOption o (plain wanted.now ≡ false) (Wants params.now combination.now wanted.now takes)) }
{
    let given = Given {
        row: combination,
        params,
        group: &[],
        shown: &[],
    };
    let Some(value) = plain_value(wanted, &given) else {
        return Ok(None);
    };
    match takes {
        Some(affinity) => Ok(Some(affinity.apply(alloc, value.get())?)),
        None => Ok(Some(value.into_value(alloc)?)),
    }
}
