//! Terms as constraints on the columns of a module. "The Virtual Table Mechanism Of SQLite", section 2.3.

ghost use Rattle.std.specs.Prelude.{◌≡◌, ◌++◌, IfOk, OnOk};
ghost use Rattle.cr_plan.specs.Offers.{against, never_null, of_comparison, of_left, of_right, of_sides, offer, offers, op_of, place_in, place_under, turned};

use cr_lattice::profile::BINARY;
use cr_module::plan::{Comparison, Constraint};
use cr_scalar::compare::is_null;
use cr_sought::pin::{column_under, constant, on_left, on_right};
use cr_term::expr::Expr;
use cr_term::operator::{Adjusted, Comparison as Relation, Meeting};
use cr_value::order::same_bytes;
use cr_value::value::Value;
use std::alloc::{AllocError, Global};

/// The columns of a table in a combination of rows: the place of the first, and how many there are.
#[derive(Clone, Copy, Debug)]
pub struct Columns {
    pub start: usize,
    pub count: usize,
}

/// A term as a constraint, which is usable, and what it compares the column with.
#[derive(Debug, Drop)]
pub struct Offer {
    pub constraint: Constraint,
    pub argument: Value,
}

// The place among the columns of a table of what stands at a place of a combination.
fn place_in(columns: Columns, at: usize) -> Option<usize>
    ensures { result ≡ place_in columns at }
{
    if at < columns.start {
        return None;
    }
    let place = at - columns.start;
    if place < columns.count {
        Some(place)
    } else {
        None
    }
}

// The place of the column of the table that an operand is, possibly under COLLATE.
fn place_under(columns: Columns, expr: &Expr) -> Option<usize>
    ensures { result ≡ place_under columns expr.now }
{
    match column_under(expr) {
        Some(at) => place_in(columns, at),
        None => None,
    }
}

// Whether an operand is a literal other than NULL, possibly under COLLATE.
fn never_null(expr: &Expr) -> bool
    ensures { result ≡ never_null expr.now }
{
    match expr {
        Expr::Literal(value) => !is_null(value),
        Expr::Collate(operand, _) => never_null(operand.get()),
        _ => false,
    }
}

// How a column stands to a constant on its right where the comparison is true, if a constraint can say so.
fn op_of(relation: Relation, constant: &Expr) -> Option<Comparison>
    ensures { result ≡ op_of relation constant.now }
{
    match relation {
        Relation::Less => Some(Comparison::Lt),
        Relation::AtMost => Some(Comparison::Le),
        Relation::Greater => Some(Comparison::Gt),
        Relation::AtLeast => Some(Comparison::Ge),
        Relation::Equal => Some(Comparison::Eq),
        Relation::Is if never_null(constant) => Some(Comparison::Eq),
        Relation::Unequal | Relation::Is | Relation::IsNot => None,
    }
}

// The same with the sides turned round.
fn turned(op: Comparison) -> Comparison
    ensures { result ≡ turned op }
{
    match op {
        Comparison::Eq => Comparison::Eq,
        Comparison::Gt => Comparison::Lt,
        Comparison::Le => Comparison::Ge,
        Comparison::Lt => Comparison::Gt,
        Comparison::Ge => Comparison::Le,
    }
}

// A column of the table against a value.
fn against(column: usize, op: Comparison, argument: Value) -> Offer
    ensures { result ≡ against column op argument }
{
    Offer {
        constraint: Constraint {
            column,
            op,
            usable: true,
        },
        argument,
    }
}

// The offer of a comparison whose left operand is a column that stays as it is, and whose right one is a constant.
fn of_left(
    alloc: Global,
    columns: Columns,
    params: &[Value],
    relation: Relation,
    adjusted: Adjusted,
    left: &Expr,
    right: &Expr,
) -> Result<Option<Offer>, AllocError>
    ensures { IfOk result (λ o. o ≡ of_left columns params.now relation adjusted left.now right.now) }
{
    let Some(column) = place_under(columns, left) else {
        return Ok(None);
    };
    let Some(op) = op_of(relation, right) else {
        return Ok(None);
    };
    let Some(value) = constant(params, right) else {
        return Ok(None);
    };
    match on_right(alloc, adjusted, value)? {
        Some(argument) => Ok(Some(against(column, op, argument))),
        None => Ok(None),
    }
}

// The offer of a comparison whose right operand is a column that stays as it is, and whose left one is a constant.
fn of_right(
    alloc: Global,
    columns: Columns,
    params: &[Value],
    relation: Relation,
    adjusted: Adjusted,
    left: &Expr,
    right: &Expr,
) -> Result<Option<Offer>, AllocError>
    ensures { IfOk result (λ o. o ≡ of_right columns params.now relation adjusted left.now right.now) }
{
    let Some(column) = place_under(columns, right) else {
        return Ok(None);
    };
    let Some(op) = op_of(relation, left) else {
        return Ok(None);
    };
    let Some(value) = constant(params, left) else {
        return Ok(None);
    };
    match on_left(alloc, adjusted, value)? {
        Some(argument) => Ok(Some(against(column, turned(op), argument))),
        None => Ok(None),
    }
}

// The offer of a comparison that stands between a column that stays as it is and a constant.
fn of_sides(
    alloc: Global,
    columns: Columns,
    params: &[Value],
    relation: Relation,
    adjusted: Adjusted,
    left: &Expr,
    right: &Expr,
) -> Result<Option<Offer>, AllocError>
    ensures { IfOk result (λ o. o ≡ of_sides columns params.now relation adjusted left.now right.now) }
{
    match of_left(alloc, columns, params, relation, adjusted, left, right)? {
        Some(offer) => Ok(Some(offer)),
        None => of_right(alloc, columns, params, relation, adjusted, left, right),
    }
}

// The offer of a comparison, where it is one under BINARY.
fn of_comparison(
    alloc: Global,
    columns: Columns,
    params: &[Value],
    relation: Relation,
    meeting: &Meeting,
    left: &Expr,
    right: &Expr,
) -> Result<Option<Offer>, AllocError>
    ensures { IfOk result (λ o. o ≡ of_comparison columns params.now relation meeting.now left.now right.now) }
{
    if !same_bytes(meeting.collation.as_str().as_bytes(), BINARY.as_bytes()) {
        return Ok(None);
    }
    of_sides(
        alloc,
        columns,
        params,
        relation,
        meeting.adjusted,
        left,
        right,
    )
}

// A term as a constraint, if it is one.
fn offer_of(
    alloc: Global,
    columns: Columns,
    params: &[Value],
    term: &Expr,
) -> Result<Option<Offer>, AllocError>
    ensures { IfOk result (λ o. o ≡ offer columns params.now term.now) }
{
    let Expr::Compare(relation, meeting, left, right) = term else {
        return Ok(None);
    };
    of_comparison(
        alloc,
        columns,
        params,
        *relation,
        meeting,
        left.get(),
        right.get(),
    )
}

/// Puts the terms that are constraints on the columns of a table, with their arguments, behind others, in the order of the
/// terms: each comparison under BINARY of a column of the table with a literal or a parameter, on either side and possibly under
/// COLLATE, which leaves the column's value as it is. The argument has taken on what the comparison makes it take on. `<`, `<=`,
/// `=`, `>=` and `>` are such, and IS with a literal that is not NULL, which is an equality.
///
/// A column is told by its place among those of the table. `params` are the parameters' values, from number 1 on; one that is
/// not given is NULL.
///
/// # Errors
/// Want of memory.
pub fn push_offers(
    alloc: Global,
    out: &mut Vec<Offer>,
    columns: Columns,
    terms: &[Expr],
    params: &[Value],
) -> Result<(), AllocError>
    ensures { OnOk result (out.new.items ≡ out.old.items ++ offers columns params.now terms.now) }
{
    for term in terms {
        if let Some(offer) = offer_of(alloc, columns, params, term)? {
            out.push(offer)?;
        }
    }
    Ok(())
}
