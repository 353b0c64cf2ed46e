//! A table of the host's that has no row in memory.

ghost use Rattle.std.specs.Prelude.{◌≡◌, ◌<◌, ◌+◌, ◌^◌, ◌∷◌, ◌++◌, [], length, map, position, IfOk, OnOk};
ghost use Rattle.embedding.specs.Counted.{bounds_below, cut, digit, digits, end_of, is_lower, is_upper, natural, number_column, numbers, op_at, op_of, part, passed, place_of, places, whole};

use cr_lattice::table::{ColumnDef, Items, Row};
use cr_module::module::{Cursor, Module, UpdateError};
use cr_module::plan::{Argument, Choice, Comparison, Constraint, Order};
use cr_value::affinity::Affinity;
use cr_value::text::Text;
use cr_value::value::Value;
use std::alloc::{AllocError, Global};

/// A table of one column, `v`, whose rows are the numbers from 1 to a last one. They are counted and not kept, and a reading
/// goes through those alone that the constraints leave: of the usable constraints on the column, the first that bounds it from
/// below and the first that bounds it from above serve, an equality on both sides. One whose argument is no integer leaves all.
/// The table takes no rows.
///
/// A cursor stands on the number `at`, and its one argument is the number behind the last that it reads.
#[derive(Drop)]
pub struct Counted {
    columns: Items<ColumnDef>,
    last: u32,
    ghost one: { length columns ≡ 1 },
    // what the type of `last` says, where code does not read it
    ghost few: { last < 2 ^ 32 },
}

impl Counted {
    /// The table of the numbers from 1 to `last`, which has no rows where this is 0.
    ///
    /// # Errors
    /// Want of memory.
    pub fn up_to(alloc: Global, last: u32) -> Result<Counted, AllocError>
        ensures columns { IfOk result (λ m. ⟦<Counted as Module>⟧.columns_of m ≡ number_column ∷ []) }
        ensures rows { IfOk result (λ m. ⟦<Counted as Module>⟧.rows_of m ≡ numbers 1 last) }
    {
        let column = ColumnDef {
            name: Text::from_str(alloc, "v")?,
            affinity: Affinity::Integer,
            collation: Text::from_str(alloc, "binary")?,
            not_null: false,
            key: None,
            default: Value::Null,
        };
        let mut columns = Vec::new(alloc);
        columns.push(column)?;
        Ok(Counted {
            columns: Items::new(columns),
            last,
        })
    }
}

// Whether a comparison bounds a column from below: an equality does, and from above too.
fn bounds_below(op: Comparison) -> bool
    ensures { result ≡ bounds_below op }
{
    match op {
        Comparison::Eq | Comparison::Gt | Comparison::Ge => true,
        Comparison::Le | Comparison::Lt => false,
    }
}

// Whether a constraint bounds the column from below.
fn is_lower(constraint: &Constraint) -> bool
    ensures { result ≡ is_lower constraint.now }
{
    constraint.usable && constraint.column == 0 && bounds_below(constraint.op)
}

// Whether a constraint bounds the column from above alone.
fn is_upper(constraint: &Constraint) -> bool
    ensures { result ≡ is_upper constraint.now }
{
    constraint.usable && constraint.column == 0 && !bounds_below(constraint.op)
}

// The place of the first constraint that bounds the column from below.
fn first_lower(constraints: &[Constraint]) -> Option<usize>
    ensures { result ≡ position is_lower constraints.now }
{
    constraints
        .iter()
        .position(|constraint| is_lower(constraint))
}

// The place of the first constraint that bounds the column from above alone.
fn first_upper(constraints: &[Constraint]) -> Option<usize>
    ensures { result ≡ position is_upper constraints.now }
{
    constraints
        .iter()
        .position(|constraint| is_upper(constraint))
}

// The digit to the base 6 that tells a comparison; 0 is none.
fn digit(op: Comparison) -> u8
    ensures value { result ≡ digit op }
    ensures small { result < 6 }
{
    match op {
        Comparison::Eq => 1,
        Comparison::Gt => 2,
        Comparison::Le => 3,
        Comparison::Lt => 4,
        Comparison::Ge => 5,
    }
}

// The comparison that a digit tells.
fn op_of(digit: usize) -> Comparison
    ensures { result ≡ op_of digit }
{
    match digit {
        1 => Comparison::Eq,
        2 => Comparison::Gt,
        3 => Comparison::Le,
        4 => Comparison::Lt,
        _ => Comparison::Ge,
    }
}

// The comparison of the constraint at a place, or an equality where there is none.
fn op_at(constraints: &[Constraint], at: usize) -> Comparison
    ensures { result ≡ op_at constraints.now at }
{
    match constraints.get(at) {
        Some(constraint) => constraint.op,
        None => Comparison::Eq,
    }
}

// The index that tells the comparisons of these constraints, the lower bound's first.
fn index_of(constraints: &[Constraint], lower: Option<usize>, upper: Option<usize>) -> u8
    ensures { result ≡ digits (map (op_at constraints.now) (places lower upper)) }
{
    match (lower, upper) {
        (None, None) => 0,
        (Some(at), None) | (None, Some(at)) => digit(op_at(constraints, at)),
        (Some(low), Some(high)) => {
            digit(op_at(constraints, low)) + 6 * digit(op_at(constraints, high))
        }
    }
}

// Puts the constraint at a place behind those that are passed, where there is one.
fn push_place(args: &mut Vec<Argument>, at: Option<usize>) -> Result<(), AllocError>
    ensures { OnOk result (args.new.items ≡ args.old.items ++ map passed (place_of at)) }
{
    if let Some(constraint) = at {
        args.push(Argument {
            constraint,
            omit: false,
        })?;
    }
    Ok(())
}

// The number, or 0 for one below.
fn natural(number: i64) -> usize
    ensures value { result ≡ natural number }
    ensures fits { result < 2 ^ 63 }
{
    if number < 0 { 0 } else { number as usize }
}

// Consecutive numbers: the first one, and the one behind the last. There is none where that is not above the first.
#[derive(Clone, Copy)]
struct Span {
    start: usize,
    end: usize,
}

// The numbers of a span that compare so to an argument, or all where that is no number.
fn cut(op: Comparison, argument: &Value, span: Span) -> Span
    ensures { result ≡ cut op argument.now span }
{
    let Value::Int(number) = argument else {
        return span;
    };
    let number = natural(*number);
    match op {
        Comparison::Eq => Span {
            start: span.start.max(number),
            end: span.end.min(number + 1),
        },
        Comparison::Gt => Span {
            start: span.start.max(number + 1),
            ..span
        },
        Comparison::Le => Span {
            end: span.end.min(number + 1),
            ..span
        },
        Comparison::Lt => Span {
            end: span.end.min(number),
            ..span
        },
        Comparison::Ge => Span {
            start: span.start.max(number),
            ..span
        },
    }
}

// The numbers up to `last` that an index and its arguments leave.
fn part(last: u32, index: i64, args: &[Value]) -> Span
    ensures { result ≡ part (natural index) args.now (whole last) }
{
    let mut span = Span {
        start: 1,
        end: last as usize + 1,
    };
    let mut index = natural(index);
    for argument in args {
        span = cut(op_of(index % 6), argument, span);
        index /= 6;
    }
    span
}

// The number behind the last that a cursor reads, of a table of the numbers up to `last`.
fn end_of(last: u32, cursor: &Cursor) -> usize
    ensures { result ≡ end_of last cursor.now.args }
{
    let behind = last as usize + 1;
    match cursor.args.as_slice().first() {
        Some(Value::Int(number)) => behind.min(natural(*number)),
        _ => 0,
    }
}

impl Module for Counted {
    ghost use Rattle.std.specs.Prelude.{◌-◌, Err};
    ghost use Rattle.cr_module.specs.declared.module.UpdateError.TheVariants.{ReadOnly};
    ghost use Rattle.embedding.specs.Counted.{choice_of, end_of, numbers};

    ghost columns_of = { λ m. m.columns };

    ghost rows_of = { λ m. numbers 1 m.last };

    ghost best = { λ m cs os. choice_of m.last cs };

    ghost left = { λ m c. numbers c.at (end_of m.last c.args - c.at) };

    ghost updated = { λ m rows. Err ReadOnly };

    fn columns(&self) -> &[ColumnDef] {
        self.columns.as_slice()
    }

    fn best_index(
        &self,
        alloc: Global,
        constraints: &[Constraint],
        _orders: &[Order],
    ) -> Result<Choice, AllocError> {
        let lower = first_lower(constraints);
        let upper = first_upper(constraints);
        let mut args = Vec::new(alloc);
        push_place(&mut args, lower)?;
        push_place(&mut args, upper)?;
        Ok(Choice {
            args: Items::new(args),
            index: i64::from(index_of(constraints, lower, upper)),
            cost: u64::from(self.last),
            consumed: false,
        })
    }

    fn filter(&self, alloc: Global, index: i64, args: &[Value]) -> Result<Cursor, AllocError> {
        let span = part(self.last, index, args);
        let mut end = Vec::new(alloc);
        end.push(Value::Int(span.end as i64))?;
        Ok(Cursor {
            index,
            args: Items::new(end),
            at: span.start,
        })
    }

    fn eof(&self, cursor: &Cursor) -> bool {
        cursor.at >= end_of(self.last, cursor)
    }

    fn next(&self, _alloc: Global, cursor: &mut Cursor) -> Result<(), AllocError> {
        cursor.at += 1;
        Ok(())
    }

    fn column(&self, _alloc: Global, cursor: &Cursor, at: usize) -> Result<Value, AllocError> {
        if at == 0 {
            Ok(Value::Int(cursor.at as i64))
        } else {
            Ok(Value::Null)
        }
    }

    fn update(&mut self, _alloc: Global, _rows: &[Row]) -> Result<(), UpdateError> {
        Err(UpdateError::ReadOnly)
    }
}
