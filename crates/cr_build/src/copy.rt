//! Copies of resolved expressions.

ghost use Rattle.std.specs.Prelude.{◌≡◌, IfOk};

use cr_term::expr::{Column, Expr, When};
use cr_term::operator::{Aggregate, BuiltIn, Meeting};
use cr_term::query::Relation;
use sqlite_items::{Boxed, Items};
use std::alloc::{AllocError, Global};

/// The same column. `AllocError` where memory runs out.
pub fn copy_column(alloc: Global, column: &Column) -> Result<Column, AllocError>
    ensures { IfOk result (λ c. c ≡ column.now) }
{
    Ok(Column {
        source: column.source,
        place: column.place,
        at: column.at,
        affinity: column.affinity,
        collation: column.collation.copy(alloc)?,
    })
}

/// The same table. `AllocError` where memory runs out.
pub fn copy_relation(alloc: Global, relation: &Relation) -> Result<Relation, AllocError>
    ensures { IfOk result (λ r. r ≡ relation.now) }
{
    Ok(Relation {
        held: relation.held,
        definition: relation.definition.copy(alloc)?,
    })
}

/// The same meeting of operands. `AllocError` where memory runs out.
pub fn copy_meeting(alloc: Global, meeting: &Meeting) -> Result<Meeting, AllocError>
    ensures { IfOk result (λ m. m ≡ meeting.now) }
{
    Ok(Meeting {
        adjusted: meeting.adjusted,
        collation: meeting.collation.copy(alloc)?,
    })
}

/// The same function of the engine. `AllocError` where memory runs out.
pub fn copy_built_in(alloc: Global, function: &BuiltIn) -> Result<BuiltIn, AllocError>
    ensures { IfOk result (λ f. f ≡ function.now) }
{
    Ok(match function {
        BuiltIn::Abs => BuiltIn::Abs,
        BuiltIn::Coalesce => BuiltIn::Coalesce,
        BuiltIn::Hex => BuiltIn::Hex,
        BuiltIn::IfNull => BuiltIn::IfNull,
        BuiltIn::Length => BuiltIn::Length,
        BuiltIn::Lower => BuiltIn::Lower,
        BuiltIn::Max(collation) => BuiltIn::Max(collation.copy(alloc)?),
        BuiltIn::Min(collation) => BuiltIn::Min(collation.copy(alloc)?),
        BuiltIn::NullIf(collation) => BuiltIn::NullIf(collation.copy(alloc)?),
        BuiltIn::TypeOf => BuiltIn::TypeOf,
        BuiltIn::Upper => BuiltIn::Upper,
    })
}

/// The same aggregate. `AllocError` where memory runs out.
pub fn copy_aggregate(alloc: Global, kind: &Aggregate) -> Result<Aggregate, AllocError>
    ensures { IfOk result (λ k. k ≡ kind.now) }
{
    Ok(match kind {
        Aggregate::CountAll => Aggregate::CountAll,
        Aggregate::Count => Aggregate::Count,
        Aggregate::Max(collation) => Aggregate::Max(collation.copy(alloc)?),
        Aggregate::Min(collation) => Aggregate::Min(collation.copy(alloc)?),
        Aggregate::Sum => Aggregate::Sum,
        Aggregate::Host(name) => Aggregate::Host(name.copy(alloc)?),
    })
}

/// The same expression. `AllocError` where memory runs out.
#[cycle(copy)]
pub fn copy(alloc: Global, expr: &Expr) -> Result<Expr, AllocError>
    ensures { IfOk result (λ e. e ≡ expr.now) }
{
    match expr {
        Expr::Literal(value) => Ok(Expr::Literal(value.copy(alloc)?)),
        Expr::Param(n) => Ok(Expr::Param(*n)),
        Expr::Column(column) => Ok(Expr::Column(copy_column(alloc, column)?)),
        Expr::SiteId(bytes) => Ok(Expr::SiteId(bytes.copy(alloc)?)),
        Expr::DbVersion(n) => Ok(Expr::DbVersion(*n)),
        Expr::Shown(at, operand) => Ok(Expr::Shown(*at, copy_boxed(alloc, operand.get())?)),
        Expr::Unary(op, operand) => Ok(Expr::Unary(*op, copy_boxed(alloc, operand.get())?)),
        Expr::Cast(to, operand) => Ok(Expr::Cast(*to, copy_boxed(alloc, operand.get())?)),
        Expr::Collate(operand, name) => {
            let operand = copy_boxed(alloc, operand.get())?;
            Ok(Expr::Collate(operand, name.copy(alloc)?))
        }
        Expr::Arithmetic(op, left, right) => {
            let left = copy_boxed(alloc, left.get())?;
            Ok(Expr::Arithmetic(*op, left, copy_boxed(alloc, right.get())?))
        }
        Expr::Join(left, right) => {
            let left = copy_boxed(alloc, left.get())?;
            Ok(Expr::Join(left, copy_boxed(alloc, right.get())?))
        }
        Expr::Like(is_negated, text, pattern) => {
            let text = copy_boxed(alloc, text.get())?;
            Ok(Expr::Like(*is_negated, text, copy_boxed(alloc, pattern.get())?))
        }
        Expr::Logic(op, left, right) => {
            let left = copy_boxed(alloc, left.get())?;
            Ok(Expr::Logic(*op, left, copy_boxed(alloc, right.get())?))
        }
        Expr::Compare(op, meeting, left, right) => {
            let meeting = copy_meeting(alloc, meeting)?;
            let left = copy_boxed(alloc, left.get())?;
            Ok(Expr::Compare(*op, meeting, left, copy_boxed(alloc, right.get())?))
        }
        Expr::In(is_negated, meeting, operand, items) => {
            let meeting = copy_meeting(alloc, meeting)?;
            let operand = copy_boxed(alloc, operand.get())?;
            Ok(Expr::In(
                *is_negated,
                meeting,
                operand,
                copy_all(alloc, items.as_slice())?,
            ))
        }
        Expr::Between(is_negated, low_meeting, high_meeting, operand, low, high) => {
            let low_meeting = copy_meeting(alloc, low_meeting)?;
            let high_meeting = copy_meeting(alloc, high_meeting)?;
            let operand = copy_boxed(alloc, operand.get())?;
            let low = copy_boxed(alloc, low.get())?;
            let high = copy_boxed(alloc, high.get())?;
            Ok(Expr::Between(*is_negated, low_meeting, high_meeting, operand, low, high))
        }
        Expr::Case(operand, arms, otherwise) => {
            let operand = copy_if_any(alloc, operand)?;
            let arms = copy_arms(alloc, arms.as_slice())?;
            Ok(Expr::Case(operand, arms, copy_if_any(alloc, otherwise)?))
        }
        Expr::BuiltIn(function, args) => {
            let args = copy_all(alloc, args.as_slice())?;
            Ok(Expr::BuiltIn(copy_built_in(alloc, function)?, args))
        }
        Expr::Host(name, args) => {
            let name = name.copy(alloc)?;
            Ok(Expr::Host(name, copy_all(alloc, args.as_slice())?))
        }
        Expr::Aggregate(kind, args) => {
            let args = copy_all(alloc, args.as_slice())?;
            Ok(Expr::Aggregate(copy_aggregate(alloc, kind)?, args))
        }
    }
}

#[cycle(copy)]
fn copy_boxed(alloc: Global, expr: &Expr) -> Result<Boxed<Expr>, AllocError>
    ensures { IfOk result (λ e. e ≡ expr.now) }
{
    Boxed::new(alloc, copy(alloc, expr)?)
}

#[cycle(copy)]
fn copy_all(alloc: Global, exprs: &[Expr]) -> Result<Items<Expr>, AllocError>
    ensures { IfOk result (λ es. es ≡ exprs.now) }
{
    let mut copied = Vec::new(alloc);
    for expr in exprs {
        copied.push(copy(alloc, expr)?)?;
    }
    Ok(Items::from_vec(copied))
}

#[cycle(copy)]
fn copy_if_any(alloc: Global, expr: &Option<Boxed<Expr>>) -> Result<Option<Boxed<Expr>>, AllocError>
    ensures { IfOk result (λ e. e ≡ expr.now) }
{
    match expr {
        Some(expr) => Ok(Some(copy_boxed(alloc, expr.get())?)),
        None => Ok(None),
    }
}

#[cycle(copy)]
fn copy_arms(alloc: Global, arms: &[When]) -> Result<Items<When>, AllocError>
    ensures { IfOk result (λ ws. ws ≡ arms.now) }
{
    let mut copied = Vec::new(alloc);
    for arm in arms {
        let meeting = copy_meeting(alloc, &arm.meeting)?;
        let when = copy(alloc, &arm.when)?;
        let then = copy(alloc, &arm.then);
        copied.push(then.map(|then| When {
            meeting,
            when,
            then,
        })?)?;
    }
    Ok(Items::from_vec(copied))
}
