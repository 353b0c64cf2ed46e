//! How operands meet: their affinities, their collations, and which side of a comparison is adjusted.

ghost use Rattle.std.specs.Prelude.{◌≡◌, ◌∷◌, [], map, IfOk};
ghost use Rattle.std.specs.Option.{option_copied, option_map, option_or, unwrap_or};
ghost use Rattle.cr_term.specs.Operands.{adjusted, affinity_of, binary, collation_of, column_collation, comparison, explicit_collation, first_collation, first_of, flat, meeting, meeting_item, no_meeting, of_cast};
ghost use Rattle.cr_questions.specs.Parts.{explicit_of_arm};

use cr_term::expr::{Expr, When};
use cr_term::operator::{Adjusted, Comparison, Meeting, Unary};
use cr_value::affinity::Affinity;
use cr_value::cast::CastTo;
use cr_value::text::Text;
use sqlite_items::Boxed;
use std::alloc::{AllocError, Global};

// The affinity that a cast brings.
fn of_cast(to: CastTo) -> Affinity
    ensures { result ≡ of_cast to }
{
    match to {
        CastTo::Integer => Affinity::Integer,
        CastTo::Text => Affinity::Text,
        CastTo::Blob => Affinity::Blob,
    }
}

/// The affinity of an operand: that of a column or a cast, also under COLLATE; none for any other expression.
pub fn affinity_of(expr: &Expr) -> Option<Affinity>
    ensures { result ≡ affinity_of expr.now }
{
    match expr {
        Expr::Column(column) => Some(column.affinity),
        Expr::Cast(to, _) => Some(of_cast(*to)),
        Expr::Collate(operand, _) => affinity_of(operand.get()),
        Expr::Shown(_, operand) => affinity_of(operand.get()),
        _ => None,
    }
}

/// The collation of a column, also one under `+`, CAST and COLLATE; none for any other expression.
pub fn column_collation(expr: &Expr) -> Option<&Text>
    ensures { option_copied result ≡ column_collation expr.now }
{
    match expr {
        Expr::Column(column) => Some(&column.collation),
        Expr::Cast(_, operand) => column_collation(operand.get()),
        Expr::Collate(operand, _) => column_collation(operand.get()),
        Expr::Unary(Unary::Plus, operand) => column_collation(operand.get()),
        Expr::Shown(_, operand) => column_collation(operand.get()),
        _ => None,
    }
}

/// Which side of a comparison is adjusted, by the affinities of its operands.
pub fn adjusted(left: Option<Affinity>, right: Option<Affinity>) -> Adjusted
    ensures { result ≡ adjusted left right }
{
    let is_number = |affinity: Option<Affinity>| {
        matches!(affinity, Some(Affinity::Integer | Affinity::Numeric))
    };
    match (left, right) {
        _ if is_number(left) && is_number(right) => Adjusted::Neither,
        _ if is_number(left) => Adjusted::Right(Affinity::Numeric),
        _ if is_number(right) => Adjusted::Left(Affinity::Numeric),
        (Some(Affinity::Text), None) => Adjusted::Right(Affinity::Text),
        (None, Some(Affinity::Text)) => Adjusted::Left(Affinity::Text),
        _ => Adjusted::Neither,
    }
}

// What was found, else the collation of the leftmost COLLATE in an operand.
#[cycle(explicit)]
#[tactic(auto, using(crate::proofs::Firsts::or_assoc, crate::proofs::Firsts::or_none))]
fn or_explicit<'a>(found: Option<&'a Text>, expr: &'a Expr) -> Option<&'a Text>
    ensures { option_copied result ≡ option_or (option_copied found.entry) (explicit_collation expr.now) }
{
    match found {
        Some(name) => Some(name),
        None => explicit_collation(expr),
    }
}

// What was found, else that of the first expression that has one.
#[cycle(explicit)]
#[tactic(auto, using(crate::proofs::Firsts::or_assoc, crate::proofs::Firsts::or_none))]
fn or_explicit_of_all<'a>(mut found: Option<&'a Text>, exprs: &'a [Expr]) -> Option<&'a Text>
    ensures { option_copied result ≡ option_or (option_copied found.entry) (first_of (map explicit_collation exprs.now)) }
{
    for expr in exprs {
        found = or_explicit(found, expr);
    }
    found
}

// What was found, else that of the first arm of a CASE that has one.
#[cycle(explicit)]
#[tactic(auto, using(crate::proofs::Firsts::or_assoc, crate::proofs::Firsts::or_none))]
fn or_explicit_of_arms<'a>(mut found: Option<&'a Text>, arms: &'a [When]) -> Option<&'a Text>
    ensures { option_copied result ≡ option_or (option_copied found.entry) (first_of (map explicit_of_arm arms.now)) }
{
    for arm in arms {
        found = or_explicit(or_explicit(found, &arm.when), &arm.then);
    }
    found
}

// What was found, else that of an expression that need not be there.
#[cycle(explicit)]
#[tactic(auto, using(crate::proofs::Firsts::or_assoc, crate::proofs::Firsts::or_none))]
fn or_explicit_if_any<'a>(
    found: Option<&'a Text>,
    expr: &'a Option<Boxed<Expr>>,
) -> Option<&'a Text>
    ensures { option_copied result ≡ option_or (option_copied found.entry) (flat (option_map explicit_collation expr.now)) }
{
    match expr {
        Some(expr) => or_explicit(found, expr.get()),
        None => found,
    }
}

/// The collation of the leftmost COLLATE in an operand; of those around one another the outer one.
#[cycle(explicit)]
#[tactic(auto, using(crate::proofs::Firsts::or_assoc, crate::proofs::Firsts::or_none))]
pub fn explicit_collation(expr: &Expr) -> Option<&Text>
    ensures { option_copied result ≡ explicit_collation expr.now }
{
    match expr {
        Expr::Literal(_)
        | Expr::Param(_)
        | Expr::Column(_)
        | Expr::SiteId(_)
        | Expr::DbVersion(_) => None,
        Expr::Collate(_, name) => Some(name),
        Expr::Shown(_, operand) | Expr::Unary(_, operand) | Expr::Cast(_, operand) => {
            explicit_collation(operand.get())
        }
        Expr::Arithmetic(_, left, right)
        | Expr::Join(left, right)
        | Expr::Like(_, left, right)
        | Expr::Logic(_, left, right)
        | Expr::Compare(_, _, left, right) => {
            or_explicit(explicit_collation(left.get()), right.get())
        }
        Expr::In(_, _, operand, items) => {
            or_explicit_of_all(explicit_collation(operand.get()), items.as_slice())
        }
        Expr::Between(_, _, _, operand, low, high) => {
            let found = or_explicit(explicit_collation(operand.get()), low.get());
            or_explicit(found, high.get())
        }
        Expr::Case(operand, arms, otherwise) => {
            let found = or_explicit_if_any(None, operand);
            let found = or_explicit_of_arms(found, arms.as_slice());
            or_explicit_if_any(found, otherwise)
        }
        Expr::BuiltIn(_, args) | Expr::Host(_, args) | Expr::Aggregate(_, args) => {
            or_explicit_of_all(None, args.as_slice())
        }
    }
}

// The collation of that name, BINARY where there is none.
fn named(alloc: Global, name: Option<&Text>) -> Result<Text, AllocError>
    ensures { IfOk result (λ t. t ≡ unwrap_or (option_copied name.entry) binary) }
{
    match name {
        Some(name) => name.copy(alloc),
        None => Text::from_str(alloc, "binary"),
    }
}

// What was found, else the collation of a column.
fn or_column<'a>(found: Option<&'a Text>, expr: &'a Expr) -> Option<&'a Text>
    ensures { option_copied result ≡ option_or (option_copied found.entry) (column_collation expr.now) }
{
    match found {
        Some(name) => Some(name),
        None => column_collation(expr),
    }
}

// What was found, else that of the first expression that is a column.
#[tactic(auto, using(crate::proofs::Firsts::or_assoc, crate::proofs::Firsts::or_none))]
fn or_column_of_all<'a>(mut found: Option<&'a Text>, exprs: &'a [Expr]) -> Option<&'a Text>
    ensures { option_copied result ≡ option_or (option_copied found.entry) (first_of (map column_collation exprs.now)) }
{
    for expr in exprs {
        found = or_column(found, expr);
    }
    found
}

/// The name of an operand's collation: of its COLLATE, else of its column, else BINARY.
///
/// # Errors
/// Where memory runs out.
#[tactic(auto, using(crate::proofs::Firsts::or_none))]
pub fn collation_of(alloc: Global, expr: &Expr) -> Result<Text, AllocError>
    ensures { IfOk result (λ t. t ≡ collation_of (expr.now ∷ [])) }
{
    named(alloc, or_column(explicit_collation(expr), expr))
}

/// The name of the collation of operands that meet: of the first COLLATE, else of the first column, else BINARY.
///
/// # Errors
/// Where memory runs out.
pub fn collation_of_all(alloc: Global, exprs: &[Expr]) -> Result<Text, AllocError>
    ensures { IfOk result (λ t. t ≡ collation_of exprs.now) }
{
    named(
        alloc,
        or_column_of_all(or_explicit_of_all(None, exprs), exprs),
    )
}

/// The name of the collation of the first argument that has one, of a COLLATE or else of a column; BINARY where none has.
///
/// # Errors
/// Where memory runs out.
pub fn first_collation(alloc: Global, args: &[Expr]) -> Result<Text, AllocError>
    ensures { IfOk result (λ t. t ≡ first_collation args.now) }
{
    for arg in args {
        if let Some(name) = or_column(explicit_collation(arg), arg) {
            return name.copy(alloc);
        }
    }
    named(alloc, None)
}

/// How two operands meet in a comparison.
///
/// # Errors
/// Where memory runs out.
#[tactic(auto, using(crate::proofs::Firsts::or_assoc, crate::proofs::Firsts::or_none))]
pub fn meeting(alloc: Global, left: &Expr, right: &Expr) -> Result<Meeting, AllocError>
    ensures { IfOk result (λ m. m ≡ meeting left.now right.now) }
{
    let explicit = or_explicit(explicit_collation(left), right);
    let collation = named(alloc, or_column(or_column(explicit, left), right))?;
    Ok(Meeting {
        adjusted: adjusted(affinity_of(left), affinity_of(right)),
        collation,
    })
}

/// How the operand of IN meets each of its items: they bring no affinity, and the collation is the operand's.
///
/// # Errors
/// Where memory runs out.
pub fn meeting_item(alloc: Global, operand: &Expr) -> Result<Meeting, AllocError>
    ensures { IfOk result (λ m. m ≡ meeting_item operand.now) }
{
    let collation = collation_of(alloc, operand)?;
    Ok(Meeting {
        adjusted: adjusted(affinity_of(operand), None),
        collation,
    })
}

/// How an arm of a CASE without an operand meets it: nothing is adjusted, under BINARY.
///
/// # Errors
/// Where memory runs out.
pub fn no_meeting(alloc: Global) -> Result<Meeting, AllocError>
    ensures { IfOk result (λ m. m ≡ no_meeting) }
{
    Ok(Meeting {
        adjusted: Adjusted::Neither,
        collation: named(alloc, None)?,
    })
}

/// A comparison of two operands, with how they meet.
///
/// # Errors
/// Where memory runs out.
pub fn comparison(
    alloc: Global,
    op: Comparison,
    left: Boxed<Expr>,
    right: Boxed<Expr>,
) -> Result<Expr, AllocError>
    ensures { IfOk result (λ e. e ≡ comparison op left right) }
{
    let meeting = meeting(alloc, left.get(), right.get())?;
    Ok(Expr::Compare(op, meeting, left, right))
}
