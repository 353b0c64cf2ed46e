//! Whether two expressions are the same, parentheses aside. Takes no memory.

ghost use Rattle.std.specs.Prelude.{◌≡◌, ◌&&◌, map};
ghost use Rattle.std.specs.Option.{option_map};
ghost use Rattle.cr_term.specs.Same.{same, same_value, same_bool, same_kind, same_all, same_arms, same_if_any, own_number, test};
ghost use Rattle.cr_select.specs.Tests.{arm_test_of};

use cr_term::expr::{Expr, When};
use cr_term::operator::{Aggregate, BuiltIn};
use cr_value::order::cmp_binary;
use cr_value::value::Value;
use sqlite_items::Boxed;

// Whether two values are the same.
fn same_value(left: &Value, right: &Value) -> bool
    ensures { result ≡ same_value left.now right.now }
{
    cmp_binary(left, right).is_eq()
}

// Whether two aggregates are the same, the collations of their arguments aside.
fn same_kind(left: &Aggregate, right: &Aggregate) -> bool
    ensures { result ≡ same_kind left.now right.now }
{
    match left {
        Aggregate::CountAll => matches!(right, Aggregate::CountAll),
        Aggregate::Count => matches!(right, Aggregate::Count),
        Aggregate::Max(_) => matches!(right, Aggregate::Max(_)),
        Aggregate::Min(_) => matches!(right, Aggregate::Min(_)),
        Aggregate::Sum => matches!(right, Aggregate::Sum),
        Aggregate::Host(name) => match right {
            Aggregate::Host(other) => name.as_str() == other.as_str(),
            _ => false,
        },
    }
}

// Whether two truth values are the same.
fn same_bool(left: bool, right: bool) -> bool
    ensures { result ≡ same_bool left right }
{
    left == right
}

// A function by number; its collation goes by its arguments.
fn number(function: &BuiltIn) -> u8
    ensures { result ≡ own_number function.now }
{
    match function {
        BuiltIn::Abs => 0,
        BuiltIn::Coalesce => 1,
        BuiltIn::Hex => 2,
        BuiltIn::IfNull => 3,
        BuiltIn::Length => 4,
        BuiltIn::Lower => 5,
        BuiltIn::Max(_) => 6,
        BuiltIn::Min(_) => 7,
        BuiltIn::NullIf(_) => 8,
        BuiltIn::TypeOf => 9,
        BuiltIn::Upper => 10,
    }
}

/// Whether two expressions are the same, parentheses aside: the same names, values and operators in the same places. How
/// operands meet stands in the operands, so it is not compared.
#[cycle(same)]
#[tactic(auto, unfolding(cr_term::specs::At::at))]
pub fn same(left: &Expr, right: &Expr) -> bool
    ensures { result ≡ same left.now right.now }
{
    match left {
        Expr::Literal(value) => match right {
            Expr::Literal(other) => same_value(value, other),
            _ => false,
        },
        Expr::Param(n) => match right {
            Expr::Param(other) => n == other,
            _ => false,
        },
        Expr::Column(column) => match right {
            Expr::Column(other) => {
                column.source == other.source
                    && column.place == other.place
                    && column.at == other.at
            },
            _ => false,
        },
        Expr::Shown(_, x) => match right {
            Expr::Shown(_, y) => same(x.get(), y.get()),
            _ => false,
        },
        Expr::Unary(op, x) => match right {
            Expr::Unary(other, y) => op == other && same(x.get(), y.get()),
            _ => false,
        },
        Expr::Arithmetic(op, x, y) => match right {
            Expr::Arithmetic(other, z, w) => {
                op == other && same(x.get(), z.get()) && same(y.get(), w.get())
            },
            _ => false,
        },
        Expr::Join(x, y) => match right {
            Expr::Join(z, w) => same(x.get(), z.get()) && same(y.get(), w.get()),
            _ => false,
        },
        Expr::Like(is_negated, x, y) => match right {
            Expr::Like(other, z, w) => {
                same_bool(*is_negated, *other) && same(x.get(), z.get()) && same(y.get(), w.get())
            },
            _ => false,
        },
        Expr::Logic(op, x, y) => match right {
            Expr::Logic(other, z, w) => {
                op == other && same(x.get(), z.get()) && same(y.get(), w.get())
            },
            _ => false,
        },
        Expr::Compare(op, _, x, y) => match right {
            Expr::Compare(other, _, z, w) => {
                op == other && same(x.get(), z.get()) && same(y.get(), w.get())
            },
            _ => false,
        },
        Expr::Collate(x, name) => match right {
            Expr::Collate(y, other) => {
                same(x.get(), y.get()) && name.as_str() == other.as_str()
            },
            _ => false,
        },
        Expr::Cast(to, x) => match right {
            Expr::Cast(other, y) => to == other && same(x.get(), y.get()),
            _ => false,
        },
        Expr::In(is_negated, _, x, args) => match right {
            Expr::In(other, _, y, others) => {
                same_bool(*is_negated, *other)
                    && same(x.get(), y.get())
                    && same_all(args.as_slice(), others.as_slice())
            },
            _ => false,
        },
        Expr::Between(is_negated, _, _, x, low, high) => match right {
            Expr::Between(other, _, _, y, other_low, other_high) => {
                same_bool(*is_negated, *other)
                    && same(x.get(), y.get())
                    && same(low.get(), other_low.get())
                    && same(high.get(), other_high.get())
            },
            _ => false,
        },
        Expr::Case(x, arms, otherwise) => match right {
            Expr::Case(y, other_arms, other) => {
                same_if_any(x, y)
                    && same_arms(arms.as_slice(), other_arms.as_slice())
                    && same_if_any(otherwise, other)
            },
            _ => false,
        },
        Expr::BuiltIn(function, args) => match right {
            Expr::BuiltIn(other, others) => {
                number(function) == number(other) && same_all(args.as_slice(), others.as_slice())
            },
            _ => false,
        },
        Expr::Host(name, args) => match right {
            Expr::Host(other, others) => {
                name.as_str() == other.as_str() && same_all(args.as_slice(), others.as_slice())
            },
            _ => false,
        },
        Expr::Aggregate(kind, args) => match right {
            Expr::Aggregate(other, others) => {
                same_kind(kind, other) && same_all(args.as_slice(), others.as_slice())
            },
            _ => false,
        },
        Expr::SiteId(bytes) => match right {
            Expr::SiteId(other) => bytes.as_slice() == other.as_slice(),
            _ => false,
        },
        Expr::DbVersion(n) => match right {
            Expr::DbVersion(other) => n == other,
            _ => false,
        },
    }
}

// Whether expressions are the same, one by one.
#[cycle(same)]
#[tactic(auto, using(crate::proofs::Sameness::all_next, crate::proofs::Sameness::all_differ))]
fn same_all(left: &[Expr], right: &[Expr]) -> bool
    ensures { result ≡ same_all (map test left.now) right.now }
{
    let mut rest = right;
    for expr in left {
        let Some((other, more)) = rest.split_first() else {
            return false;
        };
        let is_same = same(expr, other);
        if !is_same {
            return false;
        }
        rest = more;
    }
    rest.is_empty()
}

// Whether two arms of a CASE are the same.
#[cycle(same)]
fn same_arm(left: &When, right: &When) -> bool
    ensures { result ≡ (same left.now.when right.now.when && same left.now.then right.now.then) }
{
    same(&left.when, &right.when) && same(&left.then, &right.then)
}

// Whether arms of a CASE are the same, one by one.
#[cycle(same)]
#[tactic(auto, using(crate::proofs::Sameness::arms_next, crate::proofs::Sameness::arms_differ))]
fn same_arms(left: &[When], right: &[When]) -> bool
    ensures { result ≡ same_arms (map arm_test_of left.now) right.now }
{
    let mut rest = right;
    for arm in left {
        let Some((other, more)) = rest.split_first() else {
            return false;
        };
        let is_same = same_arm(arm, other);
        if !is_same {
            return false;
        }
        rest = more;
    }
    rest.is_empty()
}

// Whether expressions are the same that need not be there.
#[cycle(same)]
#[tactic(auto, unfolding(cr_term::specs::At::at), using(crate::proofs::Sameness::both))]
fn same_if_any(left: &Option<Boxed<Expr>>, right: &Option<Boxed<Expr>>) -> bool
    ensures { result ≡ same_if_any (option_map test left.now) right.now }
{
    match left {
        Some(expr) => match right {
            Some(other) => same(expr.get(), other.get()),
            None => false,
        },
        None => right.is_none(),
    }
}
