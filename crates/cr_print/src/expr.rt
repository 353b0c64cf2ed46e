//! Expressions as SQL text.

ghost use Rattle.std.specs.Prelude.{◌≡◌, [], ◌++◌, map, codes, OnOk};
ghost use Rattle.std.specs.Option.{option_map};
ghost use Rattle.std.specs.String.{string_bytes};
ghost use Rattle.std.specs.Fmt.{decimal};
ghost use Rattle.cr_print.specs.Pieces.{in_row, listed};
ghost use Rattle.cr_print.specs.Expressions as layout;

use crate::pieces::{push_name, push_names, push_value};
use cr_tree::expr::{Binary, Expr, Unary, When};
use cr_value::text::Text;
use cr_value::value::Value;
use sqlite_items::Boxed;
use std::alloc::{AllocError, Global};

fn push_param(alloc: Global, out: &mut String, number: u16) -> Result<(), AllocError>
    ensures { OnOk result (string_bytes out.new ≡ string_bytes out.old ++ (codes "?" ++ decimal number)) }
{
    let digits = number.to_string(alloc)?;
    out.push_str("?")?;
    out.push_str(digits.as_str())
}

fn push_column(out: &mut String, source: &Option<Text>, name: &Text) -> Result<(), AllocError>
    ensures { OnOk result (string_bytes out.new ≡ string_bytes out.old ++ layout.column source.now name.now) }
{
    if let Some(source) = source {
        push_name(out, source)?;
        out.push_str(".")?;
    }
    push_name(out, name)
}

fn operator(op: Binary) -> &'static str
    ensures { result.now ≡ layout.operator op }
{
    match op {
        Binary::Or => " OR ",
        Binary::And => " AND ",
        Binary::Equal => " = ",
        Binary::Unequal => " <> ",
        Binary::Is => " IS ",
        Binary::IsNot => " IS NOT ",
        Binary::Like => " LIKE ",
        Binary::NotLike => " NOT LIKE ",
        Binary::Less => " < ",
        Binary::AtMost => " <= ",
        Binary::Greater => " > ",
        Binary::AtLeast => " >= ",
        Binary::Add => " + ",
        Binary::Subtract => " - ",
        Binary::Multiply => " * ",
        Binary::Divide => " / ",
        Binary::Remainder => " % ",
        Binary::Join => " || ",
    }
}

fn in_word(negated: bool) -> &'static str
    ensures { result.now ≡ layout.in_word negated }
{
    if negated { " NOT IN (" } else { " IN (" }
}

fn between_word(negated: bool) -> &'static str
    ensures { result.now ≡ layout.between_word negated }
{
    if negated {
        " NOT BETWEEN "
    } else {
        " BETWEEN "
    }
}

fn is_integer(e: &Expr) -> bool
    ensures { result ≡ (layout.printed e.now).is_integer }
{
    matches!(e, Expr::Literal(Value::Int(_)))
}

/// Appends an expression: each node but a leaf, a call, CAST and CASE stands in parentheses.
#[cycle(print)]
#[tactic(auto, using(crate::proofs::Nodes::count_all_text, crate::proofs::Nodes::binary_text, crate::proofs::Nodes::collate_text))]
pub fn push_expr(alloc: Global, out: &mut String, e: &Expr) -> Result<(), AllocError>
    ensures { OnOk result (string_bytes out.new ≡ string_bytes out.old ++ layout.expr e.now) }
{
    match e {
        Expr::Literal(it) => push_value(alloc, out, it),
        Expr::Param(number) => push_param(alloc, out, *number),
        Expr::Column(source, name) => push_column(out, source, name),
        Expr::CountAll => out.push_str("\"count\"(*)"),
        Expr::Unary(op, x) => push_unary(alloc, out, *op, x.get()),
        Expr::Binary(op, x, y) => {
            push_within(alloc, out, "(", x.get(), operator(*op))?;
            push_within(alloc, out, "", y.get(), ")")
        }
        Expr::Collate(x, name) => {
            push_within(alloc, out, "(", x.get(), " COLLATE ")?;
            push_name(out, name)?;
            out.push_str(")")
        }
        Expr::In(negated, x, items) => {
            push_within(alloc, out, "(", x.get(), in_word(*negated))?;
            push_exprs(alloc, out, items.as_slice())?;
            out.push_str("))")
        }
        Expr::Between(negated, x, low, high) => {
            push_within(alloc, out, "(", x.get(), between_word(*negated))?;
            push_within(alloc, out, "", low.get(), " AND ")?;
            push_within(alloc, out, "", high.get(), ")")
        }
        Expr::Call(name, args) => {
            push_name(out, name)?;
            out.push_str("(")?;
            push_exprs(alloc, out, args.as_slice())?;
            out.push_str(")")
        }
        Expr::Cast(x, words) => {
            push_within(alloc, out, "CAST(", x.get(), " AS ")?;
            push_names(out, " ", words.as_slice())?;
            out.push_str(")")
        }
        Expr::Case(x, arms, other) => {
            out.push_str("CASE")?;
            push_if_any(alloc, out, " ", x)?;
            push_arms(alloc, out, arms.as_slice())?;
            push_if_any(alloc, out, " ELSE ", other)?;
            out.push_str(" END")
        }
    }
}

// An expression between two texts.
#[cycle(print)]
fn push_within(
    alloc: Global,
    out: &mut String,
    before: &str,
    x: &Expr,
    after: &str,
) -> Result<(), AllocError>
    ensures { OnOk result
        (string_bytes out.new ≡ string_bytes out.old ++ (before.now ++ (layout.expr x.now ++ after.now))) }
{
    out.push_str(before)?;
    push_expr(alloc, out, x)?;
    out.push_str(after)
}

#[cycle(print)]
fn push_unary(alloc: Global, out: &mut String, op: Unary, x: &Expr) -> Result<(), AllocError>
    ensures { OnOk result (string_bytes out.new ≡ string_bytes out.old ++ layout.unary op (layout.printed x.now)) }
{
    match op {
        Unary::Not => push_within(alloc, out, "(NOT ", x, ")"),
        Unary::Plus if is_integer(x) => push_within(alloc, out, "(+(", x, "))"),
        Unary::Plus => push_within(alloc, out, "(+", x, ")"),
        Unary::Minus if is_integer(x) => push_within(alloc, out, "(-(", x, "))"),
        Unary::Minus => push_within(alloc, out, "(-", x, ")"),
        Unary::IsNull => push_within(alloc, out, "(", x, " ISNULL)"),
        Unary::NotNull => push_within(alloc, out, "(", x, " NOTNULL)"),
    }
}

#[cycle(print)]
fn push_if_any(
    alloc: Global,
    out: &mut String,
    before: &str,
    x: &Option<Boxed<Expr>>,
) -> Result<(), AllocError>
    ensures { OnOk result
        (string_bytes out.new ≡ string_bytes out.old ++ layout.if_any before.now (option_map layout.printed x.now)) }
{
    match x {
        Some(x) => push_within(alloc, out, before, x.get(), ""),
        None => Ok(()),
    }
}

/// Appends expressions with commas between them.
#[cycle(print)]
#[tactic(auto, using(crate::proofs::Loops::rest_at))]
pub fn push_exprs(alloc: Global, out: &mut String, exprs: &[Expr]) -> Result<(), AllocError>
    ensures { OnOk result (string_bytes out.new ≡ string_bytes out.old ++ listed (map layout.expr exprs.now)) }
{
    let mut before = "";
    for x in exprs {
        push_within(alloc, out, before, x, "")?;
        before = ", ";
    }
    Ok(())
}

#[cycle(print)]
#[tactic(auto, using(crate::proofs::Loops::rest_at))]
fn push_arms(alloc: Global, out: &mut String, arms: &[When]) -> Result<(), AllocError>
    ensures { OnOk result (string_bytes out.new ≡ string_bytes out.old ++ in_row [] [] (map layout.arm arms.now)) }
{
    for arm in arms {
        push_within(alloc, out, " WHEN ", &arm.when, " THEN ")?;
        push_within(alloc, out, "", &arm.then, "")?;
    }
    Ok(())
}
