//! Which tables an expression's columns stand in. Takes no memory.

ghost use Rattle.std.specs.Prelude.{◌≡◌};
ghost use Rattle.std.specs.Option.{option_to_list};
ghost use Rattle.std.specs.List.{flat_map};
ghost use Rattle.cr_term.specs.declared.expr.Expr.{out-Expr};
ghost use Rattle.cr_term.specs.Parts.{columns, columns_layer};
ghost use Rattle.cr_questions.specs.Questions.{is_read, relation_at};
ghost use Rattle.cr_questions.specs.Asked.{arm_columns, or_is_read, own_columns, parts_of, relations};

use crate::sources::Sources;
use cr_term::expr::{Column, Expr, When};
use sqlite_items::Boxed;

// The name of a column's table, the empty text where there is none.
#[tactic(auto, using(crate::proofs::Columns::no_relation))]
fn table_of<'a>(sources: Sources<'a>, column: &Column) -> &'a str
    ensures { result.now ≡ (relation_at (relations sources.entry) column.now).definition.name }
{
    match sources.get(column.source) {
        Some(relation) => relation.definition.name.as_str(),
        None => "",
    }
}

// Whether an expression is a column of the table of that name.
#[tactic(auto, using(crate::proofs::Columns::one_read))]
fn is_column_of(name: &str, sources: Sources<'_>, expr: &Expr) -> bool
    ensures { result ≡ is_read (relations sources.entry) (own_columns (out-Expr expr.now)) name.now }
{
    match expr {
        Expr::Column(column) => name == table_of(sources, column),
        _ => false,
    }
}

/// Whether it was found, or a column of the table of that name stands in an expression.
#[cycle(reads)]
#[tactic(auto, unfolding(crate::specs::Asked::or_is_read), using(crate::proofs::Columns::node_reads))]
pub fn or_reads(found: bool, name: &str, sources: Sources<'_>, expr: &Expr) -> bool
    ensures { result ≡ or_is_read (relations sources.entry) name.now found (columns expr.now) }
{
    if found {
        return true;
    }
    or_part_reads(is_column_of(name, sources, expr), name, sources, expr)
}

/// Whether it was found, or a column of that table stands in one of several expressions.
#[cycle(reads)]
#[tactic(auto, unfolding(crate::specs::Asked::or_is_read), using(crate::proofs::Columns::or_more, crate::proofs::Columns::or_false))]
pub(crate) fn or_any_reads(
    mut found: bool,
    name: &str,
    sources: Sources<'_>,
    exprs: &[Expr],
) -> bool
    ensures { result ≡ or_is_read (relations sources.entry) name.now found (flat_map columns exprs.now) }
{
    for expr in exprs {
        found = or_reads(found, name, sources, expr);
    }
    found
}

// Whether it was found, or one stands in an arm of a CASE.
#[cycle(reads)]
#[tactic(auto, unfolding(crate::specs::Asked::or_is_read), using(crate::proofs::Columns::or_more, crate::proofs::Columns::or_false))]
fn or_arm_reads(mut found: bool, name: &str, sources: Sources<'_>, arms: &[When]) -> bool
    ensures { result ≡ or_is_read (relations sources.entry) name.now found (flat_map arm_columns arms.now) }
{
    for arm in arms {
        found = or_reads(found, name, sources, &arm.when);
        found = or_reads(found, name, sources, &arm.then);
    }
    found
}

// Whether it was found, or one stands in an expression that need not be there.
#[cycle(reads)]
#[tactic(auto, unfolding(crate::specs::Asked::or_is_read), using(crate::proofs::Columns::or_false))]
fn or_reads_if_any(
    found: bool,
    name: &str,
    sources: Sources<'_>,
    expr: &Option<Boxed<Expr>>,
) -> bool
    ensures { result ≡ or_is_read (relations sources.entry) name.now found (flat_map columns (option_to_list expr.now)) }
{
    match expr {
        Some(expr) => or_reads(found, name, sources, expr.get()),
        None => found,
    }
}

// Whether it was found, or one stands in a part of an expression.
#[cycle(reads)]
#[tactic(auto, unfolding(crate::specs::Asked::or_is_read), using(crate::proofs::Columns::or_more, crate::proofs::Columns::or_false))]
fn or_part_reads(found: bool, name: &str, sources: Sources<'_>, expr: &Expr) -> bool
    ensures { result ≡ or_is_read (relations sources.entry) name.now found (parts_of columns_layer expr.now) }
{
    match expr {
        Expr::Literal(_)
        | Expr::Param(_)
        | Expr::Column(_)
        | Expr::SiteId(_)
        | Expr::DbVersion(_) => found,
        Expr::Shown(_, operand)
        | Expr::Unary(_, operand)
        | Expr::Collate(operand, _)
        | Expr::Cast(_, operand) => or_reads(found, name, sources, operand.get()),
        Expr::Arithmetic(_, left, right)
        | Expr::Join(left, right)
        | Expr::Like(_, left, right)
        | Expr::Logic(_, left, right)
        | Expr::Compare(_, _, left, right) => {
            let found = or_reads(found, name, sources, left.get());
            or_reads(found, name, sources, right.get())
        }
        Expr::In(_, _, operand, items) => {
            let found = or_reads(found, name, sources, operand.get());
            or_any_reads(found, name, sources, items.as_slice())
        }
        Expr::Between(_, _, _, operand, low, high) => {
            let found = or_reads(found, name, sources, operand.get());
            let found = or_reads(found, name, sources, low.get());
            or_reads(found, name, sources, high.get())
        }
        Expr::Case(operand, arms, otherwise) => {
            let found = or_reads_if_any(found, name, sources, operand);
            let found = or_arm_reads(found, name, sources, arms.as_slice());
            or_reads_if_any(found, name, sources, otherwise)
        }
        Expr::BuiltIn(_, args) | Expr::Host(_, args) | Expr::Aggregate(_, args) => {
            or_any_reads(found, name, sources, args.as_slice())
        }
    }
}
