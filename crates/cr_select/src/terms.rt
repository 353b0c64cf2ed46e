//! Terms of GROUP BY and ORDER BY.

ghost use Rattle.std.specs.Prelude.{◌≡◌, map, false, true, position, IfOk};
ghost use Rattle.cr_resolve.specs.Queries.{alias_at, aliased_or, group_term, has_alias, integer_of, name_of, numbered, numbered_or, order_term, other, result_at};
ghost use Rattle.cr_resolve.specs.Expressions.{expr};
ghost use Rattle.cr_resolve.specs.Told.{Reads};
ghost use Rattle.cr_select.specs.Outputs.{as_result};
ghost use Rattle.cr_select.specs.Terms.{as_terms, order_start, Collates, Groups, Orders};

use crate::aggregates::has_aggregate;
use crate::outputs::Output;
use cr_build::copy::copy;
use cr_questions::operands::collation_of;
use cr_resolve::expressions::expr;
use cr_resolve::known::check_collation;
use cr_resolve::leaf::{integer_of, name_of};
use cr_resolve::limits::place_of;
use cr_resolve::naming::Naming;
use cr_resolve::reading::Made;
use cr_resolve::refusal::Refusal;
use cr_resolve::scope::Source;
use cr_term::expr::Expr;
use cr_term::query::{GroupTerm, OrderTerm};
use cr_tree::expr::Expr as Tree;
use cr_tree::statement::Term as TermTree;
use cr_value::text::Text;
use cr_value::value::Value;
use std::alloc::{AllocError, Global};

/// An expression, and the place of the result column that it is, if it is one.
#[derive(Drop)]
struct Term {
    result: Option<usize>,
    expr: Expr,
}

// The expression of a result column, NULL where there is none.
fn result_at(alloc: Global, outputs: &[Output], place: usize) -> Result<Expr, AllocError>
    ensures { IfOk result (λ x. x ≡ result_at (map as_result outputs.now) place) }
{
    match outputs.get(place) {
        Some(output) => copy(alloc, &output.expr),
        None => Ok(Expr::Literal(Value::Null)),
    }
}

// The result column that a number stands for.
fn numbered(alloc: Global, outputs: &[Output], number: &i64) -> Result<Made<Term>, Refusal>
    ensures { Reads (numbered (map as_result outputs.now) number.now) (as_terms result) }
{
    match place_of(number, outputs.len()) {
        Some(place) => Ok(Made {
            made: Term {
                result: Some(place),
                expr: result_at(alloc, outputs, place)?,
            },
            is_misplaced: false,
        }),
        None => Err(Refusal::NoSuchColumn(Text::new(number.to_string(alloc)?))),
    }
}

// An expression that is no result column.
fn plain<K: Naming>(
    alloc: Global,
    known: &K,
    sources: &[Source],
    may_aggregate: bool,
    tree: &Tree,
) -> Result<Made<Term>, Refusal>
    ensures { Reads (other (expr (K.known known.now) sources.now may_aggregate tree.now)) (as_terms result) }
{
    let expr = expr(alloc, known, sources, may_aggregate, tree)?;
    Ok(Made {
        made: Term {
            result: None,
            expr: expr.made,
        },
        is_misplaced: expr.is_misplaced,
    })
}

// A term of GROUP BY before its collation is known: an integer is the number of a result column.
fn group_start<K: Naming>(
    alloc: Global,
    known: &K,
    sources: &[Source],
    outputs: &[Output],
    tree: &Tree,
) -> Result<Made<Term>, Refusal>
    ensures { Reads (numbered_or (map as_result outputs.now) (integer_of tree.now) (other (expr (K.known known.now) sources.now false tree.now))) (as_terms result) }
{
    match integer_of(tree) {
        Some(number) => numbered(alloc, outputs, &number),
        None => plain(alloc, known, sources, false, tree),
    }
}

// The collation of a term.
#[tactic(auto, using(crate::proofs::Collated::no_memory, crate::proofs::Collated::no_collation, crate::proofs::Collated::collated))]
fn collation<K: Naming>(alloc: Global, known: &K, expr: &Expr) -> Result<Text, Refusal>
    ensures { Collates (K.known known.now) expr.now result }
{
    let collation = collation_of(alloc, expr)?;
    check_collation(alloc, known, &collation)?;
    Ok(collation)
}

// A term of GROUP BY, with the collation of its classes.
#[tactic(auto, using(crate::proofs::Collated::group_fails, crate::proofs::Collated::group_made))]
fn grouped<K: Naming>(
    alloc: Global,
    known: &K,
    term: Made<Term>,
) -> Result<Made<GroupTerm>, Refusal>
    ensures { Groups (K.known known.now) term result }
{
    let is_misplaced = has_aggregate(&term.made.expr) || term.is_misplaced;
    let collation = collation(alloc, known, &term.made.expr);
    collation.map(|collation| Made {
        made: GroupTerm {
            expr: term.made.expr,
            collation,
        },
        is_misplaced,
    })
}

/// A term of GROUP BY: an expression, or the number of a result column.
///
/// # Errors
/// `NoSuchColumn` of a number that is no result column's, what stands against the expression, `NoSuchCollation` of the
/// term's own; `Memory`.
#[tactic(auto, using(crate::proofs::Collated::group_starts, crate::proofs::Collated::group_ends))]
pub fn group_term<K: Naming>(
    alloc: Global,
    known: &K,
    sources: &[Source],
    outputs: &[Output],
    tree: &Tree,
) -> Result<Made<GroupTerm>, Refusal>
    ensures { Reads (group_term (K.known known.now) sources.now (map as_result outputs.now) tree.now) result }
{
    let term = group_start(alloc, known, sources, outputs, tree)?;
    grouped(alloc, known, term)
}

// Whether a result column has that alias.
fn has_alias(name: &Text, output: &Output) -> bool
    ensures { result ≡ has_alias name.now (as_result output.now) }
{
    match &output.alias {
        Some(alias) => name.as_str() == alias.as_str(),
        None => false,
    }
}

// The place of the first result column of that alias.
fn alias_place(outputs: &[Output], name: &Text) -> Option<usize>
    ensures { result ≡ position (λ o. has_alias name.now (as_result o)) outputs.now }
{
    outputs.iter().position(|output| has_alias(name, output))
}

// The place of the first result column whose alias an expression is.
#[tactic(auto, using(crate::proofs::Collated::position_mapped))]
fn alias_at(outputs: &[Output], tree: &Tree) -> Option<usize>
    ensures { result ≡ alias_at (map as_result outputs.now) (name_of tree.now) }
{
    match name_of(tree) {
        Some(name) => alias_place(outputs, name),
        None => None,
    }
}

// An expression of ORDER BY that is no number: an alias is the first result column that has it.
fn aliased<K: Naming>(
    alloc: Global,
    known: &K,
    sources: &[Source],
    outputs: &[Output],
    tree: &Tree,
) -> Result<Made<Term>, Refusal>
    ensures { Reads (aliased_or (map as_result outputs.now) (alias_at (map as_result outputs.now) (name_of tree.now)) (other (expr (K.known known.now) sources.now true tree.now))) (as_terms result) }
{
    match alias_at(outputs, tree) {
        Some(place) => Ok(Made {
            made: Term {
                result: Some(place),
                expr: result_at(alloc, outputs, place)?,
            },
            is_misplaced: false,
        }),
        None => plain(alloc, known, sources, true, tree),
    }
}

// A term of ORDER BY before its collation is known: an integer is the number of a result column.
fn order_start<K: Naming>(
    alloc: Global,
    known: &K,
    sources: &[Source],
    outputs: &[Output],
    tree: &Tree,
) -> Result<Made<Term>, Refusal>
    ensures { Reads (order_start (K.known known.now) sources.now (map as_result outputs.now) tree.now) (as_terms result) }
{
    match integer_of(tree) {
        Some(number) => numbered(alloc, outputs, &number),
        None => aliased(alloc, known, sources, outputs, tree),
    }
}

// A term of ORDER BY, with the collation by which it sorts.
#[tactic(auto, using(crate::proofs::Collated::order_fails, crate::proofs::Collated::order_made))]
fn ordered<K: Naming>(
    alloc: Global,
    known: &K,
    term: Made<Term>,
    is_descending: bool,
) -> Result<Made<OrderTerm>, Refusal>
    ensures { Orders (K.known known.now) is_descending term result }
{
    let result = term.made.result;
    let is_misplaced = term.is_misplaced;
    let collation = collation(alloc, known, &term.made.expr);
    collation.map(|collation| Made {
        made: OrderTerm {
            result,
            expr: term.made.expr,
            collation,
            is_descending,
        },
        is_misplaced,
    })
}

/// A term of ORDER BY: an expression, the alias of a result column, or the number of one.
///
/// # Errors
/// `NoSuchColumn` of a number that is no result column's, what stands against the expression, `NoSuchCollation` of the
/// term's own; `Memory`.
#[tactic(auto, using(crate::proofs::Collated::order_starts, crate::proofs::Collated::order_ends))]
pub fn order_term<K: Naming>(
    alloc: Global,
    known: &K,
    sources: &[Source],
    outputs: &[Output],
    tree: &TermTree,
) -> Result<Made<OrderTerm>, Refusal>
    ensures { Reads (order_term (K.known known.now) sources.now (map as_result outputs.now) tree.now) result }
{
    let term = order_start(alloc, known, sources, outputs, &tree.expr)?;
    ordered(alloc, known, term, tree.descending)
}
