//! What the groups of a query show.

ghost use Rattle.std.specs.Prelude.{◌≡◌, map, filter, option_map, IfOk};
ghost use Rattle.cr_bags.specs.Bags.{SameBag, each, sort, firsts};
ghost use Rattle.cr_query.specs.Query.{row_cmp, has};
ghost use Rattle.cr_meaning.specs.View.{plain};
ghost use Rattle.cr_exec.specs.Answers.{Answers, Adds};
ghost use Rattle.cr_exec.specs.Comparisons.{held_order};
ghost use Rattle.cr_exec.specs.Groups.{judged_by, keyed_by, key_of, pair_of, row_there, members_of, StandsByClass, IsByClass};
ghost use Rattle.cr_exec.specs.Scopes.{in_scope, there};
ghost use Rattle.cr_exec.specs.Shows.{shown_of, ties_by};

use crate::compare::{Sense, compare_classes};
use crate::push::push;
use crate::show::{Shown, show};
use crate::value::{Scope, is_so_in, values_in};
use cr_expr::given::Hosted;
use cr_host::functions::Functions;
use cr_lattice::table::Row;
use cr_scalar::fault::EvalFault;
use cr_term::expr::Expr;
use cr_value::value::Value;
use std::alloc::{AllocError, Global};

/// A combination beside the values of the terms of GROUP BY.
#[derive(Drop)]
pub struct Keyed<'a> {
    pub key: Row,
    pub combination: &'a Row,
}

// Whether a group has what HAVING asks, if it asks for something.
fn has<F: Functions>(
    alloc: Global,
    having: &Option<Expr>,
    scope: Scope<'_>,
    functions: &F,
    params: &[Value],
) -> Result<bool, EvalFault>
    requires { F.is_faithful functions.now }
    ensures { Answers (⟦<F as Hosted>⟧.means functions.now) params.now result (λ b. b) (λ m. has m (option_map plain having.now) (in_scope m scope.entry)) }
{
    match having {
        Some(expr) => is_so_in(alloc, expr, scope, functions, params),
        None => Ok(true),
    }
}

/// Puts what a group shows behind others, if it has what HAVING asks.
///
/// # Errors
/// The fault of an expression that has no value, and `NotANumber` where HAVING has one that is no number; `TooBig` where a
/// value on the way is over 1,000,000 bytes; `Memory`.
pub fn judge<F: Functions>(
    alloc: Global,
    out: &mut Vec<Shown>,
    having: &Option<Expr>,
    results: &[&Expr],
    keys: &[&Expr],
    scope: Scope<'_>,
    functions: &F,
    params: &[Value],
) -> Result<(), EvalFault>
    requires { F.is_faithful functions.now }
    ensures { Adds (⟦<F as Hosted>⟧.means functions.now) params.now (λ m. judged_by m (in_scope m scope.entry) having.now results.now keys.now) (map shown_of out.old.items) (map shown_of out.new.items) result }
{
    let is_wanted = has(alloc, having, scope, functions, params)?;
    if !is_wanted {
        return Ok(());
    }
    let shown = show(alloc, results, keys, scope, functions, params)?;
    push(out, shown)?;
    Ok(())
}

// The values of the terms of GROUP BY over a combination.
fn key_of<F: Functions>(
    alloc: Global,
    exprs: &[&Expr],
    combination: &[Value],
    functions: &F,
    params: &[Value],
) -> Result<Row, EvalFault>
    requires { F.is_faithful functions.now }
    ensures { Answers (⟦<F as Hosted>⟧.means functions.now) params.now result (λ r. r) (λ m. each (λ e. m.value e combination.now) (map there exprs.now)) }
{
    values_in(alloc, exprs, Scope::Row(combination), functions, params)
}

/// Each combination beside the values of the terms of GROUP BY.
pub fn with_keys<'a, F: Functions>(
    alloc: Global,
    exprs: &[&Expr],
    combinations: &'a [Row],
    functions: &F,
    params: &[Value],
) -> Result<Vec<Keyed<'a>>, EvalFault>
    requires { F.is_faithful functions.now }
    ensures { Answers (⟦<F as Hosted>⟧.means functions.now) params.now result (λ v. map pair_of v.items) (λ m. each (keyed_by m exprs.now) combinations.now) }
{
    let mut out = Vec::new(alloc);
    for combination in combinations {
        let key = key_of(alloc, exprs, combination.as_slice(), functions, params)?;
        push(&mut out, Keyed { key, combination })?;
    }
    Ok(out)
}

// The keys.
fn keys_of<'k>(alloc: Global, keyed: &'k [Keyed<'_>]) -> Result<Vec<&'k Row>, AllocError>
    ensures { IfOk result (λ v. map row_there v.items ≡ map key_of keyed.now) }
{
    let mut keys = Vec::new(alloc);
    for one in keyed {
        keys.push(&one.key)?;
    }
    Ok(keys)
}

// Rows in ascending order.
fn in_order(mut rows: Vec<&Row>) -> Result<Vec<&Row>, AllocError>
    ensures { IfOk result (λ v. map row_there v.items ≡ sort row_cmp (map row_there rows.entry.items)) }
{
    rows.sort_by(|a, b| a.as_slice().cmp(b.as_slice()))?;
    Ok(rows)
}

// The first of each class, class by class.
fn firsts<'r, F: Functions>(
    functions: &F,
    senses: &[Sense],
    mut rows: Vec<&'r Row>,
) -> Result<Vec<&'r Row>, AllocError>
    requires { F.is_faithful functions.now }
    ensures { IfOk result (λ v. SameBag v.items (firsts (λ a b. ties_by (map (held_order (F.order_at functions.now)) senses.now) (row_there a) (row_there b)) rows.entry.items)) }
{
    // The sort is stable: a class keeps its order.
    rows.sort_by(|a, b| compare_classes(functions, senses, a, b))?;
    rows.dedup_by(|one, kept| compare_classes(functions, senses, one, kept).is_eq());
    Ok(rows)
}

// Copies of rows.
fn copies(alloc: Global, rows: &[&Row]) -> Result<Vec<Row>, AllocError>
    ensures { IfOk result (λ v. v.items ≡ map row_there rows.now) }
{
    let mut out = Vec::new(alloc);
    for row in rows {
        out.push(row.copy(alloc)?)?;
    }
    Ok(out)
}

/// The least key of each class, in ascending order.
pub fn classes<F: Functions>(
    alloc: Global,
    keyed: &[Keyed<'_>],
    senses: &[Sense],
    functions: &F,
) -> Result<Vec<Row>, AllocError>
    requires { F.is_faithful functions.now }
    ensures { IfOk result (λ v. v.items ≡ firsts (ties_by (map (held_order (F.order_at functions.now)) senses.now)) (sort row_cmp (map key_of keyed.now))) }
{
    let keys = keys_of(alloc, keyed)?;
    let keys = in_order(keys)?;
    let least = firsts(functions, senses, keys)?;
    let least = in_order(least)?;
    copies(alloc, least.as_slice())
}

// Keyed combinations class by class; those of one class stay in their order.
pub(crate) fn by_class<'a, F: Functions>(
    mut keyed: Vec<Keyed<'a>>,
    senses: &[Sense],
    functions: &F,
) -> Result<Vec<Keyed<'a>>, AllocError>
    requires { F.is_faithful functions.now }
    ensures { IfOk result (λ v. IsByClass (map (held_order (F.order_at functions.now)) senses.now) keyed.entry.items v.items) }
{
    keyed.sort_by(|a, b| compare_classes(functions, senses, &a.key, &b.key))?;
    Ok(keyed)
}

// Those of one class, where they stand class by class.
fn class_of<'k, 'a, F: Functions>(
    keyed: &'k [Keyed<'a>],
    class: &Row,
    senses: &[Sense],
    functions: &F,
) -> &'k [Keyed<'a>]
    requires faithful { F.is_faithful functions.now }
    requires in_order { StandsByClass (map (held_order (F.order_at functions.now)) senses.now) keyed.now }
    ensures { result.now ≡ filter (λ k. ties_by (map (held_order (F.order_at functions.now)) senses.now) class.now k.key) keyed.now }
{
    let is_below = |one: &Keyed<'_>| compare_classes(functions, senses, &one.key, class).is_lt();
    let is_member = |one: &Keyed<'_>| compare_classes(functions, senses, &one.key, class).is_eq();
    let start = keyed.partition_point(is_below);
    let rest = &keyed[start..];
    let count = rest.partition_point(is_member);
    &rest[..count]
}

// Copies of the combinations of a class.
pub(crate) fn members<F: Functions>(
    alloc: Global,
    keyed: &[Keyed<'_>],
    class: &Row,
    senses: &[Sense],
    functions: &F,
) -> Result<Vec<Row>, AllocError>
    requires faithful { F.is_faithful functions.now }
    requires in_order { StandsByClass (map (held_order (F.order_at functions.now)) senses.now) keyed.now }
    ensures { IfOk result (λ v. v.items ≡ members_of (map (held_order (F.order_at functions.now)) senses.now) (map pair_of keyed.now) class.now) }
{
    let mut out = Vec::new(alloc);
    for one in class_of(keyed, class, senses, functions) {
        out.push(one.combination.copy(alloc)?)?;
    }
    Ok(out)
}
