//! What a query with groups shows, group by group.

ghost use Rattle.std.specs.Prelude.{◌≡◌, [], map, option_map, IfOk};
ghost use Rattle.std.specs.Option.{option_and_then};
ghost use Rattle.cr_bags.specs.Bags.{each, gather};
ghost use Rattle.cr_query.specs.Query.{groups, groups_of, keyed};
ghost use Rattle.cr_meaning.specs.View.{group_term};
ghost use Rattle.cr_exec.specs.Answers.{Answers, Adds};
ghost use Rattle.cr_exec.specs.Comparisons.{held_order};
ghost use Rattle.cr_exec.specs.Groups.{judged_by, group_expr, pair_of, group_of, StandsByClass};
ghost use Rattle.cr_exec.specs.Scopes.{there};
ghost use Rattle.cr_exec.specs.Shows.{shown_of};

use crate::compare::{Sense, senses_of_groups};
use crate::group::{Keyed, by_class, classes, judge, members, with_keys};
use crate::show::Shown;
use crate::value::Scope;
use cr_expr::given::Hosted;
use cr_host::functions::Functions;
use cr_lattice::table::Row;
use cr_scalar::fault::EvalFault;
use cr_term::expr::Expr;
use cr_term::query::GroupTerm;
use cr_value::value::Value;
use std::alloc::{AllocError, Global};

// Puts what the group of a class shows behind others, if it has what HAVING asks.
fn show_class<F: Functions>(
    alloc: Global,
    out: &mut Vec<Shown>,
    having: &Option<Expr>,
    results: &[&Expr],
    keys: &[&Expr],
    keyed: &[Keyed<'_>],
    senses: &[Sense],
    class: &Row,
    functions: &F,
    params: &[Value],
) -> Result<(), EvalFault>
    requires faithful { F.is_faithful functions.now }
    requires in_order { StandsByClass (map (held_order (F.order_at functions.now)) senses.now) keyed.now }
    ensures { Adds (⟦<F as Hosted>⟧.means functions.now) params.now (λ m. judged_by m (λ e. m.over e (group_of (map (held_order (F.order_at functions.now)) senses.now) (map pair_of keyed.now) class.now)) having.now results.now keys.now) (map shown_of out.old.items) (map shown_of out.new.items) result }
{
    let members = members(alloc, keyed, class, senses, functions)?;
    let scope = Scope::Group(class.as_slice(), members.as_slice());
    judge(alloc, out, having, results, keys, scope, functions, params)
}

// What the groups of classes show.
fn show_classes<F: Functions>(
    alloc: Global,
    having: &Option<Expr>,
    results: &[&Expr],
    keys: &[&Expr],
    keyed: &[Keyed<'_>],
    senses: &[Sense],
    classes: &[Row],
    functions: &F,
    params: &[Value],
) -> Result<Vec<Shown>, EvalFault>
    requires faithful { F.is_faithful functions.now }
    requires in_order { StandsByClass (map (held_order (F.order_at functions.now)) senses.now) keyed.now }
    ensures { Answers (⟦<F as Hosted>⟧.means functions.now) params.now result (λ v. map shown_of v.items) (λ m. gather (λ k. judged_by m (λ e. m.over e (group_of (map (held_order (F.order_at functions.now)) senses.now) (map pair_of keyed.now) k)) having.now results.now keys.now) classes.now) }
{
    let mut out = Vec::new(alloc);
    for class in classes {
        show_class(
            alloc, &mut out, having, results, keys, keyed, senses, class, functions, params,
        )?;
    }
    Ok(out)
}

// The expressions of the terms of GROUP BY.
fn exprs_of(alloc: Global, terms: &[GroupTerm]) -> Result<Vec<&Expr>, AllocError>
    ensures { IfOk result (λ v. map there v.items ≡ map group_expr terms.now) }
{
    let mut exprs = Vec::new(alloc);
    for term in terms {
        exprs.push(&term.expr)?;
    }
    Ok(exprs)
}

// What the groups under terms show.
fn show_under<F: Functions>(
    alloc: Global,
    terms: &[GroupTerm],
    having: &Option<Expr>,
    results: &[&Expr],
    keys: &[&Expr],
    combinations: &[Row],
    functions: &F,
    params: &[Value],
) -> Result<Vec<Shown>, EvalFault>
    requires { F.is_faithful functions.now }
    ensures { Answers (⟦<F as Hosted>⟧.means functions.now) params.now result (λ v. map shown_of v.items) (λ m. option_and_then (gather (λ g. judged_by m (λ e. m.over e g) having.now results.now keys.now)) (option_map (groups_of m (map group_term terms.now)) (each (keyed m (map group_term terms.now)) combinations.now))) }
{
    let exprs = exprs_of(alloc, terms)?;
    let senses = senses_of_groups(alloc, functions, terms)?;
    let senses = senses.as_slice();
    let keyed = with_keys(alloc, exprs.as_slice(), combinations, functions, params)?;
    let keyed = by_class(keyed, senses, functions)?;
    let keyed = keyed.as_slice();
    let classes = classes(alloc, keyed, senses, functions)?;
    let classes = classes.as_slice();
    show_classes(
        alloc, having, results, keys, keyed, senses, classes, functions, params,
    )
}

// What the one group without terms shows.
fn show_all<F: Functions>(
    alloc: Global,
    having: &Option<Expr>,
    results: &[&Expr],
    keys: &[&Expr],
    combinations: &[Row],
    functions: &F,
    params: &[Value],
) -> Result<Vec<Shown>, EvalFault>
    requires { F.is_faithful functions.now }
    ensures { Answers (⟦<F as Hosted>⟧.means functions.now) params.now result (λ v. map shown_of v.items) (λ m. judged_by m (λ e. m.over e (record { shown = []; members = combinations.now })) having.now results.now keys.now) }
{
    let mut out = Vec::new(alloc);
    let scope = Scope::Group(&[], combinations);
    judge(
        alloc, &mut out, having, results, keys, scope, functions, params,
    )?;
    Ok(out)
}

/// What the groups of combinations show that have what HAVING asks: the values of results, and those of the terms that
/// order them. Without terms there is one group.
///
/// # Errors
/// The fault of an expression that has no value, and `NotANumber` where HAVING has one that is no number; `TooBig` where a
/// value on the way is over 1,000,000 bytes; `Memory`.
pub fn show_groups<F: Functions>(
    alloc: Global,
    terms: &[GroupTerm],
    having: &Option<Expr>,
    results: &[&Expr],
    keys: &[&Expr],
    combinations: &[Row],
    functions: &F,
    params: &[Value],
) -> Result<Vec<Shown>, EvalFault>
    requires { F.is_faithful functions.now }
    ensures { Answers (⟦<F as Hosted>⟧.means functions.now) params.now result (λ v. map shown_of v.items) (λ m. option_and_then (gather (λ g. judged_by m (λ e. m.over e g) having.now results.now keys.now)) (groups m (map group_term terms.now) combinations.now)) }
{
    if terms.is_empty() {
        return show_all(
            alloc,
            having,
            results,
            keys,
            combinations,
            functions,
            params,
        );
    }
    show_under(
        alloc,
        terms,
        having,
        results,
        keys,
        combinations,
        functions,
        params,
    )
}
