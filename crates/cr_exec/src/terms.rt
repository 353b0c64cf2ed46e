//! Terms in the order in which they are tested, the quiet ones first, and whether they are true.

ghost use Rattle.std.specs.Prelude.{◌≡◌, ◌∷◌, ◌++◌, [], map, filter, IfOk, OnOk};
ghost use Rattle.std.specs.List.{flat_map};
ghost use Rattle.cr_query.specs.Query.{all_true};
ghost use Rattle.cr_meaning.specs.View.{plain, inner_terms, terms};
ghost use Rattle.cr_exec.specs.Answers.{Answers};
ghost use Rattle.cr_exec.specs.Scopes.{there};
ghost use Rattle.cr_exec.specs.Tails.{of_kind, with_quiet_first};

use crate::value::{Scope, is_so_in};
use cr_expr::given::Hosted;
use cr_expr::quiet::is_quiet;
use cr_host::functions::Functions;
use cr_scalar::fault::EvalFault;
use cr_term::expr::Expr;
use cr_term::query::{Joined, Query};
use cr_value::value::Value;
use std::alloc::{AllocError, Global};

// Whether a term is quiet, or whether it is not.
fn is_of_kind(term: &Expr, is_quiet_wanted: bool) -> bool
    ensures { result ≡ of_kind is_quiet_wanted (plain term.now) }
{
    if is_quiet_wanted {
        is_quiet(term)
    } else {
        !is_quiet(term)
    }
}

// Puts a term behind others if it is quiet, or if it is not.
fn push_term<'q>(
    out: &mut Vec<&'q Expr>,
    term: &'q Expr,
    is_quiet_wanted: bool,
) -> Result<(), AllocError>
    ensures { OnOk result (map there out.new.items ≡ map there out.old.items ++ filter (of_kind is_quiet_wanted) (plain term.now ∷ [])) }
{
    if !is_of_kind(term, is_quiet_wanted) {
        return Ok(());
    }
    out.push(term)?;
    Ok(())
}

// Puts the terms that are quiet, or those that are not, behind others.
fn push_terms<'q>(
    out: &mut Vec<&'q Expr>,
    terms: &'q [Expr],
    is_quiet_wanted: bool,
) -> Result<(), AllocError>
    ensures { OnOk result (map there out.new.items ≡ map there out.old.items ++ filter (of_kind is_quiet_wanted) (map plain terms.now)) }
{
    for term in terms {
        push_term(out, term, is_quiet_wanted)?;
    }
    Ok(())
}

// The terms of an inner ON; a LEFT JOIN's are no terms of the query.
fn inner_terms(join: &Joined) -> &[Expr]
    ensures { map plain result.now ≡ inner_terms join.now }
{
    if join.is_left {
        &[]
    } else {
        join.on.as_slice()
    }
}

// The same for the terms of all inner ONs.
fn push_inner_terms<'q>(
    out: &mut Vec<&'q Expr>,
    joined: &'q [Joined],
    is_quiet_wanted: bool,
) -> Result<(), AllocError>
    ensures { OnOk result (map there out.new.items ≡ map there out.old.items ++ filter (of_kind is_quiet_wanted) (flat_map inner_terms joined.now)) }
{
    for join in joined {
        push_terms(out, inner_terms(join), is_quiet_wanted)?;
    }
    Ok(())
}

/// Terms, the quiet ones first.
pub fn with_quiet_first<'q>(alloc: Global, terms: &'q [Expr]) -> Result<Vec<&'q Expr>, AllocError>
    ensures { IfOk result (λ v. map there v.items ≡ with_quiet_first (map plain terms.now)) }
{
    let mut out = Vec::new(alloc);
    push_terms(&mut out, terms, true)?;
    push_terms(&mut out, terms, false)?;
    Ok(out)
}

/// The terms of a query, of its inner ONs and its WHERE, the quiet ones first.
pub fn terms_of<'q>(alloc: Global, query: &'q Query) -> Result<Vec<&'q Expr>, AllocError>
    ensures { IfOk result (λ v. map there v.items ≡ with_quiet_first (terms query.now)) }
{
    let mut out = Vec::new(alloc);
    push_inner_terms(&mut out, query.joined.as_slice(), true)?;
    push_terms(&mut out, query.filter.as_slice(), true)?;
    push_inner_terms(&mut out, query.joined.as_slice(), false)?;
    push_terms(&mut out, query.filter.as_slice(), false)?;
    Ok(out)
}

/// Whether all terms are true on a combination, up to the first that is not. Faults as `is_so_in` does, where it comes to the term.
pub fn all_true<F: Functions>(
    alloc: Global,
    terms: &[&Expr],
    row: &[Value],
    functions: &F,
    params: &[Value],
) -> Result<bool, EvalFault>
    requires { F.is_faithful functions.now }
    ensures { Answers (⟦<F as Hosted>⟧.means functions.now) params.now result (λ b. b) (λ m. all_true m (map there terms.now) row.now) }
{
    for term in terms {
        let is_so = is_so_in(alloc, term, Scope::Row(row), functions, params)?;
        if !is_so {
            return Ok(false);
        }
    }
    Ok(true)
}
