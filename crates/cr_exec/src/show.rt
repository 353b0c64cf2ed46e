//! What combinations and groups show: a row of results, and the values of the terms that order it.

ghost use Rattle.std.specs.Prelude.{map};
ghost use Rattle.cr_bags.specs.Bags.{each};
ghost use Rattle.cr_query.specs.Query.{pair};
ghost use Rattle.cr_exec.specs.Answers.{Answers};
ghost use Rattle.cr_exec.specs.Scopes.{in_scope, there};
ghost use Rattle.cr_exec.specs.Shows.{shown_of};

use crate::push::push;
use crate::value::{Scope, values_in};
use cr_expr::given::Hosted;
use cr_host::functions::Functions;
use cr_lattice::table::Row;
use cr_scalar::fault::EvalFault;
use cr_term::expr::Expr;
use cr_value::value::Value;
use std::alloc::Global;

/// A result row, with the values of the terms that order it.
#[derive(Drop)]
pub struct Shown {
    pub row: Row,
    pub keys: Row,
}

// What a combination or a group shows.
pub(crate) fn show<F: Functions>(
    alloc: Global,
    results: &[&Expr],
    keys: &[&Expr],
    scope: Scope<'_>,
    functions: &F,
    params: &[Value],
) -> Result<Shown, EvalFault>
    requires { F.is_faithful functions.now }
    ensures { Answers (⟦<F as Hosted>⟧.means functions.now) params.now result shown_of (λ m. pair (each (in_scope m scope.entry) (map there results.now)) (each (in_scope m scope.entry) (map there keys.now))) }
{
    let row = values_in(alloc, results, scope, functions, params)?;
    let keys = values_in(alloc, keys, scope, functions, params)?;
    Ok(Shown { row, keys })
}

/// What each combination shows: the values of results, and those of the terms that order it.
///
/// # Errors
/// The fault of an expression that has no value; `TooBig` where a value on the way is over 1,000,000 bytes; `Memory`.
pub fn show_each<F: Functions>(
    alloc: Global,
    results: &[&Expr],
    keys: &[&Expr],
    combinations: &[Row],
    functions: &F,
    params: &[Value],
) -> Result<Vec<Shown>, EvalFault>
    requires { F.is_faithful functions.now }
    ensures { Answers (⟦<F as Hosted>⟧.means functions.now) params.now result (λ v. map shown_of v.items) (λ m. each (λ c. pair (each (λ e. m.value e c) (map there results.now)) (each (λ e. m.value e c) (map there keys.now))) combinations.now) }
{
    let mut out = Vec::new(alloc);
    for combination in combinations {
        let scope = Scope::Row(combination.as_slice());
        let shown = show(alloc, results, keys, scope, functions, params)?;
        push(&mut out, shown)?;
    }
    Ok(out)
}
