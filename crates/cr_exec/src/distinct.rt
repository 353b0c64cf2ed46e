//! Of each class of rows the least.

ghost use Rattle.std.specs.Prelude.{◌≡◌, map, List, IfOk};
ghost use Rattle.cr_bags.specs.Bags.{SameBag, sort, firsts};
ghost use Rattle.cr_value.specs.declared.value.Value.{Value as Content};
ghost use Rattle.cr_query.specs.Query.{spelled_cmp, distinct};
ghost use Rattle.cr_meaning.specs.View.{result_term};
ghost use Rattle.cr_meaning.specs.Meaning.{Regard, regarded};
ghost use Rattle.cr_exec.specs.Comparisons.{held_order};
ghost use Rattle.cr_exec.specs.Shows.{shown_of, shown_ties};

use crate::compare::{Sense, compare_classes, senses_of_results};
use crate::show::Shown;
use cr_expr::given::Hosted;
use cr_host::functions::Functions;
use cr_term::query::ResultColumn;
use std::alloc::{AllocError, Global};
use std::cmp::Ordering;

// The order of two rows that are shown by the rows, then by their keys.
fn compare_spelled(a: &Shown, b: &Shown) -> Ordering
    ensures { result ≡ spelled_cmp (shown_of a.now) (shown_of b.now) }
{
    let order = a.row.as_slice().cmp(b.row.as_slice());
    order.then(a.keys.as_slice().cmp(b.keys.as_slice()))
}

// What is shown in that order.
fn spelled(mut shown: Vec<Shown>) -> Result<Vec<Shown>, AllocError>
    ensures { IfOk result (λ v. map shown_of v.items ≡ sort spelled_cmp (map shown_of shown.items)) }
{
    shown.sort_by(|a, b| compare_spelled(a, b))?;
    Ok(shown)
}

// The first of each class, class by class.
fn firsts<F: Functions>(
    functions: &F,
    senses: &[Sense],
    mut shown: Vec<Shown>,
) -> Result<Vec<Shown>, AllocError>
    requires { F.is_faithful functions.now }
    ensures { IfOk result (λ v. SameBag v.items (firsts (λ a b. shown_ties (map (held_order (F.order_at functions.now)) senses.now) (shown_of a) (shown_of b)) shown.items)) }
{
    // The sort is stable: a class keeps its order.
    shown.sort_by(|a, b| compare_classes(functions, senses, &a.row, &b.row))?;
    shown.dedup_by(|one, kept| compare_classes(functions, senses, &one.row, &kept.row).is_eq());
    Ok(shown)
}

/// Of each class of rows, under the collations of the results, the least by spelling.
pub fn distinct<F: Functions>(
    alloc: Global,
    results: &[ResultColumn],
    shown: Vec<Shown>,
    functions: &F,
) -> Result<Vec<Shown>, AllocError>
    requires { F.is_faithful functions.now }
    ensures { IfOk result (λ v. (regard : Regard) (params : List Content) → map shown_of v.items ≡ distinct (regarded regard (⟦<F as Hosted>⟧.means functions.now) params) (map result_term results.now) (map shown_of shown.items)) }
{
    let senses = senses_of_results(alloc, functions, results)?;
    let shown = spelled(shown)?;
    let shown = firsts(functions, senses.as_slice(), shown)?;
    spelled(shown)
}
