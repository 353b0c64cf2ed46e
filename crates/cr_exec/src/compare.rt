//! How rows stand to one another, under collations that are held while they are compared.

ghost use Rattle.std.specs.Prelude.{◌≡◌, map, get_or, IfOk};
ghost use Rattle.cr_value.specs.declared.value.Value.TheVariants.{Null};
ghost use Rattle.cr_scalar.specs.Host.{orders};
ghost use Rattle.cr_scalar.specs.Compare.{value_cmp_by};
ghost use Rattle.cr_query.specs.Query.{directed};
ghost use Rattle.cr_exec.specs.Comparisons.{by_orders, held_order, term_order, result_order, group_order};

use cr_expr::eval::value_at;
use cr_host::function::FoundCollation;
use cr_host::functions::Functions;
use cr_lattice::table::Row;
use cr_scalar::compare::{collation_named, compare_values};
use cr_term::query::{GroupTerm, OrderTerm, ResultColumn};
use cr_value::text::Text;
use cr_value::value::Value;
use std::alloc::{AllocError, Global};
use std::cmp::Ordering;

/// How the values at one place of rows are compared: under a collation, upwards or downwards.
#[derive(Clone, Copy, Drop)]
pub struct Sense {
    pub collation: FoundCollation,
    pub is_descending: bool,
}

// The order of two values under a collation, upwards or downwards.
fn compare_in<F: Functions>(functions: &F, sense: Sense, a: &Value, b: &Value) -> Ordering
    requires { F.is_faithful functions.now }
    ensures { result ≡ held_order (F.order_at functions.now) sense a.now b.now }
{
    if sense.is_descending {
        compare_values(functions, sense.collation, b, a)
    } else {
        compare_values(functions, sense.collation, a, b)
    }
}

// The order of the values at one place of two rows.
fn compare_at<F: Functions>(
    functions: &F,
    sense: Sense,
    place: usize,
    a: &[Value],
    b: &[Value],
) -> Ordering
    requires { F.is_faithful functions.now }
    ensures { result ≡ held_order (F.order_at functions.now) sense (get_or a.now place Null) (get_or b.now place Null) }
{
    let first = value_at(a, place);
    let second = value_at(b, place);
    compare_in(functions, sense, first.get(), second.get())
}

/// The order of two rows: by the first values, then by the next. A row ends in NULLs.
pub fn compare_rows<F: Functions>(
    functions: &F,
    senses: &[Sense],
    a: &[Value],
    b: &[Value],
) -> Ordering
    requires { F.is_faithful functions.now }
    ensures { result ≡ by_orders (map (held_order (F.order_at functions.now)) senses.now) a.now b.now }
{
    for (place, sense) in senses.iter().enumerate() {
        let order = compare_at(functions, *sense, place, a, b);
        if order.is_ne() {
            return order;
        }
    }
    Ordering::Equal
}

// The order of two rows by their classes.
pub(crate) fn compare_classes<F: Functions>(
    functions: &F,
    senses: &[Sense],
    a: &Row,
    b: &Row,
) -> Ordering
    requires { F.is_faithful functions.now }
    ensures { result ≡ by_orders (map (held_order (F.order_at functions.now)) senses.now) a.now b.now }
{
    compare_rows(functions, senses, a.as_slice(), b.as_slice())
}

// A collation by its name, upwards or downwards.
fn sense_named<F: Functions>(functions: &F, collation: &Text, is_descending: bool) -> Sense
    ensures { held_order (F.order_at functions.now) result ≡ directed is_descending (value_cmp_by (orders (F.order_of functions.now) collation.now)) }
{
    Sense {
        collation: collation_named(functions, collation),
        is_descending,
    }
}

/// How the terms of ORDER BY compare rows of their values.
pub fn senses_of_order<F: Functions>(
    alloc: Global,
    functions: &F,
    terms: &[OrderTerm],
) -> Result<Vec<Sense>, AllocError>
    ensures { IfOk result (λ v. map (held_order (F.order_at functions.now)) v.items ≡ map (term_order (orders (F.order_of functions.now))) terms.now) }
{
    let mut senses = Vec::new(alloc);
    for term in terms {
        senses.push(sense_named(functions, &term.collation, term.is_descending))?;
    }
    Ok(senses)
}

/// How DISTINCT compares rows of results.
pub fn senses_of_results<F: Functions>(
    alloc: Global,
    functions: &F,
    results: &[ResultColumn],
) -> Result<Vec<Sense>, AllocError>
    ensures { IfOk result (λ v. map (held_order (F.order_at functions.now)) v.items ≡ map (result_order (orders (F.order_of functions.now))) results.now) }
{
    let mut senses = Vec::new(alloc);
    for column in results {
        senses.push(sense_named(functions, &column.collation, false))?;
    }
    Ok(senses)
}

/// How GROUP BY compares rows of its terms' values.
pub fn senses_of_groups<F: Functions>(
    alloc: Global,
    functions: &F,
    terms: &[GroupTerm],
) -> Result<Vec<Sense>, AllocError>
    ensures { IfOk result (λ v. map (held_order (F.order_at functions.now)) v.items ≡ map (group_order (orders (F.order_of functions.now))) terms.now) }
{
    let mut senses = Vec::new(alloc);
    for term in terms {
        senses.push(sense_named(functions, &term.collation, false))?;
    }
    Ok(senses)
}
