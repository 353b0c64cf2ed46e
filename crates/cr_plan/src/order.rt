//! The order in which a module is to give its rows. "The Virtual Table Mechanism Of SQLite", section 2.3.2.

ghost use Rattle.std.specs.Prelude.{◌≡◌, IfOk};
ghost use Rattle.std.specs.Option.{option_map};
ghost use Rattle.cr_bags.specs.Bags.{each};
ghost use Rattle.cr_plan.specs.Orders.{order_of, orders_for};

use cr_lattice::profile::BINARY;
use cr_module::plan::Order;
use cr_sought::pin::column_under;
use cr_term::query::{OrderTerm, Query};
use cr_value::order::same_bytes;
use std::alloc::{AllocError, Global};

// A term of ORDER BY that is a column under BINARY, if it is one.
fn order_of(term: &OrderTerm) -> Option<Order>
    ensures { result ≡ order_of term.now }
{
    if !same_bytes(term.collation.as_str().as_bytes(), BINARY.as_bytes()) {
        return None;
    }
    match column_under(&term.expr) {
        Some(column) => Some(Order {
            column,
            descending: term.is_descending,
        }),
        None => None,
    }
}

// All terms of ORDER BY, if each is a column under BINARY.
fn all_orders(alloc: Global, terms: &[OrderTerm]) -> Result<Option<Vec<Order>>, AllocError>
    ensures { IfOk result (λ o. option_map (λ v. v.items) o ≡ each order_of terms.now) }
{
    let mut orders = Vec::new(alloc);
    for term in terms {
        match order_of(term) {
            Some(order) => orders.push(order)?,
            None => return Ok(None),
        }
    }
    Ok(Some(orders))
}

/// The order in which the only table of a query is to give its rows: the terms of its ORDER BY where each is a column, possibly
/// under COLLATE, that is ordered under BINARY; none where one is not, in a join, where there are groups, and beside DISTINCT.
///
/// A column is told by its place in the row. Fails for want of memory alone.
pub fn orders(alloc: Global, query: &Query) -> Result<Vec<Order>, AllocError>
    ensures { IfOk result (λ v. v.items ≡ orders_for query.now) }
{
    if query.joined.as_slice().len() > 1 || query.is_grouped || query.is_distinct {
        return Ok(Vec::new(alloc));
    }
    match all_orders(alloc, query.order.as_slice())? {
        Some(orders) => Ok(orders),
        None => Ok(Vec::new(alloc)),
    }
}
