//! The rows of a table by the values of one of their columns.

ghost use Rattle.std.specs.Prelude.{◌≡◌, map, filter, IfOk};
ghost use Rattle.cr_value.specs.Order.{value_cmp};
ghost use Rattle.cr_exec.specs.Equalities.{is_equal};
ghost use Rattle.cr_exec.specs.Groups.{row_there};
ghost use Rattle.cr_exec.specs.LookUps.{at_place, cell, IsIndexOf, IsInOrder};

use cr_expr::eval::value_at;
use cr_lattice::table::Row;
use cr_scalar::compare::is_null;
use cr_value::order::cmp_binary;
use cr_value::value::Value;
use std::alloc::{AllocError, Global};
use std::cmp::Ordering;

/// Rows in the order of their values at one place; those of one value stay in their order.
#[derive(Drop)]
pub(crate) struct Index<'a> {
    pub(crate) place: usize,
    pub(crate) rows: Vec<&'a Row>,
}

/// References to rows.
pub(crate) fn references<'a>(alloc: Global, rows: &'a [Row]) -> Result<Vec<&'a Row>, AllocError>
    ensures { IfOk result (λ v. map row_there v.items ≡ rows.now) }
{
    let mut out = Vec::new(alloc);
    for row in rows {
        out.push(row)?;
    }
    Ok(out)
}

// The same references once more.
fn copies<'a>(alloc: Global, rows: &[&'a Row]) -> Result<Vec<&'a Row>, AllocError>
    ensures { IfOk result (λ v. v.items ≡ rows.now) }
{
    let mut out = Vec::new(alloc);
    for row in rows {
        out.push(*row)?;
    }
    Ok(out)
}

// The order of a row's value at a place and another value.
fn compare_with(place: usize, row: &Row, value: &Value) -> Ordering
    ensures { result ≡ value_cmp (cell place row.now) value.now }
{
    cmp_binary(value_at(row.as_slice(), place).get(), value)
}

// The order of two rows by their values at a place.
fn compare_at(place: usize, a: &Row, b: &Row) -> Ordering
    ensures { result ≡ value_cmp (cell place a.now) (cell place b.now) }
{
    compare_with(place, a, value_at(b.as_slice(), place).get())
}

impl<'a> Index<'a> {
    /// Rows by their values at a place.
    pub(crate) fn new(
        alloc: Global,
        place: usize,
        rows: &[&'a Row],
    ) -> Result<Index<'a>, AllocError>
        ensures { IfOk result (λ index. IsIndexOf place (map row_there rows.now) index) }
    {
        let mut rows = copies(alloc, rows)?;
        // The sort is stable: rows of one value keep their order.
        rows.sort_by(|a, b| compare_at(place, a, b))?;
        Ok(Index { place, rows })
    }

    /// The rows that have a value at the place, as they came: none for NULL, which is equal to nothing.
    pub(crate) fn equal_to(&self, value: &Value) -> &[&'a Row]
        requires { IsInOrder self.now }
        ensures { result.now ≡ filter (λ r. is_equal value.now (at_place self.now.place r)) self.now.rows.items }
    {
        let rows = self.rows.as_slice();
        if is_null(value) {
            return &rows[..0];
        }
        let is_below = |row: &&Row| compare_with(self.place, row, value).is_lt();
        let is_found = |row: &&Row| compare_with(self.place, row, value).is_eq();
        let start = rows.partition_point(is_below);
        let rest = &rows[start..];
        let count = rest.partition_point(is_found);
        &rest[..count]
    }
}
