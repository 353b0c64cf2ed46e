//! The formats of a store.

/// How a store lies in its tables. In the first the cells lie in `cr_cell` and name their tables; in the second they lie in
/// `cr_cell2`, by the ordinals of their tables, and `cr_cell` is empty.
#[derive(Clone, Copy, Debug)]
pub(crate) enum Format {
    First,
    Second,
}
