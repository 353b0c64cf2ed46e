//! What an expression is evaluated over.

use cr_host::functions::Functions;
use cr_lattice::table::Row;
use cr_value::value::Value;

/// What an expression is evaluated over. A combination is one row: the columns of the tables in FROM, one after another.
#[derive(Clone, Copy, Drop)]
pub struct Given<'a> {
    /// The combination; none where a group's values are asked for.
    pub row: &'a [Value],
    /// The values of the parameters, from number 1 on.
    pub params: &'a [Value],
    /// The combinations of the group; none outside of groups.
    pub group: &'a [Row],
    /// The values that the group shows for its terms.
    pub shown: &'a [Value],
}

/// Functions and collations, with what they mean as one record.
pub trait Hosted: Functions {
    ghost use Rattle.cr_scalar.specs.Host.{Host};

    /// What the functions and collations mean, by name.
    ghost means: { Self → Host };
}

impl<F: Functions> Hosted for F {
    ghost use Rattle.cr_scalar.specs.Host.{host};

    ghost means = { λ f. host (F.function_of f) (F.scalar f) (F.step f) (F.finish f) (F.order_of f) };
}
