//! What tells the values of the columns of a combination.

ghost use Rattle.std.specs.Prelude.{◌≡◌, IfOk};
ghost use Rattle.cr_sought.specs.Sought.{alone, given_first, pinned, tells};

use crate::beside::Beside;
use crate::pin::pinned;
use cr_term::expr::Expr;
use cr_value::value::Value;
use std::alloc::{AllocError, Global};

/// A column, by its place in a combination, that is taken to have a value.
#[derive(Clone, Copy, Drop)]
pub(crate) struct Given<'a> {
    pub(crate) at: usize,
    pub(crate) value: &'a Value,
}

/// Terms beside a row of another table, and a column that is given.
#[derive(Clone, Copy, Drop)]
pub(crate) struct Telling<'a, 'g> {
    pub(crate) beside: Beside<'a>,
    /// The parameters' values, from number 1 on.
    pub(crate) params: &'a [Value],
    pub(crate) terms: &'a [Expr],
    pub(crate) given: Option<Given<'g>>,
}

impl<'a, 'g> Telling<'a, 'g> {
    /// Without a row of another table.
    pub(crate) fn alone(
        params: &'a [Value],
        terms: &'a [Expr],
        given: Option<Given<'g>>,
    ) -> Telling<'a, 'g>
        ensures { tells result ≡ given_first given.entry (pinned alone params.now terms.now) }
    {
        let beside = Beside { start: 0, row: &[] };
        Telling {
            beside,
            params,
            terms,
            given,
        }
    }
}

/// The value that the column at a place is told to have. Fails for want of memory alone.
pub(crate) fn told(
    alloc: Global,
    telling: &Telling<'_, '_>,
    at: usize,
) -> Result<Option<Value>, AllocError>
    ensures { IfOk result (λ o. o ≡ tells telling.now at) }
{
    if let Some(given) = &telling.given {
        if given.at == at {
            return Ok(Some(given.value.copy(alloc)?));
        }
    }
    pinned(alloc, &telling.beside, telling.params, telling.terms, at)
}
