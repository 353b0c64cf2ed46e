//! The rows that a WHERE may keep: those on which its terms are true, and those on which one has a fault.

ghost use Rattle.std.specs.Prelude.{◌≡◌, not, filter, map, IfOk};
ghost use Rattle.cr_query.specs.Query.{all_true};
ghost use Rattle.cr_query.specs.Plans.{is_false};
ghost use Rattle.cr_meaning.specs.Meaning.{sized};
ghost use Rattle.cr_exec.specs.Scopes.{there};
ghost use Rattle.cr_pushdown.specs.Passing.{is_memory, passes};

use cr_exec::terms::{all_true, with_quiet_first};
use cr_expr::given::Hosted;
use cr_host::functions::Functions;
use cr_lattice::table::Row;
use cr_scalar::fault::EvalFault;
use cr_term::expr::Expr;
use cr_value::value::Value;
use std::alloc::{AllocError, Global};

fn is_memory(fault: &EvalFault) -> bool
    ensures { result ≡ is_memory fault.now }
{
    matches!(fault, EvalFault::Memory)
}

// Whether terms, the quiet ones first, are all true on a row, or have a fault before it is clear that they aren't.
fn passes<F: Functions>(
    alloc: Global,
    functions: &F,
    row: &[Value],
    terms: &[&Expr],
    params: &[Value],
) -> Result<bool, AllocError>
    requires { F.is_faithful functions.now }
    ensures { IfOk result (λ b. b ≡ not (is_false (all_true (sized (⟦<F as Hosted>⟧.means functions.now) params.now) (map there terms.now) row.now))) }
{
    match all_true(alloc, terms, row, functions, params) {
        Ok(are_true) => Ok(are_true),
        Err(fault) if is_memory(&fault) => Err(AllocError),
        // Whoever evaluates the terms of the rows that pass tells the fault.
        Err(_) => Ok(true),
    }
}

/// Those rows that a WHERE of these terms may keep: on which all are true, or one has a fault before it is clear that they aren't. A
/// value over the limit of 1,000,000 bytes is a fault.
///
/// `params` are the parameters' values, from number 1 on. Fails for want of memory alone.
pub fn passing<F: Functions>(
    alloc: Global,
    functions: &F,
    rows: Vec<Row>,
    terms: &[Expr],
    params: &[Value],
) -> Result<Vec<Row>, AllocError>
    requires { F.is_faithful functions.now }
    ensures { IfOk result (λ v. v.items ≡ filter (passes (⟦<F as Hosted>⟧.means functions.now) params.now terms.now) rows.items) }
{
    let ordered = with_quiet_first(alloc, terms)?;
    let mut out = Vec::new(alloc);
    for row in rows {
        if passes(alloc, functions, row.as_slice(), ordered.as_slice(), params)? {
            out.push(row)?;
        }
    }
    Ok(out)
}
