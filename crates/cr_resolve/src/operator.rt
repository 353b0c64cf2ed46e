//! What an operator makes of its two operands.

ghost use Rattle.std.specs.Prelude.{◌≡◌, IfOk};
ghost use Rattle.cr_resolve.specs.Reading.{with_both};
ghost use Rattle.cr_resolve.specs.Told.{told};
ghost use Rattle.cr_resolve.specs.Operators.{operation_of, combine, Operates};

use crate::comparing::compared;
use crate::naming::Naming;
use crate::node::{arithmetic, join, like, logic};
use crate::reading::Made;
use crate::refusal::Refusal;
use cr_term::expr::Expr;
use cr_term::operator::{Arithmetic, Comparison, Logic};
use cr_tree::expr::Binary;
use std::alloc::{AllocError, Global};

// An operator that takes no collation from its operands.
#[derive(Clone, Copy)]
enum Combination {
    Logic(Logic),
    /// LIKE, negated or not.
    Like(bool),
    Arithmetic(Arithmetic),
    Join,
}

// What an operator does: it compares, or it does not.
#[derive(Clone, Copy)]
enum Operation {
    Comparison(Comparison),
    Combination(Combination),
}

// What an operator does.
fn operation_of(op: Binary) -> Operation
    ensures { result ≡ operation_of op }
{
    match op {
        Binary::Or => Operation::Combination(Combination::Logic(Logic::Or)),
        Binary::And => Operation::Combination(Combination::Logic(Logic::And)),
        Binary::Equal => Operation::Comparison(Comparison::Equal),
        Binary::Unequal => Operation::Comparison(Comparison::Unequal),
        Binary::Is => Operation::Comparison(Comparison::Is),
        Binary::IsNot => Operation::Comparison(Comparison::IsNot),
        Binary::Like => Operation::Combination(Combination::Like(false)),
        Binary::NotLike => Operation::Combination(Combination::Like(true)),
        Binary::Less => Operation::Comparison(Comparison::Less),
        Binary::AtMost => Operation::Comparison(Comparison::AtMost),
        Binary::Greater => Operation::Comparison(Comparison::Greater),
        Binary::AtLeast => Operation::Comparison(Comparison::AtLeast),
        Binary::Add => Operation::Combination(Combination::Arithmetic(Arithmetic::Add)),
        Binary::Subtract => Operation::Combination(Combination::Arithmetic(Arithmetic::Subtract)),
        Binary::Multiply => Operation::Combination(Combination::Arithmetic(Arithmetic::Multiply)),
        Binary::Divide => Operation::Combination(Combination::Arithmetic(Arithmetic::Divide)),
        Binary::Remainder => Operation::Combination(Combination::Arithmetic(Arithmetic::Remainder)),
        Binary::Join => Operation::Combination(Combination::Join),
    }
}

// What an operator that compares nothing makes of its operands.
fn combined(
    alloc: Global,
    op: Combination,
    left: Made<Expr>,
    right: Made<Expr>,
) -> Result<Made<Expr>, AllocError>
    ensures { IfOk result (λ m. told m ≡ with_both (combine op) (told left) (told right)) }
{
    match op {
        Combination::Logic(op) => logic(alloc, op, left, right),
        Combination::Like(is_negated) => like(alloc, is_negated, left, right),
        Combination::Arithmetic(op) => arithmetic(alloc, op, left, right),
        Combination::Join => join(alloc, left, right),
    }
}

/// What an operator makes of its two operands.
///
/// # Errors
/// `NoSuchCollation` just where the operator compares and there is no collation of the name that the operands bring; `Memory`.
#[tactic(auto, using(crate::proofs::Operated::memory, crate::proofs::Operated::compares, crate::proofs::Operated::combines))]
pub fn binary<K: Naming>(
    alloc: Global,
    known: &K,
    op: Binary,
    left: Made<Expr>,
    right: Made<Expr>,
) -> Result<Made<Expr>, Refusal>
    ensures { Operates (K.known known.now) op left right result }
{
    match operation_of(op) {
        Operation::Comparison(op) => compared(alloc, known, op, left, right),
        Operation::Combination(op) => Ok(combined(alloc, op, left, right)?),
    }
}
