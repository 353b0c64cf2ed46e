//! What a CASE is, with what its parts are. The collations have to be there by which its operand is compared.

ghost use Rattle.std.specs.Prelude.{◌≡◌, ◌∷◌, ◌++◌, [], OnOk};
ghost use Rattle.cr_resolve.specs.Cases.{arms_read, MeetsArm, ArmMeets, ArmsMeet, IsCase, case_made};
ghost use Rattle.cr_resolve.specs.Reading.{fine, with_both};
ghost use Rattle.cr_resolve.specs.Told.{told};

use crate::comparing::meet;
use crate::naming::Naming;
use crate::reading::Made;
use crate::refusal::Refusal;
use cr_questions::operands::no_meeting;
use cr_term::expr::{Expr, When};
use cr_term::operator::Meeting;
use sqlite_items::{Boxed, Items};
use std::alloc::{AllocError, Global};

/// An arm's two expressions.
#[derive(Drop)]
pub struct Pair {
    pub when: Expr,
    pub gives: Expr,
}

/// The arms of a CASE that are read, in order, and whether an aggregate stands in one of them where none may.
#[derive(Drop)]
pub struct Arms {
    pub pairs: Vec<Pair>,
    pub is_misplaced: bool,
}

impl Arms {
    pub fn new(alloc: Global) -> Arms
        ensures { told (arms_read result) ≡ fine [] }
    {
        Arms {
            pairs: Vec::new(alloc),
            is_misplaced: false,
        }
    }

    /// Puts an arm behind the others. `AllocError` where memory runs out.
    pub fn push(&mut self, when: Made<Expr>, gives: Made<Expr>) -> Result<(), AllocError>
        ensures { OnOk result (told (arms_read self.new) ≡ with_both (λ ps p. ps ++ p ∷ []) (told (arms_read self.old)) (with_both (λ x y. record { when = x; gives = y }) (told when) (told gives))) }
    {
        self.pairs.push(Pair {
            when: when.made,
            gives: gives.made,
        })?;
        self.is_misplaced = self.is_misplaced || when.is_misplaced || gives.is_misplaced;
        Ok(())
    }
}

// How an arm meets the operand, if there is one.
#[tactic(auto, using(crate::proofs::Cases::arm_memory, crate::proofs::Cases::arm_meets, crate::proofs::Cases::arm_alone))]
fn meet_arm<K: Naming>(
    alloc: Global,
    known: &K,
    operand: &Option<Boxed<Expr>>,
    arm: &Pair,
) -> Result<Meeting, Refusal>
    ensures { MeetsArm (K.known known.now) operand.now arm.now result }
{
    match operand {
        Some(operand) => meet(alloc, known, operand.get(), &arm.when),
        None => Ok(no_meeting(alloc)?),
    }
}

// An arm, with how it meets the operand, if there is one.
#[tactic(auto, using(crate::proofs::Cases::arm_made, crate::proofs::Cases::arm_unmet))]
fn met<K: Naming>(
    alloc: Global,
    known: &K,
    operand: &Option<Boxed<Expr>>,
    arm: Pair,
) -> Result<When, Refusal>
    ensures { ArmMeets (K.known known.now) operand.now arm result }
{
    let meeting = meet_arm(alloc, known, operand, &arm);
    meeting.map(|meeting| When {
        meeting,
        when: arm.when,
        then: arm.gives,
    })
}

// The arms, with how each meets the operand, if there is one.
#[tactic(auto, using(crate::proofs::Cases::arms_memory, crate::proofs::Cases::no_arms, crate::proofs::Cases::one_more))]
fn meet_arms<K: Naming>(
    alloc: Global,
    known: &K,
    operand: &Option<Boxed<Expr>>,
    pairs: Vec<Pair>,
) -> Result<Items<When>, Refusal>
    ensures { ArmsMeet (K.known known.now) operand.now pairs.items result }
{
    let mut arms = Items::new(alloc);
    for arm in pairs {
        arms.push(met(alloc, known, operand, arm)?)?;
    }
    Ok(arms)
}

// A CASE, with how its arms meet its operand.
fn case_made(
    operand: Made<Option<Boxed<Expr>>>,
    arms: Items<When>,
    has_misplaced_arm: bool,
    otherwise: Made<Option<Boxed<Expr>>>,
) -> Made<Expr>
    ensures { told result ≡ case_made operand arms has_misplaced_arm otherwise }
{
    Made {
        made: Expr::Case(operand.made, arms, otherwise.made),
        is_misplaced: (operand.is_misplaced || has_misplaced_arm) || otherwise.is_misplaced,
    }
}

/// A CASE of an operand, if there is one, of arms, and of what stands after ELSE, if something does.
///
/// # Errors
/// `NoSuchCollation` of the first arm where there is no collation of the name that it and the operand bring; `Memory`.
#[tactic(auto, using(crate::proofs::Cases::memory, crate::proofs::Cases::refused, crate::proofs::Cases::is_case))]
pub fn case<K: Naming>(
    alloc: Global,
    known: &K,
    operand: Made<Option<Boxed<Expr>>>,
    arms: Arms,
    otherwise: Made<Option<Boxed<Expr>>>,
) -> Result<Made<Expr>, Refusal>
    ensures { IsCase (K.known known.now) operand (arms_read arms) otherwise result }
{
    let has_misplaced_arm = arms.is_misplaced;
    let arms = meet_arms(alloc, known, &operand.made, arms.pairs)?;
    Ok(case_made(operand, arms, has_misplaced_arm, otherwise))
}
