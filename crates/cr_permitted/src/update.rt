//! UPDATE.

ghost use Rattle.std.specs.Prelude.{◌≡◌, ◌∷◌, [], IfOk};
ghost use Rattle.std.specs.Option.{option_map};
ghost use Rattle.std.specs.List.{flat_map};
ghost use Rattle.cr_term.specs.declared.query.Resolved.TheVariants as r;
ghost use Rattle.cr_questions.specs.Questions.{asked, first_denied, left_update, questions, update_of};
ghost use Rattle.cr_questions.specs.Asked.{or_first_denied, told};
ghost use Rattle.cr_permitted.specs.Assigned.{left_assignments};

use crate::asking::is_ignored;
use cr_allowed::left::{left, left_all};
use cr_build::copy::copy_relation;
use cr_host::meaning::Action;
use cr_questions::answering::Answering;
use cr_questions::asked::column_name;
use cr_questions::denied::{or_any_denied, or_denied, or_question_denied};
use cr_questions::question::Asked;
use cr_questions::sources::Sources;
use cr_term::query::{Assignment, Relation, Update};
use sqlite_items::Items;
use std::alloc::{AllocError, Global};

// The question about an assignment to a column.
fn question_of<'a>(relation: &'a Relation, assignment: &Assignment) -> Asked<'a>
    ensures { told result ≡ update_of relation.now assignment.now.column }
{
    Asked {
        action: Action::Update,
        a: relation.definition.name.as_str(),
        b: column_name(relation.definition.columns.as_slice(), assignment.column),
    }
}

// What was found, else the first question about an assignment that is denied.
#[tactic(auto, unfolding(cr_questions::specs::Asked::or_first_denied), using(cr_questions::proofs::Firsts::or_none))]
fn or_assigned_denied<'a, G: Answering>(
    mut found: Option<Asked<'a>>,
    guard: &G,
    relation: &'a Relation,
    assignments: &[Assignment],
) -> Option<Asked<'a>>
    requires { G.is_faithful guard.now }
    ensures { option_map told result ≡ or_first_denied (G.answers guard.now) (option_map told found.entry) (flat_map (λ a. update_of relation.now a.column ∷ []) assignments.now) }
{
    for assignment in assignments {
        found = or_question_denied(found, guard, question_of(relation, assignment));
    }
    found
}

// What was found, else the first question of the values of assignments that is denied.
#[tactic(auto, unfolding(cr_questions::specs::Asked::or_first_denied), using(cr_questions::proofs::Firsts::or_none))]
fn or_values_denied<'a, G: Answering>(
    mut found: Option<Asked<'a>>,
    guard: &G,
    relation: &'a Relation,
    assignments: &'a [Assignment],
) -> Option<Asked<'a>>
    requires { G.is_faithful guard.now }
    ensures { option_map told result ≡ or_first_denied (G.answers guard.now) (option_map told found.entry) (flat_map (λ a. asked (relation.now ∷ []) a.value) assignments.now) }
{
    for assignment in assignments {
        found = or_denied(found, guard, Sources::One(relation), &assignment.value);
    }
    found
}

/// The first question of an UPDATE that is denied: about its assignments, then about the columns and calls in their values and
/// in WHERE. It asks none behind it, which no clause can say.
pub fn update_denied<'a, G: Answering>(guard: &G, update: &'a Update) -> Option<Asked<'a>>
    requires { G.is_faithful guard.now }
    ensures { option_map told result ≡ first_denied (G.answers guard.now) (questions (r.Update update.now)) }
{
    let relation = &update.relation;
    let assignments = update.assignments.as_slice();
    let assigned = or_assigned_denied(None, guard, relation, assignments);
    let valued = or_values_denied(assigned, guard, relation, assignments);
    or_any_denied(
        valued,
        guard,
        Sources::One(relation),
        update.filter.as_slice(),
    )
}

// What is left of assignments: those to columns that the authorizer ignores are gone.
#[tactic(auto, using(crate::proofs::Kept::next_kept, crate::proofs::Kept::next_out))]
fn left_assignments<G: Answering>(
    alloc: Global,
    guard: &G,
    relation: &Relation,
    assignments: &[Assignment],
) -> Result<Items<Assignment>, AllocError>
    requires { G.is_faithful guard.now }
    ensures { IfOk result (λ xs. xs ≡ left_assignments (G.answers guard.now) relation.now assignments.now) }
{
    let mut lefts = Vec::new(alloc);
    for assignment in assignments {
        if !is_ignored(guard, question_of(relation, assignment)) {
            let value = left(alloc, guard, Sources::One(relation), &assignment.value)?;
            let column = assignment.column;
            lefts.push(Assignment { column, value })?;
        }
    }
    Ok(Items::from_vec(lefts))
}

/// What is left of an UPDATE: the assignments to columns that the authorizer does not ignore, with NULL in the place of each
/// column and each call that it ignores.
///
/// # Errors
/// Where memory runs out.
pub fn left_update<G: Answering>(
    alloc: Global,
    guard: &G,
    update: &Update,
) -> Result<Update, AllocError>
    requires { G.is_faithful guard.now }
    ensures { IfOk result (λ u. u ≡ left_update (G.answers guard.now) update.now) }
{
    let relation = copy_relation(alloc, &update.relation)?;
    let assignments = left_assignments(
        alloc,
        guard,
        &update.relation,
        update.assignments.as_slice(),
    )?;
    let filter = left_all(
        alloc,
        guard,
        Sources::One(&update.relation),
        update.filter.as_slice(),
    )?;
    Ok(Update {
        relation,
        assignments,
        filter,
    })
}
