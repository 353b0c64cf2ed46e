//! INSERT.

ghost use Rattle.std.specs.Prelude.{◌≡◌, [], map, IfOk};
ghost use Rattle.std.specs.Option.{option_map};
ghost use Rattle.std.specs.List.{flat_map};
ghost use Rattle.cr_host.specs.declared.meaning.Action.TheVariants as action;
ghost use Rattle.cr_term.specs.declared.query.Resolved.TheVariants as r;
ghost use Rattle.cr_questions.specs.Questions.{ask, asked_all, first_denied, left, left_insert, questions};
ghost use Rattle.cr_questions.specs.Asked.{or_first_denied, told};

use crate::asking::is_ignored;
use cr_allowed::left::left_all;
use cr_build::copy::copy_relation;
use cr_host::meaning::Action;
use cr_questions::answering::Answering;
use cr_questions::denied::{or_any_denied, or_question_denied};
use cr_questions::question::Asked;
use cr_questions::sources::Sources;
use cr_term::expr::Expr;
use cr_term::query::Insert;
use sqlite_items::Items;
use std::alloc::{AllocError, Global};

// The question about an INSERT itself.
fn question_of(insert: &Insert) -> Asked<'_>
    ensures { told result ≡ ask action.Insert insert.now.relation.definition.name [] }
{
    Asked {
        action: Action::Insert,
        a: insert.relation.definition.name.as_str(),
        b: "",
    }
}

// What was found, else the first question of rows that is denied.
#[tactic(auto, unfolding(cr_questions::specs::Asked::or_first_denied), using(cr_questions::proofs::Firsts::or_none))]
fn or_rows_denied<'a, G: Answering>(
    mut found: Option<Asked<'a>>,
    guard: &G,
    rows: &'a [Items<Expr>],
) -> Option<Asked<'a>>
    requires { G.is_faithful guard.now }
    ensures { option_map told result ≡ or_first_denied (G.answers guard.now) (option_map told found.entry) (flat_map (asked_all []) rows.now) }
{
    for row in rows {
        found = or_any_denied(found, guard, Sources::Empty, row.as_slice());
    }
    found
}

/// The first question of an INSERT that is denied: about the INSERT, and the calls in its rows. It asks none behind it, which no clause
/// can say.
pub fn insert_denied<'a, G: Answering>(guard: &G, insert: &'a Insert) -> Option<Asked<'a>>
    requires { G.is_faithful guard.now }
    ensures { option_map told result ≡ first_denied (G.answers guard.now) (questions (r.Insert insert.now)) }
{
    let found = or_question_denied(None, guard, question_of(insert));
    or_rows_denied(found, guard, insert.rows.as_slice())
}

// What is left of rows.
fn left_rows<G: Answering>(
    alloc: Global,
    guard: &G,
    rows: &[Items<Expr>],
) -> Result<Items<Items<Expr>>, AllocError>
    requires { G.is_faithful guard.now }
    ensures { IfOk result (λ xs. xs ≡ map (map (left (G.answers guard.now) [])) rows.now) }
{
    let mut lefts = Vec::new(alloc);
    for row in rows {
        lefts.push(left_all(alloc, guard, Sources::Empty, row.as_slice())?)?;
    }
    Ok(Items::from_vec(lefts))
}

/// What is left of an INSERT: NULL in the place of each call that the authorizer ignores, and whether it ignores the INSERT.
///
/// # Errors
/// Where memory runs out.
pub fn left_insert<G: Answering>(
    alloc: Global,
    guard: &G,
    insert: &Insert,
) -> Result<Insert, AllocError>
    requires { G.is_faithful guard.now }
    ensures { IfOk result (λ i. i ≡ left_insert (G.answers guard.now) insert.now) }
{
    let is_ignored = is_ignored(guard, question_of(insert));
    let relation = copy_relation(alloc, &insert.relation)?;
    let columns = Items::from_slice(alloc, insert.columns.as_slice())?;
    let rows = left_rows(alloc, guard, insert.rows.as_slice())?;
    Ok(Insert {
        relation,
        columns,
        rows,
        is_ignored,
    })
}
