//! CREATE TABLE and ALTER TABLE, of which IGNORE takes nothing.

ghost use Rattle.std.specs.Prelude.{◌≡◌, IfOk};
ghost use Rattle.std.specs.Option.{option_map};
ghost use Rattle.cr_term.specs.declared.query.Resolved.TheVariants as r;
ghost use Rattle.cr_questions.specs.Questions.{first_denied, questions};
ghost use Rattle.cr_questions.specs.Asked.{told};

use cr_build::copy::copy_relation;
use cr_host::meaning::Action;
use cr_questions::answering::Answering;
use cr_questions::denied::or_question_denied;
use cr_questions::question::Asked;
use cr_term::query::{Alter, Create};
use std::alloc::{AllocError, Global};

/// The question about a CREATE TABLE, if it is denied.
#[tactic(auto, using(crate::proofs::InOrder::from_nothing))]
pub fn create_denied<'a, G: Answering>(guard: &G, create: &'a Create) -> Option<Asked<'a>>
    requires { G.is_faithful guard.now }
    ensures { option_map told result ≡ first_denied (G.answers guard.now) (questions (r.Create create.now)) }
{
    let question = Asked {
        action: Action::CreateTable,
        a: create.definition.name.as_str(),
        b: "",
    };
    or_question_denied(None, guard, question)
}

/// The question about an ALTER TABLE, if it is denied.
#[tactic(auto, using(crate::proofs::InOrder::from_nothing))]
pub fn alter_denied<'a, G: Answering>(guard: &G, alter: &'a Alter) -> Option<Asked<'a>>
    requires { G.is_faithful guard.now }
    ensures { option_map told result ≡ first_denied (G.answers guard.now) (questions (r.Alter alter.now)) }
{
    let question = Asked {
        action: Action::AlterTable,
        a: alter.relation.definition.name.as_str(),
        b: "",
    };
    or_question_denied(None, guard, question)
}

/// The same CREATE TABLE. `AllocError` where memory runs out.
pub(crate) fn copy_create(alloc: Global, create: &Create) -> Result<Create, AllocError>
    ensures { IfOk result (λ c. c ≡ create.now) }
{
    Ok(Create {
        definition: create.definition.copy(alloc)?,
        is_there: create.is_there,
    })
}

/// The same ALTER TABLE. `AllocError` where memory runs out.
pub(crate) fn copy_alter(alloc: Global, alter: &Alter) -> Result<Alter, AllocError>
    ensures { IfOk result (λ a. a ≡ alter.now) }
{
    let relation = copy_relation(alloc, &alter.relation)?;
    let column = alter.column.copy(alloc)?;
    Ok(Alter { relation, column })
}
