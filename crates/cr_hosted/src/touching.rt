//! Which statements touch modules.

ghost use Rattle.std.specs.Prelude.{◌≡◌, is_some};
ghost use Rattle.std.specs.List.{list_any};
ghost use Rattle.cr_snapshot.specs.Seen.{name_of};
ghost use Rattle.cr_modules.specs.States.{module_in};
ghost use Rattle.cr_language.specs.Sql.{target, view};
ghost use Rattle.cr_world.specs.Statement.{is_module_target};
ghost use Rattle.cr_world.specs.Statement.{touches};

use cr_module::module::Module;
use cr_modules::modules::{Modules, StandAll};
use cr_snapshot::changes::CHANGES;
use cr_term::query::{Held, Joined, Relation, Resolved};
use cr_value::order::same_bytes;

// Whether FROM names a module.
fn names_module<M: Module>(modules: &Modules<M>, joined: &[Joined]) -> bool
    ensures { result ≡ list_any (λ j. is_some (module_in (⟦<Modules<M> as StandAll>⟧.states modules.now) (name_of j))) joined.now }
{
    joined.iter().any(|source| modules.has(source.relation.definition.name.as_str()))
}

// Whether what is written to is a module of the host.
fn is_module(relation: &Relation) -> bool
    ensures { result ≡ is_module_target (target relation.now) }
{
    match relation.held {
        Held::Table(_, _) => false,
        Held::Module(_) => !same_bytes(
            relation.definition.name.as_str().as_bytes(),
            CHANGES.as_bytes(),
        ),
    }
}

/// Whether a statement writes to a module, or names one in FROM.
pub(crate) fn touches<M: Module>(modules: &Modules<M>, statement: &Resolved) -> bool
    ensures { result ≡ touches (⟦<Modules<M> as StandAll>⟧.states modules.now) (view statement.now) }
{
    match statement {
        Resolved::Select(query) => names_module(modules, query.joined.as_slice()),
        Resolved::MarkReplicated(mark) => is_module(&mark.relation),
        Resolved::Insert(insert) => is_module(&insert.relation),
        Resolved::Update(update) => is_module(&update.relation),
        Resolved::Delete(delete) => is_module(&delete.relation),
        Resolved::Alter(alter) => is_module(&alter.relation),
        Resolved::Create(_) | Resolved::Begin | Resolved::Commit | Resolved::Rollback => false,
    }
}
