//! How a statement is refused that is not resolved.

ghost use Rattle.std.specs.Prelude.{◌≡◌};
ghost use Rattle.cr_language.specs.Sql.{of_limit, of_outside, of_unresolved};

use cr_resolve::refusal::{Limit as DefinitionLimit, Outside, Refusal as Unresolved};
use cr_world::refusal::{Limit, OutOfProfile, Refusal};

fn of_outside(outside: Outside) -> OutOfProfile
    ensures { result ≡ of_outside outside }
{
    match outside {
        Outside::Real => OutOfProfile::Real,
        Outside::PrimaryKey => OutOfProfile::PrimaryKey,
        Outside::Collate => OutOfProfile::Collate,
        Outside::RowCid => OutOfProfile::RowCid,
        Outside::Default => OutOfProfile::Default,
        Outside::Distinct => OutOfProfile::Distinct,
    }
}

fn of_limit(limit: DefinitionLimit) -> Limit
    ensures { result ≡ of_limit limit }
{
    match limit {
        DefinitionLimit::Columns => Limit::Columns,
        DefinitionLimit::KeyColumns => Limit::KeyColumns,
    }
}

/// How a statement is refused that is not resolved, by what stands against it.
pub fn of_unresolved(refusal: Unresolved) -> Refusal
    ensures { result ≡ of_unresolved refusal }
{
    match refusal {
        Unresolved::OutOfProfile(outside) => Refusal::OutOfProfile(of_outside(outside)),
        Unresolved::Limit(limit) => Refusal::Limit(of_limit(limit)),
        Unresolved::BadName(name) => Refusal::BadName(name),
        Unresolved::NoSuchTable(name) => Refusal::NoSuchTable(name),
        Unresolved::NoSuchColumn(name) => Refusal::NoSuchColumn(name),
        Unresolved::AmbiguousColumn(name) => Refusal::AmbiguousColumn(name),
        Unresolved::NoSuchFunction(name) => Refusal::NoSuchFunction(name),
        Unresolved::WrongArity(name) => Refusal::WrongArity(name),
        Unresolved::NoSuchCollation(name) => Refusal::NoSuchCollation(name),
        Unresolved::Misaggregate => Refusal::Misaggregate,
        Unresolved::TableExists(name) => Refusal::TableExists(name),
        Unresolved::Denied(question) => Refusal::Denied(question.action, question.a, question.b),
        Unresolved::Memory => Refusal::Memory,
    }
}
