//! Which column a name means.

ghost use Rattle.std.specs.Prelude.{◌≡◌, ◌++◌, IfOk, OnOk};
ghost use Rattle.cr_resolve.specs.Scope.{is_of, named_from, fitting, told_name, column};
ghost use Rattle.cr_resolve.specs.Told.{Finds};

use crate::refusal::Refusal;
use cr_lattice::table::ColumnDef;
use cr_term::expr::{Column, Expr};
use cr_term::query::Relation;
use cr_value::text::Text;
use std::alloc::{AllocError, Global};

/// A table in FROM, under the one name that it is known by.
#[derive(Debug, Drop)]
pub struct Source {
    pub name: Text,
    pub relation: Relation,
}

// Whether a source has that name, if one is written.
fn is_of(qualifier: &Option<Text>, source: &Text) -> bool
    ensures { result ≡ is_of qualifier.now source.now }
{
    match qualifier {
        Some(qualifier) => qualifier.as_str() == source.as_str(),
        None => true,
    }
}

// Appends the columns of that name among those of one source, whose first column has a place in a combination. So many
// columns that a place is no number of 64 bits are more than memory has.
fn push_named(
    alloc: Global,
    fitting: &mut Vec<Column>,
    columns: &[ColumnDef],
    source: usize,
    from: usize,
    name: &Text,
) -> Result<(), AllocError>
    ensures { OnOk result (fitting.new.items ≡ fitting.old.items ++ named_from name.now source 0 from columns.now) }
{
    for (place, column) in columns.iter().enumerate() {
        if name.as_str() == column.name.as_str() {
            fitting.push(Column {
                source,
                place,
                at: from.checked_add(place).ok_or(AllocError)?,
                affinity: column.affinity,
                collation: column.collation.copy(alloc)?,
            })?;
        }
    }
    Ok(())
}

// The columns that a name may mean.
#[tactic(auto, using(crate::proofs::InSight::source_named, crate::proofs::InSight::source_passed))]
fn fitting(
    alloc: Global,
    sources: &[Source],
    qualifier: &Option<Text>,
    name: &Text,
) -> Result<Vec<Column>, AllocError>
    ensures { IfOk result (λ cs. cs.items ≡ fitting sources.now qualifier.now name.now) }
{
    let mut fitting = Vec::new(alloc);
    let mut from = 0usize;
    for (number, source) in sources.iter().enumerate() {
        let columns = source.relation.definition.columns.as_slice();
        if is_of(qualifier, &source.name) {
            push_named(alloc, &mut fitting, columns, number, from, name)?;
        }
        from = from.checked_add(columns.len()).ok_or(AllocError)?;
    }
    Ok(fitting)
}

// A name as it is told, with its source's before it if that is written.
fn told_name(alloc: Global, qualifier: &Option<Text>, name: &Text) -> Result<Text, AllocError>
    ensures { IfOk result (λ t. t ≡ told_name qualifier.now name.now) }
{
    let Some(qualifier) = qualifier else {
        return name.copy(alloc);
    };
    let mut told = String::from_str(alloc, qualifier.as_str())?;
    told.push_str(".")?;
    told.push_str(name.as_str())?;
    Ok(Text::new(told))
}

/// The only column in sight of that name, and of the source of that name if one is written.
///
/// # Errors
/// `NoSuchColumn` just where there is none, `AmbiguousColumn` just where there are more than one; `Memory`.
pub fn column(
    alloc: Global,
    sources: &[Source],
    qualifier: &Option<Text>,
    name: &Text,
) -> Result<Expr, Refusal>
    ensures { Finds (column sources.now qualifier.now name.now) result }
{
    let mut fitting = fitting(alloc, sources, qualifier, name)?;
    let Some(column) = fitting.pop() else {
        return Err(Refusal::NoSuchColumn(told_name(alloc, qualifier, name)?));
    };
    if fitting.is_empty() {
        Ok(Expr::Column(column))
    } else {
        Err(Refusal::AmbiguousColumn(told_name(alloc, qualifier, name)?))
    }
}
