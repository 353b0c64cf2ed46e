//! An UPDATE resolved whole.

ghost use Rattle.std.specs.Prelude.{◌≡◌, ◌∷◌, []};
ghost use Rattle.std.specs.List.{list_any};
ghost use Rattle.std.specs.Str.{bytes_eq};
ghost use Rattle.cr_resolve.specs.Told.{Finds, Reads};
ghost use Rattle.cr_resolve.specs.Writes.{assignments, update as meant};
ghost use Rattle.cr_written.specs.Updates.{assignment};

use crate::parts::{check_placed, filter_of, source_of};
use crate::targets::target;
use cr_resolve::expressions::expr;
use cr_resolve::naming::Naming;
use cr_resolve::reading::Made;
use cr_resolve::refusal::Refusal;
use cr_resolve::scope::Source;
use cr_select::parts::either;
use cr_term::query::{Assignment, Update};
use cr_tree::statement::{Assignment as AssignmentTree, Update as UpdateTree};
use cr_value::text::Text;
use sqlite_items::Items;
use std::alloc::Global;
use std::slice;

// Whether a column of that name gets a value.
fn is_assigned(trees: &[AssignmentTree], name: &Text) -> bool
    ensures { result ≡ list_any (λ a. bytes_eq name.now a.column) trees.now }
{
    trees
        .iter()
        .any(|tree| name.as_str() == tree.column.as_str())
}

// An assignment over its table, whose column may have got a value before.
fn assignment<K: Naming>(
    alloc: Global,
    known: &K,
    source: &Source,
    is_repeated: bool,
    tree: &AssignmentTree,
) -> Result<Made<Assignment>, Refusal>
    ensures { Reads (assignment (K.known known.now) source.now is_repeated tree.now) result }
{
    let column = target(
        alloc,
        &source.relation.definition,
        is_repeated,
        &tree.column,
    )?;
    let value = expr(alloc, known, slice::from_ref(source), false, &tree.value)?;
    Ok(Made {
        made: Assignment {
            column,
            value: value.made,
        },
        is_misplaced: value.is_misplaced,
    })
}

// The assignments, one after another.
fn assignments<K: Naming>(
    alloc: Global,
    known: &K,
    source: &Source,
    trees: &[AssignmentTree],
) -> Result<Made<Items<Assignment>>, Refusal>
    ensures { Reads (assignments (K.known known.now) (source.now ∷ []) source.now.relation.definition [] trees.now) result }
{
    let mut made = Made {
        made: Items::new(alloc),
        is_misplaced: false,
    };
    for (number, tree) in trees.iter().enumerate() {
        let is_repeated = is_assigned(&trees[..number], &tree.column);
        let read = assignment(alloc, known, source, is_repeated, tree)?;
        made.push(read)?;
    }
    Ok(made)
}

/// An UPDATE whose names are resolved.
///
/// # Errors
/// The first of: `NoSuchTable`; of the assignments, one after another, `NoSuchColumn`, or `AmbiguousColumn` of a column that
/// got a value before, and what stands against the value; what stands against WHERE; `Misaggregate` where an aggregate
/// stands in it. `Memory`.
#[tactic(none)]
pub fn update<K: Naming>(alloc: Global, known: &K, update: &UpdateTree) -> Result<Update, Refusal>
    ensures { Finds (meant (K.known known.now) update.now) result }
{
    let source = source_of(alloc, known, &update.table)?;
    let values = assignments(alloc, known, &source, update.assignments.as_slice())?;
    let filter = filter_of(alloc, known, &source, &update.filter)?;
    check_placed(either(values.is_misplaced, filter.is_misplaced))?;
    Ok(Update {
        relation: source.relation,
        assignments: values.made,
        filter: filter.made,
    })
}
