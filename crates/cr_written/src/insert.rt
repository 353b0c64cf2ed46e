//! An INSERT resolved whole.

ghost use Rattle.std.specs.Prelude.{◌≡◌, [], map, false};
ghost use Rattle.cr_resolve.specs.Expressions.{expr};
ghost use Rattle.cr_resolve.specs.Reading.{each};
ghost use Rattle.cr_resolve.specs.Told.{Finds, Reads};
ghost use Rattle.cr_resolve.specs.Writes.{insert as meant, insert_columns, insert_row, width};

use crate::parts::check_placed;
use crate::targets::{all_columns, targets};
use cr_lattice::table::TableDef;
use cr_resolve::expressions::expr;
use cr_resolve::known::table;
use cr_resolve::naming::Naming;
use cr_resolve::reading::Made;
use cr_resolve::refusal::Refusal;
use cr_term::expr::Expr;
use cr_term::query::Insert;
use cr_tree::expr::Expr as Tree;
use cr_tree::statement::Insert as InsertTree;
use cr_value::text::Text;
use sqlite_items::Items;
use std::alloc::Global;

// The places of the columns that get values: without a list of names all of them.
fn insert_columns(
    alloc: Global,
    definition: &TableDef,
    names: &Option<Items<Text>>,
) -> Result<Items<usize>, Refusal>
    ensures { Finds (insert_columns definition.now names.now) result }
{
    match names {
        Some(names) => targets(alloc, definition, names.as_slice()),
        None => Ok(all_columns(alloc, definition)?),
    }
}

// How many values a row has.
fn width(definition: &TableDef, names: &Option<Items<Text>>) -> usize
    ensures { result ≡ width definition.now names.now }
{
    match names {
        Some(names) => names.len(),
        None => definition.columns.as_slice().len(),
    }
}

// The values of a row, which see no column.
fn values<K: Naming>(alloc: Global, known: &K, row: &[Tree]) -> Result<Made<Items<Expr>>, Refusal>
    ensures { Reads (each (map (expr (K.known known.now) [] false) row.now)) result }
{
    let mut values = Made {
        made: Items::new(alloc),
        is_misplaced: false,
    };
    for tree in row {
        let value = expr(alloc, known, &[], false, tree)?;
        values.push(value)?;
    }
    Ok(values)
}

// A row: its width first, then its values.
fn insert_row<K: Naming>(
    alloc: Global,
    known: &K,
    table: &Text,
    width: usize,
    row: &[Tree],
) -> Result<Made<Items<Expr>>, Refusal>
    ensures { Reads (insert_row (K.known known.now) table.now width row.now) result }
{
    if row.len() != width {
        return Err(Refusal::WrongArity(table.copy(alloc)?));
    }
    values(alloc, known, row)
}

// The rows, one after another.
fn insert_rows<K: Naming>(
    alloc: Global,
    known: &K,
    table: &Text,
    width: usize,
    rows: &[Items<Tree>],
) -> Result<Made<Items<Items<Expr>>>, Refusal>
    ensures { Reads (each (map (insert_row (K.known known.now) table.now width) rows.now)) result }
{
    let mut made = Made {
        made: Items::new(alloc),
        is_misplaced: false,
    };
    for row in rows {
        let read = insert_row(alloc, known, table, width, row.as_slice())?;
        made.push(read)?;
    }
    Ok(made)
}

/// An INSERT whose names are resolved. Whether the authorizer ignores it is asked later: it is not ignored yet.
///
/// # Errors
/// The first of: `NoSuchTable`; of the columns, from left to right, `NoSuchColumn`, or `AmbiguousColumn` of one that stands
/// before; of the rows, one after another, `WrongArity` of one that has not as many values as there are columns, and what
/// stands against its values, which see no column; `Misaggregate` where some value has an aggregate. `Memory`.
#[tactic(none)]
pub fn insert<K: Naming>(alloc: Global, known: &K, insert: &InsertTree) -> Result<Insert, Refusal>
    ensures { Finds (meant (K.known known.now) insert.now) result }
{
    let relation = table(alloc, known, &insert.table)?;
    let columns = insert_columns(alloc, &relation.definition, &insert.columns)?;
    let width = width(&relation.definition, &insert.columns);
    let rows = insert_rows(alloc, known, &insert.table, width, insert.rows.as_slice())?;
    check_placed(rows.is_misplaced)?;
    Ok(Insert {
        relation,
        columns,
        rows: rows.made,
        is_ignored: false,
    })
}
