//! The ordinals of tables: their places in the list, counted from 1.

ghost use Rattle.std.specs.Prelude.{◌≡◌, ◌+◌, ◌<◌, pos, length, position, IfSome};
ghost use Rattle.std.specs.Option.{option_map};
ghost use Rattle.cr_cells.specs.Tables.{is_named};
ghost use Rattle.cr_store.specs.Ordinals.{ordinal, place_of, name_at};

use cr_lattice::table::Table;
use cr_value::order::same_bytes;
use cr_value::text::Text;

fn is_named(table: &Table, name: &str) -> bool
    ensures { result ≡ is_named name.now table.now }
{
    same_bytes(table.definition.name.as_str().as_bytes(), name.as_bytes())
}

// Tables are counted from 1.
pub(crate) fn next_ordinal(tables: &[Table]) -> i64
    ensures { result ≡ pos (1 + length tables.now) }
{
    tables.len() as i64 + 1
}

fn place(tables: &[Table], name: &str) -> Option<usize>
    ensures is { result ≡ position (is_named name.now) tables.now }
    ensures within { IfSome result (λ place. place < length tables.now) }
{
    tables.iter().position(|table| is_named(table, name))
}

/// The ordinal of the table of a name; that of the next table, where none has it.
pub(crate) fn ordinal(tables: &[Table], name: &str) -> i64
    ensures { result ≡ ordinal tables.now name.now }
{
    match place(tables, name) {
        Some(place) => next_ordinal(&tables[..place]),
        None => next_ordinal(tables),
    }
}

fn place_of(ordinal: i64) -> Option<usize>
    ensures { result ≡ place_of ordinal }
{
    usize::try_from(ordinal).ok()?.checked_sub(1)
}

/// The name of the table of an ordinal, if it is one's.
pub(crate) fn name_at<'a>(tables: &'a [Table], ordinal: i64) -> Option<&'a Text>
    ensures { option_map (λ name. name.now) result ≡ name_at tables.now ordinal }
{
    let table = tables.get(place_of(ordinal)?)?;
    Some(&table.definition.name)
}
