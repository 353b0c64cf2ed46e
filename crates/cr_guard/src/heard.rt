//! What a listener hears: which rows appeared, which went, and which show other values.

ghost use Rattle.std.specs.Prelude.{◌≡◌, ◌↔◌, ℕ, List, map, find, IfOk, IsTrue};
ghost use Rattle.std.specs.List.{flat_map, AllByRecursion};
ghost use Rattle.std.specs.List.Sorted.{IsStrictlySortedBy};
ghost use Rattle.std.specs.Option.{option_copied};
ghost use Rattle.cr_value.specs.declared.value.Value.{Value};
ghost use Rattle.cr_value.specs.Order.{bytes_cmp};
ghost use Rattle.cr_lattice.specs.Check.{same_bytes};
ghost use Rattle.cr_delta.specs.Key.{HasKey};
ghost use Rattle.cr_guard.specs.Heard.{AreByKey, HasRowsByKey, are_rising, became, event, keys_of_both, heard, heard_of};

use crate::event::{Event, EventKind};
use cr_delta::key::{are_keyed, in_order, keys_of};
use cr_lattice::table::{Items, Row, TableDef};
use cr_value::order::cmp_bytes;
use cr_value::text::Bytes;
use std::alloc::{AllocError, Global};

/// The rows of a table at two times, each by the bytes of their packed keys.
#[derive(Debug, Drop)]
pub struct TableRows {
    pub definition: TableDef,
    pub before: Items<Row>,
    pub after: Items<Row>,
}

fn became(before: Option<&Row>, after: Option<&Row>) -> Option<EventKind>
    ensures { result ≡ became (option_copied before.entry) (option_copied after.entry) }
{
    match (before, after) {
        (None, None) => None,
        (None, Some(_)) => Some(EventKind::Appeared),
        (Some(_), None) => Some(EventKind::Gone),
        (Some(before), Some(after)) => {
            if before == after {
                None
            } else {
                Some(EventKind::Changed)
            }
        }
    }
}

fn keys_of_both(
    alloc: Global,
    def: &TableDef,
    before: &[Row],
    after: &[Row],
) -> Result<Vec<Bytes>, AllocError>
    requires before { AllByRecursion (HasKey def.now) before.now }
    requires after { AllByRecursion (HasKey def.now) after.now }
    ensures { IfOk result (λ keys. keys.items ≡ keys_of_both def.now before.now after.now) }
{
    let mut keys = keys_of(alloc, def, before)?;
    let mut others = keys_of(alloc, def, after)?;
    keys.append(&mut others)?;
    in_order(keys)
}

// Whether each key is below the next.
fn are_rising(keys: &[Bytes]) -> bool
    ensures { result ≡ are_rising keys.now }
{
    let mut rest = keys;
    while let [first, others @ ..] = rest {
        let [second, ..] = others else {
            return true;
        };
        if !cmp_bytes(first.as_slice(), second.as_slice()).is_lt() {
            return false;
        }
        rest = others;
    }
    true
}

/// Whether each row has a key that can be packed, and the rows stand by the bytes of their packed keys. Fails for want of
/// memory alone.
pub fn are_by_key(alloc: Global, def: &TableDef, rows: &[Row]) -> Result<bool, AllocError>
    ensures { IfOk result (λ b. IsTrue b ↔ AreByKey def.now rows.now) }
{
    if !are_keyed(alloc, def, rows)? {
        return Ok(false);
    }
    let keys = keys_of(alloc, def, rows)?;
    Ok(are_rising(&keys))
}

/// Whether that is so of the rows of each table. Fails for want of memory alone.
pub fn have_rows_by_key(alloc: Global, tables: &[TableRows]) -> Result<bool, AllocError>
    ensures { IfOk result (λ b. IsTrue b ↔ AllByRecursion HasRowsByKey tables.now) }
{
    for table in tables {
        if !are_by_key(alloc, &table.definition, table.before.as_slice())?
            || !are_by_key(alloc, &table.definition, table.after.as_slice())?
        {
            return Ok(false);
        }
    }
    Ok(true)
}

// The row under a key, by halving, where these are the keys of the rows.
fn find_row<'a>(keys: &[Bytes], rows: &'a [Row], pk: &Bytes) -> Option<&'a Row>
    requires { IsStrictlySortedBy bytes_cmp keys.now }
    ensures { (key : List Value → List ℕ) → keys.now ≡ map key rows.now → option_copied result ≡ find (λ row. same_bytes (key row) pk.now) rows.now }
{
    match keys.binary_search(pk) {
        Ok(place) => rows.get(place),
        Err(_) => None,
    }
}

fn event(alloc: Global, def: &TableDef, pk: &Bytes, kind: EventKind) -> Result<Event, AllocError>
    ensures { IfOk result (λ e. e ≡ event def.now.name pk.now kind) }
{
    Ok(Event {
        kind,
        table: def.name.copy(alloc)?,
        pk: pk.copy(alloc)?,
    })
}

/// What a listener hears of a table whose rows were those before and are those after: for each key, by the bytes of the
/// packed keys, that its row appeared, that it went, or that it shows other values. Of a row that stayed as it was it hears
/// nothing. Both lists are in the order of their keys, as `cr_lattice::rows::rows` gives them. Takes time in proportion to
/// n log n for n rows. Fails for want of memory alone. This project's own.
#[tactic(auto, unfolding(crate::specs::Heard::heard))]
pub fn heard(
    alloc: Global,
    def: &TableDef,
    before: &[Row],
    after: &[Row],
) -> Result<Vec<Event>, AllocError>
    requires before { AreByKey def.now before.now }
    requires after { AreByKey def.now after.now }
    ensures { IfOk result (λ events. events.items ≡ heard def.now before.now after.now) }
{
    let before_keys = keys_of(alloc, def, before)?;
    let after_keys = keys_of(alloc, def, after)?;
    let keys = keys_of_both(alloc, def, before, after)?;
    let mut events = Vec::new(alloc);
    for pk in &keys {
        let was = find_row(&before_keys, before, pk);
        let is = find_row(&after_keys, after, pk);
        if let Some(kind) = became(was, is) {
            events.push(event(alloc, def, pk, kind)?)?;
        }
    }
    Ok(events)
}

/// What a listener hears of several tables, in their order: where they stand by the bytes of their names, the events
/// stand by table and then by key.
pub fn heard_of_tables(alloc: Global, tables: &[TableRows]) -> Result<Vec<Event>, AllocError>
    requires { AllByRecursion HasRowsByKey tables.now }
    ensures { IfOk result (λ events. events.items ≡ flat_map heard_of tables.now) }
{
    let mut events = Vec::new(alloc);
    for table in tables {
        let mut more = heard(
            alloc,
            &table.definition,
            table.before.as_slice(),
            table.after.as_slice(),
        )?;
        events.append(&mut more)?;
    }
    Ok(events)
}
