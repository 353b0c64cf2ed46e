//! The rows that kept changes show, one key after another.

ghost use Rattle.std.specs.Prelude.{◌≡◌, false, length, IfOk, OnErr, OnOk};
ghost use Rattle.std.specs.List.Sorted.{IsSortedBy};
ghost use Rattle.cr_lattice.specs.Rows.{cell, has_lesser_key, rows};
ghost use Rattle.cr_module.specs.Lawful.{first_row, head_value, is_at_end, rest_of};
ghost use Rattle.cr_tables.specs.Shown.{first_group, first_key, is_shown, key_values};

use cr_lattice::change::Change;
use cr_lattice::rows::{column_value, is_present, key_value};
use cr_lattice::table::{ColumnDef, TableDef};
use cr_value::order::same_bytes;
use cr_value::packing::unpack;
use cr_value::value::Value;
use std::alloc::{AllocError, Global};
use std::marker::Model;

/// Where a reading of a replicated table stands: on the changes of a key whose row is present, or at its end.
#[derive(Drop)]
pub struct Shown<'a> {
    def: &'a TableDef,
    group: &'a [Change],
    later: &'a [Change],
    key: Vec<Value>,
}

impl<'a> Model for Shown<'a> {
    ghost use Rattle.std.specs.Prelude.{List, ◌++◌};
    ghost use Rattle.cr_lattice.specs.Rows.{rows};
    ghost use Rattle.cr_query.specs.Query.{Row as Values};
    ghost use Rattle.cr_tables.specs.Shown.{Stands};

    ghost Value = { List Values };

    ghost view = { λ s. rows (s.group.now ++ s.later.now) s.def.now };

    ghost invariant = { λ s. Stands s.def.now.name s.group.now s.later.now s.key.items };
}

/// How many changes at the front are of the first key.
pub fn group_length(changes: &[Change]) -> usize
    ensures { result ≡ length (first_group changes.now) }
{
    let Some(first) = changes.first() else {
        return 0;
    };
    let mut count = 0;
    while count < changes.len() && same_bytes(changes[count].pk.as_slice(), first.pk.as_slice()) {
        count += 1;
    }
    count
}

// Whether some change speaks of a row that is present.
fn is_shown(table: &str, group: &[Change]) -> bool
    ensures { result ≡ is_shown table.now group.now }
{
    group.iter().any(|change| is_present(change, table))
}

// The values of the key that changes are of.
fn key_values(alloc: Global, group: &[Change]) -> Result<Vec<Value>, AllocError>
    ensures { IfOk result (λ v. v.items ≡ key_values group.now) }
{
    let Some(first) = group.first() else {
        return Ok(Vec::new(alloc));
    };
    match unpack(alloc, first.pk.as_slice())? {
        Some(values) => Ok(values),
        None => Ok(Vec::new(alloc)),
    }
}

/// A reading of the rows that changes show, which stand by their keys.
///
/// # Errors
/// Want of memory.
pub fn read_shown<'a>(
    alloc: Global,
    def: &'a TableDef,
    changes: &'a [Change],
) -> Result<Shown<'a>, AllocError>
    requires { IsSortedBy has_lesser_key changes.now }
    ensures { IfOk result (λ shown. shown ≡ rows changes.now def.now) }
{
    let mut rest = changes;
    while !rest.is_empty() {
        let (group, later) = rest.split_at(group_length(rest));
        if is_shown(def.name.as_str(), group) {
            let key = key_values(alloc, group)?;
            return Ok(Shown {
                def,
                group,
                later,
                key,
            });
        }
        rest = later;
    }
    Ok(Shown {
        def,
        group: &[],
        later: &[],
        key: Vec::new(alloc),
    })
}

// What the row of some changes of one key shows in a column.
fn cell(
    alloc: Global,
    table: &str,
    group: &[Change],
    key: &[Value],
    column: &ColumnDef,
) -> Result<Value, AllocError>
    requires { key.now ≡ key_values group.now }
    ensures { IfOk result (λ v. v ≡ cell group.now table.now (first_key group.now) column.now) }
{
    if let Some(place) = column.key {
        return key_value(alloc, key, place);
    }
    match group.first() {
        Some(first) => column_value(alloc, group, table, first.pk.as_slice(), column),
        None => column_value(alloc, group, table, &[], column),
    }
}

impl Shown<'_> {
    /// Whether no row is left.
    pub fn is_at_end(&self) -> bool
        ensures { result ≡ is_at_end self.now }
    {
        self.group.is_empty()
    }

    /// How many values the row has on which the reading stands, which is not at its end.
    pub fn width(&self) -> usize
        requires { is_at_end self.now ≡ false }
        ensures { result ≡ length (first_row self.now) }
    {
        self.def.columns.as_slice().len()
    }

    /// The value of a column of the row on which the reading stands, which is not at its end; NULL where there is no such column.
    ///
    /// # Errors
    /// Want of memory.
    pub fn column(&self, alloc: Global, at: usize) -> Result<Value, AllocError>
        requires { is_at_end self.now ≡ false }
        ensures { IfOk result (λ v. v ≡ head_value at self.now) }
    {
        match self.def.columns.as_slice().get(at) {
            Some(column) => cell(alloc, self.def.name.as_str(), self.group, &self.key, column),
            None => Ok(Value::Null),
        }
    }

    /// Goes on to the next row.
    ///
    /// # Errors
    /// Want of memory; then the reading stands where it stood.
    pub fn advance(&mut self, alloc: Global) -> Result<(), AllocError>
        requires { is_at_end self.old ≡ false }
        ensures goes_on { OnOk result (self.new ≡ rest_of self.old) }
        ensures stands { OnErr result (self.new ≡ self.old) }
    {
        *self = read_shown(alloc, self.def, self.later)?;
        Ok(())
    }
}
