//! The definition of a table, and a row of it.

ghost use Rattle.std.specs.Prelude.{◌≡◌, List, IfOk};

use cr_value::affinity::Affinity;
use cr_value::text::Text;
use cr_value::value::Value;
use std::alloc::{AllocError, Global};
use std::cmp::Ordering;
use std::marker::Model;

/// A column of a table.
#[derive(Debug, Drop)]
pub struct ColumnDef {
    pub name: Text,
    /// What the column makes of a value, by its declared type ("Datatypes In SQLite", "Type Affinity").
    pub affinity: Affinity,
    /// The name of the collation by which the column compares, folded to lower case.
    pub collation: Text,
    /// Whether the column wants a value: a NULL that is kept for it shows as the default.
    pub not_null: bool,
    /// The place in the primary key, from 1; `None` outside the key.
    pub key: Option<u8>,
    /// The DEFAULT before or after the affinity, which shows it alike; NULL where there is none.
    pub default: Value,
}

impl ColumnDef {
    /// The same definition in memory of its own.
    pub fn copy(&self, alloc: Global) -> Result<ColumnDef, AllocError>
        ensures { IfOk result (λ c. c ≡ self.now) }
    {
        Ok(ColumnDef {
            name: self.name.copy(alloc)?,
            affinity: self.affinity,
            collation: self.collation.copy(alloc)?,
            not_null: self.not_null,
            key: self.key,
            default: self.default.copy(alloc)?,
        })
    }
}

/// A list, which contracts see as its items.
#[derive(Debug, Drop)]
pub struct Items<T> {
    items: Vec<T>,
}

impl<T> Model for Items<T> {
    ghost Value = { List T };

    ghost view = { λ l. l.items.items };
}

impl<T> Items<T> {
    /// The items of a `Vec`.
    pub fn new(items: Vec<T>) -> Items<T>
        ensures { result ≡ items.items }
    {
        Items { items }
    }

    /// The items, in place.
    pub fn as_slice(&self) -> &[T]
        ensures { result.now ≡ self.now }
    {
        self.items.as_slice()
    }

    /// The items as a `Vec`, which takes no memory.
    pub fn into_vec(self) -> Vec<T>
        ensures { result.items ≡ self }
    {
        self.items
    }
}

/// The values of a row, in the order of the columns.
pub type Row = Items<Value>;

impl Items<Value> {
    /// The same row in memory of its own.
    pub fn copy(&self, alloc: Global) -> Result<Row, AllocError>
        ensures { IfOk result (λ r. r ≡ self.now) }
    {
        let mut values = Vec::new(alloc);
        for value in self.as_slice() {
            values.push(value.copy(alloc)?)?;
        }
        Ok(Items::new(values))
    }
}

/// The definition of a table: its name and its columns, in their order.
#[derive(Debug, Drop)]
pub struct TableDef {
    pub name: Text,
    pub columns: Items<ColumnDef>,
}

impl TableDef {
    /// The same definition in memory of its own.
    pub fn copy(&self, alloc: Global) -> Result<TableDef, AllocError>
        ensures { IfOk result (λ t. t ≡ self.now) }
    {
        let mut columns = Vec::new(alloc);
        for column in self.columns.as_slice() {
            columns.push(column.copy(alloc)?)?;
        }
        Ok(TableDef {
            name: self.name.copy(alloc)?,
            columns: Items::new(columns),
        })
    }
}

/// A table of a store: its definition, and whether it is replicated.
#[derive(Debug, Drop)]
pub struct Table {
    pub definition: TableDef,
    pub is_replicated: bool,
}

impl Table {
    /// The same table in memory of its own.
    pub fn copy(&self, alloc: Global) -> Result<Table, AllocError>
        ensures { IfOk result (λ t. t ≡ self.now) }
    {
        Ok(Table {
            definition: self.definition.copy(alloc)?,
            is_replicated: self.is_replicated,
        })
    }
}

impl<T: Ord> PartialEq for Items<T> {
    ghost use Rattle.std.specs.Ordering.{eq_by_cmp};
    ghost use Rattle.std.specs.Cmp.{partial_equiv_from_equiv, eq_by_cmp_equiv};
    ghost use Rattle.std.specs.Cmp.Lexicographic.{slice_cmp};
    ghost use Rattle.std.proofs.lemmas.Cmp.{lists_total};

    ghost eq = { eq_by_cmp (slice_cmp T.cmp) };

    ghost laws = { partial_equiv_from_equiv (eq_by_cmp_equiv (lists_total T.total)) };

    fn eq(&self, other: &Items<T>) -> bool {
        self.as_slice().cmp(other.as_slice()).is_eq()
    }
}

impl<T: Ord> Eq for Items<T> {
    ghost use Rattle.std.specs.Cmp.{eq_by_cmp_equiv};
    ghost use Rattle.std.proofs.lemmas.Cmp.{lists_total};

    ghost laws = { eq_by_cmp_equiv (lists_total T.total) };
}

impl<T: Ord> PartialOrd for Items<T> {
    ghost use Rattle.std.specs.Ordering.{as_partial_cmp};
    ghost use Rattle.std.specs.Cmp.{po};
    ghost use Rattle.std.specs.Cmp.Lexicographic.{slice_cmp};
    ghost use Rattle.std.proofs.Common.{refl};
    ghost use Rattle.std.proofs.lemmas.Cmp.{lists_total};

    ghost partial_cmp = { as_partial_cmp (slice_cmp T.cmp) };

    ghost laws = { po (lists_total T.total) (λ _ _. refl) };

    fn partial_cmp(&self, other: &Items<T>) -> Option<Ordering> {
        Some(self.as_slice().cmp(other.as_slice()))
    }
}

impl<T: Ord> Ord for Items<T> {
    ghost use Rattle.std.specs.Cmp.Lexicographic.{slice_cmp};
    ghost use Rattle.std.proofs.Common.{refl};
    ghost use Rattle.std.proofs.lemmas.Cmp.{lists_total};

    ghost cmp = { slice_cmp T.cmp };

    ghost total = { lists_total T.total };

    ghost matches_partial_cmp = { λ _ _. refl };

    ghost matches_eq = { λ _ _. refl };

    fn cmp(&self, other: &Items<T>) -> Ordering {
        self.as_slice().cmp(other.as_slice())
    }
}
