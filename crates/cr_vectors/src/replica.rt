//! Changes that a replica over the plain store refuses together.

use cr_cells::plain::PlainCells;
use cr_cells::tables::has_folded_names;
use cr_host::functions::BuiltIns;
use cr_lattice::change::{Change, Site};
use cr_lattice::check::BadChange;
use cr_lattice::table::{ColumnDef, Items, Row, TableDef};
use cr_replica::definition::DefineError;
use cr_replica::replica::{Replica, RowsError, TakeError};
use cr_value::affinity::Affinity;
use cr_value::literal::{literal_text, read_literal};
use cr_value::text::{Bytes, Text};
use cr_value::value::Value;
use std::alloc::{AllocError, Global};
use std::test::Fail;

const A: Site = [10; 16];

const B: Site = [11; 16];

const KEY: [u8; 10] = [1, 1, 0, 0, 0, 0, 0, 0, 0, 1];

fn value(alloc: Global, literal: &str) -> Result<Value, Fail> {
    match read_literal(alloc, literal, 0)? {
        Some((value, _)) => Ok(value),
        None => Err(Fail::from("no literal")),
    }
}

// name, affinity, place in the key, default
const COLUMNS: [(&str, Affinity, Option<u8>, &str); 3] = [
    ("id", Affinity::Integer, Some(1), "NULL"),
    ("name", Affinity::Text, None, "'none'"),
    ("n", Affinity::Integer, None, "7"),
];

// p(id INT PRIMARY KEY, name TEXT DEFAULT 'none', n INT DEFAULT 7)
fn table(alloc: Global) -> Result<TableDef, Fail> {
    let mut columns = Vec::new(alloc);
    for (name, affinity, key, default) in COLUMNS {
        columns.push(ColumnDef {
            name: Text::from_str(alloc, name)?,
            affinity,
            collation: Text::from_str(alloc, "binary")?,
            not_null: false,
            key,
            default: value(alloc, default)?,
        })?;
    }
    Ok(TableDef {
        name: Text::from_str(alloc, "p")?,
        columns: Items::new(columns),
    })
}

fn change(
    alloc: Global,
    pk: &[u8],
    cid: &str,
    val: &str,
    version: i64,
    cl: i64,
) -> Result<Change, Fail> {
    Ok(Change {
        table: Text::from_str(alloc, "p")?,
        pk: Bytes::from_slice(alloc, pk)?,
        cid: Text::from_str(alloc, cid)?,
        val: value(alloc, val)?,
        col_version: version,
        site: B,
        cl,
    })
}

// A new replica with the table.
fn replica(alloc: Global, site: Site) -> Result<Replica<PlainCells>, Fail> {
    let mut replica = Replica::new(PlainCells::new(alloc, site));
    let def = table(alloc)?;
    if !has_folded_names(&def) {
        return Err(Fail::from("not folded"));
    }
    match replica.define(alloc, &BuiltIns, &def) {
        Ok(()) => Ok(replica),
        Err(DefineError::Memory) => Err(Fail::from(AllocError)),
        Err(_) => Err(Fail::from("not defined")),
    }
}

fn push_row(alloc: Global, out: &mut String, row: &Row) -> Result<(), AllocError> {
    for value in row.as_slice() {
        out.push_str(&literal_text(alloc, value)?)?;
        out.push_str("|")?;
    }
    Ok(())
}

// The rows, each value followed by a bar, each row by a slash.
fn shown(alloc: Global, replica: &mut Replica<PlainCells>) -> Result<String, Fail> {
    let mut out = String::new(alloc);
    match replica.rows_of(alloc, "p") {
        Ok(rows) => {
            for row in rows.as_slice() {
                push_row(alloc, &mut out, row)?;
                out.push_str("/")?;
            }
            Ok(out)
        }
        Err(RowsError::Memory) => Err(Fail::from(AllocError)),
        Err(_) => Err(Fail::from("no rows")),
    }
}

// Both steps of a taking.
fn take(
    alloc: Global,
    replica: &mut Replica<PlainCells>,
    changes: &[Change],
) -> Result<(), TakeError> {
    let taking = replica.prepare(alloc, changes)?;
    replica.commit(alloc, &taking, None)?;
    Ok(())
}

#[test]
fn keys_that_are_none_are_refused_beside_a_good_change(rt: HostRuntime) -> Result<(), Fail> {
    let alloc = rt.alloc();
    let mut replica = replica(alloc, A)?;
    for pk in [
        [1, 1, 0, 0, 0, 0, 0, 0, 0, 1, 0].as_slice(),
        [1, 0].as_slice(),
        [0].as_slice(),
        [1, 3, 0, 0, 0, 1, 49].as_slice(),
    ] {
        let good = change(alloc, &KEY, "-1", "NULL", 1, 1)?;
        let bad = change(alloc, pk, "-1", "NULL", 1, 1)?;
        match take(alloc, &mut replica, &[good, bad]) {
            Err(TakeError::Memory) => return Err(Fail::from(AllocError)),
            refused => assert_eq!(rt; refused, Err(TakeError::Bad(BadChange::Key))),
        }
    }
    assert_eq!(rt; shown(alloc, &mut replica)?.as_str(), "");
    Ok(())
}
