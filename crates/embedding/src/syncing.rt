//! Replicas of a host that speak to one another by calls: what one has committed is pulled by another, or handed over.

use crate::module::Numbers;
use crate::printing::{print_done, print_refusal, print_reply, print_row};
use cr_cells::plain::PlainCells;
use cr_cells::tables::has_folded_names;
use cr_guard::policy::Policy;
use cr_host::functions::BuiltIns;
use cr_hosted::connection::Connection;
use cr_lattice::change::{Change, Site};
use cr_lattice::stamped::Stamped;
use cr_lattice::table::{ColumnDef, Items, Row, TableDef};
use cr_session::session::Session;
use cr_value::affinity::Affinity;
use cr_value::literal::literal_text;
use cr_value::text::Text;
use cr_value::value::Value;
use cr_world::command::Script;
use cr_world::refusal::Refusal;
use std::alloc::{AllocError, Global};
use std::io::{self, Write};

const SITE_A: Site = [0x0a; 16];

const SITE_B: Site = [0x0b; 16];

const SITE_C: Site = [0x0c; 16];

const TABLE: &str =
    "CREATE TABLE t(id INTEGER PRIMARY KEY, name TEXT DEFAULT 'none'); SELECT crsql_as_crr('t')";

/// A replica with the engine's own functions, under no rules.
pub type Replica = Connection<PlainCells, BuiltIns, Policy, Numbers>;

/// A replica of a site that has nothing yet.
pub fn new_replica(alloc: Global, site: Site) -> Replica {
    let session = Session::new(PlainCells::new(alloc, site));
    Connection::new(alloc, session, BuiltIns, Policy::new(alloc))
}

fn print_script<W: Write>(alloc: Global, script: Script, out: &mut W) -> io::Result<()> {
    for reply in script.replies.into_vec() {
        print_reply(alloc, &Ok(reply), out)?;
    }
    match script.refusal {
        Some(refusal) => print_refusal(&refusal, out),
        None => Ok(()),
    }
}

// Runs a script on a replica, and prints it with what its statements answer.
fn run<W: Write>(alloc: Global, replica: &mut Replica, text: &str, out: &mut W) -> io::Result<()> {
    writeln!(out, "{text}")?;
    let script = replica.run(alloc, text);
    print_script(alloc, script, out)
}

fn print_rows<W: Write>(
    alloc: Global,
    outcome: &Result<Items<Row>, Refusal>,
    out: &mut W,
) -> io::Result<()> {
    match outcome {
        Ok(rows) => {
            for row in rows.as_slice() {
                print_row(alloc, row.as_slice(), out)?;
            }
            Ok(())
        }
        Err(refusal) => print_refusal(refusal, out),
    }
}

// A change with its stamp, in a line of its own.
fn print_change<W: Write>(alloc: Global, stamped: &Stamped, out: &mut W) -> io::Result<()> {
    let Change {
        table,
        cid,
        val,
        col_version,
        cl,
        ..
    } = &stamped.change;
    writeln!(
        out,
        "{} {} {} version {col_version} length {cl} stamp {} {}",
        table.as_str(),
        cid.as_str(),
        literal_text(alloc, val)?.as_str(),
        stamped.version,
        stamped.seq
    )
}

// The changes that a replica keeps above a version, as they are sent to another.
fn sent<W: Write>(
    alloc: Global,
    replica: &mut Replica,
    version: i64,
    out: &mut W,
) -> io::Result<Vec<Change>> {
    let mut changes = Vec::new(alloc);
    match replica.changes_since(alloc, version) {
        Ok(stamped) => {
            for change in stamped.as_slice() {
                print_change(alloc, change, out)?;
                changes.push(change.change.copy(alloc)?)?;
            }
        }
        Err(refusal) => print_refusal(&refusal, out)?,
    }
    Ok(changes)
}

fn print_seen<W: Write>(
    alloc: Global,
    replica: &mut Replica,
    site: Site,
    out: &mut W,
) -> io::Result<()> {
    match replica.seen(alloc, site) {
        Ok(version) => writeln!(out, "seen {version}"),
        Err(error) => print_refusal(&Refusal::from(error), out),
    }
}

// B pulls all that A has.
fn pull_all<W: Write>(
    alloc: Global,
    a: &mut Replica,
    b: &mut Replica,
    out: &mut W,
) -> io::Result<()> {
    print_done("B pulls from A", &b.pull(alloc, a), out)?;
    print_rows(alloc, &b.rows_of(alloc, "t"), out)
}

// A takes what B sent, and then the same as if it were its own.
fn take_sent<W: Write>(
    alloc: Global,
    a: &mut Replica,
    changes: &[Change],
    version: i64,
    out: &mut W,
) -> io::Result<()> {
    let version = version.max(0);
    let taken = a.take_from(alloc, changes, (SITE_B, version));
    print_done("A takes what B sent", &taken, out)?;
    let own = a.take_from(alloc, changes, (a.site_id(), version));
    print_done("A takes what has its own site", &own, out)
}

// B writes, and hands over to A what is new.
fn hand_over<W: Write>(
    alloc: Global,
    a: &mut Replica,
    b: &mut Replica,
    out: &mut W,
) -> io::Result<()> {
    run(
        alloc,
        b,
        "UPDATE t SET name = 'dee' WHERE id = 1; DELETE FROM t WHERE id = 2",
        out,
    )?;
    let changes = sent(alloc, b, 1, out)?;
    take_sent(alloc, a, &changes, b.db_version(), out)?;
    print_rows(alloc, &a.rows_of(alloc, "t"), out)?;
    print_seen(alloc, a, SITE_B, out)
}

// Inside a transaction A takes nothing; behind it there is nothing new.
fn pull_inside<W: Write>(
    alloc: Global,
    a: &mut Replica,
    b: &mut Replica,
    out: &mut W,
) -> io::Result<()> {
    run(alloc, a, "BEGIN", out)?;
    writeln!(out, "in a transaction: {}", a.in_transaction())?;
    print_done("A pulls from B what is new", &a.pull_since(alloc, b), out)?;
    print_done("A takes no changes", &a.take(alloc, &[]), out)?;
    run(alloc, a, "COMMIT", out)?;
    print_done("A pulls from B what is new", &a.pull_since(alloc, b), out)?;
    writeln!(out, "version {}", a.db_version())
}

// A and B write one column of one row, and pull from each other: both show the same.
fn write_both<W: Write>(
    alloc: Global,
    a: &mut Replica,
    b: &mut Replica,
    out: &mut W,
) -> io::Result<()> {
    run(alloc, a, "UPDATE t SET name = 'bob'", out)?;
    run(alloc, b, "UPDATE t SET name = 'cy'", out)?;
    print_done("A pulls from B", &a.pull(alloc, b), out)?;
    print_rows(alloc, &a.rows_of(alloc, "t"), out)?;
    print_done("B pulls from A", &b.pull(alloc, a), out)?;
    print_rows(alloc, &b.rows_of(alloc, "t"), out)
}

fn column(alloc: Global, name: &str, affinity: Affinity) -> Result<ColumnDef, AllocError> {
    Ok(ColumnDef {
        name: Text::from_str(alloc, name)?,
        affinity,
        collation: Text::from_str(alloc, "binary")?,
        not_null: false,
        key: None,
        default: Value::Null,
    })
}

// The table that A and B have, under a name.
fn definition(alloc: Global, name: &str) -> Result<TableDef, AllocError> {
    let mut id = column(alloc, "id", Affinity::Integer)?;
    id.key = Some(1);
    let mut text = column(alloc, "name", Affinity::Text)?;
    text.default = Value::Text(Text::from_str(alloc, "none")?);
    Ok(TableDef {
        name: Text::from_str(alloc, name)?,
        columns: Items::new(vec![in alloc; id, text]?),
    })
}

// C defines the table under a name.
fn define<W: Write>(alloc: Global, c: &mut Replica, name: &str, out: &mut W) -> io::Result<()> {
    let def = definition(alloc, name)?;
    if has_folded_names(&def) {
        write!(out, "C defines ")?;
        print_done(name, &c.define(alloc, &def), out)?;
    }
    Ok(())
}

// C has the numbers from 1 to 3 as `m`, and the table, for which the name of `m` is taken.
fn new_host<W: Write>(alloc: Global, out: &mut W) -> io::Result<Replica> {
    let mut c = new_replica(alloc, SITE_C);
    let numbers = Numbers::up_to(alloc, 3, true)?;
    print_done(
        "C registers m",
        &c.register_module(alloc, "m", numbers),
        out,
    )?;
    define(alloc, &mut c, "m", out)?;
    define(alloc, &mut c, "t", out)?;
    Ok(c)
}

// C has a table module beside its table; a pull leaves that as it is. At last its session alone is left.
fn pull_beside_module<W: Write>(alloc: Global, a: &mut Replica, out: &mut W) -> io::Result<()> {
    let mut c = new_host(alloc, out)?;
    print_done("C pulls from A what is new", &c.pull_since(alloc, a), out)?;
    let text = "SELECT t.id, t.name, m.v FROM t JOIN m ON m.v > t.id AND m.v < ?";
    writeln!(out, "{text}")?;
    let outcome = c.execute(alloc, text, &[Value::Int(3)]);
    print_reply(alloc, &outcome, out)?;
    print_rows(alloc, &c.rows_of(alloc, "m"), out)?;
    writeln!(out, "version {}", c.into_session().db_version())
}

/// Three replicas with one table: A writes, B and C pull from it, B hands over what it writes.
pub fn run_syncing<W: Write>(alloc: Global, out: &mut W) -> io::Result<()> {
    let mut a = new_replica(alloc, SITE_A);
    let mut b = new_replica(alloc, SITE_B);
    run(alloc, &mut a, TABLE, out)?;
    run(alloc, &mut b, TABLE, out)?;
    run(
        alloc,
        &mut a,
        "INSERT INTO t VALUES(1, 'ann'), (2, 'bob')",
        out,
    )?;
    pull_all(alloc, &mut a, &mut b, out)?;
    hand_over(alloc, &mut a, &mut b, out)?;
    pull_inside(alloc, &mut a, &mut b, out)?;
    write_both(alloc, &mut a, &mut b, out)?;
    pull_beside_module(alloc, &mut a, out)
}
