//! A host that embeds the engine: it registers tables of its own with a session, listens to what becomes of rows, has statements
//! carried out, one with values for its parameters, and prints each with what was heard of it and its answer. A second host has an
//! authorizer in place of the listener, and prints each statement with what the authorizer was asked about it. Then three replicas
//! of a host speak to one another by calls, one refuses statements for each of many causes, and at last a store counts what it is
//! asked for statements.
#![tactic(auto)]

mod asking;
mod counted;
mod listening;
mod module;
mod offering;
mod printing;
mod reading;
mod refusing;
mod syncing;

use asking::{Questions, note, print_asked};
use counted::Counted;
use cr_cells::plain::PlainCells;
use cr_guard::closures::AuthorizerFn;
use cr_guard::guard::Guard;
use cr_guard::guarding::Guarding;
use cr_guard::listener::Listener;
use cr_guard::policy::{Policy, PolicyRule, ReadRule};
use cr_guard::samples::Notes;
use cr_host::functions::BuiltIns;
use cr_host::meaning::{Action, Auth};
use cr_hosted::session::HostedSession;
use cr_lattice::change::Site;
use cr_session::session::Session;
use cr_value::text::Text;
use cr_value::value::Value;
use listening::{Shared, Silent, print_heard};
use module::Numbers;
use offering::{Observed, Offered, print_offered};
use printing::{print_done, print_reply};
use reading::run_counting;
use refusing::run_refused;
use std::alloc::{AllocError, Global};
use std::cell::RefCell;
use std::io::{self, LineWriter, Write};
use std::rc::Rc;
use syncing::run_syncing;

/// Changes of this replica bear its site.
const SITE: Site = [0x0a; 16];

/// `m` and `fixed` are the host's tables, `t` and `w` are the replica's.
const STATEMENTS: [&str; 29] = [
    "SELECT * FROM m WHERE v >= 2",
    "INSERT INTO m VALUES(4)",
    "SELECT * FROM m WHERE v >= 2",
    "CREATE TABLE m(id INTEGER PRIMARY KEY)",
    "UPDATE m SET v = 1",
    "DELETE FROM m",
    "SELECT crsql_as_crr('m')",
    "ALTER TABLE m ADD w INT",
    "INSERT INTO fixed VALUES(4)",
    "SELECT count(*), max(v) FROM fixed",
    "CREATE TABLE t(id INTEGER PRIMARY KEY)",
    "SELECT crsql_as_crr('t')",
    "INSERT INTO t VALUES(2), (4), (6)",
    "SELECT a.v, t.id FROM m AS a, m, t WHERE a.v = t.id AND m.v = a.v",
    "BEGIN",
    "INSERT INTO t VALUES(3)",
    "INSERT INTO m VALUES(6)",
    "SELECT count(*) FROM m LEFT JOIN t ON id = v WHERE id IS NULL",
    "ROLLBACK",
    "SELECT count(*) FROM m LEFT JOIN t ON id = v WHERE id IS NULL",
    "CREATE TABLE w(id INTEGER PRIMARY KEY, name TEXT)",
    "SELECT crsql_as_crr('w')",
    "INSERT INTO w VALUES(1, 'a'), (2, 'b')",
    "UPDATE w SET id = id + 1",
    "UPDATE w SET id = 5",
    "BEGIN",
    "DELETE FROM w WHERE id = 2",
    "UPDATE w SET name = name",
    "COMMIT",
];

/// `empty` has no rows at first. A reading of `broken` breaks behind the second of three rows: what is read is read to its end,
/// whatever LIMIT leaves of it.
const MODULE_STATEMENTS: [&str; 25] = [
    "SELECT * FROM empty",
    "SELECT count(*), max(v) FROM empty",
    "SELECT v, count(*) FROM empty GROUP BY v",
    "SELECT id, v FROM w LEFT JOIN empty",
    "SELECT id, empty.v, m.v FROM w LEFT JOIN empty ON empty.v = id JOIN m ON m.v = id",
    "SELECT count(*) FROM w, empty",
    "INSERT INTO empty VALUES(5)",
    "SELECT id, v FROM w LEFT JOIN empty ON v = id",
    "SELECT * FROM broken",
    "SELECT * FROM w",
    "SELECT count(*) FROM broken",
    "SELECT v FROM broken LIMIT 1",
    "SELECT v FROM broken WHERE v = 1 ORDER BY v LIMIT 1",
    "SELECT 1 FROM broken LIMIT 0",
    "SELECT id FROM w LEFT JOIN broken ON v = id",
    "SELECT nope FROM broken",
    "INSERT INTO broken VALUES(4)",
    "SELECT max(v) FROM broken",
    "INSERT INTO w VALUES(6, 'f')",
    "BEGIN",
    "INSERT INTO w VALUES(7, 'g')",
    "SELECT * FROM broken",
    "INSERT INTO w VALUES(8, 'h')",
    "COMMIT",
    "SELECT * FROM w",
];

/// `m` is the host's table. The authorizer is asked once all names are known, and before anything else may refuse a statement.
const ASKED_STATEMENTS: [&str; 39] = [
    "CREATE TABLE t(id INTEGER PRIMARY KEY, name TEXT, n INT DEFAULT 0)",
    "SELECT crsql_as_crr('t')",
    "ALTER TABLE t ADD note TEXT",
    "INSERT INTO t(id, name) VALUES(abs(-1), upper(lower('A'))), (length('bc'), lower('B')), (3, NULL)",
    "UPDATE t SET name = coalesce(note, name, upper('z')), n = n + length(hex(id)) WHERE abs(id) < 3 AND note IS NULL",
    "CREATE TABLE u(id INTEGER PRIMARY KEY)",
    "INSERT INTO u VALUES(abs(2))",
    "SELECT crsql_as_crr('U')",
    "INSERT INTO u VALUES(2), (3)",
    "SELECT * FROM t",
    "SELECT n, a.*, n FROM t AS a WHERE a.id = 1",
    "SELECT id AS name, n AS k FROM t ORDER BY k DESC, name",
    "SELECT a.name, b.id FROM t AS a JOIN t AS b ON b.id = a.id + 1 WHERE a.n > 0",
    "SELECT upper(t.name), u.id FROM t LEFT JOIN u ON u.id = t.id AND length(t.name) = 1 WHERE t.n IS NOT NULL",
    "SELECT count(*) FROM t JOIN u ON u.id = t.id LEFT JOIN m ON m.v = abs(t.n) WHERE hex(t.name) <> ''",
    "SELECT name, count(*) FROM t WHERE id > 0 GROUP BY lower(name), name HAVING sum(n) >= 0 ORDER BY max(id) LIMIT 1",
    "SELECT DISTINCT typeof(note) FROM t ORDER BY 1 LIMIT 5 OFFSET 0",
    "SELECT upper(hex(abs(id))) FROM t ORDER BY n",
    "SELECT min(id), max(coalesce(n, 0)), count(note), sum(length(name)) FROM t",
    "SELECT min(id, n), nullif(ifnull(n, id), 2) FROM t",
    "SELECT CASE n WHEN length(name) THEN upper(name) ELSE note END, CASE WHEN id > 1 THEN n END FROM t",
    "SELECT id IN (1, length(name), n), n BETWEEN id AND abs(9), name LIKE note FROM t",
    "SELECT count(*) FROM t",
    "SELECT 1 FROM t, u, t AS again WHERE u.id = 2",
    "SELECT 1, 'a' || NULL",
    "SELECT crsql_db_version(), length(hex(crsql_site_id()))",
    "SELECT * FROM m WHERE v > 1",
    "INSERT INTO m VALUES(abs(-4)), (length('12345'))",
    "UPDATE m SET v = abs(v)",
    "SELECT cid, val FROM crsql_changes WHERE \"table\" = 't' AND pk = X'01010000000000000003'",
    "INSERT INTO crsql_changes VALUES('u', X'01010000000000000005', '-1', NULL, abs(-1), 0, crsql_site_id(), 1, 0)",
    "BEGIN",
    "DELETE FROM t WHERE id = length('a') OR abs(n) > 100",
    "ROLLBACK",
    "BEGIN",
    "INSERT INTO u VALUES(9)",
    "COMMIT",
    "SELECT ?1, abs(?2)",
    "SELECT abs(nope) FROM t",
];

/// The same host under a policy that denies READ of `t.name`: nothing is asked behind the question that is denied.
const DENIED_STATEMENTS: [&str; 8] = [
    "SELECT n, upper(name), abs(id) FROM t WHERE length(hex(n)) = 1",
    "SELECT abs(n) FROM t AS a JOIN u ON u.id = a.id AND name = lower('A') ORDER BY a.id + abs(n)",
    "SELECT count(*) FROM t WHERE id > 0 GROUP BY n, name HAVING max(id) > 0",
    "INSERT INTO u VALUES(abs(-4))",
    "UPDATE t SET n = length(name) + abs(id) WHERE upper(id) > ''",
    "UPDATE t SET name = lower('B'), n = abs(n) WHERE id = 1",
    "DELETE FROM t WHERE id = 1 AND name LIKE 'a' AND abs(n) > 0",
    "SELECT id, n FROM t",
];

/// `m` has the numbers from 1 to 3, `many` those to 4,000,000,000, each in its column `v`. They are offered what compares that with
/// constants byte by byte, alone and in joins, and an order where theirs is the only table and each of its rows is shown. Of two
/// tables that are read `many` is read last.
const OFFERED_STATEMENTS: [&str; 24] = [
    "SELECT * FROM m WHERE v >= 2 AND 3 > v ORDER BY v DESC",
    "SELECT * FROM m WHERE v = '2' AND v <= 3",
    "SELECT * FROM m WHERE v IS 2",
    "SELECT * FROM m WHERE v IS NULL",
    "SELECT * FROM m WHERE v > 'x'",
    "SELECT * FROM m WHERE v < NULL",
    "SELECT * FROM m WHERE v COLLATE nocase = 2",
    "SELECT * FROM m WHERE v <> 2 AND v IS NOT 1 AND v + 0 > 1 AND v < 9",
    "SELECT * FROM m WHERE v = 2 OR v = 3 ORDER BY v",
    "SELECT * FROM m WHERE v = v AND v BETWEEN 2 AND 3",
    "SELECT count(*), max(v) FROM m WHERE v > 1 ORDER BY 1",
    "SELECT DISTINCT v FROM m WHERE v < 3 ORDER BY v",
    "SELECT a.v FROM m AS a JOIN m AS b ON a.v = b.v WHERE a.v > 2",
    "SELECT v FROM m WHERE v = 2 ORDER BY v + 0, v",
    "SELECT v FROM m LIMIT 1",
    "SELECT v FROM many WHERE v >= 2999999999 AND v < 3000000002 ORDER BY v DESC",
    "SELECT count(*), max(v) FROM many WHERE 3999999990 < v",
    "SELECT v FROM many WHERE v = '7' AND v > 6",
    "SELECT v FROM many WHERE v = 5 AND v = 6",
    "SELECT v FROM many WHERE v <= 0",
    "SELECT m.v, many.v FROM m JOIN many ON many.v < 3 WHERE m.v >= 2",
    "SELECT many.v FROM many JOIN m ON m.v = many.v WHERE 2 >= many.v ORDER BY many.v DESC",
    "SELECT m.v, many.v FROM m LEFT JOIN many ON many.v = 4000000000 WHERE many.v > 0 AND m.v < 3",
    "SELECT a.v, many.v FROM m AS a JOIN m AS b ON a.v = b.v JOIN many ON many.v = 7 WHERE a.v > 2",
];

/// A session, and what its listener noted.
#[derive(Drop)]
struct Host {
    session: HostedSession<PlainCells, Numbers>,
    notes: Rc<RefCell<Notes>>,
}

// A host whose session has no tables.
fn new_host(alloc: Global) -> Result<Host, AllocError> {
    Ok(Host {
        session: HostedSession::new(alloc, Session::new(PlainCells::new(alloc, SITE))),
        notes: Rc::new(alloc, RefCell::new(Notes::new(alloc)))?,
    })
}

// Three rows, to which an INSERT may bring more, or none.
fn three(alloc: Global, takes_rows: bool) -> Result<Numbers, AllocError> {
    Numbers::up_to(alloc, 3, takes_rows)
}

// No rows, to which an INSERT may bring some.
fn empty(alloc: Global) -> Result<Numbers, AllocError> {
    Numbers::up_to(alloc, 0, true)
}

// Three rows, of which a reading gives two.
fn broken(alloc: Global) -> Result<Numbers, AllocError> {
    let mut numbers = three(alloc, true)?;
    numbers.breaks_at = Some(1);
    Ok(numbers)
}

// Registers a table of the host under a name, and prints whether it may have that.
fn register<W: Write>(
    alloc: Global,
    host: &mut Host,
    name: &str,
    numbers: Numbers,
    out: &mut W,
) -> io::Result<()> {
    write!(out, "register ")?;
    print_done(
        name,
        &host.session.register_module(alloc, name, numbers),
        out,
    )
}

// Has a statement carried out with values for its parameters, and prints it with what was heard of it and its answer.
fn ask<W: Write>(
    alloc: Global,
    host: &mut Host,
    text: &str,
    values: &[Value],
    out: &mut W,
) -> io::Result<()> {
    writeln!(out, "{text}")?;
    let listener: Box<dyn Listener> = Box::new(
        alloc,
        Shared {
            notes: host.notes.clone()?,
        },
    )?;
    let mut guard: Guard<Silent> = Guard::new(alloc);
    guard.set_listener(listener);
    let outcome = host
        .session
        .execute(alloc, &BuiltIns, &mut guard, text, values);
    print_heard(alloc, &host.notes, out)?;
    print_reply(alloc, &outcome, out)
}

// The same while the listener's notes are held, so that it has no room for what it hears.
fn ask_unheard<W: Write>(
    alloc: Global,
    host: &mut Host,
    text: &str,
    out: &mut W,
) -> io::Result<()> {
    let notes = host.notes.clone()?;
    let held = notes.try_borrow();
    let asked = ask(alloc, host, text, &[], out);
    drop(held);
    asked
}

// Has a statement carried out under a rule, if there is one, and prints it with what the authorizer was asked about it and its
// answer.
fn ask_authorized<W: Write>(
    alloc: Global,
    host: &mut Host,
    rule: Option<&PolicyRule>,
    text: &str,
    out: &mut W,
) -> io::Result<()> {
    writeln!(out, "{text}")?;
    let questions = Rc::new(alloc, RefCell::new(Questions::new(alloc)))?;
    let noted = questions.clone()?;
    let answer: AuthorizerFn = Box::new(alloc, move |action: Action, a: &str, b: &str| {
        note(&noted, action, a, b);
        Auth::Ok
    })?;
    let mut guard: Guard<Silent> = Guard::new(alloc);
    if let Some(rule) = rule {
        guard.policy(alloc, rule)?;
    }
    guard.set_authorizer(0, answer);
    let outcome = host
        .session
        .execute(alloc, &BuiltIns, &mut guard, text, &[]);
    print_asked(&questions, out)?;
    print_reply(alloc, &outcome, out)
}

// Registers the tables of the host that listens. A name may be neither another in other case nor one of the engine's own.
fn register_tables<W: Write>(alloc: Global, host: &mut Host, out: &mut W) -> io::Result<()> {
    register(alloc, host, "M", three(alloc, true)?, out)?;
    register(alloc, host, "m", three(alloc, true)?, out)?;
    register(alloc, host, "crsql_x", three(alloc, true)?, out)?;
    register(alloc, host, "fixed", three(alloc, false)?, out)?;
    register(alloc, host, "empty", empty(alloc)?, out)?;
    register(alloc, host, "broken", broken(alloc)?, out)
}

fn run_listening<W: Write>(alloc: Global, out: &mut W) -> io::Result<()> {
    let mut host = new_host(alloc)?;
    register_tables(alloc, &mut host, out)?;
    for text in &STATEMENTS {
        ask(alloc, &mut host, text, &[], out)?;
    }
    ask_unheard(alloc, &mut host, "INSERT INTO w VALUES(4, 'd')", out)?;
    ask(alloc, &mut host, "INSERT INTO w VALUES(5, 'e')", &[], out)?;
    ask(alloc, &mut host, "SELECT * FROM w", &[], out)?;
    let name = Value::Text(Text::from_str(alloc, "a")?);
    let values = vec![in alloc; name, Value::Int(2), Value::Null]?;
    ask(alloc, &mut host, "SELECT ? || ?1, ?3", &values, out)?;
    ask(alloc, &mut host, "SELECT ? || ?1, ?3", &values[..2], out)?;
    for text in &MODULE_STATEMENTS {
        ask(alloc, &mut host, text, &[], out)?;
    }
    Ok(())
}

fn run_denied<W: Write>(alloc: Global, host: &mut Host, out: &mut W) -> io::Result<()> {
    let rule = PolicyRule::Read(ReadRule {
        table: Text::from_str(alloc, "t")?,
        column: Text::from_str(alloc, "name")?,
        answer: Auth::Deny,
    });
    for text in &DENIED_STATEMENTS {
        ask_authorized(alloc, host, Some(&rule), text, out)?;
    }
    Ok(())
}

fn run_authorized<W: Write>(alloc: Global, out: &mut W) -> io::Result<()> {
    let mut host = new_host(alloc)?;
    register(alloc, &mut host, "m", three(alloc, true)?, out)?;
    for text in &ASKED_STATEMENTS {
        ask_authorized(alloc, &mut host, None, text, out)?;
    }
    run_denied(alloc, &mut host, out)
}

// The numbers up to a last one, which note what they are offered.
fn observed(
    alloc: Global,
    last: u32,
    offered: &Rc<RefCell<Offered>>,
) -> Result<Observed, AllocError> {
    Ok(Observed {
        counted: Counted::up_to(alloc, last)?,
        offered: offered.clone()?,
    })
}

// A session with both tables.
fn counting_session<W: Write>(
    alloc: Global,
    offered: &Rc<RefCell<Offered>>,
    out: &mut W,
) -> io::Result<HostedSession<PlainCells, Observed>> {
    let mut session = HostedSession::new(alloc, Session::new(PlainCells::new(alloc, SITE)));
    let few = session.register_module(alloc, "m", observed(alloc, 3, offered)?);
    print_done("register m", &few, out)?;
    let many = session.register_module(alloc, "many", observed(alloc, 4_000_000_000, offered)?);
    print_done("register many", &many, out)?;
    Ok(session)
}

// Has a SELECT carried out, and prints it with what the table was offered that was read last, and its answer.
fn ask_offered<W: Write>(
    alloc: Global,
    session: &mut HostedSession<PlainCells, Observed>,
    offered: &RefCell<Offered>,
    text: &str,
    out: &mut W,
) -> io::Result<()> {
    writeln!(out, "{text}")?;
    let mut policy = Policy::new(alloc);
    let outcome = session.execute(alloc, &BuiltIns, &mut policy, text, &[]);
    print_offered(offered, out)?;
    print_reply(alloc, &outcome, out)
}

// The same of all SELECTs over tables whose rows are counted.
fn run_offered<W: Write>(alloc: Global, out: &mut W) -> io::Result<()> {
    let offered = Rc::new(alloc, RefCell::new(Offered::new(alloc)))?;
    let mut session = counting_session(alloc, &offered, out)?;
    for text in &OFFERED_STATEMENTS {
        ask_offered(alloc, &mut session, &offered, text, out)?;
    }
    Ok(())
}

fn main(rt: HostRuntime) -> io::Result<()> {
    let mut out = LineWriter::new(rt.alloc(), rt.stdout())?;
    run_listening(rt.alloc(), &mut out)?;
    run_authorized(rt.alloc(), &mut out)?;
    run_offered(rt.alloc(), &mut out)?;
    run_syncing(rt.alloc(), &mut out)?;
    run_refused(rt.alloc(), &mut out)?;
    run_counting(rt.alloc(), &mut out)?;
    out.flush()
}
