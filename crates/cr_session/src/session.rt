//! A session over one replica: the commands that look at no other.

ghost use Rattle.std.specs.Prelude.{◌≡◌};
ghost use Rattle.cr_session.specs.Sessions.{is_early, reply_of};

use cr_cells::marks::Mark;
use cr_cells::store::{Cells, CellsError};
use cr_guard::guarding::Guarding;
use cr_host::functions::Functions;
use cr_lattice::change::{Change, Site};
use cr_lattice::check::BadChange;
use cr_lattice::merge::merge;
use cr_lattice::table::{Items, Table, TableDef};
use cr_pending::pending::Pending;
use cr_replica::change_row::ChangeRow;
use cr_replica::definition::{DefineError, accept};
use cr_replica::replica::{Replica, Taking};
use cr_replica::snapshot::Snapshot;
use cr_script::speaking::{Speaking, Watching};
use cr_value::text::{Bytes, Text};
use cr_world::command::{Command, Declaration, FleetReply};
use cr_world::refusal::{OutOfProfile, Refusal, of_definition};
use std::alloc::{AllocError, Global};
use std::marker::Model;

/// Done, or why not.
pub fn reply_of(outcome: Result<(), Refusal>) -> FleetReply
    ensures { result ≡ reply_of outcome }
{
    match outcome {
        Ok(()) => FleetReply::Done,
        Err(refusal) => FleetReply::Refused(refusal),
    }
}

// Whether what stands against a definition is told before an open transaction.
fn is_early(error: DefineError) -> bool
    ensures { result ≡ is_early error }
{
    !matches!(error, DefineError::NoDefault(_))
}

/// A replica, with the changes of its open transaction.
#[derive(Drop)]
pub struct Session<C: Cells> {
    pub(crate) replica: Replica<C>,
    // None outside of transactions.
    pub(crate) pending: Option<Pending>,
}

impl<C: Cells> Model for Session<C> {
    ghost use Rattle.std.specs.Option.{option_map};
    ghost use Rattle.cr_session.specs.Sessions.{SessionOf};

    ghost Value = { SessionOf C };

    ghost view = { λ s. (s.replica, option_map (λ p. p.1) s.pending) };
}

impl<C: Cells> Session<C> {
    ghost use Rattle.std.specs.Prelude.{◌≡◌, ◌≤ℤ◌, ℕ, Bool, List, [], None, pos, true, is_some, IfOk, IsTrue};
    ghost use Rattle.std.specs.Option.{ForSome};
    ghost use Rattle.cr_cells.specs.Calls.{Reads, is_want, StaysClean};
    ghost use Rattle.cr_cells.specs.Holding.{IsSound, since, changes_of};
    ghost use Rattle.cr_cells.specs.Marks.{seen_of};
    ghost use Rattle.cr_cells.specs.Tables.{AreWellFormed};
    ghost use Rattle.cr_lattice.specs.Keep.{keep};
    ghost use Rattle.cr_replica.specs.Snapshots.{IsOfNames, IsWhole};
    ghost use Rattle.cr_replica.specs.Taking as takings;
    ghost use Rattle.cr_snapshot.specs.Seen.{IsNamed};
    ghost use Rattle.cr_world.specs.declared.command.Command.TheVariants.{Define, Take, Rows, Changes, Sql};
    ghost use Rattle.cr_world.specs.declared.command.Declaration.TheVariants as declared;
    ghost use Rattle.cr_world.specs.declared.command.FleetReply.TheVariants.{Refused};
    ghost use Rattle.cr_world.specs.Answers.{IsReady};
    ghost use Rattle.cr_world.specs.Language.{Language};
    ghost use Rattle.cr_world.specs.State.{heard_between};
    ghost use Rattle.cr_world.specs.Statement.{Host};
    ghost use Rattle.cr_script.specs.Hearing.{Hears};
    ghost use Rattle.cr_meaning.specs.View.{Ordered};
    ghost use Rattle.cr_tree.specs.declared.statement.Statement.{Statement};
    ghost use Rattle.cr_session.specs.Hearing.{HearsOwn, HearsScript, HearsTaking};
    ghost use Rattle.cr_session.specs.Sessions.{Approves, CommitsTaking, Does, Names, TakesAll, Sees, SeesKeys, clean, honest, is_own, standing};

    /// A session over the store, which may hold something already.
    pub fn new(cells: C) -> Session<C>
        ensures { result ≡ (cells, None) }
    {
        Session {
            replica: Replica::new(cells),
            pending: None,
        }
    }

    /// The store as it stands: what the last commit left. What an open transaction kept is gone.
    pub fn into_cells(self) -> C
        ensures { result ≡ self.0 }
    {
        self.replica.into_cells()
    }

    /// Whether a transaction is open.
    pub fn in_transaction(&self) -> bool
        ensures { result ≡ is_some self.now.1 }
    {
        self.pending.is_some()
    }

    /// The site that the replica was made with.
    pub fn site_id(&self) -> Site
        ensures { C.is_clean self.now.0 → result ≡ (C.holding self.now.0).site }
    {
        self.replica.site_id()
    }

    /// How many commits changed a kept change.
    pub fn db_version(&self) -> i64
        ensures { C.is_clean self.now.0 → result ≡ (C.holding self.now.0).version }
    {
        self.replica.db_version()
    }

    /// The kept changes that are stamped above a version, by their stamps.
    ///
    /// # Errors
    /// `Memory`, or `Store(Refused)`.
    pub fn changes_above(&mut self, alloc: Global, version: i64) -> Result<Vec<Change>, CellsError>
        ensures device { StaysClean C.is_honest C.is_clean is_want self.old.0 self.new.0 result }
        ensures sound { C.is_clean self.new.0 → IsSound (C.holding self.new.0) }
        ensures reads { C.is_clean self.new.0 → Reads (C.holding self.old.0) (C.holding self.new.0) result
            (λ changes. changes.items ≡ changes_of (since (C.holding self.old.0).cells version)) }
        ensures pending { self.new.1 ≡ self.old.1 }
    {
        self.replica.changes_above(alloc, version)
    }

    /// What a statement may name, which is answered without asking the store again.
    ///
    /// # Errors
    /// `Memory`, or `Store(Refused)`.
    pub fn names(&mut self, alloc: Global) -> Result<Snapshot, CellsError>
        ensures device { StaysClean C.is_honest C.is_clean is_want self.old.0 self.new.0 result }
        ensures sound { C.is_clean self.new.0 → IsSound (C.holding self.new.0) }
        ensures names { C.is_clean self.new.0 → Names (standing C.holding self.old) (standing C.holding self.new) result }
        ensures empty { IfOk result (λ names. (names.cells ≡ []) × (names.kept ≡ [])) }
        ensures whole { IfOk result IsWhole }
        ensures pending { self.new.1 ≡ self.old.1 }
    {
        self.replica.names(alloc)
    }

    // What a statement sees under these names: what the replica holds, and with what it keeps the changes of the open
    // transaction.
    pub(crate) fn see(&mut self, alloc: Global, names: Snapshot) -> Result<Snapshot, CellsError>
        requires named { C.is_clean self.old.0 → IsNamed (standing C.holding self.old) names }
        ensures device { StaysClean C.is_honest C.is_clean is_want self.old.0 self.new.0 result }
        ensures sees { C.is_clean self.new.0 → Sees (standing C.holding self.old) (standing C.holding self.new) result }
        ensures names { IfOk result (IsOfNames names) }
        ensures kept { IfOk result (λ snapshot. keep snapshot.kept ≡ snapshot.kept) }
    {
        let mut snapshot = match self.replica.complete(alloc, names) {
            Ok(snapshot) => snapshot,
            Err(error) => return Err(error),
        };
        let Some(pending) = &self.pending else {
            return Ok(snapshot);
        };
        let kept = merge(alloc, snapshot.kept.as_slice(), pending.changes())?;
        snapshot.kept = Items::new(kept);
        Ok(snapshot)
    }

    // Whether the changes of the open transaction are well formed for these tables; outside of transactions there are none.
    pub(crate) fn is_of(&self, tables: &[Table]) -> bool
        ensures well_formed { IsTrue result → ForSome self.now.1 (AreWellFormed tables.now) }
        ensures outside { self.now.1 ≡ None → result ≡ true }
    {
        match &self.pending {
            Some(pending) => pending.is_of(tables),
            None => true,
        }
    }

    // What a statement sees of some keys of a table: what the last commit keeps of them, and with it the changes of the open
    // transaction. Reads the cells of these keys and no others.
    pub(crate) fn see_keys(
        &mut self,
        alloc: Global,
        table: &str,
        keys: &[Bytes],
    ) -> Result<Vec<Change>, CellsError>
        requires sound { C.is_clean self.old.0 → IsSound (C.holding self.old.0) }
        ensures device { StaysClean C.is_honest C.is_clean is_want self.old.0 self.new.0 result }
        ensures sees { C.is_clean self.new.0 → SeesKeys (λ v. v.items) (standing C.holding self.old) (standing C.holding self.new) table.now keys.now result }
        ensures kept { IfOk result (λ kept. keep kept.items ≡ kept.items) }
        ensures pending { self.new.1 ≡ self.old.1 }
    {
        let kept = match self.replica.kept_of_keys(alloc, table, keys) {
            Ok(kept) => kept,
            Err(error) => return Err(error),
        };
        let Some(pending) = &self.pending else {
            return Ok(kept);
        };
        let more = pending.of_keys(alloc, table, keys)?;
        Ok(merge(alloc, &kept, &more)?)
    }

    /// The version up to which the changes of a peer were taken, by the peer's site: 0 where it has no mark.
    ///
    /// # Errors
    /// `Memory`, or `Store(Refused)`.
    pub fn seen(&mut self, alloc: Global, site: Site) -> Result<i64, CellsError>
        ensures device { StaysClean C.is_honest C.is_clean is_want self.old.0 self.new.0 result }
        ensures reads { C.is_clean self.new.0 → Reads (C.holding self.old.0) (C.holding self.new.0) result
            (λ version. version ≡ seen_of (C.holding self.old.0).marks site) }
        ensures pending { self.new.1 ≡ self.old.1 }
    {
        self.replica.seen(alloc, site)
    }

    // The first step of a taking: whether these changes may be taken, and what their commit would bring in. A session stays where it
    // stands.
    fn approve<'a, G: Guarding>(
        &mut self,
        alloc: Global,
        guard: &G,
        changes: &'a [Change],
    ) -> Result<Taking<'a>, Refusal>
        requires { G.is_faithful guard.now }
        ensures approves { Approves (⟦<G as Watching>⟧.host guard.now) (honest C.is_honest) (clean C.is_clean) (standing C.holding) self.old changes.now result self.new }
        ensures changes { IfOk result (λ taking. taking.changes.now ≡ changes.now) }
        ensures pending { self.new.1 ≡ self.old.1 }
    {
        let taking = match self.replica.prepare(alloc, changes) {
            Ok(taking) => taking,
            Err(error) => return Err(Refusal::from(error)),
        };
        if guard.vetoes(taking.newly_kept.as_slice()) {
            return Err(Refusal::Veto);
        }
        Ok(taking)
    }

    // The second step: its changes are committed, and with them the mark.
    fn commit_taking(
        &mut self,
        alloc: Global,
        taking: &Taking<'_>,
        mark: Option<Mark>,
    ) -> Result<(), Refusal>
        requires ready { C.is_clean self.old.0 → takings.IsReady (C.holding self.old.0) taking.now.changes.now taking.now.newly_kept }
        requires from_0 { ForSome mark (λ m. pos 0 ≤ℤ m.1) }
        ensures commits { CommitsTaking (honest C.is_honest) (clean C.is_clean) (standing C.holding) self.old taking.now.changes.now mark result self.new }
        ensures pending { self.new.1 ≡ self.old.1 }
    {
        match self.replica.commit(alloc, taking, mark) {
            Ok(()) => Ok(()),
            Err(error) => Err(Refusal::from(error)),
        }
    }

    /// Takes changes, all in one commit or none, and with them the mark of a peer: its site, and its version, at least 0,
    /// up to which they were taken. Those that lose change nothing. An open transaction stays as it is: whether one forbids the
    /// taking is the caller's to ask. A listener is told what becomes of rows, behind the veto and before the commit.
    ///
    /// # Errors
    /// `BadChange` where a change is not well formed; `VersionLimit` where a kept change would change at the greatest
    /// version; `Veto` where policy or commit hook refuse what would come in; `Memory`, or `Store`. Then nothing is changed.
    pub(crate) fn take_all<G: Guarding>(
        &mut self,
        alloc: Global,
        guard: &mut G,
        changes: &[Change],
        mark: Option<Mark>,
    ) -> Result<(), Refusal>
        requires faithful { G.is_faithful guard.old }
        requires from_0 { ForSome mark (λ m. pos 0 ≤ℤ m.1) }
        ensures takes { TakesAll (⟦<G as Watching>⟧.host guard.old) (honest C.is_honest) (clean C.is_clean) (standing C.holding) self.old changes.now mark result self.new }
        ensures guard { ⟦<G as Watching>⟧.stays guard.old guard.new }
        ensures heard { C.is_clean self.new.0 → Hears (⟦<G as Watching>⟧.hears guard.old guard.new) (heard_between (standing C.holding self.old) (standing C.holding self.new)) result }
        ensures pending { self.new.1 ≡ self.old.1 }
    {
        let taking = match self.approve(alloc, guard, changes) {
            Ok(taking) => taking,
            Err(refusal) => return Err(refusal),
        };
        match self.tell(alloc, guard, changes) {
            Ok(()) => self.commit_taking(alloc, &taking, mark),
            Err(refusal) => Err(refusal),
        }
    }

    // The same of changes that rows show already, as those of an open transaction: nobody is told.
    pub(crate) fn take_shown<G: Guarding>(
        &mut self,
        alloc: Global,
        guard: &G,
        changes: &[Change],
    ) -> Result<(), Refusal>
        requires { G.is_faithful guard.now }
        ensures takes { TakesAll (⟦<G as Watching>⟧.host guard.now) (honest C.is_honest) (clean C.is_clean) (standing C.holding) self.old changes.now None result self.new }
        ensures pending { self.new.1 ≡ self.old.1 }
    {
        match self.approve(alloc, guard, changes) {
            Ok(taking) => self.commit_taking(alloc, &taking, None),
            Err(refusal) => Err(refusal),
        }
    }

    // Why a table is not defined inside a transaction: what stands against it comes first, but for its columns' defaults.
    pub(crate) fn refuse_definition<F: Functions>(
        &mut self,
        alloc: Global,
        functions: &F,
        def: &TableDef,
    ) -> Refusal
        requires { is_some self.old.1 ≡ true }
        ensures does { (has : List ℕ → Bool) (host : Host) → Does (⟦<F as Speaking>⟧.language functions.now has) host (honest C.is_honest) (clean C.is_clean) (standing C.holding) self.old (Define (declared.Table def.now)) (Refused result) self.new }
        ensures pending { self.new.1 ≡ self.old.1 }
    {
        let names = match self.replica.names(alloc) {
            Ok(names) => names,
            Err(error) => return Refusal::from(error),
        };
        match accept(functions, names.tables.as_slice(), def) {
            Ok(()) => Refusal::TransactionState,
            Err(error) => {
                if is_early(error) {
                    of_definition(alloc, def, error)
                } else {
                    Refusal::TransactionState
                }
            }
        }
    }

    fn declare<F: Functions>(
        &mut self,
        alloc: Global,
        functions: &F,
        declaration: &Declaration,
    ) -> FleetReply
        requires { IsReady (Define declaration.now) }
        ensures { (has : List ℕ → Bool) (host : Host) → Does (⟦<F as Speaking>⟧.language functions.now has) host (honest C.is_honest) (clean C.is_clean) (standing C.holding) self.old (Define declaration.now) result self.new }
    {
        match declaration {
            Declaration::Table(def) => reply_of(self.define(alloc, functions, def)),
            Declaration::Real => FleetReply::Refused(Refusal::OutOfProfile(OutOfProfile::Real)),
        }
    }

    fn take_row<G: Guarding>(&mut self, alloc: Global, guard: &mut G, row: &ChangeRow) -> FleetReply
        requires { G.is_faithful guard.old }
        ensures does { (l : Language Statement Ordered) → Does l (⟦<G as Watching>⟧.host guard.old) (honest C.is_honest) (clean C.is_clean) (standing C.holding) self.old (Take row.now) result self.new }
        ensures guard { ⟦<G as Watching>⟧.stays guard.old guard.new }
        ensures heard { C.is_clean self.new.0 → HearsTaking (⟦<G as Watching>⟧.hears) guard.old (heard_between (standing C.holding self.old) (standing C.holding self.new)) result guard.new }
    {
        if self.in_transaction() {
            return FleetReply::Refused(Refusal::TransactionState);
        }
        let change = match row.change(alloc) {
            Ok(Some(change)) => change,
            Ok(None) => return FleetReply::Refused(Refusal::BadChange(BadChange::Shape)),
            Err(AllocError) => return FleetReply::Refused(Refusal::Memory),
        };
        reply_of(self.take_all(alloc, guard, &[change], None))
    }

    fn rows(&mut self, alloc: Global, name: &Text) -> FleetReply
        ensures { (l : Language Statement Ordered) (host : Host) → Does l host (honest C.is_honest) (clean C.is_clean) (standing C.holding) self.old (Rows name.now) result self.new }
    {
        match self.rows_of(alloc, name.as_str()) {
            Ok(rows) => FleetReply::Rows(rows),
            Err(refusal) => FleetReply::Refused(refusal),
        }
    }

    fn changes(&mut self, alloc: Global, version: &i64) -> FleetReply
        ensures { (l : Language Statement Ordered) (host : Host) → Does l host (honest C.is_honest) (clean C.is_clean) (standing C.holding) self.old (Changes version.now) result self.new }
    {
        match self.changes_since(alloc, *version) {
            Ok(changes) => FleetReply::Changes(changes),
            Err(refusal) => FleetReply::Refused(refusal),
        }
    }

    fn sql<F: Functions, G: Guarding>(
        &mut self,
        alloc: Global,
        functions: &F,
        guard: &mut G,
        source: &Text,
    ) -> FleetReply
        requires functions { F.is_faithful functions.now }
        requires guard { G.is_faithful guard.old }
        ensures does { (has : List ℕ → Bool) → ⟦<F as Speaking>⟧.are_names functions.now has
            → Does (⟦<F as Speaking>⟧.language functions.now has) (⟦<G as Watching>⟧.host guard.old) (honest C.is_honest) (clean C.is_clean) (standing C.holding) self.old (Sql source.now) result self.new }
        ensures guard { ⟦<G as Watching>⟧.stays guard.old guard.new }
        ensures heard { (has : List ℕ → Bool) → ⟦<F as Speaking>⟧.are_names functions.now has → C.is_clean self.new.0
            → HearsScript (⟦<G as Watching>⟧.hears) (⟦<F as Speaking>⟧.language functions.now has) (⟦<G as Watching>⟧.host guard.old) guard.old (standing C.holding self.old) source.now result guard.new }
    {
        FleetReply::Script(self.run(alloc, functions, guard, source.as_str()))
    }

    /// Carries out a command that looks at no other replica, and replies what the call gives that it stands for, `define`, `take` of one
    /// change, `rows_of`, `changes_since` or `run`, with its refusals. Any other command is for a fleet, and may not be given.
    pub fn step<F: Functions, G: Guarding>(
        &mut self,
        alloc: Global,
        functions: &F,
        guard: &mut G,
        command: &Command,
    ) -> FleetReply
        requires functions { F.is_faithful functions.now }
        requires guard { G.is_faithful guard.old }
        requires ready { IsReady command.now }
        requires own { is_own command.now ≡ true }
        ensures does { (has : List ℕ → Bool) → ⟦<F as Speaking>⟧.are_names functions.now has
            → Does (⟦<F as Speaking>⟧.language functions.now has) (⟦<G as Watching>⟧.host guard.old) (honest C.is_honest) (clean C.is_clean) (standing C.holding) self.old command.now result self.new }
        ensures guard { ⟦<G as Watching>⟧.stays guard.old guard.new }
        ensures heard { (has : List ℕ → Bool) → ⟦<F as Speaking>⟧.are_names functions.now has → C.is_clean self.new.0
            → HearsOwn (⟦<G as Watching>⟧.hears) (⟦<F as Speaking>⟧.language functions.now has) (⟦<G as Watching>⟧.host guard.old) guard.old (standing C.holding self.old) command.now result (standing C.holding self.new) guard.new }
    {
        match command {
            Command::Define(declaration) => self.declare(alloc, functions, declaration),
            Command::Take(row) => self.take_row(alloc, guard, row),
            Command::Rows(name) => self.rows(alloc, name),
            Command::Changes(version) => self.changes(alloc, version),
            Command::Sql(source) => self.sql(alloc, functions, guard, source),
            Command::Open(_, _)
            | Command::Use(_)
            | Command::Pull(_)
            | Command::PullSince(_)
            | Command::Policy(_) => FleetReply::Refused(Refusal::Command),
        }
    }
}
