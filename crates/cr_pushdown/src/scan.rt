//! The rows of a table that a WHERE may keep, read page by page.

ghost use Rattle.std.specs.Prelude.{◌≡◌, ◌<◌, ◌≤◌, filter, length, IfOk, MatchOption};
ghost use Rattle.std.specs.List.Sorted.{IsSortedBy};
ghost use Rattle.std.specs.Option.{ForSome, option_copied};
ghost use Rattle.cr_lattice.specs.Keep.{join, keep};
ghost use Rattle.cr_lattice.specs.Rows.{has_lesser_key, rows};
ghost use Rattle.cr_cells.specs.Calls.{Reads, is_want, StaysClean};
ghost use Rattle.cr_cells.specs.Holding.{kept_of};
ghost use Rattle.cr_cells.specs.Pages.{up_to};
ghost use Rattle.cr_module.specs.Lawful.{AreWide};
ghost use Rattle.cr_pushdown.specs.Passing.{passing};
ghost use Rattle.cr_pushdown.specs.Scan.{is_behind, is_of};

use crate::passing::passing;
use cr_cells::store::{Cells, CellsError, StoreFault};
use cr_expr::given::Hosted;
use cr_host::functions::Functions;
use cr_lattice::change::Change;
use cr_lattice::merge::{keep, merge};
use cr_lattice::rows::changes_of_table;
use cr_lattice::table::{Items, Row, TableDef};
use cr_module::rows::rows_of_table;
use cr_replica::replica::Replica;
use cr_tables::kept::Kept;
use cr_term::expr::Expr;
use cr_value::order::cmp_bytes;
use cr_value::text::Bytes;
use cr_value::value::Value;
use std::alloc::{AllocError, Global};

/// How many keys are read at once.
const PAGE_KEYS: usize = 64;

/// More pages than a store can have.
pub const MOST_PAGES: u64 = u64::MAX;

/// A reading of a table, page by page: of what is kept, and with it of further changes.
#[derive(Drop)]
pub struct Scan<'a> {
    def: &'a TableDef,
    // The key behind which the next page begins, if it isn't the first.
    after: Option<Bytes>,
    // The further changes behind that key, all of the table.
    later: &'a [Change],
    is_at_end: bool,
}

fn lent(after: &Option<Bytes>) -> Option<&[u8]>
    ensures { option_copied result ≡ after.now }
{
    match after {
        Some(after) => Some(after.as_slice()),
        None => None,
    }
}

fn is_up_to(change: &Change, bound: &Bytes) -> bool
    ensures { result ≡ up_to (Some bound.now) change.now.pk }
{
    cmp_bytes(change.pk.as_slice(), bound.as_slice()).is_le()
}

// Changes up to the end of a page, and those behind it.
fn split<'a>(changes: &'a [Change], bound: &Option<Bytes>) -> (&'a [Change], &'a [Change])
    requires { IsSortedBy has_lesser_key changes.now }
    ensures front { result.0.now ≡ filter (λ c. up_to bound.now c.pk) changes.now }
    ensures back { result.1.now ≡ filter (is_behind bound.now) changes.now }
    ensures sorted { IsSortedBy has_lesser_key result.1.now }
{
    match bound {
        Some(bound) => changes.split_at(changes.partition_point(|change| is_up_to(change, bound))),
        None => (changes, &[]),
    }
}

// What is kept, and with it further changes.
fn joined(alloc: Global, kept: Vec<Change>, more: &[Change]) -> Result<Vec<Change>, AllocError>
    ensures { keep kept.items ≡ kept.items → IfOk result (λ v. v.items ≡ join kept.items more.now) }
{
    if more.is_empty() {
        return Ok(kept);
    }
    merge(alloc, &kept, more)
}

/// What is kept of those changes that are of a table. Fails for want of memory alone.
pub fn own_changes(
    alloc: Global,
    def: &TableDef,
    changes: &[Change],
) -> Result<Vec<Change>, AllocError>
    ensures kept { IfOk result (λ v. v.items ≡ keep (filter (is_of def.now) changes.now)) }
    ensures sorted { IfOk result (λ v. IsSortedBy has_lesser_key v.items) }
    ensures of { IfOk result (λ v. filter (is_of def.now) v.items ≡ v.items) }
{
    let own = changes_of_table(alloc, changes, def.name.as_str())?;
    let kept = keep(own)?;
    Ok(kept)
}

// The rows that changes show of a table.
fn rows_shown(alloc: Global, def: &TableDef, changes: &[Change]) -> Result<Vec<Row>, AllocError>
    ensures { IfOk result (λ v. v.items ≡ rows changes.now def.now) }
{
    let mut kept = Kept {
        changes,
        definition: def,
    };
    match rows_of_table(alloc, &mut kept, 0) {
        Ok(rows) => Ok(rows.into_vec()),
        Err(_) => Err(AllocError),
    }
}

impl<'a> Scan<'a> {
    ghost use Rattle.std.specs.Prelude.{◌≡◌, ◌++◌, filter, false, None, IfOk};
    ghost use Rattle.std.specs.List.Sorted.{IsSortedBy};
    ghost use Rattle.cr_lattice.specs.Rows.{has_lesser_key};
    ghost use Rattle.cr_cells.specs.Calls.{Reads, is_want, StaysClean};
    ghost use Rattle.cr_cells.specs.Holding.{kept_of};
    ghost use Rattle.cr_module.specs.Lawful.{AreWide};
    ghost use Rattle.cr_pushdown.specs.Scan.{is_of, rows_left, IsFrom, IsFurther, Stands};

    /// A reading of a table from its first page on: of what is kept, and with it of what is kept of further changes of the table.
    pub fn new(def: &'a TableDef, own: &'a [Change]) -> Scan<'a>
        requires sorted { IsSortedBy has_lesser_key own.now }
        requires of { filter (is_of def.now) own.now ≡ own.now }
        ensures stands { Stands result }
        ensures begins { IsFrom def.now own.now result }
    {
        Scan {
            def,
            after: None,
            later: own,
            is_at_end: false,
        }
    }

    /// Whether no page is left.
    pub fn is_at_end(&self) -> bool
        ensures { result ≡ self.now.is_at_end }
    {
        self.is_at_end
    }

    /// The rows of the next page, one being left, that a WHERE of these terms may keep.
    ///
    /// `params` are the parameters' values, from number 1 on.
    ///
    /// # Errors
    /// `Memory`, or `Store(Refused)`; then the reading serves no more.
    pub fn next_page<C: Cells, F: Functions>(
        &mut self,
        alloc: Global,
        replica: &mut Replica<C>,
        functions: &F,
        terms: &[Expr],
        params: &[Value],
    ) -> Result<Vec<Row>, CellsError>
        requires functions { F.is_faithful functions.now }
        requires stands { Stands self.old }
        requires left { self.old.is_at_end ≡ false }
        ensures device { StaysClean C.is_honest C.is_clean is_want replica.old replica.new result }
        ensures reads { C.is_clean replica.new → Reads (C.holding replica.old) (C.holding replica.new) result
            (λ page. (page.items ++ rows_left (⟦<F as Hosted>⟧.means functions.now) params.now terms.now (kept_of (C.holding replica.old)) self.new
            ≡ rows_left (⟦<F as Hosted>⟧.means functions.now) params.now terms.now (kept_of (C.holding replica.old)) self.old)
            × IsFurther self.old self.new) }
        ensures stands { IfOk result (λ page. Stands self.new) }
        ensures wide { IfOk result (λ page. AreWide self.old.def.now.columns page.items) }
        ensures table { self.new.def.now ≡ self.old.def.now }
    {
        let page = match replica.kept_page(
            alloc,
            self.def.name.as_str(),
            lent(&self.after),
            PAGE_KEYS,
        ) {
            Ok(page) => page,
            Err(error) => return Err(error),
        };
        let (now, later) = split(self.later, &page.bound);
        let kept = joined(alloc, page.kept, now)?;
        let shown = rows_shown(alloc, self.def, &kept)?;
        let rows = passing(alloc, functions, shown, terms, params)?;
        self.later = later;
        self.is_at_end = page.bound.is_none();
        self.after = page.bound;
        Ok(rows)
    }
}

/// The rows of a table that a WHERE of these terms may keep, as of `passing`: of what is kept, and with it of further changes, as those
/// of an open transaction, in any order and of any tables; `None` where they are more than `most`. Reads the table page by page, so that
/// beside these rows a page is held.
///
/// `params` are the parameters' values, from number 1 on.
///
/// # Errors
/// `Memory`, or `Store(Refused)`.
pub fn passing_rows<C: Cells, F: Functions>(
    alloc: Global,
    replica: &mut Replica<C>,
    functions: &F,
    def: &TableDef,
    changes: &[Change],
    terms: &[Expr],
    params: &[Value],
    most: usize,
) -> Result<Option<Items<Row>>, CellsError>
    requires functions { F.is_faithful functions.now }
    ensures device { StaysClean C.is_honest C.is_clean is_want replica.old replica.new result }
    ensures reads { C.is_clean replica.new → Reads (C.holding replica.old) (C.holding replica.new) result
        (λ found. MatchOption found
        (most < length (passing (⟦<F as Hosted>⟧.means functions.now) params.now terms.now def.now (join (kept_of (C.holding replica.old)) changes.now)))
        (λ rows. rows ≡ passing (⟦<F as Hosted>⟧.means functions.now) params.now terms.now def.now (join (kept_of (C.holding replica.old)) changes.now))) }
    ensures few { IfOk result (λ found. ForSome found (λ rows. length rows ≤ most)) }
    ensures wide { IfOk result (λ found. ForSome found (AreWide def.now.columns)) }
{
    let own = own_changes(alloc, def, changes)?;
    let mut scan = Scan::new(def, &own);
    let mut out = Vec::new(alloc);
    for _ in 0..MOST_PAGES {
        if scan.is_at_end() {
            return Ok(Some(Items::new(out)));
        }
        let mut page = match scan.next_page(alloc, replica, functions, terms, params) {
            Ok(page) => page,
            Err(error) => return Err(error),
        };
        match out.append(&mut page) {
            Ok(()) => {}
            Err(_) => return Err(CellsError::Memory),
        }
        if out.len() > most {
            return Ok(None);
        }
    }
    Err(CellsError::Store(StoreFault::Refused))
}
