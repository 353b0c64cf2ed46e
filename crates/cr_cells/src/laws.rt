//! Laws of what a store holds. The contracts are the theorems; nothing runs.

ghost use Rattle.std.specs.Prelude.{◌≡◌, ℕ, ℤ, pos, ◌≤ℤ◌, int_lt, not, ◌&&◌, true, false, List, Option, filter};
ghost use Rattle.std.specs.Option.{ForSome};
ghost use Rattle.cr_lattice.specs.declared.change.Change.{Change};
ghost use Rattle.cr_lattice.specs.declared.stamped.Stamped.{Stamped};
ghost use Rattle.cr_lattice.specs.declared.table.ColumnDef.{ColumnDef};
ghost use Rattle.cr_lattice.specs.Check.{same_bytes};
ghost use Rattle.cr_lattice.specs.Keep.{has, keep, join, SameMembers};
ghost use Rattle.cr_cells.specs.Tables.{AreWellFormed, IsNewColumn, with_added};
ghost use Rattle.cr_cells.specs.Marks.{Mark, seen_of, with_mark};
ghost use Rattle.cr_cells.specs.Holding.{Holding, changes_of, kept_of, has_cell, since, IsSound, empty_holding};
ghost use Rattle.cr_cells.specs.Commit.{newly_kept, is_changed, stamped, cells_after, committed, Batch, after_all, all_changes};

/// After any list of commits the cells are what all that was committed keeps.
pub fn cells_are_what_is_kept()
    ensures from_any { (h : Holding) (bs : List Batch) → keep (kept_of h) ≡ kept_of h
        → kept_of (after_all h bs) ≡ join (kept_of h) (all_changes bs) }
    ensures from_empty { (site : List ℕ) (bs : List Batch) → kept_of (after_all (empty_holding site) bs) ≡ keep (all_changes bs) }
{}

/// A commit stays sound.
pub fn commits_are_sound()
    ensures { (h : Holding) (more : List Change) (peer : Option Mark) → IsSound h → AreWellFormed h.tables more
        → ForSome peer (λ m. pos 0 ≤ℤ m.1) → IsSound (committed h more peer) }
{}

/// A column that is added leaves what is held sound; no cell changes.
pub fn added_columns_are_sound()
    ensures { (h : Holding) (name : List ℕ) (column : ColumnDef) → IsSound h → IsNewColumn h.tables name column
        → IsSound (record h { tables = with_added name column h.tables }) }
{}

/// Where a commit answers true the kept changes are others than before, and where it answers false no cell is another.
pub fn changed_is_not_as_before()
    ensures changed { (kept more : List Change) → is_changed kept more ≡ true → ¬ (join kept more ≡ kept) }
    ensures unchanged { (kept more : List Change) → keep kept ≡ kept → is_changed kept more ≡ false → join kept more ≡ kept }
    ensures cells { (cells : List Stamped) (more : List Change) (version : ℤ) → keep (changes_of cells) ≡ changes_of cells
        → is_changed (changes_of cells) more ≡ false → cells_after cells more version ≡ cells }
    ensures repeated { (kept more : List Change) → is_changed (join kept more) more ≡ false }
{}

/// What is kept after a commit is the join; what was kept before keeps its stamp, and what comes in has the commit's
/// version, and places from 0 on in the order of changes.
pub fn cells_keep_their_stamps()
    ensures kept { (cells : List Stamped) (more : List Change) (version : ℤ) → keep (changes_of cells) ≡ changes_of cells
        → changes_of (cells_after cells more version) ≡ join (changes_of cells) more }
    ensures stays { (cells : List Stamped) (more : List Change) (version : ℤ) (s : Stamped) → keep (changes_of cells) ≡ changes_of cells
        → has_cell (cells_after cells more version) s ≡ true → has (changes_of cells) s.change ≡ true → has_cell cells s ≡ true }
    ensures comes { (cells : List Stamped) (more : List Change) (version : ℤ) → keep (changes_of cells) ≡ changes_of cells
        → filter (λ s. not (has (changes_of cells) s.change)) (cells_after cells more version)
        ≡ stamped version (pos 0) (newly_kept (changes_of cells) more) }
{}

/// The cells above a version, and no others, are listed.
pub fn since_lists_the_cells_above()
    ensures cell { (cells : List Stamped) (version : ℤ) (s : Stamped)
        → has_cell (since cells version) s ≡ (has_cell cells s && int_lt version s.version) }
    ensures changes { (cells : List Stamped) (version : ℤ)
        → SameMembers (changes_of (since cells version)) (changes_of (filter (λ s. int_lt version s.version) cells)) }
    ensures all { (h : Holding) → IsSound h → SameMembers (changes_of (since h.cells (pos 0))) (kept_of h) }
{}

/// A mark that is set is its site's, and the marks of other sites stay.
pub fn marks_are_by_site()
    ensures set { (marks : List Mark) (m : Mark) → seen_of (with_mark marks m) m.0 ≡ m.1 }
    ensures others { (marks : List Mark) (m : Mark) (site : List ℕ) → same_bytes m.0 site ≡ false
        → seen_of (with_mark marks m) site ≡ seen_of marks site }
{}
