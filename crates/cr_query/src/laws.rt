//! Laws of answers.

ghost use Rattle.std.specs.Prelude.{◌≡◌, List, Bool, Some, None, false};
ghost use Rattle.cr_lattice.specs.declared.table.ColumnDef.{ColumnDef};
ghost use Rattle.cr_bags.specs.Bags.{single};
ghost use Rattle.cr_query.specs.Query.{Meaning, Row, Lawful, SameTables, Refines, answer, holds};
ghost use Rattle.cr_query.specs.Queries.{Query, Joining, Insert, Update, Delete};
ghost use Rattle.cr_query.specs.Writes.{inserted_rows, wanted_by_insert, wanted_by_update, wanted_by_delete};
ghost use Rattle.cr_query.specs.Faults.{QueryLacks, InsertLacks, UpdateLacks, DeleteLacks};
ghost use Rattle.cr_query.specs.Plans.{Gives, QuietIsSafe};

/// An answer depends on which rows each table has and how often, not on their order.
pub fn order_of_rows_changes_no_answer<E>()
    ensures { (m : Meaning E) (q : Query E) (tables more : List (List Row)) → Lawful m → SameTables tables more → answer m q tables ≡ answer m q more }
{}

/// A lawful source in place of the one table of a query, which no LEFT JOIN brings, changes no answer.
pub fn lawful_source_changes_no_answer<E>()
    ensures { (m : Meaning E) (q : Query E) (j : Joining E) (meets : Row → Bool) (rows got : List Row) → Lawful m → QuietIsSafe m → q.sources ≡ single j → j.left ≡ false → ((r : Row) → meets r ≡ false → holds m q.terms r ≡ Some false) → Gives meets rows got → answer m q (single got) ≡ answer m q (single rows) }
{}

/// What is answered with a limit on values is answered without it.
pub fn limits_take_answers_away_alone<E>()
    ensures { (sized exact : Meaning E) (q : Query E) (tables : List (List Row)) (rows : List Row) → Refines sized exact → answer sized q tables ≡ Some rows → answer exact q tables ≡ Some rows }
{}

/// Where a query has no answer, or a write wants no rows, an expression of it lacks a value or a truth where evaluation comes to it.
pub fn what_has_no_answer_lacks_a_value<E>()
    ensures queries { (m : Meaning E) (q : Query E) (tables : List (List Row)) → answer m q tables ≡ None → QueryLacks m q tables }
    ensures inserts { (m : Meaning E) (columns : List ColumnDef) (w : Insert E) (rows : List Row) → (inserted_rows m columns w ≡ None → InsertLacks m w) × (wanted_by_insert m columns w rows ≡ None → InsertLacks m w) }
    ensures updates { (m : Meaning E) (columns : List ColumnDef) (w : Update E) (rows : List Row) → wanted_by_update m columns w rows ≡ None → UpdateLacks m w rows }
    ensures deletes { (m : Meaning E) (w : Delete E) (rows : List Row) → wanted_by_delete m w rows ≡ None → DeleteLacks m w rows }
{}
