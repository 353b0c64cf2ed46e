//! Laws of what expressions mean to queries. The contracts are the theorems; nothing runs.

ghost use Rattle.std.specs.Prelude.{◌≡◌, ℕ, List, Option, None};
ghost use Rattle.std.specs.Cmp.{IsTotalOrder};
ghost use Rattle.cr_value.specs.declared.value.Value.{Value};
ghost use Rattle.cr_lattice.specs.declared.table.ColumnDef.{ColumnDef};
ghost use Rattle.cr_scalar.specs.Host.{Host};
ghost use Rattle.cr_scalar.specs.declared.fault.EvalFault.{EvalFault};
ghost use Rattle.cr_query.specs.Queries.{Query, Insert, Update, Delete};
ghost use Rattle.cr_query.specs.Query.{Row, Lawful, Refines, answer};
ghost use Rattle.cr_query.specs.Writes.{inserted_rows, wanted_by_insert, wanted_by_update, wanted_by_delete};
ghost use Rattle.cr_query.specs.Plans.{QuietIsSafe};
ghost use Rattle.cr_meaning.specs.View.{Ordered};
ghost use Rattle.cr_meaning.specs.Meaning.{Regard, IsLimit, meaning, regarded, sized};
ghost use Rattle.cr_meaning.specs.Faults.{alone, QueryFaults, InsertFaults, UpdateFaults, DeleteFaults};

/// A limit on values takes meanings away and changes none: what has a value with it has the same without, whatever stands for
/// faults.
pub fn limits_refine()
    ensures { (host : Host) (params : List Value) (g : Regard) → IsLimit g.most → Refines (sized host params) (regarded g host params) }
{}

/// Quiet terms never fault, with a limit on values and without.
pub fn quiet_terms_are_safe()
    ensures { (g : Regard) (host : Host) (params : List Value) → QuietIsSafe (regarded g host params) }
{}

/// Where each collation is a total preorder, expressions order values by total preorders, and an aggregate gives what it
/// gives of its combinations in any order.
pub fn meanings_are_lawful()
    ensures { (most : Option ℕ) (host : Host) (params : List Value) → ((name : List ℕ) → IsTotalOrder (host.order name)) → Lawful (meaning most host params) }
{}

/// Where one fault alone counts, a query without an answer has an expression with this fault, on a combination or over a group to
/// which evaluation comes with it; so has a write, on a row of its table.
pub fn what_has_no_answer_has_a_fault()
    ensures queries { (host : Host) (params : List Value) (f : EvalFault) (q : Query Ordered) (tables : List (List Row)) → answer (regarded (alone f) host params) q tables ≡ None → QueryFaults host params f q tables }
    ensures inserts { (host : Host) (params : List Value) (f : EvalFault) (columns : List ColumnDef) (w : Insert Ordered) (rows : List Row)
        → (inserted_rows (regarded (alone f) host params) columns w ≡ None → InsertFaults host params f w) × (wanted_by_insert (regarded (alone f) host params) columns w rows ≡ None → InsertFaults host params f w) }
    ensures updates { (host : Host) (params : List Value) (f : EvalFault) (columns : List ColumnDef) (w : Update Ordered) (rows : List Row) → wanted_by_update (regarded (alone f) host params) columns w rows ≡ None → UpdateFaults host params f w rows }
    ensures deletes { (host : Host) (params : List Value) (f : EvalFault) (w : Delete Ordered) (rows : List Row) → wanted_by_delete (regarded (alone f) host params) w rows ≡ None → DeleteFaults host params f w rows }
{}
