//! Laws of expressions. The contracts are the theorems; nothing runs.

ghost use Rattle.cr_expr.specs.Laws.{QuietNeverFaults, LimitTakesAway, ReadsItsColumns};

/// A quiet expression has a value, and so has the question whether it is true, but for values over the limit.
pub fn quiet_expressions_never_fault()
    ensures { QuietNeverFaults }
{}

/// With the limit of size taken away a value or a fault stays what it is, unless it was that a value is too big.
pub fn the_limit_changes_no_value()
    ensures { LimitTakesAway }
{}

/// An expression reads the columns that stand in it, and no other, and the group only where an aggregate does.
pub fn an_expression_reads_its_columns()
    ensures { ReadsItsColumns }
{}
