//! Which expressions are quiet.

ghost use Rattle.std.specs.Prelude.{◌≡◌};
ghost use Rattle.cr_term.specs.Terms.{plain, quiet};

use cr_term::expr::Expr;
use cr_term::operator::Unary;

// A column, a literal or a parameter, possibly under COLLATE.
fn is_plain(expr: &Expr) -> bool
    ensures { result ≡ plain expr.now }
{
    match expr {
        Expr::Literal(_) | Expr::Param(_) | Expr::Column(_) => true,
        Expr::Collate(operand, _) => is_plain(operand.get()),
        _ => false,
    }
}

/// Whether an expression is a comparison, IS, IS NOT or a null test of columns, literals and parameters, each possibly
/// under COLLATE: no row makes it fault. Takes no memory.
pub fn is_quiet(expr: &Expr) -> bool
    ensures { result ≡ quiet expr.now }
{
    match expr {
        Expr::Compare(_, _, left, right) => is_plain(left.get()) && is_plain(right.get()),
        Expr::Unary(Unary::IsNull | Unary::NotNull, operand) => is_plain(operand.get()),
        _ => false,
    }
}
