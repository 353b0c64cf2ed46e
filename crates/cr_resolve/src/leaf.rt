//! What an expression is as it is written: one integer, one text or one name; and the statement that marks a table.

ghost use Rattle.std.specs.Prelude.{◌≡◌};
ghost use Rattle.std.specs.Option.{option_copied};
ghost use Rattle.cr_tree.specs.declared.expr.Expr.{out-Expr};
ghost use Rattle.cr_resolve.specs.Queries.{integer_of, name_of};
ghost use Rattle.cr_resolve.specs.Resolve.{text_node, only_text, marked_node, marked_shown, is_bare, marked};

use cr_tree::expr::Expr as Tree;
use cr_tree::statement::{Select, Shown};
use cr_value::text::Text;
use cr_value::value::Value;

/// The integer that an expression is, if it is one integer literal.
pub fn integer_of(tree: &Tree) -> Option<i64>
    ensures { result ≡ integer_of tree.now }
{
    match tree {
        Tree::Literal(Value::Int(n)) => Some(*n),
        _ => None,
    }
}

/// The name that an expression is, if it is one name without a source's.
pub fn name_of(tree: &Tree) -> Option<&Text>
    ensures { option_copied result ≡ name_of tree.now }
{
    match tree {
        Tree::Column(None, name) => Some(name),
        _ => None,
    }
}

// The text that an expression is, if it is one text literal.
fn text_of(tree: &Tree) -> Option<&Text>
    ensures { option_copied result ≡ text_node (out-Expr tree.now) }
{
    match tree {
        Tree::Literal(Value::Text(text)) => Some(text),
        _ => None,
    }
}

// The text that is the only one of some expressions, if it is one text literal.
fn only_text(trees: &[Tree]) -> Option<&Text>
    ensures { option_copied result ≡ only_text trees.now }
{
    match trees {
        [tree] => text_of(tree),
        _ => None,
    }
}

// The text in a call that marks a table, if an expression is one.
fn marked_call(tree: &Tree) -> Option<&Text>
    ensures { option_copied result ≡ marked_node (out-Expr tree.now) }
{
    match tree {
        Tree::Call(name, args) => {
            if name.as_str() == "crsql_as_crr" {
                only_text(args.as_slice())
            } else {
                None
            }
        }
        _ => None,
    }
}

// The text in a call that marks a table, if that alone is shown.
fn marked_shown(shown: &[Shown]) -> Option<&Text>
    ensures { option_copied result ≡ marked_shown shown.now }
{
    match shown {
        [Shown::One(tree, None)] => marked_call(tree),
        _ => None,
    }
}

// Whether a SELECT has no part but what it shows.
fn is_bare(select: &Select) -> bool
    ensures { result ≡ is_bare select.now }
{
    !select.distinct
        && select.from.is_none()
        && select.filter.is_none()
        && select.group.is_none()
        && select.having.is_none()
        && select.order.is_none()
        && select.limit.is_none()
}

/// The name of the table that a whole SELECT marks as replicated, if it is that statement.
pub fn marked(select: &Select) -> Option<&Text>
    ensures { option_copied result ≡ marked select.now }
{
    if is_bare(select) {
        marked_shown(select.shown.as_slice())
    } else {
        None
    }
}
