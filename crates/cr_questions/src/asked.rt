//! The question about an expression's own node.

ghost use Rattle.std.specs.Prelude.{◌≡◌, get_or};
ghost use Rattle.std.specs.Option.{option_map};
ghost use Rattle.cr_questions.specs.Questions.{call_of, kind_name, no_column, own_name, read_of};
ghost use Rattle.cr_questions.specs.Asked.{own_question, relations, told};

use crate::question::Asked;
use crate::sources::Sources;
use cr_host::meaning::Action;
use cr_lattice::table::ColumnDef;
use cr_term::expr::{Column, Expr};
use cr_term::operator::{Aggregate, BuiltIn};

/// The name of a function of the engine.
pub fn own_name(function: &BuiltIn) -> &'static str
    ensures { result.now ≡ own_name function.now }
{
    match function {
        BuiltIn::Abs => "abs",
        BuiltIn::Coalesce => "coalesce",
        BuiltIn::Hex => "hex",
        BuiltIn::IfNull => "ifnull",
        BuiltIn::Length => "length",
        BuiltIn::Lower => "lower",
        BuiltIn::Max(_) => "max",
        BuiltIn::Min(_) => "min",
        BuiltIn::NullIf(_) => "nullif",
        BuiltIn::TypeOf => "typeof",
        BuiltIn::Upper => "upper",
    }
}

/// The name of an aggregate.
pub fn kind_name(kind: &Aggregate) -> &str
    ensures { result.now ≡ kind_name kind.now }
{
    match kind {
        Aggregate::CountAll | Aggregate::Count => "count",
        Aggregate::Max(_) => "max",
        Aggregate::Min(_) => "min",
        Aggregate::Sum => "sum",
        Aggregate::Host(name) => name.as_str(),
    }
}

/// The question about a call.
pub fn call_of<'a>(name: &'a str) -> Asked<'a>
    ensures { told result ≡ call_of name.now }
{
    Asked {
        action: Action::Function,
        a: "",
        b: name,
    }
}

/// The name of the column at a place, the empty text where there is none. Takes no memory.
pub fn column_name(columns: &[ColumnDef], place: usize) -> &str
    ensures { result.now ≡ (get_or columns.now place no_column).name }
{
    match columns.get(place) {
        Some(column) => column.name.as_str(),
        None => "",
    }
}

/// The question about the reading of a column.
#[tactic(auto, using(crate::proofs::Columns::no_read))]
pub fn read_of<'a>(sources: Sources<'a>, column: &Column) -> Asked<'a>
    ensures { told result ≡ read_of (relations sources.entry) column.now }
{
    match sources.get(column.source) {
        Some(relation) => Asked {
            action: Action::Read,
            a: relation.definition.name.as_str(),
            b: column_name(relation.definition.columns.as_slice(), column.place),
        },
        None => Asked {
            action: Action::Read,
            a: "",
            b: "",
        },
    }
}

/// The question about an expression's own node, which a column and a call have.
pub fn question_of<'a>(sources: Sources<'a>, expr: &'a Expr) -> Option<Asked<'a>>
    ensures { option_map told result ≡ own_question (relations sources.entry) expr.now }
{
    match expr {
        Expr::Column(column) => Some(read_of(sources, column)),
        Expr::BuiltIn(function, _) => Some(call_of(own_name(function))),
        Expr::Host(name, _) => Some(call_of(name.as_str())),
        Expr::Aggregate(kind, _) => Some(call_of(kind_name(kind))),
        Expr::SiteId(_) => Some(call_of("crsql_site_id")),
        Expr::DbVersion(_) => Some(call_of("crsql_db_version")),
        _ => None,
    }
}
