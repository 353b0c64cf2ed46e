//! Result columns, with the names that they get.

ghost use Rattle.std.specs.Prelude.{◌≡◌, ◌++◌, ◌∷◌, [], map, IfOk, OnOk};
ghost use Rattle.std.specs.Option.{option_copied};
ghost use Rattle.std.specs.List.{list_any};
ghost use Rattle.std.specs.Str.{bytes_eq};
ghost use Rattle.cr_resolve.specs.Scope.{is_of, columns_from};
ghost use Rattle.cr_resolve.specs.Queries.{result as result_item, results_of};
ghost use Rattle.cr_resolve.specs.Told.{Reads};
ghost use Rattle.cr_select.specs.Outputs.{shown_column, star_columns, output, as_results};

use cr_lattice::table::ColumnDef;
use cr_resolve::expressions::expr;
use cr_resolve::naming::Naming;
use cr_resolve::reading::Made;
use cr_resolve::refusal::Refusal;
use cr_resolve::scope::Source;
use cr_term::expr::{Column, Expr};
use cr_tree::statement::Shown;
use cr_value::text::Text;
use sqlite_items::Items;
use std::alloc::{AllocError, Global};

/// A result column, and the name that it gets, if it gets one.
#[derive(Drop)]
pub struct Output {
    pub alias: Option<Text>,
    pub expr: Expr,
}

// Whether a source has that name, if one is asked for.
fn is_of(qualifier: Option<&Text>, source: &Text) -> bool
    ensures { result ≡ is_of (option_copied qualifier.entry) source.now }
{
    match qualifier {
        Some(qualifier) => qualifier.as_str() == source.as_str(),
        None => true,
    }
}

// Appends the columns of one source, whose first column has a place in a combination. So many columns that a place is no
// number of 64 bits are more than memory has.
fn push_columns(
    alloc: Global,
    outputs: &mut Items<Output>,
    columns: &[ColumnDef],
    source: usize,
    from: usize,
) -> Result<(), AllocError>
    ensures { OnOk result (outputs.new ≡ outputs.old ++ map shown_column (columns_from [] source 0 from columns.now)) }
{
    for (place, column) in columns.iter().enumerate() {
        outputs.push(Output {
            alias: None,
            expr: Expr::Column(Column {
                source,
                place,
                at: from.checked_add(place).ok_or(AllocError)?,
                affinity: column.affinity,
                collation: column.collation.copy(alloc)?,
            }),
        })?;
    }
    Ok(())
}

// The columns in sight, of the sources of that name if one is asked for.
#[tactic(auto, using(crate::proofs::Star::source_shown, crate::proofs::Star::source_passed))]
fn star(
    alloc: Global,
    sources: &[Source],
    qualifier: Option<&Text>,
) -> Result<Items<Output>, AllocError>
    ensures { IfOk result (λ os. os ≡ star_columns sources.now (option_copied qualifier.entry)) }
{
    let mut outputs = Items::new(alloc);
    let mut from = 0usize;
    for (number, source) in sources.iter().enumerate() {
        let columns = source.relation.definition.columns.as_slice();
        if is_of(qualifier, &source.name) {
            push_columns(alloc, &mut outputs, columns, number, from)?;
        }
        from = from.checked_add(columns.len()).ok_or(AllocError)?;
    }
    Ok(outputs)
}

// Whether a source has that name.
fn has_source(sources: &[Source], name: &Text) -> bool
    ensures { result ≡ list_any (λ s. bytes_eq name.now s.name) sources.now }
{
    for source in sources {
        if name.as_str() == source.name.as_str() {
            return true;
        }
    }
    false
}

// A result column with the name that it gets, if it gets one.
fn named(alloc: Global, expr: Expr, alias: &Option<Text>) -> Result<Items<Output>, AllocError>
    ensures { IfOk result (λ os. os ≡ output expr alias.now ∷ []) }
{
    let alias = match alias {
        Some(alias) => alias.copy(alloc).map(Some),
        None => Ok(None),
    };
    let mut outputs = Items::new(alloc);
    outputs.push(alias.map(|alias| Output { alias, expr })?)?;
    Ok(outputs)
}

// The result columns that one item of a SELECT is.
#[tactic(auto, using(crate::proofs::Star::star_is))]
fn result<K: Naming>(
    alloc: Global,
    known: &K,
    sources: &[Source],
    tree: &Shown,
) -> Result<Made<Items<Output>>, Refusal>
    ensures { Reads (result_item (K.known known.now) sources.now tree.now) (as_results result) }
{
    match tree {
        Shown::All => match sources {
            [] => Err(Refusal::NoSuchColumn(Text::from_str(alloc, "*")?)),
            _ => Ok(Made {
                made: star(alloc, sources, None)?,
                is_misplaced: false,
            }),
        },
        Shown::AllOf(name) => {
            if !has_source(sources, name) {
                return Err(Refusal::NoSuchTable(name.copy(alloc)?));
            }
            Ok(Made {
                made: star(alloc, sources, Some(name))?,
                is_misplaced: false,
            })
        }
        Shown::One(tree, alias) => {
            let expr = expr(alloc, known, sources, true, tree)?;
            Ok(Made {
                made: named(alloc, expr.made, alias)?,
                is_misplaced: expr.is_misplaced,
            })
        }
    }
}

/// The result columns of a SELECT, from left to right.
///
/// # Errors
/// The first that stands against one of them: `NoSuchColumn` of `*` without a table, `NoSuchTable` of `name.*`, and what
/// stands against an expression; `Memory`.
#[tactic(auto, using(crate::proofs::Star::next, crate::proofs::Star::fails))]
pub fn results_of<K: Naming>(
    alloc: Global,
    known: &K,
    sources: &[Source],
    shown: &[Shown],
) -> Result<Made<Items<Output>>, Refusal>
    ensures { Reads (results_of (K.known known.now) sources.now shown.now) (as_results result) }
{
    let mut made = Items::new(alloc);
    let mut is_misplaced = false;
    for tree in shown {
        let more = result(alloc, known, sources, tree)?;
        made.append(more.made)?;
        is_misplaced = is_misplaced || more.is_misplaced;
    }
    Ok(Made { made, is_misplaced })
}
