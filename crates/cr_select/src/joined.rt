//! The tables of FROM, with what joins them.

ghost use Rattle.std.specs.Prelude.{◌≡◌, ◌<◌, suc, length, take, Some, if◌then◌else◌};
ghost use Rattle.cr_resolve.specs.Queries.{is_left, joined_from, written};
ghost use Rattle.cr_resolve.specs.Told.{Reads};
ghost use Rattle.cr_select.specs.Joins.{joined_by};

use crate::parts::{either, expr_if_any, terms_of};
use cr_build::copy::copy_relation;
use cr_resolve::naming::Naming;
use cr_resolve::reading::Made;
use cr_resolve::refusal::Refusal;
use cr_resolve::scope::Source;
use cr_term::query::Joined;
use cr_tree::expr::Expr as Tree;
use cr_tree::statement::{JoinKind, Tables};
use sqlite_items::Items;
use std::alloc::{AllocError, Global};

// Whether it is a LEFT JOIN.
fn is_left(kind: JoinKind) -> bool
    ensures { result ≡ is_left kind }
{
    match kind {
        JoinKind::Comma | JoinKind::Inner | JoinKind::Cross => false,
        JoinKind::Left => true,
    }
}

// The tables that the ON of a table's join sees: that of a LEFT JOIN the table and those to its left.
fn in_sight(sources: &[Source], at: usize, is_left: bool) -> &[Source]
    requires { at < length sources.now }
    ensures { result.now ≡ (if is_left then take (suc at) sources.now else sources.now) }
{
    if is_left { &sources[..at + 1] } else { sources }
}

// A table at a place in FROM, with its ON.
fn joined<K: Naming>(
    alloc: Global,
    known: &K,
    sources: &[Source],
    at: usize,
    is_left: bool,
    on: &Option<Tree>,
    source: &Source,
) -> Result<Made<Joined>, Refusal>
    requires { at < length sources.now }
    ensures { Reads (joined_by (K.known known.now) sources.now at is_left on.now source.now) result }
{
    let on = expr_if_any(alloc, known, in_sight(sources, at, is_left), false, on)?;
    let is_misplaced = on.is_misplaced;
    let on = terms_of(alloc, on.made)?;
    let relation = copy_relation(alloc, &source.relation)?;
    Ok(Made {
        made: Joined {
            relation,
            is_left,
            on,
        },
        is_misplaced,
    })
}

// The tables of a FROM, from left to right, each with its ON.
#[tactic(auto, using(crate::proofs::Joins::next, crate::proofs::Joins::fails))]
fn joined_in<K: Naming>(
    alloc: Global,
    known: &K,
    sources: &[Source],
    tables: &Tables,
) -> Result<Made<Items<Joined>>, Refusal>
    ensures { Reads (joined_from (K.known known.now) sources.now 0 (written (Some tables.now)) sources.now) result }
{
    let mut made = Items::new(alloc);
    let Some((first, rest)) = sources.split_first() else {
        return Ok(Made {
            made,
            is_misplaced: false,
        });
    };
    let first = joined(alloc, known, sources, 0, false, &None, first)?;
    made.push(first.made)?;
    let mut is_misplaced = first.is_misplaced;
    for (place, join) in tables.joins.as_slice().iter().enumerate() {
        let Some(source) = rest.get(place) else {
            break;
        };
        let is_left = is_left(join.kind);
        let next = joined(alloc, known, sources, place + 1, is_left, &join.on, source)?;
        made.push(next.made)?;
        is_misplaced = either(is_misplaced, next.is_misplaced);
    }
    Ok(Made { made, is_misplaced })
}

/// The tables of FROM, from left to right, each with its ON, whose names are found in the sources.
///
/// # Errors
/// The first that stands against a name in an ON; `Memory`.
pub fn joined_from<K: Naming>(
    alloc: Global,
    known: &K,
    sources: &[Source],
    from: &Option<Tables>,
) -> Result<Made<Items<Joined>>, Refusal>
    ensures { Reads (joined_from (K.known known.now) sources.now 0 (written from.now) sources.now) result }
{
    match from {
        Some(tables) => joined_in(alloc, known, sources, tables),
        None => Ok(Made {
            made: Items::new(alloc),
            is_misplaced: false,
        }),
    }
}
