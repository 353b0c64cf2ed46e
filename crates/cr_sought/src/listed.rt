//! The keys that the terms of a WHERE ask for, by a list of constants too.

ghost use Rattle.std.specs.Prelude.{◌≡◌, IfOk};
ghost use Rattle.std.specs.Option.{option_map};
ghost use Rattle.cr_sought.specs.Lists.{first_not_quiet, is_key_at, item, items_of, keys_in, list_of, listed_keys, sought_keys, within_limit};

use crate::joined::Lookup;
use crate::key::{is_of_key, key_told, push_key};
use crate::pin::{constant, on_right};
use crate::telling::{Given, Telling};
use cr_expr::quiet::is_quiet;
use cr_lattice::profile::BINARY;
use cr_lattice::table::TableDef;
use cr_scalar::operand::Operand;
use cr_term::expr::Expr;
use cr_term::operator::Adjusted;
use cr_value::order::same_bytes;
use cr_value::packing::SIZE_LIMIT;
use cr_value::text::Bytes;
use cr_value::value::Value;
use std::alloc::{AllocError, Global};

/// The most items of a list by which rows are looked up.
const MOST_ITEMS: usize = 1000;

/// A column, by its place in a combination, and the only values that it has where a term is true.
#[derive(Drop)]
struct Listed {
    at: usize,
    values: Vec<Value>,
}

fn first_not_quiet(terms: &[Expr]) -> Option<&Expr>
    ensures { option_map (λ term. term.now) result ≡ first_not_quiet terms.now }
{
    terms.iter().find(|term| !is_quiet(term))
}

// A value that is no larger than any may be.
fn within_limit<'a>(value: Operand<'a>) -> Option<Operand<'a>>
    ensures { result ≡ within_limit value.entry }
{
    if value.get().byte_len() > SIZE_LIMIT {
        return None;
    }
    Some(value)
}

// The value of an item that is a literal or a parameter.
fn item<'a>(params: &'a [Value], expr: &'a Expr) -> Option<Operand<'a>>
    ensures { result ≡ item params.now expr.now }
{
    match expr {
        Expr::Literal(_) | Expr::Param(_) => match constant(params, expr) {
            Some(value) => within_limit(value),
            None => None,
        },
        _ => None,
    }
}

// What the comparisons make of the items, where all are constants and the operand is left as it is.
fn items_of(
    alloc: Global,
    params: &[Value],
    adjusted: Adjusted,
    items: &[Expr],
) -> Result<Option<Vec<Value>>, AllocError>
    ensures { IfOk result (λ o. option_map (λ v. v.items) o ≡ items_of params.now adjusted items.now) }
{
    let mut values = Vec::new(alloc);
    for expr in items {
        let Some(value) = item(params, expr) else {
            return Ok(None);
        };
        match on_right(alloc, adjusted, value)? {
            Some(value) => values.push(value)?,
            None => return Ok(None),
        }
    }
    Ok(Some(values))
}

// The column and the values of `column IN (constants)`, compared byte by byte.
fn list_of(alloc: Global, params: &[Value], term: &Expr) -> Result<Option<Listed>, AllocError>
    ensures { IfOk result (λ o. option_map (λ l. (l.at, l.values.items)) o ≡ list_of params.now term.now) }
{
    let Expr::In(false, meeting, operand, items) = term else {
        return Ok(None);
    };
    let items = items.as_slice();
    if !same_bytes(meeting.collation.as_str().as_bytes(), BINARY.as_bytes())
        || items.len() > MOST_ITEMS
    {
        return Ok(None);
    }
    let Expr::Column(column) = operand.get() else {
        return Ok(None);
    };
    match items_of(alloc, params, meeting.adjusted, items)? {
        Some(values) => Ok(Some(Listed {
            at: column.at,
            values,
        })),
        None => Ok(None),
    }
}

// Whether the column at a place of a combination is one of the key of the table that is looked up.
fn is_key_at(lookup: &Lookup<'_>, at: usize) -> bool
    ensures { result ≡ is_key_at lookup.now.base lookup.now.definition.now at }
{
    at >= lookup.base && is_of_key(lookup.definition, at - lookup.base)
}

// The keys of the rows in which the column has one of the values, and the others of the key those that the terms pin them to.
fn keys_in(
    alloc: Global,
    lookup: &Lookup<'_>,
    listed: &Listed,
) -> Result<Option<Vec<Bytes>>, AllocError>
    ensures { IfOk result (λ o. option_map (λ v. v.items) o ≡ keys_in lookup.now.base lookup.now.definition.now lookup.now.params.now lookup.now.terms.now (listed.now.at, listed.now.values.items)) }
{
    if !is_key_at(lookup, listed.at) {
        return Ok(None);
    }
    let mut keys = Vec::new(alloc);
    for value in &listed.values {
        let given = Given {
            at: listed.at,
            value,
        };
        let telling = Telling::alone(lookup.params, lookup.terms, Some(given));
        match key_told(alloc, &telling, lookup.base, lookup.definition)? {
            Some(key) => push_key(&mut keys, key)?,
            None => return Ok(None),
        }
    }
    Ok(Some(keys))
}

/// The packed keys of the only rows of a table on which terms can be true, where a list tells them; `None` where none does. The
/// first of the terms that isn't quiet (`is_quiet`) is `column IN (constants)` of a column of the key, with 1,000 literals or
/// parameters at most, compared byte by byte and with the column's value as it is, and for each other column of the key one is
/// `column = constant`, or turned round, compared in the same way. Of an item that is NULL there is no key.
///
/// Fails for want of memory alone.
#[tactic(auto, unfolding(crate::specs::Lists::listed_keys))]
pub fn listed_keys(alloc: Global, lookup: &Lookup<'_>) -> Result<Option<Vec<Bytes>>, AllocError>
    ensures { IfOk result (λ o. option_map (λ v. v.items) o ≡ listed_keys lookup.now.base lookup.now.definition.now lookup.now.params.now lookup.now.terms.now) }
{
    let Some(term) = first_not_quiet(lookup.terms) else {
        return Ok(None);
    };
    match list_of(alloc, lookup.params, term)? {
        Some(listed) => keys_in(alloc, lookup, &listed),
        None => Ok(None),
    }
}

/// The packed keys of the only rows of a table on which the terms can be true; `None` where they do not tell them. They tell
/// them in one of two ways.
///
/// For each column of the key one term is `column = constant` or `constant = column`, compared byte by byte and with the column's value
/// as it is: then it is one key, or none where a constant is NULL.
///
/// Or a list tells them, as of `listed_keys`: then it is a key for each item that isn't NULL.
///
/// A key of over 1,000,000 bytes tells nothing, nor does a longer item. `params` are the parameters' values, from number 1 on.
/// Fails for want of memory alone.
pub fn sought_keys<'a>(
    alloc: Global,
    definition: &'a TableDef,
    terms: &'a [Expr],
    params: &'a [Value],
) -> Result<Option<Vec<Bytes>>, AllocError>
    ensures { IfOk result (λ o. option_map (λ v. v.items) o ≡ sought_keys definition.now params.now terms.now) }
{
    let telling = Telling::alone(params, terms, None);
    let Some(key) = key_told(alloc, &telling, 0, definition)? else {
        let lookup = Lookup {
            definition,
            base: 0,
            terms,
            params,
        };
        return listed_keys(alloc, &lookup);
    };
    let mut keys = Vec::new(alloc);
    push_key(&mut keys, key)?;
    Ok(Some(keys))
}
