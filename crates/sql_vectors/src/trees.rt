//! Calls of trees. A tree is told as it is printed; if that is read as another tree, what that is printed as follows.
//!
//! | Call | Given | Answers |
//! |---|---|---|
//! | `statement` | a text | the statement at its front |
//! | `length` | a text | how many tokens that statement has |
//! | `parameters` | a text | the greatest number of a parameter in it, or 0 |
//! | `type` | a column's definition | the name of the column's type, in quotes |
//! | `script` | a text | its statements, parted by ` ; `, and the refusal where it stops; or `none` |
//! | `expression` | a text | the SELECT that shows it |

use crate::refusals;
use crate::words::{symbols_of, tokens_of};
use cr_lex::token::Token;
use cr_parse::expression::expression;
use cr_print::print::print;
use cr_statement::script::next_statement;
use cr_statement::sql::statement;
use cr_told::error::ToldError;
use cr_tree::expr::Expr;
use cr_tree::parameters::greatest_parameter;
use cr_tree::statement::{Select, Shown, Statement};
use cr_tree::symbol::Symbol;
use cr_tree::type_name::type_name;
use sqlite_items::Items;
use std::alloc::{AllocError, Global};

// A tree is told by reference, and what a call answers is taken by `?` before the tree is dropped: the same functions with
// the call at their end, or with the tree moved out of a match, take minutes to prove and not seconds.

// What the statement at the front of a text is printed as.
fn reprinted(alloc: Global, text: &str) -> Result<String, ToldError> {
    let tokens = tokens_of(alloc, text)?;
    let read = statement(alloc, text, &tokens);
    Ok(match &read {
        Ok((tree, _)) => print(alloc, tree)?,
        Err(refusal) => refusals::of_sql(alloc, refusal)?,
    })
}

fn printed(alloc: Global, tree: &Statement) -> Result<String, ToldError> {
    let once = print(alloc, tree)?;
    let again = reprinted(alloc, once.as_str())?;
    if again.as_str() == once.as_str() {
        return Ok(once);
    }
    Ok(format!(in alloc; "{once} read as {again}")?)
}

// The name of the type of the column that a statement adds.
fn added_type(alloc: Global, tree: &Statement) -> Result<String, ToldError> {
    let Statement::Alter(alter) = tree else {
        return Err(ToldError::Form);
    };
    let name = type_name(alloc, alter.column.type_words.as_slice())?;
    Ok(format!(in alloc; "'{}'", name.as_str())?)
}

fn of_statement(alloc: Global, text: &str) -> Result<String, ToldError> {
    let tokens = tokens_of(alloc, text)?;
    let read = statement(alloc, text, &tokens);
    Ok(match &read {
        Ok((tree, _)) => printed(alloc, tree)?,
        Err(refusal) => refusals::of_sql(alloc, refusal)?,
    })
}

fn length(alloc: Global, text: &str) -> Result<String, ToldError> {
    let tokens = tokens_of(alloc, text)?;
    let read = statement(alloc, text, &tokens);
    Ok(match &read {
        Ok((_, len)) => format!(in alloc; "{len}")?,
        Err(refusal) => refusals::of_sql(alloc, refusal)?,
    })
}

fn parameters(alloc: Global, text: &str) -> Result<String, ToldError> {
    let tokens = tokens_of(alloc, text)?;
    let read = statement(alloc, text, &tokens);
    Ok(match &read {
        Ok((tree, _)) => format!(in alloc; "{}", greatest_parameter(tree))?,
        Err(refusal) => refusals::of_sql(alloc, refusal)?,
    })
}

fn of_column(alloc: Global, definition: &str) -> Result<String, ToldError> {
    let text = format!(in alloc; "ALTER TABLE t ADD COLUMN {definition}")?;
    let tokens = tokens_of(alloc, text.as_str())?;
    let read = statement(alloc, text.as_str(), &tokens);
    Ok(match &read {
        Ok((tree, _)) => added_type(alloc, tree)?,
        Err(refusal) => refusals::of_sql(alloc, refusal)?,
    })
}

// Puts the next statement of a script behind those before it, or its refusal. How many tokens stand up to its end; `None`
// where the script ends or is refused.
fn push_next(
    alloc: Global,
    source: &str,
    rest: &[Token],
    out: &mut String,
) -> Result<Option<usize>, ToldError> {
    let next = next_statement(alloc, source, rest);
    let (told, len) = match &next {
        Ok(None) => return Ok(None),
        Ok(Some((tree, len))) => (printed(alloc, tree)?, Some(*len)),
        Err(refusal) => (refusals::of_sql(alloc, refusal)?, None),
    };
    if !out.is_empty() {
        out.push_str(" ; ")?;
    }
    out.push_str(told.as_str())?;
    Ok(len)
}

fn of_script(alloc: Global, text: &str) -> Result<String, ToldError> {
    let tokens = tokens_of(alloc, text)?;
    let mut out = String::new(alloc);
    let mut rest = tokens.as_slice();
    for _turn in 0..=tokens.len() {
        let Some(len) = push_next(alloc, text, rest, &mut out)? else {
            break;
        };
        rest = rest.get(len..).unwrap_or(&[]);
    }
    if out.is_empty() {
        out.push_str("none")?;
    }
    Ok(out)
}

// The SELECT that shows an expression.
fn select(alloc: Global, shown: Expr) -> Result<Statement, AllocError> {
    let mut all = Items::new(alloc);
    all.push(Shown::One(shown, None))?;
    Ok(Statement::Select(Select {
        distinct: false,
        shown: all,
        from: None,
        filter: None,
        group: None,
        having: None,
        order: None,
        limit: None,
    }))
}

fn shown(alloc: Global, tree: Expr) -> Result<String, ToldError> {
    let made = select(alloc, tree);
    Ok(match &made {
        Ok(select) => printed(alloc, select)?,
        Err(_) => return Err(ToldError::Memory),
    })
}

// Why symbols are refused that were read as no expression.
fn refused(alloc: Global, symbols: &[Symbol]) -> Result<String, ToldError> {
    let Err(refusal) = expression(alloc, symbols) else {
        return Err(ToldError::Memory);
    };
    Ok(refusals::of_symbols(alloc, &refusal)?)
}

fn of_expression(alloc: Global, text: &str) -> Result<String, ToldError> {
    let symbols = symbols_of(alloc, text)?;
    let Ok(tree) = expression(alloc, &symbols) else {
        return Ok(refused(alloc, &symbols)?);
    };
    Ok(shown(alloc, tree)?)
}

/// What a call answers; `None` where it isn't one of these.
pub(crate) fn answer(alloc: Global, call: &str, given: &str) -> Result<Option<String>, ToldError> {
    Ok(Some(match call {
        "statement" => of_statement(alloc, given)?,
        "length" => length(alloc, given)?,
        "parameters" => parameters(alloc, given)?,
        "type" => of_column(alloc, given)?,
        "script" => of_script(alloc, given)?,
        "expression" => of_expression(alloc, given)?,
        _ => return Ok(None),
    }))
}
