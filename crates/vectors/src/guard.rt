//! Calls of a host's guard. It has an authorizer that denies READ of `t.name`, a policy that ignores it, and a commit hook
//! that refuses more than two changes.
//!
//! | Call | Given |
//! |---|---|
//! | `asks` | an action, and its two texts: the answer of the authorizer, of both, of the policy, and of neither |
//! | `vetoes` | changes: whether they are refused, and whether they are without the hook |
//! | `action`, `auth` | a word, whose number is told |

use cr_guard::action::{Action, Auth, action_code, auth_code};
use cr_guard::closures::{AuthorizerFn, CommitHookFn};
use cr_guard::guard::Guard;
use cr_guard::guarding::Guarding;
use cr_guard::policy::{PolicyRule, ReadRule};
use cr_guard::samples::{denies_names, refuses_over_two};
use cr_host::meaning::HostMeaning;
use cr_lattice::change::Change;
use cr_told::error::ToldError;
use cr_told::reading::changes;
use cr_value::text::Text;
use std::alloc::{AllocError, Global};

struct Host;

impl HostMeaning for Host {
    ghost use Rattle.std.specs.Prelude.{length, [], Err};
    ghost use Rattle.std.specs.Cmp.{on_total, nat_cmp_total};
    ghost use Rattle.cr_host.specs.Samples.{bylen};
    ghost use Rattle.cr_guard.specs.Samples.{denies_names, refuses_over_two};

    ghost scalar = { λ n args. Err [] };

    ghost step = { λ n held row. Err [] };

    ghost finish = { λ n held. Err [] };

    ghost order = { λ _. bylen };

    ghost order_total = { λ _. on_total length nat_cmp_total };

    ghost allows = { λ _. denies_names };

    ghost vetoes = { λ _. refuses_over_two };
}

fn action_named(word: &str) -> Result<Action, ToldError> {
    match word {
        "CreateTable" => Ok(Action::CreateTable),
        "Delete" => Ok(Action::Delete),
        "Insert" => Ok(Action::Insert),
        "Read" => Ok(Action::Read),
        "Select" => Ok(Action::Select),
        "Transaction" => Ok(Action::Transaction),
        "Update" => Ok(Action::Update),
        "AlterTable" => Ok(Action::AlterTable),
        "Function" => Ok(Action::Function),
        _ => Err(ToldError::Form),
    }
}

fn auth_named(word: &str) -> Result<Auth, ToldError> {
    match word {
        "Ok" => Ok(Auth::Ok),
        "Deny" => Ok(Auth::Deny),
        "Ignore" => Ok(Auth::Ignore),
        _ => Err(ToldError::Form),
    }
}

// READ of `t.name` is ignored.
fn ignored_name(alloc: Global) -> Result<PolicyRule, AllocError> {
    Ok(PolicyRule::Read(ReadRule {
        table: Text::from_str(alloc, "t")?,
        column: Text::from_str(alloc, "name")?,
        answer: Auth::Ignore,
    }))
}

fn asked(alloc: Global, given: &str) -> Result<String, ToldError> {
    let (word, texts) = given.split_once(' ').ok_or(ToldError::Form)?;
    let (a, b) = texts.split_once(' ').ok_or(ToldError::Form)?;
    let action = action_named(word)?;
    let mut guard: Guard<Host> = Guard::new(alloc);
    let neither = guard.ask(action, a, b);
    let answer: AuthorizerFn = Box::new(
        alloc,
        |action: Action, a: &str, b: &str| denies_names(action, a, b),
    )?;
    guard.set_authorizer(0, answer);
    let authorizer = guard.ask(action, a, b);
    guard.policy(alloc, &ignored_name(alloc)?)?;
    let both = guard.ask(action, a, b);
    guard.clear_authorizer();
    let policy = guard.ask(action, a, b);
    Ok(format!(in alloc; "{authorizer:?} {both:?} {policy:?} {neither:?}")?)
}

fn vetoed(alloc: Global, given: &str) -> Result<String, ToldError> {
    let changes = changes(alloc, given)?;
    let mut guard: Guard<Host> = Guard::new(alloc);
    let refuses: CommitHookFn = Box::new(alloc, |changes: &[Change]| refuses_over_two(changes))?;
    guard.set_commit_hook(0, refuses);
    let with = guard.vetoes(&changes);
    guard.clear_commit_hook();
    Ok(format!(in alloc; "{with}, {}", guard.vetoes(&changes))?)
}

/// What a call answers; `None` where it isn't one of these.
pub(crate) fn answer(alloc: Global, call: &str, given: &str) -> Result<Option<String>, ToldError> {
    Ok(Some(match call {
        "asks" => asked(alloc, given)?,
        "vetoes" => vetoed(alloc, given)?,
        "action" => format!(in alloc; "{}", action_code(action_named(given)?))?,
        "auth" => format!(in alloc; "{}", auth_code(auth_named(given)?))?,
        _ => return Ok(None),
    }))
}
