//! What a host's definitions mean.

use cr_lattice::change::Change;

/// What a statement does, as an authorizer is asked about it. "Authorizer Action Codes" of SQLite's C interface.
#[derive(Clone, Copy, Debug, PartialEq, Eq)]
pub enum Action {
    CreateTable,
    Delete,
    Insert,
    Read,
    Select,
    Transaction,
    Update,
    AlterTable,
    Function,
}

/// What an authorizer answers. "Compile-Time Authorization Callbacks" of SQLite's C interface.
#[derive(Clone, Copy, Debug, PartialEq, Eq)]
pub enum Auth {
    Ok,
    Deny,
    Ignore,
}

/// What a host's definitions mean, by number. A law is data whose type is a fact.
pub trait HostMeaning {
    ghost use Rattle.std.specs.Prelude.{ℕ, List, Bool, Result};
    ghost use Rattle.std.specs.declared.cmp.Ordering.{Ordering};
    ghost use Rattle.std.specs.Cmp.{IsTotalOrder};
    ghost use Rattle.cr_value.specs.declared.value.Value.{Value};
    ghost use Rattle.cr_lattice.specs.declared.change.Change.{Change};
    ghost use Rattle.cr_host.specs.declared.meaning.Action.{Action};
    ghost use Rattle.cr_host.specs.declared.meaning.Auth.{Auth};

    /// What a scalar function gives of its arguments, or the text of its fault.
    ghost scalar: { ℕ → List Value → Result Value (List ℕ) };

    /// What an aggregate makes of what it holds and the next row, or the text of its fault.
    ghost step: { ℕ → Value → List Value → Result Value (List ℕ) };

    /// What an aggregate gives of what it holds after the last row, or the text of its fault.
    ghost finish: { ℕ → Value → Result Value (List ℕ) };

    /// How two texts stand under a collation.
    ghost order: { ℕ → List ℕ → List ℕ → Ordering };

    /// Each collation is a total preorder: any two texts compare, consistently, and some may tie.
    ghost order_total: { (n : ℕ) → IsTotalOrder (order n) };

    /// What an authorizer answers of an action and its two arguments.
    ghost allows: { ℕ → Action → List ℕ → List ℕ → Auth };

    /// Whether a commit hook refuses these changes.
    ghost vetoes: { ℕ → List Change → Bool };
}
