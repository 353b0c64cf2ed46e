//! What a host gives, as what is promised of statements speaks of it.

ghost use Rattle.std.specs.Prelude.{ℕ, Bool, List};

use cr_guard::guarding::Guarding;
use cr_host::functions::Functions;

/// Functions and collations, with the language that statements are in with them.
pub trait Speaking: Functions {
    ghost use Rattle.std.specs.Prelude.{ℕ, Bool, List};
    ghost use Rattle.cr_tree.specs.declared.statement.Statement.{Statement};
    ghost use Rattle.cr_meaning.specs.View.{Ordered};
    ghost use Rattle.cr_world.specs.Language.{Language};

    /// These are the names of functions.
    ghost are_names: { Self → (List ℕ → Bool) → Type 0 };

    /// The language, where these are the names of functions.
    ghost language: { Self → (List ℕ → Bool) → Language Statement Ordered };
}

impl<F: Functions> Speaking for F {
    ghost use Rattle.std.specs.Prelude.{◌≡◌};
    ghost use Rattle.cr_script.specs.Speaking.{spoken};

    ghost are_names = { λ f has. has ≡ F.names_function f };

    ghost language = { λ f has. spoken (F.function_of f) (F.scalar f) (F.step f) (F.finish f) (F.order_of f) (F.orders_total f) has };
}

/// There is an answer to which names are those of functions.
pub fn functions_have_names<F: Functions>(functions: &F)
    ensures { (has : List ℕ → Bool) × ⟦<F as Speaking>⟧.are_names functions.now has }
{}

/// Authorizer, policy and commit hook, with what they answer, and who listens.
pub trait Watching: Guarding {
    ghost use Rattle.std.specs.Prelude.{List};
    ghost use Rattle.cr_guard.specs.declared.event.Event.{Event};
    ghost use Rattle.cr_world.specs.Statement.{Host};
    ghost use Rattle.cr_world.specs.World.{Closures};

    /// What authorizer and commit hook answer.
    ghost closures: { Self → Closures };

    /// The same under the policy.
    ghost host: { Self → Host };

    /// It answers as before, and its listener notes as before.
    ghost stays: { Self → Self → Type 0 };

    /// Its listener, where there is one, has heard these events since, and notes what comes as before.
    ghost hears: { Self → Self → List Event → Type 0 };
}

impl<G: Guarding> Watching for G {
    ghost use Rattle.cr_script.specs.Speaking.{closures, host_under, Stays, HasHeard};

    ghost closures = { λ g. closures (G.allows g) (G.refuses g) };

    ghost host = { λ g. host_under (closures (G.allows g) (G.refuses g)) (G.rules g) };

    ghost stays = { λ g h. Stays G.is_faithful G.rules G.allows G.refuses G.noting g h };

    ghost hears = { λ g h events. HasHeard G.noted G.noting g h events };
}
