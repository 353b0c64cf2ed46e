//! What a statement may name, as it is asked for.

use cr_host::function::Definition;
use cr_host::functions::Functions;
use cr_lattice::catalog::Catalog;

/// What a statement may name: tables and modules, functions and collations.
pub trait Naming {
    ghost use Rattle.std.specs.Prelude.{◌≡◌, ◌↔◌, ℕ, IsSome, IsTrue};
    ghost use Rattle.cr_resolve.specs.Known.{Known};

    /// All that it may name, as one record.
    ghost known: { Self → Known };

    /// The tables and modules, and the replica's own site and version.
    fn catalog(&self) -> &Catalog
        ensures { result.now ≡ (known self.now).catalog };

    /// The host's function of that name for calls of that many arguments.
    fn definition(&self, name: &str, count: usize) -> Option<Definition>
        ensures { result ≡ (known self.now).function_of name.now count };

    /// Whether the host has a function of that name, for calls of some number of arguments.
    fn has_function(&self, name: &str) -> bool
        ensures value { result ≡ (known self.now).has_function name.now }
        ensures names { IsTrue result ↔ ((count : ℕ) × IsSome ((known self.now).function_of name.now count)) };

    /// Whether there is a collation of that name.
    fn has_collation(&self, name: &str) -> bool
        ensures { result ≡ (known self.now).has_collation name.now };
}

/// A replica's catalog, with the functions and collations of its host.
#[derive(Drop)]
pub struct Offer<'a, F> {
    pub catalog: &'a Catalog,
    pub functions: &'a F,
}

impl<F: Functions> Naming for Offer<'_, F> {
    ghost use Rattle.std.specs.Option.{is_some};

    ghost known = { λ o. record {
      catalog = o.catalog.now;
      function_of = F.function_of o.functions.now;
      has_function = F.names_function o.functions.now;
      has_collation = λ name. is_some (F.order_of o.functions.now name);
    } };

    fn catalog(&self) -> &Catalog {
        self.catalog
    }

    fn definition(&self, name: &str, count: usize) -> Option<Definition> {
        self.functions.definition(name, count)
    }

    fn has_function(&self, name: &str) -> bool {
        self.functions.has_function(name)
    }

    fn has_collation(&self, name: &str) -> bool {
        self.functions.has_collation(name)
    }
}
