//! Whether texts are compared byte by byte.

ghost use Rattle.std.specs.Prelude.{◌↔◌, IsTrue};
ghost use Rattle.cr_exec.specs.Equalities.{OrdersBytes};

use cr_expr::given::Hosted;
use cr_host::function::FoundCollation;
use cr_host::functions::Functions;
use cr_lattice::profile::BINARY;
use cr_value::collation::Collation;

/// Whether the collation `binary` is the order of bytes.
pub fn compares_bytes<F: Functions>(functions: &F) -> bool
    ensures { IsTrue result ↔ OrdersBytes (⟦<F as Hosted>⟧.means functions.now) }
{
    matches!(
        functions.find_collation(BINARY),
        Some(FoundCollation::BuiltIn(Collation::Binary))
    )
}
