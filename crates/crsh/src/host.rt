//! The definitions of what the program registers.

use cr_host::fault::AddFault;
use cr_host::meaning::HostMeaning;
use std::alloc::AllocError;

/// The definitions of what the program registers, one of each kind; it has no authorizer and no commit hook.
pub(crate) struct Samples;

impl HostMeaning for Samples {
    ghost use Rattle.std.specs.Prelude.{length, false};
    ghost use Rattle.std.specs.Cmp.{on_total, nat_cmp_total};
    ghost use Rattle.cr_host.specs.Samples.{half, xorall_step, xorall_finish, bylen};
    ghost use Rattle.cr_host.specs.declared.meaning.Auth.TheVariants.{Ok as Allowed};

    ghost scalar = { λ _. half };

    ghost step = { λ _. xorall_step };

    ghost finish = { λ _. xorall_finish };

    ghost order = { λ _. bylen };

    ghost order_total = { λ _. on_total length nat_cmp_total };

    ghost allows = { λ n action a b. Allowed };

    ghost vetoes = { λ n changes. false };
}

/// The names that the program registers may be registered, so what is refused is refused for memory.
pub(crate) fn added(answer: Result<(), AddFault>) -> Result<(), AllocError> {
    match answer {
        Ok(()) => Ok(()),
        Err(_) => Err(AllocError),
    }
}
