//! What carries out statements.

use crate::speaking::{Speaking, Watching};
use cr_guard::guarding::Guarding;
use cr_host::functions::Functions;
use cr_tree::statement::Statement;
use cr_value::value::Value;
use cr_world::command::Reply;
use cr_world::refusal::Refusal;
use std::alloc::Global;

/// Carries out statements, one at a time, over a store. What it promises of one it promises where the store is clean after it; a
/// store that was clean before is clean after it where its device is honest and there was no want.
pub trait Executor {
    ghost use Rattle.std.specs.Prelude.{ℕ, Bool, List};
    ghost use Rattle.cr_fit.specs.Folded.{DefinesFolded};
    ghost use Rattle.cr_world.specs.State.{State};
    ghost use Rattle.cr_script.specs.Hearing.{Hears, heard_of_statement};
    ghost use Rattle.cr_script.specs.Scripts.{Carries};

    /// Where it stands.
    ghost stands: { Self → State };

    /// The device of its store gave back what was written up to here.
    ghost is_honest: { Self → Type 0 };

    /// The device of its store gave back what was written up to here, and is still there.
    ghost is_clean: { Self → Type 0 };

    /// Carries out a statement, with values for its parameters. A listener is told what it makes of rows before that is kept.
    ///
    /// # Errors
    /// Why the statement is refused; then it changed nothing, but that a COMMIT which is refused as it is carried out ends its
    /// transaction, unless for want of memory.
    fn statement<F: Functions, G: Guarding>(
        &mut self,
        alloc: Global,
        functions: &F,
        guard: &mut G,
        statement: &Statement,
        params: &[Value],
    ) -> Result<Reply, Refusal>
        requires functions { F.is_faithful functions.now }
        requires guard { G.is_faithful guard.old }
        requires folded { DefinesFolded statement.now }
        ensures carries { (has : List ℕ → Bool) → ⟦<F as Speaking>⟧.are_names functions.now has
            → Carries (⟦<F as Speaking>⟧.language functions.now has) (⟦<G as Watching>⟧.host guard.old) is_honest is_clean stands self.old params.now statement.now result self.new }
        ensures guard { ⟦<G as Watching>⟧.stays guard.old guard.new }
        ensures heard { is_clean self.new → Hears (⟦<G as Watching>⟧.hears guard.old guard.new) (heard_of_statement statement.now (stands self.old) (stands self.new)) result };
}
