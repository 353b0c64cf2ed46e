//! One statement after another: a session carries out those of scripts.

use crate::session::Session;
use crate::transacting::is_transaction;
use cr_answer::allowing::allowed;
use cr_cells::store::Cells;
use cr_guard::guarding::Guarding;
use cr_host::functions::Functions;
use cr_script::executor::Executor;
use cr_script::script::run_script;
use cr_script::single::execute;
use cr_script::speaking::{Speaking, Watching};
use cr_tree::statement::Statement;
use cr_value::value::Value;
use cr_world::command::{Reply, Script};
use cr_world::refusal::Refusal;
use std::alloc::Global;

impl<C: Cells> Session<C> {
    ghost use Rattle.std.specs.Prelude.{◌≡◌, ◌<◌, ℕ, Bool, List, Some, Err, length};
    ghost use Rattle.cr_fit.specs.Folded.{DefinesFolded};
    ghost use Rattle.cr_script.specs.Hearing.{Hears, HearsAll, heard_of_piece, heard_of_statement};
    ghost use Rattle.cr_script.specs.Scripts.{Carries, CarriesAll, Executed};
    ghost use Rattle.cr_session.specs.Sessions.{clean, honest, standing};
    ghost use Rattle.cr_world.specs.declared.refusal.Refusal.TheVariants as refusal;
    ghost use Rattle.cr_world.specs.declared.refusal.Limit.TheVariants as limit;

    // Carries out a statement, with values for its parameters.
    fn carry_out<F: Functions, G: Guarding>(
        &mut self,
        alloc: Global,
        functions: &F,
        guard: &mut G,
        statement: &Statement,
        params: &[Value],
    ) -> Result<Reply, Refusal>
        requires functions { F.is_faithful functions.now }
        requires guard { G.is_faithful guard.old }
        requires folded { DefinesFolded statement.now }
        ensures carries { (has : List ℕ → Bool) → ⟦<F as Speaking>⟧.are_names functions.now has
            → Carries (⟦<F as Speaking>⟧.language functions.now has) (⟦<G as Watching>⟧.host guard.old) (honest C.is_honest) (clean C.is_clean) (standing C.holding) self.old params.now statement.now result self.new }
        ensures guard { ⟦<G as Watching>⟧.stays guard.old guard.new }
        ensures heard { C.is_clean self.new.0 → Hears (⟦<G as Watching>⟧.hears guard.old guard.new) (heard_of_statement statement.now (standing C.holding self.old) (standing C.holding self.new)) result }
    {
        if is_transaction(statement) {
            return self.transact(alloc, functions, guard, statement, params);
        }
        let names = match self.names(alloc) {
            Ok(names) => names,
            Err(error) => return Err(Refusal::from(error)),
        };
        let resolved = match allowed(alloc, functions, guard, &names, statement, params.len()) {
            Ok(resolved) => resolved,
            Err(refusal) => return Err(refusal),
        };
        let reply = self.perform(alloc, functions, guard, names, &resolved, params);
        drop(resolved);
        reply
    }

    /// Runs a script: carries out its statements in order, up to the first that is refused. What was done before it stands.
    ///
    /// # Errors
    /// The script's `refusal`: `Limit` where it is longer than 1,000,000 bytes, and then no want of memory is told; `Syntax`,
    /// `OutOfProfile` or `Limit` where a statement can't be read; else why a statement is refused.
    pub fn run<F: Functions, G: Guarding>(
        &mut self,
        alloc: Global,
        functions: &F,
        guard: &mut G,
        source: &str,
    ) -> Script
        requires functions { F.is_faithful functions.now }
        requires guard { G.is_faithful guard.old }
        ensures carries { (has : List ℕ → Bool) → ⟦<F as Speaking>⟧.are_names functions.now has
            → CarriesAll (⟦<F as Speaking>⟧.language functions.now has) (⟦<G as Watching>⟧.host guard.old) (honest C.is_honest) (clean C.is_clean) (standing C.holding) self.old ((⟦<F as Speaking>⟧.language functions.now has).pieces source.now) result.replies result.refusal self.new }
        ensures guard { ⟦<G as Watching>⟧.stays guard.old guard.new }
        ensures heard { (has : List ℕ → Bool) → ⟦<F as Speaking>⟧.are_names functions.now has → C.is_clean self.new.0
            → HearsAll (⟦<F as Speaking>⟧.language functions.now has) (⟦<G as Watching>⟧.host guard.old) (⟦<G as Watching>⟧.hears) guard.old (standing C.holding self.old) ((⟦<F as Speaking>⟧.language functions.now has).pieces source.now) result.replies result.refusal guard.new }
        ensures long { 1000000 < length source.now → result.refusal ≡ Some (refusal.Limit limit.Script) }
    {
        run_script(alloc, self, functions, guard, source)
    }

    /// Carries out a text that is one statement, with values for its parameters; a text of blanks, comments and one `;` at
    /// most is done at once.
    ///
    /// # Errors
    /// `Limit` where the text is longer than 1,000,000 bytes, and then no want of memory is told; `Syntax`, `OutOfProfile`
    /// or `Limit` where it can't be read, with `Syntax` for what stands behind its `;`; else why the statement is refused,
    /// `Parameters` where it has more parameters than there are values, or fewer. Nothing is changed then, but that a COMMIT
    /// that is carried out ends its transaction when it is refused, unless for want of memory.
    pub fn execute<F: Functions, G: Guarding>(
        &mut self,
        alloc: Global,
        functions: &F,
        guard: &mut G,
        source: &str,
        params: &[Value],
    ) -> Result<Reply, Refusal>
        requires functions { F.is_faithful functions.now }
        requires guard { G.is_faithful guard.old }
        ensures executes { (has : List ℕ → Bool) → ⟦<F as Speaking>⟧.are_names functions.now has
            → Executed (⟦<F as Speaking>⟧.language functions.now has) (⟦<G as Watching>⟧.host guard.old) (honest C.is_honest) (clean C.is_clean) (standing C.holding) self.old params.now ((⟦<F as Speaking>⟧.language functions.now has).single source.now) result self.new }
        ensures guard { ⟦<G as Watching>⟧.stays guard.old guard.new }
        ensures heard { (has : List ℕ → Bool) → ⟦<F as Speaking>⟧.are_names functions.now has
            → C.is_clean self.new.0 → Hears (⟦<G as Watching>⟧.hears guard.old guard.new) (heard_of_piece ((⟦<F as Speaking>⟧.language functions.now has).single source.now) (standing C.holding self.old) (standing C.holding self.new)) result }
        ensures long { 1000000 < length source.now → result ≡ Err (refusal.Limit limit.Script) }
    {
        execute(alloc, self, functions, guard, source, params)
    }
}

impl<C: Cells> Executor for Session<C> {
    ghost use Rattle.cr_session.specs.Sessions.{clean, honest, standing};

    ghost stands = { λ s. standing C.holding s };

    ghost is_honest = { λ s. honest C.is_honest s };

    ghost is_clean = { λ s. clean C.is_clean s };

    fn statement<F: Functions, G: Guarding>(
        &mut self,
        alloc: Global,
        functions: &F,
        guard: &mut G,
        statement: &Statement,
        params: &[Value],
    ) -> Result<Reply, Refusal> {
        self.carry_out(alloc, functions, guard, statement, params)
    }
}
