//! What the commands of lines are served by.

ghost use Rattle.std.specs.Prelude.{◌≡◌, ◌∷◌, [], ℕ, Bool, List};

use crate::alone::step_alone;
use cr_cells::store::{Cells, NewCells};
use cr_fleet::fleet::Fleet;
use cr_guard::guarding::Guarding;
use cr_host::functions::Functions;
use cr_script::speaking::{Speaking, Watching};
use cr_session::session::Session;
use cr_world::command::{Command, FleetReply};
use std::alloc::Global;

/// Carries out the commands of a fleet, or those of one replica. What stands above it knows it by what it tells of runs.
pub trait Served {
    ghost use Rattle.std.specs.Prelude.{List, [], ◌∷◌, ◌++◌};
    ghost use Rattle.cr_tree.specs.declared.statement.Statement.{Statement};
    ghost use Rattle.cr_meaning.specs.View.{Ordered};
    ghost use Rattle.cr_served.specs.Running.{Watch, watch};
    ghost use Rattle.cr_world.specs.declared.command.Command.{Command};
    ghost use Rattle.cr_world.specs.declared.command.FleetReply.{FleetReply};
    ghost use Rattle.cr_world.specs.Answers.{IsReady};
    ghost use Rattle.cr_world.specs.Language.{Language};
    ghost use Rattle.cr_world.specs.World.{Closures};
    ghost use Rattle.cr_fleet.specs.Fleets.{rules_after};

    /// These commands ran with these replies, from a state and what it is under to others, where statements are in this
    /// language, and authorizer and commit hook answer so.
    ghost ran: { Language Statement Ordered → Closures → Self × Watch → Self × Watch → List Command → List FleetReply → Type 0 };

    /// Carries out one command.
    fn carry_out<F: Functions, G: Guarding>(
        &mut self,
        alloc: Global,
        functions: &F,
        guard: &mut G,
        command: &Command,
    ) -> FleetReply
        requires functions { F.is_faithful functions.now }
        requires guard { G.is_faithful guard.old }
        requires ready { IsReady command.now }
        ensures ran { (has : List ℕ → Bool) → ⟦<F as Speaking>⟧.are_names functions.now has
            → ran (⟦<F as Speaking>⟧.language functions.now has) (⟦<G as Watching>⟧.closures guard.old) (self.old, watch G.rules G.noted G.noting guard.old) (self.new, watch G.rules G.noted G.noting guard.new) (command.now ∷ []) (result ∷ []) }
        ensures rules { G.rules guard.new ≡ rules_after command.now result (G.rules guard.old) }
        ensures closures { ⟦<G as Watching>⟧.closures guard.new ≡ ⟦<G as Watching>⟧.closures guard.old }
        ensures noting { G.noting guard.new ≡ G.noting guard.old }
        ensures faithful { G.is_faithful guard.new };

    /// None ran.
    ghost ran_none: { (l : Language Statement Ordered) (k : Closures) (s : Self × Watch) → ran l k s s [] [] };

    /// One list ran after the other.
    ghost ran_more: { (l : Language Statement Ordered) (k : Closures) (s0 s1 s2 : Self × Watch) (cs ds : List Command) (rs ss : List FleetReply)
        → ran l k s0 s1 cs rs → ran l k s1 s2 ds ss → ran l k s0 s2 (cs ++ ds) (rs ++ ss) };
}

impl<C: NewCells> Served for Fleet<C> {
    ghost use Rattle.cr_session.specs.Sessions.{clean, honest, standing};
    ghost use Rattle.cr_fleet.specs.Running.{InTurn, IsStep};
    ghost use Rattle.std.proofs.Common.{refl};
    ghost use Rattle.cr_served.specs.Running.{policy_of, hears};
    ghost use Rattle.cr_served.specs.RunningLaws.{turns_more};

    ghost ran = { λ l k s0 s1 cs rs. InTurn (IsStep l k hears (honest C.is_honest) (clean C.is_clean) (standing C.holding) policy_of) s0 cs rs s1 };

    fn carry_out<F: Functions, G: Guarding>(
        &mut self,
        alloc: Global,
        functions: &F,
        guard: &mut G,
        command: &Command,
    ) -> FleetReply {
        self.step(alloc, functions, guard, command)
    }

    ghost ran_none = { λ l k s. refl };

    ghost ran_more = { λ l k s0 s1 s2 cs ds rs ss p q. turns_more (IsStep l k hears (honest C.is_honest) (clean C.is_clean) (standing C.holding) policy_of) s0 s1 s2 cs ds rs ss p q };
}

impl<C: Cells> Served for Session<C> {
    ghost use Rattle.cr_session.specs.Sessions.{clean, honest, standing};
    ghost use Rattle.std.proofs.Common.{refl};
    ghost use Rattle.cr_served.specs.Running.{InSteps, policy_of, hears};
    ghost use Rattle.cr_served.specs.Alone.{RanAlone};
    ghost use Rattle.cr_served.specs.RunningLaws.{steps_more};

    ghost ran = { λ l k s0 s1 cs rs. InSteps (RanAlone policy_of hears l k (honest C.is_honest) (clean C.is_clean) (standing C.holding)) s0 s1 cs rs };

    fn carry_out<F: Functions, G: Guarding>(
        &mut self,
        alloc: Global,
        functions: &F,
        guard: &mut G,
        command: &Command,
    ) -> FleetReply {
        step_alone(alloc, self, functions, guard, command)
    }

    ghost ran_none = { λ l k s. refl };

    ghost ran_more = { λ l k s0 s1 s2 cs ds rs ss p q. steps_more (RanAlone policy_of hears l k (honest C.is_honest) (clean C.is_clean) (standing C.holding)) s0 s1 s2 cs ds rs ss p q };
}
