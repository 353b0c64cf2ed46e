//! Commands to one replica that has no others beside it.

ghost use Rattle.std.specs.Prelude.{◌≡◌, ◌∷◌, [], ℕ, Bool, List};
ghost use Rattle.cr_session.specs.Sessions.{clean, honest, is_own, standing};
ghost use Rattle.cr_fleet.specs.Fleets.{rules_after};
ghost use Rattle.cr_world.specs.Answers.{IsReady};
ghost use Rattle.cr_served.specs.Running.{policy_of, hears, watch};
ghost use Rattle.cr_served.specs.Alone.{RanAlone};

use cr_cells::store::Cells;
use cr_guard::guarding::Guarding;
use cr_host::functions::Functions;
use cr_script::speaking::{Speaking, Watching};
use cr_session::session::Session;
use cr_world::command::{Command, FleetReply};
use cr_world::refusal::Refusal;
use std::alloc::{AllocError, Global};

// Carries out a command; one that opens, chooses or pulls from another replica is refused with `NoReplica`.
pub(crate) fn step_alone<C: Cells, F: Functions, G: Guarding>(
    alloc: Global,
    session: &mut Session<C>,
    functions: &F,
    guard: &mut G,
    command: &Command,
) -> FleetReply
    requires functions { F.is_faithful functions.now }
    requires guard { G.is_faithful guard.old }
    requires ready { IsReady command.now }
    ensures ran { (has : List ℕ → Bool) → ⟦<F as Speaking>⟧.are_names functions.now has
        → RanAlone policy_of hears (⟦<F as Speaking>⟧.language functions.now has) (⟦<G as Watching>⟧.closures guard.old) (honest C.is_honest) (clean C.is_clean) (standing C.holding) (session.old, watch G.rules G.noted G.noting guard.old) (session.new, watch G.rules G.noted G.noting guard.new) (command.now ∷ []) (result ∷ []) }
    ensures rules { G.rules guard.new ≡ rules_after command.now result (G.rules guard.old) }
    ensures closures { ⟦<G as Watching>⟧.closures guard.new ≡ ⟦<G as Watching>⟧.closures guard.old }
    ensures noting { G.noting guard.new ≡ G.noting guard.old }
    ensures faithful { G.is_faithful guard.new }
{
    if is_own(command) {
        return session.step(alloc, functions, guard, command);
    }
    match command {
        Command::Policy(rule) => match guard.policy(alloc, rule) {
            Ok(()) => FleetReply::Done,
            Err(AllocError) => FleetReply::Refused(Refusal::Memory),
        },
        _ => FleetReply::Refused(Refusal::NoReplica),
    }
}

// Whether a replica carries out a command by itself.
fn is_own(command: &Command) -> bool
    ensures { result ≡ is_own command.now }
{
    match command {
        Command::Define(_)
        | Command::Take(_)
        | Command::Rows(_)
        | Command::Changes(_)
        | Command::Sql(_) => true,
        Command::Open(_, _)
        | Command::Use(_)
        | Command::Pull(_)
        | Command::PullSince(_)
        | Command::Policy(_) => false,
    }
}
