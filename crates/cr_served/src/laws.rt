//! Laws of commands that were carried out one after another. The contracts are the theorems; nothing runs.

ghost use Rattle.std.specs.Prelude.{List};
ghost use Rattle.cr_tree.specs.declared.statement.Statement.{Statement};
ghost use Rattle.cr_meaning.specs.View.{Ordered};
ghost use Rattle.cr_world.specs.declared.command.Command.{Command};
ghost use Rattle.cr_world.specs.declared.command.FleetReply.{FleetReply};
ghost use Rattle.cr_world.specs.Language.{Language};
ghost use Rattle.cr_world.specs.World.{Closures};
ghost use Rattle.cr_session.specs.Sessions.{SessionOf, clean, honest, standing};
ghost use Rattle.cr_fleet.specs.Fleets.{FleetOf};
ghost use Rattle.cr_fleet.specs.Running.{InTurn, IsStep};
ghost use Rattle.cr_served.specs.Running.{InSteps, Ran, Watch, policy_of, hears};
ghost use Rattle.cr_served.specs.Alone.{RanAlone};

use cr_cells::store::Cells;

/// What a fleet carried out one command after another ran as a list.
pub fn fleet_ran_steps<C: Cells>()
    ensures { (l : Language Statement Ordered) (k : Closures) (s0 s1 : FleetOf (SessionOf C) × Watch) (cs : List Command) (rs : List FleetReply)
        → InTurn (IsStep l k hears (honest C.is_honest) (clean C.is_clean) (standing C.holding) policy_of) s0 cs rs s1
        → Ran policy_of hears l k (clean C.is_clean) (standing C.holding) s0 s1 cs rs }
{}

/// What a replica alone carried out one command after another ran as a list.
pub fn alone_ran_steps<C: Cells>()
    ensures { (l : Language Statement Ordered) (k : Closures) (s0 s1 : SessionOf C × Watch) (cs : List Command) (rs : List FleetReply)
        → InSteps (RanAlone policy_of hears l k (honest C.is_honest) (clean C.is_clean) (standing C.holding)) s0 s1 cs rs
        → RanAlone policy_of hears l k (honest C.is_honest) (clean C.is_clean) (standing C.holding) s0 s1 cs rs }
{}
