//! A fleet of replicas that take and pull changes and run scripts.

ghost use Rattle.std.specs.Prelude.{◌≡◌, ◌<◌, ◌≢◌, IfOk, OnErr, length, map, position};
ghost use Rattle.std.specs.List.{list_any, list_all, AllByRecursion};
ghost use Rattle.std.specs.Char.{is_ascii_alphanumeric};
ghost use Rattle.cr_lattice.specs.Check.{same_bytes};
ghost use Rattle.cr_world.specs.Answers.{is_replica_name};
ghost use Rattle.cr_session.specs.Sessions.{clean, honest, standing};
ghost use Rattle.cr_fleet.specs.Pulls.{PullsAt, PullsFrom};

use cr_cells::store::{Cells, NewCells};
use cr_guard::guarding::Guarding;
use cr_guard::policy::PolicyRule;
use cr_host::functions::Functions;
use cr_lattice::change::Site;
use cr_script::speaking::{Speaking, Watching};
use cr_session::session::{Session, reply_of};
use cr_value::order::same_bytes;
use cr_value::text::Text;
use cr_world::command::{Command, FleetReply};
use cr_world::refusal::{Limit, Refusal};
use std::alloc::{AllocError, Global};
use std::marker::Model;

/// The greatest number of replicas of a fleet.
pub const REPLICA_LIMIT: usize = 64;

/// The greatest length of a replica's name, in bytes.
pub const NAME_LIMIT: usize = 64;

fn is_alphanumeric(name: &[u8]) -> bool
    ensures { result ≡ list_all is_ascii_alphanumeric name.now }
{
    name.iter().all(|c| c.is_ascii_alphanumeric())
}

fn is_replica_name(name: &str) -> bool
    ensures { result ≡ is_replica_name name.now }
{
    let len = name.len();
    0 < len && len <= NAME_LIMIT && is_alphanumeric(name.as_bytes())
}

// A replica of a fleet, by its name.
#[derive(Drop)]
struct Named<C: Cells> {
    name: Text,
    session: Session<C>,
}

/// Replicas by their names, of which one may be in use.
#[derive(Drop)]
pub struct Fleet<C: Cells> {
    replicas: Vec<Named<C>>,
    in_use: Option<usize>,
}

impl<C: Cells> Model for Fleet<C> {
    ghost use Rattle.std.specs.Prelude.{map};
    ghost use Rattle.cr_session.specs.Sessions.{SessionOf};
    ghost use Rattle.cr_fleet.specs.Fleets.{FleetOf};

    ghost Value = { FleetOf (SessionOf C) };

    ghost view = { λ f. (map (λ r. (r.name, r.session)) f.replicas.items, f.in_use) };
}

// The place of the replica of that name.
fn place_of<C: Cells>(replicas: &[Named<C>], name: &str) -> Option<usize>
    ensures { result ≡ position (λ r. same_bytes r.name name.now) replicas.now }
{
    replicas.iter().position(|named| same_bytes(named.name.as_str().as_bytes(), name.as_bytes()))
}

// Whether a replica has the site.
fn has_site<C: NewCells>(replicas: &[Named<C>], site: &Site) -> bool
    ensures { AllByRecursion (λ r. C.is_clean r.session.0) replicas.now
        → result ≡ list_any (λ r. same_bytes (C.holding r.session.0).site site.now) replicas.now }
{
    for named in replicas {
        if same_bytes(&named.session.site_id(), site) {
            return true;
        }
    }
    false
}

// One session pulls from another.
fn pull_from<C: Cells, G: Guarding>(
    taker: &mut Session<C>,
    peer: &mut Session<C>,
    alloc: Global,
    guard: &mut G,
    is_incremental: bool,
) -> Result<(), Refusal>
    requires { G.is_faithful guard.old }
    ensures pulls { PullsFrom (⟦<G as Watching>⟧.host guard.old) is_incremental (honest C.is_honest) (clean C.is_clean) (standing C.holding) (⟦<G as Watching>⟧.hears guard.old guard.new) taker.old peer.old result taker.new peer.new }
    ensures guard { ⟦<G as Watching>⟧.stays guard.old guard.new }
{
    if is_incremental {
        taker.pull_since(alloc, guard, peer)
    } else {
        taker.pull(alloc, guard, peer)
    }
}

// The replica at one place pulls from the one at another.
fn pull_between<C: Cells, G: Guarding>(
    replicas: &mut [Named<C>],
    at: usize,
    from: usize,
    alloc: Global,
    guard: &mut G,
    is_incremental: bool,
) -> Result<(), Refusal>
    requires faithful { G.is_faithful guard.old }
    requires places { (at < length replicas.old) × (from < length replicas.old) × (at ≢ from) }
    ensures pulls { PullsAt (λ taker peer. PullsFrom (⟦<G as Watching>⟧.host guard.old) is_incremental (honest C.is_honest) (clean C.is_clean) (standing C.holding) (⟦<G as Watching>⟧.hears guard.old guard.new) taker peer result)
        at from (map (λ r. (r.name, r.session)) replicas.old) (map (λ r. (r.name, r.session)) replicas.new) }
    ensures guard { ⟦<G as Watching>⟧.stays guard.old guard.new }
{
    if at < from {
        let (front, back) = replicas.split_at_mut(from);
        pull_from(
            &mut front[at].session,
            &mut back[0].session,
            alloc,
            guard,
            is_incremental,
        )
    } else {
        let (front, back) = replicas.split_at_mut(at);
        pull_from(
            &mut back[0].session,
            &mut front[from].session,
            alloc,
            guard,
            is_incremental,
        )
    }
}

impl<C: NewCells> Fleet<C> {
    ghost use Rattle.std.specs.Prelude.{ℕ, Bool, List, [], None, true};
    ghost use Rattle.cr_meaning.specs.View.{Ordered};
    ghost use Rattle.cr_tree.specs.declared.statement.Statement.{Statement};
    ghost use Rattle.cr_guard.specs.Policy.{Rules, wants_memory};
    ghost use Rattle.cr_world.specs.Answers as answers;
    ghost use Rattle.cr_world.specs.declared.command.Command.TheVariants.{Open, Use, Define, Take, Rows, Policy};
    ghost use Rattle.cr_world.specs.Answers.{IsReady, AreAnswered};
    ghost use Rattle.cr_world.specs.Language.{Language};
    ghost use Rattle.cr_world.specs.World.{World, Closures, item_at};
    ghost use Rattle.cr_session.specs.Sessions.{is_own, reply_of};
    ghost use Rattle.cr_world.specs.Headline.{Converges, RowsConverge};
    ghost use Rattle.cr_world.specs.Run.{Run, world_after};
    ghost use Rattle.cr_fleet.specs.Hearing.{HearsRun, HearsStep};
    ghost use Rattle.cr_fleet.specs.Running.{InTurn, IsStep};
    ghost use Rattle.cr_fleet.specs.Between.{Between, ByPull, ByUsed, Opens, Uses};
    ghost use Rattle.cr_fleet.specs.Fleets.{Steps, AreClean, IsUnharmed, Shows, is_free_name, place_in, rules_after};
    ghost use Rattle.cr_fleet.specs.Pulls.{pull_of};

    /// A fleet without replicas.
    pub fn new(alloc: Global) -> Fleet<C>
        ensures { result ≡ ([], None) }
    {
        Fleet {
            replicas: Vec::new(alloc),
            in_use: None,
        }
    }

    fn use_replica(&mut self, name: &Text) -> FleetReply
        ensures steps { (l : Language Statement Ordered) (k : Closures) (rules : Rules) → Steps l k (clean C.is_clean) (standing C.holding) rules self.old (Use name.now) result rules self.new }
        ensures uses { Uses self.old self.new (place_in self.old name.now) result }
    {
        match place_of(&self.replicas, name.as_str()) {
            Some(at) => {
                self.in_use = Some(at);
                FleetReply::Done
            }
            None => FleetReply::Refused(Refusal::NoReplica),
        }
    }

    // Whether a new replica may have the name.
    fn is_free(&self, name: &str) -> bool
        ensures { result ≡ is_free_name name.now self.now }
    {
        is_replica_name(name) && place_of(&self.replicas, name).is_none()
    }

    /// Opens a new replica, which is then in use.
    ///
    /// # Errors
    /// `BadName` where the name is not of 1 to 64 ASCII letters and digits, or is a replica's; `Limit` where there are 64
    /// replicas; `SameSite` where a replica has the site; `Memory`, or `Store`. Then nothing is changed.
    pub fn open(&mut self, alloc: Global, name: &Text, site: Site) -> Result<(), Refusal>
        ensures steps { (l : Language Statement Ordered) (k : Closures) (rules : Rules) → Steps l k (clean C.is_clean) (standing C.holding) rules self.old (Open name.now site) (reply_of result) rules self.new }
        ensures opens { Opens (clean C.is_clean) (standing C.holding) self.old self.new name.now site (reply_of result) }
    {
        if !self.is_free(name.as_str()) {
            return Err(Refusal::BadName(name.copy(alloc)?));
        }
        if self.replicas.len() >= REPLICA_LIMIT {
            return Err(Refusal::Limit(Limit::Replicas));
        }
        if has_site(&self.replicas, &site) {
            return Err(Refusal::SameSite);
        }
        let name = name.copy(alloc)?;
        let cells = match C::create(alloc, site) {
            Ok(cells) => cells,
            Err(error) => return Err(Refusal::from(error)),
        };
        let at = self.replicas.len();
        let session = Session::new(cells);
        if self.replicas.push(Named { name, session }).is_err() {
            return Err(Refusal::Memory);
        }
        self.in_use = Some(at);
        Ok(())
    }

    // Adds a rule to the policy.
    fn set_rule<G: Guarding>(&self, alloc: Global, guard: &mut G, rule: &PolicyRule) -> FleetReply
        requires { G.is_faithful guard.old }
        ensures steps { (l : Language Statement Ordered) → Steps l (⟦<G as Watching>⟧.closures guard.old) (clean C.is_clean) (standing C.holding) (G.rules guard.old) self.now (Policy rule.now) result (G.rules guard.new) self.now }
        ensures heard { (l : Language Statement Ordered) → HearsStep l (⟦<G as Watching>⟧.closures guard.old) (⟦<G as Watching>⟧.hears) (clean C.is_clean) (standing C.holding) guard.old (G.rules guard.old) self.now (Policy rule.now) result self.now guard.new }
        ensures kept { answers.Rules (wants_memory rule.now) result }
        ensures quiet { ⟦<G as Watching>⟧.hears guard.old guard.new [] }
        ensures rules { G.rules guard.new ≡ rules_after (Policy rule.now) result (G.rules guard.old) }
        ensures closures { ⟦<G as Watching>⟧.closures guard.new ≡ ⟦<G as Watching>⟧.closures guard.old }
        ensures noting { G.noting guard.new ≡ G.noting guard.old }
        ensures faithful { G.is_faithful guard.new }
    {
        match guard.policy(alloc, rule) {
            Ok(()) => FleetReply::Done,
            Err(AllocError) => FleetReply::Refused(Refusal::Memory),
        }
    }

    // A command that the replica in use carries out by itself.
    fn step_used<F: Functions, G: Guarding>(
        &mut self,
        alloc: Global,
        functions: &F,
        guard: &mut G,
        command: &Command,
    ) -> FleetReply
        requires functions { F.is_faithful functions.now }
        requires guard { G.is_faithful guard.old }
        requires ready { IsReady command.now }
        requires own { is_own command.now ≡ true }
        ensures steps { (has : List ℕ → Bool) → ⟦<F as Speaking>⟧.are_names functions.now has
            → Steps (⟦<F as Speaking>⟧.language functions.now has) (⟦<G as Watching>⟧.closures guard.old) (clean C.is_clean) (standing C.holding) (G.rules guard.old) self.old command.now result (G.rules guard.new) self.new
            × HearsStep (⟦<F as Speaking>⟧.language functions.now has) (⟦<G as Watching>⟧.closures guard.old) (⟦<G as Watching>⟧.hears) (clean C.is_clean) (standing C.holding) guard.old (G.rules guard.old) self.old command.now result self.new guard.new }
        ensures between { (has : List ℕ → Bool) → ⟦<F as Speaking>⟧.are_names functions.now has
            → ByUsed (⟦<G as Watching>⟧.closures guard.old) (⟦<G as Watching>⟧.hears) (honest C.is_honest) (clean C.is_clean) (standing C.holding) guard.old (G.rules guard.old) self.old result self.new guard.new (⟦<F as Speaking>⟧.language functions.now has) command.now (item_at self.old.1 self.old.0) }
        ensures rules { G.rules guard.new ≡ G.rules guard.old }
        ensures closures { ⟦<G as Watching>⟧.closures guard.new ≡ ⟦<G as Watching>⟧.closures guard.old }
        ensures noting { G.noting guard.new ≡ G.noting guard.old }
        ensures faithful { G.is_faithful guard.new }
    {
        let Some(at) = self.in_use else {
            return FleetReply::Refused(Refusal::NoReplica);
        };
        let Some(named) = self.replicas.get_mut(at) else {
            return FleetReply::Refused(Refusal::NoReplica);
        };
        named.session.step(alloc, functions, guard, command)
    }

    // Pulls from the replica of that name into the one in use: all that it keeps, or what is stamped above the mark of its site.
    fn pull<G: Guarding>(
        &mut self,
        alloc: Global,
        guard: &mut G,
        name: &Text,
        is_incremental: bool,
    ) -> FleetReply
        requires { G.is_faithful guard.old }
        ensures steps { (l : Language Statement Ordered) → Steps l (⟦<G as Watching>⟧.closures guard.old) (clean C.is_clean) (standing C.holding) (G.rules guard.old) self.old (pull_of is_incremental name.now) result (G.rules guard.new) self.new
            × HearsStep l (⟦<G as Watching>⟧.closures guard.old) (⟦<G as Watching>⟧.hears) (clean C.is_clean) (standing C.holding) guard.old (G.rules guard.old) self.old (pull_of is_incremental name.now) result self.new guard.new }
        ensures between { ByPull (⟦<G as Watching>⟧.closures guard.old) (⟦<G as Watching>⟧.hears) (honest C.is_honest) (clean C.is_clean) (standing C.holding) guard.old (G.rules guard.old) self.old result self.new guard.new is_incremental (item_at self.old.1 self.old.0) (place_in self.old name.now) }
        ensures rules { G.rules guard.new ≡ G.rules guard.old }
        ensures closures { ⟦<G as Watching>⟧.closures guard.new ≡ ⟦<G as Watching>⟧.closures guard.old }
        ensures noting { G.noting guard.new ≡ G.noting guard.old }
        ensures faithful { G.is_faithful guard.new }
    {
        let Some(at) = self.in_use else {
            return FleetReply::Refused(Refusal::NoReplica);
        };
        let Some(taker) = self.replicas.get(at) else {
            return FleetReply::Refused(Refusal::NoReplica);
        };
        let Some(from) = place_of(&self.replicas, name.as_str()) else {
            return FleetReply::Refused(Refusal::NoReplica);
        };
        if at == from {
            return FleetReply::Refused(if taker.session.in_transaction() {
                Refusal::TransactionState
            } else {
                Refusal::SameSite
            });
        }
        reply_of(pull_between(&mut self.replicas, at, from, alloc, guard, is_incremental))
    }

    /// Carries out one command.
    pub fn step<F: Functions, G: Guarding>(
        &mut self,
        alloc: Global,
        functions: &F,
        guard: &mut G,
        command: &Command,
    ) -> FleetReply
        requires functions { F.is_faithful functions.now }
        requires guard { G.is_faithful guard.old }
        requires ready { IsReady command.now }
        ensures steps { (has : List ℕ → Bool) → ⟦<F as Speaking>⟧.are_names functions.now has
            → Steps (⟦<F as Speaking>⟧.language functions.now has) (⟦<G as Watching>⟧.closures guard.old) (clean C.is_clean) (standing C.holding) (G.rules guard.old) self.old command.now result (G.rules guard.new) self.new }
        ensures heard { (has : List ℕ → Bool) → ⟦<F as Speaking>⟧.are_names functions.now has
            → HearsStep (⟦<F as Speaking>⟧.language functions.now has) (⟦<G as Watching>⟧.closures guard.old) (⟦<G as Watching>⟧.hears) (clean C.is_clean) (standing C.holding) guard.old (G.rules guard.old) self.old command.now result self.new guard.new }
        ensures between { (has : List ℕ → Bool) → ⟦<F as Speaking>⟧.are_names functions.now has
            → Between (⟦<G as Watching>⟧.closures guard.old) (⟦<G as Watching>⟧.hears) (honest C.is_honest) (clean C.is_clean) (standing C.holding) guard.old (G.rules guard.old) self.old result self.new guard.new (⟦<F as Speaking>⟧.language functions.now has) command.now }
        ensures rules { G.rules guard.new ≡ rules_after command.now result (G.rules guard.old) }
        ensures closures { ⟦<G as Watching>⟧.closures guard.new ≡ ⟦<G as Watching>⟧.closures guard.old }
        ensures noting { G.noting guard.new ≡ G.noting guard.old }
        ensures faithful { G.is_faithful guard.new }
    {
        match command {
            Command::Open(name, site) => reply_of(self.open(alloc, name, *site)),
            Command::Use(name) => self.use_replica(name),
            Command::Policy(rule) => self.set_rule(alloc, guard, rule),
            Command::Pull(name) => self.pull(alloc, guard, name, false),
            Command::Define(_) => self.step_used(alloc, functions, guard, command),
            Command::Take(_) => self.step_used(alloc, functions, guard, command),
            Command::Rows(_) => self.step_used(alloc, functions, guard, command),
            Command::Changes(_) => self.step_used(alloc, functions, guard, command),
            Command::Sql(_) => self.step_used(alloc, functions, guard, command),
            Command::PullSince(name) => self.pull(alloc, guard, name, true),
        }
    }

    /// Carries out the commands in order, one reply each.
    ///
    /// # Errors
    /// Where there is no memory for the replies; then no command is carried out, and the guard is as it was.
    pub fn run<F: Functions, G: Guarding>(
        &mut self,
        alloc: Global,
        functions: &F,
        guard: &mut G,
        commands: &[Command],
    ) -> Result<Vec<FleetReply>, AllocError>
        requires functions { F.is_faithful functions.now }
        requires guard { G.is_faithful guard.old }
        requires ready { AllByRecursion IsReady commands.now }
        ensures was_clean { (has : List ℕ → Bool) → ⟦<F as Speaking>⟧.are_names functions.now has → AreClean (clean C.is_clean) self.new → AreClean (clean C.is_clean) self.old }
        ensures stays_clean { IfOk result (λ replies. (has : List ℕ → Bool) → ⟦<F as Speaking>⟧.are_names functions.now has → AreClean (clean C.is_clean) self.old → AreAnswered replies.items → AreClean (clean C.is_clean) self.new) }
        ensures runs { IfOk result (λ replies. (has : List ℕ → Bool) → ⟦<F as Speaking>⟧.are_names functions.now has
            → IsUnharmed (clean C.is_clean) self.old replies.items self.new → (w : World) → Shows (standing C.holding) w (G.rules guard.old) self.old
            → Run (⟦<F as Speaking>⟧.language functions.now has) (⟦<G as Watching>⟧.closures guard.old) w commands.now replies.items
            × Shows (standing C.holding) (world_after (⟦<F as Speaking>⟧.language functions.now has) (⟦<G as Watching>⟧.closures guard.old) w commands.now replies.items) (G.rules guard.new) self.new) }
        ensures converges { IfOk result (λ replies. (has : List ℕ → Bool) → ⟦<F as Speaking>⟧.are_names functions.now has
            → IsUnharmed (clean C.is_clean) self.old replies.items self.new → (w : World) → Shows (standing C.holding) w (G.rules guard.old) self.old
            → RowsConverge (⟦<F as Speaking>⟧.language functions.now has) (⟦<G as Watching>⟧.closures guard.old) w commands.now replies.items) }
        ensures selects_converge { IfOk result (λ replies. (has : List ℕ → Bool) → ⟦<F as Speaking>⟧.are_names functions.now has
            → IsUnharmed (clean C.is_clean) self.old replies.items self.new → (w : World) → Shows (standing C.holding) w (G.rules guard.old) self.old
            → Converges (⟦<F as Speaking>⟧.language functions.now has) (⟦<G as Watching>⟧.closures guard.old) w commands.now replies.items) }
        ensures heard { IfOk result (λ replies. (has : List ℕ → Bool) → ⟦<F as Speaking>⟧.are_names functions.now has
            → IsUnharmed (clean C.is_clean) self.old replies.items self.new → (w : World) → Shows (standing C.holding) w (G.rules guard.old) self.old
            → HearsRun (⟦<F as Speaking>⟧.language functions.now has) (⟦<G as Watching>⟧.closures guard.old) (⟦<G as Watching>⟧.hears) guard.old w commands.now replies.items guard.new) }
        ensures steps { IfOk result (λ replies. (has : List ℕ → Bool) → ⟦<F as Speaking>⟧.are_names functions.now has
            → InTurn (IsStep (⟦<F as Speaking>⟧.language functions.now has) (⟦<G as Watching>⟧.closures guard.old) (⟦<G as Watching>⟧.hears) (honest C.is_honest) (clean C.is_clean) (standing C.holding) G.rules) (self.old, guard.old) commands.now replies.items (self.new, guard.new)) }
        ensures refused { OnErr result (self.new ≡ self.old) }
        ensures unasked { OnErr result (guard.new ≡ guard.old) }
        ensures closures { ⟦<G as Watching>⟧.closures guard.new ≡ ⟦<G as Watching>⟧.closures guard.old }
        ensures noting { G.noting guard.new ≡ G.noting guard.old }
        ensures faithful { G.is_faithful guard.new }
    {
        let mut replies = Vec::with_capacity(alloc, commands.len())?;
        for command in commands {
            let reply = self.step(alloc, functions, guard, command);
            replies.push(reply).unwrap();
        }
        Ok(replies)
    }
}
