//! The headline, and what else holds over every run of a fleet and every statement of a session. The contracts are the
//! theorems; nothing runs.

ghost use Rattle.std.specs.Prelude.{List};
ghost use Rattle.cr_world.specs.declared.command.Command.{Command as TheCommand};
ghost use Rattle.cr_world.specs.declared.command.FleetReply.{FleetReply as TheReply};
ghost use Rattle.cr_world.specs.Language.{Language, IsLanguage};
ghost use Rattle.cr_world.specs.World.{World, Closures};
ghost use Rattle.cr_world.specs.Run.{Run};
ghost use Rattle.cr_world.specs.Headline.{Converges, RowsConverge, SessionsAgree, TakingsAreJoins, RefusedChangesNothing, RefusedCommandChangesNothing, ScriptsKeep, PullsKeep, IncrementalPullsKeep, Blind};

/// After any commands, replicas that held the same changes answer each select over replicated tables with the same list of
/// rows, at whichever place of whichever script it stands; and show the same rows of each table.
pub fn replicas_that_held_the_same_answer_the_same<S, E>()
    ensures statements { (l : Language S E) → IsLanguage l → (k : Closures) (w : World) (cs : List TheCommand) (rs : List TheReply) → Run l k w cs rs → Converges l k w cs rs }
    ensures rows { (l : Language S E) (k : Closures) (w : World) (cs : List TheCommand) (rs : List TheReply) → Run l k w cs rs → RowsConverge l k w cs rs }
{}

/// Sessions whose tables show the same answer each select over replicated tables with the same list of rows.
pub fn sessions_that_show_the_same_answer_the_same<S, E>()
    ensures { (l : Language S E) (k : Closures) → IsLanguage l → SessionsAgree l k }
{}

/// Every taking is a join.
pub fn takings_are_joins<S, E>()
    ensures { (l : Language S E) (k : Closures) → TakingsAreJoins l k }
{}

/// What is refused changes nothing. A COMMIT that is refused as it is carried out ends its transaction, unless for want of memory.
pub fn refused_changes_nothing<S, E>()
    ensures statements { (l : Language S E) (k : Closures) → RefusedChangesNothing l k }
    ensures commands { (l : Language S E) (k : Closures) → RefusedCommandChangesNothing l k }
{}

/// What is hidden changes no answer.
pub fn hidden_columns_change_no_answer<S, E>()
    ensures { (l : Language S E) (k : Closures) → IsLanguage l → Blind l k }
{}

/// A script leaves a replica that keeps what all that it ever held keeps.
pub fn scripts_keep<S, E>()
    ensures { (l : Language S E) (k : Closures) → ScriptsKeep l k }
{}

/// A pull leaves a replica that keeps what all that both ever held keeps; where the mark's promise holds so does an
/// incremental one, and the promise holds of the new mark.
pub fn pulls_keep<S, E>()
    ensures all { (l : Language S E) (k : Closures) → PullsKeep l k }
    ensures since { (l : Language S E) (k : Closures) → IncrementalPullsKeep l k }
{}
