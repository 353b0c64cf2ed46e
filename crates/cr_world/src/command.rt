//! The commands of a fleet, and what it replies.

use crate::refusal::Refusal;
use cr_guard::policy::PolicyRule;
use cr_lattice::change::Site;
use cr_lattice::stamped::Stamped;
use cr_lattice::table::{Items, Row, TableDef};
use cr_replica::change_row::ChangeRow;
use cr_value::text::Text;

/// What is declared of a table.
#[derive(Debug, Drop)]
pub enum Declaration {
    /// Some column has a type of REAL affinity, which no column may have.
    Real,
    /// This definition. Its names are in ASCII lower case.
    Table(TableDef),
}

/// A command of a fleet. All but `Open`, `Use` and `Policy` speak to the replica in use.
#[derive(Debug, Drop)]
pub enum Command {
    /// A new replica of this name and site, which is then in use.
    Open(Text, Site),
    /// The replica of this name is in use from here on.
    Use(Text),
    /// Defines a replicated table.
    Define(Declaration),
    /// Takes the change of this row.
    Take(ChangeRow),
    /// Shows the rows of the table of this name, as the last commit left them.
    Rows(Text),
    /// Shows the kept changes that are stamped above a version.
    Changes(i64),
    /// Takes all changes that the replica of this name keeps.
    Pull(Text),
    /// Takes the changes of the replica of this name that are stamped above its mark, and keeps its version as the mark.
    PullSince(Text),
    /// A plain rule for all replicas of the fleet.
    Policy(PolicyRule),
    /// Runs a script.
    Sql(Text),
}

/// What a statement replies.
#[derive(Debug, Drop)]
pub enum Reply {
    Rows(Items<Row>),
    Done,
}

/// What a script replies: one reply for each statement that was accepted, and why the next was refused, if one was.
#[derive(Debug, Drop)]
pub struct Script {
    pub replies: Items<Reply>,
    pub refusal: Option<Refusal>,
}

/// What a fleet replies to a command.
#[derive(Debug, Drop)]
pub enum FleetReply {
    Script(Script),
    Rows(Items<Row>),
    Changes(Items<Stamped>),
    Done,
    /// Refused; then nothing is changed.
    Refused(Refusal),
}
