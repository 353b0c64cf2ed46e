//! Why a command or a statement is refused.

ghost use Rattle.std.specs.Prelude.{◌≡◌, ◌⊎◌, true, false, IfOk, OnErr};
ghost use Rattle.cr_world.specs.Refusals.{column_at, collation_at, of_profile, of_definition, of_rows, has_name};
ghost use Rattle.cr_world.specs.declared.refusal.Refusal.TheVariants.{Memory};

use cr_cells::store::{CellsError, StoreFault};
use cr_host::meaning::Action;
use cr_lattice::check::BadChange;
use cr_lattice::profile::ProfileFault;
use cr_lattice::table::{ColumnDef, TableDef};
use cr_replica::definition::DefineError;
use cr_replica::replica::{RowsError, TakeError};
use cr_scalar::fault::EvalFault as Fault;
use cr_value::text::Text;
use std::alloc::{AllocError, Global};
use thiserror::Error;

/// Why an expression gives no value.
#[derive(Debug, Drop, Error)]
pub enum EvalFault {
    /// A number leaves 64 bits.
    #[error("integer overflow")]
    Overflow,
    /// A text that is no number, or a blob, where a number is wanted.
    #[error("a text or blob is no number")]
    NotANumber,
    /// A blob that is no text, where a text is wanted.
    #[error("a blob is no text in UTF-8")]
    NotUtf8,
    /// What a host's function or module says.
    #[error("{0}")]
    Host(Text),
}

/// What a statement or a definition has that this project's profile of SQLite leaves out.
#[derive(Debug, Drop, Error)]
pub enum OutOfProfile {
    /// A token that can't stand where it does, by its word in upper case, `REAL` or `HEX`.
    #[error("{0}")]
    Word(Text),
    /// A type of REAL affinity: no column may have it, and no value is cast to it.
    #[error("a type of REAL affinity")]
    Real,
    /// No key, or places in it that are not 1 up to their number, each once.
    #[error("no primary key, or more than one")]
    PrimaryKey,
    /// A collation on a key column.
    #[error("a collation on a key column")]
    Collate,
    /// A column of the name `-1`.
    #[error("a column of the name -1")]
    RowCid,
    /// A default that is too long for a packed key.
    #[error("a default that is too long for a packed key")]
    Default,
    /// A term of ORDER BY that is no result column, beside DISTINCT.
    #[error("a term of ORDER BY that is no result column, beside DISTINCT")]
    Distinct,
}

/// The limit that is passed.
#[derive(Clone, Copy, Debug, PartialEq, Eq, Error)]
pub enum Limit {
    /// 1,000,000 bytes of a script.
    #[error("the script is over 1,000,000 bytes")]
    Script,
    /// The depth of an expression, or its open parentheses.
    #[error("an expression is over 100 deep, or has over 200 open parentheses")]
    Depth,
    /// The columns of a table.
    #[error("the table has over 200 columns")]
    Columns,
    /// 8 columns of a key.
    #[error("the key has over 8 columns")]
    KeyColumns,
    /// The tables of a FROM.
    #[error("a FROM has over 16 tables")]
    Tables,
    /// 100 arguments of a call.
    #[error("a call has over 100 arguments")]
    Arguments,
    /// 64 replicas of a fleet.
    #[error("the fleet has 64 replicas")]
    Replicas,
}

/// Why a command or a statement is refused. What is refused changes nothing; a COMMIT that is refused as it is carried out, not
/// one that is denied or given values, ends its transaction, unless there was no memory.
#[derive(Debug, Drop, Error)]
pub enum Refusal {
    /// The byte where a token begins that can't continue a statement, or where the text ends too early.
    #[error("syntax error at byte {0}")]
    Syntax(usize),
    #[error("not in this SQL: {0}")]
    OutOfProfile(OutOfProfile),
    /// No table has this name.
    #[error("no such table: {0}")]
    NoSuchTable(Text),
    /// No column has this name, told with its table's before it if that is written.
    #[error("no such column: {0}")]
    NoSuchColumn(Text),
    /// Two columns fit the name, or one is named twice.
    #[error("ambiguous column name: {0}")]
    AmbiguousColumn(Text),
    /// There is no function of this name.
    #[error("no such function: {0}")]
    NoSuchFunction(Text),
    /// The function of this name takes another number of arguments, or a row for the table another number of values.
    #[error("wrong number of arguments or values: {0}")]
    WrongArity(Text),
    /// There is no collation of this name.
    #[error("no such collation sequence: {0}")]
    NoSuchCollation(Text),
    /// An aggregate where none may stand, or a column outside of groups.
    #[error("misuse of an aggregate, or a column outside of groups")]
    Misaggregate,
    /// A table has this name.
    #[error("table {0} already exists")]
    TableExists(Text),
    /// The column of this name is NOT NULL, outside the key, and has no default.
    #[error("column {0} is NOT NULL, outside the key, and has no default")]
    NoDefault(Text),
    /// The table of this name isn't replicated yet.
    #[error("table {0} is not replicated")]
    NotYet(Text),
    /// The authorizer denied this action with these two arguments.
    #[error("not authorized: {0:?} {1} {2}")]
    Denied(Action, Text, Text),
    #[error(transparent)]
    Eval(EvalFault),
    /// Two rows have one key.
    #[error("UNIQUE constraint failed: two rows have one key")]
    PrimaryKey,
    /// A NULL in a key column or a NOT NULL column.
    #[error("NOT NULL constraint failed")]
    NotNull,
    /// A value or a packed key is over 1,000,000 bytes.
    #[error("string or blob too big")]
    TooBig,
    /// A version, a causal length or the replica's version would pass the greatest, 9223372036854775807.
    #[error("the greatest version is reached")]
    VersionLimit,
    /// A change is not well formed.
    #[error("the change is not well formed: {0}")]
    BadChange(BadChange),
    /// The commit hook or the policy refused the commit.
    #[error("the commit was vetoed")]
    Veto,
    /// What may not stand inside a transaction, or outside of one.
    #[error("not possible inside a transaction, or outside of one")]
    TransactionState,
    /// The table of this name isn't one that can be changed so.
    #[error("table {0} may not be modified")]
    ReadOnly(Text),
    #[error(transparent)]
    Limit(Limit),
    /// The parameters that are given aren't those of the statement.
    #[error("the parameters are not those of the statement")]
    Parameters,
    /// The store refused.
    #[error(transparent)]
    Store(StoreFault),
    /// Memory ran out.
    #[error("out of memory")]
    Memory,
    /// A name that may not be, or is in use.
    #[error("the name {0} may not be used")]
    BadName(Text),
    /// No replica has the name, or none is in use.
    #[error("no such replica")]
    NoReplica,
    /// The peer's site is the taker's own, or another replica of the fleet has the new one's.
    #[error("both replicas have one site")]
    SameSite,
    /// A line that is no command.
    #[error("not a command")]
    Command,
}

impl Refusal {
    ghost use Rattle.std.specs.Prelude.{◌≡◌};
    ghost use Rattle.cr_world.specs.Refusals.{code_of, title_of};

    /// The result code: SQLite's "Result and Error Codes".
    pub fn code(&self) -> u16
        ensures { result ≡ code_of self.now }
    {
        match self {
            Refusal::Memory => 7,
            Refusal::ReadOnly(_) => 8,
            Refusal::Store(_) => 10,
            Refusal::VersionLimit => 13,
            Refusal::TooBig => 18,
            Refusal::BadChange(_) => 20,
            Refusal::Denied(_, _, _) => 23,
            Refusal::Parameters => 25,
            Refusal::Veto => 531,
            Refusal::NotNull => 1299,
            Refusal::PrimaryKey => 1555,
            _ => 1,
        }
    }

    /// The name under which the refusal is printed.
    pub fn name(&self) -> &str
        ensures { result.now ≡ title_of self.now }
    {
        match self {
            Refusal::Syntax(_) => "Syntax",
            Refusal::OutOfProfile(_) => "OutOfProfile",
            Refusal::NoSuchTable(_) => "NoSuchTable",
            Refusal::NoSuchColumn(_) => "NoSuchColumn",
            Refusal::AmbiguousColumn(_) => "AmbiguousColumn",
            Refusal::NoSuchFunction(_) => "NoSuchFunction",
            Refusal::WrongArity(_) => "WrongArity",
            Refusal::NoSuchCollation(_) => "NoSuchCollation",
            Refusal::Misaggregate => "Misaggregate",
            Refusal::TableExists(_) => "TableExists",
            Refusal::NoDefault(_) => "NotReplicable",
            Refusal::NotYet(_) => "NotReplicable",
            Refusal::Denied(_, _, _) => "Denied",
            Refusal::Eval(_) => "Eval",
            Refusal::PrimaryKey => "PrimaryKey",
            Refusal::NotNull => "NotNull",
            Refusal::TooBig => "TooBig",
            Refusal::VersionLimit => "VersionLimit",
            Refusal::BadChange(_) => "BadChange",
            Refusal::Veto => "Veto",
            Refusal::TransactionState => "TransactionState",
            Refusal::ReadOnly(_) => "ReadOnly",
            Refusal::Limit(_) => "Limit",
            Refusal::Parameters => "Parameters",
            Refusal::Store(_) => "Store",
            Refusal::Memory => "Memory",
            Refusal::BadName(_) => "BadName",
            Refusal::NoReplica => "NoReplica",
            Refusal::SameSite => "SameSite",
            Refusal::Command => "Command",
        }
    }
}

impl From<AllocError> for Refusal {
    ghost use Rattle.std.specs.Prelude.{◌≡◌};
    ghost use Rattle.cr_world.specs.declared.refusal.Refusal.TheVariants.{Memory};

    ghost from_gives = { λ _ r. r ≡ Memory };

    fn from(_e: AllocError) -> Refusal {
        Refusal::Memory
    }
}

impl From<CellsError> for Refusal {
    ghost use Rattle.std.specs.Prelude.{◌≡◌};
    ghost use Rattle.cr_world.specs.Refusals.{of_store};

    ghost from_gives = { λ e r. r ≡ of_store e };

    fn from(e: CellsError) -> Refusal {
        match e {
            CellsError::Memory => Refusal::Memory,
            CellsError::Store(fault) => Refusal::Store(fault),
            CellsError::VersionLimit => Refusal::VersionLimit,
        }
    }
}

impl From<TakeError> for Refusal {
    ghost use Rattle.std.specs.Prelude.{◌≡◌};
    ghost use Rattle.cr_world.specs.Refusals.{of_taking};

    ghost from_gives = { λ e r. r ≡ of_taking e };

    fn from(e: TakeError) -> Refusal {
        match e {
            TakeError::Memory => Refusal::Memory,
            TakeError::Store(fault) => Refusal::Store(fault),
            TakeError::Bad(reason) => Refusal::BadChange(reason),
            TakeError::VersionLimit => Refusal::VersionLimit,
        }
    }
}

impl From<Fault> for Refusal {
    ghost use Rattle.std.specs.Prelude.{◌≡◌};
    ghost use Rattle.cr_world.specs.Refusals.{of_fault};

    ghost from_gives = { λ e r. r ≡ of_fault e };

    fn from(e: Fault) -> Refusal {
        match e {
            Fault::Overflow => Refusal::Eval(EvalFault::Overflow),
            Fault::NotANumber => Refusal::Eval(EvalFault::NotANumber),
            Fault::NotUtf8 => Refusal::Eval(EvalFault::NotUtf8),
            Fault::Host(text) => Refusal::Eval(EvalFault::Host(text)),
            Fault::TooBig => Refusal::TooBig,
            Fault::Memory => Refusal::Memory,
        }
    }
}

fn column_at(columns: &[ColumnDef], at: usize) -> &str
    ensures { result.now ≡ column_at columns.now at }
{
    match columns.get(at) {
        Some(column) => column.name.as_str(),
        None => "",
    }
}

fn collation_at(columns: &[ColumnDef], at: usize) -> &str
    ensures { result.now ≡ collation_at columns.now at }
{
    match columns.get(at) {
        Some(column) => column.collation.as_str(),
        None => "",
    }
}

fn of_profile(alloc: Global, def: &TableDef, fault: ProfileFault) -> Result<Refusal, AllocError>
    ensures value { IfOk result (λ r. r ≡ of_profile def.now fault) }
    ensures named { OnErr result (has_name (of_profile def.now fault) ≡ true) }
{
    Ok(match fault {
        ProfileFault::PrimaryKey => Refusal::OutOfProfile(OutOfProfile::PrimaryKey),
        ProfileFault::Collation => Refusal::OutOfProfile(OutOfProfile::Collate),
        ProfileFault::RowCid => Refusal::OutOfProfile(OutOfProfile::RowCid),
        ProfileFault::Default => Refusal::OutOfProfile(OutOfProfile::Default),
        ProfileFault::Columns => Refusal::Limit(Limit::Columns),
        ProfileFault::KeyColumns => Refusal::Limit(Limit::KeyColumns),
        ProfileFault::Name => Refusal::BadName(def.name.copy(alloc)?),
    })
}

fn try_of_definition(
    alloc: Global,
    def: &TableDef,
    error: DefineError,
) -> Result<Refusal, AllocError>
    ensures value { IfOk result (λ r. r ≡ of_definition def.now error) }
    ensures named { OnErr result (has_name (of_definition def.now error) ≡ true) }
{
    let columns = def.columns.as_slice();
    Ok(match error {
        DefineError::Memory => Refusal::Memory,
        DefineError::Store(fault) => Refusal::Store(fault),
        DefineError::Profile(fault) => of_profile(alloc, def, fault)?,
        DefineError::TableExists => Refusal::TableExists(def.name.copy(alloc)?),
        DefineError::Duplicate(at) => {
            Refusal::AmbiguousColumn(Text::from_str(alloc, column_at(columns, at))?)
        }
        DefineError::NoSuchCollation(at) => {
            Refusal::NoSuchCollation(Text::from_str(alloc, collation_at(columns, at))?)
        }
        DefineError::NoDefault(at) => {
            Refusal::NoDefault(Text::from_str(alloc, column_at(columns, at))?)
        }
    })
}

/// How a refused definition is told: with the name of the table, of the column or of the collation that stands
/// against it, or as want of memory where there is none for the name.
pub fn of_definition(alloc: Global, def: &TableDef, error: DefineError) -> Refusal
    ensures told { (result ≡ Memory) ⊎ (result ≡ of_definition def.now error) }
    ensures nameless { has_name (of_definition def.now error) ≡ false → result ≡ of_definition def.now error }
{
    try_of_definition(alloc, def, error).unwrap_or(Refusal::Memory)
}

/// How rows that are not shown are told, of the table of this name, or as want of memory where there is none for it.
pub fn of_rows(alloc: Global, name: &str, error: RowsError) -> Refusal
    ensures told { (result ≡ Memory) ⊎ (result ≡ of_rows name.now error) }
    ensures nameless { has_name (of_rows name.now error) ≡ false → result ≡ of_rows name.now error }
{
    match error {
        RowsError::Memory => Refusal::Memory,
        RowsError::Store(fault) => Refusal::Store(fault),
        RowsError::NoSuchTable => match Text::from_str(alloc, name) {
            Ok(name) => Refusal::NoSuchTable(name),
            Err(AllocError) => Refusal::Memory,
        },
    }
}
