//! How what stands against a write is told.

ghost use Rattle.std.specs.Prelude.{◌≡◌};
ghost use Rattle.cr_changed.specs.Steps.{of_against, of_delta, of_source};

use cr_delta::error::DeltaError;
use cr_exec::streamed::SourceFault;
use cr_scalar::fault::EvalFault;
use cr_wanted::judged::Against;
use cr_world::refusal::Refusal;

/// How a fault of rows that stand in memory is told. Such rows are read without fail, so `Store` does not come.
pub(crate) fn of_source(fault: SourceFault) -> EvalFault
    ensures { result ≡ of_source fault }
{
    match fault {
        SourceFault::Eval(fault) => fault,
        SourceFault::Store => EvalFault::Memory,
    }
}

/// How rows are refused that a table does not take.
pub(crate) fn of_against(against: Against) -> Refusal
    ensures { result ≡ of_against against }
{
    match against {
        Against::LongKey => Refusal::TooBig,
        Against::LackingValue => Refusal::NotNull,
        Against::KeyTwice => Refusal::PrimaryKey,
        Against::Memory => Refusal::Memory,
    }
}

/// How a write is refused whose changes are not given.
pub(crate) fn of_delta(error: DeltaError) -> Refusal
    ensures { result ≡ of_delta error }
{
    match error {
        DeltaError::Memory => Refusal::Memory,
        DeltaError::VersionLimit => Refusal::VersionLimit,
    }
}
