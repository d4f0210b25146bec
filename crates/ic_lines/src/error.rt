use ic_laws::OutOfMemory;
use thiserror::Error;

/// A read or a write failed. The source or the sink has counted the fault.
#[derive(Debug, Drop, Error)]
#[error("Failed")]
pub struct Failed;

/// Why a run over a source and a sink ended early.
#[derive(Debug, Drop, PartialEq, Error)]
pub enum RunError {
    /// A read of the source failed.
    #[error("ReadFault")]
    ReadFault,
    /// A write to the sink failed, or took nothing of a piece that isn't empty.
    #[error("WriteFault")]
    WriteFault,
    /// 2^32 reads each gave at least one byte, and no end was met.
    #[error("TooManyTurns")]
    TooManyTurns,
    /// Memory ran out.
    #[error("OutOfMemory")]
    OutOfMemory,
}

impl From<OutOfMemory> for RunError {
    ghost use Rattle.std.specs.Prelude.{◌≡◌};
    ghost use Rattle.ic_lines.specs.declared.error.RunError.TheVariants as errors;

    ghost from_gives = { λ _ e. e ≡ errors.OutOfMemory };

    fn from(_: OutOfMemory) -> RunError {
        RunError::OutOfMemory
    }
}
