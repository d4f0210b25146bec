use ic_laws::OutOfMemory;
use thiserror::Error;

/// Why a call on the cells of a sheet was refused. After each of them the sheet is as before. Each displays its name.
#[derive(Clone, Copy, Debug, Error)]
pub enum GridError {
    /// Merged cells cover the place, or the block of an array meets some.
    #[error("MergedPart")]
    MergedPart,
    /// A cell to be written belongs to a Cse array of more than one cell.
    #[error("ArrayPart")]
    ArrayPart,
    /// A Cse array of more than one cell lies partly in the block to be cleared.
    #[error("ClearArray")]
    ClearArray,
    /// The place has no formula; for a spill, no array formula.
    #[error("NoFormulaCell")]
    NoFormulaCell,
    /// The width or the height is below 1, the number of values isn't their product, or a Cse array has another area.
    #[error("BadArea")]
    BadArea,
    /// This is the first cell, by rows, that keeps the array from spilling. Rows and columns count from 1.
    #[error("SpillBlocked")]
    SpillBlocked { row: i32, column: i32 },
    /// Memory ran out.
    #[error("OutOfMemory")]
    OutOfMemory,
}

impl From<OutOfMemory> for GridError {
    ghost use Rattle.std.specs.Prelude.{◌≡◌};
    ghost use Rattle.ic_grid.specs.declared.error.GridError.TheVariants as errors;

    ghost from_gives = { λ _ e. e ≡ errors.OutOfMemory };

    fn from(_: OutOfMemory) -> GridError {
        GridError::OutOfMemory
    }
}
