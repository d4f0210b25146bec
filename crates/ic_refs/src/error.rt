use ic_laws::{OutOfMemory, Text};
use std::alloc::{AllocError, AllocFailed};
use std::fmt;
use thiserror::Error;

/// Why a text names no column. The first that holds, in this order, is told.
#[derive(Debug, Drop, Error)]
pub enum ColumnError {
    #[error("Column identifier cannot be empty.")]
    Empty,
    #[error("Column identifier must be ASCII.")]
    NotAscii,
    /// A character is none of A to Z.
    #[error("Column identifier can use only A-Z characters")]
    NotLetters,
    /// The column is past the last one, 16,384.
    #[error("Column is not valid.")]
    NotValid,
}

/// Why a text is no reference.
#[derive(Debug, Drop)]
pub enum ReferenceError {
    /// It has other characters than those of words, and is no reference.
    OneToken,
    /// It is empty or a word, and no reference.
    NotReference,
    /// It has no sheet name, and no sheet was given.
    NoSheetKnown,
    /// No sheet of this name was found.
    SheetUnknown(Text),
    /// A number is missing, or doesn't fit `i32`.
    ExpectedNumber,
    ExpectedBracket,
    OffsetTooLarge,
    OutsideSheet,
    ExpectedLetter,
    ExpectedEnd,
    /// One end of a range is a cell, a row or a column and the other isn't.
    MixedEnds,
    NameNotClosed,
    ExpectedBang,
    OutOfMemory,
}

impl fmt::Display for ReferenceError {
    fn fmt<W: fmt::Write>(&self, f: &mut fmt::Formatter<W>) -> fmt::Result {
        let text = match self {
            ReferenceError::SheetUnknown(name) => {
                return write!(f, "Invalid reference. Sheet \"{name}\" could not be found.");
            }
            ReferenceError::OneToken => "Invalid reference. Expected only one token.",
            ReferenceError::NotReference => "Invalid reference. First token is not a reference.",
            ReferenceError::NoSheetKnown =>
                "Reference doesn't contain sheet name and relative cell is not known.",
            ReferenceError::ExpectedNumber => "Invalid reference. Expected a number.",
            ReferenceError::ExpectedBracket => "Invalid reference. Expected ']'.",
            ReferenceError::OffsetTooLarge =>
                "Invalid reference. The offset is larger than the sheet.",
            ReferenceError::OutsideSheet => "Invalid reference. It is outside of the sheet.",
            ReferenceError::ExpectedLetter => "Invalid reference. Expected 'R' or 'C'.",
            ReferenceError::ExpectedEnd => "Invalid reference. Expected end of reference.",
            ReferenceError::MixedEnds =>
                "Invalid reference. The two ends of the range are of different kind.",
            ReferenceError::NameNotClosed =>
                "Invalid reference. The name of the sheet is not closed.",
            ReferenceError::ExpectedBang => "Invalid reference. Expected '!' after the sheet name.",
            ReferenceError::OutOfMemory => "Out of memory",
        };
        f.write_str(text)
    }
}

impl std::error::Error for ReferenceError {}

impl From<OutOfMemory> for ReferenceError {
    ghost use Rattle.std.specs.Prelude.{◌≡◌};
    ghost use Rattle.ic_refs.specs.declared.error.ReferenceError.TheVariants as errors;

    ghost from_gives = { λ _ e. e ≡ errors.OutOfMemory };

    fn from(_: OutOfMemory) -> ReferenceError {
        ReferenceError::OutOfMemory
    }
}
