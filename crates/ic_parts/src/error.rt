ghost use Rattle.std.specs.Prelude.{◌≡◌};

use crate::MentionSite;
use ic_grid::GridError;
use ic_laws::{Items, OutOfMemory};
use std::alloc::{AllocError, AllocFailed};
use std::fmt;
use thiserror::Error;

/// Why a call of the workbook was refused.
#[derive(Debug, Drop, Error)]
pub enum BookError {
    /// A line that is no command. Only a reply tells it.
    BadLine,
    /// No sheet stands at the index, which counts from 0.
    InvalidSheet,
    /// The row isn't 1 to 1,048,576.
    InvalidRow,
    /// The column isn't 1 to 16,384.
    InvalidColumn,
    /// The width or the height of an area is below 1; the area passes the edge of the sheet, which the values of a dynamic
    /// array may; the number of values isn't width times height; or a Cse array has another area.
    BadArea,
    /// The place that a sheet is to be put in at is past the end: there are fewer sheets before it.
    OutOfRange,
    /// No sheet stands at the index of the sheet that is to be moved or deleted.
    SheetIndexTooLarge,
    /// No sheet stands at the index that a sheet is to be moved to.
    TargetTooLarge,
    /// The name is empty, has more than 31 characters, or has one of `\ / * ? : [ ]`.
    InvalidSheetName,
    /// Another sheet's name agrees with it.
    SheetExists,
    /// No sheet's name agrees, or none has the id.
    SheetNotFound,
    /// There is no other sheet.
    OnlySheet,
    /// The id that a sheet is to get is 0, or that of a sheet.
    IdLive,
    /// The greatest id in use is the last one, 4,294,967,295.
    IdsUsedUp,
    /// A definition can't have the name: it is no identifier.
    InvalidName,
    /// No sheet stands at the index of the sheet that a definition is to be local to.
    InvalidScope,
    /// A definition of an agreeing name is local to the same sheet, or to none too.
    NameExists,
    /// No definition of an agreeing name is local to that sheet, or to none.
    NameNotFound,
    /// The body is neither a reference to a sheet of the book nor a LAMBDA.
    InvalidNameFormula,
    /// The text names no cell.
    BadReference,
    /// The text reads neither in the notation in force nor in English.
    InvalidFormula,
    /// The text doesn't begin with `=`, or is `=` alone.
    NotAFormula,
    /// No locale of the tables has the id.
    InvalidLocale,
    /// No language of the tables has the code.
    InvalidLanguage,
    /// The tables list no such zone.
    InvalidTimezone,
    /// Merged cells cover the cell, but it isn't their first; or an area that an array is written into meets some.
    MergedPart,
    /// A cell that is to be written belongs to a Cse array of more than one cell.
    ArrayPart,
    /// A Cse array of more than one cell lies partly in the area that is to be cleared.
    ClearArray,
    /// The number of rows or columns that stay in sight is below 0.
    FrozenNegative,
    /// A sheet has no more rows than are to stay in sight.
    TooManyRows,
    /// A sheet has no more columns than are to stay in sight.
    TooManyColumns,
    /// The cell has no formula; for a spill, no array formula.
    NoFormulaCell,
    /// This is the first cell of the area, by rows, that keeps the array from spilling. Rows and columns count from 1.
    SpillBlocked { row: i32, column: i32 },
    /// A workbook that was handed in fails the condition of this number, from 1 to 12, and none before. No reply tells it.
    BadWorkbook(u8),
    /// Words that mean a definition wouldn't mean the same one after the update: where they stand, cells by the order of
    /// sheets, rows and columns, then definitions in the order of the book, each once.
    WouldCapture(Items<MentionSite>),
    /// Memory ran out.
    OutOfMemory,
}

impl BookError {
    // What it says of itself.
    fn text(&self) -> &'static str {
        match self {
            BookError::BadLine => "Invalid line",
            BookError::InvalidSheet => "Invalid sheet index",
            BookError::InvalidRow => "Invalid row",
            BookError::InvalidColumn => "Invalid column",
            BookError::BadArea => "Invalid area",
            BookError::OutOfRange => "Sheet index out of range",
            BookError::SheetIndexTooLarge => "Sheet index too large",
            BookError::TargetTooLarge => "Target sheet index too large",
            BookError::InvalidSheetName => "Invalid name for a sheet",
            BookError::SheetExists => "A worksheet already exists with that name",
            BookError::SheetNotFound => "Sheet not found",
            BookError::OnlySheet => "Cannot delete only sheet",
            BookError::IdLive => "Sheet id is in use",
            BookError::IdsUsedUp => "No sheet id is left",
            BookError::InvalidName => "Name: Invalid defined name",
            BookError::InvalidScope => "Scope: Invalid sheet index",
            BookError::NameExists => "Name: Defined name already exists",
            BookError::NameNotFound => "Defined name not found",
            BookError::InvalidNameFormula => "Formula: Invalid defined name formula",
            BookError::BadReference => "Error parsing reference",
            BookError::InvalidFormula => "Invalid formula",
            BookError::NotAFormula => "Not a valid formula",
            BookError::InvalidLocale => "Invalid locale",
            BookError::InvalidLanguage => "Invalid language",
            BookError::InvalidTimezone => "Invalid timezone",
            BookError::MergedPart => "Cannot edit a cell that is part of a merged cell",
            BookError::ArrayPart => "Cannot write in a cell that is part of an array formula",
            BookError::ClearArray => "Cannot clear the range because it contains array formulas",
            BookError::FrozenNegative => "Frozen rows cannot be negative",
            BookError::TooManyRows => "Too many rows",
            BookError::TooManyColumns => "Too many columns",
            BookError::NoFormulaCell => "No formula cell",
            BookError::SpillBlocked { .. } => "Cannot spill array result",
            BookError::BadWorkbook(_) => "Invalid workbook",
            BookError::WouldCapture(_) => "Name: update would capture",
            BookError::OutOfMemory => "Out of memory",
        }
    }
}

impl fmt::Display for BookError {
    fn fmt<W: fmt::Write>(&self, f: &mut fmt::Formatter<W>) -> fmt::Result {
        f.write_str(self.text())
    }
}

impl BookError {
    ghost use Rattle.ic_parts.specs.Refused.{error_name};

    /// The name of the variant, which a reply shows.
    pub fn name(&self) -> &'static str
        ensures { result.now ≡ error_name self.now }
    {
        match self {
            BookError::BadLine => "BadLine",
            BookError::InvalidSheet => "InvalidSheet",
            BookError::InvalidRow => "InvalidRow",
            BookError::InvalidColumn => "InvalidColumn",
            BookError::BadArea => "BadArea",
            BookError::OutOfRange => "OutOfRange",
            BookError::SheetIndexTooLarge => "SheetIndexTooLarge",
            BookError::TargetTooLarge => "TargetTooLarge",
            BookError::InvalidSheetName => "InvalidSheetName",
            BookError::SheetExists => "SheetExists",
            BookError::SheetNotFound => "SheetNotFound",
            BookError::OnlySheet => "OnlySheet",
            BookError::IdLive => "IdLive",
            BookError::IdsUsedUp => "IdsUsedUp",
            BookError::InvalidName => "InvalidName",
            BookError::InvalidScope => "InvalidScope",
            BookError::NameExists => "NameExists",
            BookError::NameNotFound => "NameNotFound",
            BookError::InvalidNameFormula => "InvalidNameFormula",
            BookError::BadReference => "BadReference",
            BookError::InvalidFormula => "InvalidFormula",
            BookError::NotAFormula => "NotAFormula",
            BookError::InvalidLocale => "InvalidLocale",
            BookError::InvalidLanguage => "InvalidLanguage",
            BookError::InvalidTimezone => "InvalidTimezone",
            BookError::MergedPart => "MergedPart",
            BookError::ArrayPart => "ArrayPart",
            BookError::ClearArray => "ClearArray",
            BookError::FrozenNegative => "FrozenNegative",
            BookError::TooManyRows => "TooManyRows",
            BookError::TooManyColumns => "TooManyColumns",
            BookError::NoFormulaCell => "NoFormulaCell",
            BookError::SpillBlocked { .. } => "SpillBlocked",
            BookError::BadWorkbook(_) => "BadWorkbook",
            BookError::WouldCapture(_) => "WouldCapture",
            BookError::OutOfMemory => "OutOfMemory",
        }
    }
}

impl From<OutOfMemory> for BookError {
    ghost use Rattle.std.specs.Prelude.{◌≡◌};
    ghost use Rattle.ic_parts.specs.declared.error.BookError.TheVariants as errors;

    ghost from_gives = { λ _ e. e ≡ errors.OutOfMemory };

    fn from(_: OutOfMemory) -> BookError {
        BookError::OutOfMemory
    }
}

impl From<GridError> for BookError {
    ghost use Rattle.std.specs.Prelude.{◌≡◌};
    ghost use Rattle.ic_parts.specs.Refused.{of_grid};

    ghost from_gives = { λ refused e. e ≡ of_grid refused };

    fn from(refused: GridError) -> BookError {
        match refused {
            GridError::MergedPart => BookError::MergedPart,
            GridError::ArrayPart => BookError::ArrayPart,
            GridError::ClearArray => BookError::ClearArray,
            GridError::NoFormulaCell => BookError::NoFormulaCell,
            GridError::BadArea => BookError::BadArea,
            GridError::SpillBlocked { row, column } => BookError::SpillBlocked { row, column },
            GridError::OutOfMemory => BookError::OutOfMemory,
        }
    }
}

impl From<AllocError> for BookError {
    ghost use Rattle.std.specs.Prelude.{◌≡◌};
    ghost use Rattle.ic_parts.specs.declared.error.BookError.TheVariants as errors;

    ghost from_gives = { λ _ e. e ≡ errors.OutOfMemory };

    fn from(_: AllocError) -> BookError {
        BookError::OutOfMemory
    }
}

impl<T: Drop> From<AllocFailed<T>> for BookError {
    ghost use Rattle.std.specs.Prelude.{◌≡◌};
    ghost use Rattle.ic_parts.specs.declared.error.BookError.TheVariants as errors;

    ghost from_gives = { λ _ e. e ≡ errors.OutOfMemory };

    fn from(_: AllocFailed<T>) -> BookError {
        BookError::OutOfMemory
    }
}
