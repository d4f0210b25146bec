//! Why nothing was imported.

use ic_book::BookError;
use ic_laws::OutOfMemory;
use std::fmt;
use thiserror::Error;

/// Why nothing was imported. Each displays its name, and `Book` that of its error. Records, and fields in them, count from 1.
#[derive(Debug, Drop, Error)]
pub enum ImportError {
    /// The first field's sheet, row or column is none (`InvalidSheet`, `InvalidRow`, `InvalidColumn`), or the tables lack the
    /// locale or the language (`InvalidLocale`, `InvalidLanguage`).
    Book(BookError),
    /// A read of the source failed.
    ReadFault,
    /// 2^32 reads each gave at least one byte, and no end was met.
    TooManyTurns,
    /// This is the first field that isn't UTF-8.
    NotUtf8 {
        at_record: u64,
        at_field: u64,
    },
    /// This is the first field whose place leaves the sheet.
    OutsideSheet {
        at_record: u64,
        at_field: u64,
    },
    /// This is the first field that can't be typed: its cell is covered by merged cells (`MergedPart`), or belongs to a Cse
    /// array of more than one cell (`ArrayPart`).
    Blocked {
        at_record: u64,
        at_field: u64,
        why: BookError,
    },
    /// Memory ran out.
    OutOfMemory,
}

impl ImportError {
    // What it says of itself.
    fn text(&self) -> &'static str {
        match self {
            ImportError::Book(e) => e.name(),
            ImportError::ReadFault => "ReadFault",
            ImportError::TooManyTurns => "TooManyTurns",
            ImportError::NotUtf8 { .. } => "NotUtf8",
            ImportError::OutsideSheet { .. } => "OutsideSheet",
            ImportError::Blocked { .. } => "Blocked",
            ImportError::OutOfMemory => "OutOfMemory",
        }
    }
}

impl fmt::Display for ImportError {
    fn fmt<W: fmt::Write>(&self, f: &mut fmt::Formatter<W>) -> fmt::Result {
        f.write_str(self.text())
    }
}

impl From<OutOfMemory> for ImportError {
    ghost use Rattle.std.specs.Prelude.{◌≡◌};
    ghost use Rattle.ic_import.specs.declared.error.ImportError.TheVariants as errors;

    ghost from_gives = { λ _ e. e ≡ errors.OutOfMemory };

    fn from(_: OutOfMemory) -> ImportError {
        ImportError::OutOfMemory
    }
}
