//! The texts of the book's errors.
use ic_book::BookError;
use ic_laws::Items;
use ic_rows::Row;

/// `book_error` and the name of one: its text.
pub fn call(row: &mut Row<'_>) {
    if row.name == "book_error" {
        put_book_error(row);
    }
}

/// The errors of the book, but for one that tells places.
const BOOK_ERRORS: [BookError; 35] = [
    BookError::BadLine,
    BookError::InvalidSheet,
    BookError::InvalidRow,
    BookError::InvalidColumn,
    BookError::BadArea,
    BookError::OutOfRange,
    BookError::SheetIndexTooLarge,
    BookError::TargetTooLarge,
    BookError::InvalidSheetName,
    BookError::SheetExists,
    BookError::SheetNotFound,
    BookError::OnlySheet,
    BookError::IdLive,
    BookError::IdsUsedUp,
    BookError::InvalidName,
    BookError::InvalidScope,
    BookError::NameExists,
    BookError::NameNotFound,
    BookError::InvalidNameFormula,
    BookError::InvalidFormula,
    BookError::BadReference,
    BookError::NotAFormula,
    BookError::InvalidLocale,
    BookError::InvalidLanguage,
    BookError::InvalidTimezone,
    BookError::MergedPart,
    BookError::ArrayPart,
    BookError::ClearArray,
    BookError::FrozenNegative,
    BookError::TooManyRows,
    BookError::TooManyColumns,
    BookError::NoFormulaCell,
    BookError::SpillBlocked { row: 1, column: 1 },
    BookError::BadWorkbook(1),
    BookError::OutOfMemory,
];

/// The text of an error of the book.
fn put_book_error(row: &mut Row<'_>) {
    for error in &BOOK_ERRORS {
        put_named(row, error);
    }
    put_named(
        row,
        &BookError::WouldCapture(Items::from(Vec::new(row.alloc))),
    );
}

/// The text of an error, if its name is the row's.
fn put_named(row: &mut Row<'_>, error: &BookError) {
    if error.name() == row.word(1) {
        row.put_made(error.to_string(row.alloc));
    }
}
