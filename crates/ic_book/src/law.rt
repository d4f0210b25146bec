ghost use Rattle.std.specs.Prelude.{◌≡◌, List, None, ℕ};
ghost use Rattle.ic_tables.specs.Tables.{IsWellFormed, TableSet};
ghost use Rattle.ic_cells.specs.declared.workbook.Workbook.{Workbook};
ghost use Rattle.ic_machine.specs.Valid as valid;
ghost use Rattle.ic_workbooks.specs.Asked.{TellsHandedIn};
ghost use Rattle.ic_parts.specs.Book.{Book, IsValidBook, whole_of};
ghost use Rattle.ic_workbooks.specs.HandedIn.{HaveSameTexts, MeetsAll, book_of, notation_refusal};
ghost use Rattle.ic_parts.specs.Whole.{HasCore};
ghost use Rattle.ic_workbooks.specs.Workbook.{workbook_of};
ghost use Rattle.ic_parts.specs.declared.error.BookError.TheVariants as errors;
ghost use Rattle.ic_parts.specs.declared.error.BookError.{BookError};

/// The whole book of a valid book has its core: so what a call does to the whole book says what becomes of the core.
pub fn law_whole_book()
    ensures { HasCore }
{}

/// A workbook that is handed in, whose locale, zone and language are there and which meets the twelve conditions that are
/// asked of one, stands for a valid book. What `workbook` gives of a book that it stands for has the same texts. Where such a
/// one is handed in, only memory can be missing.
pub fn law_handed_in()
    ensures valid { (w : Workbook) (language : List ℕ) (tables : TableSet) → IsWellFormed tables
        → notation_refusal w language tables ≡ None → MeetsAll w language tables
        → valid.IsValidBook (book_of w language tables) }
    ensures again { (w : Workbook) (language : List ℕ) (tables : TableSet)
        → MeetsAll w language tables → (book : Book) → whole_of book ≡ book_of w language tables
        → HaveSameTexts (workbook_of book) w }
    ensures only_memory { (w : Workbook) (language : List ℕ) (tables : TableSet)
        → notation_refusal w language tables ≡ None → MeetsAll w language tables
        → (e : BookError) → TellsHandedIn w language tables e → e ≡ errors.OutOfMemory }
{}

/// What `workbook` gives of a book meets the twelve conditions that are asked of a workbook which is handed in, and stands
/// for the same whole book. Where it is handed in again, in the same language, only memory can be missing.
pub fn law_workbook()
    ensures meets { (book : Book) → IsValidBook book
        → MeetsAll (workbook_of book) book.language book.tables }
    ensures stands { (book : Book) → IsValidBook book
        → book_of (workbook_of book) book.language book.tables ≡ whole_of book }
    ensures again { (book : Book) → IsValidBook book → (e : BookError)
        → TellsHandedIn (workbook_of book) book.language book.tables e
        → e ≡ errors.OutOfMemory }
{}
