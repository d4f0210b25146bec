//! The import of a source into a book.
ghost use Rattle.std.specs.Prelude.{◌≡◌, ◌≢◌, ◌+◌, ◌<◌, ◌≤◌, ◌^◌, [], true, Ok, Err, IfErr, IfOk, IsSome, IsSomeAnd, OnErr, OnOk, chars, length, string_bytes};
ghost use Rattle.ic_laws.specs.Position.{is_column, is_row};
ghost use Rattle.ic_lines.specs.Bytes.{HasFault, IfTold};
ghost use Rattle.ic_lines.specs.Reading.{most_turns};
ghost use Rattle.ic_tables.specs.Tables.{HasGoodFormats, language_of, locale_of};
ghost use Rattle.ic_tree.specs.Shown.{list_separator};
ghost use Rattle.ic_parts.specs.Book.{IsValidBook};
ghost use Rattle.ic_parts.specs.Refused.{TellsOnly};
ghost use Rattle.ic_parts.specs.Whole.{whole_of};
ghost use Rattle.ic_import.specs.Import.{BlocksRightly, IsMet, IsOfBytes, IsOfReading, IsOfRequest, RefusesRequest, RestsOn, RestsOnBytes, TellsImport, TellsTyping, TellsWrong, in_notation, request, request_refusal, separator_of};
ghost use Rattle.ic_import.specs.Records.{all_fields, records_of};
ghost use Rattle.ic_import.specs.Typed.{Typable};

use crate::ImportError;
use crate::places::{Start, Survey, survey_fields};
use crate::typing::type_all;
use ic_book::{BookError, Model};
use ic_laws::OutOfMemory;
use ic_lines::{RunError, Source, read_all};
use ic_refs::{CellReferenceIndex, is_valid_column_number, is_valid_row};
use ic_tables::{Locale, Tables};
use std::alloc::Global;

/// Types the fields of all records of a source into a sheet of a book, in the notation of a locale and a language of the tables,
/// which are those that the book borrows. All fields are typed, or none. Answers how many records and how many fields there
/// are.
///
/// The records are those that `csv` reads, with the locale's list separator between fields, no header row, and any number of
/// fields in each. The first field goes to the row and the column of `at`, both from 1, of the sheet at its index, from 0;
/// each record goes a row below the one before, each field a column to the right. The locale and the language in force are
/// then those from before. Everything else that typing leaves as it is, is kept, formulas at their indexes in their sheets
/// among it; nothing is said of look-ups and of the indexes of shared strings.
///
/// In this order: `Book` with `InvalidSheet`, `InvalidRow`, `InvalidColumn`, `InvalidLocale`, `InvalidLanguage`, exactly
/// where there is none such, and then nothing is read; `ReadFault` where a read failed, `TooManyTurns` after 2^32 reads that
/// each gave a byte, where none showed the end; `NotUtf8` exactly where a field isn't UTF-8, with the first one;
/// `OutsideSheet` exactly where the place of a field leaves the sheet, with the first one; `Blocked` exactly where the book
/// refuses a field in its turn, with the first one. `OutOfMemory` may come in place of all but `Book`. An error changes
/// nothing of the model.
pub fn import_csv<'a, S: Source>(
    alloc: Global,
    model: &mut Model<'a>,
    tables: &'a Tables,
    at: &CellReferenceIndex,
    locale_id: &str,
    language_id: &str,
    source: &mut S,
) -> Result<(u64, u64), ImportError>
    requires tables { tables.now ≡ model.old.book.tables }

    // What is answered and left is what all bytes come to.
    ensures told { RestsOnBytes result → RestsOn
        (request at.now (chars locale_id.now) (chars language_id.now)) (whole_of model.old.book)
        (whole_of model.new.book) result (S.left source.old) (S.left source.new) }
    ensures kept { OnErr result (model.new ≡ model.old) }
    ensures tables { model.new.book.tables ≡ model.old.book.tables }

    // A request is refused exactly by its causes, before the source is read.
    ensures refused { RefusesRequest
        (request_refusal (request at.now (chars locale_id.now) (chars language_id.now))
        (whole_of model.old.book)) result }
    ensures untouched { IfErr result (λ e. IsOfRequest e → source.new ≡ source.old) }

    // When each other error comes; else a read showed the end, and none failed.
    ensures end { RestsOnBytes result → S.ended source.new ≡ true }
    ensures quiet { RestsOnBytes result → S.faults source.new ≡ S.faults source.old }
    ensures read_fault { result ≡ Err ImportError.ReadFault
        → HasFault (S.faults source.old) (S.faults source.new) }
    ensures too_many { result ≡ Err ImportError.TooManyTurns
        → IfTold (S.left source.old) (S.left source.new)
        (λ before now. most_turns + length now ≤ length before) }
    ensures unseen { result ≡ Err ImportError.TooManyTurns
        → S.ended source.new ≡ S.ended source.old }
    ensures blocked { IfErr result BlocksRightly }

    // Where there is no fault, and the source holds fewer than 2^32 bytes, neither of the source's errors comes.
    ensures completes { IsSomeAnd (S.left source.old) (λ bytes. length bytes < most_turns)
        → ¬ HasFault (S.faults source.old) (S.faults source.new)
        → (result ≢ Err ImportError.ReadFault) × (result ≢ Err ImportError.TooManyTurns) }
{
    let separator = match asked(model, tables, at, locale_id, language_id) {
        Ok(separator) => separator,
        Err(e) => return Err(ImportError::Book(e)),
    };
    let bytes = all_bytes(alloc, source)?;
    import_bytes(
        alloc,
        model,
        tables,
        at,
        locale_id,
        language_id,
        bytes.as_slice(),
        separator,
    )
}

/// The same of all bytes of a source, for a request that nothing refuses, with what parts its fields.
fn import_bytes<'a>(
    alloc: Global,
    model: &mut Model<'a>,
    tables: &'a Tables,
    at: &CellReferenceIndex,
    locale_id: &str,
    language_id: &str,
    bytes: &[u8],
    separator: u8,
) -> Result<(u64, u64), ImportError>
    requires tables { tables.now ≡ model.old.book.tables }
    requires met { IsMet (request at.now (chars locale_id.now) (chars language_id.now))
        (whole_of model.old.book) }
    requires separator { separator ≡ separator_of tables.now (chars locale_id.now) }
    ensures told { TellsImport (request at.now (chars locale_id.now) (chars language_id.now))
        (whole_of model.old.book) bytes.now result (whole_of model.new.book) }
    ensures kept { OnErr result (model.new ≡ model.old) }
    ensures tables { model.new.book.tables ≡ model.old.book.tables }
    ensures which { IfErr result IsOfBytes }
    ensures blocked { IfErr result BlocksRightly }
{
    look_over(alloc, bytes, separator, at)?;
    put_in(
        alloc,
        model,
        tables,
        at,
        locale_id,
        language_id,
        bytes,
        separator,
    )
}

/// What parts the fields of a request, in a book that borrows these tables. The error is what refuses the request; no memory is
/// taken.
fn asked(
    model: &Model<'_>,
    tables: &Tables,
    at: &CellReferenceIndex,
    locale_id: &str,
    language_id: &str,
) -> Result<u8, BookError>
    requires tables { tables.now ≡ model.now.book.tables }
    ensures refused { TellsOnly result
        (request_refusal (request at.now (chars locale_id.now) (chars language_id.now))
        (whole_of model.now.book)) }
    ensures separator { IfOk result (λ separator. separator
        ≡ separator_of tables.now (chars locale_id.now)) }
{
    let _empty = model.is_empty_cell(at.sheet, at.row, at.column)?;
    if !is_valid_row(at.row) {
        return Err(BookError::InvalidRow);
    }
    if !is_valid_column_number(at.column) {
        return Err(BookError::InvalidColumn);
    }
    let Ok(locale) = tables.get_locale(locale_id) else {
        return Err(BookError::InvalidLocale);
    };
    let Ok(_) = tables.get_language(language_id) else {
        return Err(BookError::InvalidLanguage);
    };
    Ok(separator_in(tables, locale))
}

/// What parts lists in a locale of the tables: a semicolon where decimals are by a comma, and a comma elsewhere.
fn separator_in(tables: &Tables, locale: &Locale) -> u8
    requires { HasGoodFormats tables.now locale.now }
    ensures { result ≡ list_separator locale.now }
{
    if locale.numbers.symbols.decimal.is(",") {
        b';'
    } else {
        b','
    }
}

/// All bytes of a source.
fn all_bytes<S: Source>(alloc: Global, source: &mut S) -> Result<Vec<u8>, ImportError>
    ensures all { IfOk result (λ bytes. IfTold (S.left source.old) (S.left source.new)
        (λ before now. (bytes.items ≡ before) × (now ≡ []))) }
    ensures end { OnOk result (S.ended source.new ≡ true) }
    ensures quiet { OnOk result (S.faults source.new ≡ S.faults source.old) }
    ensures read_fault { result ≡ Err ImportError.ReadFault
        → HasFault (S.faults source.old) (S.faults source.new) }
    ensures too_many { result ≡ Err ImportError.TooManyTurns
        → IfTold (S.left source.old) (S.left source.new)
        (λ before now. most_turns + length now ≤ length before) }
    ensures unseen { OnErr result (S.ended source.new ≡ S.ended source.old) }
    ensures which { IfErr result IsOfReading }
    ensures completes { IsSomeAnd (S.left source.old) (λ bytes. length bytes < most_turns)
        → ¬ HasFault (S.faults source.old) (S.faults source.new)
        → IfErr result (λ e. e ≡ ImportError.OutOfMemory) }
{
    match read_all(alloc, source) {
        Ok(bytes) => Ok(bytes),
        Err(RunError::ReadFault) => Err(ImportError::ReadFault),
        Err(RunError::TooManyTurns) => Err(ImportError::TooManyTurns),
        Err(RunError::OutOfMemory) => Err(ImportError::OutOfMemory),
        Err(RunError::WriteFault) => unreachable!(),
    }
}

/// Looks whether all fields can be typed, wherever the book refuses none. The error is the first field that isn't UTF-8; where
/// all are, the first whose place leaves the sheet; or memory ran out.
fn look_over(
    alloc: Global,
    bytes: &[u8],
    separator: u8,
    at: &CellReferenceIndex,
) -> Result<(), ImportError>
    requires row { is_row at.now.row ≡ true }
    requires column { is_column at.now.column ≡ true }
    ensures typable { OnOk result (Typable (at.now.row, at.now.column)
        (all_fields (records_of separator bytes.now))) }
    ensures wrong { IfErr result (TellsWrong (at.now.row, at.now.column)
        (all_fields (records_of separator bytes.now))) }
{
    let start = Start {
        row: at.row,
        column: at.column,
    };
    match survey_fields(alloc, bytes, separator, start)? {
        Survey::Typable => Ok(()),
        Survey::NotUtf8(number) => Err(ImportError::NotUtf8 {
            at_record: number.at_record,
            at_field: number.at_field,
        }),
        Survey::OutsideSheet(number) => Err(ImportError::OutsideSheet {
            at_record: number.at_record,
            at_field: number.at_field,
        }),
    }
}

/// Types the fields of bytes in a copy of the book, which takes its place; where a field is refused or memory runs out, the
/// book is as it was.
fn put_in<'a>(
    alloc: Global,
    model: &mut Model<'a>,
    tables: &'a Tables,
    at: &CellReferenceIndex,
    locale_id: &str,
    language_id: &str,
    bytes: &[u8],
    separator: u8,
) -> Result<(u64, u64), ImportError>
    requires tables { tables.now ≡ model.old.book.tables }
    requires met { IsMet (request at.now (chars locale_id.now) (chars language_id.now))
        (whole_of model.old.book) }
    requires typable { Typable (at.now.row, at.now.column)
        (all_fields (records_of separator bytes.now)) }
    ensures told { TellsTyping
        (request at.now (chars locale_id.now) (chars language_id.now))
        (whole_of model.old.book) (records_of separator bytes.now)
        result (whole_of model.new.book) }
    ensures kept { OnErr result (model.new ≡ model.old) }
    ensures tables { model.new.book.tables ≡ model.old.book.tables }
{
    let locale = own_locale(model)?;
    let language = own_language(model)?;
    let mut copy = copied(model, tables, language.as_str())?;
    switch(&mut copy, locale_id, language_id);
    let counts = type_all(alloc, &mut copy, at, bytes, separator)?;
    switch(&mut copy, locale.as_str(), language.as_str());
    *model = copy;
    Ok(counts)
}

/// A copy of a book, in its language. Only memory can be missing.
fn copied<'a>(
    model: &Model<'a>,
    tables: &'a Tables,
    language_id: &str,
) -> Result<Model<'a>, OutOfMemory>
    requires tables { tables.now ≡ model.now.book.tables }
    requires language { chars language_id.now ≡ model.now.book.language }
    requires valid { IsValidBook model.now.book }
    ensures { IfOk result (λ copy. whole_of copy.book ≡ whole_of model.now.book) }
{
    let Ok(workbook) = model.workbook() else {
        return Err(OutOfMemory);
    };
    match Model::from_workbook(workbook, language_id, tables) {
        Ok(copy) => Ok(copy),
        Err(e) => Err(want_of_memory(e)),
    }
}

/// That memory ran out, for an error that can be nothing else.
fn want_of_memory(e: BookError) -> OutOfMemory
    requires { e ≡ BookError.OutOfMemory }
{
    match e {
        BookError::OutOfMemory => OutOfMemory,
        _ => unreachable!(),
    }
}

/// Puts a locale and a language in force that the tables have. It takes no memory.
fn switch(model: &mut Model<'_>, locale_id: &str, language_id: &str)
    requires locale { IsSome (locale_of model.old.book.tables (chars locale_id.now)) }
    requires language { IsSome (language_of model.old.book.tables (chars language_id.now)) }
    ensures { whole_of model.new.book ≡ in_notation (chars locale_id.now) (chars language_id.now)
        (whole_of model.old.book) }
{
    put_locale(model, locale_id);
    put_language(model, language_id);
}

/// Puts a locale in force that the tables have.
fn put_locale(model: &mut Model<'_>, id: &str)
    requires { IsSome (locale_of model.old.book.tables (chars id.now)) }
    ensures { whole_of model.new.book
        ≡ in_notation (chars id.now) model.old.book.language (whole_of model.old.book) }
{
    if model.set_locale(id).is_err() {
        unreachable!()
    }
}

/// Puts a language in force that the tables have.
fn put_language(model: &mut Model<'_>, id: &str)
    requires { IsSome (language_of model.old.book.tables (chars id.now)) }
    ensures { whole_of model.new.book
        ≡ in_notation model.old.book.locale (chars id.now) (whole_of model.old.book) }
{
    if model.set_language(id).is_err() {
        unreachable!()
    }
}

/// The id of the locale in force. Only memory can be missing.
fn own_locale(model: &Model<'_>) -> Result<String, OutOfMemory>
    ensures own { IfOk result (λ id. chars (string_bytes id) ≡ model.now.book.locale) }
    ensures valid { IsValidBook model.now.book }
{
    match model.get_locale() {
        Ok(id) => Ok(id),
        Err(_) => Err(OutOfMemory),
    }
}

/// The code of the language in force. Only memory can be missing.
fn own_language(model: &Model<'_>) -> Result<String, OutOfMemory>
    ensures { IfOk result (λ id. chars (string_bytes id) ≡ model.now.book.language) }
{
    match model.get_language() {
        Ok(id) => Ok(id),
        Err(_) => Err(OutOfMemory),
    }
}
