//! What the program does with its words.
ghost use Rattle.std.specs.Prelude.{◌≡◌, ◌≢◌, ◌⊎◌, ◌↔◌, ◌+◌, ◌<◌, ◌≤◌, ◌^◌, [], ◌∷◌, ◌++◌, None, Some, true, Err, Ok, chars, length, string_bytes, IfErr, IfOk, IfSome, IsNone, IsSome, IsSomeAnd, is_some, List, OnOk, encode_utf8_all, ℕ};
ghost use Rattle.std.specs.Fmt.{decimal};
ghost use Rattle.ic_laws.specs.Character.{line_feed};
ghost use Rattle.ic_lines.specs.Bytes.{AppendsFront, HasFault, IfTold};
ghost use Rattle.ic_machine.specs.Book.{Book};
ghost use Rattle.ic_parts.specs.Whole.{whole_of};
ghost use Rattle.ic_run.specs.Core.{IsPlainBook};
ghost use Rattle.ic_run.specs.Desk.{start_refusal, texts};
ghost use Rattle.ic_run.specs.Make.{made_setting};
ghost use Rattle.ic_run.specs.Translate.{target_refusal};
ghost use Rattle.ic_import.specs.Desk.{HasWritten, HasWrittenPart, NeverRefuses, SaysOf, Writes, WritesPart, failed, first_markup, refused_line, status_of, target, target_of};

use crate::ImportError;
use crate::asked::{Asked, asked_for};
use crate::import::import_csv;
use ic_book::Model;
use ic_laws::OutOfMemory;
use ic_laws::scan::{push_char, push_text};
use ic_lines::{Sink, Source};
use ic_refs::CellReferenceIndex;
use ic_run::{english_book, written};
use ic_tables::Tables;
use jiff::Timestamp;
use std::alloc::Global;
use std::mem::ManuallyDrop;

/// Imports a source into the first sheet of a new book in en, en and UTC, from row 1 and column 1 on, and writes that sheet as
/// a table (`get_sheet_markup`) and a line feed. The words `LOCALE LANGUAGE` name the notation that the fields are typed in;
/// no words are `en en`. Where a field isn't UTF-8, or its place leaves the sheet, it writes `refused`, the number of the
/// record, that of the field, and `NotUtf8` or `OutsideSheet` instead, with tabs between them and a line feed behind.
///
/// The memory of the book isn't given back: whoever calls this ends the process with the status.
///
/// The status is 0 where the table is written, 1 exactly for any other words, 2 exactly where it isn't 1 and the tables lack the
/// locale, the language or UTC, 3 where a read failed, 4 where a write did, 5 after 2^32 reads that each gave a byte, where
/// none showed the end, 6 where memory runs out, 8 where none of these comes and such a field is told.
pub fn import_desk<S: Source, K: Sink>(
    alloc: Global,
    words: &[String],
    tables: &Tables,
    moment: Timestamp,
    source: &mut S,
    sink: &mut K,
) -> u8
    // With 0 the table of the book that the import leaves was written, and with 8 which field is wrong; with 4 a front of
    // either, with 3, 5 and 6 nothing.
    ensures written { (result ≡ 0) ⊎ (result ≡ 8) → IfSome (target_of (texts words.now))
        (λ target. IfTold (S.left source.old) (S.left source.new)
        (HasWritten target tables.now result (K.written sink.old) (K.written sink.new))) }
    ensures front { result ≡ 4 → IfSome (target_of (texts words.now))
        (λ target. IfTold (S.left source.old) (S.left source.new)
        (HasWrittenPart target tables.now (K.written sink.old) (K.written sink.new))) }
    ensures nothing { (result ≡ 3) ⊎ ((result ≡ 5) ⊎ (result ≡ 6)) → sink.new ≡ sink.old }

    // Both come only where a read showed the end, and all bytes were taken.
    ensures end { (result ≡ 0) ⊎ (result ≡ 8) → S.ended source.new ≡ true }
    ensures taken { (result ≡ 0) ⊎ (result ≡ 8)
        → IfTold (S.left source.old) (S.left source.new) (λ bytes left. left ≡ []) }

    // Each other status has its cause; that memory ran out may come in place of all but 1 and 2.
    ensures usage { (result ≡ 1) ↔ IsNone (target_of (texts words.now)) }
    ensures unknown { (result ≡ 2) ↔ IsSomeAnd (target_of (texts words.now))
        (λ target. IsSome (start_refusal made_setting tables.now)
        ⊎ IsSome (target_refusal target tables.now)) }
    ensures untouched { (result ≡ 1) ⊎ (result ≡ 2) → (source.new ≡ source.old)
        × (sink.new ≡ sink.old) }
    ensures read_fault { result ≡ 3 → HasFault (S.faults source.old) (S.faults source.new) }
    ensures write_fault { result ≡ 4 → HasFault (K.faults sink.old) (K.faults sink.new) }
    ensures too_many { result ≡ 5 → IfTold (S.left source.old) (S.left source.new)
        (λ before now. 2 ^ 32 + length now ≤ length before) }
    ensures unseen { result ≡ 5 → S.ended source.new ≡ S.ended source.old }
    ensures most { (result ≤ 8) × (result ≢ 7) }

    // Where there is no fault, and the source holds fewer than 2^32 bytes, only that memory runs out is left beside 0 and 8.
    ensures completes { IsSomeAnd (target_of (texts words.now))
        (λ target. IsNone (start_refusal made_setting tables.now)
        × IsNone (target_refusal target tables.now))
        → IsSomeAnd (S.left source.old) (λ bytes. length bytes < 2 ^ 32)
        → ¬ HasFault (S.faults source.old) (S.faults source.new)
        → ¬ HasFault (K.faults sink.old) (K.faults sink.new)
        → (result ≡ 0) ⊎ ((result ≡ 6) ⊎ (result ≡ 8)) }
{
    match asked_for(words) {
        Some(asked) => imported(alloc, &asked, tables, moment, source, sink),
        None => 1,
    }
}

/// The same for a notation.
fn imported<S: Source, K: Sink>(
    alloc: Global,
    asked: &Asked<'_>,
    tables: &Tables,
    moment: Timestamp,
    source: &mut S,
    sink: &mut K,
) -> u8
    ensures written { (result ≡ 0) ⊎ (result ≡ 8)
        → IfTold (S.left source.old) (S.left source.new) (HasWritten (target asked.now) tables.now
        result (K.written sink.old) (K.written sink.new)) }
    ensures front { result ≡ 4 → IfTold (S.left source.old) (S.left source.new)
        (HasWrittenPart (target asked.now) tables.now (K.written sink.old) (K.written sink.new)) }
    ensures nothing { (result ≡ 3) ⊎ ((result ≡ 5) ⊎ (result ≡ 6)) → sink.new ≡ sink.old }
    ensures end { (result ≡ 0) ⊎ (result ≡ 8) → S.ended source.new ≡ true }
    ensures taken { (result ≡ 0) ⊎ (result ≡ 8)
        → IfTold (S.left source.old) (S.left source.new) (λ bytes left. left ≡ []) }
    ensures known { result ≢ 1 }
    ensures unknown { (result ≡ 2) ↔ (IsSome (start_refusal made_setting tables.now)
        ⊎ IsSome (target_refusal (target asked.now) tables.now)) }
    ensures untouched { result ≡ 2 → (source.new ≡ source.old) × (sink.new ≡ sink.old) }
    ensures read_fault { result ≡ 3 → HasFault (S.faults source.old) (S.faults source.new) }
    ensures write_fault { result ≡ 4 → HasFault (K.faults sink.old) (K.faults sink.new) }
    ensures too_many { result ≡ 5 → IfTold (S.left source.old) (S.left source.new)
        (λ before now. 2 ^ 32 + length now ≤ length before) }
    ensures unseen { result ≡ 5 → S.ended source.new ≡ S.ended source.old }
    ensures most { (result ≤ 8) × (result ≢ 7) }
    ensures completes { IsNone (start_refusal made_setting tables.now)
        → IsNone (target_refusal (target asked.now) tables.now)
        → IsSomeAnd (S.left source.old) (λ bytes. length bytes < 2 ^ 32)
        → ¬ HasFault (S.faults source.old) (S.faults source.new)
        → ¬ HasFault (K.faults sink.old) (K.faults sink.new)
        → (result ≡ 0) ⊎ ((result ≡ 6) ⊎ (result ≡ 8)) }
{
    if is_unknown(tables, asked) {
        return 2;
    }
    match english_book(alloc, tables, moment) {
        Ok(mut model) => {
            let status = import_into(alloc, &mut model, tables, asked, source, sink);
            let _ = ManuallyDrop::new(model);
            status
        }
        Err(status) => status,
    }
}

/// Whether the tables lack the locale or the language that is asked for.
fn is_unknown(tables: &Tables, asked: &Asked<'_>) -> bool
    ensures { result ≡ is_some (target_refusal (target asked.now) tables.now) }
{
    tables.get_named_locale(asked.locale).is_err() || tables.get_language(asked.language).is_err()
}

/// Imports a source into the first sheet of a book without merged cells and arrays of several cells, and writes what came of it.
/// Answers the status.
fn import_into<'a, S: Source, K: Sink>(
    alloc: Global,
    model: &mut Model<'a>,
    tables: &'a Tables,
    asked: &Asked<'_>,
    source: &mut S,
    sink: &mut K,
) -> u8
    requires tables { tables.now ≡ model.old.book.tables }
    requires known { IsNone (target_refusal (target asked.now) tables.now) }
    requires plain { IsPlainBook (whole_of model.old.book) }
    requires some { 0 < length (whole_of model.old.book).sheets }
    ensures written { (result ≡ 0) ⊎ (result ≡ 8)
        → IfTold (S.left source.old) (S.left source.new) (Writes (target asked.now)
        (whole_of model.old.book) result (K.written sink.old) (K.written sink.new)) }
    ensures front { result ≡ 4
        → IfTold (S.left source.old) (S.left source.new) (WritesPart (target asked.now)
        (whole_of model.old.book) (K.written sink.old) (K.written sink.new)) }
    ensures nothing { (result ≡ 3) ⊎ ((result ≡ 5) ⊎ (result ≡ 6)) → sink.new ≡ sink.old }
    ensures end { (result ≡ 0) ⊎ (result ≡ 8) → S.ended source.new ≡ true }
    ensures taken { (result ≡ 0) ⊎ (result ≡ 8)
        → IfTold (S.left source.old) (S.left source.new) (λ bytes left. left ≡ []) }
    ensures known { (result ≢ 1) × (result ≢ 2) }
    ensures read_fault { result ≡ 3 → HasFault (S.faults source.old) (S.faults source.new) }
    ensures write_fault { result ≡ 4 → HasFault (K.faults sink.old) (K.faults sink.new) }
    ensures too_many { result ≡ 5 → IfTold (S.left source.old) (S.left source.new)
        (λ before now. 2 ^ 32 + length now ≤ length before) }
    ensures unseen { result ≡ 5 → S.ended source.new ≡ S.ended source.old }
    ensures most { (result ≤ 8) × (result ≢ 7) }
    ensures completes { IsSomeAnd (S.left source.old) (λ bytes. length bytes < 2 ^ 32)
        → ¬ HasFault (S.faults source.old) (S.faults source.new)
        → ¬ HasFault (K.faults sink.old) (K.faults sink.new)
        → (result ≡ 0) ⊎ ((result ≡ 6) ⊎ (result ≡ 8)) }
{
    let at = CellReferenceIndex {
        sheet: 0,
        row: 1,
        column: 1,
    };
    let answer = import_csv(
        alloc,
        model,
        tables,
        &at,
        asked.locale,
        asked.language,
        source,
    );
    tell(alloc, model, &answer, sink)
}

/// Writes what an import answered, and left of the book. The status: that of the answer, but 4 where the sink had a fault and 6
/// where memory ran out before.
fn tell<K: Sink>(
    alloc: Global,
    model: &Model<'_>,
    answer: &Result<(u64, u64), ImportError>,
    sink: &mut K,
) -> u8
    requires { NeverRefuses answer.now }
    ensures written { (result ≡ 0) ⊎ (result ≡ 8) → (text : List ℕ)
        × SaysOf answer.now (whole_of model.now.book) result text
        × IfTold (K.written sink.old) (K.written sink.new)
        (λ before now. now ≡ before ++ encode_utf8_all text) }
    ensures front { result ≡ 4 → (text : List ℕ)
        × SaysOf answer.now (whole_of model.now.book) (status_of answer.now) text
        × IfTold (K.written sink.old) (K.written sink.new)
        (AppendsFront (encode_utf8_all text)) }
    ensures nothing { (result ≡ 3) ⊎ ((result ≡ 5) ⊎ (result ≡ 6)) → sink.new ≡ sink.old }
    ensures write_fault { result ≡ 4 → HasFault (K.faults sink.old) (K.faults sink.new) }
    ensures which { (result ≡ 4) ⊎ ((result ≡ 6) ⊎ (result ≡ status_of answer.now)) }
{
    match told(alloc, model, answer) {
        Ok(text) => written(sink, text.as_bytes(), status_of(answer)),
        Err(status) => status,
    }
}

/// The text that tells what an import answered; where there is none, the status: that of the answer, or 6 where memory ran
/// out.
fn told(
    alloc: Global,
    model: &Model<'_>,
    answer: &Result<(u64, u64), ImportError>,
) -> Result<String, u8>
    requires { NeverRefuses answer.now }
    ensures text { IfOk result (λ text. SaysOf answer.now (whole_of model.now.book)
        (status_of answer.now) (chars (string_bytes text))) }
    ensures none { IfErr result (λ status. (status ≡ 6)
        ⊎ ((status ≡ status_of answer.now) × ((status ≡ 3) ⊎ (status ≡ 5)))) }
{
    match answer {
        Ok(_) => or_no_memory(table(model)),
        Err(e) => told_error(alloc, e),
    }
}

/// The same for an error.
fn told_error(alloc: Global, e: &ImportError) -> Result<String, u8>
    requires { NeverRefuses (failed e.now) }
    ensures text { (left : Book) → IfOk result (λ text. SaysOf (failed e.now) left
        (status_of (failed e.now)) (chars (string_bytes text))) }
    ensures none { IfErr result (λ status. (status ≡ 6)
        ⊎ ((status ≡ status_of (failed e.now)) × ((status ≡ 3) ⊎ (status ≡ 5)))) }
{
    match e {
        ImportError::NotUtf8 {
            at_record,
            at_field,
        } => or_no_memory(refused(alloc, *at_record, *at_field, "NotUtf8")),
        ImportError::OutsideSheet {
            at_record,
            at_field,
        } => or_no_memory(refused(alloc, *at_record, *at_field, "OutsideSheet")),
        ImportError::ReadFault => Err(3),
        ImportError::TooManyTurns => Err(5),
        ImportError::OutOfMemory => Err(6),
        ImportError::Book(_) => unreachable!(),
        ImportError::Blocked { .. } => unreachable!(),
    }
}

/// A text; or the status where memory ran out.
fn or_no_memory(text: Result<String, OutOfMemory>) -> Result<String, u8>
    ensures text { IfOk result (λ made. text ≡ Ok made) }
    ensures none { IfErr result (λ status. status ≡ 6) }
{
    match text {
        Ok(text) => Ok(text),
        Err(OutOfMemory) => Err(6),
    }
}

/// The status of what an import answered.
fn status_of(answer: &Result<(u64, u64), ImportError>) -> u8
    ensures { result ≡ status_of answer.now }
{
    match answer {
        Ok(_) => 0,
        Err(ImportError::ReadFault) => 3,
        Err(ImportError::TooManyTurns) => 5,
        Err(ImportError::OutOfMemory) => 6,
        Err(_) => 8,
    }
}

/// The first sheet of a book as a table, and a line feed. Only memory can be missing.
fn table(model: &Model<'_>) -> Result<String, OutOfMemory>
    ensures { IfOk result (λ text. chars (string_bytes text)
        ≡ first_markup (whole_of model.now.book) ++ line_feed ∷ []) }
{
    let Ok(mut text) = model.get_sheet_markup(0) else {
        return Err(OutOfMemory);
    };
    push_char(&mut text, '\n')?;
    Ok(text)
}

/// The line that tells a wrong field by its numbers. Only memory can be missing.
fn refused(alloc: Global, at_record: u64, at_field: u64, name: &str) -> Result<String, OutOfMemory>
    ensures { IfOk result (λ text. chars (string_bytes text)
        ≡ refused_line at_record at_field (chars name.now)) }
{
    let mut text = String::new(alloc);
    push_text(&mut text, "refused\t")?;
    push_number(&mut text, at_record)?;
    push_char(&mut text, '\t')?;
    push_number(&mut text, at_field)?;
    push_char(&mut text, '\t')?;
    push_text(&mut text, name)?;
    push_char(&mut text, '\n')?;
    Ok(text)
}

/// Appends the decimal digits of a number.
fn push_number(text: &mut String, number: u64) -> Result<(), OutOfMemory>
    ensures { OnOk result (chars (string_bytes text.new) ≡ chars (string_bytes text.old)
        ++ decimal number) }
{
    write!(text, "{number}")?;
    Ok(())
}
