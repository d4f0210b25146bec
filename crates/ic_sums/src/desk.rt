//! What the program does with its words.
ghost use Rattle.std.specs.Prelude.{◌≡◌, ◌⊎◌, ◌↔◌, ◌+◌, ◌++◌, ◌<◌, ◌≤◌, ◌^◌, [], true, chars, length, string_bytes, IfOk, IsNone, IsSome, IsSomeAnd, OnOk};
ghost use Rattle.ic_lines.specs.Bytes.{HasFault, IfTold};
ghost use Rattle.ic_parts.specs.Whole.{whole_of};
ghost use Rattle.ic_run.specs.Desk.{start_refusal};
ghost use Rattle.ic_run.specs.Make.{made_setting};
ghost use Rattle.ic_sums.specs.Told.{AppendsValues, AppendsValuesFront, TellsBook, WritesValues, WritesValuesFront, told_cell};

use crate::evaluation::evaluate;
use ic_book::{BookError, Model};
use ic_cells::CellIndex;
use ic_laws::scan::{push_char, push_text};
use ic_lines::{Sink, Source};
use ic_run::{book_after, written};
use ic_tables::Tables;
use ic_words::Fields;
use jiff::Timestamp;
use std::alloc::Global;
use std::mem::ManuallyDrop;

/// Reads all lines of the source, answers them on a new book in en, en and UTC, drops their replies, evaluates the book, and
/// writes a line for each cell with a formula, by sheets, rows and columns: `cell`, the index of the sheet, from 0, the row and
/// the column, from 1, the formula, and the value as its format shows it, both in the notation in force.
///
/// The memory of the book isn't given back: whoever calls this ends the process with the status.
///
/// The status is 0 where all lines are written, 1 exactly where there are words, 2 exactly where there are none and the tables
/// lack `en` or UTC, 3 where a read failed, 4 where a write did, 5 after 2^32 reads that each gave a byte, where none showed the
/// end, 6 where memory runs out.
pub fn sums_desk<S: Source, K: Sink>(
    alloc: Global,
    words: &[String],
    tables: &Tables,
    moment: Timestamp,
    source: &mut S,
    sink: &mut K,
) -> u8
    // With 0 the formulas and values of a book were written of which only values differ from the book after the lines of all
    // bytes; with 4 a front of that, with 3, 5 and 6 nothing.
    ensures written { result ≡ 0 → IfTold (S.left source.old) (S.left source.new) (λ bytes _.
        IfTold (K.written sink.old) (K.written sink.new) (AppendsValues tables.now bytes)) }
    ensures front { result ≡ 4 → IfTold (S.left source.old) (S.left source.new) (λ bytes _.
        IfTold (K.written sink.old) (K.written sink.new) (AppendsValuesFront tables.now bytes)) }
    ensures nothing { (result ≡ 3) ⊎ ((result ≡ 5) ⊎ (result ≡ 6)) → sink.new ≡ sink.old }

    // A read showed the end then, and all bytes were taken.
    ensures end { result ≡ 0 → S.ended source.new ≡ true }
    ensures taken { result ≡ 0 → IfTold (S.left source.old) (S.left source.new)
        (λ bytes left. left ≡ []) }

    // Each other status has its cause.
    ensures usage { (result ≡ 1) ↔ (0 < length words.now) }
    ensures unknown { (result ≡ 2) ↔ ((length words.now ≡ 0)
        × IsSome (start_refusal made_setting tables.now)) }
    ensures untouched { (result ≡ 1) ⊎ (result ≡ 2) → (source.new ≡ source.old)
        × (sink.new ≡ sink.old) }
    ensures read_fault { result ≡ 3 → HasFault (S.faults source.old) (S.faults source.new) }
    ensures write_fault { result ≡ 4 → HasFault (K.faults sink.old) (K.faults sink.new) }
    ensures too_many { result ≡ 5 → IfTold (S.left source.old) (S.left source.new)
        (λ before now. 2 ^ 32 + length now ≤ length before) }
    ensures most { result ≤ 6 }

    // Where there is no fault, and the source holds fewer than 2^32 bytes, only that memory runs out is left beside 0.
    ensures completes { length words.now ≡ 0 → IsNone (start_refusal made_setting tables.now)
        → IsSomeAnd (S.left source.old) (λ bytes. length bytes < 2 ^ 32)
        → ¬ HasFault (S.faults source.old) (S.faults source.new)
        → ¬ HasFault (K.faults sink.old) (K.faults sink.new)
        → (result ≡ 0) ⊎ (result ≡ 6) }
{
    if !words.is_empty() {
        return 1;
    }
    match book_after(alloc, tables, moment, source) {
        Ok(mut model) => {
            let status = tell(alloc, &mut model, sink);
            let _ = ManuallyDrop::new(model);
            status
        }
        Err(status) => status,
    }
}

/// Evaluates a book and writes its formulas with their values. The status: 0, 4 where the sink had a fault, 6 where memory ran
/// out before.
fn tell<K: Sink>(alloc: Global, model: &mut Model<'_>, sink: &mut K) -> u8
    ensures written { result ≡ 0 → IfTold (K.written sink.old) (K.written sink.new)
        (WritesValues (whole_of model.old.book)) }
    ensures front { result ≡ 4 → IfTold (K.written sink.old) (K.written sink.new)
        (WritesValuesFront (whole_of model.old.book)) }
    ensures nothing { result ≡ 6 → sink.new ≡ sink.old }
    ensures write_fault { result ≡ 4 → HasFault (K.faults sink.old) (K.faults sink.new) }
    ensures which { (result ≡ 0) ⊎ ((result ≡ 4) ⊎ (result ≡ 6)) }
{
    if evaluate(alloc, model).is_err() {
        return 6;
    }
    match told(alloc, model) {
        Ok(text) => written(sink, text.as_bytes(), 0),
        Err(_) => 6,
    }
}

/// The lines of the formulas of a book.
fn told(alloc: Global, model: &Model<'_>) -> Result<String, BookError>
    ensures { IfOk result (λ text. TellsBook (whole_of model.now.book)
        (chars (string_bytes text))) }
{
    let mut text = String::new(alloc);
    let cells = model.get_all_cells()?;
    for cell in &cells {
        push_cell(&mut text, model, cell)?;
    }
    Ok(text)
}

/// Appends the line of a cell, if it has a formula.
fn push_cell(text: &mut String, model: &Model<'_>, cell: &CellIndex) -> Result<(), BookError>
    ensures { OnOk result (chars (string_bytes text.new) ≡ chars (string_bytes text.old)
        ++ told_cell (whole_of model.now.book) cell.now) }
{
    let Some(formula) = model.get_cell_formula(cell.index, cell.row, cell.column)? else {
        return Ok(());
    };
    let value = model.get_formatted_cell_value(cell.index, cell.row, cell.column)?;
    push_text(text, "cell")?;
    cell.index.write(text)?;
    cell.row.write(text)?;
    cell.column.write(text)?;
    formula.write(text)?;
    value.write(text)?;
    Ok(push_char(text, '\n')?)
}
