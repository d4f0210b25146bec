//! What the program does with its words.
ghost use Rattle.std.specs.Prelude.{◌≡◌, ◌≢◌, ◌⊎◌, ◌↔◌, ◌+◌, ◌++◌, ◌<◌, ◌≤◌, ◌^◌, [], None, true, length, IsNone, IsSome, IsSomeAnd};
ghost use Rattle.ic_lines.specs.Bytes.{AppendsFront, HasFault, IfTold};
ghost use Rattle.ic_parts.specs.Book.{core_of};
ghost use Rattle.ic_parts.specs.Whole.{whole_of};
ghost use Rattle.ic_run.specs.Desk.{start_refusal};
ghost use Rattle.ic_run.specs.Make.{made_setting};
ghost use Rattle.ic_dump.specs.Refused.{raw_body};
ghost use Rattle.ic_dump.specs.Told.{AppendsCannot, AppendsDump, AppendsToldFront, TellsCannot, TellsDump, told_lines, told_of};

use crate::DumpError;
use crate::dumping::dump;
use crate::told::told;
use ic_book::Model;
use ic_laws::OutOfMemory;
use ic_lines::{Line, Sink, Source};
use ic_run::{book_after, written};
use ic_tables::Tables;
use jiff::Timestamp;
use std::alloc::Global;
use std::mem::ManuallyDrop;

/// Reads all lines of the source, answers them on a new book in en, en and UTC, drops their replies, and writes the lines that
/// rebuild the sheets, definitions and formulas of the book that they leave. It takes no words.
///
/// The memory of the book isn't given back: whoever calls this ends the process with the status.
///
/// The status is 0 where all lines are written, 1 exactly for any words, 2 exactly where it isn't 1 and the tables lack `en` or
/// UTC, 3 where a read failed, 4 where a write did, 5 after 2^32 reads that each gave a byte, where none showed the end, 6 where
/// memory runs out, 7 where a cell's text doesn't read, but would in English, or has nothing in it: `cannot` and `Rereads` are
/// written then.
pub fn dump_desk<S: Source, K: Sink>(
    alloc: Global,
    words: &[String],
    tables: &Tables,
    moment: Timestamp,
    source: &mut S,
    sink: &mut K,
) -> u8
    // With 0 the lines were written that rebuild the book after the lines of all bytes, and with 7 that a cell of that book has a
    // text which would read; with 4 a front of the one or the other was written, with 3, 5 and 6 nothing.
    ensures dumped { result ≡ 0 → IfTold (S.left source.old) (S.left source.new) (λ bytes _.
        IfTold (K.written sink.old) (K.written sink.new) (AppendsDump tables.now bytes)) }
    ensures cannot { result ≡ 7 → IfTold (S.left source.old) (S.left source.new) (λ bytes _.
        IfTold (K.written sink.old) (K.written sink.new) (AppendsCannot tables.now bytes)) }
    ensures front { result ≡ 4 → IfTold (S.left source.old) (S.left source.new) (λ bytes _.
        IfTold (K.written sink.old) (K.written sink.new) (AppendsToldFront tables.now bytes)) }
    ensures nothing { (result ≡ 3) ⊎ ((result ≡ 5) ⊎ (result ≡ 6)) → sink.new ≡ sink.old }

    // Both come only where a read showed the end, and all bytes were taken.
    ensures end { (result ≡ 0) ⊎ (result ≡ 7) → S.ended source.new ≡ true }
    ensures taken { (result ≡ 0) ⊎ (result ≡ 7)
        → IfTold (S.left source.old) (S.left source.new) (λ bytes left. left ≡ []) }

    // Each other status has its cause; that memory ran out may come in place of all but 1 and 2.
    ensures usage { (result ≡ 1) ↔ (words.now ≢ []) }
    ensures unknown { (result ≡ 2) ↔ ((words.now ≡ [])
        × IsSome (start_refusal made_setting tables.now)) }
    ensures untouched { (result ≡ 1) ⊎ (result ≡ 2) → (source.new ≡ source.old)
        × (sink.new ≡ sink.old) }
    ensures read_fault { result ≡ 3 → HasFault (S.faults source.old) (S.faults source.new) }
    ensures write_fault { result ≡ 4 → HasFault (K.faults sink.old) (K.faults sink.new) }
    ensures too_many { result ≡ 5 → IfTold (S.left source.old) (S.left source.new)
        (λ before now. 2 ^ 32 + length now ≤ length before) }
    ensures unseen { result ≡ 5 → S.ended source.new ≡ S.ended source.old }
    ensures most { result ≤ 7 }

    // Where there is no fault, and the source holds fewer than 2^32 bytes, only that memory runs out is left beside 0 and 7.
    ensures completes { words.now ≡ []
        → IsNone (start_refusal made_setting tables.now)
        → IsSomeAnd (S.left source.old) (λ bytes. length bytes < 2 ^ 32)
        → ¬ HasFault (S.faults source.old) (S.faults source.new)
        → ¬ HasFault (K.faults sink.old) (K.faults sink.new)
        → (result ≡ 0) ⊎ ((result ≡ 6) ⊎ (result ≡ 7)) }
{
    if !words.is_empty() {
        return 1;
    }
    match book_after(alloc, tables, moment, source) {
        Ok(model) => {
            let status = tell(alloc, &model, sink);
            let _ = ManuallyDrop::new(model);
            status
        }
        Err(status) => status,
    }
}

/// Writes the lines that rebuild a book, whose definitions have bodies that read, since no command makes another. The status: 0,
/// 4 where the sink had a fault, 6 where memory ran out before, 7 where a cell's text would read, and that is written.
fn tell<K: Sink>(alloc: Global, model: &Model<'_>, sink: &mut K) -> u8
    requires { raw_body (core_of model.now.book) ≡ None }
    ensures dumped { result ≡ 0 → IfTold (K.written sink.old) (K.written sink.new)
        (TellsDump (whole_of model.now.book)) }
    ensures cannot { result ≡ 7 → IfTold (K.written sink.old) (K.written sink.new)
        (TellsCannot (whole_of model.now.book)) }
    ensures front { result ≡ 4 → IfTold (K.written sink.old) (K.written sink.new)
        (AppendsFront (told_of (whole_of model.now.book))) }
    ensures nothing { result ≡ 6 → sink.new ≡ sink.old }
    ensures write_fault { result ≡ 4 → HasFault (K.faults sink.old) (K.faults sink.new) }
    ensures which { (result ≡ 0) ⊎ ((result ≡ 4) ⊎ ((result ≡ 6) ⊎ (result ≡ 7))) }
{
    match dump(alloc, model) {
        Ok(lines) => write_lines(alloc, &lines, sink),
        Err(DumpError::Rereads(_)) => written(sink, "cannot\tRereads\n".as_bytes(), 7),
        Err(DumpError::RawBody(_)) => unreachable!(),
        Err(DumpError::OutOfMemory) => 6,
    }
}

/// Writes lines. The status: 0, 4 where the sink had a fault, 6 where memory ran out before.
fn write_lines<K: Sink>(alloc: Global, lines: &[Line], sink: &mut K) -> u8
    ensures ok { result ≡ 0 → IfTold (K.written sink.old) (K.written sink.new)
        (λ before now. now ≡ before ++ told_lines lines.now) }
    ensures front { result ≡ 4 → IfTold (K.written sink.old) (K.written sink.new)
        (AppendsFront (told_lines lines.now)) }
    ensures nothing { result ≡ 6 → sink.new ≡ sink.old }
    ensures fault { result ≡ 4 → HasFault (K.faults sink.old) (K.faults sink.new) }
    ensures which { (result ≡ 0) ⊎ ((result ≡ 4) ⊎ (result ≡ 6)) }
{
    match told(alloc, lines) {
        Ok(text) => written(sink, text.as_bytes(), 0),
        Err(OutOfMemory) => 6,
    }
}
