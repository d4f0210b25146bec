//! What the program does with its words.
ghost use Rattle.std.specs.Prelude.{◌≡◌, ◌≢◌, ◌⊎◌, ◌↔◌, ◌+◌, ◌<◌, ◌≤◌, ◌^◌, [], true, Err, length, IfSome, IsNone, IsSome, IsSomeAnd};
ghost use Rattle.ic_lines.specs.Bytes.{IfTold, HasFault};
ghost use Rattle.ic_run.specs.Desk.{run_status, setting_of, start_book, start_refusal, texts};
ghost use Rattle.ic_run.specs.Start.{setting};
ghost use Rattle.ic_share.specs.Share.{AppendsSharedFrom, LeavesSharedFrom};

use crate::lines::share;
use ic_lines::{RunError, Sink, Source};
use ic_run::{Start, first_book, start_named, status_of};
use ic_tables::Tables;
use jiff::Timestamp;
use std::alloc::Global;
use std::mem::ManuallyDrop;

/// Does all that the program does, and answers its status. The words `run LOCALE LANGUAGE ZONE` are `share` on a new book in this
/// locale, this language and this zone; no words are `run en en UTC`.
///
/// The memory of the book isn't given back: whoever calls this ends the process with the status.
///
/// The status is 0 where `share` answers Ok, 1 exactly for any other words, 2 exactly where it isn't 1 and the tables lack the
/// locale, the language or the zone, 3 for `ReadFault`, 4 for `WriteFault`, 5 for `TooManyTurns`, 6 where memory runs out.
pub fn share_desk<S: Source, K: Sink>(
    alloc: Global,
    words: &[String],
    tables: &Tables,
    moment: Timestamp,
    source: &mut S,
    sink: &mut K,
) -> u8
    // With 0 a read showed the end, all bytes were taken, and the replies to all lines were appended.
    ensures end { result ≡ 0 → S.ended source.new ≡ true }
    ensures taken { result ≡ 0 → IfTold (S.left source.old) (S.left source.new)
        (λ bytes left. left ≡ []) }
    ensures replies { result ≡ 0 → IfSome (setting_of (texts words.now)) (λ setting.
        IfTold (S.left source.old) (S.left source.new) (λ bytes _.
        IfTold (K.written sink.old) (K.written sink.new)
        (AppendsSharedFrom (λ created. start_book setting created tables.now) bytes))) }

    // Each other status has its cause; that memory ran out may come in place of all but 1 and 2.
    ensures usage { (result ≡ 1) ↔ IsNone (setting_of (texts words.now)) }
    ensures unknown { (result ≡ 2) ↔ IsSomeAnd (setting_of (texts words.now))
        (λ setting. IsSome (start_refusal setting tables.now)) }
    ensures untouched { (result ≡ 1) ⊎ (result ≡ 2) → (source.new ≡ source.old)
        × (sink.new ≡ sink.old) }
    ensures read_fault { result ≡ 3 → HasFault (S.faults source.old) (S.faults source.new) }
    ensures write_fault { result ≡ 4 → HasFault (K.faults sink.old) (K.faults sink.new) }
    ensures too_many { result ≡ 5 → IfTold (S.left source.old) (S.left source.new)
        (λ before now. 2 ^ 32 + length now ≤ length before) }
    ensures unseen { result ≡ 5 → S.ended source.new ≡ S.ended source.old }
    ensures most { result ≤ 6 }

    // With the status of an error of `share`, the replies are those that this error leaves; none where memory ran out before
    // there was a book.
    ensures stopped { (e : RunError) → result ≡ run_status (Err e) → IfSome
        (setting_of (texts words.now)) (λ setting.
        IfTold (S.left source.old) (S.left source.new) (λ bytes left. LeavesSharedFrom e
        (λ created. start_book setting created tables.now) bytes left
        (K.written sink.old) (K.written sink.new))) }

    // Where there is no fault, and the source holds fewer than 2^32 bytes, only that memory runs out is left beside 0.
    ensures completes { IsSomeAnd (setting_of (texts words.now))
        (λ setting. IsNone (start_refusal setting tables.now))
        → IsSomeAnd (S.left source.old) (λ bytes. length bytes < 2 ^ 32)
        → ¬ HasFault (S.faults source.old) (S.faults source.new)
        → ¬ HasFault (K.faults sink.old) (K.faults sink.new)
        → (result ≡ 0) ⊎ (result ≡ 6) }
{
    match start_named(words) {
        Some(start) => share_from(alloc, &start, tables, moment, source, sink),
        None => 1,
    }
}

/// Answers the lines of a source on the new book of a start, and answers the status. The book isn't taken apart: its memory
/// goes with the process.
fn share_from<S: Source, K: Sink>(
    alloc: Global,
    start: &Start<'_>,
    tables: &Tables,
    moment: Timestamp,
    source: &mut S,
    sink: &mut K,
) -> u8
    ensures end { result ≡ 0 → S.ended source.new ≡ true }
    ensures taken { result ≡ 0 → IfTold (S.left source.old) (S.left source.new)
        (λ bytes left. left ≡ []) }
    ensures replies { result ≡ 0 → IfTold (S.left source.old) (S.left source.new) (λ bytes _.
        IfTold (K.written sink.old) (K.written sink.new) (AppendsSharedFrom
        (λ created. start_book (setting start.now) created tables.now) bytes)) }
    ensures known { result ≢ 1 }
    ensures unknown { (result ≡ 2) ↔ IsSome (start_refusal (setting start.now) tables.now) }
    ensures untouched { result ≡ 2 → (source.new ≡ source.old) × (sink.new ≡ sink.old) }
    ensures read_fault { result ≡ 3 → HasFault (S.faults source.old) (S.faults source.new) }
    ensures write_fault { result ≡ 4 → HasFault (K.faults sink.old) (K.faults sink.new) }
    ensures too_many { result ≡ 5 → IfTold (S.left source.old) (S.left source.new)
        (λ before now. 2 ^ 32 + length now ≤ length before) }
    ensures unseen { result ≡ 5 → S.ended source.new ≡ S.ended source.old }
    ensures most { result ≤ 6 }
    ensures stopped { (e : RunError) → result ≡ run_status (Err e)
        → IfTold (S.left source.old) (S.left source.new) (λ bytes left. LeavesSharedFrom e
        (λ created. start_book (setting start.now) created tables.now) bytes left
        (K.written sink.old) (K.written sink.new)) }
    ensures completes { IsNone (start_refusal (setting start.now) tables.now)
        → IsSomeAnd (S.left source.old) (λ bytes. length bytes < 2 ^ 32)
        → ¬ HasFault (S.faults source.old) (S.faults source.new)
        → ¬ HasFault (K.faults sink.old) (K.faults sink.new)
        → (result ≡ 0) ⊎ (result ≡ 6) }
{
    match first_book(alloc, start, tables, moment) {
        Ok(mut model) => {
            let answer = share(alloc, &mut model, source, sink);
            let _ = ManuallyDrop::new(model);
            status_of(answer)
        }
        Err(status) => status,
    }
}
