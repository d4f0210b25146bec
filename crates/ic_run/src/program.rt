ghost use Rattle.std.specs.Prelude.{◌≡◌, ◌≢◌, ◌⊎◌, ◌↔◌, ◌+◌, ◌<◌, ◌≤◌, ◌^◌, [], true, Err, length, IfSome, IsNone, IsSome, IsSomeAnd};
ghost use Rattle.ic_laws.specs.Lines.{texts_of};
ghost use Rattle.ic_lines.specs.Bytes.{IfTold, HasFault};
ghost use Rattle.ic_run.specs.Desk.{setting_of, start, start_book, start_refusal, run_status, texts};
ghost use Rattle.ic_run.specs.Make.{AppendsSummary, AppendsSummaryFront, made_setting, making_of};
ghost use Rattle.ic_run.specs.Start.{making_in, setting, setting_in, target_in};
ghost use Rattle.ic_run.specs.Core.{AreCore, identity_machine};
ghost use Rattle.ic_run.specs.Run.{AppendsReplies, AppendsWhole, LeavesReplies, LeavesWhole};
ghost use Rattle.ic_run.specs.Translate.{AppendsTranslated, AppendsTranslatedFront, IsDue, beginning_of, beginning_refusal, target_of};
ghost use Rattle.ic_tree.specs.Notations.{notations_of};

use crate::lines::run;
use crate::make::{Making, make, making_named};
use crate::start::{Start, first_book, start_named};
use crate::translation::{Wanted, translation, wanted_named};
use ic_lines::{RunError, Sink, Source};
use ic_tables::Tables;
use jiff::Timestamp;
use std::alloc::Global;
use std::mem::ManuallyDrop;

/// Does all that the program does, and answers its status. The words `run LOCALE LANGUAGE ZONE` are `run` on a new
/// book in this locale, this language and this zone; no words are `run en en UTC`. The words `make SEED COUNT` make lines
/// from a seed, answer them on a new book in en, en and UTC, and write what became of them; the source isn't read.
///
/// The words `translate LOCALE LANGUAGE` write what the lines of the source become in this notation (`translate`), from a new
/// book in en, en and UTC.
///
/// The memory of the book that `run` answered on isn't given back: whoever calls this ends the process with the status.
///
/// The status is 0 where `run` answers Ok, or all of what became of made lines or of translated ones is written, 1 exactly
/// for any other words, 2 exactly where it isn't 1 and the tables lack a locale, a language or the zone, 3 for `ReadFault`, 4
/// for `WriteFault`, 5 for `TooManyTurns`, 6 where memory runs out, 7 where a line can't be translated and that is written.
pub fn desk<S: Source, K: Sink>(
    alloc: Global,
    words: &[String],
    tables: &Tables,
    moment: Timestamp,
    source: &mut S,
    sink: &mut K,
) -> u8
    // With 0 a read showed the end, and all bytes were taken; and if their lines are core lines, the identity machine's replies
    // from the start were appended.
    ensures end { result ≡ 0 → IsSome (setting_of (texts words.now))
        → S.ended source.new ≡ true }
    ensures taken { result ≡ 0 → IsSome (setting_of (texts words.now))
        → IfTold (S.left source.old) (S.left source.new)
        (λ bytes left. left ≡ []) }
    ensures replies { result ≡ 0 → IfSome (setting_of (texts words.now))
        (λ setting. IfTold (S.left source.old) (S.left source.new) (λ bytes _.
        AreCore tables.now (texts_of bytes) → IfTold (K.written sink.old) (K.written sink.new)
        (AppendsReplies (identity_machine (notations_of tables.now)) (start setting) bytes))) }

    // For all lines those of the whole machine were, from the whole book.
    ensures all_replies { result ≡ 0 → IfSome (setting_of (texts words.now))
        (λ setting. IfTold (S.left source.old) (S.left source.new) (λ bytes _.
        IfTold (K.written sink.old) (K.written sink.new)
        (AppendsWhole (λ created. start_book setting created tables.now) bytes))) }

    // Of made lines all is told what became of them, by the whole machine; with 4 a front of that was written, and
    // with 6 nothing. The source stays as it is.
    ensures made { result ≡ 0 → IfSome (making_of (texts words.now))
        (λ making. IfTold (K.written sink.old) (K.written sink.new)
        (AppendsSummary making tables.now)) }
    ensures made_front { result ≡ 4 → IfSome (making_of (texts words.now))
        (λ making. IfTold (K.written sink.old) (K.written sink.new)
        (AppendsSummaryFront making tables.now)) }
    ensures made_nothing { result ≡ 6 → IsSome (making_of (texts words.now))
        → sink.new ≡ sink.old }
    ensures unread { IsSome (making_of (texts words.now)) → source.new ≡ source.old }

    // Of lines in another notation, 0 has written what the lines of all bytes become, from the new book in en, en and UTC,
    // and 7 which line can't be written so, and why; with 4 a front of either was written, with 3, 5 and 6 nothing.
    ensures translated { (result ≡ 0) ⊎ (result ≡ 7) → IfSome (target_of (texts words.now))
        (λ target. IfTold (S.left source.old) (S.left source.new) (λ bytes _.
        IfTold (K.written sink.old) (K.written sink.new)
        (AppendsTranslated target tables.now result bytes))) }
    ensures translated_front { result ≡ 4 → IfSome (target_of (texts words.now))
        (λ target. IfTold (S.left source.old) (S.left source.new) (λ bytes _.
        IfTold (K.written sink.old) (K.written sink.new)
        (AppendsTranslatedFront target tables.now bytes))) }
    ensures translated_end { (result ≡ 0) ⊎ (result ≡ 7) → IsSome (target_of (texts words.now))
        → S.ended source.new ≡ true }
    ensures translated_taken { (result ≡ 0) ⊎ (result ≡ 7)
        → IsSome (target_of (texts words.now))
        → IfTold (S.left source.old) (S.left source.new) (λ bytes left. left ≡ []) }
    ensures translated_nothing { (result ≡ 3) ⊎ ((result ≡ 5) ⊎ (result ≡ 6))
        → IsSome (target_of (texts words.now)) → sink.new ≡ sink.old }
    ensures cannot { result ≡ 7 → IsSome (target_of (texts words.now)) }

    // Whatever the sink tells, 7 comes where one of these lines can't be written so, and 0 where each can.
    ensures translated_due { (result ≡ 0) ⊎ (result ≡ 7) → IfSome (target_of (texts words.now))
        (λ target. IfTold (S.left source.old) (S.left source.new) (λ bytes _.
        IsDue target tables.now result bytes)) }

    // Each other status has its cause; that memory ran out may come in place of all but 1 and 2.
    ensures usage { (result ≡ 1) ↔ IsNone (beginning_of (texts words.now)) }
    ensures unknown { (result ≡ 2) ↔ IsSomeAnd (beginning_of (texts words.now))
        (λ beginning. IsSome (beginning_refusal beginning tables.now)) }
    ensures untouched { (result ≡ 1) ⊎ (result ≡ 2) → (source.new ≡ source.old)
        × (sink.new ≡ sink.old) }
    ensures read_fault { result ≡ 3 → HasFault (S.faults source.old) (S.faults source.new) }
    ensures write_fault { result ≡ 4 → HasFault (K.faults sink.old) (K.faults sink.new) }
    ensures too_many { result ≡ 5 → IfTold (S.left source.old) (S.left source.new)
        (λ before now. 2 ^ 32 + length now ≤ length before) }
    ensures unseen { result ≡ 5 → S.ended source.new ≡ S.ended source.old }
    ensures most { result ≤ 7 }
    ensures made_status { IsSome (making_of (texts words.now))
        → (result ≢ 3) × (result ≢ 5) }

    // With the status of an error of `run`, the replies to core lines are those that this error leaves; none where memory
    // ran out before there was a book.
    ensures stopped { (e : RunError) → result ≡ run_status (Err e) → IfSome
        (setting_of (texts words.now)) (λ setting.
        IfTold (S.left source.old) (S.left source.new) (λ bytes left.
        LeavesReplies (identity_machine (notations_of tables.now)) (start setting)
        (AreCore tables.now) e bytes left (K.written sink.old) (K.written sink.new))) }

    // Those to all lines are the ones that this error leaves of the whole machine, from the whole book.
    ensures stopped_whole { (e : RunError) → result ≡ run_status (Err e) → IfSome
        (setting_of (texts words.now)) (λ setting.
        IfTold (S.left source.old) (S.left source.new) (λ bytes left.
        LeavesWhole e (λ created. start_book setting created tables.now) bytes left
        (K.written sink.old) (K.written sink.new))) }

    // Where there is no fault, and the source holds fewer than 2^32 bytes or isn't read, only that memory runs out is left
    // beside 0.
    ensures completes { IsSomeAnd (setting_of (texts words.now))
        (λ setting. IsNone (start_refusal setting tables.now))
        → IsSomeAnd (S.left source.old) (λ bytes. length bytes < 2 ^ 32)
        → ¬ HasFault (S.faults source.old) (S.faults source.new)
        → ¬ HasFault (K.faults sink.old) (K.faults sink.new)
        → (result ≡ 0) ⊎ (result ≡ 6) }
    ensures made_completes { IsSome (making_of (texts words.now))
        → IsNone (start_refusal made_setting tables.now)
        → ¬ HasFault (K.faults sink.old) (K.faults sink.new)
        → (result ≡ 0) ⊎ (result ≡ 6) }
    ensures translated_completes { IsSome (target_of (texts words.now)) → (result ≢ 2)
        → IsSomeAnd (S.left source.old) (λ bytes. length bytes < 2 ^ 32)
        → ¬ HasFault (S.faults source.old) (S.faults source.new)
        → ¬ HasFault (K.faults sink.old) (K.faults sink.new)
        → (result ≡ 0) ⊎ ((result ≡ 6) ⊎ (result ≡ 7)) }
{
    match deed_named(words) {
        Deed::Run(start) => run_from(alloc, &start, tables, moment, source, sink),
        Deed::Make(making) => make(alloc, &making, tables, moment, sink),
        Deed::Translate(wanted) => translation(alloc, &wanted, tables, moment, source, sink),
        Deed::Unknown => 1,
    }
}

/// What the words ask for.
#[derive(Drop)]
pub enum Deed<'a> {
    /// To answer the lines of the source.
    Run(Start<'a>),
    /// To make lines and answer them.
    Make(Making),
    /// To translate the lines of the source.
    Translate(Wanted<'a>),
    /// Nothing that the program does.
    Unknown,
}

/// What the words ask for: at most one of both.
fn deed_named(words: &[String]) -> Deed<'_>
    ensures run { setting_in result ≡ setting_of (texts words.now) }
    ensures made { making_in result ≡ making_of (texts words.now) }
    ensures translated { target_in result ≡ target_of (texts words.now) }
{
    if let Some(making) = making_named(words) {
        return Deed::Make(making);
    }
    if let Some(wanted) = wanted_named(words) {
        return Deed::Translate(wanted);
    }
    match start_named(words) {
        Some(start) => Deed::Run(start),
        None => Deed::Unknown,
    }
}

/// Answers the lines of a source on the new book of a start, and answers the status. The book isn't taken apart: its memory
/// goes with the process.
fn run_from<S: Source, K: Sink>(
    alloc: Global,
    first: &Start<'_>,
    tables: &Tables,
    moment: Timestamp,
    source: &mut S,
    sink: &mut K,
) -> u8
    ensures end { result ≡ 0 → S.ended source.new ≡ true }
    ensures taken { result ≡ 0 → IfTold (S.left source.old) (S.left source.new)
        (λ bytes left. left ≡ []) }
    ensures replies { result ≡ 0 → IfTold (S.left source.old) (S.left source.new) (λ bytes _.
        AreCore tables.now (texts_of bytes) → IfTold (K.written sink.old) (K.written sink.new)
        (AppendsReplies (identity_machine (notations_of tables.now)) (start (setting first.now))
        bytes)) }
    ensures all_replies { result ≡ 0 → IfTold (S.left source.old) (S.left source.new) (λ bytes _.
        IfTold (K.written sink.old) (K.written sink.new) (AppendsWhole
        (λ created. start_book (setting first.now) created tables.now) bytes)) }
    ensures known { result ≢ 1 }
    ensures unknown { (result ≡ 2) ↔ IsSome (start_refusal (setting first.now) tables.now) }
    ensures untouched { result ≡ 2 → (source.new ≡ source.old) × (sink.new ≡ sink.old) }
    ensures read_fault { result ≡ 3 → HasFault (S.faults source.old) (S.faults source.new) }
    ensures write_fault { result ≡ 4 → HasFault (K.faults sink.old) (K.faults sink.new) }
    ensures too_many { result ≡ 5 → IfTold (S.left source.old) (S.left source.new)
        (λ before now. 2 ^ 32 + length now ≤ length before) }
    ensures unseen { result ≡ 5 → S.ended source.new ≡ S.ended source.old }
    ensures most { result ≤ 6 }
    ensures stopped { (e : RunError) → result ≡ run_status (Err e)
        → IfTold (S.left source.old) (S.left source.new) (λ bytes left.
        LeavesReplies (identity_machine (notations_of tables.now)) (start (setting first.now))
        (AreCore tables.now) e bytes left (K.written sink.old) (K.written sink.new)) }
    ensures stopped_whole { (e : RunError) → result ≡ run_status (Err e)
        → IfTold (S.left source.old) (S.left source.new) (λ bytes left. LeavesWhole e
        (λ created. start_book (setting first.now) created tables.now) bytes left
        (K.written sink.old) (K.written sink.new)) }
    ensures completes { IsNone (start_refusal (setting first.now) tables.now)
        → IsSomeAnd (S.left source.old) (λ bytes. length bytes < 2 ^ 32)
        → ¬ HasFault (S.faults source.old) (S.faults source.new)
        → ¬ HasFault (K.faults sink.old) (K.faults sink.new)
        → (result ≡ 0) ⊎ (result ≡ 6) }
{
    match first_book(alloc, first, tables, moment) {
        Ok(mut model) => {
            let answer = run(alloc, &mut model, source, sink);
            // To give back its pieces one by one took six in a hundred instructions of a written formula.
            let _ = ManuallyDrop::new(model);
            status_of(answer)
        }
        Err(status) => status,
    }
}

/// The status for what a run answered.
pub fn status_of(answer: Result<u64, RunError>) -> u8
    ensures { result ≡ run_status answer }
{
    match answer {
        Ok(_) => 0,
        Err(RunError::ReadFault) => 3,
        Err(RunError::WriteFault) => 4,
        Err(RunError::TooManyTurns) => 5,
        Err(RunError::OutOfMemory) => 6,
    }
}
