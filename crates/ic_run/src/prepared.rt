//! A book for programs that look at what lines leave: all lines of a source are read, and then answered on a new book in en,
//! en and UTC. Their replies are dropped.
ghost use Rattle.std.specs.Prelude.{◌≡◌, ◌≢◌, ◌⊎◌, ◌↔◌, ◌+◌, ◌<◌, ◌≤◌, ◌^◌, [], true, Err, length, IfErr, IfOk, IsNone, IsSome, IsSomeAnd, OnOk};
ghost use Rattle.ic_laws.specs.Lines.{texts_of};
ghost use Rattle.ic_lines.specs.Bytes.{HasFault, IfTold};
ghost use Rattle.ic_machine.specs.Run.{after};
ghost use Rattle.ic_run.specs.Core.{whole_machine};
ghost use Rattle.ic_parts.specs.Whole.{whole_of};
ghost use Rattle.ic_run.specs.Desk.{start_refusal};
ghost use Rattle.ic_run.specs.Make.{made_setting};
ghost use Rattle.ic_run.specs.Prepared.{IsBookAfter, IsLeftBySome, SomeLead};

use crate::start::english_book;
use crate::translation::status_of_error;
use ic_book::Model;
use ic_commands::answer_line;
use ic_laws::OutOfMemory;
use ic_lines::{Line, RunError, Source, read_lines};
use ic_tables::Tables;
use jiff::Timestamp;
use std::alloc::Global;

/// The book that the lines of a source leave, from a new one in en, en and UTC. All lines are read before the first is
/// answered, and no reply is kept.
///
/// Where there is no book, the status: 2 exactly where the tables lack `en` or UTC, and then nothing is read; 3 where a read
/// failed, 5 after 2^32 reads that each gave a byte, where none showed the end; 6 where memory runs out.
pub fn book_after<'a, S: Source>(
    alloc: Global,
    tables: &'a Tables,
    moment: Timestamp,
    source: &mut S,
) -> Result<Model<'a>, u8>
    ensures book { IfOk result (λ m. IfTold (S.left source.old) (S.left source.new)
        (IsBookAfter tables.now m.book)) }

    // Whatever the source tells of its bytes, there are lines that leave the book.
    ensures lines { IfOk result (λ m. IsLeftBySome tables.now m.book) }

    // A read showed the end, and all bytes were taken.
    ensures end { OnOk result (S.ended source.new ≡ true) }
    ensures taken { OnOk result (IfTold (S.left source.old) (S.left source.new)
        (λ bytes left. left ≡ [])) }

    // Each status has its cause.
    ensures unknown { (result ≡ Err 2) ↔ IsSome (start_refusal made_setting tables.now) }
    ensures untouched { result ≡ Err 2 → source.new ≡ source.old }
    ensures read_fault { result ≡ Err 3 → HasFault (S.faults source.old) (S.faults source.new) }
    ensures too_many { result ≡ Err 5 → IfTold (S.left source.old) (S.left source.new)
        (λ before now. 2 ^ 32 + length now ≤ length before) }
    ensures unseen { result ≡ Err 5 → S.ended source.new ≡ S.ended source.old }
    ensures which { IfErr result (λ status.
        (status ≡ 2) ⊎ ((status ≡ 3) ⊎ ((status ≡ 5) ⊎ (status ≡ 6)))) }

    // Where there is no fault, and the source holds fewer than 2^32 bytes, only that memory runs out is left beside a book.
    ensures completes { IsNone (start_refusal made_setting tables.now)
        → IsSomeAnd (S.left source.old) (λ bytes. length bytes < 2 ^ 32)
        → ¬ HasFault (S.faults source.old) (S.faults source.new)
        → IfErr result (λ status. status ≡ 6) }
{
    let mut model = english_book(alloc, tables, moment)?;
    match answer_all(alloc, &mut model, source) {
        Ok(()) => Ok(model),
        Err(e) => Err(status_of_error(&e)),
    }
}

/// Answers the lines of a source on a book, after all of them were read, and drops their replies.
fn answer_all<S: Source>(
    alloc: Global,
    model: &mut Model<'_>,
    source: &mut S,
) -> Result<(), RunError>
    ensures book { OnOk result (IfTold (S.left source.old) (S.left source.new) (λ bytes _.
        whole_of model.new.book
        ≡ after whole_machine (whole_of model.old.book) (texts_of bytes))) }
    ensures lines { OnOk result
        (SomeLead (whole_of model.old.book) (whole_of model.new.book)) }
    ensures end { OnOk result (S.ended source.new ≡ true) }
    ensures taken { OnOk result (IfTold (S.left source.old) (S.left source.new)
        (λ bytes left. left ≡ [])) }
    ensures read_fault { result ≡ Err RunError.ReadFault
        → HasFault (S.faults source.old) (S.faults source.new) }
    ensures too_many { result ≡ Err RunError.TooManyTurns
        → IfTold (S.left source.old) (S.left source.new)
        (λ before now. 2 ^ 32 + length now ≤ length before) }
    ensures unseen { result ≡ Err RunError.TooManyTurns
        → S.ended source.new ≡ S.ended source.old }
    ensures no_write { result ≢ Err RunError.WriteFault }
    ensures completes { IsSomeAnd (S.left source.old) (λ bytes. length bytes < 2 ^ 32)
        → ¬ HasFault (S.faults source.old) (S.faults source.new)
        → IfErr result (λ e. e ≡ RunError.OutOfMemory) }
{
    let lines = read_lines(alloc, source)?;
    answer_lines(alloc, model, &lines)?;
    Ok(())
}

/// Answers lines on a book, and drops their replies.
fn answer_lines(alloc: Global, model: &mut Model<'_>, lines: &[Line]) -> Result<(), OutOfMemory>
    ensures { OnOk result (whole_of model.new.book
        ≡ after whole_machine (whole_of model.old.book) lines.now) }
{
    for line in lines {
        let _reply = answer_line(alloc, model, line)?;
    }
    Ok(())
}
