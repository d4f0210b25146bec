ghost use Rattle.std.specs.Prelude.{◌≡◌, ◌+◌, ◌<◌, ◌≤◌, ◌^◌, true, Err, length, IfOk, IfErr, IsSomeAnd, OnOk};
ghost use Rattle.ic_laws.specs.Lines.{texts_of};
ghost use Rattle.ic_lines.specs.Bytes.{HasFault, IfTold};
ghost use Rattle.ic_parts.specs.Book.{core_of, notations_in};
ghost use Rattle.ic_parts.specs.Whole.{whole_of};
ghost use Rattle.ic_run.specs.Core.{AreCore, CoreLinesAreDone, IsPlainBook, identity_machine, whole_machine};
ghost use Rattle.ic_run.specs.Run.{AppendsReplies, HasCause, IsAfterAll, LeavesRun, LinesDo, TakesAll};

use crate::answering::{Answers, answer_each};
use ic_book::Model;
use ic_commands::reply_to_text;
use ic_laws::OutOfMemory;
use ic_lines::{RunError, Sink, Source};
use std::alloc::Global;

/// Answers the lines of a source, one reply a line, and answers their number. It answers every whole line that it
/// has before it reads again. A core line is one that is no command or one that the identity machine has.
///
/// `ReadFault` and `WriteFault` where the source or the sink had a fault, `TooManyTurns` after 2^32 reads that each
/// gave a byte, where none showed the end, `OutOfMemory`, after which the book is as before the line that met it, and
/// that line has no reply.
pub fn run<S: Source, K: Sink>(
    alloc: Global,
    model: &mut Model<'_>,
    source: &mut S,
    sink: &mut K,
) -> Result<u64, RunError>
    // The identity theorem: all bytes were taken and their lines counted; and if these are core lines, and the book had no
    // merged cells and no arrays of several cells, the identity machine's replies were appended, and its book left.
    ensures book { IfOk result
        (λ count. IfTold (S.left source.old) (S.left source.new)
        (TakesAll model.old.book model.new.book count)) }
    ensures replies { OnOk result (IfTold (S.left source.old) (S.left source.new) (λ bytes _.
        IsPlainBook (whole_of model.old.book) → AreCore model.old.book.tables (texts_of bytes)
        → IfTold (K.written sink.old) (K.written sink.new) (AppendsReplies
        (identity_machine (notations_in model.old.book)) (core_of model.old.book) bytes))) }

    // For all lines it is so with the whole book, by the whole machine, and with its replies.
    ensures whole { OnOk result (IfTold (S.left source.old) (S.left source.new)
        (IsAfterAll model.old.book model.new.book)) }
    ensures all_replies { OnOk result (IfTold (S.left source.old) (S.left source.new) (λ bytes _.
        IfTold (K.written sink.old) (K.written sink.new)
        (AppendsReplies whole_machine (whole_of model.old.book) bytes))) }

    // Each line did so; one that is no command, is refused or only asks left all that a model is as it was, the look-ups
    // of its formulas too.
    ensures does { OnOk result (IfTold (S.left source.old) (S.left source.new)
        (λ bytes _. LinesDo (texts_of bytes) model.old model.new)) }

    // Each error has its cause, and no fault is passed over.
    ensures cause { IfErr result (HasCause
        (HasFault (S.faults source.old) (S.faults source.new))
        (HasFault (K.faults sink.old) (K.faults sink.new))
        (IfTold (S.left source.old) (S.left source.new)
        (λ before now. 2 ^ 32 + length now ≤ length before))) }
    ensures quiet { OnOk result
        ((S.faults source.new ≡ S.faults source.old) × (K.faults sink.new ≡ K.faults sink.old)) }

    // It answers Ok only where a read showed the end of the source, and finds too many turns only where none did.
    ensures end { OnOk result (S.ended source.new ≡ true) }
    ensures unseen { result ≡ Err RunError.TooManyTurns → S.ended source.new ≡ S.ended source.old }

    // After an error the book is as some of the first lines leave it, and their replies were appended.
    ensures front { IfErr result (λ e. IfTold (S.left source.old) (S.left source.new)
        (λ bytes left. LeavesRun e model.old.book model.new.book bytes left (K.written sink.old)
        (K.written sink.new))) }

    ensures source_counted { S.faults source.old ≤ S.faults source.new }
    ensures sink_counted { K.faults sink.old ≤ K.faults sink.new }

    // Where there is no fault, and the source holds fewer than 2^32 bytes, only that memory runs out is left.
    ensures completes { IsSomeAnd (S.left source.old) (λ bytes. length bytes < 2 ^ 32)
        → ¬ HasFault (S.faults source.old) (S.faults source.new)
        → ¬ HasFault (K.faults sink.old) (K.faults sink.new)
        → IfErr result (λ e. e ≡ RunError.OutOfMemory) }
{
    answer_each(alloc, &mut Commands, model, source, sink)
}

/// Answers each line as a command line.
#[derive(Drop)]
struct Commands;

impl Answers for Commands {
    ghost use Rattle.ic_commands.specs.Answered.{DoesLine};

    ghost is_ready = { λ _ model. Unit {0} };

    ghost does = { λ line old new told. DoesLine line old.1 new.1 told };

    ghost stays = { λ old new. new.1.book ≡ old.1.book };

    fn reply_in(
        &mut self,
        alloc: Global,
        model: &mut Model<'_>,
        line: &str,
        last: String,
    ) -> Result<String, OutOfMemory> {
        reply_to_text(alloc, model, line, last)
    }
}

/// A core line that left of the whole book what the whole machine leaves left of its core what the identity machine
/// leaves, and has its reply, where no cells are merged and no array has several cells, which the identity machine knows
/// nothing of; and that stays so.
pub fn law_core_lines_are_done()
    ensures { CoreLinesAreDone }
{}
