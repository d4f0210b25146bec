//! The loop: lines of a source are read, answered and replied to.
ghost use Rattle.std.specs.Prelude.{◌≡◌, ◌⊎◌, ◌+◌, ◌<◌, ◌≤◌, ◌^◌, List, ℕ, true, Err, length, IfOk, IfErr, IsSomeAnd, OnErr, OnOk, chars, string_bytes};
ghost use Rattle.ic_lines.specs.Bytes.{AppendsFront, HasFault, IfTold};
ghost use Rattle.ic_parts.specs.Book.{ModelState};
ghost use Rattle.ic_run.specs.Answering.{AnswersAll, AnswersSome, Appends, LeavesAnswered};
ghost use Rattle.ic_run.specs.Run.{HasCause};

use ic_book::Model;
use ic_laws::OutOfMemory;
use ic_lines::{LineReader, RunError, Sink, Source, write_all};
use std::alloc::Global;
use std::mem;

/// What answers the lines of a source on a book.
pub trait Answers {
    /// Where it can answer.
    ghost is_ready: { Self → ModelState → Type 0 };

    /// What a line leaves of both, and the bytes of its reply.
    ghost does: { List ℕ → Self × ModelState → Self × ModelState → List ℕ → Type 0 };

    /// What is left of both where memory ran out before a reply.
    ghost stays: { Self × ModelState → Self × ModelState → Type 0 };

    /// Answers a line, in the memory of the reply to the one before. It can answer again then.
    fn reply_in(
        &mut self,
        alloc: Global,
        model: &mut Model<'_>,
        line: &str,
        last: String,
    ) -> Result<String, OutOfMemory>
        requires ready { is_ready self.old model.old }
        ensures does { IfOk result (λ reply. does (chars line.now)
            (self.old, model.old) (self.new, model.new) (string_bytes reply)) }
        ensures ready { OnOk result (is_ready self.new model.new) }
        ensures stays { OnErr result (stays (self.old, model.old) (self.new, model.new)) };
}

/// Answers the lines of a source by `answerer`, one reply a line, and answers their number. It answers every whole line that
/// it has before it reads again.
pub fn answer_each<A: Answers, S: Source, K: Sink>(
    alloc: Global,
    answerer: &mut A,
    model: &mut Model<'_>,
    source: &mut S,
    sink: &mut K,
) -> Result<u64, RunError>
    requires ready { A.is_ready answerer.old model.old }

    // All bytes were taken, their lines counted and answered, and the replies appended.
    ensures all { IfOk result (λ count. IfTold (S.left source.old) (S.left source.new)
        (AnswersAll A.does (answerer.old, model.old) (answerer.new, model.new)
        (K.written sink.old) (K.written sink.new) count)) }

    // Each error has its cause, and no fault is passed over.
    ensures cause { IfErr result (HasCause
        (HasFault (S.faults source.old) (S.faults source.new))
        (HasFault (K.faults sink.old) (K.faults sink.new))
        (IfTold (S.left source.old) (S.left source.new)
        (λ before now. 2 ^ 32 + length now ≤ length before))) }
    ensures quiet { OnOk result
        ((S.faults source.new ≡ S.faults source.old) × (K.faults sink.new ≡ K.faults sink.old)) }

    // It answers Ok only where a read showed the end of the source, and finds too many turns only where none did.
    ensures end { OnOk result (S.ended source.new ≡ true) }
    ensures unseen { result ≡ Err RunError.TooManyTurns → S.ended source.new ≡ S.ended source.old }

    // After an error some of the first lines were answered, and their replies appended.
    ensures front { IfErr result (λ e. IfTold (S.left source.old) (S.left source.new)
        (λ bytes left. LeavesAnswered A.does A.stays e (answerer.old, model.old)
        (answerer.new, model.new) bytes left (K.written sink.old) (K.written sink.new))) }

    // Whatever the source tells, some lines were answered.
    ensures some { AnswersSome A.does A.stays (answerer.old, model.old)
        (answerer.new, model.new) }

    ensures source_counted { S.faults source.old ≤ S.faults source.new }
    ensures sink_counted { K.faults sink.old ≤ K.faults sink.new }

    // Where there is no fault, and the source holds fewer than 2^32 bytes, only that memory runs out is left.
    ensures completes { IsSomeAnd (S.left source.old) (λ bytes. length bytes < 2 ^ 32)
        → ¬ HasFault (S.faults source.old) (S.faults source.new)
        → ¬ HasFault (K.faults sink.old) (K.faults sink.new)
        → IfErr result (λ e. e ≡ RunError.OutOfMemory) }
{
    let mut reader = LineReader::new(alloc);
    let mut room = String::new(alloc);
    let mut count = 0;
    'lines: while reader.find_line(source)? {
        answer_to(alloc, answerer, model, reader.line(), &mut room, sink)?;
        reader.pass();
        count += 1;
    }
    Ok(count)
}

/// Answers one line into the sink, in one write. The reply stays in `room`, whose memory the next one has.
fn answer_to<A: Answers, K: Sink>(
    alloc: Global,
    answerer: &mut A,
    model: &mut Model<'_>,
    line: &str,
    room: &mut String,
    sink: &mut K,
) -> Result<(), RunError>
    requires ready { A.is_ready answerer.old model.old }
    ensures ready { OnOk result (A.is_ready answerer.new model.new) }
    ensures does { OnOk result ((told : List ℕ) × A.does (chars line.now) (answerer.old, model.old)
        (answerer.new, model.new) told
        × IfTold (K.written sink.old) (K.written sink.new) (Appends told)) }
    ensures which { IfErr result (λ e. (e ≡ RunError.OutOfMemory) ⊎ (e ≡ RunError.WriteFault)) }
    ensures no_memory { result ≡ Err RunError.OutOfMemory
        → A.stays (answerer.old, model.old) (answerer.new, model.new)
        × (sink.new ≡ sink.old) }
    ensures write_fault { result ≡ Err RunError.WriteFault → HasFault (K.faults sink.old)
        (K.faults sink.new)
        × (told : List ℕ) × A.does (chars line.now) (answerer.old, model.old)
        (answerer.new, model.new) told
        × IfTold (K.written sink.old) (K.written sink.new) (AppendsFront told) }
    ensures counted { K.faults sink.old ≤ K.faults sink.new }
    ensures quiet { OnOk result (K.faults sink.new ≡ K.faults sink.old) }
{
    let reply = answerer.reply_in(alloc, model, line, mem::replace(room, String::new(alloc)))?;
    *room = reply;
    write_all(sink, room.as_bytes())
}
