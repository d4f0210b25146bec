//! Lines of many users, read, answered and replied to.
ghost use Rattle.std.specs.Prelude.{◌≡◌, ◌+◌, ◌<◌, ◌≤◌, ◌^◌, true, Err, length, IfOk, IfErr, IsSomeAnd, OnOk};
ghost use Rattle.ic_lines.specs.Bytes.{HasFault, IfTold};
ghost use Rattle.ic_run.specs.Run.{HasCause};
ghost use Rattle.ic_share.specs.Share.{AppendsShared, LeavesShared, SharesAll};

use crate::users::Users;
use ic_book::Model;
use ic_laws::OutOfMemory;
use ic_lines::{RunError, Sink, Source};
use ic_run::{Answers, answer_each};
use std::alloc::Global;

/// Answers the lines of a source, one reply a line, each in the book with the language of its user, and answers their number.
/// It answers every whole line that it has before it reads again. A line has a user's word, a tab, and a command line; a user
/// who chose no language has the book's own, which is in force again at the end and after an error.
///
/// `ReadFault` and `WriteFault` where the source or the sink had a fault, `TooManyTurns` after 2^32 reads that each gave a
/// byte, where none showed the end, `OutOfMemory`, after which the book is as before the line that met it, and that line has
/// no reply.
pub fn share<S: Source, K: Sink>(
    alloc: Global,
    model: &mut Model<'_>,
    source: &mut S,
    sink: &mut K,
) -> Result<u64, RunError>
    // All bytes were taken and their lines counted, all replies were appended, and the book that all lines leave is left.
    ensures book { IfOk result (λ count. IfTold (S.left source.old) (S.left source.new)
        (SharesAll model.old.book model.new.book count)) }
    ensures replies { OnOk result (IfTold (S.left source.old) (S.left source.new) (λ bytes _.
        IfTold (K.written sink.old) (K.written sink.new)
        (AppendsShared model.old.book bytes))) }

    // The book's own language is that of the start, also after an error.
    ensures language { model.new.book.language ≡ model.old.book.language }

    // Each error has its cause, and no fault is passed over.
    ensures cause { IfErr result (HasCause
        (HasFault (S.faults source.old) (S.faults source.new))
        (HasFault (K.faults sink.old) (K.faults sink.new))
        (IfTold (S.left source.old) (S.left source.new)
        (λ before now. 2 ^ 32 + length now ≤ length before))) }
    ensures quiet { OnOk result
        ((S.faults source.new ≡ S.faults source.old) × (K.faults sink.new ≡ K.faults sink.old)) }

    // It answers Ok only where a read showed the end of the source, and finds too many turns only where none did.
    ensures end { OnOk result (S.ended source.new ≡ true) }
    ensures unseen { result ≡ Err RunError.TooManyTurns → S.ended source.new ≡ S.ended source.old }

    // After an error the book is as some of the first lines leave it, and their replies were appended.
    ensures front { IfErr result (λ e. IfTold (S.left source.old) (S.left source.new)
        (λ bytes left. LeavesShared e model.old.book model.new.book bytes left
        (K.written sink.old) (K.written sink.new))) }

    ensures source_counted { S.faults source.old ≤ S.faults source.new }
    ensures sink_counted { K.faults sink.old ≤ K.faults sink.new }

    // Where there is no fault, and the source holds fewer than 2^32 bytes, only that memory runs out is left.
    ensures completes { IsSomeAnd (S.left source.old) (λ bytes. length bytes < 2 ^ 32)
        → ¬ HasFault (S.faults source.old) (S.faults source.new)
        → ¬ HasFault (K.faults sink.old) (K.faults sink.new)
        → IfErr result (λ e. e ≡ RunError.OutOfMemory) }
{
    let mut users = Users::of(alloc, model)?;
    answer_each(alloc, &mut users, model, source, sink)
}

impl Answers for Users {
    ghost use Rattle.std.specs.Prelude.{◌≡◌};
    ghost use Rattle.ic_parts.specs.Whole.{whole_of};
    ghost use Rattle.ic_share.specs.Share.{DoesShared, IsKnown, shared_by};

    ghost is_ready = { λ users model. (users.own ≡ model.book.language)
        × IsKnown (shared_by users model.book) };

    ghost does = { λ line old new told. (new.0.own ≡ old.0.own)
        × DoesShared line (shared_by old.0 old.1.book) (shared_by new.0 new.1.book) told };

    ghost stays = { λ old new. whole_of new.1.book ≡ whole_of old.1.book };

    fn reply_in(
        &mut self,
        alloc: Global,
        model: &mut Model<'_>,
        line: &str,
        last: String,
    ) -> Result<String, OutOfMemory> {
        Users::answered(self, alloc, model, line, last)
    }
}
