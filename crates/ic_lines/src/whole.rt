ghost use Rattle.std.specs.Prelude.{◌≡◌, ◌≢◌, ◌⊎◌, ◌+◌, ◌++◌, ◌∷◌, [], ◌<◌, ◌≤◌, true, Err, length, IfOk, IfErr, IsSomeAnd, OnOk, OnErr};
ghost use Rattle.ic_laws.specs.Lines.{texts_of};
ghost use Rattle.ic_lines.specs.Bytes.{HasFault, IfTold, TakesFirst};
ghost use Rattle.ic_lines.specs.Reading.{most_turns};

use crate::{Line, LineReader, RunError, Source};
use ic_laws::OutOfMemory;
use std::alloc::Global;

/// All bytes of a source. It reads until a read shows the end, each time into 4,096 bytes.
///
/// `ReadFault` where a read failed, `TooManyTurns` after 2^32 reads that each gave a byte, where none showed the end,
/// `OutOfMemory`. After an error a front of the bytes was taken.
pub fn read_all<S: Source>(alloc: Global, source: &mut S) -> Result<Vec<u8>, RunError>
    ensures all { IfOk result (λ bytes. IfTold (S.left source.old) (S.left source.new)
        (λ before now. (bytes.items ≡ before) × (now ≡ []))) }

    // It answers Ok exactly where a read showed the end.
    ensures end { OnOk result (S.ended source.new ≡ true) }
    ensures unseen { OnErr result (S.ended source.new ≡ S.ended source.old) }

    // What an error leaves, and when each comes.
    ensures front { OnErr result (IfTold (S.left source.old) (S.left source.new) TakesFirst) }
    ensures read_fault { result ≡ Err RunError.ReadFault
        → HasFault (S.faults source.old) (S.faults source.new) }
    ensures too_many { result ≡ Err RunError.TooManyTurns
        → IfTold (S.left source.old) (S.left source.new)
        (λ before now. most_turns + length now ≤ length before) }
    ensures no_write { result ≢ Err RunError.WriteFault }
    ensures counted { S.faults source.old ≤ S.faults source.new }
    ensures quiet { OnOk result (S.faults source.new ≡ S.faults source.old) }

    // Where there is no fault, and the source holds fewer than 2^32 bytes, only that memory runs out is left.
    ensures completes { IsSomeAnd (S.left source.old) (λ bytes. length bytes < most_turns)
        → ¬ HasFault (S.faults source.old) (S.faults source.new)
        → IfErr result (λ e. e ≡ RunError.OutOfMemory) }
{
    let mut reader = LineReader::new(alloc);
    reader.fill_all(source)?;
    Ok(reader.into_held())
}

/// All lines of a source, as `LineReader::next_line` gives them: a line that isn't UTF-8 is the empty line.
///
/// `ReadFault` where a read failed, `TooManyTurns` after 2^32 reads that each gave a byte, where none showed the end,
/// `OutOfMemory`. After an error a front of the bytes was taken.
pub fn read_lines<S: Source>(alloc: Global, source: &mut S) -> Result<Vec<Line>, RunError>
    ensures all { IfOk result (λ lines. IfTold (S.left source.old) (S.left source.new)
        (λ before now. (lines.items ≡ texts_of before) × (now ≡ []))) }

    // It answers Ok only where a read showed the end, and speaks of a fault or of too many turns only where none did.
    ensures end { OnOk result (S.ended source.new ≡ true) }
    ensures unseen { (result ≡ Err RunError.ReadFault) ⊎ (result ≡ Err RunError.TooManyTurns)
        → S.ended source.new ≡ S.ended source.old }

    // What an error leaves, and when each comes.
    ensures front { OnErr result (IfTold (S.left source.old) (S.left source.new) TakesFirst) }
    ensures read_fault { result ≡ Err RunError.ReadFault
        → HasFault (S.faults source.old) (S.faults source.new) }
    ensures too_many { result ≡ Err RunError.TooManyTurns
        → IfTold (S.left source.old) (S.left source.new)
        (λ before now. most_turns + length now ≤ length before) }
    ensures no_write { result ≢ Err RunError.WriteFault }
    ensures counted { S.faults source.old ≤ S.faults source.new }
    ensures quiet { OnOk result (S.faults source.new ≡ S.faults source.old) }

    // Where there is no fault, and the source holds fewer than 2^32 bytes, only that memory runs out is left.
    ensures completes { IsSomeAnd (S.left source.old) (λ bytes. length bytes < most_turns)
        → ¬ HasFault (S.faults source.old) (S.faults source.new)
        → IfErr result (λ e. e ≡ RunError.OutOfMemory) }
{
    let mut reader = LineReader::new(alloc);
    let mut lines = Vec::new(alloc);
    'lines: while let Some(line) = reader.next_line(source)? {
        push_line(&mut lines, line)?;
    }
    Ok(lines)
}

// Adds a line after those that are there.
fn push_line(lines: &mut Vec<Line>, line: Line) -> Result<(), OutOfMemory>
    ensures { OnOk result (lines.new.items ≡ lines.old.items ++ line ∷ []) }
{
    lines.push(line)?;
    Ok(())
}
