ghost use Rattle.std.specs.Prelude.{◌≡◌, ℕ, ◌<◌, ◌≤◌, ◌⊎◌, ◌++◌, List, Option, length, IfOk, IfErr, OnOk, OnErr};
ghost use Rattle.ic_lines.specs.Bytes.{IfTold, MovesWritten, AppendsFront, HasFault};

use crate::{Failed, RunError};

/// Where bytes go. An implementation may tell the bytes that were written; it counts its faults.
pub trait Sink {
    /// The bytes that were written, where it tells them.
    ghost written: { Self → Option (List ℕ) };

    /// How many faults there were; the count stands still at 2^64 - 1.
    ghost faults: { Self → ℕ };

    /// Appends a front of `piece`, and answers its length. A failed write appends nothing. To take 0 bytes of a
    /// piece that isn't empty is a fault too; nothing else is.
    fn write(&mut self, piece: &[u8]) -> Result<usize, Failed>
        ensures within { IfOk result (λ n. n ≤ length piece.now) }
        ensures moved { MovesWritten (written self.old) (written self.new) result piece.now }
        ensures counted { faults self.old ≤ faults self.new }
        ensures cause { OnErr result (HasFault (faults self.old) (faults self.new)) }
        ensures stuck { IfOk result (λ n. n ≡ 0 → 0 < length piece.now
            → HasFault (faults self.old) (faults self.new)) }
        ensures quiet { IfOk result (λ n. (0 < n) ⊎ (length piece.now ≡ 0) → faults self.new
            ≡ faults self.old) };
}

/// Writes all of `bytes`. The only error is `WriteFault`: a write failed or took nothing, and a front of the bytes,
/// not all of them, was appended. It takes no memory.
pub fn write_all<K: Sink>(sink: &mut K, bytes: &[u8]) -> Result<(), RunError>
    ensures ok { OnOk result (IfTold (K.written sink.old) (K.written sink.new)
        (λ old new. new ≡ old ++ bytes.now)) }
    ensures front { OnErr result (IfTold (K.written sink.old) (K.written sink.new)
        (AppendsFront bytes.now)) }
    ensures fault { IfErr result (λ e. (e ≡ RunError.WriteFault)
        × HasFault (K.faults sink.old) (K.faults sink.new)) }
    ensures counted { K.faults sink.old ≤ K.faults sink.new }
    ensures quiet { OnOk result (K.faults sink.new ≡ K.faults sink.old) }
{
    let mut rest = bytes;
    while !rest.is_empty() {
        let Ok(taken) = sink.write(rest) else {
            return Err(RunError::WriteFault);
        };
        if taken == 0 {
            return Err(RunError::WriteFault);
        }
        rest = &rest[taken..];
    }
    Ok(())
}
