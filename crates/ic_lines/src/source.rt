ghost use Rattle.std.specs.Prelude.{◌≡◌, Bool, ℕ, ◌≤◌, List, Option, length, IfOk, OnOk, OnErr};
ghost use Rattle.ic_lines.specs.Bytes.{MovesRead, HasFault, ShowsEnd};

use crate::Failed;

/// Where bytes come from. An implementation may tell the bytes that are left; it counts its faults.
pub trait Source {
    /// The bytes that are left, where it tells them.
    ghost left: { Self → Option (List ℕ) };

    /// How many faults there were; the count stands still at 2^64 - 1.
    ghost faults: { Self → ℕ };

    /// Whether some read showed the end: it answered 0 for a buffer that isn't empty.
    ghost ended: { Self → Bool };

    /// Moves a front of the bytes that are left to the front of `buf`, and answers its length: 0 for a buffer that
    /// isn't empty exactly at the end. A failed read moves nothing, and it alone counts a fault.
    fn read(&mut self, buf: &mut [u8]) -> Result<usize, Failed>
        ensures within { IfOk result (λ n. n ≤ length buf.new) }
        ensures moved { MovesRead (left self.old) (left self.new) result buf.new }
        ensures counted { faults self.old ≤ faults self.new }
        ensures cause { OnErr result (HasFault (faults self.old) (faults self.new)) }
        ensures quiet { OnOk result (faults self.new ≡ faults self.old) }
        ensures end { ShowsEnd (ended self.old) (ended self.new) result (length buf.new) };
}
