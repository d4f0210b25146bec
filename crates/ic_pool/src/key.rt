ghost use Rattle.std.specs.Prelude.{◌≡◌, ◌++◌, [], IfOk, OnOk};
ghost use Rattle.ic_pool.specs.Bytes.{joined, number_bytes};

use ic_laws::OutOfMemory;
use std::alloc::Global;
use std::cmp::Ordering;
use std::marker::Model;

/// The code of a formula, or of a definition's key, as a key of a map. Contracts see its bytes.
#[derive(Drop)]
pub struct Key {
    bytes: Vec<u8>,
}

impl Model for Key {
    ghost use Rattle.std.specs.Prelude.{List, ℕ};

    ghost Value = { List ℕ };

    ghost view = { λ k. k.bytes.items };
}

impl Key {
    /// No bytes.
    pub(crate) fn new(alloc: Global) -> Key
        ensures { result ≡ [] }
    {
        Key {
            bytes: Vec::new(alloc),
        }
    }

    /// No bytes, with room for so many.
    pub(crate) fn with_room(alloc: Global, room: usize) -> Result<Key, OutOfMemory>
        ensures { IfOk result (λ key. key ≡ []) }
    {
        let bytes = Vec::with_capacity(alloc, room)?;
        Ok(Key { bytes })
    }

    /// Gives back the room that its bytes don't take.
    pub(crate) fn shrink(&mut self)
        ensures { self.new ≡ self.old }
    {
        self.bytes.shrink_to_fit();
    }

    /// Its bytes.
    pub(crate) fn bytes(&self) -> &[u8]
        ensures { result.now ≡ self.now }
    {
        self.bytes.as_slice()
    }

    /// Writes a number. Most take one byte, and that is what a caller inlines.
    #[inline]
    pub(crate) fn push(&mut self, number: u64) -> Result<(), OutOfMemory>
        ensures { OnOk result (self.new ≡ self.old ++ number_bytes number) }
    {
        if number < 128 {
            self.bytes.push(number as u8)?;
            return Ok(());
        }
        self.push_long(number)
    }

    /// Writes a number of any size.
    #[inline(never)]
    fn push_long(&mut self, number: u64) -> Result<(), OutOfMemory>
        ensures { OnOk result (self.new ≡ self.old ++ number_bytes number) }
    {
        let mut rest = number;
        while rest >= 128 {
            self.bytes.push((rest % 128) as u8 + 128)?;
            rest /= 128;
        }
        self.bytes.push(rest as u8)?;
        Ok(())
    }

    /// Writes numbers, one after another.
    #[inline]
    pub(crate) fn extend(&mut self, numbers: &[u64]) -> Result<(), OutOfMemory>
        ensures { OnOk result (self.new ≡ self.old ++ joined number_bytes numbers.now) }
    {
        for number in numbers {
            self.push(*number)?;
        }
        Ok(())
    }
}

impl PartialEq for Key {
    ghost use Rattle.std.specs.Prelude.{bytes_eq};
    ghost use Rattle.std.specs.Cmp.Rules.{comparing};

    ghost eq = { bytes_eq };

    ghost laws = { Prim.search comparing };

    fn eq(&self, other: &Key) -> bool {
        self.bytes == other.bytes
    }
}

impl Eq for Key {
    ghost use Rattle.std.specs.Cmp.Rules.{comparing};

    ghost laws = { Prim.search comparing };
}

impl PartialOrd for Key {
    ghost use Rattle.std.proofs.Common.{rules};
    ghost use Rattle.std.specs.Cmp.Lexicographic.{slice_cmp};
    ghost use Rattle.std.specs.Cmp.Rules.{comparing};
    ghost use Rattle.std.specs.Ordering.{nat_cmp, as_partial_cmp};

    ghost partial_cmp = { as_partial_cmp (slice_cmp nat_cmp) };

    ghost laws = { Prim.search (comparing, rules) };

    fn partial_cmp(&self, other: &Key) -> Option<Ordering> {
        Some(self.cmp(other))
    }
}

impl Ord for Key {
    ghost use Rattle.std.proofs.Common.{rules};
    ghost use Rattle.std.specs.Cmp.Lexicographic.{slice_cmp};
    ghost use Rattle.std.specs.Cmp.Rules.{comparing};
    ghost use Rattle.std.specs.Ordering.{nat_cmp};

    ghost cmp = { slice_cmp nat_cmp };

    ghost total = { Prim.search (comparing, rules) };

    ghost matches_partial_cmp = { Prim.search (comparing, rules) };

    ghost matches_eq = { Prim.search (comparing, rules) };

    fn cmp(&self, other: &Key) -> Ordering {
        self.bytes.cmp(&other.bytes)
    }
}
