ghost use Rattle.std.specs.Prelude.{◌≡◌};
ghost use Rattle.ic_pool.specs.Hash.{hash_of, mixed, mixed_bytes, mixed_words};

use crate::Key;
use std::cmp::Ordering;
use std::marker::Model;

/// An odd number whose bits stand in no pattern: 2^64 through the golden ratio.
const MULTIPLIER: u128 = 11_400_714_819_323_198_485;

/// 2^64.
const WORD: u128 = 18_446_744_073_709_551_616;

/// 2^32.
const HALF: u64 = 4_294_967_296;

/// The key of a formula, as a pool looks it up: a hash of its bytes stands before them, so that two keys mostly differ in one
/// number, and none of their bytes is read. Contracts see the bytes.
#[derive(Drop)]
pub struct HashedKey {
    hash: u32,
    key: Key,
}

impl Model for HashedKey {
    ghost use Rattle.std.specs.Prelude.{List, ℕ, ◌≡◌};
    ghost use Rattle.ic_pool.specs.Hash.{hash_of};

    ghost Value = { List ℕ };

    ghost view = { λ k. k.key };

    ghost invariant = { λ k. k.hash ≡ hash_of k.key };
}

impl HashedKey {
    /// This key with its hash.
    pub(crate) fn new(key: Key) -> HashedKey
        ensures { result ≡ key }
    {
        let hash = hash_of(key.bytes());
        HashedKey { hash, key }
    }

    /// Gives back the room that its bytes don't take.
    pub(crate) fn shrink(&mut self)
        ensures { self.new ≡ self.old }
    {
        self.key.shrink();
    }

    /// Its hash.
    pub(crate) fn hash(&self) -> u32
        ensures { result ≡ hash_of self.now }
    {
        self.hash
    }
}

/// A number with another mixed in.
#[tactic(auto, unfolding(crate::specs::Hash::mixed))]
fn mixed(number: u64, word: u64) -> u64
    ensures { result ≡ mixed number word }
{
    let product = u128::from(number.wrapping_add(word)) * MULTIPLIER;
    ((product / WORD) as u64).wrapping_add((product % WORD) as u64)
}

/// A number with bytes mixed in, one after another.
fn mixed_bytes(number: u64, bytes: &[u8]) -> u64
    ensures { result ≡ mixed_bytes number bytes.now }
{
    let mut out = number;
    for byte in bytes {
        out = mixed(out, u64::from(*byte));
    }
    out
}

/// A number with each eight bytes mixed in as one number, and then the bytes that are left.
fn mixed_words(number: u64, bytes: &[u8]) -> u64
    ensures { result ≡ mixed_words number bytes.now }
{
    let mut out = number;
    let mut rest = bytes;
    while let Some((word, after)) = rest.split_first_chunk::<8>() {
        out = mixed(out, u64::from_le_bytes(*word));
        rest = after;
    }
    mixed_bytes(out, rest)
}

/// The hash of a key's bytes.
#[tactic(auto, unfolding(crate::specs::Hash::hash_of))]
fn hash_of(bytes: &[u8]) -> u32
    ensures { result ≡ hash_of bytes.now }
{
    (mixed_words(0, bytes) % HALF) as u32
}

impl PartialEq for HashedKey {
    ghost use Rattle.std.specs.Cmp.Rules.{comparing};
    ghost use Rattle.std.specs.Ordering.{eq_by_cmp};
    ghost use Rattle.ic_pool.specs.Hash.{key_cmp};

    ghost eq = { eq_by_cmp key_cmp };

    ghost laws = { Prim.search comparing };

    fn eq(&self, other: &HashedKey) -> bool {
        self.cmp(other).is_eq()
    }
}

impl Eq for HashedKey {
    ghost use Rattle.std.specs.Cmp.Rules.{comparing};

    ghost laws = { Prim.search comparing };
}

impl PartialOrd for HashedKey {
    ghost use Rattle.std.proofs.Common.{rules};
    ghost use Rattle.std.specs.Cmp.Rules.{comparing};
    ghost use Rattle.std.specs.Ordering.{as_partial_cmp};
    ghost use Rattle.ic_pool.specs.Hash.{key_cmp};

    ghost partial_cmp = { as_partial_cmp key_cmp };

    ghost laws = { Prim.search (comparing, rules) };

    fn partial_cmp(&self, other: &HashedKey) -> Option<Ordering> {
        Some(self.cmp(other))
    }
}

impl Ord for HashedKey {
    ghost use Rattle.std.proofs.Common.{rules};
    ghost use Rattle.std.specs.Cmp.Rules.{comparing};
    ghost use Rattle.ic_pool.specs.Hash.{key_cmp};

    ghost cmp = { key_cmp };

    ghost total = { Prim.search (comparing, rules) };

    ghost matches_partial_cmp = { Prim.search (comparing, rules) };

    ghost matches_eq = { Prim.search (comparing, rules) };

    fn cmp(&self, other: &HashedKey) -> Ordering {
        match self.hash.cmp(&other.hash) {
            Ordering::Equal => self.key.cmp(&other.key),
            unequal => unequal,
        }
    }
}
