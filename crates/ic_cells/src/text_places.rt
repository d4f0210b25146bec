//! Where the shared texts are found by their bytes.
ghost use Rattle.std.specs.Prelude.{◌≡◌, None, Some, false, true, IfOk, OnErr, OnOk};
ghost use Rattle.std.specs.BTreeMap.{Updates, get};
ghost use Rattle.std.specs.List.{slice_get};
ghost use Rattle.std.specs.Ordering.{nat_cmp};
ghost use Rattle.ic_cells.specs.TextPlaces.{HasNone, IsKept, IsPut, IsSame, KeepsFirst, has_bytes, hash_of, text_found};

use ic_laws::{OutOfMemory, Text};
use std::alloc::Global;
use std::collections::BTreeMap;
use std::collections::btree_map::Entry;
use std::hash::{FoldHasher, Hasher};

/// 2^32.
const HALF: u64 = 4_294_967_296;

/// The indexes of texts in a list, each found by its bytes. Most stand under a hash alone, and the text at the index says
/// whether it is the one. Those whose hash another had before, and those at indexes from 2^32 on, stand under their bytes.
#[derive(Drop)]
pub struct TextPlaces {
    /// By a hash the index of one text that has it.
    pub by_hash: BTreeMap<u32, u32>,
    /// The indexes of the other texts.
    pub by_text: BTreeMap<String, usize>,
}

impl TextPlaces {
    /// No indexes.
    pub fn new(alloc: Global) -> TextPlaces
        ensures { HasNone result }
    {
        TextPlaces {
            by_hash: BTreeMap::new(alloc),
            by_text: BTreeMap::new(alloc),
        }
    }

    /// The index of a text among those of a list.
    pub fn find(&self, texts: &[Text], text: &str) -> Option<usize>
        ensures { result ≡ text_found self.now texts.now text.now }
    {
        if let Some(at) = self.by_hash.get(&hash_of(text)) {
            let at = *at as usize;
            if has_bytes(texts, at, text) {
                return Some(at);
            }
        }
        self.by_text.get(text).copied()
    }

    /// Puts the index of a text under its hash, where it is below 2^32 and no index stands there, else under its bytes.
    /// `OutOfMemory` changes nothing.
    pub fn put(&mut self, alloc: Global, text: &str, at: usize) -> Result<(), OutOfMemory>
        ensures ok { OnOk result (IsPut text.now at self.old self.new) }
        ensures err { OnErr result (IsSame self.old self.new) }
    {
        if self.put_hash(hash_of(text), at)? {
            return Ok(());
        }
        self.put_text(alloc, text, at)
    }

    /// Puts an index under the bytes of a text.
    fn put_text(&mut self, alloc: Global, text: &str, at: usize) -> Result<(), OutOfMemory>
        ensures ok { OnOk result (IsKept text.now at self.old self.new) }
        ensures err { OnErr result (IsSame self.old self.new) }
    {
        let key = String::from_str(alloc, text)?;
        self.by_text.insert(key, at)?;
        Ok(())
    }

    /// Puts an index below 2^32 under a hash where none stands there, and answers whether it did.
    fn put_hash(&mut self, hash: u32, at: usize) -> Result<bool, OutOfMemory>
        ensures put { IfOk result (λ put. put ≡ true → get nat_cmp self.old.by_hash hash ≡ None
            × Updates nat_cmp self.old.by_hash self.new.by_hash hash (Some at)) }
        ensures left { IfOk result (λ put. put ≡ false
            → self.new.by_hash.entries ≡ self.old.by_hash.entries) }
        ensures err { OnErr result (self.new.by_hash.entries ≡ self.old.by_hash.entries) }
        ensures texts { self.new.by_text ≡ self.old.by_text }
    {
        let Ok(at) = u32::try_from(at) else {
            return Ok(false);
        };
        match self.by_hash.entry(hash)? {
            Entry::Occupied(_) => Ok(false),
            Entry::Vacant(entry) => {
                entry.insert(at);
                Ok(true)
            }
        }
    }

    /// Keeps the indexes below `len` alone.
    pub fn truncate(&mut self, len: usize)
        ensures { KeepsFirst len self.old self.new }
    {
        self.by_hash.retain(|_, at| (*at as usize) < len);
        self.by_text.retain(|_, at| *at < len);
    }
}

/// The hash of a text.
#[tactic(auto, unfolding(crate::specs::TextPlaces::hash_of))]
fn hash_of(text: &str) -> u32
    ensures { result ≡ hash_of text.now }
{
    let mut hasher = FoldHasher::default();
    hasher.write(text.as_bytes());
    (hasher.finish() % HALF) as u32
}

/// Whether the text at an index is this; past the end there is none.
fn has_bytes(texts: &[Text], at: usize, text: &str) -> bool
    ensures { result ≡ has_bytes text.now (slice_get texts.now at) }
{
    match texts.get(at) {
        None => false,
        Some(other) => other.is(text),
    }
}
