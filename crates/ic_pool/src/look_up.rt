//! Where formulas are found by their keys.
ghost use Rattle.std.specs.Prelude.{◌≡◌, None, Some, false, true, is_some, IfOk, OnErr, OnOk};
ghost use Rattle.std.specs.BTreeMap.{Updates, get};
ghost use Rattle.std.specs.List.{slice_get};
ghost use Rattle.std.specs.Ordering.{nat_cmp};
ghost use Rattle.ic_laws.specs.declared.tree.Formula.{Formula};
ghost use Rattle.ic_pool.specs.Hash.{hash_of, key_cmp};
ghost use Rattle.ic_pool.specs.LookUp.{IsEmpty, IsKept, IsLeftOut, IsMetOrPut, IsPut, IsSame, checked, found, has_key, is_place};

use crate::{HashedKey, key_of};
use ic_laws::{Formula, OutOfMemory};
use std::alloc::Global;
use std::collections::BTreeMap;
use std::collections::btree_map::Entry;

/// The places of formulas, each found by its key. Most stand under a hash of their keys alone, and the formula at the place
/// says whether it is the one; those that came again, those whose hash another has, and those at places from 2^32 on stand
/// under their whole keys.
#[derive(Drop)]
pub struct LookUp {
    /// By a hash the place of one formula whose key has it.
    pub by_hash: BTreeMap<u32, u32>,
    /// By keys the places of some, which go before those by their hashes.
    pub by_key: BTreeMap<HashedKey, usize>,
}

impl LookUp {
    /// No places.
    pub fn new(alloc: Global) -> LookUp
        ensures { IsEmpty result }
    {
        LookUp {
            by_hash: BTreeMap::new(alloc),
            by_key: BTreeMap::new(alloc),
        }
    }

    /// The place that stands under this key.
    pub fn kept(&self, key: &HashedKey) -> Option<usize>
        ensures { result ≡ get key_cmp self.now.by_key key.now }
    {
        self.by_key.get(key).copied()
    }

    /// The place that stands under the hash of this key, where a formula with this key is.
    pub fn met(
        &self,
        alloc: Global,
        formulas: &[Formula],
        key: &HashedKey,
    ) -> Result<Option<usize>, OutOfMemory>
        ensures { IfOk result (λ place. place ≡ checked formulas.now key.now
            (get nat_cmp self.now.by_hash (hash_of key.now))) }
    {
        match self.by_hash.get(&key.hash()).copied() {
            None => Ok(None),
            Some(at) => {
                let at = at as usize;
                if has_key(alloc, formulas, at, key)? {
                    Ok(Some(at))
                } else {
                    Ok(None)
                }
            }
        }
    }

    /// The place of the formula with this key.
    pub fn find(
        &self,
        alloc: Global,
        formulas: &[Formula],
        key: &HashedKey,
    ) -> Result<Option<usize>, OutOfMemory>
        ensures { IfOk result (λ place. place ≡ found self.now formulas.now key.now) }
    {
        match self.kept(key) {
            Some(at) => Ok(Some(at)),
            None => self.met(alloc, formulas, key),
        }
    }

    /// Puts a place under a whole key, which takes no more room than its bytes.
    pub fn keep(&mut self, mut key: HashedKey, at: usize) -> Result<(), OutOfMemory>
        ensures ok { OnOk result (IsKept key at self.old self.new) }
        ensures err { OnErr result (IsSame self.old self.new) }
    {
        key.shrink();
        self.by_key.insert(key, at)?;
        Ok(())
    }

    /// Puts a place under the hash of a key, where it is below 2^32, no place stands there and none under the key, else under
    /// the key.
    pub fn put(&mut self, key: HashedKey, at: usize) -> Result<(), OutOfMemory>
        ensures ok { OnOk result (IsPut key at self.old self.new) }
        ensures err { OnErr result (IsSame self.old self.new) }
    {
        if self.kept(&key).is_none() && self.put_hash(key.hash(), at)? {
            return Ok(());
        }
        self.keep(key, at)
    }

    /// The place of the formula with this key, which stands under no whole key: one that is met by its hash gets its key. Where
    /// there is none, this place is put.
    pub fn meet_or_put(
        &mut self,
        alloc: Global,
        formulas: &[Formula],
        key: HashedKey,
        at: usize,
    ) -> Result<Option<usize>, OutOfMemory>
        requires { get key_cmp self.old.by_key key ≡ None }
        ensures met { IfOk result (λ place. place ≡ checked formulas.now key
            (get nat_cmp self.old.by_hash (hash_of key))) }
        ensures put { IfOk result (λ place. IsMetOrPut key at place self.old self.new) }
        ensures err { OnErr result (IsSame self.old self.new) }
    {
        let Ok(small) = u32::try_from(at) else {
            return self.meet_or_keep(alloc, formulas, key, at);
        };
        match self.meet(key.hash(), small)? {
            None => Ok(None),
            Some(other) => {
                let other = other as usize;
                if has_key(alloc, formulas, other, &key)? {
                    self.keep(key, other)?;
                    Ok(Some(other))
                } else {
                    self.keep(key, at)?;
                    Ok(None)
                }
            }
        }
    }

    /// The same for a place that stands under no hash.
    fn meet_or_keep(
        &mut self,
        alloc: Global,
        formulas: &[Formula],
        key: HashedKey,
        at: usize,
    ) -> Result<Option<usize>, OutOfMemory>
        ensures met { IfOk result (λ place. place ≡ checked formulas.now key
            (get nat_cmp self.old.by_hash (hash_of key))) }
        ensures put { IfOk result (λ place. IsMetOrPut key at place self.old self.new) }
        ensures err { OnErr result (IsSame self.old self.new) }
    {
        let met = self.met(alloc, formulas, &key)?;
        self.keep(key, met.unwrap_or(at))?;
        Ok(met)
    }

    /// What stands under a hash; where nothing does, this place is put there.
    fn meet(&mut self, hash: u32, at: u32) -> Result<Option<u32>, OutOfMemory>
        ensures met { IfOk result (λ place. place ≡ get nat_cmp self.old.by_hash hash) }
        ensures put { IfOk result (λ place. place ≡ None
            → Updates nat_cmp self.old.by_hash self.new.by_hash hash (Some at)) }
        ensures left { IfOk result (λ place. is_some place ≡ true
            → self.new.by_hash.entries ≡ self.old.by_hash.entries) }
        ensures err { OnErr result (self.new.by_hash.entries ≡ self.old.by_hash.entries) }
        ensures keys { self.new.by_key ≡ self.old.by_key }
    {
        match self.by_hash.entry(hash)? {
            Entry::Occupied(entry) => Ok(Some(*entry.get())),
            Entry::Vacant(entry) => {
                entry.insert(at);
                Ok(None)
            }
        }
    }

    /// Puts a place below 2^32 under a hash where none stands there, and answers whether it did.
    fn put_hash(&mut self, hash: u32, at: usize) -> Result<bool, OutOfMemory>
        ensures put { IfOk result (λ put. put ≡ true → get nat_cmp self.old.by_hash hash ≡ None
            × Updates nat_cmp self.old.by_hash self.new.by_hash hash (Some at)) }
        ensures left { IfOk result (λ put. put ≡ false
            → self.new.by_hash.entries ≡ self.old.by_hash.entries) }
        ensures err { OnErr result (self.new.by_hash.entries ≡ self.old.by_hash.entries) }
        ensures keys { self.new.by_key ≡ self.old.by_key }
    {
        let Ok(at) = u32::try_from(at) else {
            return Ok(false);
        };
        match self.by_hash.entry(hash)? {
            Entry::Occupied(_) => Ok(false),
            Entry::Vacant(entry) => {
                entry.insert(at);
                Ok(true)
            }
        }
    }

    /// Takes out what stands under a key, and this place where it stands under the key's hash.
    pub fn take_out(&mut self, key: &HashedKey, at: usize)
        ensures { IsLeftOut key.now at self.old self.new }
    {
        let hash = key.hash();
        if self.stands_at(hash, at) {
            self.by_hash.remove(&hash);
        }
        self.by_key.remove(key);
    }

    /// Whether this place stands under a hash.
    fn stands_at(&self, hash: u32, at: usize) -> bool
        ensures { result ≡ is_place at (get nat_cmp self.now.by_hash hash) }
    {
        match self.by_hash.get(&hash) {
            Some(other) => *other as usize == at,
            None => false,
        }
    }
}

/// Whether the formula at a place has this key; past the end there is none.
fn has_key(
    alloc: Global,
    formulas: &[Formula],
    at: usize,
    key: &HashedKey,
) -> Result<bool, OutOfMemory>
    ensures { IfOk result (λ has. has ≡ has_key key.now (slice_get formulas.now at)) }
{
    match formulas.get(at) {
        None => Ok(false),
        Some(formula) => {
            let other = key_of(alloc, formula)?;
            Ok(*key == other)
        }
    }
}
