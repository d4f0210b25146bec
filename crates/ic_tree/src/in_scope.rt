ghost use Rattle.std.specs.Prelude.{◌≡◌, ◌++◌, ◌∷◌, ◌-◌, ℕ, List, [], IfOk, OnErr, OnOk, bytes_eq, chars, length, string_bytes, take};
ghost use Rattle.std.specs.BTreeMap.{get_by_text};
ghost use Rattle.ic_laws.specs.Binding.{is_bound_by};
ghost use Rattle.ic_tree.specs.InScope.{but_last, key_of, or_last};

use caseless::default_case_fold_str;
use ic_laws::{OutOfMemory, Text};
use std::alloc::Global;
use std::collections::BTreeMap;
use std::marker::Model;

/// The variables of LET and LAMBDA that are in scope at a place, as they were typed, in the order in which they came. Each
/// is folded as it comes and as it goes, and a word once, however many there are.
pub(crate) struct Binders {
    alloc: Global,
    names: Vec<Text>,
    /// The place of the first variable of each folded name, from 0.
    places: BTreeMap<String, usize>,
}

impl Drop for Binders {
    fn drop(self) {
        let Self {
            alloc,
            names,
            places,
        } = self;
        drop(alloc);
        drop(names);
        drop(places);
    }
}

impl Model for Binders {
    ghost use Rattle.std.specs.Prelude.{List, ℕ};
    ghost use Rattle.ic_tree.specs.InScope.{AreFound};

    ghost Value = { List (List ℕ) };

    ghost view = { λ b. b.names.items };

    ghost invariant = { λ b. AreFound b.places b.names.items };
}

/// The key of a name.
fn key_of(alloc: Global, name: &str) -> Result<String, OutOfMemory>
    ensures { IfOk result (λ key. string_bytes key ≡ key_of (chars name.now)) }
{
    Ok(default_case_fold_str(alloc, name)?)
}

impl Binders {
    /// None.
    pub(crate) fn new(alloc: Global) -> Binders
        ensures { result ≡ [] }
    {
        Binders {
            alloc,
            names: Vec::new(alloc),
            places: BTreeMap::new(alloc),
        }
    }

    /// How many there are.
    pub(crate) fn len(&self) -> usize
        ensures { result ≡ length self.now }
    {
        self.names.len()
    }

    /// Whether one of this name is in scope.
    pub(crate) fn has(&self, name: &str) -> Result<bool, OutOfMemory>
        ensures { IfOk result (λ has. has ≡ is_bound_by self.now (chars name.now)) }
    {
        if self.names.is_empty() {
            return Ok(false);
        }
        let key = key_of(self.alloc, name)?;
        Ok(self.has_key(key.as_str(), name))
    }

    /// The same, by the key of the name.
    fn has_key(&self, key: &str, name: &str) -> bool
        requires { key.now ≡ key_of (chars name.now) }
        ensures { result ≡ is_bound_by self.now (chars name.now) }
    {
        self.places.contains_key(key)
    }

    /// One more comes into scope. `OutOfMemory` changes nothing.
    pub(crate) fn push(&mut self, name: &str) -> Result<(), OutOfMemory>
        ensures ok { OnOk result (self.new ≡ self.old ++ chars name.now ∷ []) }
        ensures err { OnErr result (self.new ≡ self.old) }
    {
        let key = key_of(self.alloc, name)?;
        let name = Text::from_str(self.alloc, name)?;
        self.names.reserve(1)?;
        let place = self.names.len();
        note(&mut self.places, key, place)?;
        self.names.push_reserved(name);
        Ok(())
    }

    /// All of these come into scope.
    pub(crate) fn push_all(&mut self, names: &[Text]) -> Result<(), OutOfMemory>
        ensures { OnOk result (self.new ≡ self.old ++ names.now) }
    {
        for name in names {
            self.push(name.as_str())?;
        }
        Ok(())
    }

    /// The last one goes. `OutOfMemory` changes nothing.
    fn pop(&mut self) -> Result<(), OutOfMemory>
        ensures ok { OnOk result (self.new ≡ take (length self.old - 1) self.old) }
        ensures err { OnErr result (self.new ≡ self.old) }
    {
        let count = self.names.len();
        if count == 0 {
            return Ok(());
        }
        let name = &self.names[count - 1];
        let key = key_of(self.alloc, name.as_str())?;
        self.names.truncate(count - 1);
        forget(&mut self.places, key.as_str(), count - 1);
        Ok(())
    }

    /// All but so many of the first go.
    pub(crate) fn leave(&mut self, count: usize) -> Result<(), OutOfMemory>
        ensures { OnOk result (self.new ≡ take count self.old) }
    {
        while self.names.len() > count {
            self.pop()?;
        }
        Ok(())
    }
}

/// Puts a place to a key that has none.
fn note(places: &mut BTreeMap<String, usize>, key: String, place: usize) -> Result<(), OutOfMemory>
    ensures ok { OnOk result ((q : List ℕ) → get_by_text places.new q
        ≡ or_last (bytes_eq (string_bytes key) q) place (get_by_text places.old q)) }
    ensures err { OnErr result ((q : List ℕ) → get_by_text places.new q
        ≡ get_by_text places.old q) }
{
    if places.contains_key(key.as_str()) {
        return Ok(());
    }
    places.insert(key, place)?;
    Ok(())
}

/// Takes a key out that has this place.
fn forget(places: &mut BTreeMap<String, usize>, key: &str, place: usize)
    ensures { (q : List ℕ) → get_by_text places.new q
        ≡ but_last (bytes_eq key.now q) place (get_by_text places.old q) }
{
    if places.get(key).copied() == Some(place) {
        places.remove(key);
    }
}
