//! What would be found among other definitions than those of the book, which needn't be made for that.
ghost use Rattle.std.specs.Prelude.{◌≡◌, ◌&&◌, ◌++◌, IfOk, None, Some, chars, length, nat_lt, not, option_map, slice_get, true};
ghost use Rattle.std.specs.Option.{option_and_then};
ghost use Rattle.ic_laws.specs.Name.{fold};
ghost use Rattle.ic_laws.specs.Scene.{definition_at, found_name, key_of, name_of_key, same_key};
ghost use Rattle.ic_definitions.specs.Named.{definitions_scene, is_before, is_there, renamed_scene};

use crate::definition::{fold_name, key_with};
use crate::{Definition, NamedDefinitions};
use ic_laws::{Finder, NameKey, OutOfMemory};
use ic_pool::same_key;
use std::alloc::Global;

/// The definitions of a book and others that are to stand behind them.
#[derive(Clone, Copy)]
pub struct BothDefinitions<'d> {
    first: NamedDefinitions<'d>,
    more: NamedDefinitions<'d>,
}

impl<'d> BothDefinitions<'d> {
    /// These definitions, and behind them more.
    pub fn new(first: NamedDefinitions<'d>, more: NamedDefinitions<'d>) -> BothDefinitions<'d>
        ensures first { result.first ≡ first.entry }
        ensures more { result.more ≡ more.entry }
    {
        BothDefinitions { first, more }
    }

    /// The key of the definition of an agreeing name that is local to the sheet with this id, or to none.
    fn key_at(&self, scope: Option<u32>, word: &str) -> Result<Option<NameKey>, OutOfMemory>
        ensures { IfOk result (λ key. key ≡ option_map key_of (definition_at
            (definitions_scene
            (self.now.first.definitions.now ++ self.now.more.definitions.now))
            (fold (chars word.now)) scope)) }
    {
        if let Some(key) = self.first.key_at(scope, word)? {
            return Ok(Some(key));
        }
        self.more.key_at(scope, word)
    }
}

/// It finds what is found among all of them, where there are no sheets.
impl<'d> Finder for BothDefinitions<'d> {
    ghost use Rattle.std.specs.Prelude.{◌++◌};
    ghost use Rattle.ic_definitions.specs.Named.{definitions_scene};

    ghost scene = { λ b. definitions_scene (b.first.definitions.now ++ b.more.definitions.now) };

    fn find_sheet(&self, _alloc: Global, _name: &str) -> Result<Option<u32>, OutOfMemory> {
        Ok(None)
    }

    fn find_name(
        &self,
        _alloc: Global,
        scope: Option<u32>,
        word: &str,
    ) -> Result<Option<NameKey>, OutOfMemory> {
        match self.key_at(scope, word)? {
            Some(key) => Ok(Some(key)),
            None => self.key_at(None, word),
        }
    }

    fn sheet_spelling(&self, _id: u32) -> Option<&str> {
        None
    }

    fn name_spelling(&self, key: &NameKey) -> Option<&str> {
        if let Some(name) = self.first.name_of(key) {
            return Some(name);
        }
        self.more.name_of(key)
    }
}

/// The definitions of a book where the one at an index, from 0, has another name and another scope. Where no definition
/// stands at the index, they are as they are.
#[derive(Clone, Copy)]
pub struct UpdatedDefinitions<'d> {
    definitions: NamedDefinitions<'d>,
    index: usize,
    name: &'d str,
    key: &'d NameKey,
    /// Whether it is known that this key finds the one at the index: where not, it is looked up each time.
    has_key: bool,
    ghost own: { key.now.name ≡ fold (chars name.now) },
    ghost found: { has_key ≡ true → Some (chars name.now) ≡ name_of_key (renamed_scene index
        (chars name.now) key.now.scope definitions.definitions.now) key.now },
}

impl<'d> UpdatedDefinitions<'d> {
    /// These definitions with another name and another key at an index, from 0. The key must be that of the name.
    pub fn new(
        definitions: NamedDefinitions<'d>,
        index: usize,
        name: &'d str,
        key: &'d NameKey,
    ) -> UpdatedDefinitions<'d>
        requires { key.now.name ≡ fold (chars name.now) }
        ensures definitions { result.definitions ≡ definitions.entry }
        ensures index { result.index ≡ index }
        ensures name { result.name.now ≡ name.now }
        ensures key { result.key.now ≡ key.now }
    {
        let unknown = UpdatedDefinitions {
            definitions,
            index,
            name,
            key,
            has_key: false,
        };
        let has_key = unknown.is_found(key, definitions.place_of(key));
        UpdatedDefinitions {
            definitions,
            index,
            name,
            key,
            has_key,
        }
    }

    /// The key of the definition that a word means in a formula whose words are looked up from the sheet with this id, or
    /// from none: the local one, else the one that is local to none. The word is folded once.
    fn find(
        &self,
        alloc: Global,
        scope: Option<u32>,
        word: &str,
    ) -> Result<Option<NameKey>, OutOfMemory>
        ensures { IfOk result (λ key. key ≡ found_name
            (renamed_scene self.now.index (chars self.now.name.now)
            self.now.key.now.scope self.now.definitions.definitions.now)
            scope (chars word.now)) }
    {
        let local = key_with(fold_name(alloc, word)?, scope);
        if self.name_of(&local).is_some() {
            return Ok(Some(local));
        }
        let global = for_all_sheets(local);
        if self.name_of(&global).is_some() {
            return Ok(Some(global));
        }
        Ok(None)
    }

    /// The name of the definition with this key.
    fn name_of(&self, key: &NameKey) -> Option<&str>
        ensures { option_map (λ name. chars name.now) result ≡ name_of_key (renamed_scene
            self.now.index (chars self.now.name.now) self.now.key.now.scope
            self.now.definitions.definitions.now) key.now }
    {
        if self.is_known(key) {
            return Some(self.name);
        }
        let place = self.definitions.place_of(key);
        if self.is_found(key, place) {
            return Some(self.name);
        }
        if is_there(place, self.index) {
            return None;
        }
        name_in(self.definitions.definitions.as_slice(), place)
    }

    /// Whether it is known that this key finds the one at the index.
    fn is_known(&self, key: &NameKey) -> bool
        ensures { result ≡ (self.now.has_key && same_key self.now.key.now key.now) }
    {
        self.has_key && same_key(self.key, key)
    }

    /// Whether the one at the index has this key now, and none before it has: the place is that of the first that had it.
    fn is_found(&self, key: &NameKey, place: Option<usize>) -> bool
        ensures { result ≡ ((nat_lt self.now.index (length self.now.definitions.definitions.now)
            && same_key self.now.key.now key.now) && not (is_before self.now.index place)) }
    {
        let there = self.index < self.definitions.definitions.as_slice().len();
        there && same_key(self.key, key) && !is_before(place, self.index)
    }
}

/// It finds what is found among them then, where there are no sheets.
impl<'d> Finder for UpdatedDefinitions<'d> {
    ghost use Rattle.std.specs.Prelude.{chars};
    ghost use Rattle.ic_definitions.specs.Named.{renamed_scene};

    ghost scene = { λ u. renamed_scene u.index (chars u.name.now) u.key.now.scope
        u.definitions.definitions.now };

    fn find_sheet(&self, _alloc: Global, _name: &str) -> Result<Option<u32>, OutOfMemory> {
        Ok(None)
    }

    fn find_name(
        &self,
        alloc: Global,
        scope: Option<u32>,
        word: &str,
    ) -> Result<Option<NameKey>, OutOfMemory> {
        self.find(alloc, scope, word)
    }

    fn sheet_spelling(&self, _id: u32) -> Option<&str> {
        None
    }

    fn name_spelling(&self, key: &NameKey) -> Option<&str> {
        self.name_of(key)
    }
}

/// A key of the same name that is local to no sheet.
fn for_all_sheets(key: NameKey) -> NameKey
    ensures { result ≡ record { name = key.name; scope = None } }
{
    NameKey {
        name: key.name,
        scope: None,
    }
}

/// Whether a place stands before an index.
fn is_before(place: Option<usize>, index: usize) -> bool
    ensures { result ≡ is_before index place }
{
    match place {
        Some(place) => place < index,
        None => false,
    }
}

/// Whether a place is an index.
fn is_there(place: Option<usize>, index: usize) -> bool
    ensures { result ≡ is_there index place }
{
    match place {
        Some(place) => place == index,
        None => false,
    }
}

/// The name of the definition at a place. None past the end, and where there is no place.
fn name_in(definitions: &[Definition], place: Option<usize>) -> Option<&str>
    ensures { option_map (λ name. chars name.now) result ≡ option_map (λ d. d.name)
        (option_and_then (slice_get definitions.now) place) }
{
    let definition = definitions.get(place?)?;
    Some(definition.name())
}
