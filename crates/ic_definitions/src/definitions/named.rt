//! Definitions are found by their keys.
ghost use Rattle.std.specs.Prelude.{◌≡◌, IfOk, chars, find, map, option_map, position, slice_get};
ghost use Rattle.std.specs.List.{IsDistinct};
ghost use Rattle.ic_laws.specs.CoreStep.{is_named};
ghost use Rattle.ic_laws.specs.Greatest.{greatest};
ghost use Rattle.ic_laws.specs.Name.{fold};
ghost use Rattle.ic_laws.specs.Scene.{definition_at, found_name, key_of, name_of_key, same_key};
ghost use Rattle.ic_definitions.specs.Named.{FindsNames, definitions_scene, index_with_key, is_past, key_in, scopes_of};

use super::Definitions;
use crate::Definition;
use crate::definition::{fold_name, held_key, key_with};
use ic_laws::{Finder, NameKey, OutOfMemory, agree};
use ic_pool::{same_key, same_scope};
use std::alloc::Global;
use std::collections::BTreeMap;

/// Definitions with what finds them by their keys.
#[derive(Clone, Copy)]
pub struct NamedDefinitions<'d> {
    pub definitions: &'d Definitions,
    /// The index of each definition, from 0, by its folded name and the id that it is local to, if there is one.
    pub places: &'d BTreeMap<(String, Option<u32>), usize>,
    ghost own: { FindsNames places.now definitions.now },
}

impl<'d> NamedDefinitions<'d> {
    /// The index, from 0, of the definition of an agreeing name that is local to the sheet with this id, or to none. None
    /// exactly where there is no such one. Where there is no memory for a key of the look-up, all names are compared.
    pub fn index_of(&self, name: &str, scope: Option<u32>) -> Option<usize>
        ensures { result ≡ position (is_named (chars name.now) scope) self.now.definitions.now }
    {
        if self.definitions.as_slice().is_empty() {
            return None;
        }
        match self.index_by_key(name, scope) {
            Ok(index) => index,
            Err(_) => first_named(self.definitions.as_slice(), name, scope),
        }
    }

    /// The same, by the key of the name.
    fn index_by_key(&self, name: &str, scope: Option<u32>) -> Result<Option<usize>, OutOfMemory>
        ensures { IfOk result (λ index. index
            ≡ position (is_named (chars name.now) scope) self.now.definitions.now) }
    {
        let folded = fold_name(self.definitions.alloc(), name)?;
        self.index_at(folded.as_str(), scope)
    }

    /// The key of the definition that a word means in a formula whose words are looked up from the sheet with this id, or
    /// from none: the local one, else the one that is local to none. None exactly where it means none.
    pub fn find(&self, scope: Option<u32>, word: &str) -> Result<Option<NameKey>, OutOfMemory>
        ensures { IfOk result (λ key. key ≡ found_name
            (definitions_scene self.now.definitions.now) scope (chars word.now)) }
    {
        if self.definitions.as_slice().is_empty() {
            return Ok(None);
        }
        let folded = fold_name(self.definitions.alloc(), word)?;
        let local = self.index_at(folded.as_str(), scope)?;
        if local.is_some() {
            return Ok(Some(key_with(folded, scope)));
        }
        let global = self.index_at(folded.as_str(), None)?;
        if global.is_some() {
            return Ok(Some(key_with(folded, None)));
        }
        Ok(None)
    }

    /// The key of the definition of an agreeing name that is local to the sheet with this id, or to none. None exactly where
    /// there is no such one.
    pub fn key_at(&self, scope: Option<u32>, word: &str) -> Result<Option<NameKey>, OutOfMemory>
        ensures { IfOk result (λ key. key ≡ option_map key_of (definition_at
            (definitions_scene self.now.definitions.now) (fold (chars word.now)) scope)) }
    {
        if self.definitions.as_slice().is_empty() {
            return Ok(None);
        }
        let folded = fold_name(self.definitions.alloc(), word)?;
        if self.index_at(folded.as_str(), scope)?.is_some() {
            return Ok(Some(key_with(folded, scope)));
        }
        Ok(None)
    }

    /// The name of the definition with this key, as it was given. None exactly where no definition has it. Where there is no
    /// memory for a key of the look-up, all keys are compared.
    pub fn name_of(&self, key: &NameKey) -> Option<&str>
        ensures { option_map (λ name. chars name.now) result
            ≡ name_of_key (definitions_scene self.now.definitions.now) key.now }
    {
        let definition = self.with_key(key)?;
        Some(definition.name())
    }

    /// The definition with this key.
    fn with_key(&self, key: &NameKey) -> Option<&Definition>
        ensures { option_map (λ d. d.now) result
            ≡ find (λ d. same_key (key_in d) key.now) self.now.definitions.now }
    {
        let place = self.place_of(key)?;
        definition_in(self.definitions.as_slice(), place)
    }

    /// The index, from 0, of the definition with this key. None exactly where no definition has it. Where there is no memory
    /// for a key of the look-up, all keys are compared.
    pub(crate) fn place_of(&self, key: &NameKey) -> Option<usize>
        ensures place { result ≡ index_with_key key.now self.now.definitions.now }

        // No two keys are equal.
        ensures differ { IsDistinct same_key (map key_in self.now.definitions.now) }
    {
        let definitions = self.definitions.in_order();
        match self.index_at(key.name.as_str(), key.scope) {
            Ok(place) => place,
            Err(_) => first_with_key(definitions, key),
        }
    }

    /// The index, from 0, of the definition with this folded name that is local to the sheet with this id, or to none.
    fn index_at(&self, folded: &str, scope: Option<u32>) -> Result<Option<usize>, OutOfMemory>
        ensures { IfOk result (λ place. place ≡ index_with_key
            (record { name = chars folded.now; scope = scope }) self.now.definitions.now) }
    {
        if self.is_past(scope) {
            return Ok(None);
        }
        let key = held_key(self.definitions.alloc(), folded, scope)?;
        Ok(self.places.get(&key).copied())
    }

    /// Whether it is the id of a sheet that is greater than each that a definition is local to.
    fn is_past(&self, scope: Option<u32>) -> bool
        ensures { result ≡ is_past (greatest (scopes_of self.now.definitions.now)) scope }
    {
        match scope {
            Some(id) => id > self.definitions.greatest_scope(),
            None => false,
        }
    }
}

/// It finds what is found where there are no sheets.
impl<'d> Finder for NamedDefinitions<'d> {
    ghost use Rattle.ic_definitions.specs.Named.{definitions_scene};

    ghost scene = { λ n. definitions_scene n.definitions.now };

    fn find_sheet(&self, _alloc: Global, _name: &str) -> Result<Option<u32>, OutOfMemory> {
        Ok(None)
    }

    fn find_name(
        &self,
        _alloc: Global,
        scope: Option<u32>,
        word: &str,
    ) -> Result<Option<NameKey>, OutOfMemory> {
        self.find(scope, word)
    }

    fn sheet_spelling(&self, _id: u32) -> Option<&str> {
        None
    }

    fn name_spelling(&self, key: &NameKey) -> Option<&str> {
        self.name_of(key)
    }
}

/// The definition at an index, from 0. None past the end.
fn definition_in(definitions: &[Definition], place: usize) -> Option<&Definition>
    ensures { option_map (λ d. d.now) result ≡ slice_get definitions.now place }
{
    definitions.get(place)
}

/// The index, from 0, of the first definition of an agreeing name that is local to the sheet with this id, or to none.
fn first_named(definitions: &[Definition], name: &str, scope: Option<u32>) -> Option<usize>
    ensures { result ≡ position (is_named (chars name.now) scope) definitions.now }
{
    definitions.iter().position(|definition| agree(definition.name(), name)
        && same_scope(definition.scope(), scope))
}

/// The index, from 0, of the first definition with this key.
fn first_with_key(definitions: &[Definition], key: &NameKey) -> Option<usize>
    ensures { result ≡ position (λ d. same_key (key_in d) key.now) definitions.now }
{
    definitions
        .iter()
        .position(|definition| same_key(definition.key(), key))
}
