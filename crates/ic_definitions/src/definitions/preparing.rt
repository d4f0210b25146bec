//! What changes do to the bodies of definitions, prepared before any of them changes.
ghost use Rattle.std.specs.Prelude.{◌≡◌, ◌<◌, ℕ, [], ◌∷◌, IfOk, None, Some, false, length, map, remove};
ghost use Rattle.std.specs.List.{AllByRecursion, slice_get};
ghost use Rattle.ic_laws.specs.Binding.{name_or_dangling};
ghost use Rattle.ic_laws.specs.BookTrees.{with_body_tree};
ghost use Rattle.ic_laws.specs.Changes.{changed_tree, definition_added, definition_gone};
ghost use Rattle.ic_laws.specs.CoreBook as core;
ghost use Rattle.ic_laws.specs.Scene.{found_name};
ghost use Rattle.ic_definitions.specs.Bodies.{FitsBodies, StaysWhereFound, with_bodies};
ghost use Rattle.ic_definitions.specs.Named.{FindsNames, definitions_scene};
ghost use Rattle.ic_definitions.specs.Remade.{remade_body, touched_bodies};
ghost use Rattle.ic_pool.specs.Mentioning.{mentions_name, mentions_sheet};
ghost use Rattle.ic_pool.specs.Remade.{LeavesUntouched};
ghost use Rattle.ic_pool.specs.Topics.{mentions_some};

use super::Definitions;
use crate::bodies::{rewrites_of, rewrites_remade};
use crate::{BodyRewrites, Definition, NamedDefinitions};
use ic_laws::{Boxed, NameKey, NameMention, OutOfMemory};
use ic_pool::{BookChange, DefinitionAdded, DefinitionGone, Remaking, folded_topic};
use std::collections::BTreeMap;

impl Definitions {
    /// What a change does to the bodies of all definitions, prepared before any of them changes. Where none mentions what it
    /// is about it looks at none.
    pub fn prepare<C: BookChange>(&self, change: &C) -> Result<BodyRewrites, OutOfMemory>
        ensures made { IfOk result (λ w. with_bodies w.bodies.items self.now
            ≡ map (with_body_tree (changed_tree (C.change change.now))) self.now) }
        ensures fits { IfOk result (λ w. FitsBodies w self.now) }
    {
        if !self.may_mention(change.topic()) {
            return Ok(self.no_rewrites());
        }
        rewrites_of(self.alloc, &self.list, change)
    }

    /// The same for a change that leaves each body in which all was found: where no body may dangle it looks at none.
    pub fn prepare_dangling<C: BookChange>(&self, change: &C) -> Result<BodyRewrites, OutOfMemory>
        requires { AllByRecursion (StaysWhereFound (C.change change.now)) self.now }
        ensures made { IfOk result (λ w. with_bodies w.bodies.items self.now
            ≡ map (with_body_tree (changed_tree (C.change change.now))) self.now) }
        ensures fits { IfOk result (λ w. FitsBodies w self.now) }
    {
        if !self.may_dangle {
            return Ok(self.no_rewrites());
        }
        self.prepare(change)
    }

    /// What becomes of the bodies of all definitions where they are made anew, if the rule leaves each that it doesn't touch.
    /// Where none mentions what the rule is about it looks at none.
    pub fn prepare_remade<R: Remaking>(&self, remaking: &R) -> Result<BodyRewrites, OutOfMemory>
        requires { AllByRecursion (λ d. LeavesUntouched (R.made remaking.now) d.scope d.body)
            self.now }
        ensures made { IfOk result (λ w. with_bodies w.bodies.items self.now
            ≡ map (remade_body (R.made remaking.now)) self.now) }
        ensures listed { IfOk result (λ w. w.bodies.items
            ≡ touched_bodies (R.made remaking.now) 0 self.now) }
        ensures fits { IfOk result (λ w. FitsBodies w self.now) }
    {
        if !self.may_mention_either(remaking.topics()) {
            return Ok(self.no_rewrites());
        }
        rewrites_remade(self.alloc, &self.list, remaking)
    }

    /// What a word that means the definition at an index, from 0, means without it: the one of an agreeing name that is local
    /// to none, or nothing, by its name.
    pub fn mention_without(
        &self,
        places: &BTreeMap<(String, Option<u32>), usize>,
        index: usize,
    ) -> Result<NameMention, OutOfMemory>
        requires finds { FindsNames places.now self.now }
        requires within { index < length self.now }
        ensures { IfOk result (λ mention. (d : core.Definition) → slice_get self.now index ≡ Some d
            → mention ≡ name_or_dangling d.name (found_name (definitions_scene
            (remove self.now index)) None d.name)) }
    {
        let definition = &self.as_slice()[index];
        match self.key_without(places, definition)? {
            Some(key) => Ok(NameMention::Name(Boxed::new(self.alloc, key)?)),
            None => Ok(NameMention::Dangling(Boxed::from_str(self.alloc, definition.name())?)),
        }
    }

    /// What a definition that comes does to the bodies.
    pub(super) fn prepare_added(&self, definition: &Definition) -> Result<BodyRewrites, OutOfMemory>
        requires { definition.now.scope ≡ None → AllByRecursion (StaysWhereFound
            (definition_added (core.spelling_of definition.now))) self.now }
        ensures made { IfOk result (λ w. with_bodies w.bodies.items self.now
            ≡ map (with_body_tree (changed_tree (definition_added
            (core.spelling_of definition.now)))) self.now) }
        ensures fits { IfOk result (λ w. FitsBodies w self.now) }
    {
        let added = DefinitionAdded::new(definition.name(), definition.key());
        match definition.scope() {
            None => self.prepare_dangling(&added),
            Some(_) => self.prepare(&added),
        }
    }

    /// What the definition at an index does to the bodies where it goes.
    pub(super) fn prepare_gone(
        &self,
        places: &BTreeMap<(String, Option<u32>), usize>,
        index: usize,
    ) -> Result<BodyRewrites, OutOfMemory>
        requires finds { FindsNames places.now self.now }
        requires within { index < length self.now }
        ensures made { IfOk result (λ w. (d : core.Definition) → slice_get self.now index ≡ Some d
            → with_bodies w.bodies.items self.now ≡ map (with_body_tree (changed_tree
            (definition_gone (definitions_scene (remove self.now index)) (core.spelling_of d))))
            self.now) }
        ensures fits { IfOk result (λ w. FitsBodies w self.now) }
    {
        let becomes = self.mention_without(places, index)?;
        let definition = &self.as_slice()[index];
        let gone = DefinitionGone {
            key: definition.key(),
            name: definition.name(),
            becomes: &becomes,
        };
        self.prepare(&gone)
    }

    /// The key that such a word finds without this definition, which is one of these.
    fn key_without(
        &self,
        places: &BTreeMap<(String, Option<u32>), usize>,
        definition: &Definition,
    ) -> Result<Option<NameKey>, OutOfMemory>
        requires { FindsNames places.now self.now }
        ensures { IfOk result (λ key. (index : ℕ) → slice_get self.now index ≡ Some definition.now
            → key ≡ found_name (definitions_scene (remove self.now index)) None
            definition.now.name) }
    {
        // What always holds of definitions is known from here on.
        let _ = &self.list;
        let named = NamedDefinitions {
            definitions: self,
            places,
        };
        match definition.scope() {
            Some(_) => named.key_at(None, definition.name()),
            None => Ok(None),
        }
    }

    /// Whether a body may mention the sheet with this id: where not, none does.
    pub fn may_mention_sheet(&self, id: u32) -> bool
        ensures { result ≡ false → AllByRecursion
            (λ d. mentions_sheet id d.body ≡ false) self.now }
    {
        self.may_mention(u64::from(id))
    }

    /// Whether a word of a body may mean the definition with this key: where not, none does.
    pub fn may_mention_name(&self, key: &NameKey) -> bool
        ensures { result ≡ false → AllByRecursion
            (λ d. mentions_name key.now d.body ≡ false) self.now }
    {
        self.may_mention(folded_topic(key.name.as_str()))
    }

    /// No body becomes another.
    pub(super) fn no_rewrites(&self) -> BodyRewrites
        ensures bodies { result.bodies.items ≡ [] }
        ensures fits { FitsBodies result self.now }
    {
        let mut nothing = BodyRewrites::new(self.alloc);
        nothing.may_dangle = self.may_dangle;
        nothing
    }

    /// Whether a body may mention something with this topic: where not, none does.
    fn may_mention(&self, topic: u64) -> bool
        ensures { result ≡ false → AllByRecursion
            (λ d. mentions_some (topic ∷ []) d.body ≡ false) self.now }
    {
        self.mentioned.may_have(topic)
    }

    /// The same of two topics.
    pub(super) fn may_mention_either(&self, topics: (u64, u64)) -> bool
        ensures { result ≡ false → AllByRecursion
            (λ d. mentions_some (topics.0 ∷ topics.1 ∷ []) d.body ≡ false) self.now }
    {
        self.mentioned.may_have(topics.0) || self.mentioned.may_have(topics.1)
    }
}
