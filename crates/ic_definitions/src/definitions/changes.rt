//! Definitions come and go, and what their bodies mention changes.
ghost use Rattle.std.specs.Prelude.{◌≡◌, ◌<◌, ◌≤◌, ◌++◌, [], ◌∷◌, IfOk, None, OnErr, OnOk, Some, cond, false, length, map, max, option_map, option_to_list, remove, take};
ghost use Rattle.std.specs.List.{AllByRecursion, IsDistinct, list_any, slice_get};
ghost use Rattle.ic_laws.specs.BookTrees.{with_body_tree};
ghost use Rattle.ic_laws.specs.Changes.{changed_tree, definition_added, definition_gone};
ghost use Rattle.ic_laws.specs.CoreBook as core;
ghost use Rattle.ic_laws.specs.CoreStep.{is_named, updated_at};
ghost use Rattle.ic_laws.specs.Greatest.{greatest};
ghost use Rattle.ic_laws.specs.Scene.{same_key};
ghost use Rattle.ic_laws.specs.declared.tree.NameKey.{NameKey};
ghost use Rattle.ic_definitions.specs.Bodies.{FitsBodies, StaysWhereFound, with_bodies};
ghost use Rattle.ic_definitions.specs.Named.{FindsNames, IsHeldKey, StillFinds, definitions_scene, index_with_key, is_held_key, key_in, lowered, place_at, raised, scopes_of};

use super::Definitions;
use crate::definition::held_key;
use crate::{BodyRewrites, Definition};
use ic_laws::{Formula, OutOfMemory};
use ic_pool::has_dangling;
use std::alloc::Global;
use std::collections::BTreeMap;

/// To find the place of a definition by its key costs about as much as to go over this many places: 85 were measured among
/// 10,000 definitions, where the processor holds them at hand, and 36 among 100,000.
const PLACES_PER_SEARCH: usize = 64;

impl Definitions {
    /// Gives the definitions the bodies that were prepared.
    pub fn apply(&mut self, rewrites: BodyRewrites)
        requires { FitsBodies rewrites self.old }
        ensures bodies { self.new ≡ with_bodies rewrites.bodies.items self.old }

        // What finds them by their keys still does.
        ensures finds { StillFinds self.old self.new }
    {
        self.may_dangle = rewrites.may_dangle;
        self.mentioned.note_all(rewrites.bodies());
        rewrites.put(&mut self.list);
        self.mentioned.renew(&self.list);
    }

    /// Adds a definition at the end. Words of the bodies that found nothing, and could mean it, do, with their sheets or
    /// without. Where it is local to a sheet, so do words of that sheet's definitions that meant the one of an agreeing name
    /// without scope. Where it is local to none, a body in which all was found must be one that it leaves. `OutOfMemory`
    /// changes nothing.
    pub fn add(
        &mut self,
        places: &mut BTreeMap<(String, Option<u32>), usize>,
        definition: Definition,
    ) -> Result<(), OutOfMemory>
        requires finds { FindsNames places.old self.old }
        requires free { list_any (is_named definition.name definition.scope) self.old ≡ false }
        requires spares { definition.scope ≡ None → AllByRecursion (StaysWhereFound
            (definition_added (core.spelling_of definition))) self.old }
        ensures ok { OnOk result (self.new ≡ map (with_body_tree (changed_tree (definition_added
            (core.spelling_of definition)))) self.old ++ definition ∷ []) }
        ensures err { OnErr result (self.new ≡ self.old) }
        ensures finds { FindsNames places.new self.new }
    {
        let bodies = self.prepare_added(&definition)?;
        self.add_prepared(places, definition, bodies)
    }

    /// Adds a definition at the end, and leaves the bodies of the others: a book that is handed in begins with all of its
    /// definitions. `OutOfMemory` changes nothing.
    pub fn add_leaving_bodies(
        &mut self,
        places: &mut BTreeMap<(String, Option<u32>), usize>,
        definition: Definition,
    ) -> Result<(), OutOfMemory>
        requires finds { FindsNames places.old self.old }
        requires free { list_any (is_named definition.name definition.scope) self.old ≡ false }
        ensures ok { OnOk result (self.new ≡ self.old ++ definition ∷ []) }
        ensures err { OnErr result (self.new ≡ self.old) }
        ensures finds { FindsNames places.new self.new }
    {
        let nothing = self.no_rewrites();
        self.add_prepared(places, definition, nothing)
    }

    /// Adds definitions at the end, in their order, and gives the others the bodies that were prepared. Their keys are made
    /// anew. `OutOfMemory` changes nothing.
    pub fn append(
        &mut self,
        places: &mut BTreeMap<(String, Option<u32>), usize>,
        more: Definitions,
        bodies: BodyRewrites,
    ) -> Result<(), OutOfMemory>
        requires finds { FindsNames places.old self.old }
        requires apart { AllByRecursion (λ d. list_any (is_named d.name d.scope) self.old ≡ false)
            more }
        requires fits { FitsBodies bodies self.old }
        ensures ok { OnOk result (self.new ≡ with_bodies bodies.bodies.items self.old ++ more) }
        ensures err { OnErr result (self.new ≡ self.old) }
        ensures finds { FindsNames places.new self.new }
    {
        let mut bodies = bodies;
        bodies.may_dangle |= more.may_dangle;
        let count = self.list.len();
        if let Err(error) = self.push_all(places, more.into_list()) {
            self.truncate(places, count);
            return Err(error);
        }
        self.apply(bodies);
        Ok(())
    }

    /// Puts a definition in the place of the one at an index, from 0, and gives the others the bodies that were prepared.
    /// `OutOfMemory` changes nothing.
    pub fn update(
        &mut self,
        places: &mut BTreeMap<(String, Option<u32>), usize>,
        index: usize,
        definition: Definition,
        bodies: BodyRewrites,
    ) -> Result<(), OutOfMemory>
        requires finds { FindsNames places.old self.old }
        requires within { index < length self.old }
        requires apart { list_any (same_key (key_in definition))
            (remove (map key_in self.old) index) ≡ false }
        requires fits { FitsBodies bodies self.old }
        ensures ok { OnOk result (self.new ≡ updated_at (λ d. definition) index
            (with_bodies bodies.bodies.items self.old)) }
        ensures err { OnErr result (self.new ≡ self.old) }
        ensures finds { FindsNames places.new self.new }
    {
        let old = key_in(self.alloc, &self.list[index])?;
        let new = key_in(self.alloc, &definition)?;
        replace_key(places, &old, new, index)?;
        let gone = scope_or_zero(&self.list[index]);
        let most = self.greatest.max(scope_or_zero(&definition));
        self.may_dangle = bodies.may_dangle | has_dangling(definition.body());
        self.mentioned.note_all(bodies.bodies());
        self.mentioned.note(definition.body());
        bodies.put(&mut self.list);
        self.list[index] = definition;
        self.greatest = greatest_left(&self.list, most, gone);
        self.mentioned.renew(&self.list);
        Ok(())
    }

    /// Gives the definition at an index, from 0, another body. It needs no memory.
    pub fn set_body(&mut self, index: usize, body: Formula)
        requires { index < length self.old }
        ensures bodies { self.new ≡ updated_at (λ d. record d { body = body }) index self.old }

        // What finds them by their keys still does.
        ensures finds { StillFinds self.old self.new }
    {
        self.may_dangle |= has_dangling(&body);
        self.mentioned.note(&body);
        let definition = &mut self.list[index];
        definition.set_body(body);
        self.mentioned.renew(&self.list);
    }

    /// Takes the definition at an index away, from 0. Words of the bodies that meant it mean what `mention_without` tells, and
    /// words with their sheets dangle by its name. `OutOfMemory` changes nothing.
    pub fn delete(
        &mut self,
        places: &mut BTreeMap<(String, Option<u32>), usize>,
        index: usize,
    ) -> Result<(), OutOfMemory>
        requires finds { FindsNames places.old self.old }
        requires within { index < length self.old }
        ensures ok { OnOk result ((d : core.Definition) → slice_get self.old index ≡ Some d
            → self.new ≡ remove (map (with_body_tree (changed_tree (definition_gone
            (definitions_scene (remove self.old index)) (core.spelling_of d)))) self.old) index) }
        ensures err { OnErr result (self.new ≡ self.old) }
        ensures finds { FindsNames places.new self.new }
    {
        let bodies = self.prepare_gone(places, index)?;
        self.delete_prepared(places, index, bodies)
    }

    /// Adds a definition at the end, and gives the others the bodies that were prepared.
    fn add_prepared(
        &mut self,
        places: &mut BTreeMap<(String, Option<u32>), usize>,
        definition: Definition,
        rewrites: BodyRewrites,
    ) -> Result<(), OutOfMemory>
        requires finds { FindsNames places.old self.old }
        requires free { list_any (is_named definition.name definition.scope) self.old ≡ false }
        requires fits { FitsBodies rewrites self.old }
        ensures ok { OnOk result (self.new ≡ with_bodies rewrites.bodies.items self.old
            ++ definition ∷ []) }
        ensures err { OnErr result (self.new ≡ self.old) }
        ensures finds { FindsNames places.new self.new }
    {
        let key = key_in(self.alloc, &definition)?;
        self.list.reserve(1)?;
        let place = self.list.len();
        places.insert(key, place)?;
        self.may_dangle = rewrites.may_dangle | has_dangling(definition.body());
        self.greatest = self.greatest.max(scope_or_zero(&definition));
        self.mentioned.note_all(rewrites.bodies());
        self.mentioned.note(definition.body());
        rewrites.put(&mut self.list);
        self.list.push_reserved(definition);
        Ok(())
    }

    /// Adds definitions at the end one after another, and leaves the bodies of the others. After `OutOfMemory` some of them
    /// stand there.
    fn push_all(
        &mut self,
        places: &mut BTreeMap<(String, Option<u32>), usize>,
        more: Vec<Definition>,
    ) -> Result<(), OutOfMemory>
        requires finds { FindsNames places.old self.old }
        requires apart { AllByRecursion (λ d. list_any (is_named d.name d.scope) self.old ≡ false)
            more.items }
        requires differ { IsDistinct same_key (map key_in more.items) }
        ensures ok { OnOk result (self.new ≡ self.old ++ more.items) }
        ensures err { OnErr result (take (length self.old) self.new ≡ self.old) }
        ensures finds { FindsNames places.new self.new }
    {
        for definition in more {
            self.add_leaving_bodies(places, definition)?;
        }
        Ok(())
    }

    /// Keeps as many definitions as this, the first ones. Where there are no more, all stay. It takes no memory.
    fn truncate(&mut self, places: &mut BTreeMap<(String, Option<u32>), usize>, count: usize)
        requires { FindsNames places.old self.old }
        ensures first { self.new ≡ take count self.old }
        ensures finds { FindsNames places.new self.new }
    {
        places.retain(|_, place| *place < count);
        self.list.truncate(count);
        self.greatest = greatest_of(&self.list, self.greatest);
    }

    /// The definitions in their order. No two have one key.
    fn into_list(self) -> Vec<Definition>
        ensures list { result.items ≡ self }
        ensures differ { IsDistinct same_key (map key_in self) }
    {
        let Self {
            alloc: _,
            list,
            greatest: _,
            may_dangle: _,
            mentioned: _,
        } = self;
        list
    }

    /// Takes the definition at an index away, and gives the others the bodies that were prepared.
    fn delete_prepared(
        &mut self,
        places: &mut BTreeMap<(String, Option<u32>), usize>,
        index: usize,
        rewrites: BodyRewrites,
    ) -> Result<(), OutOfMemory>
        requires finds { FindsNames places.old self.old }
        requires within { index < length self.old }
        requires fits { FitsBodies rewrites self.old }
        ensures ok { OnOk result (self.new ≡ remove (with_bodies rewrites.bodies.items self.old)
            index) }
        ensures err { OnErr result (self.new ≡ self.old) }
        ensures finds { FindsNames places.new self.new }
    {
        let mut key = key_in(self.alloc, &self.list[index])?;
        let gone = scope_or_zero(&self.list[index]);
        self.may_dangle = rewrites.may_dangle;
        self.mentioned.note_all(rewrites.bodies());
        rewrites.put(&mut self.list);
        places.remove(&key);
        self.list.remove(index);
        lower(places, &mut key, &self.list, index);
        self.greatest = greatest_left(&self.list, self.greatest, gone);
        self.mentioned.renew(&self.list);
        Ok(())
    }
}

/// The key of a definition in the look-up.
fn key_in(alloc: Global, definition: &Definition) -> Result<(String, Option<u32>), OutOfMemory>
    ensures { IfOk result (λ held. IsHeldKey (key_in definition.now) held) }
{
    let key = definition.key();
    held_key(alloc, key.name.as_str(), key.scope)
}

/// Puts a key in the place of another, at an index. Where they are equal, only that index is there. `OutOfMemory` changes
/// nothing.
fn replace_key(
    places: &mut BTreeMap<(String, Option<u32>), usize>,
    old: &(String, Option<u32>),
    new: (String, Option<u32>),
    index: usize,
) -> Result<(), OutOfMemory>
    ensures ok { OnOk result ((key : NameKey) → place_at places.new key
        ≡ cond (is_held_key key new) (Some index)
        (cond (is_held_key key old.now) None (place_at places.old key))) }
    ensures err { OnErr result ((key : NameKey) → place_at places.new key
        ≡ place_at places.old key) }
{
    let is_other = *old != new;
    places.insert(new, index)?;
    if is_other {
        places.remove(old);
    }
    Ok(())
}

/// These are the definitions after the one at this index, from 0, was taken away: those behind it stand one before. The
/// key is written over.
fn lower(
    places: &mut BTreeMap<(String, Option<u32>), usize>,
    key: &mut (String, Option<u32>),
    definitions: &[Definition],
    index: usize,
)
    requires differ { IsDistinct same_key (map key_in definitions.now) }
    requires within { index ≤ length definitions.now }
    requires before { (q : NameKey) → place_at places.old q
        ≡ option_map (raised index) (index_with_key q definitions.now) }
    ensures { FindsNames places.new definitions.now }
{
    let end = definitions.len();
    if end - index <= end / PLACES_PER_SEARCH {
        renumber(places, key, definitions, index);
    } else {
        lower_all(places, index);
    }
}

/// The same, by the keys of those that stand behind. Where there is no memory for one of them, all places are gone over.
fn renumber(
    places: &mut BTreeMap<(String, Option<u32>), usize>,
    key: &mut (String, Option<u32>),
    definitions: &[Definition],
    index: usize,
)
    requires differ { IsDistinct same_key (map key_in definitions.now) }
    requires within { index ≤ length definitions.now }
    requires before { (q : NameKey) → place_at places.old q
        ≡ option_map (raised index) (index_with_key q definitions.now) }
    ensures { FindsNames places.new definitions.now }
{
    for at in index..definitions.len() {
        let Ok(()) = write_key(key, &definitions[at]) else {
            lower_all(places, at);
            return;
        };
        replace_place(places, key, at);
    }
}

/// Writes the key of a definition over another. After `OutOfMemory` it isn't known what stands there.
fn write_key(key: &mut (String, Option<u32>), definition: &Definition) -> Result<(), OutOfMemory>
    ensures { OnOk result (IsHeldKey (key_in definition.now) key.new) }
{
    let wanted = definition.key();
    key.0.clear();
    key.0.push_str(wanted.name.as_str())?;
    key.1 = wanted.scope;
    Ok(())
}

/// Puts another index in at a key, where there is one.
fn replace_place(
    places: &mut BTreeMap<(String, Option<u32>), usize>,
    key: &(String, Option<u32>),
    index: usize,
)
    ensures { (q : NameKey) → place_at places.new q ≡ cond (is_held_key q key.now)
        (option_map (λ had. index) (place_at places.old q)) (place_at places.old q) }
{
    if let Some(place) = places.get_mut(key) {
        *place = index;
    }
}

/// All indexes after this one are lowered by one.
fn lower_all(places: &mut BTreeMap<(String, Option<u32>), usize>, index: usize)
    ensures { (key : NameKey) → place_at places.new key
        ≡ option_map (lowered index) (place_at places.old key) }
{
    places.retain(|_, place| {
        *place = lowered(*place, index);
        true
    });
}

/// An index, lowered by one where it is past this one.
fn lowered(place: usize, index: usize) -> usize
    ensures { result ≡ lowered index place }
{
    if place > index { place - 1 } else { place }
}

/// The id that a definition is local to, 0 where it is local to none.
fn scope_or_zero(definition: &Definition) -> u32
    ensures { result ≡ greatest (option_to_list definition.now.scope) }
{
    match definition.scope() {
        Some(id) => id,
        None => 0,
    }
}

/// The greatest id that one of these is local to, 0 where none is. None is greater than this one.
fn greatest_of(definitions: &[Definition], most: u32) -> u32
    requires { greatest (scopes_of definitions.now) ≤ most }
    ensures { result ≡ greatest (scopes_of definitions.now) }
{
    let mut found = 0;
    for definition in definitions {
        found = found.max(scope_or_zero(definition));
        if found == most {
            return most;
        }
    }
    found
}

/// The same where this one is the greatest of theirs and of one that went, which was local to the sheet with the id `gone`.
fn greatest_left(definitions: &[Definition], most: u32, gone: u32) -> u32
    requires { most ≡ max (greatest (scopes_of definitions.now)) gone }
    ensures { result ≡ greatest (scopes_of definitions.now) }
{
    if gone < most {
        return most;
    }
    greatest_of(definitions, most)
}
