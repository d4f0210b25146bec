//! What an update of a definition makes of all formulas. It is prepared before anything changes.
ghost use Rattle.std.specs.Prelude.{◌≡◌, ◌<◌, IfOk, OnErr, OnOk, chars, false, length, map, remove};
ghost use Rattle.std.specs.List.{list_any};
ghost use Rattle.ic_laws.specs.Binding.{bound};
ghost use Rattle.ic_laws.specs.CoreStep.{updated_at};
ghost use Rattle.ic_laws.specs.Name.{fold};
ghost use Rattle.ic_laws.specs.Scene.{key_of, same_key};
ghost use Rattle.ic_laws.specs.declared.tree.Formula.TheVariants as formulas;
ghost use Rattle.ic_tree.specs.LanguageWords.{function_of};
ghost use Rattle.ic_pool.specs.Topics.{folded_topic};
ghost use Rattle.ic_definitions.specs.Bodies.{FitsBodies, with_bodies};
ghost use Rattle.ic_definitions.specs.Named.{FindsNames, key_in};
ghost use Rattle.ic_sheets.specs.Rewriting.{FitOwn, with_own_rewrites};
ghost use Rattle.ic_machine.specs.Capture.{has_sites};
ghost use Rattle.ic_parts.specs.Names.{IsIndexed};
ghost use Rattle.ic_parts.specs.Scene.{scene_of_parts, scene_renamed};
ghost use Rattle.ic_parts.specs.Sites.{kept_where_touched, site_of};
ghost use Rattle.ic_changes.specs.Updated.{IsPrepared, LeavesAll, captures_by, captures_some, keys_named, rule_of_update};

use crate::definitions::update::CheckedUpdate;
use caseless::default_case_fold_str;
use ic_definitions::{BodyRewrites, Definition, NamedDefinitions, UpdatedDefinitions};
use ic_keep::{KeyChange, is_touched, keep_formula, would_capture};
use ic_laws::{Formula, Items, NameKey, OutOfMemory, Text};
use ic_parts::contents::Contents;
use ic_parts::scene::{BookScene, SceneOver};
use ic_parts::sites::sites_of_update;
use ic_parts::{MentionSite, NameIndex};
use ic_pool::{FormulaTest, Remaking, Rewrites, folded_topic};
use ic_tables::Language;
use ic_tree::bind;
use std::alloc::Global;
use std::collections::BTreeMap;

/// How an update makes the formulas of a book anew: those with a word that means the definition, or could mean it then, are
/// kept over it.
#[derive(Drop)]
pub struct Updating<'u> {
    before: BookScene<'u>,
    after: SceneOver<'u, UpdatedDefinitions<'u>>,
    change: &'u KeyChange,
    new_name: &'u str,
    english: &'u Language,
    ghost own: { change.now.new.name ≡ fold (chars new_name.now) },
}

impl<'u> Updating<'u> {
    /// The update that gives a definition of a book this other name and these keys, where `definitions` are those that are
    /// found then.
    fn new(
        contents: &'u Contents,
        names: &'u NameIndex,
        definitions: &'u UpdatedDefinitions<'u>,
        new_name: &'u str,
        change: &'u KeyChange,
        english: &'u Language,
    ) -> Updating<'u>
        requires indexed { IsIndexed names.now contents.now.sheets contents.now.definitions }
        requires named { change.now.new.name ≡ fold (chars new_name.now) }
        ensures made { ⟦<Updating<'u> as Remaking>⟧.made result ≡ kept_where_touched
            (function_of english.now)
            (scene_of_parts contents.now.sheets contents.now.definitions)
            (scene_renamed contents.now.sheets definitions.now.definitions.definitions.now
            definitions.now.index (chars definitions.now.name.now) definitions.now.key.now.scope)
            change.now.old change.now.new }
        ensures captures { ⟦<Updating<'u> as FormulaTest>⟧.passing result ≡ captures_by
            (⟦<Updating<'u> as Remaking>⟧.made result) change.now }
    {
        Updating {
            before: BookScene::new(contents, names),
            after: SceneOver::new(&contents.sheets, &names.sheets, definitions),
            change,
            new_name,
            english,
        }
    }
}

impl<'u> Remaking for Updating<'u> {
    ghost use Rattle.std.specs.Prelude.{chars};
    ghost use Rattle.ic_tree.specs.LanguageWords.{function_of};
    ghost use Rattle.ic_parts.specs.Scene.{scene_of_parts, scene_renamed};
    ghost use Rattle.ic_parts.specs.Sites.{kept_where_touched};

    ghost made = { λ u. kept_where_touched (function_of u.english.now) (scene_of_parts u.before.sheets.now u.before.definitions.definitions.now) (scene_renamed u.after.sheets.now u.after.definitions.now.definitions.definitions.now u.after.definitions.now.index (chars u.after.definitions.now.name.now) u.after.definitions.now.key.now.scope) u.change.now.old u.change.now.new };

    fn topics(&self) -> (u64, u64) {
        topics_of(self.change)
    }

    fn touches(&self, _scope: Option<u32>, formula: &Formula) -> bool {
        is_touched(self.change, self.new_name, formula)
    }

    fn remade(
        &self,
        alloc: Global,
        scope: Option<u32>,
        formula: &Formula,
    ) -> Result<Formula, OutOfMemory> {
        keep_formula(
            alloc,
            &self.before,
            &self.after,
            Some(self.change),
            self.english,
            scope,
            formula,
        )
    }
}

impl<'u> FormulaTest for Updating<'u> {
    ghost use Rattle.std.specs.Prelude.{chars};
    ghost use Rattle.ic_tree.specs.LanguageWords.{function_of};
    ghost use Rattle.ic_parts.specs.Scene.{scene_of_parts, scene_renamed};
    ghost use Rattle.ic_parts.specs.Sites.{kept_where_touched};
    ghost use Rattle.ic_changes.specs.Updated.{captures_by};

    ghost passing = { λ u. captures_by (kept_where_touched (function_of u.english.now) (scene_of_parts u.before.sheets.now u.before.definitions.definitions.now) (scene_renamed u.after.sheets.now u.after.definitions.now.definitions.definitions.now u.after.definitions.now.index (chars u.after.definitions.now.name.now) u.after.definitions.now.key.now.scope) u.change.now.old u.change.now.new) u.change.now };

    fn topics(&self) -> (u64, u64) {
        topics_of(self.change)
    }

    fn passes(
        &self,
        alloc: Global,
        scope: Option<u32>,
        formula: &Formula,
    ) -> Result<bool, OutOfMemory> {
        if !is_touched(self.change, self.new_name, formula) {
            return Ok(false);
        }
        would_capture(
            alloc,
            &self.before,
            &self.after,
            self.change,
            self.english,
            scope,
            formula,
        )
    }
}

/// The topics of the name that a definition had, and of the one that it gets.
fn topics_of(change: &KeyChange) -> (u64, u64)
    ensures { result ≡ (folded_topic change.now.old.name, folded_topic change.now.new.name) }
{
    let old = folded_topic(change.old.name.as_str());
    let new = folded_topic(change.new.name.as_str());
    (old, new)
}

/// What an update makes of the formulas of each sheet and of the bodies of definitions, and where it would capture.
pub struct PreparedUpdate {
    pub formulas: Vec<(u32, Rewrites)>,
    pub bodies: BodyRewrites,
    pub sites: Vec<MentionSite>,
}

impl Drop for PreparedUpdate {
    fn drop(self) {
        let Self {
            formulas,
            bodies,
            sites,
        } = self;
        drop(formulas);
        drop(bodies);
        drop(sites);
    }
}

impl PreparedUpdate {
    /// Whether it would capture.
    pub fn captures(&self) -> bool
        ensures { result ≡ has_sites (map site_of self.now.sites.items) }
    {
        !self.sites.is_empty()
    }

    /// Where it would capture.
    pub fn into_sites(self) -> Items<MentionSite>
        ensures { result ≡ self.sites.items }
    {
        let Self {
            formulas,
            bodies,
            sites,
        } = self;
        drop(formulas);
        drop(bodies);
        Items::from(sites)
    }

    /// Puts a definition in the place of the one at an index, from 0, and gives all others what was prepared for them.
    /// `OutOfMemory` changes nothing.
    pub fn apply(
        self,
        contents: &mut Contents,
        places: &mut BTreeMap<(String, Option<u32>), usize>,
        index: usize,
        definition: Definition,
    ) -> Result<(), OutOfMemory>
        requires finds { FindsNames places.old contents.old.definitions }
        requires within { index < length contents.old.definitions }
        requires apart { list_any (same_key (key_in definition))
            (remove (map key_in contents.old.definitions) index) ≡ false }
        requires formulas { FitOwn self.formulas.items contents.old.sheets }
        requires bodies { FitsBodies self.bodies contents.old.definitions }
        ensures sheets { OnOk result (contents.new.sheets
            ≡ with_own_rewrites self.formulas.items contents.old.sheets) }
        ensures definitions { OnOk result (contents.new.definitions
            ≡ updated_at (λ d. definition) index
            (with_bodies self.bodies.bodies.items contents.old.definitions)) }
        ensures err { OnErr result (contents.new ≡ contents.old) }
        ensures finds { FindsNames places.new contents.new.definitions }
    {
        let Self {
            formulas,
            bodies,
            sites,
        } = self;
        drop(sites);
        contents
            .definitions
            .update(places, index, definition, bodies)?;
        contents.sheets.apply(formulas);
        Ok(())
    }
}

/// What an update makes of all formulas of a book: of the definition at an index, from 0, which gets another name and
/// another key. Nothing changes yet.
pub fn prepare_update(
    alloc: Global,
    contents: &Contents,
    names: &NameIndex,
    english: &Language,
    new_name: &str,
    change: &KeyChange,
    index: usize,
) -> Result<PreparedUpdate, OutOfMemory>
    requires indexed { IsIndexed names.now contents.now.sheets contents.now.definitions }
    requires named { change.now.new.name ≡ fold (chars new_name.now) }
    requires leaves { LeavesAll (rule_of_update (function_of english.now) contents.now index
        (chars new_name.now) change.now) contents.now }
    ensures { IfOk result (IsPrepared (rule_of_update (function_of english.now) contents.now index
        (chars new_name.now) change.now) change.now contents.now) }
{
    let named = NamedDefinitions {
        definitions: &contents.definitions,
        places: &names.names,
    };
    let definitions = UpdatedDefinitions::new(named, index, new_name, &change.new);
    let updating = Updating::new(contents, names, &definitions, new_name, change, english);
    let formulas = contents.sheets.prepare_remade(&updating)?;
    let bodies = contents.definitions.prepare_remade(&updating)?;
    let sites = sites_of_update(alloc, contents, change, &formulas, &bodies)?;
    Ok(PreparedUpdate {
        formulas,
        bodies,
        sites,
    })
}

/// Whether an update may capture: whether it captures a word of some formula, whether a cell has it or not, or of some body,
/// that of its definition too. Where it doesn't, it captures nothing. Nothing is copied but parts that call a word or have
/// variables.
pub fn may_capture(
    contents: &Contents,
    names: &NameIndex,
    english: &Language,
    new_name: &str,
    change: &KeyChange,
    index: usize,
) -> Result<bool, OutOfMemory>
    requires indexed { IsIndexed names.now contents.now.sheets contents.now.definitions }
    requires named { change.now.new.name ≡ fold (chars new_name.now) }
    ensures { IfOk result (λ may. may ≡ captures_some (rule_of_update (function_of english.now)
        contents.now index (chars new_name.now) change.now) change.now contents.now) }
{
    let named = NamedDefinitions {
        definitions: &contents.definitions,
        places: &names.names,
    };
    let definitions = UpdatedDefinitions::new(named, index, new_name, &change.new);
    let updating = Updating::new(contents, names, &definitions, new_name, change, english);
    Ok(contents.sheets.has_passing(&updating)? || contents.definitions.has_passing(&updating)?)
}

/// The definition that an update gives, whose body is bound where it has its new name.
pub fn updated_definition(
    alloc: Global,
    contents: &Contents,
    names: &NameIndex,
    english: &Language,
    new_name: &str,
    key: &NameKey,
    checked: &CheckedUpdate,
) -> Result<Definition, OutOfMemory>
    requires indexed { IsIndexed names.now contents.now.sheets contents.now.definitions }
    requires key { key.now ≡ key_of (record {
      name = chars new_name.now;
      scope = checked.now.new_scope;
    }) }
    ensures { IfOk result (λ d. d ≡ record {
      name = chars new_name.now;
      scope = checked.now.new_scope;
      has_equals = checked.now.body.has_equals;
      body = formulas.Tree (bound (function_of english.now) (scene_renamed contents.now.sheets
          contents.now.definitions checked.now.index (chars new_name.now) checked.now.new_scope)
          checked.now.new_scope checked.now.body.tree);
    }) }
{
    let named = NamedDefinitions {
        definitions: &contents.definitions,
        places: &names.names,
    };
    let definitions = UpdatedDefinitions::new(named, checked.index, new_name, key);
    let scene = SceneOver::new(&contents.sheets, &names.sheets, &definitions);
    let scope = checked.new_scope;
    let tree = bind(alloc, &scene, english, scope, &checked.body.tree)?;
    Definition::new(
        alloc,
        new_name,
        scope,
        checked.body.has_equals,
        Formula::Tree(tree),
    )
}

/// The keys of a definition before and after an update.
pub fn keys_of_update(
    alloc: Global,
    name: &str,
    new_name: &str,
    checked: &CheckedUpdate,
) -> Result<KeyChange, OutOfMemory>
    ensures { IfOk result (λ keys. keys
        ≡ keys_named (chars name.now) (chars new_name.now) checked.now) }
{
    let old = key_named(alloc, name, checked.old_scope)?;
    let new = key_named(alloc, new_name, checked.new_scope)?;
    Ok(KeyChange { old, new })
}

/// The key of a definition of this name and this scope.
fn key_named(alloc: Global, name: &str, scope: Option<u32>) -> Result<NameKey, OutOfMemory>
    ensures { IfOk result (λ key. key ≡ key_of (record { name = chars name.now; scope = scope })) }
{
    let folded = Text::from(default_case_fold_str(alloc, name)?);
    Ok(NameKey {
        name: folded,
        scope,
    })
}
