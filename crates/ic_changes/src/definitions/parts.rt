//! Definitions come and go in a book. What that does to the formulas of its sheets is prepared before, and applied after.
ghost use Rattle.std.specs.Prelude.{◌≡◌, ◌<◌, ◌++◌, [], ◌∷◌, IfOk, None, OnErr, OnOk, Some, false, length, map, remove};
ghost use Rattle.std.specs.List.{AllByRecursion, list_any, slice_get};
ghost use Rattle.ic_laws.specs.BookTrees.{with_body_tree};
ghost use Rattle.ic_laws.specs.Changes.{changed_tree, definition_added, definition_gone, sheet_gone};
ghost use Rattle.ic_laws.specs.CoreBook as core;
ghost use Rattle.ic_laws.specs.CoreBook.{spelling_of};
ghost use Rattle.ic_laws.specs.CoreStep.{is_named};
ghost use Rattle.ic_definitions.specs.Bodies.{FitsBodies, StaysWhereFound, with_bodies};
ghost use Rattle.ic_definitions.specs.Named.{FindsNames, definitions_scene};
ghost use Rattle.ic_sheets.specs.Rewriting.{changed_pool, look_ups, looks_up_after, sheets_of};
ghost use Rattle.ic_sheets.specs.declared.sheet.Sheet.{Sheet};

use ic_definitions::{BodyRewrites, Definition, NamedDefinitions};
use ic_laws::OutOfMemory;
use ic_parts::contents::Contents;
use ic_pool::{DefinitionAdded, DefinitionGone, SheetGone};
use std::collections::BTreeMap;

/// Adds a definition at the end. Words that could mean it do, with their sheets or without. Where it is local to no sheet, a
/// body in which all was found must be one that it leaves.
pub fn add_definition(
    contents: &mut Contents,
    places: &mut BTreeMap<(String, Option<u32>), usize>,
    definition: Definition,
) -> Result<(), OutOfMemory>
    requires finds { FindsNames places.old contents.old.definitions }
    requires free { list_any (is_named definition.name definition.scope)
        contents.old.definitions ≡ false }
    requires spares { definition.scope ≡ None → AllByRecursion (StaysWhereFound (definition_added
        (spelling_of definition))) contents.old.definitions }
    ensures sheets { OnOk result (sheets_of contents.new.sheets
        ≡ map (changed_pool (definition_added
        (spelling_of definition))) (sheets_of contents.old.sheets)) }
    ensures looks_up { OnOk result (look_ups contents.new.sheets
        ≡ map (looks_up_after (definition_added (spelling_of definition))) contents.old.sheets) }
    ensures definitions { OnOk result (contents.new.definitions
        ≡ map (with_body_tree (changed_tree (definition_added (spelling_of definition))))
        contents.old.definitions ++ definition ∷ []) }
    ensures err { OnErr result (contents.new ≡ contents.old) }
    ensures finds { FindsNames places.new contents.new.definitions }
{
    let added = DefinitionAdded::new(definition.name(), definition.key());
    let formulas = contents.sheets.prepare_added(&added)?;
    contents.definitions.add(places, definition)?;
    contents.sheets.apply(formulas);
    Ok(())
}

/// Takes the definition at an index away, from 0. Words that meant it mean the one of an agreeing name that is local to none,
/// or dangle by its name.
pub fn delete_at(
    contents: &mut Contents,
    places: &mut BTreeMap<(String, Option<u32>), usize>,
    index: usize,
) -> Result<(), OutOfMemory>
    requires finds { FindsNames places.old contents.old.definitions }
    requires within { index < length contents.old.definitions }
    ensures sheets { OnOk result ((d : core.Definition)
        → slice_get contents.old.definitions index ≡ Some d
        → sheets_of contents.new.sheets ≡ map (changed_pool (definition_gone
        (definitions_scene (remove contents.old.definitions index)) (spelling_of d)))
        (sheets_of contents.old.sheets)) }
    ensures looks_up { OnOk result ((d : core.Definition)
        → slice_get contents.old.definitions index ≡ Some d
        → look_ups contents.new.sheets ≡ map (looks_up_after (definition_gone
        (definitions_scene (remove contents.old.definitions index)) (spelling_of d)))
        contents.old.sheets) }
    ensures definitions { OnOk result ((d : core.Definition)
        → slice_get contents.old.definitions index ≡ Some d
        → contents.new.definitions ≡ remove (map (with_body_tree (changed_tree (definition_gone
        (definitions_scene (remove contents.old.definitions index)) (spelling_of d))))
        contents.old.definitions) index) }
    ensures err { OnErr result (contents.new ≡ contents.old) }
    ensures finds { FindsNames places.new contents.new.definitions }
{
    let becomes = contents.definitions.mention_without(places, index)?;
    let definition = &contents.definitions.as_slice()[index];
    let gone = DefinitionGone {
        key: definition.key(),
        name: definition.name(),
        becomes: &becomes,
    };
    let formulas = contents.sheets.prepare(&gone)?;
    contents.definitions.delete(places, index)?;
    contents.sheets.apply(formulas);
    Ok(())
}

/// What the bodies of definitions become where the sheet at an index, from 0, goes.
pub fn bodies_without(
    contents: &Contents,
    places: &BTreeMap<(String, Option<u32>), usize>,
    index: usize,
) -> Result<BodyRewrites, OutOfMemory>
    requires finds { FindsNames places.now contents.now.definitions }
    requires within { index < length contents.now.sheets }
    ensures made { IfOk result (λ w. (sheet : Sheet)
        → slice_get contents.now.sheets index ≡ Some sheet
        → with_bodies w.bodies.items contents.now.definitions ≡ map (with_body_tree
        (changed_tree (sheet_gone (definitions_scene contents.now.definitions) sheet.id
        sheet.name))) contents.now.definitions) }
    ensures fits { IfOk result (λ w. FitsBodies w contents.now.definitions) }
{
    let sheet = contents.sheets.as_slice()[index].as_ref();
    let definitions = NamedDefinitions {
        definitions: &contents.definitions,
        places,
    };
    let gone = SheetGone {
        id: sheet.id,
        name: sheet.name.as_str(),
        definitions: &definitions,
    };
    contents.definitions.prepare(&gone)
}
