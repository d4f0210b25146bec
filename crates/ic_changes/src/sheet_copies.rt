//! Copies of sheets.
ghost use Rattle.std.specs.Prelude.{◌≡◌, ◌<◌, ◌++◌, IfOk, OnErr, OnOk, Some, chars, false, length, map, nat_eq};
ghost use Rattle.std.specs.List.{AllByRecursion, IsDistinct, list_any, slice_get};
ghost use Rattle.ic_laws.specs.CoreStep.{is_named};
ghost use Rattle.ic_laws.specs.Name.{agrees};
ghost use Rattle.ic_laws.specs.Scene.{same_key};
ghost use Rattle.ic_tree.specs.LanguageWords.{function_of};
ghost use Rattle.ic_definitions.specs.Bodies.{FitsBodies, with_bodies};
ghost use Rattle.ic_definitions.specs.Named.{FindsNames, key_in, scopes_of};
ghost use Rattle.ic_sheets.specs.declared.sheet.Sheet.{Sheet as HeldSheet};
ghost use Rattle.ic_machine.specs.subjects.Sheets.{with_formula};
ghost use Rattle.ic_changes.specs.Copied.{HasCopy, filled_by, made_for};
ghost use Rattle.ic_parts.specs.Names.{IsIndexed};

pub mod definitions;
pub mod filling;
pub mod mentions;

use crate::sheet_copies::definitions::{copied_definitions, put_bodies};
use crate::sheet_copies::filling::{Filling, copied_bodies, filling_of};
use ic_definitions::{BodyRewrites, BothDefinitions, Definitions, NamedDefinitions};
use ic_laws::{Formula, OutOfMemory};
use ic_parts::NameIndex;
use ic_parts::contents::Contents;
use ic_parts::scene::SceneOver;
use ic_pool::SheetNamed;
use ic_tables::Language;
use std::alloc::Global;
use std::collections::BTreeMap;

/// Puts a copy of the sheet at an index, from 0, in directly after it, with this id and this name, and the definitions that
/// are copied with it at the end. `OutOfMemory` changes nothing.
pub fn copy_sheet(
    alloc: Global,
    contents: &mut Contents,
    names: &mut NameIndex,
    english: &Language,
    index: usize,
    id: u32,
    name: &str,
) -> Result<(), OutOfMemory>
    requires indexed { IsIndexed names.old contents.old.sheets contents.old.definitions }
    requires within { index < length contents.old.sheets }
    requires free { list_any (agrees (chars name.now))
        (map (λ s. s.name) contents.old.sheets) ≡ false }
    requires fresh { list_any (nat_eq id) (map (λ s. s.id) contents.old.sheets) ≡ false }
    requires unscoped { list_any (nat_eq id) (scopes_of contents.old.definitions) ≡ false }
    requires differ { IsDistinct same_key (map key_in contents.old.definitions) }
    ensures ok { OnOk result ((source : HeldSheet)
        → slice_get contents.old.sheets index ≡ Some source
        → HasCopy (function_of english.now) index id (chars name.now) source contents.old
        contents.new) }
    ensures err { OnErr result (contents.new ≡ contents.old) }
    ensures indexed { IsIndexed names.new contents.new.sheets contents.new.definitions }
{
    let source = contents.sheets.as_slice()[index].as_ref().id;
    let named = NamedDefinitions {
        definitions: &contents.definitions,
        places: &names.names,
    };
    let (copies, places) = copied_definitions(alloc, &named, source, id)?;
    let copied = NamedDefinitions {
        definitions: &copies,
        places: &places,
    };
    let both = BothDefinitions::new(named, copied);
    let change = SheetNamed {
        id,
        name,
        definitions: &both,
    };
    let bodies = contents.definitions.prepare_dangling(&change)?;
    let place = index + 1;
    let prepared = contents
        .sheets
        .insert_unapplied(&mut names.sheets, place, id, name, &both)?;
    match add_copies(
        alloc, contents, names, english, index, id, copies, places, bodies,
    ) {
        Ok(filling) => {
            contents.sheets.apply(prepared);
            filling.put(&mut contents.sheets, place);
            Ok(())
        }
        Err(error) => {
            contents.sheets.take_out(&mut names.sheets, place);
            Err(error)
        }
    }
}

/// Adds the definitions that are copied with the sheet at an index, from 0, at the end, as its copy has them, which stands
/// already and has this id; gives the others the bodies that were prepared, and answers what the copy is to hold.
/// `OutOfMemory` changes nothing.
fn add_copies(
    alloc: Global,
    contents: &mut Contents,
    names: &mut NameIndex,
    english: &Language,
    index: usize,
    id: u32,
    mut copies: Definitions,
    places: BTreeMap<(String, Option<u32>), usize>,
    bodies: BodyRewrites,
) -> Result<Filling, OutOfMemory>
    requires indexed { IsIndexed names.old contents.old.sheets contents.old.definitions }
    requires copied { FindsNames places copies }
    requires within { index < length contents.old.sheets }
    requires apart { AllByRecursion (λ d. list_any (is_named d.name d.scope)
        contents.old.definitions ≡ false) copies }
    requires fits { FitsBodies bodies contents.old.definitions }
    ensures filling { IfOk result (λ filling. (source : HeldSheet)
        → slice_get contents.old.sheets index ≡ Some source
        → filling ≡ filled_by (made_for (function_of english.now) contents.old.sheets
        (contents.old.definitions ++ copies) source.id id) source) }
    ensures definitions { OnOk result ((source : HeldSheet)
        → slice_get contents.old.sheets index ≡ Some source
        → contents.new.definitions ≡ with_bodies bodies.bodies.items contents.old.definitions
        ++ map (with_formula (made_for (function_of english.now) contents.old.sheets
        (contents.old.definitions ++ copies) source.id id)) copies) }
    ensures sheets { OnOk result (contents.new.sheets ≡ contents.old.sheets) }
    ensures err { OnErr result (contents.new ≡ contents.old) }
    ensures indexed { IsIndexed names.new contents.new.sheets contents.new.definitions }
    ensures numbers { names.new.numbers ≡ names.old.numbers }
{
    let copied = NamedDefinitions {
        definitions: &copies,
        places: &places,
    };
    let (filling, own_bodies) = made_for(alloc, contents, names, english, index, id, &copied)?;
    drop(places);
    put_bodies(&mut copies, own_bodies);
    contents
        .definitions
        .append(&mut names.names, copies, bodies)?;
    Ok(filling)
}

/// What the copy of the sheet at an index, from 0, is to hold, and the bodies of the definitions that are copied with it. The
/// copy stands already and has this id.
fn made_for(
    alloc: Global,
    contents: &Contents,
    names: &NameIndex,
    english: &Language,
    index: usize,
    id: u32,
    copies: &NamedDefinitions,
) -> Result<(Filling, Vec<Formula>), OutOfMemory>
    requires indexed { IsIndexed names.now contents.now.sheets contents.now.definitions }
    requires within { index < length contents.now.sheets }
    ensures filling { IfOk result (λ made. (source : HeldSheet)
        → slice_get contents.now.sheets index ≡ Some source
        → made.0 ≡ filled_by (made_for (function_of english.now) contents.now.sheets
        (contents.now.definitions ++ copies.now.definitions.now) source.id id) source) }
    ensures bodies { IfOk result (λ made. (source : HeldSheet)
        → slice_get contents.now.sheets index ≡ Some source
        → made.1.items ≡ map (λ d. made_for (function_of english.now) contents.now.sheets
        (contents.now.definitions ++ copies.now.definitions.now) source.id id d.body)
        copies.now.definitions.now) }
{
    let named = NamedDefinitions {
        definitions: &contents.definitions,
        places: &names.names,
    };
    let both = BothDefinitions::new(named, *copies);
    let after = SceneOver::new(&contents.sheets, &names.sheets, &both);
    let source = contents.sheets.as_slice()[index].as_ref();
    let list = copies.definitions.as_slice();
    let bodies = copied_bodies(alloc, &after, english, source.id, id, list)?;
    let filling = filling_of(alloc, &after, english, source, id)?;
    Ok((filling, bodies))
}
