//! Where a sheet or a definition is mentioned: in which cells, and in the bodies of which definitions.
ghost use Rattle.std.specs.Prelude.{◌≡◌, ◌++◌, false, flat_map, IfOk, OnOk};
ghost use Rattle.std.specs.List.{AllByRecursion};
ghost use Rattle.ic_pool.specs.Mentioning.{AreThosePassing};
ghost use Rattle.ic_changes.specs.Mentioning.{cells_passing, definition_passing, mentions, sites_passing};

use ic_definitions::{Definition, Definitions};
use ic_laws::{Boxed, Formula, NameKey, OutOfMemory};
use ic_parts::MentionSite;
use ic_parts::contents::Contents;
use ic_parts::sites::push_cells;
use ic_pool::{Pool, copy_key, mentions_name, mentions_sheet};
use ic_sheets::Sheet;
use std::alloc::Global;
use std::collections::BTreeSet;

/// What is looked for.
#[derive(Drop)]
pub enum Sought<'k> {
    /// The sheet with this id.
    Sheet(u32),
    /// The definition with this key.
    Name(&'k NameKey),
}

/// The cells and the definitions of these contents that mention what is looked for.
pub fn sites_in(
    alloc: Global,
    contents: &Contents,
    sought: &Sought<'_>,
) -> Result<Vec<MentionSite>, OutOfMemory>
    ensures { IfOk result (λ sites. sites.items ≡ sites_passing (mentions sought.now)
        contents.now.sheets contents.now.definitions) }
{
    let mut sites = Vec::new(alloc);
    push_sheets(&mut sites, contents.sheets.as_slice(), sought)?;
    push_mentioning(alloc, &mut sites, &contents.definitions, sought)?;
    Ok(sites)
}

/// Puts the cells of these sheets at the end.
fn push_sheets(
    sites: &mut Vec<MentionSite>,
    sheets: &[Boxed<Sheet>],
    sought: &Sought<'_>,
) -> Result<(), OutOfMemory>
    ensures { OnOk result (sites.new.items
        ≡ sites.old.items ++ flat_map (cells_passing (mentions sought.now)) sheets.now) }
{
    for sheet in sheets {
        push_sheet(sites, sheet.as_ref(), sought)?;
    }
    Ok(())
}

/// Puts the cells of a sheet at the end. Where no formula mentions it the cells aren't walked.
fn push_sheet(
    sites: &mut Vec<MentionSite>,
    sheet: &Sheet,
    sought: &Sought<'_>,
) -> Result<(), OutOfMemory>
    ensures { OnOk result (sites.new.items
        ≡ sites.old.items ++ cells_passing (mentions sought.now) sheet.now) }
{
    let places = places_in(&sheet.pool, sought)?;
    if !places.is_empty() {
        push_cells(sites, sheet.id, &places, sheet.grid.cells.as_map())?;
    }
    Ok(())
}

/// Puts the definitions at the end whose bodies mention it. Where none may the bodies aren't looked at.
fn push_mentioning(
    alloc: Global,
    sites: &mut Vec<MentionSite>,
    definitions: &Definitions,
    sought: &Sought<'_>,
) -> Result<(), OutOfMemory>
    ensures { OnOk result (sites.new.items ≡ sites.old.items
        ++ flat_map (definition_passing (mentions sought.now)) definitions.now) }
{
    if !may_mention(definitions, sought) {
        return Ok(());
    }
    push_definitions(alloc, sites, definitions.as_slice(), sought)
}

/// Whether a body may mention it: where not, none does.
fn may_mention(definitions: &Definitions, sought: &Sought<'_>) -> bool
    ensures { result ≡ false → AllByRecursion
        (λ d. mentions sought.now d.body ≡ false) definitions.now }
{
    match sought {
        Sought::Sheet(id) => definitions.may_mention_sheet(*id),
        Sought::Name(key) => definitions.may_mention_name(key),
    }
}

/// Puts these definitions at the end, those whose bodies mention it.
fn push_definitions(
    alloc: Global,
    sites: &mut Vec<MentionSite>,
    definitions: &[Definition],
    sought: &Sought<'_>,
) -> Result<(), OutOfMemory>
    ensures { OnOk result (sites.new.items ≡ sites.old.items
        ++ flat_map (definition_passing (mentions sought.now)) definitions.now) }
{
    for definition in definitions {
        push_definition(alloc, sites, definition, sought)?;
    }
    Ok(())
}

/// Puts a definition at the end if its body mentions it.
fn push_definition(
    alloc: Global,
    sites: &mut Vec<MentionSite>,
    definition: &Definition,
    sought: &Sought<'_>,
) -> Result<(), OutOfMemory>
    ensures { OnOk result (sites.new.items
        ≡ sites.old.items ++ definition_passing (mentions sought.now) definition.now) }
{
    if is_mentioned(definition.body(), sought) {
        let key = copy_key(alloc, definition.key())?;
        sites.push(MentionSite::Definition(key))?;
    }
    Ok(())
}

/// The places of the formulas of a pool that mention it.
fn places_in(pool: &Pool, sought: &Sought<'_>) -> Result<BTreeSet<usize>, OutOfMemory>
    ensures { IfOk result (AreThosePassing (mentions sought.now) pool.now.formulas) }
{
    match sought {
        Sought::Sheet(id) => pool.places_of_sheet(*id),
        Sought::Name(key) => pool.places_of_name(key),
    }
}

/// Whether a formula mentions it.
fn is_mentioned(formula: &Formula, sought: &Sought<'_>) -> bool
    ensures { result ≡ mentions sought.now formula.now }
{
    match sought {
        Sought::Sheet(id) => mentions_sheet(formula, *id),
        Sought::Name(key) => mentions_name(formula, key),
    }
}
