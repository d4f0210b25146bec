//! The sheets that stand while a book is rebuilt.
ghost use Rattle.std.specs.Prelude.{◌≡◌, ◌++◌, [], ◌∷◌, ℕ, IfOk, OnOk, Some, cond, map, nat_eq, option_map, zip};
ghost use Rattle.std.specs.BTreeMap.{get};
ghost use Rattle.std.specs.List.{slice_get};
ghost use Rattle.std.specs.Option.{option_copied, option_or, option_to_list};
ghost use Rattle.std.specs.Ordering.{nat_cmp};
ghost use Rattle.ic_parts.specs.Book.{core_of};
ghost use Rattle.ic_workbooks.specs.Workbook.{defined_name_of};
ghost use Rattle.ic_dump.specs.Passing.{sheet_named, standing_sheets};
ghost use Rattle.ic_dump.specs.Records.{AreFound, core_seen};
ghost use Rattle.ic_dump.specs.Stages.{HasFewNames};

use crate::passing::free_numerals;
use crate::scopes::passing_ids;
use crate::sheets::SheetSeen;
use crate::taken::taken_names;
use ic_book::Model;
use ic_cells::DefinedName;
use ic_laws::{OutOfMemory, SheetName, Text};
use std::alloc::Global;
use std::collections::BTreeMap;

/// The sheets that stand while a book is rebuilt, and the index of each by its id.
#[derive(Drop)]
pub(crate) struct Standing {
    pub(crate) sheets: Vec<SheetName>,
    pub(crate) indexes: BTreeMap<u32, usize>,
}

/// The sheets of a book, given these and its definitions, and then the passing ones. Only memory can be missing.
pub(crate) fn standing_sheets(
    alloc: Global,
    model: &Model<'_>,
    sheets: &[SheetSeen<'_>],
    definitions: &[DefinedName],
) -> Result<Standing, OutOfMemory>
    requires sheets { map core_seen sheets.now ≡ (core_of model.now.book).sheets }
    requires definitions { definitions.now
        ≡ map (defined_name_of model.now.book) model.now.book.definitions }
    ensures sheets { IfOk result (λ standing. standing.sheets.items
        ≡ standing_sheets (core_of model.now.book)) }
    ensures found { IfOk result (λ standing.
        AreFound standing.indexes standing.sheets.items) }

    // What the law on these lines asks of the names.
    ensures few { OnOk result (HasFewNames (core_of model.now.book)) }
{
    let ids = passing_ids(alloc, sheets, definitions)?;
    let mut standing = own_sheets(alloc, sheets)?;
    if ids.is_empty() {
        return Ok(standing);
    }
    let taken = taken_names(alloc, model, sheets, definitions.len())?;
    let names = free_numerals(alloc, ids.len(), taken.as_slice())?;
    push_named(alloc, &mut standing, ids.as_slice(), names.as_slice())?;
    Ok(standing)
}

/// The sheets of a book.
fn own_sheets(alloc: Global, sheets: &[SheetSeen<'_>]) -> Result<Standing, OutOfMemory>
    ensures sheets { IfOk result (λ standing.
        standing.sheets.items ≡ map (λ s. s.name.now) sheets.now) }
    ensures found { IfOk result (λ standing.
        AreFound standing.indexes standing.sheets.items) }
{
    let mut standing = Standing {
        sheets: Vec::new(alloc),
        indexes: BTreeMap::new(alloc),
    };
    for sheet in sheets {
        push_sheet(alloc, &mut standing, sheet.name.id, &sheet.name.name)?;
    }
    Ok(standing)
}

/// Gives an id this index, where it has none.
fn put_index(indexes: &mut BTreeMap<u32, usize>, id: u32, index: usize) -> Result<(), OutOfMemory>
    ensures { OnOk result ((other : ℕ) → get nat_cmp indexes.new other
        ≡ option_or (get nat_cmp indexes.old other) (cond (nat_eq id other) (Some index) None)) }
{
    if !indexes.contains_key(&id) {
        indexes.insert(id, index)?;
    }
    Ok(())
}

/// Puts sheets with these ids and names at the end, as many as there are of both.
fn push_named(
    alloc: Global,
    standing: &mut Standing,
    ids: &[u32],
    names: &[Text],
) -> Result<(), OutOfMemory>
    requires { AreFound standing.old.indexes standing.old.sheets.items }
    ensures sheets { OnOk result (standing.new.sheets.items
        ≡ standing.old.sheets.items ++ map sheet_named (zip ids.now names.now)) }
    ensures found { OnOk result
        (AreFound standing.new.indexes standing.new.sheets.items) }
{
    for (index, id) in ids.iter().enumerate() {
        push_if_named(alloc, standing, *id, name_at(names, index))?;
    }
    Ok(())
}

/// The name at an index. None past the end.
fn name_at(names: &[Text], index: usize) -> Option<&Text>
    ensures { option_copied result ≡ slice_get names.now index }
{
    names.get(index)
}

/// Puts a sheet with this id at the end, where there is a name for it.
fn push_if_named(
    alloc: Global,
    standing: &mut Standing,
    id: u32,
    name: Option<&Text>,
) -> Result<(), OutOfMemory>
    requires { AreFound standing.old.indexes standing.old.sheets.items }
    ensures sheets { OnOk result (standing.new.sheets.items ≡ standing.old.sheets.items
        ++ option_to_list (option_map (λ n. sheet_named (id, n)) (option_copied name.entry))) }
    ensures found { OnOk result
        (AreFound standing.new.indexes standing.new.sheets.items) }
{
    match name {
        Some(name) => push_sheet(alloc, standing, id, name),
        None => Ok(()),
    }
}

/// Puts a sheet with this id and this name at the end.
fn push_sheet(
    alloc: Global,
    standing: &mut Standing,
    id: u32,
    name: &Text,
) -> Result<(), OutOfMemory>
    requires { AreFound standing.old.indexes standing.old.sheets.items }
    ensures sheets { OnOk result (standing.new.sheets.items
        ≡ standing.old.sheets.items ++ sheet_named (id, name.now) ∷ []) }
    ensures found { OnOk result
        (AreFound standing.new.indexes standing.new.sheets.items) }
{
    let name = Text::from_str(alloc, name.as_str())?;
    put_index(&mut standing.indexes, id, standing.sheets.len())?;
    standing.sheets.push(SheetName { id, name })?;
    Ok(())
}
