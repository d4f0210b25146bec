//! The lines of a dump, stage by stage.
ghost use Rattle.std.specs.Prelude.{◌≡◌, ◌≤◌, ◌++◌, ◌-◌, [], ◌∷◌, List, IfOk, OnOk, chars, cond, filter, map, reverse, string_bytes, unwrap_or};
ghost use Rattle.std.specs.BTreeMap.{get};
ghost use Rattle.std.specs.List.{range_with_len};
ghost use Rattle.std.specs.Ordering.{nat_cmp};
ghost use Rattle.ic_laws.specs.declared.scene.SheetName.{SheetName};
ghost use Rattle.ic_dump.specs.Lines.{body_line, defining_line, deleting_line, inserting_line, inserting_lines_from, is_first, naming_line, scope_word};
ghost use Rattle.ic_dump.specs.Records.{AreFound, name_seen};

use crate::lines::{digits_of, line_of};
use crate::standing::Standing;
use ic_cells::DefinedName;
use ic_laws::{OutOfMemory, SheetName};
use ic_lines::Line;
use std::alloc::Global;
use std::collections::BTreeMap;

/// The id of a new book's sheet.
const FIRST_ID: u32 = 1;

/// Puts the line that names the sheet of a new book at the end.
pub(crate) fn push_naming(
    alloc: Global,
    lines: &mut Vec<Line>,
    sheets: &[SheetName],
) -> Result<(), OutOfMemory>
    ensures { OnOk result (lines.new.items
        ≡ lines.old.items ++ map naming_line (filter is_first sheets.now)) }
{
    for sheet in sheets {
        push_if_first(alloc, lines, sheet)?;
    }
    Ok(())
}

/// Puts it at the end where this is the sheet.
fn push_if_first(alloc: Global, lines: &mut Vec<Line>, sheet: &SheetName) -> Result<(), OutOfMemory>
    ensures { OnOk result (lines.new.items ≡ lines.old.items
        ++ cond (is_first sheet.now) (naming_line sheet.now ∷ []) []) }
{
    if sheet.id == FIRST_ID {
        lines.push(naming_line(alloc, sheet.name.as_str())?)?;
    }
    Ok(())
}

/// The line that gives the sheet of a new book this name.
fn naming_line(alloc: Global, name: &str) -> Result<Line, OutOfMemory>
    ensures { (sheet : SheetName) → chars name.now ≡ sheet.name → IfOk result (λ line. line
        ≡ naming_line sheet) }
{
    line_of(alloc, &["rename_sheet_by_index", "0", name])
}

/// Puts the lines at the end that put the other sheets in.
pub(crate) fn push_inserting(
    alloc: Global,
    lines: &mut Vec<Line>,
    sheets: &[SheetName],
) -> Result<(), OutOfMemory>
    ensures { OnOk result (lines.new.items
        ≡ lines.old.items ++ inserting_lines_from 0 sheets.now) }
{
    for (index, sheet) in sheets.iter().enumerate() {
        push_if_other(alloc, lines, index, sheet)?;
    }
    Ok(())
}

/// Puts the line at the end that puts a sheet in at an index, where it isn't that of a new book.
fn push_if_other(
    alloc: Global,
    lines: &mut Vec<Line>,
    index: usize,
    sheet: &SheetName,
) -> Result<(), OutOfMemory>
    ensures { OnOk result (lines.new.items ≡ lines.old.items
        ++ cond (is_first sheet.now) [] (inserting_line index sheet.now ∷ [])) }
{
    if sheet.id != FIRST_ID {
        lines.push(inserting_line(alloc, index, sheet)?)?;
    }
    Ok(())
}

/// The line that puts a sheet in at an index.
fn inserting_line(alloc: Global, index: usize, sheet: &SheetName) -> Result<Line, OutOfMemory>
    ensures { IfOk result (λ line. line ≡ inserting_line index sheet.now) }
{
    let index = digits_of(alloc, index as u64)?;
    let id = digits_of(alloc, sheet.id as u64)?;
    line_of(
        alloc,
        &[
            "insert_sheet",
            sheet.name.as_str(),
            index.as_str(),
            id.as_str(),
        ],
    )
}

/// Puts the lines at the end that make the definitions, with a body that mentions nothing.
pub(crate) fn push_defining(
    alloc: Global,
    lines: &mut Vec<Line>,
    standing: &Standing,
    definitions: &[DefinedName],
) -> Result<(), OutOfMemory>
    requires { AreFound standing.now.indexes standing.now.sheets.items }
    ensures { OnOk result (lines.new.items ≡ lines.old.items ++ map (λ d.
        defining_line standing.now.sheets.items (name_seen d)) definitions.now) }
{
    for definition in definitions {
        lines.push(defining_line(alloc, standing, definition)?)?;
    }
    Ok(())
}

/// The line that makes a definition so.
fn defining_line(
    alloc: Global,
    standing: &Standing,
    definition: &DefinedName,
) -> Result<Line, OutOfMemory>
    requires { AreFound standing.now.indexes standing.now.sheets.items }
    ensures { IfOk result (λ line. line
        ≡ defining_line standing.now.sheets.items (name_seen definition.now)) }
{
    let scope = scope_word(alloc, &standing.indexes, definition.sheet_id)?;
    line_of(
        alloc,
        &[
            "new_defined_name",
            definition.name.as_str(),
            scope.as_str(),
            "LAMBDA(1)",
        ],
    )
}

/// Puts the lines at the end that set the bodies of the definitions.
pub(crate) fn push_bodies(
    alloc: Global,
    lines: &mut Vec<Line>,
    standing: &Standing,
    definitions: &[DefinedName],
) -> Result<(), OutOfMemory>
    requires { AreFound standing.now.indexes standing.now.sheets.items }
    ensures { OnOk result (lines.new.items ≡ lines.old.items ++ map (λ d.
        body_line standing.now.sheets.items (name_seen d) d.formula) definitions.now) }
{
    for definition in definitions {
        lines.push(body_line(alloc, standing, definition)?)?;
    }
    Ok(())
}

/// The line that sets the body of a definition. Its record has that in English.
fn body_line(
    alloc: Global,
    standing: &Standing,
    definition: &DefinedName,
) -> Result<Line, OutOfMemory>
    requires { AreFound standing.now.indexes standing.now.sheets.items }
    ensures { IfOk result (λ line. line ≡ body_line standing.now.sheets.items
        (name_seen definition.now) definition.now.formula) }
{
    let name = definition.name.as_str();
    let scope = scope_word(alloc, &standing.indexes, definition.sheet_id)?;
    let scope = scope.as_str();
    line_of(
        alloc,
        &[
            "update_defined_name",
            name,
            scope,
            name,
            scope,
            definition.formula.as_str(),
        ],
    )
}

/// The word for the sheet that a definition is local to, or for none.
fn scope_word(
    alloc: Global,
    indexes: &BTreeMap<u32, usize>,
    scope: Option<u32>,
) -> Result<String, OutOfMemory>
    ensures { (sheets : List SheetName) → AreFound indexes.now sheets → IfOk result (λ text.
        chars (string_bytes text) ≡ scope_word sheets scope) }
{
    match scope {
        None => Ok(String::from_str(alloc, "-")?),
        Some(id) => digits_of(alloc, index_of(indexes, id) as u64),
    }
}

/// The index of the sheet with this id, which stands.
fn index_of(indexes: &BTreeMap<u32, usize>, id: u32) -> usize
    ensures { result ≡ unwrap_or (get nat_cmp indexes.now id) 0 }
{
    match indexes.get(&id) {
        Some(index) => *index,
        None => 0,
    }
}

/// Puts the lines at the end that delete the sheets from `own` on, of so many, from the last on.
pub(crate) fn push_deleting(
    alloc: Global,
    lines: &mut Vec<Line>,
    own: usize,
    count: usize,
) -> Result<(), OutOfMemory>
    requires { own ≤ count }
    ensures { OnOk result (lines.new.items ≡ lines.old.items
        ++ map deleting_line (reverse (range_with_len own (count - own)))) }
{
    for gone in 0..count - own {
        lines.push(deleting_line(alloc, count - gone - 1)?)?;
    }
    Ok(())
}

/// The line that deletes the sheet at an index.
fn deleting_line(alloc: Global, index: usize) -> Result<Line, OutOfMemory>
    ensures { IfOk result (λ line. line ≡ deleting_line index) }
{
    let index = digits_of(alloc, index as u64)?;
    line_of(alloc, &["delete_sheet", index.as_str()])
}
