//! Copies of plain records and of what they hold. Only memory can be missing.
ghost use Rattle.std.specs.Prelude.{◌≡◌, IfOk, OnOk};
ghost use Rattle.std.specs.FinMap as finite;

use ic_cells::{
    ArrayValue, Cell, FormulaValue, LineMap, Merge, Metadata, PlaceMap, SpillValue, Styles,
};
use ic_laws::{Boxed, Items, OutOfMemory, Text};
use std::alloc::Global;

/// A copy of a text.
pub fn copy_text(alloc: Global, text: &Text) -> Result<Text, OutOfMemory>
    ensures { IfOk result (λ copy. copy ≡ text.now) }
{
    Text::from_str(alloc, text.as_str())
}

/// A copy of a text in a box.
fn copy_boxed(alloc: Global, text: &Boxed<Text>) -> Result<Boxed<Text>, OutOfMemory>
    ensures { IfOk result (λ copy. copy ≡ text.now) }
{
    Boxed::from_str(alloc, text.as_ref().as_str())
}

/// A copy of each text.
pub fn copy_texts(alloc: Global, texts: &[Text]) -> Result<Items<Text>, OutOfMemory>
    ensures { IfOk result (λ copies. copies ≡ texts.now) }
{
    let mut out = Vec::new(alloc);
    for text in texts {
        out.push(copy_text(alloc, text)?)?;
    }
    Ok(Items::from(out))
}

/// A copy of who made a workbook, with what, and when.
pub fn copy_metadata(alloc: Global, metadata: &Metadata) -> Result<Metadata, OutOfMemory>
    ensures { IfOk result (λ copy. copy ≡ metadata.now) }
{
    let application = copy_text(alloc, &metadata.application)?;
    let app_version = copy_text(alloc, &metadata.app_version)?;
    let creator = copy_text(alloc, &metadata.creator)?;
    let last_modified_by = copy_text(alloc, &metadata.last_modified_by)?;
    let created = copy_text(alloc, &metadata.created)?;
    let last_modified = copy_text(alloc, &metadata.last_modified)?;
    Ok(Metadata {
        application,
        app_version,
        creator,
        last_modified_by,
        created,
        last_modified,
    })
}

/// A copy of merged cells.
pub fn copy_merges(alloc: Global, merges: &[Merge]) -> Result<Items<Merge>, OutOfMemory>
    ensures { IfOk result (λ copies. copies ≡ merges.now) }
{
    let mut out = Vec::new(alloc);
    for merge in merges {
        out.push(*merge)?;
    }
    Ok(Items::from(out))
}

/// A copy of the value of a formula.
fn copy_formula_value(alloc: Global, value: &FormulaValue) -> Result<FormulaValue, OutOfMemory>
    ensures { IfOk result (λ copy. copy ≡ value.now) }
{
    match value {
        FormulaValue::Unevaluated => Ok(FormulaValue::Unevaluated),
        FormulaValue::Boolean(truth) => Ok(FormulaValue::Boolean(*truth)),
        FormulaValue::Number(amount) => Ok(FormulaValue::Number(*amount)),
        FormulaValue::Text(text) => Ok(FormulaValue::Text(copy_boxed(alloc, text)?)),
        FormulaValue::Error { ei, note } => {
            let note = note.copy(alloc)?;
            Ok(FormulaValue::Error { ei: *ei, note })
        }
    }
}

/// A copy of the value of an array formula.
fn copy_array_value(alloc: Global, value: &ArrayValue) -> Result<ArrayValue, OutOfMemory>
    ensures { IfOk result (λ copy. copy ≡ value.now) }
{
    match value.kept() {
        Some(value) => ArrayValue::new(alloc, copy_formula_value(alloc, value)?),
        None => Ok(ArrayValue::unevaluated()),
    }
}

/// A copy of the value of a cell of a spill.
fn copy_spill_value(alloc: Global, value: &SpillValue) -> Result<SpillValue, OutOfMemory>
    ensures { IfOk result (λ copy. copy ≡ value.now) }
{
    match value {
        SpillValue::Boolean(truth) => Ok(SpillValue::Boolean(*truth)),
        SpillValue::Number(amount) => Ok(SpillValue::Number(*amount)),
        SpillValue::Text(text) => Ok(SpillValue::Text(copy_boxed(alloc, text)?)),
        SpillValue::Error(error) => Ok(SpillValue::Error(*error)),
    }
}

/// A copy of a cell.
pub fn copy_cell(alloc: Global, cell: &Cell) -> Result<Cell, OutOfMemory>
    ensures { IfOk result (λ copy. copy ≡ cell.now) }
{
    match cell {
        Cell::EmptyCell { s } => Ok(Cell::EmptyCell { s: *s }),
        Cell::BooleanCell { v, s } => Ok(Cell::BooleanCell { v: *v, s: *s }),
        Cell::NumberCell { v, s } => Ok(Cell::NumberCell { v: *v, s: *s }),
        Cell::ErrorCell { ei, s } => Ok(Cell::ErrorCell { ei: *ei, s: *s }),
        Cell::SharedString { si, s } => Ok(Cell::SharedString { si: *si, s: *s }),
        Cell::CellFormula { f, s, v } => {
            let v = copy_formula_value(alloc, v)?;
            Ok(Cell::CellFormula { f: *f, s: *s, v })
        }
        Cell::ArrayFormula { kind, f, s, r, v } => {
            let v = copy_array_value(alloc, v)?;
            Ok(Cell::ArrayFormula {
                kind: *kind,
                f: *f,
                s: *s,
                r: *r,
                v,
            })
        }
        Cell::SpillCell { s, a, v } => {
            let v = copy_spill_value(alloc, v)?;
            Ok(Cell::SpillCell { s: *s, a: *a, v })
        }
    }
}

/// A copy of the cells of a sheet.
pub fn copy_cells(alloc: Global, cells: &PlaceMap<Cell>) -> Result<PlaceMap<Cell>, OutOfMemory>
    ensures { IfOk result (λ copies. copies ≡ cells.now) }
{
    let mut out = PlaceMap::new(alloc);
    for (place, cell) in cells.as_map().iter() {
        put_copy(alloc, &mut out, *place, cell)?;
    }
    Ok(out)
}

/// Puts a copy of a cell at a place.
fn put_copy(
    alloc: Global,
    cells: &mut PlaceMap<Cell>,
    place: (i32, i32),
    cell: &Cell,
) -> Result<(), OutOfMemory>
    ensures { OnOk result (cells.new ≡ finite.insert cells.old place cell.now) }
{
    cells.insert(place.0, place.1, copy_cell(alloc, cell)?)?;
    Ok(())
}

/// A copy of what was set for the rows or the columns of a sheet.
pub fn copy_lines<T: Copy + Drop>(
    alloc: Global,
    lines: &LineMap<T>,
) -> Result<LineMap<T>, OutOfMemory>
    ensures { IfOk result (λ copies. copies ≡ lines.now) }
{
    let mut out = LineMap::new(alloc);
    for (number, props) in lines.as_map().iter() {
        put_line(&mut out, number, *props)?;
    }
    Ok(out)
}

/// Puts what was set for a row or a column at its number, which a map lends.
fn put_line<T: Copy + Drop>(
    lines: &mut LineMap<T>,
    number: &i32,
    props: T,
) -> Result<(), OutOfMemory>
    ensures { OnOk result (lines.new ≡ finite.insert lines.old number.now props) }
{
    lines.insert(*number, props)?;
    Ok(())
}

/// A copy of the styles of a book.
pub fn copy_styles(alloc: Global, styles: &Styles) -> Result<Styles, OutOfMemory>
    ensures { IfOk result (λ copies. copies ≡ styles.now) }
{
    let mut out = Styles::new(alloc)?;
    for index in 1..styles.len() {
        if let Some(style) = styles.get_style(index) {
            out.get_style_index_or_create(style)?;
        }
    }
    Ok(out)
}
