//! The sheets of a book with the formulas of their cells.
ghost use Rattle.std.specs.Prelude.{◌≡◌, IfOk, Some, map};
ghost use Rattle.std.specs.List.{slice_get};
ghost use Rattle.ic_laws.specs.CoreBook.{Sheet};
ghost use Rattle.ic_parts.specs.Book.{IsValidBook, core_of, scene_in};
ghost use Rattle.ic_parts.specs.Lent.{placed};
ghost use Rattle.ic_dump.specs.Records.{core_seen};

use ic_book::{Model, PlacedFormula};
use ic_laws::{OutOfMemory, SheetName};
use std::alloc::Global;

/// A sheet, and the formulas of its cells by rows and columns.
#[derive(Drop)]
pub(crate) struct SheetSeen<'b> {
    pub(crate) name: &'b SheetName,
    pub(crate) cells: Vec<PlacedFormula<'b>>,
}

/// The sheets of a book, given how they are called. Only memory can be missing.
pub(crate) fn sheets_seen<'b>(
    alloc: Global,
    model: &'b Model<'_>,
    names: &'b [SheetName],
) -> Result<Vec<SheetSeen<'b>>, OutOfMemory>
    requires names { names.now ≡ (scene_in model.now.book).sheets }
    requires valid { IsValidBook model.now.book }
    ensures { IfOk result (λ sheets. map core_seen sheets.items
        ≡ (core_of model.now.book).sheets) }
{
    let mut sheets = Vec::new(alloc);
    for (index, name) in names.iter().enumerate() {
        let cells = cells_at(model, index as u32)?;
        sheets.push(SheetSeen { name, cells })?;
    }
    Ok(sheets)
}

/// The formulas of the cells of the sheet at an index, where one stands.
fn cells_at<'b>(model: &'b Model<'_>, index: u32) -> Result<Vec<PlacedFormula<'b>>, OutOfMemory>
    ensures { (s : Sheet) → slice_get (core_of model.now.book).sheets index ≡ Some s
        → IfOk result (λ cells. map placed cells.items ≡ s.cells) }
{
    match model.formulas_in(index) {
        Ok(cells) => Ok(cells),
        // The sheet is there, so memory ran out.
        Err(_) => Err(OutOfMemory),
    }
}
