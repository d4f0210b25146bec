//! What is told of the sheets in a list of them.
ghost use Rattle.std.specs.Prelude.{◌≡◌, IfOk, chars, flat_map};
ghost use Rattle.ic_cells.specs.Sheet.{state_word};
ghost use Rattle.ic_parts.specs.Fields.{fields_of_sheet, told_sheet};

use ic_cells::{SheetProperties, SheetState};
use ic_laws::{Boxed, OutOfMemory, Text};
use ic_sheets::Sheet;
use std::alloc::Global;

/// What is told of these sheets.
pub fn properties_of(
    alloc: Global,
    sheets: &[Boxed<Sheet>],
) -> Result<Vec<SheetProperties>, OutOfMemory>
    ensures { IfOk result
        (λ all. flat_map fields_of_sheet all.items ≡ flat_map told_sheet sheets.now) }
{
    let mut all = Vec::new(alloc);
    for sheet in sheets {
        all.push(properties(alloc, sheet.as_ref())?)?;
    }
    Ok(all)
}

/// What is told of a sheet.
fn properties(alloc: Global, sheet: &Sheet) -> Result<SheetProperties, OutOfMemory>
    ensures { IfOk result (λ told. fields_of_sheet told ≡ told_sheet sheet.now) }
{
    Ok(SheetProperties {
        name: Text::from_str(alloc, sheet.name.as_str())?,
        state: Text::from_str(alloc, state_word(sheet.tab.state))?,
        color: sheet.tab.color.copy(alloc)?,
        sheet_id: sheet.id,
    })
}

/// The word of a state.
fn state_word(state: SheetState) -> &'static str
    ensures { chars result.now ≡ state_word state }
{
    match state {
        SheetState::Visible => "visible",
        SheetState::Hidden => "hidden",
        SheetState::VeryHidden => "veryHidden",
    }
}
