//! Sheets that are handed in as plain records: their names and their ids.
ghost use Rattle.std.specs.Prelude.{◌≡◌, ◌↔◌, ◌≤◌, IfOk, IsTrue, MatchOption, length, map};
ghost use Rattle.std.specs.Bool.{Decides};
ghost use Rattle.std.specs.List.{AllByRecursion};
ghost use Rattle.ic_laws.specs.CoreBook.{IsId, last_id};
ghost use Rattle.ic_sheets.specs.Index.{FindsSheets};
ghost use Rattle.ic_sheets.specs.Records.{HasApartNames, HasIds, started};

use crate::Sheets;
use ic_cells::Worksheet;
use ic_laws::OutOfMemory;
use std::alloc::Global;
use std::collections::BTreeMap;

/// Whether no two of these sheets, of which there are no more than ids, have names that agree.
pub fn has_apart_names(alloc: Global, worksheets: &[Worksheet]) -> Result<bool, OutOfMemory>
    requires { length worksheets.now ≤ last_id }
    ensures { IfOk result (λ apart. IsTrue apart ↔ HasApartNames worksheets.now) }
{
    // Which ids they get here doesn't matter.
    let mut named = Sheets::new(alloc);
    let mut ids = BTreeMap::new(alloc);
    for (index, worksheet) in worksheets.iter().enumerate() {
        let name = worksheet.name.as_str();
        if named.is_taken(&ids, name) {
            return Ok(false);
        }
        named.add_leaving_formulas(&mut ids, index as u32 + 1, name)?;
    }
    Ok(true)
}

/// Sheets with the ids and the names of these, in their order, which hold nothing yet, and what finds them by their names.
/// None exactly where some id is 0, or two are equal. No two of their names may agree.
pub fn sheets_of(
    alloc: Global,
    worksheets: &[Worksheet],
) -> Result<Option<(Sheets, BTreeMap<String, u32>)>, OutOfMemory>
    requires { HasApartNames worksheets.now }
    ensures { IfOk result (λ made. MatchOption made (HasIds worksheets.now → ⊥)
        (λ named. HasIds worksheets.now × (named.0 ≡ map started worksheets.now)
        × FindsSheets named.1 named.0)) }
{
    if !have_ids(worksheets) {
        return Ok(None);
    }
    Sheets::started(alloc, worksheets)
}

/// Whether none of these sheets has 0 for an id.
fn have_ids(worksheets: &[Worksheet]) -> bool
    ensures { Decides result (AllByRecursion (λ w. IsId w.sheet_id) worksheets.now) }
{
    for worksheet in worksheets {
        if worksheet.sheet_id == 0 {
            return false;
        }
    }
    true
}
