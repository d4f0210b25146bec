//! Shared strings that are handed in, of which one may stand twice: each text is kept once, and cells get the number of
//! theirs.
ghost use Rattle.std.specs.Prelude.{◌≡◌, IfOk, MatchResult, OnOk};
ghost use Rattle.std.specs.BTreeMap.{IsOrdered, values};
ghost use Rattle.std.specs.Bool.{Decides};
ghost use Rattle.std.specs.FinMap as finite;
ghost use Rattle.std.specs.List.{AllByRecursion, list_all};
ghost use Rattle.ic_cells.specs.Maps.{place_cmp};
ghost use Rattle.ic_machine.specs.Alike.{seen_by};
ghost use Rattle.ic_workbooks.specs.Asked.{Breaks};
ghost use Rattle.ic_workbooks.specs.HandedIn.{HasStrings};
ghost use Rattle.ic_workbooks.specs.Numbered.{AreNumbered, is_string_below, number_at, renumbered};

use ic_cells::{Cell, PlaceMap, SharedStrings, Worksheet};
use ic_laws::{OutOfMemory, Text};
use ic_parts::BookError;
use ic_parts::copies::copy_cell;
use std::alloc::Global;
use std::collections::BTreeMap;

/// Texts, each once, and for each index of those that were handed in the number of its text.
pub struct Numbered {
    pub strings: SharedStrings,
    pub numbers: Vec<usize>,
}

impl Drop for Numbered {
    fn drop(self) {
        let Self { strings, numbers } = self;
        drop(strings);
        drop(numbers);
    }
}

impl Numbered {
    /// The texts.
    pub fn into_strings(self) -> SharedStrings
        ensures { result ≡ self.strings }
    {
        let Self { strings, numbers } = self;
        drop(numbers);
        strings
    }
}

/// Keeps each of these texts once.
pub fn number_texts(alloc: Global, texts: &[Text]) -> Result<Numbered, OutOfMemory>
    ensures { IfOk result (λ n. AreNumbered texts.now n.numbers.items n.strings) }
{
    let mut strings = SharedStrings::new(alloc);
    let mut numbers = Vec::new(alloc);
    for text in texts {
        let number = strings.index_of_or_create(text.as_str())?;
        numbers.push(number)?;
    }
    Ok(Numbered { strings, numbers })
}

/// The number of the string at an index. Past the end it is the index itself.
fn number_at(numbers: &[usize], index: usize) -> usize
    ensures { result ≡ number_at numbers.now index }
{
    match numbers.get(index) {
        Some(number) => *number,
        None => index,
    }
}

/// A copy of a cell, with the number of its string.
fn copy_numbered(alloc: Global, numbers: &[usize], cell: &Cell) -> Result<Cell, OutOfMemory>
    ensures { IfOk result (λ copy. copy ≡ renumbered numbers.now cell.now) }
{
    match cell {
        Cell::SharedString { si, s } => Ok(Cell::SharedString {
            si: number_at(numbers, *si),
            s: *s,
        }),
        _ => copy_cell(alloc, cell),
    }
}

/// A copy of the cells of a sheet, with the numbers of their strings.
pub fn copy_cells_numbered(
    alloc: Global,
    numbers: &[usize],
    cells: &PlaceMap<Cell>,
) -> Result<PlaceMap<Cell>, OutOfMemory>
    ensures { IfOk result (λ copies. copies ≡ seen_by (renumbered numbers.now) cells.now) }
{
    let mut out = PlaceMap::new(alloc);
    for (place, cell) in cells.as_map().iter() {
        put_numbered(alloc, numbers, &mut out, *place, cell)?;
    }
    Ok(out)
}

/// Puts a copy of a cell at a place, with the number of its string.
fn put_numbered(
    alloc: Global,
    numbers: &[usize],
    cells: &mut PlaceMap<Cell>,
    place: (i32, i32),
    cell: &Cell,
) -> Result<(), OutOfMemory>
    ensures { OnOk result (cells.new
        ≡ finite.insert cells.old place (renumbered numbers.now cell.now)) }
{
    cells.insert(place.0, place.1, copy_numbered(alloc, numbers, cell)?)?;
    Ok(())
}

/// Whether the string of a cell, if it is one, is one of so many. Its number, if it is one, is always an amount.
fn is_string_below(cell: &Cell, count: usize) -> bool
    ensures { result ≡ is_string_below count cell.now }
{
    match cell {
        Cell::SharedString { si, .. } => *si < count,
        Cell::NumberCell { v, .. } => {
            // What always holds of an amount is known from here on.
            let _ = v.units();
            true
        }
        _ => true,
    }
}

/// Whether the string of each cell that is one is so.
fn are_strings_below(map: &BTreeMap<(i32, i32), Cell>, count: usize) -> bool
    ensures all { result ≡ list_all (is_string_below count) (values map.now) }
    ensures ordered { IsOrdered place_cmp map.now }
{
    for cell in map.values() {
        if !is_string_below(cell, count) {
            return false;
        }
    }
    true
}

/// Whether the shared strings of a sheet's cells are among so many.
fn has_strings(worksheet: &Worksheet, count: usize) -> bool
    ensures { Decides result (HasStrings count worksheet.now) }
{
    are_strings_below(worksheet.cells.as_map(), count)
}

/// Asks whether the shared strings of all cells are among so many.
pub fn ask_strings(worksheets: &[Worksheet], count: usize) -> Result<(), BookError>
    ensures { MatchResult result (λ done. AllByRecursion (HasStrings count) worksheets.now)
        (Breaks 8 (AllByRecursion (HasStrings count) worksheets.now)) }
{
    for worksheet in worksheets {
        if !has_strings(worksheet, count) {
            return Err(BookError::BadWorkbook(8));
        }
    }
    Ok(())
}
