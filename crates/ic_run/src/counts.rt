//! What is told of lines that were answered: how many replies there are of each kind, and what the book has.
ghost use Rattle.std.specs.Prelude.{◌≡◌, ◌++◌, IfOk, List, OnOk, flat_map, length, map, string_bytes};
ghost use Rattle.std.specs.BTreeMap.{IsOrdered, values};
ghost use Rattle.std.specs.List.{count_by};
ghost use Rattle.ic_cells.specs.Maps.{place_cmp};
ghost use Rattle.ic_machine.specs.Reply.{Reply, reply_text};
ghost use Rattle.ic_parts.specs.Whole.{whole_of};
ghost use Rattle.ic_run.specs.Counts.{begins_with_o, count_same, formulas_in, formulas_of, has_formula, told_some};
ghost use Rattle.ic_run.specs.Make.{formula_count, summary, told_line, told_refusals};

use ic_book::Model;
use ic_cells::{Cell, PlaceMap, Worksheet};
use ic_laws::OutOfMemory;
use ic_laws::scan::first_char;
use ic_lines::Line;
use std::alloc::Global;
use std::collections::BTreeMap;

/// The replies that tell a refusal, in the order in which their numbers are told.
pub const REFUSALS: [&str; 35] = [
    "error\tBadLine",
    "error\tInvalidSheet",
    "error\tInvalidRow",
    "error\tInvalidColumn",
    "error\tBadArea",
    "error\tOutOfRange",
    "error\tSheetIndexTooLarge",
    "error\tTargetTooLarge",
    "error\tInvalidSheetName",
    "error\tSheetExists",
    "error\tSheetNotFound",
    "error\tOnlySheet",
    "error\tIdLive",
    "error\tIdsUsedUp",
    "error\tInvalidName",
    "error\tInvalidScope",
    "error\tNameExists",
    "error\tNameNotFound",
    "error\tInvalidNameFormula",
    "error\tInvalidFormula",
    "error\tNotAFormula",
    "error\tBadReference",
    "error\tInvalidLocale",
    "error\tInvalidLanguage",
    "error\tInvalidTimezone",
    "error\tMergedPart",
    "error\tArrayPart",
    "error\tClearArray",
    "error\tFrozenNegative",
    "error\tTooManyRows",
    "error\tTooManyColumns",
    "error\tNoFormulaCell",
    "error\tSpillBlocked",
    "error\tBadWorkbook",
    "error\tWouldCapture",
];

/// What is told of so many lines, by their replies and the book that they left. Only memory can be missing.
pub fn summary(
    alloc: Global,
    count: u32,
    replies: &[Line],
    model: &Model<'_>,
) -> Result<String, OutOfMemory>
    ensures { (told : List Reply) → replies.now ≡ map reply_text told → IfOk result
        (λ text. string_bytes text ≡ summary count told (whole_of model.now.book)) }
{
    let (sheets, formulas) = sizes(model)?;
    let mut text = String::new(alloc);
    push_told(&mut text, "lines", u128::from(count))?;
    push_told(&mut text, "ok", count_ok(replies) as u128)?;
    push_refusals(&mut text, replies)?;
    push_told(&mut text, "sheets", sheets as u128)?;
    push_told(&mut text, "formulas", formulas)?;
    Ok(text)
}

/// Appends a line that tells how many there are of something.
fn push_told(text: &mut String, words: &str, n: u128) -> Result<(), OutOfMemory>
    ensures { OnOk result (string_bytes text.new ≡ string_bytes text.old ++ told_line words.now n) }
{
    write!(text, "{words}\t{n}\n")?;
    Ok(())
}

/// Appends how many replies tell each refusal, where there are some.
fn push_refusals(text: &mut String, replies: &[Line]) -> Result<(), OutOfMemory>
    ensures { (told : List Reply) → replies.now ≡ map reply_text told → OnOk result
        (string_bytes text.new ≡ string_bytes text.old ++ told_refusals told) }
{
    push_each(text, &REFUSALS, replies)
}

/// Appends how many replies are each of these, where there are some.
fn push_each(text: &mut String, refusals: &[&str], replies: &[Line]) -> Result<(), OutOfMemory>
    ensures { OnOk result (string_bytes text.new ≡ string_bytes text.old
        ++ flat_map (λ refusal. told_some replies.now refusal.now) refusals.now) }
{
    for refusal in refusals {
        push_refusal(text, refusal, replies)?;
    }
    Ok(())
}

/// Appends how many replies are this one, where there are some.
fn push_refusal(text: &mut String, refusal: &str, replies: &[Line]) -> Result<(), OutOfMemory>
    ensures { OnOk result (string_bytes text.new ≡ string_bytes text.old
        ++ told_some replies.now refusal.now) }
{
    let n = count_same(replies, refusal);
    if n == 0 {
        return Ok(());
    }
    push_told(text, refusal, n as u128)
}

/// How many replies are this one.
fn count_same(replies: &[Line], text: &str) -> usize
    ensures { result ≡ count_same text.now replies.now }
{
    let mut n = 0;
    for reply in replies {
        if reply.text().is(text) {
            n += 1;
        }
    }
    n
}

/// How many replies tell no refusal.
fn count_ok(replies: &[Line]) -> usize
    ensures { result ≡ count_by begins_with_o replies.now }
{
    let mut n = 0;
    for reply in replies {
        if is_ok(reply) {
            n += 1;
        }
    }
    n
}

/// Whether a reply tells no refusal.
pub fn is_ok(reply: &Line) -> bool
    ensures { result ≡ begins_with_o reply.now }
{
    match first_char(reply.text().as_str()) {
        Some((c, _)) => c == 'o',
        None => false,
    }
}

/// How many sheets the book has, and how many of its cells have a formula. Only memory can be missing.
fn sizes(model: &Model<'_>) -> Result<(usize, u128), OutOfMemory>
    ensures { IfOk result (λ sizes. (sizes.0 ≡ length (whole_of model.now.book).sheets)
        × (sizes.1 ≡ formula_count (whole_of model.now.book))) }
{
    match model.workbook() {
        Ok(workbook) => Ok((
            workbook.worksheets.len(),
            formulas_of(workbook.worksheets.as_slice()),
        )),
        Err(_) => Err(OutOfMemory),
    }
}

/// How many cells of these sheets have a formula.
fn formulas_of(sheets: &[Worksheet]) -> u128
    ensures { result ≡ formulas_of sheets.now }
{
    let mut n = 0;
    for sheet in sheets {
        n += formulas_in(&sheet.cells) as u128;
    }
    n
}

/// How many of these cells have a formula.
fn formulas_in(cells: &PlaceMap<Cell>) -> usize
    ensures { result ≡ formulas_in cells.now }
{
    count_formulas(cells.as_map())
}

/// The same, of a map with its cells in their order.
fn count_formulas(map: &BTreeMap<(i32, i32), Cell>) -> usize
    ensures count { result ≡ count_by has_formula (values map.now) }
    ensures ordered { IsOrdered place_cmp map.now }
{
    // There are no more than the map has.
    let _ = map.len();
    let mut n = 0;
    for cell in map.values() {
        if cell.has_formula() {
            n += 1;
        }
    }
    n
}
