//! Names that new sheets get, with a number that makes them differ from all others.
ghost use Rattle.std.specs.Prelude.{◌≡◌, ◌<◌, ◌≤◌, ◌^◌, ◌+◌, ◌++◌, [], OnOk, IfOk, chars, length, map, string_bytes, take, false};
ghost use Rattle.std.specs.Fmt.{decimal};
ghost use Rattle.std.specs.List.{list_any};
ghost use Rattle.ic_laws.specs.Name.{agrees};
ghost use Rattle.ic_sheets.specs.Index.{FindsSheets};
ghost use Rattle.ic_sheets.specs.Numbers.{AreMarked};
ghost use Rattle.ic_machine.specs.subjects.Sheets.{base_name, copy_name, suffix_of};
ghost use Rattle.ic_parts.specs.SheetNames.{AreTaken, HasPassed, KnowsNumbers, free_among, name_with};

use crate::taken_numbers::TakenNumbers;
use ic_laws::scan::{first_char, push_char, push_text};
use ic_laws::{OutOfMemory, Text};
use ic_sheets::{Sheets, is_marked};
use std::alloc::Global;
use std::collections::BTreeMap;

/// A name that a number is put into.
#[derive(Drop)]
pub enum NumberedName<'n> {
    /// This word, with the number behind it.
    Word(&'n str),
    /// The name of a sheet that is copied, with the number behind it in brackets: cut so that both have at most 31 characters.
    Copy(&'n str),
}

/// How a new sheet is called in the language with this code, before its number.
pub fn base_name(language: &Text) -> &'static str
    ensures { chars result.now ≡ base_name language.now }
{
    if language.is("es") {
        "Hoja"
    } else if language.is("fr") {
        "Feuil"
    } else if language.is("de") {
        "Tabelle"
    } else if language.is("it") {
        "Foglio"
    } else {
        "Sheet"
    }
}

/// The name with the least number from 1 that no sheet has. For the next call it is noted that the numbers below are taken.
pub fn free_name(
    alloc: Global,
    sheets: &Sheets,
    ids: &BTreeMap<String, u32>,
    taken: &mut TakenNumbers,
    name: &NumberedName,
) -> Result<String, OutOfMemory>
    requires finds { FindsSheets ids.now sheets.now }
    requires knows { KnowsNumbers taken.old (map (λ s. s.name) sheets.now) }
    requires few { length sheets.now < 2 ^ 32 }
    ensures named { IfOk result (λ text. chars (string_bytes text) ≡ name_with name.now
        (free_among (map (λ s. s.name) sheets.now) (name_with name.now))) }
    ensures knows { KnowsNumbers taken.new (map (λ s. s.name) sheets.now) }
{
    let mut text = String::new(alloc);
    let passed = put_free_name(alloc, sheets, ids, taken, &mut text, name)?;
    taken.note(alloc, name, passed);
    Ok(text)
}

/// The name with the least number from 1 that no sheet has. What is noted of taken numbers is read, and nothing is noted.
pub fn seen_free_name(
    alloc: Global,
    sheets: &Sheets,
    ids: &BTreeMap<String, u32>,
    taken: &TakenNumbers,
    name: &NumberedName,
) -> Result<String, OutOfMemory>
    requires finds { FindsSheets ids.now sheets.now }
    requires knows { KnowsNumbers taken.now (map (λ s. s.name) sheets.now) }
    requires few { length sheets.now < 2 ^ 32 }
    ensures { IfOk result (λ text. chars (string_bytes text) ≡ name_with name.now
        (free_among (map (λ s. s.name) sheets.now) (name_with name.now))) }
{
    let mut text = String::new(alloc);
    put_free_name(alloc, sheets, ids, taken, &mut text, name)?;
    Ok(text)
}

/// How many numbers are asked for one by one before the names of all sheets are gone through.
const FEW: u64 = 8;

/// Writes the name with the least number from 1 that no sheet has in the place of a text, and answers how many numbers are less.
fn put_free_name(
    alloc: Global,
    sheets: &Sheets,
    ids: &BTreeMap<String, u32>,
    taken: &TakenNumbers,
    text: &mut String,
    name: &NumberedName,
) -> Result<u64, OutOfMemory>
    requires finds { FindsSheets ids.now sheets.now }
    requires knows { KnowsNumbers taken.now (map (λ s. s.name) sheets.now) }
    requires few { length sheets.now < 2 ^ 32 }
    ensures named { OnOk result (chars (string_bytes text.new) ≡ name_with name.now
        (free_among (map (λ s. s.name) sheets.now) (name_with name.now))) }
    ensures taken { IfOk result (AreTaken (map (λ s. s.name) sheets.now) (name_with name.now)) }
{
    let count = sheets.len() as u64;
    let known = taken.known(name).min(count);
    let soon = count.min(known + FEW);
    let near = pass_taken(sheets, ids, &[], text, name, known, soon)?;
    if near < known + FEW {
        return Ok(near);
    }
    let marks = marks_of(alloc, sheets, name)?;
    pass_taken(sheets, ids, &marks, text, name, near, count)
}

/// Marks, from 0, for the numbers from 1: one is marked only where a sheet has the name with this number.
fn marks_of(alloc: Global, sheets: &Sheets, name: &NumberedName) -> Result<Vec<bool>, OutOfMemory>
    ensures { IfOk result (λ marks. AreMarked (name_with name.now) (map (λ s. s.name) sheets.now)
        marks.items) }
{
    match name {
        NumberedName::Word(base) => sheets.marked_numbers(base),
        NumberedName::Copy(_) => Ok(Vec::new(alloc)),
    }
}

/// Answers how many numbers from 1 on are taken one after another: so many are known to be, and no more than so many are asked
/// for. The text is then the name with the next number.
fn pass_taken(
    sheets: &Sheets,
    ids: &BTreeMap<String, u32>,
    marks: &[bool],
    text: &mut String,
    name: &NumberedName,
    known: u64,
    most: u64,
) -> Result<u64, OutOfMemory>
    requires finds { FindsSheets ids.now sheets.now }
    requires marked { AreMarked (name_with name.now) (map (λ s. s.name) sheets.now) marks.now }
    requires few { most < 2 ^ 32 }
    requires within { known ≤ most }
    requires known { AreTaken (map (λ s. s.name) sheets.now) (name_with name.now) known }
    ensures passed { IfOk result (HasPassed (map (λ s. s.name) sheets.now) (name_with name.now)
        most) }
    ensures named { IfOk result (λ passed. chars (string_bytes text.new)
        ≡ name_with name.now (passed + 1)) }
{
    for passed in known..most {
        let taken = is_number_taken(sheets, ids, marks, text, name, passed)?;
        if !taken {
            return Ok(passed);
        }
    }
    put_name(text, name, most + 1)?;
    Ok(most)
}

/// Whether a sheet has the name with the number behind this one. Where none does, the text is that name.
fn is_number_taken(
    sheets: &Sheets,
    ids: &BTreeMap<String, u32>,
    marks: &[bool],
    text: &mut String,
    name: &NumberedName,
    passed: u64,
) -> Result<bool, OutOfMemory>
    requires finds { FindsSheets ids.now sheets.now }
    requires marked { AreMarked (name_with name.now) (map (λ s. s.name) sheets.now) marks.now }
    requires few { passed < 2 ^ 32 }
    ensures taken { IfOk result (λ taken. taken ≡ list_any (agrees (name_with name.now
        (passed + 1))) (map (λ s. s.name) sheets.now)) }
    ensures free { IfOk result (λ taken. taken ≡ false
        → chars (string_bytes text.new) ≡ name_with name.now (passed + 1)) }
{
    if is_marked(marks, passed as usize) {
        return Ok(true);
    }
    put_name(text, name, passed + 1)?;
    Ok(sheets.is_taken(ids, text.as_str()))
}

/// Writes the name with this number in the place of a text.
pub fn put_name(text: &mut String, name: &NumberedName, number: u64) -> Result<(), OutOfMemory>
    ensures { OnOk result (chars (string_bytes text.new) ≡ name_with name.now number) }
{
    text.clear();
    match name {
        NumberedName::Word(base) => {
            push_text(text, base)?;
            push_number(text, number)
        }
        NumberedName::Copy(source) => put_copy_name(text, source, number),
    }
}

/// Writes the name of a copy with this number over a text that is empty.
fn put_copy_name(text: &mut String, source: &str, number: u64) -> Result<(), OutOfMemory>
    requires { string_bytes text.old ≡ [] }
    ensures { OnOk result (chars (string_bytes text.new) ≡ copy_name (chars source.now) number) }
{
    push_suffix(text, number)?;
    let room = 31_usize.saturating_sub(text.as_str().len());
    text.clear();
    push_front(text, source, room)?;
    push_suffix(text, number)
}

/// Appends a number in brackets after a blank.
fn push_suffix(text: &mut String, number: u64) -> Result<(), OutOfMemory>
    ensures chars { OnOk result (chars (string_bytes text.new) ≡ chars (string_bytes text.old)
        ++ suffix_of number) }
    ensures len { OnOk result (length (string_bytes text.new) ≡ length (string_bytes text.old)
        + length (suffix_of number)) }
{
    text.push_str(" (")?;
    write!(text, "{number}")?;
    text.push_str(")")?;
    Ok(())
}

/// Appends the first characters of a text, so many or all.
fn push_front(text: &mut String, source: &str, count: usize) -> Result<(), OutOfMemory>
    ensures { OnOk result (chars (string_bytes text.new) ≡ chars (string_bytes text.old)
        ++ take count (chars source.now)) }
{
    let mut rest = source;
    let mut left = count;
    while let Some((c, after)) = first_char(rest) {
        if left == 0 {
            break;
        }
        push_char(text, c)?;
        rest = after;
        left -= 1;
    }
    Ok(())
}

/// Appends a number in decimal digits.
fn push_number(text: &mut String, number: u64) -> Result<(), OutOfMemory>
    ensures { OnOk result (chars (string_bytes text.new) ≡ chars (string_bytes text.old)
        ++ decimal number) }
{
    write!(text, "{number}")?;
    Ok(())
}
