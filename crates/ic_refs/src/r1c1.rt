ghost use Rattle.std.specs.Prelude.{◌≡◌, chars, encode_utf8_all, true, option_map, IfOk};
ghost use Rattle.std.specs.Fn.{FnReturnsAt};
ghost use Rattle.ic_laws.specs.Scan.{past_run};
ghost use Rattle.ic_laws.specs.Position.{is_row, is_column};
ghost use Rattle.ic_refs.specs.Formula.{UnlessMemory};
ghost use Rattle.ic_laws.specs.SheetText.{name_in_quotes};
ghost use Rattle.ic_refs.specs.Written.{name_of};
ghost use Rattle.ic_refs.specs.R1C1.{Gives, is_no_bang, quoted_name, unquoted_name, split_sheet, refers, ParsesR1C1};
ghost use Rattle.ic_refs.specs.R1C1Form.{TellsR1C1};
ghost use Rattle.ic_refs.specs.Referred.{HasCornersInOrder, LiesInSheet};

use crate::error::ReferenceError;
use crate::formula::sheet_of;
use crate::r1c1_ends::{read_ends, referred};
use crate::reference::{CellReferenceIndex, ParsedReference};
use crate::sheet::name_in_quotes;
use crate::written::{Quoting, WrittenName};
use ic_laws::scan::{first_char, front_of};
use std::alloc::Global;

impl ParsedReference {
    /// What the text refers to in the R1C1 form, as `R2C3`, `R[-1]C`, `R:R[2]` or `'My sheet'!C4`, relative to a cell of
    /// the sheet. With a sheet's name and a `!` in front it is on the sheet that `find` answers for the name, which need
    /// not be valid; else on the sheet of the cell. An offset goes round the end of the sheet, and a range's corners are
    /// put in order. Rows and columns are counted from 1.
    ///
    /// The first error from the left is told. In the name: `NameNotClosed`, where a quoted name has no closing quote;
    /// `ExpectedBang`, where no `!` stands after that; `SheetUnknown`, where `find` answers None. In each end:
    /// `ExpectedLetter`, where neither R nor C stands in front; `ExpectedNumber`, where a number is missing or outside of
    /// `i32`; `ExpectedBracket`, where `]` is missing; `OffsetTooLarge`, where an offset is at least the sheet's length;
    /// `OutsideSheet`, where the sheet has no such row or column. After the ends: `ExpectedEnd`, where text is left; then
    /// `MixedEnds`, where the ends differ in kind. `OutOfMemory` is told where the name found no memory.
    pub fn parse_r1c1_reference<F: Fn(&str) -> Option<u32>>(
        alloc: Global,
        cell: CellReferenceIndex,
        text: &str,
        find: F,
    ) -> Result<ParsedReference, ReferenceError>
        requires row { is_row cell.row ≡ true }
        requires column { is_column cell.column ≡ true }
        requires find { F.IsAlwaysCallable find }
        ensures exact { UnlessMemory result (ParsesR1C1
            (λ name answer. FnReturnsAt F.Fn find (encode_utf8_all name) answer) cell
            (split_sheet (chars text.now))) }

        // What is answered is what the text spells.
        ensures spelled { TellsR1C1 (λ name answer. FnReturnsAt F.Fn find (encode_utf8_all name)
            answer) cell (chars text.now) result }
        ensures inside { IfOk result LiesInSheet }
        ensures order { IfOk result HasCornersInOrder }
    {
        referred_from(alloc, cell, text, find)
    }
}

// The same, with the clause that says it all.
fn referred_from<F: Fn(&str) -> Option<u32>>(
    alloc: Global,
    cell: CellReferenceIndex,
    text: &str,
    find: F,
) -> Result<ParsedReference, ReferenceError>
    requires row { is_row cell.row ≡ true }
    requires column { is_column cell.column ≡ true }
    requires find { F.IsAlwaysCallable find }
    ensures { UnlessMemory result (ParsesR1C1
        (λ name answer. FnReturnsAt F.Fn find (encode_utf8_all name) answer) cell
        (split_sheet (chars text.now))) }
{
    match split_sheet(text) {
        Err(e) => Err(e),
        Ok((name, rest)) => refers_by_name(alloc, cell, name, rest, find),
    }
}

// What the text refers to on the sheet of this name, or on that of the cell.
fn refers_by_name<F: Fn(&str) -> Option<u32>>(
    alloc: Global,
    cell: CellReferenceIndex,
    name: Option<WrittenName<'_>>,
    text: &str,
    find: F,
) -> Result<ParsedReference, ReferenceError>
    requires row { is_row cell.row ≡ true }
    requires column { is_column cell.column ≡ true }
    requires find { F.IsAlwaysCallable find }
    ensures { UnlessMemory result (ParsesR1C1
        (λ name answer. FnReturnsAt F.Fn find (encode_utf8_all name) answer) cell
        (Ok (option_map name_of name.entry, chars text.now))) }
{
    let sheet = sheet_of(alloc, name, Some(cell.sheet), find)?;
    refers(cell, sheet, text)
}

// What the text refers to on a sheet.
fn refers(
    cell: CellReferenceIndex,
    sheet: u32,
    text: &str,
) -> Result<ParsedReference, ReferenceError>
    requires row { is_row cell.row ≡ true }
    requires column { is_column cell.column ≡ true }
    ensures { result ≡ refers cell (chars text.now) sheet }
{
    let ends = read_ends(cell, text)?;
    referred(ends, sheet)
}

// The name of a sheet at the front, if there is one, and what stands after its `!`.
fn split_sheet(text: &str) -> Result<(Option<WrittenName<'_>>, &str), ReferenceError>
    ensures { Gives (λ f. (option_map name_of f.0, chars f.1.now)) result
        (split_sheet (chars text.now)) }
{
    match first_char(text) {
        Some(('\'', after)) => split_quoted(after),
        Some(_) => Ok(split_unquoted(text)),
        None => Ok((None, text)),
    }
}

// The same after an opening quote.
fn split_quoted(text: &str) -> Result<(Option<WrittenName<'_>>, &str), ReferenceError>
    ensures { Gives (λ f. (option_map name_of f.0, chars f.1.now)) result
        (quoted_name (name_in_quotes (chars text.now))) }
{
    let Some((name, rest)) = name_in_quotes(text) else {
        return Err(ReferenceError::NameNotClosed);
    };
    match first_char(rest) {
        Some(('!', after)) => Ok((Some(name), after)),
        _ => Err(ReferenceError::ExpectedBang),
    }
}

// The same without quotes: the name ends at the first `!`.
fn split_unquoted(text: &str) -> (Option<WrittenName<'_>>, &str)
    ensures { unquoted_name (chars text.now) ≡ Ok
        (option_map name_of result.0, chars result.1.now) }
{
    let rest = from_bang(text);
    let Some((_, after)) = first_char(rest) else {
        return (None, text);
    };
    let inside = front_of(text, rest);
    let name = WrittenName {
        inside,
        quoting: Quoting::Plain,
    };
    (Some(name), after)
}

// The text from its first `!` on, which is empty where it has none.
fn from_bang(text: &str) -> &str
    ensures { chars result.now ≡ past_run is_no_bang (chars text.now) }
{
    let mut rest = text;
    while let Some((c, after)) = first_char(rest) {
        if c == '!' {
            break;
        }
        rest = after;
    }
    rest
}
