//! Cells that a text names: by its sheet, the letters of its column and its row.
ghost use Rattle.std.specs.Prelude.{◌≡◌, chars, option_map};
ghost use Rattle.ic_laws.specs.Scan.{past_run};
ghost use Rattle.ic_refs.specs.Column.{column_number};
ghost use Rattle.ic_machine.specs.Parsed.{column_or_none, is_no_bang, parsed_place, parsed_row, row_if};
ghost use Rattle.ic_parts.specs.References.{parsed_of};

use ic_laws::LAST_ROW;
use ic_laws::scan::{first_char, letters_run, past_letters};
use ic_refs::{CellReferenceIndex, column_to_number};

/// What stands from the first exclamation mark on.
pub fn past_name(text: &str) -> &str
    ensures { chars result.now ≡ past_run is_no_bang (chars text.now) }
{
    let mut rest = text;
    while let Some((c, after)) = first_char(rest) {
        if c == '!' {
            break;
        }
        rest = after;
    }
    rest
}

/// The cell of a sheet that is named after a mark.
pub fn place_after(sheet: u32, text: &str) -> Option<CellReferenceIndex>
    ensures { option_map parsed_of result ≡ parsed_place sheet (chars text.now) }
{
    let (_, text) = first_char(text)?;
    let column = column_of(letters_run(text))?;
    let row = row_of(past_letters(text))?;
    Some(CellReferenceIndex { sheet, row, column })
}

/// The column with these letters.
fn column_of(letters: &str) -> Option<i32>
    ensures { result ≡ column_or_none (column_number (chars letters.now)) }
{
    match column_to_number(letters) {
        Ok(column) => Some(column),
        Err(_) => None,
    }
}

/// The row of these digits, after a plus or without one.
fn row_of(text: &str) -> Option<i32>
    ensures { result ≡ parsed_row (chars text.now) }
{
    match text.parse::<u32>().ok() {
        Some(row) => row_if(row),
        None => None,
    }
}

/// The row of a number, if a sheet has it.
fn row_if(row: u32) -> Option<i32>
    ensures { result ≡ row_if row }
{
    if 1 <= row && row <= LAST_ROW as u32 {
        Some(row as i32)
    } else {
        None
    }
}
