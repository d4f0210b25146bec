//! References in the A1 form, the stored form and the R1C1 form. In an answer a reference is its sheet, as `-` or its name
//! after a quote, then `cell` with a row and a column, or `range` with those of two corners. An absolute row or column has
//! a `$` before its number, a relative one is the distance.
use ic_laws::{OutOfMemory, Place, Position, RefPart, RefToken, Text};
use ic_refs::{
    CellReferenceIndex, ParsedReference, ReferenceError, is_valid_column_number, is_valid_row,
    parse_reference_a1, read_a1, read_rc, spell_a1, spell_rc,
};
use ic_rows::Row;

/// Answers the call, if it is one of these.
pub fn call(row: &mut Row<'_>) {
    match row.name {
        "parse_reference_a1" => put_a1(row),
        "parse_reference_formula" => parse_formula(row),
        "parse_r1c1_reference" => parse_r1c1(row),
        "read_a1" => put_read_a1(row),
        "read_rc" => put_read_rc(row),
        "spell_a1" => put_spelled_a1(row),
        "spell_rc" => put_spelled_rc(row),
        _ => {}
    }
}

fn put_read_a1(row: &mut Row<'_>) {
    let (number, column, at) = (row.int(1), row.int(2), row.size(3));
    put_found(row, read_a1(row.alloc, row.word(4), at, number, column));
}

fn put_read_rc(row: &mut Row<'_>) {
    let at = row.size(1);
    put_found(row, read_rc(row.alloc, row.word(2), at));
}

/// A reference of the stored form, spelled in the cell at a row and a column; `none` where it can't be.
fn put_spelled_a1(row: &mut Row<'_>) {
    let (number, column) = (row.int(1), row.int(2));
    match &read_rc(row.alloc, row.word(3), 0) {
        Ok(Some(found)) => row.put_found(spell_a1(row.alloc, &found.0, number, column)),
        _ => row.bad(),
    }
}

/// A reference in the cell at a row and a column, spelled in the stored form.
fn put_spelled_rc(row: &mut Row<'_>) {
    let (number, column) = (row.int(1), row.int(2));
    match &read_a1(row.alloc, row.word(3), 0, number, column) {
        Ok(Some(found)) => row.put_made(spell_rc(row.alloc, &found.0)),
        _ => row.bad(),
    }
}

/// The sheets that rows on whole references know, by index.
fn sheet_index(name: &str) -> Option<u32> {
    match name {
        "Sheet1" => Some(0),
        "Sheet2" => Some(1),
        "My sheet" => Some(2),
        "It's" => Some(3),
        _ => None,
    }
}

fn put_a1(row: &mut Row<'_>) {
    match parse_reference_a1(row.word(1)) {
        Some(cell) => {
            put_marked(row, cell.absolute_row, cell.row);
            row.tab();
            put_marked(row, cell.absolute_column, cell.column);
        }
        None => row.none(),
    }
}

/// A row or a column, with a `$` before it where it is absolute.
fn put_marked(row: &mut Row<'_>, absolute: bool, n: i32) {
    row.put(if absolute { "$" } else { "" });
    row.put_number(i128::from(n));
}

fn parse_formula(row: &mut Row<'_>) {
    let context = if row.word(1) == "-" {
        None
    } else {
        Some(row.index(1))
    };
    let parsed = ParsedReference::parse_reference_formula(
        row.alloc,
        context,
        row.word(2),
        sheet_index,
    );
    put_parsed(row, parsed);
}

fn parse_r1c1(row: &mut Row<'_>) {
    let sheet = row.index(1);
    let number = row.int(2);
    let column = row.int(3);
    if !is_valid_row(number) || !is_valid_column_number(column) {
        row.bad();
        return;
    }
    let cell = CellReferenceIndex {
        sheet,
        row: number,
        column,
    };
    let parsed = ParsedReference::parse_r1c1_reference(row.alloc, cell, row.word(4), sheet_index);
    put_parsed(row, parsed);
}

fn put_cell(row: &mut Row<'_>, cell: CellReferenceIndex) {
    row.tab();
    row.put_number(i128::from(cell.sheet));
    row.put_field(cell.row);
    row.put_field(cell.column);
}

fn put_parsed(row: &mut Row<'_>, parsed: Result<ParsedReference, ReferenceError>) {
    match parsed {
        Ok(ParsedReference::CellReference(cell)) => {
            row.put("cell");
            put_cell(row, cell);
        }
        Ok(ParsedReference::Range(first, last)) => {
            row.put("range");
            put_cell(row, first);
            put_cell(row, last);
        }
        Err(e) => row.put_error(error_name(&e), e.to_string(row.alloc)),
    }
}

fn error_name(e: &ReferenceError) -> &'static str {
    match e {
        ReferenceError::OneToken => "OneToken",
        ReferenceError::NotReference => "NotReference",
        ReferenceError::NoSheetKnown => "NoSheetKnown",
        ReferenceError::SheetUnknown(_) => "SheetUnknown",
        ReferenceError::ExpectedNumber => "ExpectedNumber",
        ReferenceError::ExpectedBracket => "ExpectedBracket",
        ReferenceError::OffsetTooLarge => "OffsetTooLarge",
        ReferenceError::OutsideSheet => "OutsideSheet",
        ReferenceError::ExpectedLetter => "ExpectedLetter",
        ReferenceError::ExpectedEnd => "ExpectedEnd",
        ReferenceError::MixedEnds => "MixedEnds",
        ReferenceError::NameNotClosed => "NameNotClosed",
        ReferenceError::ExpectedBang => "ExpectedBang",
        ReferenceError::OutOfMemory => "OutOfMemory",
    }
}

fn put_found(row: &mut Row<'_>, found: Result<Option<(RefToken, usize)>, OutOfMemory>) {
    match found {
        Ok(Some(found)) => {
            put_token(row, &found.0);
            row.tab();
            row.put_number(found.1 as i128);
        }
        Ok(None) => row.none(),
        Err(_) => row.bad(),
    }
}

/// The fields of a reference: its sheet and its place.
pub fn put_token(row: &mut Row<'_>, token: &RefToken) {
    put_sheet(row, &token.sheet);
    put_place(row, &token.place);
}

/// The name of a sheet, if there is one.
fn put_sheet(row: &mut Row<'_>, sheet: &Option<Text>) {
    match sheet {
        None => row.put("-"),
        Some(name) => {
            row.put("'");
            row.put_text(name.as_str());
        }
    }
}

fn put_place(row: &mut Row<'_>, place: &Place) {
    match place {
        Place::Cell(part) => put_part(row, "\tcell", part),
        Place::Range(first, last) => {
            put_part(row, "\trange", first);
            put_part(row, "", last);
        }
    }
}

/// The row and the column of a place, behind a text.
fn put_part(row: &mut Row<'_>, front: &str, part: &RefPart) {
    row.put(front);
    put_position(row, part.row);
    put_position(row, part.column);
}

fn put_position(row: &mut Row<'_>, position: Position) {
    row.tab();
    match position {
        Position::Abs(n) => put_marked(row, true, n),
        Position::Rel(k) => put_marked(row, false, k),
    }
}
