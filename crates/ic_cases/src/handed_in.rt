//! A workbook that is handed in: what the book gives as records, as it is or edited.
use crate::books::{Books, put_book_error, take_book};
use ic_book::Model;
use ic_cells::{
    ArrayKind, ArrayValue, Cell, Color, ColumnProps, DefinedName, LineMap, Merge, PlaceMap,
    RowProps, SheetState, SpillValue, Workbook, Worksheet,
};
use ic_input::read_amount;
use ic_laws::{Error, Items, Text};
use ic_rows::Row;
use std::mem;

/// `handed_in`, a language, and edits, each behind a word `|`: takes in what the book gives as records, edited, which is the
/// book from then on. Where a condition isn't met: `condition` and its number.
///
/// Of the workbook: `no-sheets` takes its sheets away; `locale` and `zone`, an id; `shared`, a text that is put behind the strings;
/// `define`, a name, the id of its sheet or `none`, and a body. `sheet`, a name and an id: puts a sheet at the end. It holds
/// what the edits since the sheet before say: `text`, that of a formula; `merge`, a row, a column, a width and a height;
/// `frozen`, rows and columns; `row` and `column`, a number, a height or a width, and a style; or a cell, which is its kind, a
/// row, a column and a style, and then, of a `number`, its amount, of a `string` or a `formula` its index, of an array, `cse`
/// or `dynamic`, that of its formula, a width and a height, and of a `spill` the row and the column of its formula. An `empty`
/// one, a `boolean` and an `error` have no more.
pub fn put_handed_in(row: &mut Row<'_>, books: &mut Books<'_>) {
    let given = match &books.book {
        Some(model) => model.workbook(),
        None => return row.bad(),
    };
    match given {
        Ok(workbook) => take_in(row, books, workbook),
        Err(e) => put_book_error(row, &e),
    }
}

fn take_in(row: &mut Row<'_>, books: &mut Books<'_>, mut workbook: Workbook) {
    let language = row.word(1);
    edit_all(row, &mut workbook);
    let made = Model::from_workbook(workbook, language, books.tables);
    take_book(row, books, made);
}

/// Makes all edits.
fn edit_all(row: &mut Row<'_>, workbook: &mut Workbook) {
    let mut sheet = empty_sheet(row);
    next(row);
    for _ in 0..row.words.len() {
        if row.words.is_empty() {
            break;
        }
        edit(row, workbook, &mut sheet);
        next(row);
    }
}

/// Goes on behind the next `|`, or to the end.
fn next(row: &mut Row<'_>) {
    for _ in 0..row.words.len() {
        let ends = row.word(0) == "|";
        row.skip(1);
        if ends {
            break;
        }
    }
}

/// Makes one edit. A sheet is put once its name is told.
fn edit(row: &mut Row<'_>, workbook: &mut Workbook, sheet: &mut Worksheet) {
    match row.word(0) {
        "no-sheets" => workbook.worksheets.truncate(0),
        "locale" => workbook.settings.locale = row.text(row.word(1)),
        "zone" => workbook.settings.tz = row.text(row.word(1)),
        "shared" => put_text(row, &mut workbook.shared_strings),
        "define" => define(row, workbook),
        "sheet" => put_sheet(row, workbook, sheet),
        _ => edit_sheet(row, sheet),
    }
}

/// Puts a text at the end.
fn put_text(row: &mut Row<'_>, texts: &mut Items<Text>) {
    let text = row.text(row.word(1));
    row.done(texts.push(text).is_ok());
}

fn define(row: &mut Row<'_>, workbook: &mut Workbook) {
    let name = DefinedName {
        name: row.text(row.word(1)),
        formula: row.text(row.word(3)),
        sheet_id: row.scope(2),
    };
    row.done(workbook.defined_names.push(name).is_ok());
}

/// Puts a sheet at the end, after which an empty one stands for the next.
fn put_sheet(row: &mut Row<'_>, workbook: &mut Workbook, sheet: &mut Worksheet) {
    sheet.name = row.text(row.word(1));
    sheet.sheet_id = row.index(2);
    let full = mem::replace(sheet, empty_sheet(row));
    row.done(workbook.worksheets.push(full).is_ok());
}

fn empty_sheet(row: &mut Row<'_>) -> Worksheet {
    let alloc = row.alloc;
    Worksheet {
        name: row.text(""),
        sheet_id: 0,
        state: SheetState::Visible,
        color: Color::None,
        frozen_rows: 0,
        frozen_columns: 0,
        show_grid_lines: true,
        shared_formulas: Items::from(Vec::new(alloc)),
        cells: PlaceMap::new(alloc),
        rows: LineMap::new(alloc),
        columns: LineMap::new(alloc),
        merged_cells: Items::from(Vec::new(alloc)),
    }
}

fn edit_sheet(row: &mut Row<'_>, sheet: &mut Worksheet) {
    match row.word(0) {
        "text" => put_text(row, &mut sheet.shared_formulas),
        "merge" => {
            let merge = merge(row);
            row.done(sheet.merged_cells.push(merge).is_ok());
        }
        "frozen" => {
            sheet.frozen_rows = row.int(1);
            sheet.frozen_columns = row.int(2);
        }
        "row" => put_row(row, sheet),
        "column" => put_column(row, sheet),
        _ => put_cell(row, sheet),
    }
}

/// The merged cells that a row says.
fn merge(row: &mut Row<'_>) -> Merge {
    Merge {
        row: row.int(1),
        column: row.int(2),
        width: row.int(3),
        height: row.int(4),
    }
}

fn put_row(row: &mut Row<'_>, sheet: &mut Worksheet) {
    let props = RowProps {
        height: Some(row.index(2)),
        hidden: false,
        style: Some(row.size(3)),
    };
    let number = row.int(1);
    row.done(sheet.rows.insert(number, props).is_ok());
}

fn put_column(row: &mut Row<'_>, sheet: &mut Worksheet) {
    let props = ColumnProps {
        width: Some(row.index(2)),
        hidden: false,
        style: Some(row.size(3)),
    };
    let number = row.int(1);
    row.done(sheet.columns.insert(number, props).is_ok());
}

fn put_cell(row: &mut Row<'_>, sheet: &mut Worksheet) {
    let (line, column, style) = (row.int(1), row.int(2), row.size(3));
    let cell = cell(row, style);
    row.done(sheet.cells.insert(line, column, cell).is_ok());
}

/// The cell that a row says. A formula has no value yet.
fn cell(row: &mut Row<'_>, s: usize) -> Cell {
    match row.word(0) {
        "empty" => Cell::EmptyCell { s },
        "boolean" => Cell::new_boolean(true, s),
        "error" => Cell::new_error(Error::NA, s),
        "number" => number(row, s),
        "string" => Cell::new_string(row.size(4), s),
        "formula" => Cell::new_formula(row.size(4), s),
        "cse" => array(row, s, ArrayKind::Cse),
        "dynamic" => array(row, s, ArrayKind::Dynamic),
        "spill" => Cell::SpillCell {
            s,
            a: (row.int(4), row.int(5)),
            v: SpillValue::Boolean(true),
        },
        _ => {
            row.bad();
            Cell::EmptyCell { s }
        }
    }
}

fn number(row: &mut Row<'_>, s: usize) -> Cell {
    match read_amount(row.word(4), '.') {
        Some(v) => Cell::new_number(v, s),
        None => {
            row.bad();
            Cell::EmptyCell { s }
        }
    }
}

fn array(row: &mut Row<'_>, s: usize, kind: ArrayKind) -> Cell {
    Cell::ArrayFormula {
        kind,
        f: row.size(4),
        s,
        r: (row.int(5), row.int(6)),
        v: ArrayValue::unevaluated(),
    }
}
