//! What a book holds, by the records that it gives out.
use crate::books::{Books, put_book_error};
use ic_cells::{ArrayKind, Cell, CellType, Merge, Workbook, Worksheet};
use ic_laws::{Items, Text};
use ic_rows::Row;

/// `workbook` and what is asked: `cells`, `formulas` or `merges` and the index of a sheet, `strings`, `names`, or `about`: its
/// name, its theme, its locale, its zone and who made it, with what and when.
pub fn put_workbook(row: &mut Row<'_>, books: &Books<'_>) {
    match &books.book {
        Some(model) => match model.workbook() {
            Ok(workbook) => put_records(row, &workbook),
            Err(e) => put_book_error(row, &e),
        },
        None => row.bad(),
    }
}

fn put_records(row: &mut Row<'_>, workbook: &Workbook) {
    match row.word(1) {
        "strings" => put_texts(row, &workbook.shared_strings),
        "names" => put_names(row, workbook),
        "about" => put_about(row, workbook),
        _ => {
            let sheet = row.size(2);
            match workbook.worksheets.as_slice().get(sheet) {
                Some(sheet) => put_sheet(row, workbook, sheet),
                None => row.none(),
            }
        }
    }
}

fn put_about(row: &mut Row<'_>, workbook: &Workbook) {
    let metadata = &workbook.metadata;
    row.put_each(&[
        &workbook.name,
        &workbook.theme.name,
        &workbook.settings.locale,
        &workbook.settings.tz,
        &metadata.application,
        &metadata.app_version,
        &metadata.creator,
        &metadata.last_modified_by,
        &metadata.created,
        &metadata.last_modified,
    ]);
}

/// How many texts there are, and each of them.
fn put_texts(row: &mut Row<'_>, texts: &Items<Text>) {
    row.put_number(texts.len() as i128);
    for text in texts.as_slice() {
        row.tab();
        row.put_text(text.as_str());
    }
}

/// Each definition: its name, the id of its sheet or `none`, and the text of its body.
fn put_names(row: &mut Row<'_>, workbook: &Workbook) {
    row.put_number(workbook.defined_names.len() as i128);
    for name in workbook.defined_names.as_slice() {
        row.tab();
        row.put_text(name.name.as_str());
        row.tab();
        row.put_scope(name.sheet_id);
        row.tab();
        row.put_text(name.formula.as_str());
    }
}

/// The texts of its formulas, its merged cells, or its cells.
fn put_sheet(row: &mut Row<'_>, workbook: &Workbook, sheet: &Worksheet) {
    match row.word(1) {
        "formulas" => put_texts(row, &sheet.shared_formulas),
        "merges" => put_merges(row, sheet.merged_cells.as_slice()),
        _ => put_cells(row, workbook, sheet),
    }
}

/// The first place of each, its width and its height.
fn put_merges(row: &mut Row<'_>, merges: &[Merge]) {
    row.put("");
    for merge in merges {
        put_pair(row, "", merge.row, ",", merge.column);
        put_pair(row, ",", merge.width, "x", merge.height);
        row.put(" ");
    }
}

fn put_cells(row: &mut Row<'_>, workbook: &Workbook, sheet: &Worksheet) {
    row.put("");
    for ((line, column), cell) in sheet.cells.as_map().iter() {
        put_pair(row, "", *line, ",", *column);
        put_cell(row, &workbook.shared_strings, cell);
    }
}

/// Its style, the type of its value, what it shows in the default notation, and what it is: an array has its width and
/// height, a cell of a spill the place of its formula.
fn put_cell(row: &mut Row<'_>, strings: &Items<Text>, cell: &Cell) {
    row.put(",");
    row.put_number(cell.get_style() as i128);
    row.put(type_name(cell.get_type()));
    let locale = row.tables.get_default_locale();
    let language = row.tables.get_default_language();
    row.put_made(cell.get_localized_text(row.alloc, strings, locale, language));
    match cell {
        Cell::EmptyCell { .. } => row.put(",empty"),
        Cell::CellFormula { .. } => row.put(",formula"),
        Cell::ArrayFormula { kind, r, .. } => put_pair(row, kind_of(*kind), r.0, "x", r.1),
        Cell::SpillCell { a, .. } => put_pair(row, ",spill ", a.0, ":", a.1),
        _ => row.put(",value"),
    }
    row.put(" ");
}

fn kind_of(kind: ArrayKind) -> &'static str {
    match kind {
        ArrayKind::Dynamic => ",dynamic ",
        ArrayKind::Cse => ",cse ",
    }
}

fn type_name(kind: CellType) -> &'static str {
    match kind {
        CellType::Number => ",Number,",
        CellType::Text => ",Text,",
        CellType::LogicalValue => ",LogicalValue,",
        CellType::ErrorValue => ",ErrorValue,",
    }
}

/// Two numbers, with a text before each.
fn put_pair(row: &mut Row<'_>, front: &str, first: i32, middle: &str, second: i32) {
    row.put(front);
    row.put_number(i128::from(first));
    row.put(middle);
    row.put_number(i128::from(second));
}
