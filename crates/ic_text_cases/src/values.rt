//! Values of cells: how one is written for a programmer, and whether two are equal.
use ic_cells::CellValue;
use ic_input::read_amount;
use ic_rows::Row;

/// Answers the call, if it is one of these. The word of a value is `none`, or a letter, `:` and what it is: `n` a number,
/// `b` a truth, `t` a text and `s` a text that is handed over.
pub fn call(row: &mut Row<'_>) {
    match row.name {
        "CellValue::eq" => put_equal(row),
        "CellValue::debug" => put_debug(row),
        _ => {}
    }
}

fn put_equal(row: &mut Row<'_>) {
    let first = value(row, row.word(1));
    let second = value(row, row.word(2));
    row.put_bool(first == second);
}

fn put_debug(row: &mut Row<'_>) {
    let value = value(row, row.word(1));
    row.put_made(format!(in row.alloc; "{value:?}"));
}

fn value(row: &mut Row<'_>, word: &str) -> CellValue {
    match word.split_once(':') {
        Some(("n", text)) => number(text),
        Some(("b", text)) => CellValue::from(text == "true"),
        Some(("s", text)) => CellValue::from(row.string(text)),
        Some((_, text)) => CellValue::String(row.text(text)),
        None => CellValue::None,
    }
}

fn number(text: &str) -> CellValue {
    match read_amount(text, '.') {
        Some(v) => CellValue::from(v),
        None => CellValue::None,
    }
}
