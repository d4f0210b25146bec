//! The import of records into the book of the last `new_empty`.
use crate::books::Books;
use crate::raw::bytes_in;
use ic_book::Model;
use ic_import::{CellReferenceIndex, ImportError, import_csv};
use ic_lines::MemorySource;
use ic_rows::Row;

/// `import_csv`, a sheet, a row, a column, a locale, a language, the input, as `raw` says bytes, the most bytes of a read, and the
/// number of the read that fails, 0 for none: `ok`, how many records and how many fields, or `error` and what it says,
/// with the record, the field and the reason where it has them.
pub fn call(row: &mut Row<'_>, books: &mut Books<'_>) {
    if row.name == "import_csv" {
        match &mut books.book {
            Some(model) => put_import(row, model),
            None => row.bad(),
        }
    }
}

fn put_import(row: &mut Row<'_>, model: &mut Model<'_>) {
    let bytes = bytes_in(row, row.word(6));
    let (chunk, read) = (row.size(7), u64::from(row.index(8)));
    match MemorySource::new(row.alloc, bytes.as_slice(), chunk.max(1), &[read]) {
        Ok(mut source) => put_imported(row, model, &mut source),
        Err(_) => row.bad(),
    }
}

fn put_imported(row: &mut Row<'_>, model: &mut Model<'_>, source: &mut MemorySource) {
    let at = CellReferenceIndex {
        sheet: row.index(1),
        row: row.int(2),
        column: row.int(3),
    };
    let (tables, locale, language) = (model.tables(), row.word(4), row.word(5));
    match import_csv(row.alloc, model, tables, &at, locale, language, source) {
        Ok((records, fields)) => put_counts(row, "ok", records, fields),
        Err(e) => put_import_error(row, &e),
    }
}

/// A word and two numbers.
fn put_counts(row: &mut Row<'_>, word: &str, first: u64, second: u64) {
    row.put(word);
    row.tab();
    row.put_number(i128::from(first));
    row.tab();
    row.put_number(i128::from(second));
}

fn put_import_error(row: &mut Row<'_>, e: &ImportError) {
    row.put("error\t");
    row.put_made(e.to_string(row.alloc));
    match e {
        ImportError::NotUtf8 {
            at_record,
            at_field,
        }
        | ImportError::OutsideSheet {
            at_record,
            at_field,
        } => {
            put_counts(row, "", *at_record, *at_field);
        }
        ImportError::Blocked {
            at_record,
            at_field,
            why,
        } => {
            put_counts(row, "", *at_record, *at_field);
            row.tab();
            row.put(why.name());
        }
        _ => {}
    }
}
