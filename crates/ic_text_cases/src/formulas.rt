//! Formulas: a text is read and its tree printed, in the stored form or as it is shown in a cell.
use crate::references::put_token;
use crate::scenes::{empty_scene, put_bound};
use ic_laws::{Bound, Dialect};
use ic_refs::read_rc;
use ic_rows::Row;
use ic_tables::{BookIdError, Tables};
use ic_tree::{Shown, Stored, print, print_bound, read, read_reference, read_typed, settle};

/// `read_stored` and a text in the stored form. `read_shown`, a locale, a language, a row, a column and a text as it is
/// shown there; `shown_to_stored` and `stored_to_shown` likewise, where the text is printed in the other form.
/// `print_stored` and `print_shown` have the words of `read_stored` and `read_shown`, and print the tree as it was read.
/// `spell_ref` has those of `read_shown`, with a reference in the stored form: its text in the cell. `read_reference`, a
/// locale, a language and a text: the reference that the whole text is, as it is shown in the first cell. `bind`, a
/// language, a locale, a scope or `none`, a text, and then a scene; the cell is in row 5 and column 3. `spell` likewise: the
/// spelled tree of the bound formula, printed.
pub fn call(row: &mut Row<'_>) {
    match row.name {
        "read_stored" | "print_stored" => put_stored(row),
        "read_shown" | "print_shown" | "shown_to_stored" | "stored_to_shown" | "spell_ref" => {
            put_at_cell(row)
        }
        "read_reference" => put_shown(row, row.word(1), row.word(2), 1, 1),
        "bind" | "spell" => put_shown(row, row.word(2), row.word(1), 5, 3),
        _ => {}
    }
}

/// A formula is read in the one form and printed in the other: `=` and its canonical text there, `none` where the text is
/// no formula.
fn put_canonical<A: Dialect, B: Dialect>(row: &mut Row<'_>, from: &A, to: &B, text: &str) {
    match read_typed(row.alloc, from, text) {
        Ok(Some(tree)) => put_printed(row, to, tree),
        Ok(None) => row.none(),
        Err(_) => row.bad(),
    }
}

/// A formula is read and printed in one form, as it was spelled.
fn put_as_spelled<D: Dialect>(row: &mut Row<'_>, form: &D, text: &str) {
    match &read(row.alloc, form, text) {
        Ok(Some(tree)) => {
            row.put("=");
            row.put_made(print(row.alloc, form, tree));
        }
        Ok(None) => row.none(),
        Err(_) => row.bad(),
    }
}

/// A reference in the stored form, spelled by a dialect.
fn put_spelled_ref<D: Dialect>(row: &mut Row<'_>, form: &D, text: &str) {
    match &read_rc(row.alloc, text, 0) {
        Ok(Some(found)) => row.put_made(form.spell_ref(row.alloc, &found.0)),
        _ => row.bad(),
    }
}

/// The same in one form.
fn put_again<D: Dialect>(row: &mut Row<'_>, form: &D, text: &str) {
    put_canonical(row, form, form, text);
}

/// The tree of a text printed, whose names all dangle.
fn put_printed<D: Dialect>(row: &mut Row<'_>, to: &D, tree: Bound) {
    let scene = empty_scene(row.alloc);
    let english = row.tables.get_default_language();
    let mut tree = tree;
    match settle(row.alloc, &scene, english, None, &mut tree) {
        Ok(()) => row.put_made(print_bound(row.alloc, to, &scene, "=", &tree)),
        Err(_) => row.bad(),
    }
}

fn put_stored(row: &mut Row<'_>) {
    let stored = Stored::new(row.tables);
    if row.name == "print_stored" {
        put_as_spelled(row, &stored, row.word(1));
    } else {
        put_again(row, &stored, row.word(1));
    }
}

fn put_at_cell(row: &mut Row<'_>) {
    let (number, column) = (row.int(3), row.int(4));
    put_shown(row, row.word(1), row.word(2), number, column);
}

/// The shown form in a locale and a language of the tables, by their ids, at a cell.
fn shown_at<'t>(
    tables: &'t Tables,
    locale: &str,
    language: &str,
    row: i32,
    column: i32,
) -> Result<Shown<'t>, BookIdError> {
    let locale = tables.get_locale(locale)?;
    let language = tables.get_language(language)?;
    Ok(Shown::new(tables, locale, language, row, column))
}

/// The call on a text that is shown at a cell.
fn put_shown(row: &mut Row<'_>, locale: &str, language: &str, number: i32, column: i32) {
    match &shown_at(row.tables, locale, language, number, column) {
        Ok(shown) => put_by(row, shown),
        Err(_) => row.bad(),
    }
}

fn put_by(row: &mut Row<'_>, shown: &Shown<'_>) {
    let stored = Stored::new(row.tables);
    let text = row.word(5);
    match row.name {
        "read_shown" => put_again(row, shown, text),
        "shown_to_stored" => put_canonical(row, shown, &stored, text),
        "stored_to_shown" => put_canonical(row, &stored, shown, text),
        "print_shown" => put_as_spelled(row, shown, text),
        "spell_ref" => put_spelled_ref(row, shown, text),
        "bind" | "spell" => put_bound(row, shown),
        _ => put_reference(row, shown),
    }
}

fn put_reference(row: &mut Row<'_>, shown: &Shown<'_>) {
    match &read_reference(row.alloc, shown, row.word(3)) {
        Ok(Some(token)) => put_token(row, token),
        Ok(None) => row.none(),
        Err(_) => row.bad(),
    }
}
