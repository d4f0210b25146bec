//! The formulas that a sheet of the book keeps, each in its place.
ghost use Rattle.std.specs.Prelude.{◌≡◌, ◌<◌, IfSome, Some};
ghost use Rattle.std.specs.List.{slice_get};
ghost use Rattle.ic_laws.specs.ValidCore.{IsPooled};
ghost use Rattle.ic_parts.specs.Book.{notations_in, scene_in};

use crate::books::{Books, put_book_error};
use crate::handed_in::put_handed_in;
use crate::workbooks::put_workbook;
use ic_book::{BookError, Model, Steps};
use ic_laws::{Bound, Formula, Items, Scene};
use ic_rows::Row;
use ic_tree::{Stored, print_bound};
use std::marker::Brand;
use std::sync::ledger::{Blank, Ledger};

/// `parsed_formula`, a sheet and a place: `raw` and the text, or `tree` and the formula in the stored form, in which a
/// sheet of the book is written by its id. `shared_formula_index`, a sheet and a text that doesn't read: its place.
pub fn call(row: &mut Row<'_>, books: &mut Books<'_>) {
    match row.name {
        "parsed_formula" => put_parsed(row, books),
        "shared_formula_index" => match &mut books.book {
            Some(model) => put_place(row, model),
            None => row.bad(),
        },
        "workbook" => put_workbook(row, books),
        "handed_in" => put_handed_in(row, books),
        _ => {}
    }
}

fn put_parsed(row: &mut Row<'_>, books: &Books<'_>) {
    let sheet = row.index(1);
    let place = row.size(2);
    match &books.book {
        Some(model) => put_formula(row, model.parsed_formula(sheet, place)),
        None => row.bad(),
    }
}

/// `raw` and the text, `tree` and the formula, or `none`.
pub fn put_formula(row: &mut Row<'_>, formula: Option<&Formula>) {
    match formula {
        None => row.none(),
        Some(Formula::Tree(tree)) => {
            row.put("tree\t");
            put_tree(row, tree);
        }
        Some(Formula::Raw(text)) => {
            row.put("raw\t");
            row.put_text(text.as_str());
        }
    }
}

/// A formula in the stored form, in a scene without sheets and names.
fn put_tree(row: &mut Row<'_>, tree: &Bound) {
    let stored = Stored::new(row.tables);
    let scene = Scene {
        sheets: Items::from(Vec::new(row.alloc)),
        names: Items::from(Vec::new(row.alloc)),
    };
    row.put_made(print_bound(row.alloc, &stored, &scene, "", tree));
}

fn put_place(row: &mut Row<'_>, model: &mut Model<'_>) {
    let sheet = row.index(1);
    let formula = Formula::Raw(row.text(row.word(2)));
    match place_of(model, sheet, &formula) {
        Ok(place) => row.put_number(place as i128),
        Err(e) => put_book_error(row, &e),
    }
}

/// The place of a formula that is settled in its sheet, by a count of its own.
fn place_of(model: &mut Model<'_>, sheet: u32, formula: &Formula) -> Result<usize, BookError>
    requires { IfSome (slice_get model.old.book.sheets sheet)
        (λ s. IsPooled (notations_in model.old.book) (scene_in model.old.book) (Some s.id)
        formula.now) }
{
    place_counted::<Brand>(model, sheet, formula, Blank::new(1))
}

/// The same with a count that this blank names.
fn place_counted<L: Ledger>(
    model: &mut Model<'_>,
    sheet: u32,
    formula: &Formula,
    blank: Blank,
) -> Result<usize, BookError>
    requires settled { IfSome (slice_get model.old.book.sheets sheet)
        (λ s. IsPooled (notations_in model.old.book) (scene_in model.old.book) (Some s.id)
        formula.now) }
    requires name { blank.name ≡ L.name }
    requires parts { blank.parts ≡ L.parts }
    requires some { 0 < blank.parts }
{
    let mut steps = Steps::<L>::new(blank);
    model.shared_formula_index(sheet, formula, &mut steps)
}
