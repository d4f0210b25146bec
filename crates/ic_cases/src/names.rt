//! What finds the sheets and the definitions of the book by their names.
use crate::books::Books;
use crate::pools::put_formula;
use ic_book::NameIndex;
use ic_rows::Row;

/// `name_index`: each sheet as `sheet`, its folded name and its id, then each definition as `name`, its folded name, the
/// id of its sheet or `none`, and its index from 0, all in the order of their keys. `parsed_definition` and an index: its
/// body, as `parsed_formula` tells a formula.
pub fn call(row: &mut Row<'_>, books: &Books<'_>) {
    match row.name {
        "name_index" => match &books.book {
            Some(model) => put_index(row, model.name_index()),
            None => row.bad(),
        },
        "parsed_definition" => {
            let index = row.size(1);
            match &books.book {
                Some(model) => put_formula(row, model.parsed_definition(index)),
                None => row.bad(),
            }
        }
        _ => {}
    }
}

fn put_index(row: &mut Row<'_>, index: &NameIndex) {
    for (name, id) in &index.sheets {
        row.put("sheet\t");
        row.put_text(name.as_str());
        row.tab();
        row.put_number(i128::from(*id));
        row.tab();
    }
    for (key, place) in &index.names {
        row.put("name\t");
        row.put_text(key.0.as_str());
        row.tab();
        row.put_scope(key.1);
        row.tab();
        row.put_number(*place as i128);
        row.tab();
    }
}
