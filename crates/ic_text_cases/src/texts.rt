//! Texts: what one may be, the runs at its front, names and columns.
use ic_laws::agree;
use ic_laws::scan::{
    are_digits, begins_with_digit, begins_with_letter, has_word_characters, is_a1_cell, is_lone,
    is_nothing, is_variable_form, letters_run, names_column, names_row, past_digits, past_dollar,
    past_letters, past_plain, plain_run,
};
use ic_lines::words_of;
use ic_refs::{
    ColumnError, column_to_number, is_valid_a1_identifier, is_valid_column, is_valid_identifier,
    is_valid_sheet_name, number_to_column, quote_name, trimmed,
};
use ic_rows::Row;

/// Answers the call, if it is one of these.
pub fn call(row: &mut Row<'_>) {
    let text = row.word(1);
    put_held(row, text, row.word(2));
    put_run(row, text);
    match row.name {
        "quote_name" => row.put_made(quote_name(row.alloc, text)),
        "number_to_column" => {
            let column = row.int(1);
            row.put_found(number_to_column(row.alloc, column));
        }
        "column_to_number" => put_number(row),
        "words_of" => put_words(row),
        _ => {}
    }
}

/// What holds of a text, or of two.
fn put_held(row: &mut Row<'_>, text: &str, other: &str) {
    row.holds("agree", agree(text, other));
    row.holds("is_valid_column", is_valid_column(text));
    row.holds("is_valid_sheet_name", is_valid_sheet_name(text));
    row.holds("is_valid_identifier", is_valid_identifier(text));
    row.holds("is_valid_a1_identifier", is_valid_a1_identifier(text));
    row.holds("is_nothing", is_nothing(text));
    row.holds("is_variable_form", is_variable_form(text));
    row.holds("begins_with_digit", begins_with_digit(text));
    row.holds("begins_with_letter", begins_with_letter(text));
    row.holds("has_word_characters", has_word_characters(text));
    row.holds("is_lone", is_lone(text));
    row.holds("names_column", names_column(text));
    row.holds("names_row", names_row(text));
    row.holds("is_a1_cell", is_a1_cell(text));
    row.holds("are_digits", are_digits(text));
}

/// What stands at the front of a text, or behind that.
fn put_run(row: &mut Row<'_>, text: &str) {
    row.finds("trimmed", trimmed(text));
    row.finds("past_plain", past_plain(text));
    row.finds("past_letters", past_letters(text));
    row.finds("past_digits", past_digits(text));
    row.finds("past_dollar", past_dollar(text));
    row.finds("plain_run", plain_run(text));
    row.finds("letters_run", letters_run(text));
}

fn put_number(row: &mut Row<'_>) {
    match column_to_number(row.word(1)) {
        Ok(n) => row.put_number(i128::from(n)),
        Err(e) => row.put_error(column_error_name(&e), e.to_string(row.alloc)),
    }
}

fn column_error_name(e: &ColumnError) -> &'static str {
    match e {
        ColumnError::Empty => "Empty",
        ColumnError::NotAscii => "NotAscii",
        ColumnError::NotLetters => "NotLetters",
        ColumnError::NotValid => "NotValid",
    }
}

/// How many words a line has, and each of them.
fn put_words(row: &mut Row<'_>) {
    match words_of(row.alloc, row.word(1)) {
        Ok(words) => {
            row.put_number(words.len() as i128);
            for word in words.as_slice() {
                row.tab();
                row.put_text(word);
            }
        }
        Err(_) => row.bad(),
    }
}
