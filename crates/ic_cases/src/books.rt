//! Books: `new_empty` begins one, and the command lines after it act on it.
use ic_book::{BookError, MentionSite, Model};
use ic_cells::SpillValue;
use ic_commands::answer_line;
use ic_lines::Line;
use ic_rows::Row;
use ic_tables::Tables;
use jiff::Timestamp;

/// The book of the last `new_empty`, over the tables.
pub struct Books<'t> {
    pub tables: &'t Tables,
    pub book: Option<Model<'t>>,
}

impl Drop for Books<'_> {
    fn drop(self) {
        let Self { tables: _, book } = self;
        drop(book);
    }
}

impl<'t> Books<'t> {
    /// No book yet.
    pub fn new(tables: &'t Tables) -> Books<'t> {
        Books { tables, book: None }
    }
}

/// `new_empty`, a locale, a language and a zone; the book is made at the Unix epoch, or so many seconds after it as a
/// fifth word says. `created`: when it was made. `line` and a command line: the reply as it is. `long_line`, a front, a
/// piece, how often it stands, and a back: the reply to the line that they make. `long_reply`, a command line and then
/// the same four: whether the reply is the text that they make. `blocking`, a sheet, a row, a column, a width, a height
/// and a count: the place that blocks a spill of so many values there, or `none`, and then they are put. `capturing`, the
/// words of an update of a definition: where it would capture, each place as `cell`, the id of a sheet, a row and a column,
/// or as `name`, a folded name and the id of a sheet or `-`; `none` where it was made.
pub fn call(row: &mut Row<'_>, books: &mut Books<'_>) {
    match row.name {
        "line" => put_reply(row, books, row.word(1)),
        "new_empty" => begin(row, books),
        "created" => match &books.book {
            Some(model) => row.put_text(model.created().as_str()),
            None => row.bad(),
        },
        "blocking" => match &mut books.book {
            Some(model) => put_blocking(row, model),
            None => row.bad(),
        },
        "capturing" => match &mut books.book {
            Some(model) => put_capturing(row, model),
            None => row.bad(),
        },
        "long_line" => {
            row.skip(1);
            let text = long_text(row);
            put_reply(row, books, text.as_str());
        }
        "long_reply" => {
            let line = row.word(1);
            row.skip(2);
            put_compared(row, books, line);
        }
        _ => {}
    }
}

/// An error of the book: its variant and its text, or the condition that a workbook doesn't meet.
pub fn put_book_error(row: &mut Row<'_>, e: &BookError) {
    if let BookError::BadWorkbook(number) = e {
        row.put("condition\t");
        row.put_number(i128::from(*number));
    } else {
        row.put_error(e.name(), e.to_string(row.alloc));
    }
}

/// The book from now on, or why there is none.
pub fn take_book<'t>(row: &mut Row<'_>, books: &mut Books<'t>, made: Result<Model<'t>, BookError>) {
    match made {
        Ok(model) => {
            books.book = Some(model);
            row.put("ok");
        }
        Err(e) => put_book_error(row, &e),
    }
}

fn begin(row: &mut Row<'_>, books: &mut Books<'_>) {
    let seconds = if row.word(4).is_empty() {
        0
    } else {
        row.index(4)
    };
    match Timestamp::from_second(i64::from(seconds)) {
        Ok(moment) => begin_at(row, books, moment),
        Err(_) => row.bad(),
    }
}

/// Begins a book in a locale, a language and a zone.
fn begin_at(row: &mut Row<'_>, books: &mut Books<'_>, moment: Timestamp) {
    let (locale, language, zone) = (row.word(1), row.word(2), row.word(3));
    let made = Model::new_empty(
        row.alloc,
        "book",
        locale,
        zone,
        language,
        books.tables,
        moment,
    );
    take_book(row, books, made);
}

/// The reply to a command line, if there is a book, it is a line and there is memory.
fn reply(row: &mut Row<'_>, books: &mut Books<'_>, text: &str) -> Option<Line> {
    match &mut books.book {
        Some(model) => match Line::new(row.text(text)) {
            Some(line) => answer_line(row.alloc, model, &line).ok(),
            None => None,
        },
        None => None,
    }
}

fn put_reply(row: &mut Row<'_>, books: &mut Books<'_>, text: &str) {
    match reply(row, books, text) {
        Some(reply) => row.put(reply.text().as_str()),
        None => row.bad(),
    }
}

/// A front, a piece as often as a row says, and a back, which stand at the front of the row.
fn long_text(row: &mut Row<'_>) -> String {
    let count = row.size(2);
    let mut text = row.string(row.word(0));
    for _ in 0..count {
        row.done(text.push_str(row.word(1)).is_ok());
    }
    row.done(text.push_str(row.word(3)).is_ok());
    text
}

/// Whether the reply to a command line is a text.
fn put_compared(row: &mut Row<'_>, books: &mut Books<'_>, line: &str) {
    let text = long_text(row);
    match reply(row, books, line) {
        Some(reply) => row.put_bool(reply.text().is(text.as_str())),
        None => row.bad(),
    }
}

fn put_blocking(row: &mut Row<'_>, model: &mut Model<'_>) {
    let (sheet, line, column) = (row.index(1), row.int(2), row.int(3));
    let (width, height) = (row.int(4), row.int(5));
    let values = truths(row, 6);
    match model.put_spill(sheet, line, column, width, height, values) {
        Ok(()) => row.none(),
        Err(BookError::SpillBlocked { row: line, column }) => {
            row.put_number(i128::from(line));
            row.put_field(column);
        }
        Err(e) => put_book_error(row, &e),
    }
}

/// As many values as a row says.
fn truths(row: &mut Row<'_>, at: usize) -> Vec<SpillValue> {
    let mut values = Vec::new(row.alloc);
    for _ in 0..row.size(at) {
        row.done(values.push(SpillValue::Boolean(true)).is_ok());
    }
    values
}

fn put_capturing(row: &mut Row<'_>, model: &mut Model<'_>) {
    let (name, scope) = (row.word(1), row.scope(2));
    let (new_name, new_scope) = (row.word(3), row.scope(4));
    match model.update_defined_name(name, scope, new_name, new_scope, row.word(5)) {
        Ok(()) => row.none(),
        Err(BookError::WouldCapture(sites)) => put_sites(row, sites.as_slice()),
        Err(e) => put_book_error(row, &e),
    }
}

fn put_sites(row: &mut Row<'_>, sites: &[MentionSite]) {
    let mut first = true;
    for site in sites {
        if !first {
            row.tab();
        }
        first = false;
        put_site(row, site);
    }
}

fn put_site(row: &mut Row<'_>, site: &MentionSite) {
    match site {
        MentionSite::Cell {
            sheet_id,
            row: line,
            column,
        } => {
            row.put("cell\t");
            row.put_number(i128::from(*sheet_id));
            row.put_field(*line);
            row.put_field(*column);
        }
        MentionSite::Definition(key) => {
            row.put("name\t");
            row.put_text(key.name.as_str());
            row.tab();
            row.put_scope(key.scope);
        }
    }
}
