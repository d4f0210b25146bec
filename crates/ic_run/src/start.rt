//! What the program begins with: what its words name, and the new book that commands are answered on.
ghost use Rattle.std.specs.Prelude.{◌≡◌, ◌⊎◌, ◌↔◌, Err, IfErr, IfOk, IsSome, option_map};
ghost use Rattle.ic_run.specs.Desk.{setting_of, start_book, start_refusal, start_status, texts};
ghost use Rattle.ic_run.specs.Make.{made_setting};
ghost use Rattle.ic_run.specs.Start.{setting};

use ic_book::{BookError, Model};
use ic_laws::scan::same_text;
use ic_tables::Tables;
use jiff::Timestamp;
use std::alloc::Global;

/// The locale, the language and the zone that the program begins with.
#[derive(Drop)]
pub struct Start<'a> {
    locale: &'a str,
    language: &'a str,
    zone: &'a str,
}

/// What the words name: en, en and UTC where there are none; None where they are no stated form.
pub fn start_named(words: &[String]) -> Option<Start<'_>>
    ensures { option_map setting result ≡ setting_of (texts words.now) }
{
    if words.is_empty() {
        return Some(english_start());
    }
    if words.len() != 4 {
        return None;
    }
    if !same_text(words[0].as_str(), "run") {
        return None;
    }
    Some(Start {
        locale: words[1].as_str(),
        language: words[2].as_str(),
        zone: words[3].as_str(),
    })
}

/// en, en and UTC.
fn english_start() -> Start<'static>
    ensures { setting result ≡ made_setting }
{
    Start {
        locale: "en",
        language: "en",
        zone: "UTC",
    }
}

/// The new book of a start. Where there is none, the status: 2 exactly where the tables lack the locale, the language or the
/// zone, 6 where memory runs out.
pub fn first_book<'a>(
    alloc: Global,
    start: &Start<'_>,
    tables: &'a Tables,
    moment: Timestamp,
) -> Result<Model<'a>, u8>
    ensures start { IfOk result (λ m. m.book
        ≡ start_book (setting start.now) m.book.metadata.created tables.now) }
    ensures unknown { (result ≡ Err 2) ↔ IsSome (start_refusal (setting start.now) tables.now) }
    ensures which { IfErr result (λ status. (status ≡ 2) ⊎ (status ≡ 6)) }
{
    let book = Model::new_empty(
        alloc,
        "workbook",
        start.locale,
        start.zone,
        start.language,
        tables,
        moment,
    );
    match book {
        Ok(model) => Ok(model),
        Err(e) => Err(status_without_book(&e)),
    }
}

/// The new book in en, en and UTC; or the status where there is none.
pub fn english_book<'a>(
    alloc: Global,
    tables: &'a Tables,
    moment: Timestamp,
) -> Result<Model<'a>, u8>
    ensures start { IfOk result (λ m. m.book
        ≡ start_book made_setting m.book.metadata.created tables.now) }
    ensures unknown { (result ≡ Err 2) ↔ IsSome (start_refusal made_setting tables.now) }
    ensures which { IfErr result (λ status. (status ≡ 2) ⊎ (status ≡ 6)) }
{
    first_book(alloc, &english_start(), tables, moment)
}

/// The status where there is no book to begin with.
fn status_without_book(e: &BookError) -> u8
    ensures status { result ≡ start_status e.now }
    ensures which { (result ≡ 2) ⊎ (result ≡ 6) }
{
    match e {
        BookError::OutOfMemory => 6,
        _ => 2,
    }
}
