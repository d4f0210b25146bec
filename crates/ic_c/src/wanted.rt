//! How a book is asked for.
ghost use Rattle.std.specs.Prelude.{◌≡◌, ◌≢◌, ◌⊎◌, [], ◌∷◌, Err, IfErr, IfOk, IsOk, MatchResult, chars, pos, ◌*ℤ◌};
ghost use Rattle.ic_parts.specs.Book.{new_book};
ghost use Rattle.ic_parts.specs.Refused.{Refuses};
ghost use Rattle.ic_c.specs.Opened.{AreUtf8, wanted_refusal};
ghost use Rattle.jiff_core.specs.Timestamp.{IsTimestampNanos};
ghost use Rattle.ic_c.specs.Wanted.{wanted};

use crate::status::{INVALID_MOMENT, NOT_UTF8};
use ic_book::{BookError, Model};
use ic_tables::Tables;
use jiff::Timestamp;
use std::alloc::Global;

/// The name of a book, what it begins with, and when it is made.
#[derive(Drop)]
pub struct Wanted<'a> {
    pub name: &'a str,
    pub locale: &'a str,
    pub language: &'a str,
    pub zone: &'a str,
    pub moment: Timestamp,
}

impl Wanted<'_> {
    /// The new book.
    pub fn book(&self, alloc: Global, tables: &'static Tables) -> Result<Model<'static>, BookError>
        ensures start { IfOk result (λ m. m.book ≡ new_book (wanted self.now).name
            (wanted self.now).locale (wanted self.now).zone (wanted self.now).language
            m.book.metadata.created tables.now) }
        ensures refused { Refuses result (wanted_refusal (wanted self.now) tables.now) }
    {
        Model::new_empty(
            alloc,
            self.name,
            self.locale,
            self.zone,
            self.language,
            tables,
            self.moment,
        )
    }
}

/// What is asked for by these bytes, at this moment in milliseconds after the Unix epoch. NOT_UTF8 where one of the texts isn't
/// UTF-8, then INVALID_MOMENT where there is no such moment.
pub fn wanted_of<'a>(
    name: &'a [u8],
    locale: &'a [u8],
    language: &'a [u8],
    zone: &'a [u8],
    milliseconds: i64,
) -> Result<Wanted<'a>, u8>
    ensures texts { IfOk result (λ w. wanted w ≡ record {
      name = chars name.now;
      locale = chars locale.now;
      language = chars language.now;
      zone = chars zone.now;
    }) }
    ensures which { IfErr result (λ status. (status ≡ 4) ⊎ (status ≡ 8)) }
    ensures not_utf8 { result ≡ Err 4
        → ¬ AreUtf8 (name.now ∷ locale.now ∷ language.now ∷ zone.now ∷ []) }
    ensures utf8 { MatchResult result
        (λ _. AreUtf8 (name.now ∷ locale.now ∷ language.now ∷ zone.now ∷ []))
        (λ e. e ≢ 4 → AreUtf8 (name.now ∷ locale.now ∷ language.now ∷ zone.now ∷ [])) }
    ensures no_moment { result ≡ Err 8 → ¬ IsTimestampNanos (milliseconds *ℤ pos 1_000_000) }
    ensures moment { IsOk result → IsTimestampNanos (milliseconds *ℤ pos 1_000_000) }
{
    let Ok(name) = str::from_utf8(name) else {
        return Err(NOT_UTF8);
    };
    let Ok(locale) = str::from_utf8(locale) else {
        return Err(NOT_UTF8);
    };
    let Ok(language) = str::from_utf8(language) else {
        return Err(NOT_UTF8);
    };
    let Ok(zone) = str::from_utf8(zone) else {
        return Err(NOT_UTF8);
    };
    let Ok(moment) = Timestamp::from_millisecond(milliseconds) else {
        return Err(INVALID_MOMENT);
    };
    Ok(Wanted {
        name,
        locale,
        language,
        zone,
        moment,
    })
}
