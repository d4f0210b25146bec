//! The tables that the program uses. Each language has a file with its words as texts, one blank between two words:
//! the booleans true and false, the error values by number, the functions by number.
ghost use Rattle.std.specs.Prelude.{◌≡◌, IfOk, Some, chars, map};
ghost use Rattle.ic_tables.specs.Sample.{american, european, kind_of, kinds_in, sample, sample_languages, sample_locales};
ghost use Rattle.ic_tables.specs.LocaleWords.{locale_in};
ghost use Rattle.ic_tables.specs.WordList.{words_in};

mod english;
mod french;
mod german;
mod italian;
mod spanish;

use crate::word_list::words_in;
use crate::{FunctionKind, Language, LocaleWords, NamedLocale, Tables, TablesError};
use ic_laws::scan::first_char;
use ic_laws::{Items, OutOfMemory, Text};
use std::alloc::Global;

/// The kinds of the functions by number: E is Each, W is Whole, D is Dynamic.
pub const KINDS: &str = "EEEEWWWWWWWWWEEEWWEWEEEEEEEEEEEEEEEEWWWDDE";

/// The names of the time zones, with one blank between two.
pub const ZONES: &str = "UTC Europe/Berlin America/New_York";

/// How the United States write amounts of money, and how Spain, France, Germany and Italy do.
pub const DOLLAR_FORMAT: &str = "¤#,##0.00";

pub const EURO_FORMAT: &str = "#,##0.00\u{a0}¤";

pub const EURO: &str = "€";

/// The tables of five languages and five locales (`en`, `es`, `fr`, `de`, `it`), three time zones and 42 functions.
pub fn sample_tables(alloc: Global) -> Result<Tables, OutOfMemory>
    ensures { IfOk result (λ tables. tables ≡ sample) }
{
    let languages = languages(alloc)?;
    let locales = locales(alloc)?;
    let zones = zones(alloc)?;
    let kinds = kinds_in(alloc, KINDS)?;
    match Tables::new(alloc, languages, locales, zones, kinds) {
        Ok(tables) => Ok(tables),
        Err(TablesError::OutOfMemory) => Err(OutOfMemory),
        Err(TablesError::BadTables(_)) => unreachable!(),
    }
}

fn languages(alloc: Global) -> Result<Items<Language>, OutOfMemory>
    ensures { IfOk result (λ ls. map Some ls ≡ sample_languages) }
{
    let mut languages = Vec::new(alloc);
    languages.reserve(5)?;
    languages.push_reserved(english::language(alloc)?);
    languages.push_reserved(spanish::language(alloc)?);
    languages.push_reserved(french::language(alloc)?);
    languages.push_reserved(german::language(alloc)?);
    languages.push_reserved(italian::language(alloc)?);
    Ok(Items::from(languages))
}

fn locales(alloc: Global) -> Result<Items<NamedLocale>, OutOfMemory>
    ensures { IfOk result (λ ls. ls ≡ sample_locales) }
{
    let places = [
        american(),
        european("es", "."),
        european("fr", " "),
        european("de", "."),
        european("it", "."),
    ];
    Ok(locales_in(alloc, &places)?)
}

/// The locales of these words.
fn locales_in(alloc: Global, places: &[LocaleWords]) -> Result<Items<NamedLocale>, OutOfMemory>
    ensures { IfOk result (λ ls. ls ≡ map locale_in places.now) }
{
    let mut locales = Vec::new(alloc);
    for words in places {
        locales.reserve(1)?;
        let locale = NamedLocale::from_words(alloc, words)?;
        locales.push_reserved(locale);
    }
    Ok(Items::from(locales))
}

/// The locale of the United States.
fn american() -> LocaleWords<'static>
    ensures { locale_in result ≡ american }
{
    LocaleWords {
        id: "en",
        decimal: ".",
        group: ",",
        list: ",",
        iso: "USD",
        symbol: "$",
        money: DOLLAR_FORMAT,
        short_date: "m/d/yyyy",
        long_date: "yyyy-mm-dd",
    }
}

/// A locale of the euro, which differs from the others in its separator of groups.
fn european<'w>(id: &'w str, group: &'w str) -> LocaleWords<'w>
    ensures { locale_in result ≡ european (chars id.now) (chars group.now) }
{
    LocaleWords {
        id,
        decimal: ",",
        group,
        list: ";",
        iso: "EUR",
        symbol: EURO,
        money: EURO_FORMAT,
        short_date: "dd/mm/yyyy",
        long_date: "yyyy-mm-dd",
    }
}

fn zones(alloc: Global) -> Result<Items<Text>, OutOfMemory>
    ensures { IfOk result (λ zones. zones ≡ words_in (chars ZONES.now)) }
{
    Ok(Items::from(words_in(alloc, ZONES)?))
}

/// The kinds that these letters stand for.
fn kinds_in(alloc: Global, letters: &str) -> Result<Items<FunctionKind>, OutOfMemory>
    ensures { IfOk result (λ kinds. kinds ≡ kinds_in (chars letters.now)) }
{
    let mut kinds = Vec::new(alloc);
    let mut rest = letters;
    while let Some((letter, after)) = first_char(rest) {
        kinds.push(kind_of(letter))?;
        rest = after;
    }
    Ok(Items::from(kinds))
}

fn kind_of(letter: char) -> FunctionKind
    ensures { result ≡ kind_of letter }
{
    match letter {
        'W' => FunctionKind::Whole,
        'D' => FunctionKind::Dynamic,
        _ => FunctionKind::Each,
    }
}
