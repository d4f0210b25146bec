//! The locales and the time zones, which are those of the sample tables.
ghost use Rattle.std.specs.Prelude.{◌≡◌, IfOk, chars, map};
ghost use Rattle.ic_tables.specs.LocaleWords.{locale_in};
ghost use Rattle.ic_tables.specs.Sample.{american, european, sample, sample_locales};

use ic_laws::{Items, OutOfMemory, Text};
use ic_tables::{LocaleWords, NamedLocale};
use std::alloc::Global;

const DOLLAR_FORMAT: &str = "¤#,##0.00";

const EURO_FORMAT: &str = "#,##0.00\u{a0}¤";

const DATE: &str = "yyyy-mm-dd";

/// The locales.
pub fn locales(alloc: Global) -> Result<Items<NamedLocale>, OutOfMemory>
    ensures { IfOk result (λ ls. ls ≡ sample_locales) }
{
    let places = [
        american(),
        european("es", "."),
        european("fr", " "),
        european("de", "."),
        european("it", "."),
    ];
    Ok(locales_in(alloc, &places)?)
}

/// The locales of these words.
fn locales_in(alloc: Global, places: &[LocaleWords]) -> Result<Items<NamedLocale>, OutOfMemory>
    ensures { IfOk result (λ ls. ls ≡ map locale_in places.now) }
{
    let mut locales = Vec::new(alloc);
    for words in places {
        locales.push(NamedLocale::from_words(alloc, words)?)?;
    }
    Ok(Items::from(locales))
}

/// The locale of the United States.
fn american() -> LocaleWords<'static>
    ensures { locale_in result ≡ american }
{
    LocaleWords {
        id: "en",
        decimal: ".",
        group: ",",
        list: ",",
        iso: "USD",
        symbol: "$",
        money: DOLLAR_FORMAT,
        short_date: "m/d/yyyy",
        long_date: DATE,
    }
}

/// A locale of the euro, which differs from the others in its separator of groups.
fn european<'w>(id: &'w str, group: &'w str) -> LocaleWords<'w>
    ensures { locale_in result ≡ european (chars id.now) (chars group.now) }
{
    LocaleWords {
        id,
        decimal: ",",
        group,
        list: ";",
        iso: "EUR",
        symbol: "€",
        money: EURO_FORMAT,
        short_date: "dd/mm/yyyy",
        long_date: DATE,
    }
}

/// The names of the time zones.
pub fn zones(alloc: Global) -> Result<Items<Text>, OutOfMemory>
    ensures { IfOk result (λ zones. zones ≡ sample.zones) }
{
    Ok(texts_of(alloc, &["UTC", "Europe/Berlin", "America/New_York"])?)
}

/// A text for each of these.
fn texts_of(alloc: Global, all: &[&str]) -> Result<Items<Text>, OutOfMemory>
    ensures { IfOk result (λ texts. texts ≡ map (λ t. chars t.now) all.now) }
{
    let mut texts = Vec::new(alloc);
    for text in all {
        texts.push(Text::from_str(alloc, text)?)?;
    }
    Ok(Items::from(texts))
}
