//! Locales from their separators, their currency and their formats.
ghost use Rattle.std.specs.Prelude.{◌≡◌, IfOk, chars};
ghost use Rattle.ic_tables.specs.LocaleWords.{dates_of, in_order, list_of_signs, locale_in, numbers, of_money, shared_signs, symbols};

use crate::word_list::{four_texts, words_in};
use crate::{
    Currency, CurrencyFormats, DateFormats, Dates, DecimalFormats, Locale, NamedLocale,
    NumbersProperties, NumbersSymbols,
};
use ic_laws::{Items, OutOfMemory, Text};
use std::alloc::Global;

/// What a locale doesn't share with every other: its separators, its currency and its formats.
#[derive(Clone, Copy)]
pub struct LocaleWords<'w> {
    /// Its id, as `fr`.
    pub id: &'w str,
    pub decimal: &'w str,
    pub group: &'w str,
    pub list: &'w str,
    /// The ISO 4217 code of its currency.
    pub iso: &'w str,
    /// The symbol of its currency.
    pub symbol: &'w str,
    /// The format code of amounts of money; `¤` stands for the symbol.
    pub money: &'w str,
    pub short_date: &'w str,
    pub long_date: &'w str,
}

/// The signs that all locales share, with one blank between two: percent, plus, minus, approximately, the exponent's
/// letter, the one before a raised exponent, per mille, infinity, no number.
pub const SIGNS: &str = "% + - ~ E x ‰ ∞ NaN";

/// What parts hours from minutes in each locale.
pub const TIME_SEPARATOR: &str = ":";

/// The format code of plain numbers in each locale.
pub const DECIMAL_FORMAT: &str = "#,##0.00";

#[tactic(auto, unfolding(crate::specs::LocaleWords::locale_in))]
impl NamedLocale {
    /// The locale of these words. It has no names of days and months, one format for all amounts of money, and writes
    /// other dates and times as its long dates are.
    pub fn from_words(alloc: Global, words: &LocaleWords) -> Result<NamedLocale, OutOfMemory>
        ensures { IfOk result (λ locale. locale ≡ locale_in words.now) }
    {
        let id = Text::from_str(alloc, words.id)?;
        let locale = locale_in(alloc, words)?;
        Ok(NamedLocale { id, locale })
    }
}

#[tactic(auto, unfolding(crate::specs::LocaleWords::locale_in, crate::specs::LocaleWords::dates, crate::specs::LocaleWords::formats_by_length, crate::specs::LocaleWords::currency))]
fn locale_in(alloc: Global, words: &LocaleWords) -> Result<Locale, OutOfMemory>
    ensures { IfOk result (λ locale. locale ≡ (locale_in words.now).locale) }
{
    let long = words.long_date;
    let dates = four_texts(alloc, [long, long, long, words.short_date])?;
    let times = four_texts(alloc, [long, long, long, long])?;
    let dates_with_times = four_texts(alloc, [long, long, long, long])?;
    let iso = Text::from_str(alloc, words.iso)?;
    let symbol = Text::from_str(alloc, words.symbol)?;
    let numbers = numbers_in(alloc, words)?;
    Ok(Locale {
        dates: dates_of(alloc, dates, times, dates_with_times),
        numbers,
        currency: Currency { iso, symbol },
    })
}

#[tactic(auto, unfolding(crate::specs::LocaleWords::numbers, crate::specs::LocaleWords::currency_formats))]
fn numbers_in(alloc: Global, words: &LocaleWords) -> Result<NumbersProperties, OutOfMemory>
    ensures { IfOk result (λ n. n ≡ numbers (symbols (chars words.now.decimal.now)
        (chars words.now.group.now) (chars words.now.list.now)) (chars words.now.money.now)) }
{
    let money = words.money;
    let formats = four_texts(alloc, [money, money, money, money])?;
    let standard = Text::from_str(alloc, DECIMAL_FORMAT)?;
    let symbols = symbols(alloc, words.decimal, words.group, words.list)?;
    Ok(NumbersProperties {
        symbols,
        decimal_formats: DecimalFormats { standard },
        currency_formats: of_money(formats),
    })
}

/// The separators of the locale, with the signs that all locales share.
#[tactic(auto, unfolding(crate::specs::LocaleWords::symbols, crate::specs::LocaleWords::shared_signs))]
fn symbols(
    alloc: Global,
    decimal: &str,
    group: &str,
    list: &str,
) -> Result<NumbersSymbols, OutOfMemory>
    ensures { IfOk result (λ s. s ≡ symbols (chars decimal.now) (chars group.now)
        (chars list.now)) }
{
    let separators = four_texts(alloc, [decimal, group, list, TIME_SEPARATOR])?;
    let signs = shared_signs(alloc)?;
    let [decimal, group, list, time_separator] = separators;
    Ok(NumbersSymbols {
        decimal,
        group,
        list,
        percent_sign: signs.percent,
        plus_sign: signs.plus,
        minus_sign: signs.minus,
        approximately_sign: signs.approximately,
        exponential: signs.exponential,
        superscripting_exponent: signs.superscripting_exponent,
        per_mille: signs.per_mille,
        infinity: signs.infinity,
        nan: signs.nan,
        time_separator,
    })
}

/// The signs that all locales share.
#[derive(Drop)]
struct SharedSigns {
    percent: Text,
    plus: Text,
    minus: Text,
    approximately: Text,
    exponential: Text,
    superscripting_exponent: Text,
    per_mille: Text,
    infinity: Text,
    nan: Text,
}

#[tactic(auto, using(crate::proofs::PlaceLemmas::nine_signs, crate::proofs::PlaceLemmas::signs_are))]
fn shared_signs(alloc: Global) -> Result<SharedSigns, OutOfMemory>
    ensures { IfOk result (λ s. s ≡ shared_signs) }
{
    let signs = words_in(alloc, SIGNS)?;
    match <[Text; 9]>::try_from(signs) {
        Ok(signs) => Ok(signs_of(signs)),
        Err(_) => unreachable!(),
    }
}

fn signs_of(signs: [Text; 9]) -> SharedSigns
    ensures { list_of_signs result ≡ signs }
{
    let [
        percent,
        plus,
        minus,
        approximately,
        exponential,
        superscripting_exponent,
        per_mille,
        infinity,
        nan,
    ] = signs;
    SharedSigns {
        percent,
        plus,
        minus,
        approximately,
        exponential,
        superscripting_exponent,
        per_mille,
        infinity,
        nan,
    }
}

/// The formats of amounts of money, in the order of their fields.
fn of_money(formats: [Text; 4]) -> CurrencyFormats
    ensures { result ≡ of_money formats }
{
    let [
        standard,
        standard_no_currency,
        accounting,
        accounting_no_currency,
    ] = formats;
    CurrencyFormats {
        standard,
        standard_alpha_next_to_number: None,
        standard_no_currency,
        accounting,
        accounting_alpha_next_to_number: None,
        accounting_no_currency,
    }
}

/// No names of days and months, and these formats.
fn dates_of(alloc: Global, dates: [Text; 4], times: [Text; 4], dates_with_times: [Text; 4]) -> Dates
    ensures { result ≡ dates_of (in_order dates) (in_order times) (in_order dates_with_times) }
{
    Dates {
        day_names: Items::from(Vec::new(alloc)),
        day_names_short: Items::from(Vec::new(alloc)),
        months: Items::from(Vec::new(alloc)),
        months_short: Items::from(Vec::new(alloc)),
        months_letter: Items::from(Vec::new(alloc)),
        date_formats: in_order(dates),
        time_formats: in_order(times),
        date_time_formats: in_order(dates_with_times),
    }
}

/// Formats by their length, the longest first.
fn in_order(formats: [Text; 4]) -> DateFormats
    ensures { result ≡ in_order formats }
{
    let [full, long, medium, short] = formats;
    DateFormats {
        full,
        long,
        medium,
        short,
    }
}
