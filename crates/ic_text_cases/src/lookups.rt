//! Look-ups in the sample tables.
use ic_laws::{OutOfMemory, WordKind};
use ic_rows::Row;
use ic_tables::{BookIdError, FunctionKind, Locale, Words, find_word, word};

/// Answers the call, if it is one of these.
pub fn call(row: &mut Row<'_>) {
    match row.name {
        "find_word" => put_word(row),
        "function_kind" => put_kind(row),
        "get_language" => put_language(row),
        "get_locale" => put_locale(row),
        "get_supported_locales" => put_strings(row, row.tables.get_supported_locales()),
        "get_all_timezones" => put_strings(row, row.tables.get_all_timezones()),
        _ => {}
    }
}

/// An id that the tables lack.
fn put_id_error(row: &mut Row<'_>, e: BookIdError) {
    let name = match e {
        BookIdError::InvalidLanguage => "InvalidLanguage",
        BookIdError::InvalidLocale => "InvalidLocale",
    };
    row.put_error(name, e.to_string(row.alloc));
}

fn put_word(row: &mut Row<'_>) {
    match row.tables.get_words(row.word(1)) {
        Ok(words) => put_found(row, &words, kind(row.word(2)), row.word(3)),
        Err(e) => put_id_error(row, e),
    }
}

fn kind(name: &str) -> WordKind {
    match name {
        "boolean" => WordKind::Boolean,
        "error" => WordKind::Error,
        _ => WordKind::Function,
    }
}

/// The number of a word, by the order of the language's words, and the word of this number; the plain search has to
/// agree.
fn put_found(row: &mut Row<'_>, words: &Words<'_>, kind: WordKind, text: &str) {
    let found = words.find(kind, text);
    row.done(found == find_word(words.language, kind, text));
    match found {
        Some(n) => {
            row.put_number(n as i128);
            row.tab();
            row.put_text(word(words.language, kind, n).unwrap_or(""));
        }
        None => row.none(),
    }
}

fn put_kind(row: &mut Row<'_>) {
    let n = row.size(1);
    row.put(match row.tables.function_kind(n) {
        Some(FunctionKind::Whole) => "Whole",
        Some(FunctionKind::Each) => "Each",
        Some(FunctionKind::Dynamic) => "Dynamic",
        None => "none",
    });
}

fn put_language(row: &mut Row<'_>) {
    match row.tables.get_language(row.word(1)) {
        Ok(language) => row.put_text(language.name.as_str()),
        Err(e) => put_id_error(row, e),
    }
}

fn put_locale(row: &mut Row<'_>) {
    match row.tables.get_locale(row.word(1)) {
        Ok(locale) => put_signs(row, locale),
        Err(e) => put_id_error(row, e),
    }
}

/// Its separators, its currency and its formats, and the signs that all locales share.
fn put_signs(row: &mut Row<'_>, locale: &Locale) {
    let symbols = &locale.numbers.symbols;
    row.put_each(&[
        &symbols.decimal,
        &symbols.group,
        &symbols.list,
        &locale.currency.iso,
        &locale.currency.symbol,
        &locale.numbers.currency_formats.standard,
        &locale.dates.date_formats.short,
        &locale.dates.date_formats.long,
        &symbols.percent_sign,
        &symbols.plus_sign,
        &symbols.minus_sign,
        &symbols.approximately_sign,
        &symbols.exponential,
        &symbols.superscripting_exponent,
        &symbols.per_mille,
        &symbols.infinity,
        &symbols.nan,
        &symbols.time_separator,
    ]);
}

fn put_strings(row: &mut Row<'_>, texts: Result<Vec<String>, OutOfMemory>) {
    match texts {
        Ok(texts) => {
            for text in texts.as_slice() {
                row.put_text(text.as_str());
                row.tab();
            }
        }
        Err(_) => row.bad(),
    }
}
