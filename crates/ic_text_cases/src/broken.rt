//! Tables that break a condition.
use ic_laws::{Items, Text};
use ic_rows::Row;
use ic_tables::{FunctionKind, Language, LocaleWords, NamedLocale, Tables, TablesError};
use std::alloc::Global;

/// What tables are made of.
struct Given {
    languages: Items<Language>,
    locales: Items<NamedLocale>,
    zones: Items<Text>,
    kinds: Items<FunctionKind>,
}

impl Drop for Given {
    fn drop(self) {
        let Self {
            languages,
            locales,
            zones,
            kinds,
        } = self;
        drop(languages);
        drop(locales);
        drop(zones);
        drop(kinds);
    }
}

impl Given {
    /// Nothing yet.
    fn new(alloc: Global) -> Given {
        Given {
            languages: Items::from(Vec::new(alloc)),
            locales: Items::from(Vec::new(alloc)),
            zones: Items::from(Vec::new(alloc)),
            kinds: Items::from(Vec::new(alloc)),
        }
    }

    /// The tables that it makes.
    fn into_tables(self, alloc: Global) -> Result<Tables, TablesError> {
        let Given {
            languages,
            locales,
            zones,
            kinds,
        } = self;
        Tables::new(alloc, languages, locales, zones, kinds)
    }
}

/// `tables` and a name, and then what the tables have: each `language` with its code, its booleans, its errors and its
/// functions, each `locale` with its id, its separators for decimals, groups and lists, its currency's code, sign and
/// format, and its formats of dates, each `zone` with its id, and each `kind` of a function. The answer is the number of
/// the first condition that these tables fail, `none` where they meet all.
pub fn call(row: &mut Row<'_>) {
    if row.name == "tables" {
        row.skip(2);
        put_broken(row);
    }
}

fn put_broken(row: &mut Row<'_>) {
    let given = gather(row);
    put_condition(row, &given.into_tables(row.alloc));
}

/// The condition that these tables fail first.
fn put_condition(row: &mut Row<'_>, tables: &Result<Tables, TablesError>) {
    match tables {
        Ok(_) => row.none(),
        Err(TablesError::BadTables(n)) => row.put_number(i128::from(*n)),
        Err(TablesError::OutOfMemory) => row.bad(),
    }
}

/// All that a row gives.
fn gather(row: &mut Row<'_>) -> Given {
    let mut given = Given::new(row.alloc);
    for _ in 0..row.words.len() {
        if row.words.is_empty() {
            break;
        }
        let count = add(row, &mut given);
        row.skip(count);
    }
    given
}

/// Adds what stands at the front of a row, and answers how many words it takes.
fn add(row: &mut Row<'_>, given: &mut Given) -> usize {
    match row.word(0) {
        "language" => {
            add_language(row, &mut given.languages);
            5
        }
        "locale" => {
            add_locale(row, &mut given.locales);
            10
        }
        "zone" => {
            let zone = row.text(row.word(1));
            row.done(given.zones.push(zone).is_ok());
            2
        }
        _ => {
            row.done(given.kinds.push(FunctionKind::Each).is_ok());
            1
        }
    }
}

/// Adds a language, where its words are as many as it takes.
fn add_language(row: &mut Row<'_>, languages: &mut Items<Language>) {
    let (code, booleans) = (row.word(1), row.word(2));
    let (errors, functions) = (row.word(3), row.word(4));
    match Language::from_words(row.alloc, code, "name", booleans, errors, functions) {
        Ok(Some(language)) => row.done(languages.push(language).is_ok()),
        Ok(None) => {}
        Err(_) => row.bad(),
    }
}

fn add_locale(row: &mut Row<'_>, locales: &mut Items<NamedLocale>) {
    match NamedLocale::from_words(row.alloc, &locale_words(row)) {
        Ok(locale) => row.done(locales.push(locale).is_ok()),
        Err(_) => row.bad(),
    }
}

fn locale_words<'w>(row: &Row<'w>) -> LocaleWords<'w> {
    LocaleWords {
        id: row.word(1),
        decimal: row.word(2),
        group: row.word(3),
        list: row.word(4),
        iso: row.word(5),
        symbol: row.word(6),
        money: row.word(7),
        short_date: row.word(8),
        long_date: row.word(9),
    }
}
