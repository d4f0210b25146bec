ghost use Rattle.std.specs.Prelude.{◌≡◌, ◌&&◌, ◌||◌, IfOk, bytes_eq, codes, not, option_copied};
ghost use Rattle.std.specs.List.{list_all};
ghost use Rattle.ic_tables.specs.Making.{Checks};
ghost use Rattle.ic_tables.specs.Tables.{TableSet, conditions, english, error_words_in, have_dates, have_groups, have_separators, have_symbols, list_conditions, locale_conditions, word_conditions};
ghost use Rattle.ic_tables.specs.Words.{has_boolean_words, has_error_words, has_function_words, has_stored_words, named_numbers, numbers_functions, share_numbers, tells_booleans, tells_errors};

use crate::formats::{has_dates, has_group, has_separators, has_symbol};
use crate::ids::{find_id, has_good_ids, have_different_ids};
use crate::words::{
    has_boolean_words, has_error_words, has_function_words, has_same_numbers, has_stored_words,
    numbers_functions, tells_booleans, tells_errors,
};
use crate::{FunctionKind, Language, NamedLocale, TablesError};
use ic_laws::{OutOfMemory, Text};
use std::alloc::Global;

/// Tests the conditions on tables in their order. `BadTables` carries the number, from 1, of the first that fails.
pub fn check(
    alloc: Global,
    languages: &[Language],
    locales: &[NamedLocale],
    zones: &[Text],
    kinds: &[FunctionKind],
) -> Result<(), TablesError>
    ensures { let set : TableSet = record {
      languages = languages.now;
      locales = locales.now;
      zones
          = zones.now;
      kinds = kinds.now;
    } in
        Checks 1 (conditions set) result }
{
    if !has_good_ids(languages) || !has_good_ids(locales) {
        return Err(TablesError::BadTables(1));
    }
    if !have_different_ids(zones) {
        return Err(TablesError::BadTables(2));
    }
    if !has_numbers(languages, kinds.len()) {
        return Err(TablesError::BadTables(3));
    }
    check_fixed_words(alloc, languages, locales)
}

/// The conditions from the fourth on: the words of English as they are stored, and the words of the booleans.
fn check_fixed_words(
    alloc: Global,
    languages: &[Language],
    locales: &[NamedLocale],
) -> Result<(), TablesError>
    ensures { Checks 4 (word_conditions languages.now locales.now) result }
{
    if !has_english_words(languages) {
        return Err(TablesError::BadTables(4));
    }
    if !have_boolean_words(languages) {
        return Err(TablesError::BadTables(5));
    }
    if !tell_booleans(languages) {
        return Err(TablesError::BadTables(6));
    }
    check_long_lists(alloc, languages, locales)
}

/// The conditions from the seventh on: the words of the functions and of the error values.
fn check_long_lists(
    alloc: Global,
    languages: &[Language],
    locales: &[NamedLocale],
) -> Result<(), TablesError>
    ensures { Checks 7 (list_conditions languages.now locales.now) result }
{
    if !have_function_words(alloc, languages)? {
        return Err(TablesError::BadTables(7));
    }
    if !have_error_words(alloc, languages)? {
        return Err(TablesError::BadTables(8));
    }
    if !tell_errors(alloc, languages)? {
        return Err(TablesError::BadTables(9));
    }
    check_locales(languages, locales)
}

/// The conditions from the tenth on: the separators, symbols and dates of the locales.
fn check_locales(languages: &[Language], locales: &[NamedLocale]) -> Result<(), TablesError>
    ensures { Checks 10 (locale_conditions languages.now locales.now) result }
{
    if !have_separators(locales) {
        return Err(TablesError::BadTables(10));
    }
    if !have_groups(locales) {
        return Err(TablesError::BadTables(11));
    }
    if !have_symbols(languages, locales) {
        return Err(TablesError::BadTables(12));
    }
    if !have_dates(locales) {
        return Err(TablesError::BadTables(13));
    }
    Ok(())
}

fn have_separators(locales: &[NamedLocale]) -> bool
    ensures { result ≡ have_separators locales.now }
{
    locales.iter().all(|named| has_separators(&named.locale))
}

fn have_groups(locales: &[NamedLocale]) -> bool
    ensures { result ≡ have_groups locales.now }
{
    locales.iter().all(|named| has_group(&named.locale))
}

fn have_symbols(languages: &[Language], locales: &[NamedLocale]) -> bool
    ensures { result ≡ have_symbols languages.now locales.now }
{
    locales
        .iter()
        .all(|named| has_symbol(languages, &named.locale))
}

fn have_dates(locales: &[NamedLocale]) -> bool
    ensures { result ≡ have_dates locales.now }
{
    locales.iter().all(|named| has_dates(&named.locale))
}

fn has_numbers(languages: &[Language], count: usize) -> bool
    ensures { result ≡ (list_all (numbers_functions count) languages.now
        && share_numbers languages.now) }
{
    number_functions(languages, count) && share_numbers(languages)
}

fn number_functions(languages: &[Language], count: usize) -> bool
    ensures { result ≡ list_all (numbers_functions count) languages.now }
{
    languages
        .iter()
        .all(|language| numbers_functions(count, language))
}

/// Whether LET, LAMBDA, TRUE and FALSE have the same numbers in all languages.
#[tactic(auto, unfolding(crate::specs::Words::share_numbers))]
fn share_numbers(languages: &[Language]) -> bool
    ensures { result ≡ share_numbers languages.now }
{
    match languages.split_first() {
        Some((first, others)) => have_numbers_of(first, others),
        None => true,
    }
}

fn have_numbers_of(first: &Language, others: &[Language]) -> bool
    ensures { result ≡ list_all (λ l. bytes_eq (named_numbers l) (named_numbers first.now))
        others.now }
{
    others
        .iter()
        .all(|language| has_same_numbers(language, first))
}

fn has_english_words(languages: &[Language]) -> bool
    ensures { result ≡ list_all (λ l. not (bytes_eq l.code (codes "en")) || has_stored_words l)
        languages.now }
{
    languages.iter().all(is_other_or_stored)
}

/// Whether the language isn't English, or has the words of formulas as they are stored.
fn is_other_or_stored(language: &Language) -> bool
    ensures { result ≡ (not (bytes_eq language.now.code (codes "en"))
        || has_stored_words language.now) }
{
    !language.code.is("en") || has_stored_words(language)
}

fn have_boolean_words(languages: &[Language]) -> bool
    ensures { result ≡ list_all has_boolean_words languages.now }
{
    languages.iter().all(has_boolean_words)
}

fn tell_booleans(languages: &[Language]) -> bool
    ensures { result ≡ list_all tells_booleans languages.now }
{
    languages.iter().all(tells_booleans)
}

fn have_function_words(alloc: Global, languages: &[Language]) -> Result<bool, OutOfMemory>
    ensures { IfOk result (λ have. have ≡ list_all has_function_words languages.now) }
{
    for language in languages {
        if !has_function_words(alloc, language)? {
            return Ok(false);
        }
    }
    Ok(true)
}

fn have_error_words(alloc: Global, languages: &[Language]) -> Result<bool, OutOfMemory>
    ensures { IfOk result (λ have. have ≡ list_all has_error_words languages.now) }
{
    for language in languages {
        if !has_error_words(alloc, language)? {
            return Ok(false);
        }
    }
    Ok(true)
}

/// Whether in each language no word of an error value begins another of that language or of English.
fn tell_errors(alloc: Global, languages: &[Language]) -> Result<bool, OutOfMemory>
    ensures { IfOk result (λ tell. tell ≡ list_all
        (tells_errors (error_words_in (english languages.now))) languages.now) }
{
    let english = english(languages);
    for language in languages {
        if !tells_errors(alloc, english, language)? {
            return Ok(false);
        }
    }
    Ok(true)
}

fn english(languages: &[Language]) -> Option<&Language>
    ensures { option_copied result ≡ english languages.now }
{
    find_id(languages, "en")
}
