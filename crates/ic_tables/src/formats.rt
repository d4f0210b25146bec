//! What a locale's separators, symbol and dates have to be.
ghost use Rattle.std.specs.Prelude.{◌≡◌, ◌==◌, chars, codes};
ghost use Rattle.std.specs.List.{list_any};
ghost use Rattle.ic_laws.specs.Scan.{first_is, is_blank};
ghost use Rattle.ic_tables.specs.Formats.{are_separators, are_up_to, begins_boolean, decimal_separator, has_dates, has_group, has_separators, has_symbol, is_date, is_only, is_short_date, is_symbol, may_group, may_stand_in_symbol, parts_groups};
ghost use Rattle.ic_tables.specs.Words.{words_of_booleans};

use crate::{Booleans, Language, Locale, NumbersSymbols};
use ic_laws::Text;
use ic_laws::scan::{begins_with, first_char, is_nothing};
use unicode::properties::is_alphabetic;

/// Whether the separators of arguments and decimals are `,` and `.`, or `;` and `,`.
#[tactic(auto, unfolding(crate::specs::Formats::has_separators))]
pub fn has_separators(locale: &Locale) -> bool
    ensures { result ≡ has_separators locale.now }
{
    are_separators(&locale.numbers.symbols)
}

#[tactic(auto, using(crate::proofs::LiteralLemmas::literals))]
fn are_separators(symbols: &NumbersSymbols) -> bool
    ensures { result ≡ are_separators symbols.now }
{
    symbols.list.is(",") && symbols.decimal.is(".")
        || symbols.list.is(";") && symbols.decimal.is(",")
}

impl Locale {
    /// The character before decimals: a comma where the locale's text is one, else a dot, which is the only other one that
    /// tables have.
    #[tactic(auto, using(crate::proofs::LiteralLemmas::literals))]
    pub fn decimal_separator(&self) -> char
        ensures { result ≡ decimal_separator self.now }
    {
        if self.numbers.symbols.decimal.is(",") {
            ','
        } else {
            '.'
        }
    }
}

/// Whether groups of digits are parted by one character that can't be taken for another part of a number.
#[tactic(auto, unfolding(crate::specs::Formats::has_group))]
pub fn has_group(locale: &Locale) -> bool
    ensures { result ≡ has_group locale.now }
{
    let symbols = &locale.numbers.symbols;
    parts_groups(&symbols.decimal, symbols.group.as_str())
}

fn parts_groups(decimal: &Text, group: &str) -> bool
    ensures { result ≡ parts_groups decimal.now (chars group.now) }
{
    match first_char(group) {
        Some((c, rest)) => is_nothing(rest) && may_group(c) && !decimal.is(group),
        None => false,
    }
}

fn may_group(c: char) -> bool
    ensures { result ≡ may_group c }
{
    !is_alphabetic(c) && !c.is_ascii_digit() && !matches!(c, '+' | '-' | '%' | '\'' | '"')
}

/// Whether the currency's symbol can't be taken for a part of a number, nor for the front of a boolean word of one of
/// these languages.
#[tactic(auto, unfolding(crate::specs::Formats::has_symbol))]
pub fn has_symbol(languages: &[Language], locale: &Locale) -> bool
    ensures { result ≡ has_symbol languages.now locale.now }
{
    let group = locale.numbers.symbols.group.as_str();
    is_symbol(languages, group, locale.currency.symbol.as_str())
}

fn is_symbol(languages: &[Language], group: &str, symbol: &str) -> bool
    ensures { result ≡ is_symbol languages.now (chars group.now) (chars symbol.now) }
{
    match first_char(symbol) {
        Some((c, _)) => !begins_boolean(languages, c) && are_up_to(4, group, symbol),
        None => false,
    }
}

/// Whether a boolean word of one of these languages begins with the character.
fn begins_boolean(languages: &[Language], c: char) -> bool
    ensures { result ≡ begins_boolean languages.now c }
{
    languages
        .iter()
        .any(|language| begins_word_of(c, &language.booleans))
}

fn begins_word_of(c: char, booleans: &Booleans) -> bool
    ensures { result ≡ list_any (first_is (λ d. d == c)) (words_of_booleans booleans.now) }
{
    begins_with(booleans.true_word.as_str(), c) || begins_with(booleans.false_word.as_str(), c)
}

/// Whether there are at most so many characters, each of which may stand in a symbol and isn't the separator of groups.
fn are_up_to(most: usize, group: &str, text: &str) -> bool
    ensures { result ≡ are_up_to most (chars group.now) (chars text.now) }
{
    match first_char(text) {
        Some((c, rest)) => {
            most > 0
                && may_stand_in_symbol(c)
                && !is_only(c, group)
                && are_up_to(most - 1, group, rest)
        }
        None => true,
    }
}

fn may_stand_in_symbol(c: char) -> bool
    ensures { result ≡ may_stand_in_symbol c }
{
    !c.is_ascii_digit() && !is_blank(c) && !is_mark(c)
}

fn is_blank(c: char) -> bool
    ensures { result ≡ is_blank c }
{
    matches!(c, ' ' | '\t' | '\n' | '\r')
}

fn is_mark(c: char) -> bool
    ensures { result ≡ list_any (λ x. c == x) (codes "#,.%\"+-='") }
{
    matches!(c, '#' | ',' | '.' | '%' | '"' | '+' | '-' | '=' | '\'')
}

/// Whether the text is this character alone.
fn is_only(c: char, text: &str) -> bool
    ensures { result ≡ is_only c (chars text.now) }
{
    match first_char(text) {
        Some((d, rest)) => d == c && is_nothing(rest),
        None => false,
    }
}

/// Whether short dates are `m/d/yyyy` or `dd/mm/yyyy`, and long ones one of these or `yyyy-mm-dd`.
#[tactic(auto, unfolding(crate::specs::Formats::has_dates))]
pub fn has_dates(locale: &Locale) -> bool
    ensures { result ≡ has_dates locale.now }
{
    let dates = &locale.dates.date_formats;
    is_short_date(&dates.short) && is_date(&dates.long)
}

#[tactic(auto, using(crate::proofs::LiteralLemmas::literals))]
fn is_short_date(code: &Text) -> bool
    ensures { result ≡ is_short_date code.now }
{
    code.is("m/d/yyyy") || code.is("dd/mm/yyyy")
}

#[tactic(auto, using(crate::proofs::LiteralLemmas::literals))]
fn is_date(code: &Text) -> bool
    ensures { result ≡ is_date code.now }
{
    is_short_date(code) || code.is("yyyy-mm-dd")
}
