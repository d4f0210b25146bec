//! What a typed text is, as parts of the text itself.
ghost use Rattle.std.specs.Prelude.{◌≡◌, ◌∷◌, neg_ℤ, chars};
ghost use Rattle.ic_input.specs.Date.{iso_number};
ghost use Rattle.ic_input.specs.Number.{unsigned_number};
ghost use Rattle.ic_input.specs.Typed.{amount_of_day, as_date, as_error, as_signed, as_word, boolean_word, error_at, error_in, error_word, is_text, sign_of, typed, typed_as, typed_from, typed_unsigned};

use crate::code::NumberCode;
use crate::convention::is_nothing;
use crate::date::{iso_number, short_number};
use crate::number::unsigned_number;
use crate::word::{find_boolean, find_error};
use ic_laws::scan::first_char;
use ic_laws::{Amount, Error};
use ic_tables::{Language, Locale};

/// What a typed text is.
#[derive(Drop)]
pub(crate) enum Kind<'t> {
    Empty,
    Quoted(&'t str),
    Formula(&'t str),
    Number(Amount, Option<NumberCode<'t>>),
    Date(Amount, &'t str),
    Boolean(bool),
    Error(Error),
    Text(&'t str),
}

/// What a typed text is.
#[tactic(auto, unfolding(crate::specs::Typed::typed))]
pub(crate) fn kind_of<'t>(
    text: &'t str,
    locale: &'t Locale,
    language: &Language,
    english: &Language,
) -> Kind<'t>
    ensures { typed_as result ≡ typed locale.entry.now language.now english.now
        (chars text.entry.now) }
{
    match first_char(text) {
        None => Kind::Empty,
        Some((c, rest)) => {
            if c == '\'' {
                Kind::Quoted(rest)
            } else {
                kind_from(text, c, rest, locale, language, english)
            }
        }
    }
}

// The same of a text by its first character, which is no quote, and what stands after it.
fn kind_from<'t>(
    text: &'t str,
    c: char,
    rest: &'t str,
    locale: &'t Locale,
    language: &Language,
    english: &Language,
) -> Kind<'t>
    requires { chars text.now ≡ c ∷ chars rest.now }
    ensures { typed_as result ≡ typed_from locale.entry.now language.now english.now c
        (chars rest.entry.now) }
{
    if is_nothing(rest) {
        kind_unsigned(text, locale, language, english)
    } else if c == '=' {
        Kind::Formula(rest)
    } else if c == '+' || c == '-' {
        kind_signed(text, c, rest, locale)
    } else {
        kind_unsigned(text, locale, language, english)
    }
}

// The same of a text that a sign begins and something follows.
fn kind_signed<'t>(text: &'t str, sign: char, rest: &'t str, locale: &Locale) -> Kind<'t>
    requires { chars text.now ≡ sign ∷ chars rest.now }
    ensures { typed_as result ≡ as_signed (sign ∷ chars rest.entry.now) (sign_of sign)
        (unsigned_number locale.now (chars rest.entry.now)) }
{
    match unsigned_number(rest, locale) {
        Some(number) => Kind::Number(with_sign(sign, number.amount), number.code),
        None => Kind::Formula(text),
    }
}

// An amount with its sign.
fn with_sign(sign: char, v: Amount) -> Amount
    ensures { result ≡ sign_of sign v }
{
    if sign == '-' { opposite(v) } else { v }
}

// The amount below 0 that is as far from it.
fn opposite(v: Amount) -> Amount
    ensures { result ≡ neg_ℤ v }
{
    Amount::from_units(-v.units()).unwrap()
}

// The same of a text that no quote and no sign begins.
fn kind_unsigned<'t>(
    text: &'t str,
    locale: &'t Locale,
    language: &Language,
    english: &Language,
) -> Kind<'t>
    ensures { typed_as result ≡ typed_unsigned locale.entry.now language.now english.now
        (chars text.entry.now) }
{
    match unsigned_number(text, locale) {
        Some(number) => Kind::Number(number.amount, number.code),
        None => kind_of_date(text, locale, language, english),
    }
}

// The same of a text that is no number but may be a date.
#[tactic(auto, using(crate::proofs::LiteralLemmas::literals))]
fn kind_of_date<'t>(
    text: &'t str,
    locale: &'t Locale,
    language: &Language,
    english: &Language,
) -> Kind<'t>
    ensures { typed_as result ≡ as_date locale.entry.now language.now english.now
        (chars text.entry.now) (iso_number (chars text.entry.now)) }
{
    if let Some(n) = iso_number(text) {
        return Kind::Date(amount_of_day(n), "yyyy-mm-dd");
    }
    if let Some(n) = short_number(text, locale) {
        return Kind::Date(amount_of_day(n), locale.dates.date_formats.short.as_str());
    }
    kind_of_word(text, language, english)
}

// The amount of a day number.
fn amount_of_day(n: u32) -> Amount
    ensures { result ≡ amount_of_day n }
{
    Amount::from_units(i128::from(n) * 1_000_000_000).unwrap()
}

// The same of a text that may be a word.
#[tactic(auto, unfolding(crate::specs::Typed::as_word))]
fn kind_of_word<'t>(text: &'t str, language: &Language, english: &Language) -> Kind<'t>
    ensures { typed_as result ≡ as_word language.now english.now (chars text.entry.now) }
{
    match boolean_word(text, language, english) {
        Some(n) => Kind::Boolean(n == 0),
        None => kind_of_error(text, language, english),
    }
}

// The same of a text that may be the word of an error.
fn kind_of_error<'t>(text: &'t str, language: &Language, english: &Language) -> Kind<'t>
    ensures { typed_as result ≡ as_error (chars text.entry.now)
        (error_in (error_word language.now english.now (chars text.entry.now))) }
{
    match error_of(text, language, english) {
        Some(e) => Kind::Error(e),
        None => Kind::Text(text),
    }
}

// The error whose word agrees with the text.
fn error_of(text: &str, language: &Language, english: &Language) -> Option<Error>
    ensures { result ≡ error_in (error_word language.now english.now (chars text.now)) }
{
    error_at(error_word(text, language, english)?)
}

// The number of the boolean's word that agrees with the text: one of the language, or else an English one.
fn boolean_word(text: &str, language: &Language, english: &Language) -> Option<usize>
    ensures { result ≡ boolean_word language.now english.now (chars text.now) }
{
    match find_boolean(language, text) {
        Some(n) => Some(n),
        None => find_boolean(english, text),
    }
}

// The number of the error value's word that agrees with the text: one of the language, or else an English one.
fn error_word(text: &str, language: &Language, english: &Language) -> Option<usize>
    ensures { result ≡ error_word language.now english.now (chars text.now) }
{
    match find_error(language, text) {
        Some(n) => Some(n),
        None => find_error(english, text),
    }
}

/// The error value with a number, from 0 in the order of the variants of `Error`. None past the last of the twelve.
pub fn error_at(n: usize) -> Option<Error>
    ensures { result ≡ error_at n }
{
    const ERRORS: [Error; 12] = [
        Error::REF,
        Error::NAME,
        Error::VALUE,
        Error::DIV,
        Error::NA,
        Error::NUM,
        Error::NIMPL,
        Error::SPILL,
        Error::CALC,
        Error::CIRC,
        Error::ERROR,
        Error::NULL,
    ];
    ERRORS.get(n).copied()
}

impl<'t> Kind<'t> {
    /// Whether it is a text or nothing.
    pub(crate) fn is_text(&self) -> bool
        ensures { result ≡ is_text (typed_as self.now) }
    {
        matches!(self, Kind::Empty | Kind::Text(_))
    }
}
