ghost use Rattle.std.specs.Prelude.{◌≡◌, ◌↔◌, ◌==◌, ◌∷◌, List, ℕ, Some, chars, option_map, IfOk, IsOk};
ghost use Rattle.ic_laws.specs.Scan.{first_is};
ghost use Rattle.ic_tables.specs.Tables.{HasGoodFormats, TableSet};
ghost use Rattle.ic_input.specs.Code.{code_text};
ghost use Rattle.ic_input.specs.declared.input.Typed.TheVariants as kinds;
ghost use Rattle.ic_input.specs.Number.{unsigned_number};
ghost use Rattle.ic_input.specs.Typed.{IsFormula, IsTyped, begins_formula, formula_from, formula_of, needs_quoting, unless_number, typed, typed_as};
ghost use Rattle.ic_input.specs.declared.input.Typed.{Typed};

use crate::code::{NumberCode, push_code};
use crate::convention::is_nothing;
use crate::kind::{Kind, kind_of};
use crate::number::unsigned_number;
use ic_laws::scan::first_char;
use ic_laws::{Amount, Error, OutOfMemory, Text};
use ic_tables::{Language, Locale};
use std::alloc::Global;

/// What a typed text is.
pub enum Typed {
    /// No character.
    Empty,
    /// What stands after a quote at the front.
    Quoted(Text),
    /// A formula: what stands after `=`, or the whole text where a sign begins it.
    Formula(Text),
    /// A number, or the day number of a date, and the format code that shows it as it was typed, if it needs one.
    Number(Amount, Option<Text>),
    Boolean(bool),
    Error(Error),
    /// Anything else, as it was typed.
    Text(Text),
}

impl Drop for Typed {
    fn drop(self) {
        match self {
            Self::Empty | Self::Boolean(_) | Self::Error(_) => {}
            Self::Quoted(text) => drop(text),
            Self::Formula(text) => drop(text),
            Self::Number(_, code) => drop(code),
            Self::Text(text) => drop(text),
        }
    }
}

/// What a typed text is: the first of these that holds.
///
/// 1. It is empty.
/// 2. A quote begins it.
/// 3. It is a formula: `=` begins it and something follows, or a sign begins it and something follows that is no number.
/// 4. It is a number by the locale's separators, plain or in groups of three, with `$`, `€` or the locale's symbol at
///    one side, or with a percent sign; or a date, as `2026-01-15` or by the locale's short dates.
/// 5. It agrees with a boolean's word of the language, or else an English one.
/// 6. It agrees with an error's word of the language, or else an English one.
/// 7. It is a text.
///
/// `english` is the language `en`. The locale and the languages are those of tables.
pub fn classify(
    alloc: Global,
    text: &str,
    locale: &Locale,
    language: &Language,
    english: &Language,
) -> Result<Typed, OutOfMemory>
    ensures exact { IfOk result (λ t. t ≡ typed locale.now language.now english.now
        (chars text.now)) }

    // By a locale of tables it is what the text is typed as, and nothing else.
    ensures typed { (tables : TableSet) → HasGoodFormats tables locale.now
        → IfOk result (λ t. (u : Typed) → IsTyped locale.now language.now english.now
        (chars text.now) u ↔ (u ≡ t)) }
{
    to_typed(alloc, kind_of(text, locale, language, english))
}

// The same with texts of its own.
fn to_typed(alloc: Global, kind: Kind<'_>) -> Result<Typed, OutOfMemory>
    ensures { IfOk result (λ t. t ≡ typed_as kind.entry) }
{
    match kind {
        Kind::Empty => Ok(Typed::Empty),
        Kind::Quoted(text) => Ok(Typed::Quoted(Text::from_str(alloc, text)?)),
        Kind::Formula(text) => Ok(Typed::Formula(Text::from_str(alloc, text)?)),
        Kind::Number(v, code) => to_number(alloc, v, code),
        Kind::Date(v, code) => Ok(Typed::Number(v, Some(Text::from_str(alloc, code)?))),
        Kind::Boolean(b) => Ok(Typed::Boolean(b)),
        Kind::Error(e) => Ok(Typed::Error(e)),
        Kind::Text(text) => Ok(Typed::Text(Text::from_str(alloc, text)?)),
    }
}

// A number with the code that asks for these parts, if there are any.
fn to_number(alloc: Global, v: Amount, code: Option<NumberCode<'_>>) -> Result<Typed, OutOfMemory>
    ensures { IfOk result (λ t. t ≡ kinds.Number v (option_map code_text code.entry)) }
{
    match code {
        Some(code) => Ok(Typed::Number(v, Some(code_text(alloc, &code)?))),
        None => Ok(Typed::Number(v, None)),
    }
}

// The code that asks for these parts.
fn code_text(alloc: Global, code: &NumberCode<'_>) -> Result<Text, OutOfMemory>
    ensures { IfOk result (λ t. t ≡ code_text code.now) }
{
    let mut text = String::new(alloc);
    push_code(&mut text, code)?;
    Ok(Text::from(text))
}

/// The formula of a typed text: what stands after `=`, if anything does; or the whole text, where a sign begins it and
/// something follows that is no number. None exactly where it has none. It is what `classify` answers of a formula.
#[tactic(auto, unfolding(crate::specs::Typed::formula_of))]
pub fn formula_without_prefix<'t>(text: &'t str, locale: &Locale) -> Option<&'t str>
    ensures exact { option_map (λ f. chars f.now) result
        ≡ formula_of locale.now (chars text.entry.now) }

    // By a locale of tables it is the formula of the text, and nothing else is.
    ensures formula { (tables : TableSet) (f : List ℕ) → HasGoodFormats tables locale.now
        → IsFormula locale.now (chars text.entry.now) f
        ↔ (formula_of locale.now (chars text.entry.now) ≡ Some f) }
{
    let (c, rest) = first_char(text)?;
    formula_from(text, c, rest, locale)
}

// The same by the first character and what stands after it.
fn formula_from<'t>(text: &'t str, c: char, rest: &'t str, locale: &Locale) -> Option<&'t str>
    requires { chars text.now ≡ c ∷ chars rest.now }
    ensures { option_map (λ f. chars f.now) result
        ≡ formula_from locale.now c (chars rest.entry.now) }
{
    if is_nothing(rest) {
        None
    } else if c == '=' {
        Some(rest)
    } else if c == '+' || c == '-' {
        unless_number(text, rest, locale)
    } else {
        None
    }
}

// A text that a sign begins, unless what follows is a number.
fn unless_number<'t>(text: &'t str, rest: &str, locale: &Locale) -> Option<&'t str>
    ensures { option_map (λ f. chars f.now) result
        ≡ unless_number (chars text.entry.now) (unsigned_number locale.now (chars rest.now)) }
{
    match unsigned_number(rest, locale) {
        Some(_) => None,
        None => Some(text),
    }
}

/// Whether a text has to be typed after a quote to stay a text: whether it begins with `=`, `+` or `-`, or is typed as
/// something else than a text or nothing. It never runs out of memory.
pub fn value_needs_quoting(
    alloc: Global,
    text: &str,
    locale: &Locale,
    language: &Language,
    english: &Language,
) -> Result<bool, OutOfMemory>
    ensures value { IfOk result (λ b. b ≡ needs_quoting (chars text.now)
        (typed locale.now language.now english.now (chars text.now))) }
    ensures succeeds { IsOk result }
{
    Ok(begins_formula(text) || !kind_of(text, locale, language, english).is_text())
}

// Whether it begins as a formula may.
fn begins_formula(text: &str) -> bool
    ensures { result ≡ first_is begins_formula (chars text.now) }
{
    match first_char(text) {
        Some((c, _)) => c == '=' || c == '+' || c == '-',
        None => false,
    }
}
