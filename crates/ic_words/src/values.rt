//! Words that say the values of formulas and of the cells of a spill.
ghost use Rattle.std.specs.Prelude.{◌≡◌, IfOk, chars, option_map};
ghost use Rattle.ic_laws.specs.Character.{dot};
ghost use Rattle.ic_tables.specs.Words.{error_words, first_agreeing};
ghost use Rattle.ic_cells.specs.declared.value.SpillValue.TheVariants as spills;
ghost use Rattle.ic_input.specs.Amount.{signed_amount};
ghost use Rattle.ic_input.specs.Typed.{error_in};
ghost use Rattle.ic_machine.specs.Word as machine;
ghost use Rattle.ic_machine.specs.Word.{Done, Many, OfSpill, OfValue, Then, bool_said, spill_said, value_said, value_said_by};
ghost use Rattle.ic_words.specs.Words.{spill_word, words_left};

use crate::choices::bool_in;
use crate::text::text_of;
use crate::word::Word;
use crate::words::first_word;
use ic_cells::{FormulaValue, SpillValue};
use ic_grid::gathered;
use ic_input::{error_at, read_amount};
use ic_laws::scan::{first_char, same_text};
use ic_laws::{Boxed, OutOfMemory, WordKind};
use ic_tables::{Language, find_word};
use std::alloc::Global;

/// The values that the words of a command say, where the last of them are values of cells: an error value is said by its
/// English word.
pub trait ValueWords<'l>: Drop {
    ghost forms: { machine.Words };

    ghost says: { Self → machine.AllSaid forms };

    /// What the words that are left say; None where they are more or fewer, or one isn't of its form.
    fn of(
        alloc: Global,
        english: &Language,
        rest: Option<&'l str>,
    ) -> Result<Option<Self>, OutOfMemory>
        ensures { IfOk result (λ values. option_map says values
            ≡ machine.words_said (error_words english.now) forms (words_left rest.entry)) };
}

impl<'l, A: Word<'l>, B: ValueWords<'l>> ValueWords<'l> for (A, B) {
    ghost forms = { machine.Then A.form B.forms };

    ghost says = { λ words. (A.says words.0, B.says words.1) };

    fn of(
        alloc: Global,
        english: &Language,
        rest: Option<&'l str>,
    ) -> Result<Option<(A, B)>, OutOfMemory> {
        let Some(line) = rest else {
            return Ok(None);
        };
        let (word, rest) = first_word(line);
        let Some(first) = A::of(alloc, word)? else {
            return Ok(None);
        };
        let Some(others) = B::of(alloc, english, rest)? else {
            return Ok(None);
        };
        Ok(Some((first, others)))
    }
}

/// The value of a formula, by the last word.
impl<'l> ValueWords<'l> for FormulaValue {
    ghost forms = { Then OfValue Done };

    ghost says = { λ value. (value, tt) };

    fn of(
        alloc: Global,
        english: &Language,
        rest: Option<&'l str>,
    ) -> Result<Option<FormulaValue>, OutOfMemory> {
        let Some(line) = rest else {
            return Ok(None);
        };
        let (word, rest) = first_word(line);
        if rest.is_some() {
            return Ok(None);
        }
        let Some(text) = text_of(alloc, word)? else {
            return Ok(None);
        };
        value_in(alloc, english, text.as_str())
    }
}

/// The values of cells, by the last words, of which there is one at least.
impl<'l> ValueWords<'l> for Vec<SpillValue> {
    ghost forms = { Many OfSpill };

    ghost says = { λ values. values.items };

    fn of(
        alloc: Global,
        english: &Language,
        rest: Option<&'l str>,
    ) -> Result<Option<Vec<SpillValue>>, OutOfMemory> {
        if rest.is_none() {
            return Ok(None);
        }
        let mut values = Vec::new(alloc);
        let mut left = rest;
        while let Some(line) = left {
            let (word, more) = first_word(line);
            let Some(value) = spill_value(alloc, english, word)? else {
                return Ok(None);
            };
            values.push(value)?;
            left = more;
        }
        Ok(Some(values))
    }
}

/// The value of a cell of a spill that a word says.
fn spill_value(
    alloc: Global,
    english: &Language,
    word: &str,
) -> Result<Option<SpillValue>, OutOfMemory>
    ensures { IfOk result (λ value. value
        ≡ spill_word (error_words english.now) (chars word.now)) }
{
    match text_of(alloc, word)? {
        Some(text) => spill_value_in(alloc, english, text.as_str()),
        None => Ok(None),
    }
}

/// The value of a formula that a text says: none for `u`, else that of a cell of a spill.
#[tactic(auto, unfolding(crate::proofs::Literals::literal))]
fn value_in(
    alloc: Global,
    english: &Language,
    text: &str,
) -> Result<Option<FormulaValue>, OutOfMemory>
    ensures { IfOk result (λ value. value ≡ value_said (error_words english.now) (chars text.now)) }
{
    if same_text(text, "u") {
        return Ok(Some(FormulaValue::Unevaluated));
    }
    match spill_value_in(alloc, english, text)? {
        Some(value) => Ok(Some(gathered(value))),
        None => Ok(None),
    }
}

/// The value of a cell of a spill that a text says, by the letter before its colon.
fn spill_value_in(
    alloc: Global,
    english: &Language,
    text: &str,
) -> Result<Option<SpillValue>, OutOfMemory>
    ensures { IfOk result (λ value. value ≡ spill_said (error_words english.now) (chars text.now)) }
{
    let Some((kind, after)) = first_char(text) else {
        return Ok(None);
    };
    match first_char(after) {
        Some((':', said)) => value_of_kind(alloc, english, kind, said),
        _ => Ok(None),
    }
}

/// What a text says of a kind: an amount for `n`, `true` or `false` for `b`, a text for `t`, and for `e` the English word of
/// an error value. None for another letter.
fn value_of_kind(
    alloc: Global,
    english: &Language,
    kind: char,
    said: &str,
) -> Result<Option<SpillValue>, OutOfMemory>
    ensures { IfOk result (λ value. value
        ≡ value_said_by (error_words english.now) kind (chars said.now)) }
{
    match kind {
        'n' => Ok(number_value(said)),
        'b' => Ok(boolean_value(said)),
        't' => Ok(Some(SpillValue::Text(Boxed::from_str(alloc, said)?))),
        'e' => Ok(error_value(english, said)),
        _ => Ok(None),
    }
}

/// The amount that a text says.
fn number_value(said: &str) -> Option<SpillValue>
    ensures { result ≡ option_map spills.Number (signed_amount dot (chars said.now)) }
{
    match read_amount(said, '.') {
        Some(amount) => Some(SpillValue::Number(amount)),
        None => None,
    }
}

/// The truth that a text says.
fn boolean_value(said: &str) -> Option<SpillValue>
    ensures { result ≡ option_map spills.Boolean (bool_said (chars said.now)) }
{
    match bool_in(said) {
        Some(truth) => Some(SpillValue::Boolean(truth)),
        None => None,
    }
}

/// The error value whose English word agrees with a text.
fn error_value(english: &Language, said: &str) -> Option<SpillValue>
    ensures { result ≡ option_map spills.Error
        (error_in (first_agreeing (error_words english.now) (chars said.now))) }
{
    let number = find_word(english, WordKind::Error, said)?;
    let error = error_at(number)?;
    Some(SpillValue::Error(error))
}
