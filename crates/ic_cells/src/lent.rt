//! The value of a cell with its text lent, so that each text is copied once, into what is answered.
ghost use Rattle.std.specs.Prelude.{◌≡◌, IfOk, chars};
ghost use Rattle.ic_cells.specs.Cell.{string_at, value_of};
ghost use Rattle.ic_cells.specs.Lent.{value_lent};
ghost use Rattle.ic_cells.specs.Value.{boolean_word, error_word, formula_type, formula_value, spill_type, spill_value};

use crate::{ArrayValue, Cell, CellType, CellValue, FormulaValue, SpillValue};
use ic_laws::{Amount, Error, OutOfMemory, Text};
use ic_tables::Language;
use std::alloc::Global;

/// What a formula without a value shows, in every language.
const UNEVALUATED: &str = "#ERROR!";

/// The value of a cell, whose text stands somewhere else.
#[derive(Clone, Copy)]
pub enum LentValue<'c> {
    Nothing,
    Text(&'c str),
    Number(Amount),
    Boolean(bool),
}

impl<'c> LentValue<'c> {
    /// The value with a text of its own.
    pub fn to_value(self, alloc: Global) -> Result<CellValue, OutOfMemory>
        ensures { IfOk result (λ v. v ≡ value_lent self.entry) }
    {
        match self {
            LentValue::Nothing => Ok(CellValue::None),
            LentValue::Text(text) => CellValue::from_str(alloc, text),
            LentValue::Number(amount) => Ok(CellValue::from(amount)),
            LentValue::Boolean(truth) => Ok(CellValue::from(truth)),
        }
    }
}

/// The value of a cell.
pub fn lent_from<'c>(cell: &'c Cell, strings: &'c [Text], language: &'c Language) -> LentValue<'c>
    ensures { value_lent result ≡ value_of strings.now language.now cell.now }
{
    match cell {
        Cell::EmptyCell { .. } => LentValue::Nothing,
        Cell::BooleanCell { v, .. } => LentValue::Boolean(*v),
        Cell::NumberCell { v, .. } => LentValue::Number(*v),
        Cell::ErrorCell { ei, .. } => LentValue::Text(error_word(language, *ei)),
        Cell::SharedString { si, .. } => LentValue::Text(string_at(strings, *si)),
        Cell::CellFormula { v, .. } => lent_formula(v, language),
        Cell::ArrayFormula { v, .. } => lent_array(v, language),
        Cell::SpillCell { v, .. } => lent_spill(v, language),
    }
}

#[tactic(auto, using(crate::proofs::Literals::literals))]
fn lent_formula<'c>(value: &'c FormulaValue, language: &'c Language) -> LentValue<'c>
    ensures { value_lent result ≡ formula_value language.now value.now }
{
    match value {
        FormulaValue::Unevaluated => LentValue::Text(UNEVALUATED),
        FormulaValue::Boolean(truth) => LentValue::Boolean(*truth),
        FormulaValue::Number(amount) => LentValue::Number(*amount),
        FormulaValue::Text(text) => LentValue::Text(text.as_ref().as_str()),
        FormulaValue::Error { ei, .. } => LentValue::Text(error_word(language, *ei)),
    }
}

#[tactic(auto, using(crate::proofs::Literals::literals))]
fn lent_array<'c>(value: &'c ArrayValue, language: &'c Language) -> LentValue<'c>
    ensures { value_lent result ≡ formula_value language.now value.now }
{
    match value.kept() {
        Some(value) => lent_formula(value, language),
        None => LentValue::Text(UNEVALUATED),
    }
}

fn lent_spill<'c>(value: &'c SpillValue, language: &'c Language) -> LentValue<'c>
    ensures { value_lent result ≡ spill_value language.now value.now }
{
    match value {
        SpillValue::Boolean(truth) => LentValue::Boolean(*truth),
        SpillValue::Number(amount) => LentValue::Number(*amount),
        SpillValue::Text(text) => LentValue::Text(text.as_ref().as_str()),
        SpillValue::Error(error) => LentValue::Text(error_word(language, *error)),
    }
}

/// The shared string at a place, and the empty text where there is none.
#[tactic(auto, using(crate::proofs::Literals::literals))]
fn string_at(strings: &[Text], place: usize) -> &str
    ensures { chars result.now ≡ string_at strings.now place }
{
    match strings.get(place) {
        Some(text) => text.as_str(),
        None => "",
    }
}

/// The word of an error value in a language.
fn error_word(language: &Language, error: Error) -> &str
    ensures { chars result.now ≡ error_word language.now error }
{
    let words = &language.errors;
    let word = match error {
        Error::REF => &words.ref_word,
        Error::NAME => &words.name,
        Error::VALUE => &words.value,
        Error::DIV => &words.div,
        Error::NA => &words.na,
        Error::NUM => &words.num,
        Error::NIMPL => &words.nimpl,
        Error::SPILL => &words.spill,
        Error::CALC => &words.calc,
        Error::CIRC => &words.circ,
        Error::ERROR => &words.error,
        Error::NULL => &words.null,
    };
    word.as_str()
}

/// The word of a boolean in a language.
pub fn boolean_word(language: &Language, truth: bool) -> &str
    ensures { chars result.now ≡ boolean_word language.now truth }
{
    if truth {
        language.booleans.true_word.as_str()
    } else {
        language.booleans.false_word.as_str()
    }
}

impl FormulaValue {
    /// The kind of the value.
    pub(crate) fn kind(&self) -> CellType
        ensures { result ≡ formula_type self.now }
    {
        match self {
            FormulaValue::Unevaluated => CellType::Number,
            FormulaValue::Boolean(_) => CellType::LogicalValue,
            FormulaValue::Number(_) => CellType::Number,
            FormulaValue::Text(_) => CellType::Text,
            FormulaValue::Error { .. } => CellType::ErrorValue,
        }
    }
}

impl SpillValue {
    /// The kind of the value.
    pub(crate) fn kind(&self) -> CellType
        ensures { result ≡ spill_type self.now }
    {
        match self {
            SpillValue::Boolean(_) => CellType::LogicalValue,
            SpillValue::Number(_) => CellType::Number,
            SpillValue::Text(_) => CellType::Text,
            SpillValue::Error(_) => CellType::ErrorValue,
        }
    }
}
