ghost use Rattle.std.specs.Prelude.{◌≡◌, List, ℕ, Some, Ok, IfOk, chars, is_some, string_bytes};
ghost use Rattle.ic_cells.specs.Cell.{cell_formula_index, style_of, type_of, value_of, with_style};
ghost use Rattle.ic_cells.specs.Value.{AsShown, FitsType, shown_text};
ghost use Rattle.ic_tables.specs.Formats.{decimal_separator};

use crate::lent::{LentValue, boolean_word, lent_from};
use crate::{ArrayValue, CellType, CellValue, FormulaValue, SpillValue};
use ic_laws::{Amount, Error, Items, OutOfMemory, Text, amount_spelling};
use ic_tables::{Language, Locale};
use std::alloc::Global;

/// How an array formula takes up its area.
#[derive(Clone, Copy)]
pub enum ArrayKind {
    /// As far as its values reach, from its cell on.
    Dynamic,
    /// The area that it was entered for, whatever its values are.
    Cse,
}

/// A cell, of one of eight kinds. Each has the number of its style, `s`, from 0.
pub enum Cell {
    EmptyCell {
        s: usize,
    },
    BooleanCell {
        v: bool,
        s: usize,
    },
    NumberCell {
        v: Amount,
        s: usize,
    },
    ErrorCell {
        ei: Error,
        s: usize,
    },
    /// The text at index `si` of the workbook's shared strings, from 0.
    SharedString {
        si: usize,
        s: usize,
    },
    /// The formula at index `f` of the sheet's formulas, from 0, and its value.
    CellFormula {
        f: usize,
        s: usize,
        v: FormulaValue,
    },
    /// A formula with several values. `r` is the width and the height of the area that they take up from this cell on, and
    /// `v` is the first of them.
    ArrayFormula {
        kind: ArrayKind,
        f: usize,
        s: usize,
        r: (i32, i32),
        v: ArrayValue,
    },
    /// Another cell of such an area. `a` is the row and the column of the formula's cell, from 1.
    SpillCell {
        s: usize,
        a: (i32, i32),
        v: SpillValue,
    },
}

impl Drop for Cell {
    fn drop(self) {
        match self {
            Self::EmptyCell { s: _ } => {}
            Self::BooleanCell { v: _, s: _ } => {}
            Self::NumberCell { v: _, s: _ } => {}
            Self::ErrorCell { ei: _, s: _ } => {}
            Self::SharedString { si: _, s: _ } => {}
            Self::CellFormula { f: _, s: _, v } => drop(v),
            Self::ArrayFormula {
                kind: _,
                f: _,
                s: _,
                r: _,
                v,
            } => drop(v),
            Self::SpillCell { s: _, a: _, v } => drop(v),
        }
    }
}

impl Cell {
    /// The shared string at an index, from 0.
    pub fn new_string(si: usize, s: usize) -> Cell
        ensures { result ≡ Cell.SharedString si s }
    {
        Cell::SharedString { si, s }
    }

    /// A number.
    pub fn new_number(v: Amount, s: usize) -> Cell
        ensures { result ≡ Cell.NumberCell v s }
    {
        Cell::NumberCell { v, s }
    }

    /// A boolean.
    pub fn new_boolean(v: bool, s: usize) -> Cell
        ensures { result ≡ Cell.BooleanCell v s }
    {
        Cell::BooleanCell { v, s }
    }

    /// An error value.
    pub fn new_error(ei: Error, s: usize) -> Cell
        ensures { result ≡ Cell.ErrorCell ei s }
    {
        Cell::ErrorCell { ei, s }
    }

    /// The formula at an index, from 0, without a value.
    pub fn new_formula(f: usize, s: usize) -> Cell
        ensures { result ≡ Cell.CellFormula f s FormulaValue.Unevaluated }
    {
        Cell::CellFormula {
            f,
            s,
            v: FormulaValue::Unevaluated,
        }
    }

    /// The index of its formula in the sheet's list, from 0. None exactly where it has none; a cell of a spill has none.
    pub fn get_formula(&self) -> Option<usize>
        ensures { result ≡ cell_formula_index self.now }
    {
        match self {
            Cell::CellFormula { f, .. } => Some(*f),
            Cell::ArrayFormula { f, .. } => Some(*f),
            _ => None,
        }
    }

    /// Whether it has a formula.
    pub fn has_formula(&self) -> bool
        ensures { result ≡ is_some (cell_formula_index self.now) }
    {
        self.get_formula().is_some()
    }

    /// Gives it the style with this number. All else stays.
    pub fn set_style(&mut self, style: usize)
        ensures exact { self.new ≡ with_style style self.old }
        ensures style { style_of self.new ≡ style }
        ensures rest { with_style (style_of self.old) self.new ≡ self.old }
    {
        match self {
            Cell::EmptyCell { s } => *s = style,
            Cell::BooleanCell { s, .. } => *s = style,
            Cell::NumberCell { s, .. } => *s = style,
            Cell::ErrorCell { s, .. } => *s = style,
            Cell::SharedString { s, .. } => *s = style,
            Cell::CellFormula { s, .. } => *s = style,
            Cell::ArrayFormula { s, .. } => *s = style,
            Cell::SpillCell { s, .. } => *s = style,
        }
    }

    /// The number of its style, from 0.
    pub fn get_style(&self) -> usize
        ensures { result ≡ style_of self.now }
    {
        match self {
            Cell::EmptyCell { s } => *s,
            Cell::BooleanCell { s, .. } => *s,
            Cell::NumberCell { s, .. } => *s,
            Cell::ErrorCell { s, .. } => *s,
            Cell::SharedString { s, .. } => *s,
            Cell::CellFormula { s, .. } => *s,
            Cell::ArrayFormula { s, .. } => *s,
            Cell::SpillCell { s, .. } => *s,
        }
    }

    /// The kind of its value. An empty cell and a formula without a value are numbers.
    pub fn get_type(&self) -> CellType
        ensures exact { result ≡ type_of self.now }

        // It is that of the value, whatever the shared strings and the language are.
        ensures of_value { (strings : List (List ℕ)) (l : Language)
            → FitsType (value_of strings l self.now) result }
    {
        match self {
            Cell::EmptyCell { .. } => CellType::Number,
            Cell::BooleanCell { .. } => CellType::LogicalValue,
            Cell::NumberCell { .. } => CellType::Number,
            Cell::ErrorCell { .. } => CellType::ErrorValue,
            Cell::SharedString { .. } => CellType::Text,
            Cell::CellFormula { v, .. } => v.kind(),
            Cell::ArrayFormula { v, .. } => v.kind(),
            Cell::SpillCell { v, .. } => v.kind(),
        }
    }

    /// Its value. An empty cell has none; a formula and a cell of a spill have theirs; a formula without a value has the
    /// text `#ERROR!` in every language; an error is the text of its word in the language; a shared string that isn't there
    /// is the empty text. Only memory can be missing.
    pub fn value(
        &self,
        alloc: Global,
        shared_strings: &Items<Text>,
        language: &Language,
    ) -> Result<CellValue, OutOfMemory>
        ensures { IfOk result (λ v. v ≡ value_of shared_strings.now language.now self.now) }
    {
        lent_from(self, shared_strings.as_slice(), language).to_value(alloc)
    }

    /// The text of its value: that of an empty cell is empty, a text is itself, a number has its shortest decimal with the
    /// locale's separator, a boolean its word in the language. Only memory can be missing.
    #[tactic(auto, using(crate::proofs::Literals::literals))]
    pub fn get_localized_text(
        &self,
        alloc: Global,
        shared_strings: &Items<Text>,
        locale: &Locale,
        language: &Language,
    ) -> Result<String, OutOfMemory>
        ensures { IfOk result (λ s. chars (string_bytes s)
            ≡ shown_text (decimal_separator locale.now) language.now
            (value_of shared_strings.now language.now self.now)) }
    {
        match lent_from(self, shared_strings.as_slice(), language) {
            LentValue::Nothing => Ok(String::new(alloc)),
            LentValue::Text(text) => Ok(String::from_str(alloc, text)?),
            LentValue::Number(amount) => amount_spelling(alloc, amount, locale.decimal_separator()),
            LentValue::Boolean(truth) => Ok(String::from_str(
                alloc,
                boolean_word(language, truth),
            )?),
        }
    }

    /// The text of its value as `get_localized_text` gives it, but a number has the text that `format_number` gives. Where
    /// `format_number` fails for it, so does this call; otherwise only memory can be missing.
    #[tactic(auto, using(crate::proofs::Literals::literals))]
    pub fn formatted_value<F: Fn(Amount) -> Result<String, OutOfMemory>>(
        &self,
        alloc: Global,
        shared_strings: &Items<Text>,
        language: &Language,
        format_number: F,
    ) -> Result<String, OutOfMemory>
        requires { F.IsAlwaysCallable format_number }
        ensures { IfOk result (λ s. AsShown (λ z. F.post format_number z (Ok s))
            (λ t. chars (string_bytes s) ≡ t) language.now
            (value_of shared_strings.now language.now self.now)) }
    {
        match lent_from(self, shared_strings.as_slice(), language) {
            LentValue::Nothing => Ok(String::new(alloc)),
            LentValue::Text(text) => Ok(String::from_str(alloc, text)?),
            LentValue::Number(amount) => format_number(amount),
            LentValue::Boolean(truth) => Ok(String::from_str(
                alloc,
                boolean_word(language, truth),
            )?),
        }
    }
}

const _: () = prove!(size_of::<Cell>() == 48);
