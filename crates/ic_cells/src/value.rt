ghost use Rattle.std.specs.Prelude.{◌≡◌, IfOk, chars};
ghost use Rattle.std.specs.Bool.{Decides};
ghost use Rattle.ic_cells.specs.declared.value.CellValue.{CellValue};

use crate::ErrorNote;
use ic_laws::{Amount, Boxed, Error, OutOfMemory, Text};
use std::alloc::Global;

/// The value of a cell, as whoever looks at the sheet sees it: an error is the text of its word.
#[derive(Debug, Drop, PartialEq)]
pub enum CellValue {
    /// That of an empty cell.
    None,
    String(Text),
    Number(Amount),
    Boolean(bool),
}

impl CellValue {
    /// The value that is this text.
    pub fn from_str(alloc: Global, s: &str) -> Result<CellValue, OutOfMemory>
        ensures { IfOk result (λ v. v ≡ CellValue.String (chars s.now)) }
    {
        Ok(CellValue::String(Text::from_str(alloc, s)?))
    }
}

impl From<Amount> for CellValue {
    ghost use Rattle.ic_cells.specs.declared.value.CellValue.TheVariants as values;

    ghost from_gives = { λ a v. v ≡ values.Number a };

    fn from(amount: Amount) -> CellValue {
        CellValue::Number(amount)
    }
}

impl From<String> for CellValue {
    ghost use Rattle.std.specs.Prelude.{◌≡◌, chars, string_bytes};
    ghost use Rattle.ic_cells.specs.declared.value.CellValue.TheVariants as values;

    ghost from_gives = { λ s v. v ≡ values.String (chars (string_bytes s)) };

    fn from(text: String) -> CellValue {
        CellValue::String(Text::from(text))
    }
}

impl From<bool> for CellValue {
    ghost use Rattle.ic_cells.specs.declared.value.CellValue.TheVariants as values;

    ghost from_gives = { λ b v. v ≡ values.Boolean b };

    fn from(truth: bool) -> CellValue {
        CellValue::Boolean(truth)
    }
}

/// Two values are equal by `==` exactly where they are one value.
pub fn law_equal_values()
    ensures { (a b : CellValue) → Decides (⟦<CellValue as PartialEq>⟧.eq a b) (a ≡ b) }
{}

/// The value that a formula cell keeps. A higher layer writes it. Its text is boxed, since each cell has room for the widest
/// value.
#[derive(Drop)]
pub enum FormulaValue {
    /// Nothing was written since the formula was.
    Unevaluated,
    Boolean(bool),
    Number(Amount),
    Text(Boxed<Text>),
    /// An error, and what was noted of it.
    Error { ei: Error, note: ErrorNote },
}

/// The value that a cell of a spill keeps, its text boxed too.
#[derive(Drop)]
pub enum SpillValue {
    Boolean(bool),
    Number(Amount),
    Text(Boxed<Text>),
    Error(Error),
}

/// The kind of a cell's value. An empty cell and a formula without a value are numbers.
#[derive(Clone, Copy)]
pub enum CellType {
    Number,
    Text,
    LogicalValue,
    ErrorValue,
}

const _: () = prove!(size_of::<FormulaValue>() == 24);

const _: () = prove!(size_of::<SpillValue>() == 24);
