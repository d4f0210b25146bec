//! The value of an array formula.
ghost use Rattle.std.specs.Prelude.{◌≡◌, IfOk, option_map};
ghost use Rattle.ic_cells.specs.ArrayValue.{value_kept};
ghost use Rattle.ic_cells.specs.Value.{formula_type};

use crate::{CellType, FormulaValue};
use ic_laws::{Boxed, OutOfMemory};
use std::alloc::Global;
use std::marker::Model;

/// The value that the formula of an array keeps, of one word's size and a mark, since its cell has an area too, and each
/// cell has room for the widest kind. Contracts see the value; none at all takes no memory.
#[derive(Drop)]
pub struct ArrayValue {
    inner: Option<Boxed<FormulaValue>>,
}

impl Model for ArrayValue {
    ghost use Rattle.ic_cells.specs.ArrayValue.{value_kept};
    ghost use Rattle.ic_cells.specs.declared.value.FormulaValue.{FormulaValue};

    ghost Value = { FormulaValue };

    ghost view = { λ v. value_kept v.inner };
}

impl ArrayValue {
    /// None at all. It takes no memory.
    pub fn unevaluated() -> ArrayValue
        ensures { result ≡ FormulaValue.Unevaluated }
    {
        ArrayValue { inner: None }
    }

    /// This value. Only memory can be missing; none at all takes none.
    pub fn new(alloc: Global, value: FormulaValue) -> Result<ArrayValue, OutOfMemory>
        ensures { IfOk result (λ v. v ≡ value) }
    {
        match value {
            FormulaValue::Unevaluated => Ok(ArrayValue::unevaluated()),
            value => {
                let inner = Boxed::new(alloc, value)?;
                Ok(ArrayValue { inner: Some(inner) })
            }
        }
    }

    /// What is kept of it: nothing of none at all.
    pub fn kept(&self) -> Option<&FormulaValue>
        ensures { value_kept (option_map (λ v. v.now) result) ≡ self.entry.now }
    {
        match &self.inner {
            Some(value) => Some(value.as_ref()),
            None => None,
        }
    }

    /// The kind of the value.
    pub(crate) fn kind(&self) -> CellType
        ensures { result ≡ formula_type self.now }
    {
        match self.kept() {
            Some(value) => value.kind(),
            None => CellType::Number,
        }
    }
}

const _: () = prove!(size_of::<ArrayValue>() == 16);
