//! The value of a formula, by those of the cells that it needs.

use crate::value::{ONE, combined, error, number};
use ic_book::{BookError, Model};
use ic_cells::{CellType, CellValue, FormulaValue};
use ic_input::error_at;
use ic_laws::{
    BinarySign, Bound, Boxed, Error, Formula, NameKey, NameMention, OutOfMemory,
    Place as Reference, Position, PrefixSign, RefPart, SheetMention, Tree, WordKind,
};
use ic_refs::{is_valid_column_number, is_valid_row};
use ic_tables::{find_word, word};
use std::alloc::Global;
use std::collections::BTreeMap;

/// The index of a sheet, from 0, and a row and a column, from 1.
pub(crate) type Place = (u32, i32, i32);

/// What is known of a cell: nothing of its formula's value, that it waits for others, or that the book has the value.
#[derive(Clone, Copy)]
pub(crate) enum Mark {
    New,
    Waits,
    Known,
}

/// What a formula is evaluated by: the book, its place, what is known of the cells, and where those go that it needs first.
#[derive(Drop)]
pub(crate) struct Evaluator<'b, 'm> {
    pub alloc: Global,
    pub model: &'b Model<'m>,
    pub at: Place,
    pub marks: &'b BTreeMap<Place, Mark>,
    pub path: &'b mut Vec<Place>,
}

/// The value that a formula or a part of one gives, where memory doesn't run out.
type Gives = Result<FormulaValue, OutOfMemory>;

impl<'b, 'm> Evaluator<'b, 'm> {
    /// The value of the formula in the cell, if it has one that isn't known. Where it needs others first, they are put at the end
    /// of the path, and the value counts for nothing.
    pub(crate) fn formula(mut self) -> Result<Option<FormulaValue>, OutOfMemory> {
        let found = self.model.formula_at(self.at.0, self.at.1, self.at.2);
        match (self.marks.get(&self.at), found) {
            (Some(Mark::Known), _) => Ok(None),
            (_, Ok(Some(Formula::Tree(tree)))) => Ok(Some(self.value(tree, false)?)),
            (_, Ok(Some(Formula::Raw(_)))) => Ok(Some(error(Error::ERROR))),
            _ => Ok(None),
        }
    }

    /// What a tree gives; where it is summed, the sum of the numbers in an area.
    #[cycle(value)]
    fn value(&mut self, tree: &Bound, summed: bool) -> Gives {
        Ok(match tree {
            Tree::Num(amount) => FormulaValue::Number(*amount),
            Tree::Str(text) => FormulaValue::Text(Boxed::from_str(self.alloc, text.as_str())?),
            Tree::Bool(truth) => FormulaValue::Boolean(*truth),
            Tree::Err(fault) => error(*fault),
            Tree::Empty => number(Some(0)),
            Tree::Reference(sheet, place) => self.area(self.at, sheet, place.place(), summed)?,
            Tree::Word(NameMention::Name(key)) | Tree::Local(_, NameMention::Name(key)) => {
                self.defined(key.as_ref(), summed)?
            }
            Tree::Word(_) | Tree::Local(_, _) => error(Error::NAME),
            Tree::Prefix(PrefixSign::Minus, x) => {
                let value = self.value(x.as_ref(), false)?;
                combined(BinarySign::Minus, &number(Some(0)), &value)
            }
            Tree::Paren(x) | Tree::Prefix(_, x) => self.value(x.as_ref(), summed)?,
            Tree::Percent(x) => {
                let value = self.value(x.as_ref(), false)?;
                combined(BinarySign::Over, &value, &number(Some(100 * ONE)))
            }
            Tree::Binary(sign, x, y) => {
                let left = self.value(x.as_ref(), false)?;
                combined(*sign, &left, &self.value(y.as_ref(), false)?)
            }
            Tree::Fun(number, arguments) => {
                let english = self.model.tables().get_default_language();
                match word(english, WordKind::Function, *number) {
                    Some("SUM") => self.sum(arguments.as_slice())?,
                    Some("IF") => self.condition(arguments.as_slice(), summed)?,
                    _ => error(Error::NIMPL),
                }
            }
            _ => error(Error::NIMPL),
        })
    }

    /// The sum of what these give.
    #[cycle(value)]
    fn sum(&mut self, arguments: &[Bound]) -> Gives {
        let mut total = number(Some(0));
        for argument in arguments {
            total = combined(BinarySign::Plus, &total, &self.value(argument, true)?);
        }
        Ok(total)
    }

    /// What the second of these gives where the first is true, and else the third.
    #[cycle(value)]
    fn condition(&mut self, arguments: &[Bound], summed: bool) -> Gives {
        let Some(test) = arguments.get(0) else {
            return Ok(error(Error::VALUE));
        };
        let test = self.value(test, false)?;
        match combined(BinarySign::Unequal, &test, &number(Some(0))) {
            FormulaValue::Boolean(holds) => match arguments.get(if holds { 1 } else { 2 }) {
                Some(tree) => self.value(tree, summed),
                None => Ok(FormulaValue::Boolean(holds)),
            },
            fault => Ok(fault),
        }
    }

    /// What the reference gives that is the definition with this key. What has no `$` counts from the first cell.
    fn defined(&mut self, key: &NameKey, summed: bool) -> Gives {
        let name = String::from_str(self.alloc, key.name.as_str())?;
        let model = self.model;
        let index = model.name_index().names.get(&(name, key.scope));
        match index.and_then(|index| model.parsed_definition(*index)) {
            Some(Formula::Tree(Tree::Reference(sheet, place))) => {
                self.area((0, 1, 1), sheet, place.place(), summed)
            }
            _ => Ok(error(Error::NIMPL)),
        }
    }

    /// What the cells give that a reference in the cell at a place refers to.
    fn area(&mut self, at: Place, sheet: &SheetMention, place: Reference, summed: bool) -> Gives {
        let sheet = match sheet {
            SheetMention::Own => Some(at.0),
            SheetMention::Sheet(id) => self.model.sheet_index(*id),
            SheetMention::Dangling(_) => None,
        };
        let (first, last) = match place {
            Reference::Cell(part) => (part, part),
            Reference::Range(first, last) => (first, last),
        };
        match (corner(at, sheet, first), corner(at, sheet, last)) {
            (Some(a), Some(b)) if summed || a == b => self.between(a, b, summed),
            (Some(_), Some(_)) => Ok(error(Error::VALUE)),
            _ => Ok(error(Error::REF)),
        }
    }

    /// The sum of the numbers between two corners, or what their one cell gives. A cell that isn't known is needed first, or
    /// stands in a circle with this one if it waits.
    fn between(&mut self, a: Place, b: Place, summed: bool) -> Gives {
        let mut total = number(Some(0));
        let marks = self.marks;
        for (place, mark) in marks.range((a.0, a.1.min(b.1), a.2.min(b.2))..) {
            if place.0 != a.0 || place.1 > a.1.max(b.1) {
                break;
            }
            if a.2.min(b.2) <= place.2 && place.2 <= a.2.max(b.2) {
                let value = match mark {
                    Mark::Known => self.held(*place)?,
                    _ => error(Error::CIRC),
                };
                if let Mark::New = mark {
                    self.path.push(*place)?;
                }
                if !summed {
                    return Ok(value);
                }
                if let FormulaValue::Number(_) | FormulaValue::Error { .. } = &value {
                    total = combined(BinarySign::Plus, &total, &value);
                }
            }
        }
        Ok(total)
    }

    /// The value that the book holds at a place.
    fn held(&self, at: Place) -> Gives {
        match &self.model.get_cell_value_by_index(at.0, at.1, at.2) {
            Ok(CellValue::Number(amount)) => Ok(FormulaValue::Number(*amount)),
            Ok(CellValue::Boolean(truth)) => Ok(FormulaValue::Boolean(*truth)),
            Ok(CellValue::String(text)) => match self.model.get_cell_type(at.0, at.1, at.2) {
                Ok(CellType::ErrorValue) => Ok(error(self.error_named(text.as_str())?)),
                _ => Ok(FormulaValue::Text(Boxed::from_str(self.alloc, text.as_str())?)),
            },
            Err(BookError::OutOfMemory) => Err(OutOfMemory),
            _ => Ok(number(Some(0))),
        }
    }

    /// The error of a word in the language in force.
    fn error_named(&self, word: &str) -> Result<Error, OutOfMemory> {
        let Ok(code) = self.model.get_language() else {
            return Err(OutOfMemory);
        };
        let language = self.model.tables().get_language(code.as_str()).ok();
        let number = language.and_then(|it| find_word(it, WordKind::Error, word));
        Ok(number.and_then(|n| error_at(n)).unwrap_or(Error::ERROR))
    }
}

/// The place of a corner of a reference in a cell to a sheet, if there is such a sheet and it has the place.
fn corner(at: Place, sheet: Option<u32>, part: RefPart) -> Option<Place> {
    let (row, column) = (line(at.1, part.row)?, line(at.2, part.column)?);
    (is_valid_row(row) && is_valid_column_number(column)).then_some((sheet?, row, column))
}

/// The row or the column of a position.
fn line(from: i32, position: Position) -> Option<i32> {
    match position {
        Position::Abs(line) => Some(line),
        Position::Rel(by) => from.checked_add(by),
    }
}
