//! Values, types, places and names of cells, as the fields of replies.
ghost use Rattle.std.specs.Prelude.{◌≡◌, ◌++◌, OnOk, chars, flat_map, string_bytes, true};
ghost use Rattle.ic_machine.specs.Fields.{fields_of_cell, fields_of_place, optional_cell_fields, places_fields, type_field};
ghost use Rattle.ic_machine.specs.Reply.{field_word};
ghost use Rattle.ic_machine.specs.subjects.Reading.{type_name, value_fields};
ghost use Rattle.ic_words.specs.Reply.{AreTexts};

use crate::fields::Fields;
use crate::reply::{push_amount, push_field, push_number, push_position, push_truth};
use ic_cells::{CellIndex, CellType, CellValue};
use ic_laws::OutOfMemory;
use ic_refs::CellReferenceIndex;

/// A value: `none`; or `string`, `number` or `boolean`, and in a second field the text, the amount with a dot before its
/// decimals, or `true` or `false`.
impl Fields for CellValue {
    ghost fields = { value_fields };

    ghost memory = { true };

    #[tactic(auto, unfolding(crate::proofs::Literals::literal))]
    fn write(&self, reply: &mut String) -> Result<(), OutOfMemory> {
        match self {
            CellValue::None => push_field(reply, "none"),
            CellValue::String(text) => {
                push_field(reply, "string")?;
                push_field(reply, text.as_str())
            }
            CellValue::Number(amount) => {
                push_field(reply, "number")?;
                push_amount(reply, *amount)
            }
            CellValue::Boolean(truth) => {
                push_field(reply, "boolean")?;
                push_truth(reply, *truth)
            }
        }
    }
}

/// The name of a type: `Number`, `Text`, `LogicalValue` or `ErrorValue`.
impl Fields for CellType {
    ghost fields = { type_field };

    ghost memory = { true };

    fn write(&self, reply: &mut String) -> Result<(), OutOfMemory> {
        push_field(reply, type_name(*self))
    }
}

/// The name of a type.
#[tactic(auto, unfolding(crate::proofs::Literals::literal))]
fn type_name(kind: CellType) -> &'static str
    ensures { chars result.now ≡ type_name kind }
{
    match kind {
        CellType::Number => "Number",
        CellType::Text => "Text",
        CellType::LogicalValue => "LogicalValue",
        CellType::ErrorValue => "ErrorValue",
    }
}

/// Places of cells, with three fields for each in this order: the index of its sheet from 0, its row and its column from 1.
impl Fields for Vec<CellIndex> {
    ghost fields = { places_fields };

    ghost memory = { true };

    fn write(&self, reply: &mut String) -> Result<(), OutOfMemory> {
        for place in self {
            push_place(reply, *place)?;
        }
        Ok(())
    }
}

/// Appends the three fields of a place.
fn push_place(reply: &mut String, place: CellIndex) -> Result<(), OutOfMemory>
    ensures ok { OnOk result (chars (string_bytes reply.new) ≡ chars (string_bytes reply.old)
        ++ flat_map field_word (fields_of_place place)) }
    ensures texts { OnOk result (AreTexts (fields_of_place place)) }
{
    push_number(reply, Some(place.index))?;
    push_position(reply, place.row)?;
    push_position(reply, place.column)
}

/// A cell, if there is one, with three fields in this order: the index of its sheet from 0, its row and its column from 1.
impl Fields for Option<CellReferenceIndex> {
    ghost fields = { optional_cell_fields };

    ghost memory = { true };

    fn write(&self, reply: &mut String) -> Result<(), OutOfMemory> {
        match self {
            Some(cell) => push_cell(reply, *cell),
            None => Ok(()),
        }
    }
}

/// Appends the three fields of a cell.
fn push_cell(reply: &mut String, cell: CellReferenceIndex) -> Result<(), OutOfMemory>
    ensures ok { OnOk result (chars (string_bytes reply.new) ≡ chars (string_bytes reply.old)
        ++ flat_map field_word (fields_of_cell cell)) }
    ensures texts { OnOk result (AreTexts (fields_of_cell cell)) }
{
    push_number(reply, Some(cell.sheet))?;
    push_position(reply, cell.row)?;
    push_position(reply, cell.column)
}
