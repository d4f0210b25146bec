//! What calls answer, as the fields of replies.
ghost use Rattle.std.specs.Prelude.{◌≡◌, ◌++◌, Bool, List, OnErr, OnOk, chars, false, flat_map, string_bytes, true};
ghost use Rattle.ic_machine.specs.Fields.{definitions_fields, fields_of_definition, fields_of_sheet, no_fields, scope_field};
ghost use Rattle.ic_machine.specs.Fields.{sheets_fields, string_field, string_only, theme_field};
ghost use Rattle.ic_machine.specs.Reply.{Field, bool_field, field_word, number_field, position_field};
ghost use Rattle.ic_words.specs.Reply.{AreTexts};

mod cells;
mod settings;
mod styles;

use crate::reply::{push_color, push_field, push_index, push_number, push_position, push_truth};
use ic_cells::{SheetProperties, Theme};
use ic_laws::OutOfMemory;

/// An answer that a reply shows by its fields.
pub trait Fields: Drop {
    ghost fields: { Self → List Field };

    /// Whether writing them takes memory.
    ghost memory: { Bool };

    /// Appends the fields.
    fn write(&self, reply: &mut String) -> Result<(), OutOfMemory>
        ensures ok { OnOk result
            (chars (string_bytes reply.new) ≡ chars (string_bytes reply.old) ++ flat_map field_word
            (fields self.now)) }
        ensures texts { OnOk result (AreTexts (fields self.now)) }
        ensures none { memory ≡ false → reply.new ≡ reply.old }
        ensures err { OnErr result (memory ≡ true) };
}

impl Fields for () {
    ghost fields = { no_fields };

    ghost memory = { false };

    fn write(&self, _: &mut String) -> Result<(), OutOfMemory> {
        Ok(())
    }
}

impl Fields for Option<u32> {
    ghost fields = { scope_field };

    ghost memory = { true };

    fn write(&self, reply: &mut String) -> Result<(), OutOfMemory> {
        push_number(reply, *self)
    }
}

impl Fields for u32 {
    ghost fields = { number_field };

    ghost memory = { true };

    fn write(&self, reply: &mut String) -> Result<(), OutOfMemory> {
        push_number(reply, Some(*self))
    }
}

impl Fields for usize {
    ghost fields = { number_field };

    ghost memory = { true };

    fn write(&self, reply: &mut String) -> Result<(), OutOfMemory> {
        push_index(reply, *self)
    }
}

impl Fields for bool {
    ghost fields = { bool_field };

    ghost memory = { true };

    fn write(&self, reply: &mut String) -> Result<(), OutOfMemory> {
        push_truth(reply, *self)
    }
}

impl Fields for i32 {
    ghost fields = { position_field };

    ghost memory = { true };

    fn write(&self, reply: &mut String) -> Result<(), OutOfMemory> {
        push_position(reply, *self)
    }
}

impl Fields for String {
    ghost fields = { string_only };

    ghost memory = { true };

    fn write(&self, reply: &mut String) -> Result<(), OutOfMemory> {
        push_field(reply, self.as_str())
    }
}

impl Fields for Option<String> {
    ghost fields = { string_field };

    ghost memory = { true };

    fn write(&self, reply: &mut String) -> Result<(), OutOfMemory> {
        match self {
            Some(text) => push_field(reply, text.as_str()),
            None => Ok(()),
        }
    }
}

/// A theme, by its name.
impl Fields for Theme {
    ghost fields = { theme_field };

    ghost memory = { true };

    fn write(&self, reply: &mut String) -> Result<(), OutOfMemory> {
        push_field(reply, self.name.as_str())
    }
}

/// Definitions, with three fields for each in this order: its name, the index from 0 of the sheet that it is for, or `-`
/// where that is the whole book, and its body.
impl Fields for Vec<(String, Option<u32>, String)> {
    ghost fields = { definitions_fields };

    ghost memory = { true };

    fn write(&self, reply: &mut String) -> Result<(), OutOfMemory> {
        for listed in self {
            push_definition(reply, listed)?;
        }
        Ok(())
    }
}

/// Appends the three fields of a listed definition.
fn push_definition(
    reply: &mut String,
    listed: &(String, Option<u32>, String),
) -> Result<(), OutOfMemory>
    ensures ok { OnOk result (chars (string_bytes reply.new) ≡ chars (string_bytes reply.old)
        ++ flat_map field_word (fields_of_definition listed.now)) }
    ensures texts { OnOk result (AreTexts (fields_of_definition listed.now)) }
{
    push_field(reply, listed.0.as_str())?;
    push_number(reply, listed.1)?;
    push_field(reply, listed.2.as_str())
}

/// Sheets, with four fields for each in this order: its name, `visible`, `hidden` or `veryHidden`, the color of its tab, or
/// `-` where that has none, and its id.
impl Fields for Vec<SheetProperties> {
    ghost fields = { sheets_fields };

    ghost memory = { true };

    fn write(&self, reply: &mut String) -> Result<(), OutOfMemory> {
        for sheet in self {
            push_sheet(reply, sheet)?;
        }
        Ok(())
    }
}

/// Appends the four fields of a listed sheet.
fn push_sheet(reply: &mut String, sheet: &SheetProperties) -> Result<(), OutOfMemory>
    ensures ok { OnOk result (chars (string_bytes reply.new) ≡ chars (string_bytes reply.old)
        ++ flat_map field_word (fields_of_sheet sheet.now)) }
    ensures texts { OnOk result (AreTexts (fields_of_sheet sheet.now)) }
{
    push_field(reply, sheet.name.as_str())?;
    push_field(reply, sheet.state.as_str())?;
    push_color(reply, &sheet.color)?;
    push_number(reply, Some(sheet.sheet_id))
}
