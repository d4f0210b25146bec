//! Texts that are typed into cells, or given to them.
ghost use Rattle.std.specs.Prelude.{◌≡◌, None, IfOk, OnOk, chars, string_bytes};
ghost use Rattle.ic_input.specs.Typed.{needs_quoting};
ghost use Rattle.ic_machine.specs.InForce.{typed_in};
ghost use Rattle.ic_machine.specs.subjects.Writing.{SetUserInput, UpdateCellWithText, writing_step};
ghost use Rattle.ic_parts.specs.Does.{Does, DoesIn, DoesStep, WantedIn};
ghost use Rattle.ic_parts.specs.Fields.{no_fields};
ghost use Rattle.ic_changes.specs.LookUps.{LooksUpAsBefore};
ghost use Rattle.ic_parts.specs.Retyped.{Retypes};
ghost use Rattle.ic_parts.specs.Values.{Shows, typed_change, typed_formula, typed_step};
ghost use Rattle.ic_parts.specs.Whole.{whole_of};
ghost use Rattle.ic_parts.specs.Written.{value_refusal};

use crate::{BookError, Model};
use ic_input::{Typed, classify, value_needs_quoting};
use ic_laws::OutOfMemory;
use ic_parts::input::{typed_change, typed_formula, typed_value};
use ic_parts::values::{Restyle, Value};

impl<'a> Model<'a> {
    /// Writes a text into the cell at a row and a column, both from 1, of the sheet at an index, from 0, as it stands,
    /// whatever it would be if it were typed. The array that the cell belongs to is released; the cell keeps the style that
    /// it shows, with the quote flag where the text would have to be typed after a quote to stay a text, and else without.
    ///
    /// `InvalidSheet`, `InvalidRow`, `InvalidColumn`, `MergedPart` (merged cells cover the cell), `ArrayPart` (it belongs to
    /// a Cse array of more than one cell), in this order, each exactly where it holds; `OutOfMemory` only where none of them
    /// does. An error changes nothing.
    pub fn update_cell_with_text(
        &mut self,
        sheet: u32,
        row: i32,
        column: i32,
        value: &str,
    ) -> Result<(), BookError>
        ensures does { Does writing_step (UpdateCellWithText sheet row column (chars value.now))
            no_fields result self.old self.new }
        ensures looks_up { self.new.has_all ≡ self.old.has_all }
    {
        let quoted = self.needs_quote(value);
        let value = Value::Text(value);
        let change = Restyle::Quote(quoted);
        self.write_value(sheet, row, column, &value, &change)
    }

    /// Types a text into the cell at a row and a column, both from 1, of the sheet at an index, from 0, in the notation in
    /// force: nothing, a text after a quote, a formula, a number with its format code, a date, a boolean, an error or a text,
    /// the first of these that it is. The array that the cell belongs to is released.
    ///
    /// The cell keeps the style that it shows. A number that needs a format code to be shown as it was typed gives the style
    /// this code, but a date leaves a code of dates as it is. The quote flag comes with a text after a quote, and goes with
    /// everything else but nothing.
    ///
    /// `InvalidSheet`, `InvalidRow`, `InvalidColumn`, `MergedPart` (merged cells cover the cell), `ArrayPart` (it belongs to
    /// a Cse array of more than one cell), in this order, each exactly where it holds; `OutOfMemory` only where none of them
    /// does. An error leaves the book, and a refusal all that a model is.
    pub fn set_user_input(
        &mut self,
        sheet: u32,
        row: i32,
        column: i32,
        value: String,
    ) -> Result<(), BookError>
        ensures does { DoesIn writing_step
            (SetUserInput sheet row column (chars (string_bytes value))) no_fields
            result self.old self.new }

        // What the cell showed leaves in it what it held.
        ensures retyped { OnOk result
            (Retypes sheet row column (chars (string_bytes value)) self.old self.new) }

        // The look-up of this sheet's formulas may be there then; the others are as before.
        ensures looks_up { LooksUpAsBefore sheet self.old self.new }
    {
        self.type_text(sheet, row, column, value.as_str())
    }

    /// The same with a text that is lent.
    pub fn type_text(
        &mut self,
        sheet: u32,
        row: i32,
        column: i32,
        value: &str,
    ) -> Result<(), BookError>
        ensures does { DoesIn writing_step
            (SetUserInput sheet row column (chars value.now)) no_fields
            result self.old self.new }

        // What the cell showed leaves in it what it held.
        ensures retyped { OnOk result
            (Retypes sheet row column (chars value.now) self.old self.new) }

        // The look-up of this sheet's formulas may be there then; the others are as before.
        ensures looks_up { LooksUpAsBefore sheet self.old self.new }
    {
        let shown = self.style_to_write(sheet, row, column)?;
        let typed = self.typed(value)?;
        self.write_typed(sheet, row, column, &typed, shown)
    }

    /// What a typed text is, in the notation in force.
    pub(crate) fn typed(&self, text: &str) -> Result<Typed, OutOfMemory>
        ensures { IfOk result
            (λ t. t ≡ typed_in (whole_of self.now.book) (chars text.now)) }
    {
        let locale = &self.notation.locale().locale;
        let english = self.notation.get_default_language();
        classify(self.alloc, text, locale, self.notation.language(), english)
    }

    /// Writes what a typed text is into a cell that may be written, given the number of the style that it shows
    /// (`style_to_write`).
    fn write_typed(
        &mut self,
        sheet: u32,
        row: i32,
        column: i32,
        typed: &Typed,
        shown: usize,
    ) -> Result<(), BookError>
        requires shows { Shows self.old.book sheet row column shown }
        requires allowed { value_refusal self.old.book sheet row column ≡ None }
        ensures does { DoesStep WantedIn
            (typed_step (whole_of self.old.book) sheet row column typed.now) no_fields
            result self.old self.new }
        ensures looks_up { LooksUpAsBefore sheet self.old self.new }
    {
        let Some(body) = typed_formula(typed) else {
            let value = typed_value(typed);
            let change = typed_change(typed);
            return self.put_value(sheet, row, column, &value, &change, shown);
        };
        self.write_formula(sheet, row, column, body, shown)
    }

    /// Whether a text has to be typed after a quote to stay a text, in the notation in force.
    fn needs_quote(&self, text: &str) -> bool
        ensures { result ≡ needs_quoting (chars text.now)
            (typed_in (whole_of self.now.book) (chars text.now)) }
    {
        let locale = &self.notation.locale().locale;
        let english = self.notation.get_default_language();
        match value_needs_quoting(self.alloc, text, locale, self.notation.language(), english) {
            Ok(needs) => needs,
            Err(_) => unreachable!(),
        }
    }
}
