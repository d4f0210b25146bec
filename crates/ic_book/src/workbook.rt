//! A book as the plain records of a workbook.
ghost use Rattle.std.specs.Prelude.{◌≡◌, IfOk, None, map};
ghost use Rattle.ic_sheets.specs.Sheet.{sheet_of};
ghost use Rattle.ic_parts.specs.Book.{notations_in};
ghost use Rattle.ic_parts.specs.Refused.{Refuses};
ghost use Rattle.ic_workbooks.specs.Workbook.{body_in_english, body_text, defined_name_of, sign_of, stored_text, text_in, workbook_of, worksheet_of};

use crate::{BookError, Model};
use ic_cells::{DefinedName, Theme, Workbook, Worksheet};
use ic_definitions::Definition;
use ic_laws::{Boxed, Dialect, Formula, Items, OutOfMemory, Text};
use ic_parts::copies::{
    copy_cells, copy_lines, copy_merges, copy_metadata, copy_styles, copy_text, copy_texts,
};
use ic_parts::formulas::after_sign;
use ic_sheets::Sheet;
use ic_tree::Stored;
use ic_workbooks::workbook::{settings_with, sign_of, text_in};

impl<'a> Model<'a> {
    /// A copy of what the book holds, as plain records: its sheets in their order, each with its id, its name, its tab, its
    /// cells, rows, columns and merged cells, its formulas by index from 0; its definitions in their order, those of a
    /// sheet that is gone too; its styles and shared strings by index from 0; its zone and locale; its metadata, its theme
    /// and its name. The language in force is no part of it.
    ///
    /// The text of a sheet's formula is that of the stored form: English words, `,` between arguments, `.` before decimals,
    /// and rows and columns by number or by distance. The text of a definition's body is English with A1 references, from
    /// the cell at row 1 and column 1, after the `=` that it was typed with. In both, a text that didn't read as a formula
    /// stands after a `)`.
    ///
    /// Nothing refuses it; `OutOfMemory` is its only error.
    pub fn workbook(&self) -> Result<Workbook, BookError>
        ensures copied { IfOk result (λ workbook. workbook ≡ workbook_of self.now.book) }
        ensures refused { Refuses result None }
    {
        Ok(self.as_records()?)
    }

    /// The same, where only memory can be missing.
    fn as_records(&self) -> Result<Workbook, OutOfMemory>
        ensures { IfOk result (λ workbook. workbook ≡ workbook_of self.now.book) }
    {
        let alloc = self.alloc;
        let about = &self.about;
        let settings = settings_with(alloc, about.zone, &self.notation.locale().id)?;
        let metadata = copy_metadata(alloc, &about.metadata)?;
        let name = copy_text(alloc, &about.name)?;
        let theme = copy_text(alloc, &about.theme)?;
        let styles = copy_styles(alloc, &self.lists.styles)?;
        let shared_strings = copy_texts(alloc, self.lists.strings.as_items().as_slice())?;
        let defined_names = Items::from(self.defined_names()?);
        let worksheets = self.worksheets(self.contents.sheets.as_slice())?;
        Ok(Workbook {
            name,
            shared_strings,
            defined_names,
            worksheets,
            styles,
            settings,
            metadata,
            theme: Theme { name: theme },
        })
    }

    /// The records of definitions.
    pub(crate) fn records_of(
        &self,
        definitions: &[Definition],
    ) -> Result<Vec<DefinedName>, OutOfMemory>
        ensures { IfOk result (λ names. names.items
            ≡ map (defined_name_of self.now.book) definitions.now) }
    {
        let mut out = Vec::new(self.alloc);
        for definition in definitions {
            out.push(self.defined_name(definition)?)?;
        }
        Ok(out)
    }

    /// The record of a definition.
    fn defined_name(&self, definition: &Definition) -> Result<DefinedName, OutOfMemory>
        ensures { IfOk result (λ name. name ≡ defined_name_of self.now.book definition.now) }
    {
        let name = Text::from_str(self.alloc, definition.name())?;
        let formula = self.body_text(definition)?;
        Ok(DefinedName {
            name,
            formula,
            sheet_id: definition.scope(),
        })
    }

    /// The text of a definition's body, with its equals sign.
    fn body_text(&self, definition: &Definition) -> Result<Text, OutOfMemory>
        ensures { IfOk result (λ text. text
            ≡ body_text self.now.book definition.now.has_equals definition.now.body) }
    {
        let body = self.body_in_english(definition.body())?;
        let sign = sign_of(definition.has_equals());
        Ok(Text::from(after_sign(self.alloc, sign, body.as_str())?))
    }

    /// The text of a body, in English for the cell at row 1 and column 1.
    fn body_in_english(&self, body: &Formula) -> Result<Text, OutOfMemory>
        ensures { IfOk result (λ text. text ≡ body_in_english self.now.book body.now) }
    {
        text_in(self.alloc, &self.english_at(1, 1), &self.scene(), body)
    }

    /// The records of sheets.
    fn worksheets(&self, sheets: &[Boxed<Sheet>]) -> Result<Items<Worksheet>, OutOfMemory>
        ensures { IfOk result (λ records. records
            ≡ map (worksheet_of self.now.book) (map sheet_of sheets.now)) }
    {
        let mut out = Vec::new(self.alloc);
        for sheet in sheets {
            out.push(self.worksheet(sheet.as_ref())?)?;
        }
        Ok(Items::from(out))
    }

    /// The record of a sheet.
    fn worksheet(&self, sheet: &Sheet) -> Result<Worksheet, OutOfMemory>
        ensures { IfOk result (λ made. made
            ≡ worksheet_of self.now.book (sheet_of sheet.now)) }
    {
        let alloc = self.alloc;
        let name = copy_text(alloc, &sheet.name)?;
        let color = sheet.tab.color.copy(alloc)?;
        let shared_formulas = self.stored_texts(sheet)?;
        let cells = copy_cells(alloc, &sheet.grid.cells)?;
        let rows = copy_lines(alloc, &sheet.grid.rows)?;
        let columns = copy_lines(alloc, &sheet.grid.columns)?;
        let merged_cells = copy_merges(alloc, sheet.grid.merged_cells.as_slice())?;
        Ok(Worksheet {
            name,
            sheet_id: sheet.id,
            state: sheet.tab.state,
            color,
            frozen_rows: sheet.tab.frozen_rows,
            frozen_columns: sheet.tab.frozen_columns,
            show_grid_lines: sheet.tab.shows_grid_lines,
            shared_formulas,
            cells,
            rows,
            columns,
            merged_cells,
        })
    }

    /// The texts of the formulas that a sheet keeps.
    fn stored_texts(&self, sheet: &Sheet) -> Result<Items<Text>, OutOfMemory>
        ensures { IfOk result (λ texts. texts
            ≡ map (stored_text self.now.book) sheet.now.pool.formulas) }
    {
        let mut out = Vec::new(self.alloc);
        for index in 0..sheet.pool.len() {
            if let Some(formula) = sheet.pool.get(index) {
                out.push(self.stored_text(formula)?)?;
            }
        }
        Ok(Items::from(out))
    }

    /// The text of a formula in the stored form.
    fn stored_text(&self, formula: &Formula) -> Result<Text, OutOfMemory>
        ensures { IfOk result (λ text. text ≡ stored_text self.now.book formula.now) }
    {
        text_in(self.alloc, &self.stored_form(), &self.scene(), formula)
    }

    /// How formulas are stored.
    fn stored_form(&self) -> Stored<'a>
        ensures { ⟦<Stored<'a> as Dialect>⟧.meaning result ≡ (notations_in self.now.book).stored }
    {
        Stored::new(self.notation.tables())
    }
}
