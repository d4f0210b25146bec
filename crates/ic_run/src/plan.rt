//! What a translation has to do with a command.
ghost use Rattle.std.specs.Prelude.{◌≡◌, IfOk, false};
ghost use Rattle.ic_machine.specs.Book as machine;
ghost use Rattle.ic_machine.specs.Command as commands;
ghost use Rattle.ic_machine.specs.Command.{OnArrays, OnDefinitions, OnLayout, OnNotation, OnSheets, OnStyles, OnTabs, OnWriting};
ghost use Rattle.ic_machine.specs.Translation.{is_dropped};
ghost use Rattle.ic_words.specs.Command.{command_meant};
ghost use Rattle.ic_words.specs.subjects.Arrays.{arrays_meant};
ghost use Rattle.ic_words.specs.subjects.Definitions.{definitions_meant};
ghost use Rattle.ic_words.specs.subjects.Layout.{layout_meant};
ghost use Rattle.ic_words.specs.subjects.Notation.{notation_meant};
ghost use Rattle.ic_words.specs.subjects.Sheets.{sheets_meant};
ghost use Rattle.ic_words.specs.subjects.Styles.{styles_meant};
ghost use Rattle.ic_words.specs.subjects.Tabs.{tabs_meant};
ghost use Rattle.ic_words.specs.subjects.Writing.{writing_meant};
ghost use Rattle.ic_parts.specs.Book.{NotationState};
ghost use Rattle.ic_parts.specs.Translated.{IsToldWhere};
ghost use Rattle.ic_parts.specs.Whole.{whole_of};
ghost use Rattle.ic_run.specs.Translate.{IsPlan};

use ic_book::{Model, Notation as Target, OwnText};
use ic_laws::OutOfMemory;
use ic_words::{Arrays, Command, Definitions, Layout, Notation, Sheets, Styles, Tabs, Writing};

/// What a translation has to do with a command.
pub enum Plan {
    /// Nothing: it only asks, or would be refused.
    Goes,
    /// To run it: it chooses the notation.
    Runs,
    /// To run it; its line becomes one with the same texts.
    Stays,
    /// To run it; its line becomes one that adds a sheet of this name.
    AddsSheet(String),
    /// To run it, if that can be written; its line becomes one with this in the place of its own text.
    Writes(OwnText),
}

impl Drop for Plan {
    fn drop(self) {
        match self {
            Self::Goes | Self::Runs | Self::Stays => {}
            Self::AddsSheet(name) => drop(name),
            Self::Writes(own) => drop(own),
        }
    }
}

/// What is to be done with a command, where it is translated into a notation by the book's tables. Only memory can be missing.
pub fn plan_of(
    model: &Model<'_>,
    command: &Command<'_>,
    target: &Target<'_>,
) -> Result<Plan, OutOfMemory>
    ensures { IfOk result (IsPlan target.now (whole_of model.now.book)
        (command_meant command.now)) }
{
    match command {
        Command::Sheets(command) => sheets_plan(model, command),
        Command::Definitions(command) => definitions_plan(model, command, target),
        Command::Notation(command) => Ok(notation_plan(command)),
        Command::Writing(command) => writing_plan(model, command),
        Command::Reading(_) => Ok(Plan::Goes),
        Command::Extending(_) => Ok(Plan::Goes),
        Command::Styles(command) => Ok(styles_plan(command)),
        Command::Layout(command) => Ok(layout_plan(command)),
        Command::Tabs(command) => Ok(tabs_plan(command)),
        Command::Arrays(command) => arrays_plan(model, command),
    }
}

/// What is to be done with one on the list of sheets.
fn sheets_plan(model: &Model<'_>, command: &Sheets<'_>) -> Result<Plan, OutOfMemory>
    ensures { (target : NotationState) → IfOk result (IsPlan target (whole_of model.now.book)
        (OnSheets (sheets_meant command.now))) }
{
    match command {
        Sheets::AddSheet { .. } => Ok(Plan::Stays),
        Sheets::InsertSheet { .. } => Ok(Plan::Stays),
        Sheets::NewSheet => Ok(Plan::AddsSheet(model.new_sheet_name()?)),
        Sheets::DuplicateSheet { .. } => Ok(Plan::Stays),
        Sheets::RenameSheet { .. } => Ok(Plan::Stays),
        Sheets::RenameSheetByIndex { .. } => Ok(Plan::Stays),
        Sheets::MoveSheet { .. } => Ok(Plan::Stays),
        Sheets::DeleteSheet { .. } => Ok(Plan::Stays),
        Sheets::DeleteSheetByName { .. } => Ok(Plan::Stays),
        Sheets::DeleteSheetBySheetId { .. } => Ok(Plan::Stays),
        Sheets::GetNewSheetId => Ok(Plan::Goes),
        Sheets::GetWorksheetsProperties => Ok(Plan::Goes),
    }
}

/// What is to be done with one on definitions.
fn definitions_plan(
    model: &Model<'_>,
    command: &Definitions<'_>,
    target: &Target<'_>,
) -> Result<Plan, OutOfMemory>
    ensures { IfOk result (IsPlan target.now (whole_of model.now.book)
        (OnDefinitions (definitions_meant command.now))) }
{
    match command {
        Definitions::NewDefinedName { name, scope, body } => Ok(written(model.definition_to_add(
            name.as_str(),
            *scope,
            body.as_str(),
        )?)),
        Definitions::UpdateDefinedName { update } => Ok(written(model.definition_to_leave(
            update.name.as_str(),
            update.scope,
            update.new_name.as_str(),
            update.new_scope,
            update.body.as_str(),
            target,
        )?)),
        Definitions::DeleteDefinedName { .. } => Ok(Plan::Stays),
        Definitions::WouldCapture { .. } => Ok(Plan::Goes),
        Definitions::IsValidDefinedName { .. } => Ok(Plan::Goes),
        Definitions::GetDefinedNameList => Ok(Plan::Goes),
    }
}

/// What is to be done with one on the locale, the language and the zone.
fn notation_plan(command: &Notation<'_>) -> Plan
    ensures { (target : NotationState) (book : machine.Book)
        → IsPlan target book (OnNotation (notation_meant command.now)) result }
{
    match command {
        Notation::SetLocale { .. } => Plan::Runs,
        Notation::SetLanguage { .. } => Plan::Runs,
        Notation::SetTimezone { .. } => Plan::Stays,
        Notation::GetLocale => Plan::Goes,
        Notation::GetLanguage => Plan::Goes,
        Notation::GetTimezone => Plan::Goes,
        Notation::GetFmtSettings => Plan::Goes,
    }
}

/// What is to be done with one that writes a cell.
fn writing_plan(model: &Model<'_>, command: &Writing<'_>) -> Result<Plan, OutOfMemory>
    ensures { (target : NotationState) → IfOk result (IsPlan target (whole_of model.now.book)
        (OnWriting (writing_meant command.now))) }
{
    match command {
        Writing::SetUserInput {
            sheet,
            row,
            column,
            text,
        } => Ok(written(model.input_to_write(*sheet, *row, *column, text.as_str())?)),
        Writing::UpdateCellWithFormula {
            sheet,
            row,
            column,
            text,
        } => Ok(written(model.formula_to_write(*sheet, *row, *column, text.as_str())?)),
        Writing::UpdateCellWithText { .. } => Ok(Plan::Stays),
        Writing::UpdateCellWithBool { .. } => Ok(Plan::Stays),
        Writing::UpdateCellWithNumber { .. } => Ok(Plan::Stays),
    }
}

/// What is to be done with one on styles.
fn styles_plan(command: &Styles<'_>) -> Plan
    ensures { (target : NotationState) (book : machine.Book)
        → IsPlan target book (OnStyles (styles_meant command.now)) result }
{
    match command {
        Styles::GetCellStyleIndex { .. } => Plan::Goes,
        Styles::GetStyleForCell { .. } => Plan::Goes,
        Styles::GetCellStyleOrNone { .. } => Plan::Goes,
        Styles::SetColumnStyle { .. } => Plan::Stays,
        Styles::SetRowStyle { .. } => Plan::Stays,
        Styles::GetColumnStyle { .. } => Plan::Goes,
        Styles::GetRowStyle { .. } => Plan::Goes,
        Styles::DeleteColumnStyle { .. } => Plan::Stays,
        Styles::DeleteRowStyle { .. } => Plan::Stays,
    }
}

/// What is to be done with one on widths, heights and what is hidden.
fn layout_plan(command: &Layout) -> Plan
    ensures { (target : NotationState) (book : machine.Book)
        → IsPlan target book (OnLayout (layout_meant command.now)) result }
{
    match command {
        Layout::SetColumnWidth { .. } => Plan::Stays,
        Layout::SetRowHeight { .. } => Plan::Stays,
        Layout::GetColumnWidth { .. } => Plan::Goes,
        Layout::GetRowHeight { .. } => Plan::Goes,
        Layout::SetColumnHidden { .. } => Plan::Stays,
        Layout::SetRowHidden { .. } => Plan::Stays,
        Layout::IsColumnHidden { .. } => Plan::Goes,
        Layout::IsRowHidden { .. } => Plan::Goes,
    }
}

/// What is to be done with one on how a sheet is presented, or on the theme.
fn tabs_plan(command: &Tabs<'_>) -> Plan
    ensures { (target : NotationState) (book : machine.Book)
        → IsPlan target book (OnTabs (tabs_meant command.now)) result }
{
    match command {
        Tabs::SetTheme { .. } => Plan::Stays,
        Tabs::GetTheme => Plan::Goes,
        Tabs::SetFrozenRows { .. } => Plan::Stays,
        Tabs::SetFrozenColumns { .. } => Plan::Stays,
        Tabs::GetFrozenRowsCount { .. } => Plan::Goes,
        Tabs::GetFrozenColumnsCount { .. } => Plan::Goes,
        Tabs::SetSheetColor { .. } => Plan::Stays,
        Tabs::SetSheetState { .. } => Plan::Stays,
        Tabs::SetShowGridLines { .. } => Plan::Stays,
    }
}

/// What is to be done with one on arrays, spills and clearing.
fn arrays_plan(model: &Model<'_>, command: &Arrays<'_>) -> Result<Plan, OutOfMemory>
    ensures { (target : NotationState) → IfOk result (IsPlan target (whole_of model.now.book)
        (OnArrays (arrays_meant command.now))) }
{
    match command {
        Arrays::SetUserArrayFormula {
            sheet,
            row,
            column,
            width,
            height,
            text,
        } => Ok(written(model.array_to_write(
            *sheet,
            *row,
            *column,
            *width,
            *height,
            text.as_str(),
        )?)),
        Arrays::RangeClearContents { .. } => Ok(Plan::Stays),
        Arrays::RangeClearAll { .. } => Ok(Plan::Stays),
        Arrays::PutFormulaValue { .. } => Ok(Plan::Stays),
        Arrays::PutSpill { .. } => Ok(Plan::Stays),
    }
}

/// What is to be done with a command that writes this; one that is refused where there is none.
fn written(own: Option<OwnText>) -> Plan
    ensures { (target : NotationState) (book : machine.Book) (command : commands.Command)
        → is_dropped command ≡ false → IsToldWhere target book command own
        → IsPlan target book command result }
{
    match own {
        Some(own) => Plan::Writes(own),
        None => Plan::Goes,
    }
}
