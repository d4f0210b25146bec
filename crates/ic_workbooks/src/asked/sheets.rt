//! What is asked of sheets that have got their formulas and cells: the conditions from the sixth to the twelfth. Each is
//! asked of all sheets before the next one is.
ghost use Rattle.std.specs.Prelude.{◌≡◌, ℕ, List, IfErr, MatchResult, OnOk};
ghost use Rattle.std.specs.Bool.{Decides};
ghost use Rattle.std.specs.List.{AllByRecursion};
ghost use Rattle.ic_tables.specs.Tables.{TableSet};
ghost use Rattle.ic_cells.specs.Style.{AreStyles};
ghost use Rattle.ic_machine.specs.Valid as valid;
ghost use Rattle.ic_workbooks.specs.Asked.{Breaks, MeetsTo, TellsFirst};
ghost use Rattle.ic_parts.specs.Book.{whole_tab};
ghost use Rattle.ic_workbooks.specs.Filled.{AreFilled, IsCountBelow, IsLaidOut, IsMet, sheet_number};

use crate::numbered::ask_strings;
use crate::referring::has_formulas;
use ic_cells::{Styles, Workbook};
use ic_laws::{Boxed, LAST_COLUMN, LAST_ROW};
use ic_parts::BookError;
use ic_sheets::{Sheet, Tab};

/// What is asked of one sheet.
#[derive(Clone, Copy)]
pub enum SheetCondition {
    /// Its cells lie in it.
    Places,
    /// The formula of each cell that has one is there, and its references lie in the sheet.
    Formulas,
    /// The styles that it names are there.
    Styles,
    /// Its arrays have their areas and spills.
    Arrays,
    /// Its merged cells meet no others and no array.
    Merges,
    /// Fewer rows and columns stay in sight than there are, and something was set for its own rows and columns alone.
    Layout,
}

impl SheetCondition {
    /// Its number among the twelve.
    fn number(self) -> u8
        ensures { result ≡ sheet_number self }
    {
        match self {
            SheetCondition::Places => 6,
            SheetCondition::Formulas => 7,
            SheetCondition::Styles => 9,
            SheetCondition::Arrays => 10,
            SheetCondition::Merges => 11,
            SheetCondition::Layout => 12,
        }
    }

    /// Whether a sheet meets it, where these are the styles.
    fn is_met(self, styles: &Styles, sheet: &Sheet) -> bool
        ensures { Decides result (IsMet self styles.now sheet.now) }
    {
        match self {
            SheetCondition::Places => sheet.grid.lies_in_sheet(),
            SheetCondition::Formulas => has_formulas(&sheet.pool, &sheet.grid.cells),
            SheetCondition::Styles => sheet.grid.is_styled(styles),
            SheetCondition::Arrays => sheet.grid.has_whole_arrays(),
            SheetCondition::Merges => sheet.grid.has_separate_merges(),
            SheetCondition::Layout => is_laid_out(sheet),
        }
    }
}

/// Asks for the conditions from the sixth on, one after another, of a workbook that meets those before: of the sheets that
/// its records make.
pub fn ask_sheets(workbook: &Workbook, sheets: &[Boxed<Sheet>]) -> Result<(), BookError>
    ensures met { OnOk result ((tables : TableSet) → (numbers : List ℕ)
        → AreFilled workbook.now tables numbers sheets.now
        → ((language : List ℕ) → MeetsTo 5 workbook.now language tables)
        → (language : List ℕ) → MeetsTo 12 workbook.now language tables) }
    ensures err { IfErr result (λ e. (tables : TableSet) → (numbers : List ℕ)
        → AreFilled workbook.now tables numbers sheets.now
        → ((language : List ℕ) → MeetsTo 5 workbook.now language tables)
        → TellsFirst workbook.now tables e) }
{
    let styles = &workbook.styles;
    ask_each(SheetCondition::Places, styles, sheets)?;
    ask_each(SheetCondition::Formulas, styles, sheets)?;
    let worksheets = workbook.worksheets.as_slice();
    ask_strings(worksheets, workbook.shared_strings.len())?;
    ask_styles(styles, sheets)?;
    ask_each(SheetCondition::Arrays, styles, sheets)?;
    ask_each(SheetCondition::Merges, styles, sheets)?;
    ask_each(SheetCondition::Layout, styles, sheets)?;
    Ok(())
}

/// Asks whether the styles that the sheets name are there; then gives how many there are.
fn ask_styles(styles: &Styles, sheets: &[Boxed<Sheet>]) -> Result<usize, BookError>
    ensures { MatchResult result
        (λ count. AreStyles styles.now
        × AllByRecursion (IsMet SheetCondition.Styles styles.now) sheets.now)
        (Breaks 9 (AllByRecursion (IsMet SheetCondition.Styles styles.now) sheets.now)) }
{
    ask_each(SheetCondition::Styles, styles, sheets)?;
    Ok(styles.len())
}

/// Asks whether each of these sheets meets a condition, where these are the styles.
fn ask_each(
    condition: SheetCondition,
    styles: &Styles,
    sheets: &[Boxed<Sheet>],
) -> Result<(), BookError>
    ensures { MatchResult result
        (λ done. AllByRecursion (IsMet condition styles.now) sheets.now)
        (Breaks (sheet_number condition)
        (AllByRecursion (IsMet condition styles.now) sheets.now)) }
{
    for sheet in sheets {
        if !condition.is_met(styles, sheet.as_ref()) {
            return Err(BookError::BadWorkbook(condition.number()));
        }
    }
    Ok(())
}

/// Whether fewer rows and columns of a sheet stay in sight than there are, and something was set for its own rows and
/// columns alone.
fn is_laid_out(sheet: &Sheet) -> bool
    ensures { Decides result (IsLaidOut sheet.now) }
{
    is_frozen(&sheet.tab) && sheet.grid.has_lines_in_sheet()
}

/// Whether fewer rows and columns stay in sight than there are.
fn is_frozen(tab: &Tab) -> bool
    ensures { Decides result (valid.IsFrozen (whole_tab tab.now)) }
{
    let rows = is_count_below(&tab.frozen_rows, LAST_ROW);
    let columns = is_count_below(&tab.frozen_columns, LAST_COLUMN);
    rows && columns
}

/// Whether a number is a count below another one.
fn is_count_below(count: &i32, last: i32) -> bool
    ensures { Decides result (IsCountBelow count.now last) }
{
    0 <= *count && *count < last
}
