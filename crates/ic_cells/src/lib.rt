//! Cells and their values, styles, and the records of sheets and workbooks.
//!
//! A cell is of one of eight kinds (`Cell`). Which value it has, of which type that is, and which text it shows in a
//! language and a locale are the tables of `specs/Value` and `specs/Cell`: `Cell::value`, `Cell::get_type` and
//! `Cell::get_localized_text` answer exactly them. `Styles` is a list of styles in which no two are equal, the default one
//! first; `specs/Style` says where a style stands in it. `SharedStrings` is a list of texts in which none stands twice;
//! `specs/Strings` says where a text stands in it. The records of `Worksheet` and `Workbook` have public fields, whose
//! lists and maps contracts see as lists and finite maps.
#![tactic(auto)]

mod array_value;
mod cell;
mod key;
mod layout;
mod lent;
mod maps;
mod note;
mod sheet;
mod strings;
mod style;
mod styles;
mod text_places;
mod value;
mod workbook;

pub use array_value::ArrayValue;
pub use cell::{ArrayKind, Cell};
pub use layout::{
    ColumnProps, DEFAULT_COLUMN_WIDTH, DEFAULT_ROW_HEIGHT, Merge, RowProps, column_width,
    row_height,
};
pub use maps::{LineMap, Maker, PlaceMap};
pub use note::{ErrorNote, ErrorTexts};
pub use sheet::{CellIndex, SheetProperties, SheetState, Worksheet};
pub use strings::SharedStrings;
pub use style::{Color, Style};
pub use styles::Styles;
pub use value::{CellType, CellValue, FormulaValue, SpillValue, law_equal_values};
pub use workbook::{DefinedName, FmtSettings, Metadata, Theme, Workbook, WorkbookSettings};
