//! The sheets of a book with their cells and the formulas that they keep, found by their names without a search.
#![tactic(auto)]

mod mentioners;
mod records;
mod sheet;
mod sheets;
mod tab;

pub use records::{has_apart_names, sheets_of};
pub use sheet::{FormulaKind, Sheet};
pub use sheets::{Sheets, is_marked};
pub use tab::Tab;
