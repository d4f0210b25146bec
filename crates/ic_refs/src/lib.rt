//! References and names: columns, the A1 form, the stored form and the R1C1 form of references, sheet names,
//! variables, identifiers and quoting.
//!
//! A reader gives the longest reference that begins at a byte, and what a speller gives is read back. The definitions
//! are in `specs/`: `A1` and `Stored` say how a reference is spelled, `FormulaForm` and `R1C1Form` what a whole text
//! refers to, `Longest` what a reader of a reference at a byte answers.
#![tactic(auto)]

mod a1;
mod a1_reference;
mod a1_text;
mod column;
mod equality;
mod error;
mod find;
mod formula;
mod law;
mod local;
mod name;
mod number;
mod offset;
mod r1c1;
mod r1c1_ends;
mod r1c1_part;
mod reference;
mod sheet;
mod stored;
mod stored_text;
mod trim;
mod written;

pub use a1_reference::{is_a1_place, push_a1_place, read_a1, spell_a1};
pub use column::{
    column_to_number, is_valid_column, is_valid_column_number, is_valid_row, number_to_column,
};
pub use equality::law_equal_references;
pub use error::{ColumnError, ReferenceError};
pub use formula::parse_reference_a1;
pub use law::law_spelled_references;
pub use local::read_local;
pub use name::{
    is_valid_a1_identifier, is_valid_identifier, is_valid_sheet_name, push_quoted, quote_name,
};
pub use reference::{A1Reference, Area, CellReferenceIndex, ParsedReference};
pub use sheet::{is_written_name, push_sheet};
pub use stored::read_rc;
pub use stored_text::{push_rc_place, spell_rc};
pub use trim::trimmed;
