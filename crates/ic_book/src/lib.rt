//! The workbook: `Model` holds the sheets of a book, with ids that outlive their names, and their formulas.
//!
//! `Model` keeps the parts of `ic_parts` and what always holds of them together; what a call does to one part stands there,
//! what it asks of a workbook in `ic_workbooks`, and what it does over many sheets in `ic_changes`.
//!
//! Contracts see a `Model` as the book of `ic_parts/specs/Book`, and for each sheet whether the look-up of its formulas has
//! all of them. What a command's call does is one clause, `does` (`ic_parts/specs/Does`): the step of the whole machine of
//! `ic_machine` on the whole book (`ic_parts/specs/Whole`: `whole_of`), and the fields of its reply; or the refusal of that
//! step, or want of memory, after which all is as it was. Beside it stand clauses for what becomes of mentions (`found`,
//! `binds`, `dangles`: `ic_parts/specs/Mentioned`) and for which look-ups of formulas are there (`looks_up`:
//! `ic_changes/specs/LookUps`).
#![tactic(auto)]

mod arrays;
mod cells;
mod content;
mod definitions;
mod extend;
mod formulas;
mod handed_in;
mod input;
mod inserted;
mod law;
mod layout;
mod lent;
mod line_styles;
mod markup;
mod mentioning;
mod model;
mod names;
mod new_sheets;
mod notation;
mod parts;
mod properties;
mod references;
mod settings;
mod sheet_changes;
mod sheet_copies;
mod styles;
mod tabs;
mod translation;
mod values;
mod workbook;

pub use ic_parts::{
    APP_VERSION, APPLICATION, BookError, IRONCALC_USER, MentionSite, NameIndex, Notation, OwnText,
    PlacedFormula, Why,
};
pub use ic_pool::Steps;
pub use law::{law_handed_in, law_whole_book, law_workbook};
pub use markup::Markup;
pub use model::Model;
