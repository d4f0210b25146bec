//! What a user types and what it becomes: amounts, numbers with groups, currencies and percent signs, dates, booleans,
//! errors and formulas, by a locale and a language; and how an amount is shown by a format code.
//!
//! `specs/Typed` says what a text is typed as, by cases over whole texts, and the same as a function that goes over the
//! text once; `classify` carries both. `specs/Number` has numbers, `specs/Date` dates and their day numbers (by `jiff`),
//! `specs/Code` format codes, `specs/Formatted` what is shown by them (a relation, and `format_amount` says that no other
//! text is in it), `specs/Group` digits in threes, by which numbers are read and shown. The laws say that what is shown of
//! an amount or of a day is typed as it, and so are words of booleans and errors, texts and formulas (`specs/Again`); that
//! the function of typed texts answers what the rules say (`specs/Rules`); and that the day of a number is that many days
//! after 30 December 1899 (`specs/Counted`). That a locale is one of tables is a premise of the clauses that need it.
#![tactic(auto)]

mod amount;
mod code;
mod convention;
mod date;
mod digits;
mod format;
mod input;
mod kind;
mod law;
mod number;
mod push;
mod word;

pub use amount::{amount_text, read_amount};
pub use code::is_date_code;
pub use format::format_amount;
pub use input::{Typed, classify, formula_without_prefix, value_needs_quoting};
pub use kind::error_at;
pub use law::{
    law_amount_typed_again, law_date_typed_again, law_days_count_from, law_text_typed_again,
    law_typed_by_rules, law_word_typed_again,
};
