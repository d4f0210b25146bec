//! Tables with the words of 497 functions in five languages.
//!
//! The first 42 functions are those of the sample tables, and so is all that isn't about functions: what the sample
//! tables find by a number or by a word, these find too. `src/rows` has a row for each function, `specs/All` says what
//! tables the rows make. `Tables` is well-formed by its type.
#![tactic(auto)]

mod columns;
mod languages;
mod places;
mod rows;
mod tables;

pub use tables::all_tables;
