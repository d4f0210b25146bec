//! An example, and no part of the workbook: a small evaluator on top of it.
//!
//! `evaluate` gives each formula of a book its value: numbers with `+ - * / %` and comparisons, `SUM` and `IF`, references to
//! cells and areas of any sheet, and definitions that are references. What it doesn't know is the error `NIMPL`, a circle
//! `CIRC`. Its clauses say what else of the book may change, nothing, and its only error, that memory ran out. `sums_desk` does
//! it for the book that the lines of a source leave, and is what the program does with its words.
#![tactic(auto)]

mod desk;
mod evaluation;
mod tree;
mod value;

pub use desk::sums_desk;
pub use evaluation::evaluate;
