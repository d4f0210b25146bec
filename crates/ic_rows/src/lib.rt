//! The rows of a program that answers one call a line, for what a row can show: the name of the call and its words, each
//! after a tab and escaped as in command lines. The answer is one line: `none` for None, `error`, the variant's name and
//! its text for an error, otherwise the fields of what is answered, each after a tab. A line that is no such call is
//! answered `bad`, also one for which there is no memory. A line that begins with `#` is answered by itself, so that rows
//! can stand under a heading.
//!
//! A call takes the row, and puts its answer there. What fails is told to the row, which goes on with another value: no
//! call has an error to hand on, and none ends early over what it owns. No contract speaks of rows: they are the cases of
//! the crates whose calls they are.
#![tactic(auto)]

mod calls;
mod row;

pub use calls::{Calls, answer_rows};
pub use row::Row;
