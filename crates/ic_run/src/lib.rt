//! Runs of command lines: each line of a source answered into a sink, and all that the program does with its words.
//!
//! `run` carries the main promise: where it answers Ok over core lines, the replies that it appended are those of the
//! identity machine of `ic_laws`, and the book is the one that the machine leaves. For all lines it says the same of the
//! whole machine. `desk` gives that for the program's words; for the words `make SEED COUNT` it answers lines that are made
//! from the seed, and writes what the whole machine makes of them; for `translate LOCALE LANGUAGE` it writes what lines
//! become in another notation, which is `translate`'s answer. `book_after` reads all lines and answers them with no replies
//! kept, for programs that look at the book. `answer_each` is the loop of `run`, for whatever answers a line;
//! `words_given` and `moment` are what a program takes of its process.
#![tactic(auto)]

mod answering;
mod counts;
mod host;
mod lines;
mod made;
mod make;
mod plan;
mod prepared;
mod program;
mod retold;
mod start;
mod translating;
mod translation;

pub use answering::{Answers, answer_each};
pub use host::{moment, words_given};
pub use ic_book::Why;
pub use lines::{law_core_lines_are_done, run};
pub use make::written;
pub use prepared::book_after;
pub use program::{desk, status_of};
pub use start::{Start, english_book, first_book, start_named};
pub use translating::{TranslateError, translate};
