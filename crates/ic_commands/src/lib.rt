//! Command lines answered: each is one step of the machine on the book, with its reply.
//!
//! `reply_in` carries it for the program, `reply_to_text` where the line is a part of a text, `reply_to` where the reply's
//! memory is new, `answer_line` for a caller that holds lines. A line of reply a command: the call that does it, told by its fields.
#![tactic(auto)]

mod answer;
mod told;

pub use answer::{answer_line, english_of, reply_in, reply_to, reply_to_text};
