//! One workbook for many users, each in the language that they read: a line has a user's word before its command.
//!
//! `share` answers the lines of a source so on a book, and `share_desk` is what the program does with its words.
//! `law_leave_out` says that the lines of a user who only looks leave no trace,
//! `law_shared_stays_known` that all languages in force stay those of the tables.
#![tactic(auto)]

mod desk;
mod law;
mod line;
mod lines;
mod users;

pub use desk::share_desk;
pub use law::{law_leave_out, law_shared_stays_known};
pub use lines::share;
