mod choice;
mod errors;
mod locals;
mod next;
mod numbers;
mod quoted;
mod references;
mod seen;
mod signs;
mod source;
mod words;

pub use next::next_token;
pub(crate) use references::reference_at;
pub use source::{Lexer, TextEnd};
