//! Bytes in, lines and bytes out: sources and sinks that tell their bytes and count their faults, the lines of a
//! source, and the escapes of words.
//!
//! `LineReader::next_line` gives the lines that `specs/Lines` of `ic_laws` finds in the bytes, whatever the pieces
//! in which they come. An error that speaks of a fault comes only where a count of faults shows one.
#![tactic(auto)]

mod error;
mod escapes;
mod law;
mod line;
mod memory;
mod reader;
mod sink;
mod source;
mod standard;
mod steady;
mod whole;
mod words;

pub use error::{Failed, RunError};
pub use escapes::{escape, push_escaped, unescape};
pub use law::law_lines;
pub use line::Line;
pub use memory::{MemorySink, MemorySource};
pub use reader::{LineReader, cut_return, first_line_feed, text_of};
pub use sink::{Sink, write_all};
pub use source::Source;
pub use standard::{StdSink, StdSource};
pub use steady::{SteadySink, SteadySource};
pub use whole::{read_all, read_lines};
pub use words::words_of;
