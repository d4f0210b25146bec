//! A book as command lines, so that it is kept, compared and sent as text.
//!
//! `dump` tells the lines that rebuild the sheets of a book with their ids, its definitions and its formulas from a new book in
//! en, en and UTC. `specs/Lines` says which lines these are, stage by stage, `specs/Refused` which books have none, and
//! `specs/Rebuilds` what the lines do; `law_lines_rebuild` and `law_trees_have_lines` say so of every book. `dump_desk` writes them for the book that the lines of a source leave, and is what the
//! program does with its words.
#![tactic(auto)]

mod desk;
mod dumping;
mod english;
mod error;
mod formulas;
mod law;
mod lines;
mod passing;
mod refused;
mod scopes;
mod sheets;
mod stages;
mod standing;
mod taken;
mod told;
mod unfound;

pub use desk::dump_desk;
pub use dumping::dump;
pub use error::DumpError;
pub use ic_book::MentionSite;
pub use ic_laws::NameKey;
pub use ic_lines::Line;
pub use law::{law_lines_rebuild, law_trees_have_lines};
