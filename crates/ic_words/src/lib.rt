//! Command lines read into commands, and replies written: what the program and the book share.
//!
//! Each subject has one function that finds a name and makes its command of what the words after it say. Words are read
//! by their shape, and fields are written by one function each. A word is taken where it stands in its line, and only a
//! text with an escape and the text of a value are copied. What each reader answers is by the table of
//! `ic_machine/specs/Command`, both ways.
#![tactic(auto)]

mod choices;
mod command;
mod fields;
mod numbers;
mod reply;
mod styling;
mod text;
mod values;
mod word;
mod words;

pub use command::arrays::{Arrays, arrays_in};
pub use command::definitions::{DefinitionUpdate, Definitions, definitions_in};
pub use command::extending::{Extending, extending_in};
pub use command::layout::{Layout, layout_in};
pub use command::notation::{Notation, notation_in};
pub use command::reading::{Reading, reading_in};
pub use command::sheets::{Sheets, sheets_in};
pub use command::styles::{Styles, styles_in};
pub use command::subject::{Subject, subject_of};
pub use command::tabs::{Tabs, tabs_in};
pub use command::writing::{Writing, writing_in};
pub use command::{Command, Made, command_in};
pub use fields::Fields;
pub use numbers::{index_of, position_of, scope_said};
pub use reply::{REPLY_ROOM, error_reply, law_reply_room, named_reply, ok_reply};
pub use styling::{StyleWords, color_of};
pub use text::{WordText, text_of};
pub use values::ValueWords;
pub use word::Word;
pub use words::{Words, first_word};
