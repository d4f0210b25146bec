//! Formulas as texts: the dialects of stored and of shown formulas, the reader that gives the tree of a text, and the
//! printer that gives the text of a tree. Reader and printer are written once, for every dialect, and the printer for every
//! kind of mentions. `bind` finds what a formula mentions, `spell` gives the spelled tree of a bound formula with the
//! names that things have, `print_bound` its text at once, and `spell_with` the tree that it has with any other names.
#![tactic(auto)]

mod binding;
mod clash;
mod constant;
mod copies;
mod dynamic;
mod in_scope;
mod language_words;
mod law;
mod lexer;
mod measured;
mod mentions;
mod near;
mod number;
mod printer;
mod reader;
mod reading;
mod settling;
mod shown;
mod spelling;
mod stored;
mod token;
mod tree_printer;

pub use binding::bind;
pub use clash::clashes;
pub use dynamic::is_dynamic;
pub use law::{
    law_body_reference, law_english_reads, law_language_settled, law_shown_reads,
    law_stored_formula, law_tokens_before,
};
pub(crate) use measured::Measured;
pub use reading::{read, read_reference, read_typed};
pub use settling::settle;
pub use shown::Shown;
pub use spelling::{Spelling, spell, spell_definition, spell_sheet, spell_with};
pub use stored::Stored;
pub(crate) use token::{Ahead, LocalWord, Token, TokenSource};
pub use tree_printer::{print, print_bound};
