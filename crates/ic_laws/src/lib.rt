//! The words that every other crate's contracts use: texts, lists and boxes that contracts see as plain data, texts read
//! character by character, names, amounts, references, trees of formulas, dialects, the core book with the step of each
//! command, and the lines and replies of a run.
//!
//! The definitions are in `specs/`: `Character` (code points by name), `Scan` (characters and the runs of them), `Name`
//! (agreeing names, sheet names, variables, identifiers, quoting), `Position` (rows, columns, where a reference points),
//! `Amount` (numbers and their texts), `Longest` (what a reader of the longest answers), `CoreBook` and `CoreStep` (the
//! book and its steps), `Lines` (lines, words, escapes, commands, replies and whole runs).
//!
//! Those of formulas: `Dialect` (what a dialect means, and what always holds of it), `Token` (the tokens, what spells
//! each, and how a text falls into them), `Tree` (well-formed trees), `Yield` (the tokens of a tree), `Reading` (what it
//! means to read and to print), all of them relations; the same as functions, tied to them by proofs: `Split`,
//! `NextToken`, `TokenKinds` and `AmountFront` (the next token of a text, and all of them), `Parse` (the tree of a list of
//! tokens), `ReadAs` (the tree of a text); and `Following` (what may stand after a token).
//!
//! The laws of every dialect: `law_lexes_unique` (a text falls into tokens in one way at most), `law_yield_injective` (a
//! list of tokens is that of one tree at most), `law_lex_print` and `law_read_print` (the canonical text of a tree that
//! fits falls into its tokens, and reads as it), `law_read_as` (the function that reads texts answers just what the
//! relation says). The proofs are in `proofs/parsing`, `proofs/tokens` and `proofs/printing`.
//!
//! What a change of the sheets or the definitions does to formulas is in `Keeping` (formulas are written out with the names
//! after the change, and bound again) and, in the words of a user, in `Changes` (which mentions the change can change, and
//! to what) and `BookTrees` (all formulas of a book at once).
//!
//! The laws of books: `law_binding_settled` (what is bound stays when it is written and bound again), `law_stored_text`
//! (trees that a book keeps are equal where their stored texts are), `law_shown_text` (what is shown in a cell and typed
//! there again is the same formula), `law_steps_stay_valid` (an accepted command leaves a valid book valid); and, for each
//! command, just which mentions it changes, and to what: `law_add_sheet_binds`, `law_rename_binds`,
//! `law_delete_sheet_dangles`, `law_new_definition_binds`, `law_delete_definition_dangles`; and what stays: `law_settled_holds`,
//! `law_untouched_stays`, `law_rename_keeps`, `law_rename_back`, `law_move_keeps`, `law_notation_keeps`. The proofs are in
//! `proofs/binding`, `proofs/kept`, `proofs/keeping` and `proofs/core`.
#![tactic(auto)]

mod amount;
mod book_law;
mod boxed;
mod dialect;
mod equality;
mod items;
mod law;
mod memory;
mod name;
mod packed_place;
mod reference;
pub mod scan;
mod scene;
mod text;
mod tree;

pub use amount::{Amount, amount_spelling, push_amount, unsigned_amount};
pub use book_law::{
    law_add_sheet_binds, law_delete_definition_dangles, law_delete_sheet_dangles, law_move_keeps,
    law_new_definition_binds, law_notation_keeps, law_rename_back, law_rename_binds,
    law_rename_keeps, law_settled_holds, law_shown_text, law_steps_stay_valid, law_stored_text,
    law_untouched_stays,
};
pub use boxed::Boxed;
pub use dialect::{Dialect, WordKind};
pub use equality::law_equality;
pub use items::Items;
pub use law::{
    law_binding_settled, law_lex_print, law_lexes_unique, law_read_as, law_read_print,
    law_yield_injective,
};
pub use memory::OutOfMemory;
pub use name::agree;
pub use packed_place::PackedPlace;
pub use reference::{LAST_COLUMN, LAST_ROW, Place, Position, RefPart, RefToken, lent_name};
pub use scene::{Finder, NameSpelling, Scene, SheetName, find_local};
pub use text::Text;
pub use tree::{
    BinarySign, Bound, Constant, Error, Formula, LetPair, NameKey, NameMention, PrefixSign,
    SheetMention, Spelled, Tree,
};
