//! What a book is made of - its sheets and definitions, what finds them by name, the lists that cells refer to, the notation in
//! force - and what is done to one such part, or read from it, without the whole book.
#![tactic(auto)]

pub mod about;
pub mod arrays;
pub mod blocks;
pub mod cells;
pub mod content;
pub mod contents;
pub mod copies;
pub mod definitions;
pub mod error;
pub mod extend;
pub mod formulas;
pub mod in_force;
pub mod input;
pub mod lent;
pub mod lines;
pub mod lists;
pub mod markup;
pub mod names;
pub mod notation;
pub mod own_text;
pub mod properties;
pub mod references;
pub mod scene;
pub mod settings;
pub mod sheet_names;
pub mod sites;
pub mod styled;
pub mod tab;
pub mod taken_numbers;
pub mod translation;
pub mod values;
pub mod written;

pub use about::{APP_VERSION, APPLICATION, IRONCALC_USER};
pub use error::BookError;
pub use in_force::Notation;
pub use lent::PlacedFormula;
pub use names::NameIndex;
pub use own_text::{OwnText, Why};
pub use sites::MentionSite;
