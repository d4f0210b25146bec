//! CSV records as typed input: the fields of a file are typed into a sheet as a user of its notation would type them, all or
//! none.
//!
//! `import_csv` reads a whole source, looks at every field, and types all of them into a copy of the book, which then takes
//! the book's place. `import_desk` imports into a new book and writes its sheet as a table; it is what the program does with
//! its words.
#![tactic(auto)]

mod asked;
mod desk;
mod error;
mod import;
mod places;
mod records;
mod typing;

pub use desk::import_desk;
pub use error::ImportError;
pub use ic_refs::CellReferenceIndex;
pub use import::import_csv;
