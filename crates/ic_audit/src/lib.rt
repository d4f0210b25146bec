//! Who mentions a sheet or a definition, for someone who is about to delete it.
//!
//! `mentions_of_sheet` and `mentions_of_name` list the cells and the definitions whose formulas do, each once. `audit_desk`
//! answers that for the book that the lines of a source leave, and is what the program does with its words.
//! `law_sheet_gone` and `law_name_gone` say that a deletion changes the mentions at those places, and no others.
#![tactic(auto)]

mod asked;
mod desk;
mod error;
mod law;
mod mentions;
mod told;

pub use desk::audit_desk;
pub use error::AuditError;
pub use ic_book::MentionSite;
pub use law::{law_name_gone, law_sheet_gone};
pub use mentions::{mentions_of_name, mentions_of_sheet};
