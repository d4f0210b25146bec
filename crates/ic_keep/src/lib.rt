//! Keeping formulas over a change of their book: what a rename, a new or a gone sheet, or an updated definition makes of a
//! formula that mentions them.
//!
//! `keep` writes a formula out with the names that things have after the change, and with those before where they are
//! gone, and binds it in the book after. So a reference to a renamed sheet follows it, one to a gone sheet dangles by the
//! name that the sheet had, and what dangled finds a sheet or a definition that is new. `keep_copy` makes the formulas of a
//! copied sheet likewise. For the update of a definition `is_touched` tells which formulas it can change, and `captured`
//! which of them have a word that then means another definition; neither takes memory. `would_capture` tells the latter
//! without what is kept of them.
#![tactic(auto)]

mod capture;
mod capturing;
mod change;
mod copying;
mod keeping;
mod rebinding;
mod touched;

pub use capture::{captured, captured_formula};
pub use capturing::would_capture;
pub use change::KeyChange;
pub use copying::{keep_copy, keep_copy_formula};
pub use keeping::{keep, keep_formula};
pub use touched::is_touched;
