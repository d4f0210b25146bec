//! What becomes of formulas and bodies where definitions come, get other names and bodies, and go.

pub mod parts;
pub mod remaking;
pub mod update;
