//! Changes over more than one sheet: the formulas and bodies that an update of a definition makes anew, copies of sheets, and what
//! mentions a sheet or a definition.
#![tactic(auto)]

pub mod definitions;
pub mod mentioning;
pub mod sheet_copies;
