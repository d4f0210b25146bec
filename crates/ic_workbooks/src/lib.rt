//! Workbooks as plain records: what is asked of one that is handed in, the sheets and definitions that it stands for, and how the
//! texts of formulas are told back.
#![tactic(auto)]

pub mod asked;
pub mod filled;
pub mod handed_in;
pub mod numbered;
pub mod referring;
pub mod texts;
pub mod workbook;
