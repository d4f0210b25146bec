//! The whole machine, definitions and laws alone: what a book is, the 73 commands by subject, what refuses each, what each
//! leaves and what it replies.
//!
//! In `specs/`: `Book` and `Content` (what a book and a cell hold), `Valid` (what always holds of a book), `Word` and `Row`
//! (the words of command lines, and tables of commands), `Refusal` and `Reply`, `Changed` (what becomes of all formulas when
//! sheets or definitions change), `Capture` (what an update of a definition captures), `InForce` and `Format` (what the
//! notation in force makes of texts and amounts), `Placed`, `Styling`, `Line` and `Parsed` (indexes of formulas, numbers of
//! styles, rows and columns, names of cells), `subjects` (ten subjects: the commands of each with their words, refusals,
//! steps and kinds), `Action` and `Kinds` (the seven kinds of commands, and what each leaves), `Command` and `Step` (one table
//! and one step of all subjects), `Run` (runs of lines over any machine), `Core`, `Readers`, `Scene`, `Alike`, `Binds`, `Kept`,
//! `Retyped` and `Laws` (what the laws say), `Same`, `Translation` and `TranslationLaws` (books that are the same but for how
//! they are written and look, what lines become in another notation, and that these leave the same), `FormattedLaws` (that
//! amounts and dates are shown by the rules).
#![tactic(auto)]

mod law;

pub use law::{
    law_bad_line_stays, law_book_stays_valid, law_bound_is_named, law_cells_are_contents,
    law_cells_leave_names, law_copied_is_extended, law_core_is_stepped, law_core_lines_are_core,
    law_core_stays_valid, law_extended_is_same, law_formatted_by_rules, law_formula_is_placed,
    law_formula_is_stepped, law_kinds_tell_changes, law_names_are_first_free,
    law_numbers_are_small, law_readers_change_nothing, law_reference_is_written, law_refused_stays,
    law_retyped_stays, law_runs_shared, law_translation_keeps_book,
};
