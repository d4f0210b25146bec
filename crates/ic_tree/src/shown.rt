ghost use Rattle.std.specs.Prelude.{◌≡◌, ◌++◌, true, Some, None, chars, string_bytes, option_map, MatchOption, OnOk};
ghost use Rattle.std.specs.Option.{option_copied};
ghost use Rattle.ic_laws.specs.declared.dialect.WordKind.TheVariants as kinds;
ghost use Rattle.ic_refs.specs.A1.{is_shown_spellable};
ghost use Rattle.ic_tables.specs.Order.{BeginsWithFound, BeginsWithNone};
ghost use Rattle.ic_laws.specs.Dialect.{reference_to};
ghost use Rattle.ic_tree.specs.Shown.{SpeaksBeside, found_in, shown_text};

use crate::number::error_of;
use crate::stored::bytes_before;
use ic_laws::scan::push_text;
use ic_laws::{Dialect, Error, OutOfMemory, Place, RefToken, WordKind};
use ic_refs::{is_a1_place, is_written_name, push_a1_place, push_sheet, read_a1};
use ic_tables::{Language, Locale, Tables, Words};
use std::alloc::Global;

/// The shown form of formulas in a cell: the words of a language, and English ones where a text is none of them; the
/// separators of a locale; references as they are written in that cell, as `$B3`.
#[derive(Clone, Copy)]
pub struct Shown<'t> {
    words: Words<'t>,
    english: Words<'t>,
    // Whether decimals stand after a comma.
    is_comma: bool,
    row: i32,
    column: i32,
    ghost good: { SpeaksBeside words.language.now english.language.now },
}

impl<'t> Shown<'t> {
    ghost use Rattle.std.specs.Prelude.{codes};
    ghost use Rattle.ic_tables.specs.Tables.{language_of};
    ghost use Rattle.ic_tables.specs.Tables.{HasGoodFormats};
    ghost use Rattle.ic_tables.specs.Formats.{decimal_separator};
    ghost use Rattle.ic_tree.specs.Shown.{list_separator, shown_meaning};

    /// The shown form in a language and a locale, in the cell at this row and column, both from 1. Where the cell lies
    /// outside the sheet no reference is read, and each is spelled as the error word of `Error::REF`.
    ///
    /// The language is one of these tables, and the locale separates arguments and decimals by `,` and `.` or by `;`
    /// and `,`, as each locale of tables does.
    pub fn new(
        tables: &'t Tables,
        locale: &'t Locale,
        language: &'t Language,
        row: i32,
        column: i32,
    ) -> Shown<'t>
        requires language { language_of tables.now language.now.code ≡ Some language.now }
        requires locale { HasGoodFormats tables.now locale.now }
        ensures { option_map (λ english. shown_meaning language.now english
            (list_separator locale.now) (decimal_separator locale.now) row column)
            (language_of tables.now (codes "en")) ≡ Some (⟦<Shown<'t> as Dialect>⟧.meaning result) }
    {
        Shown {
            words: tables.get_words(language.code.as_str()).unwrap(),
            english: tables.get_default_words(),
            is_comma: locale.numbers.symbols.decimal.is(","),
            row,
            column,
        }
    }
}

// The number of the error whose word is at the front of a text, by the words of a language or else by English ones, and
// what stands after it.
fn find_error_in<'a>(
    words: &Words<'_>,
    english: &Words<'_>,
    text: &'a str,
) -> Option<(usize, &'a str)>
    ensures { MatchOption result (BeginsWithNone
        (found_in words.now.language.now english.now.language.now kinds.Error) (chars text.now))
        (λ p. BeginsWithFound (found_in words.now.language.now english.now.language.now kinds.Error)
        (chars text.now) (chars p.1.now) p.0) }
{
    match words.find_error(text) {
        Some(found) => Some(found),
        None => english.find_error(text),
    }
}

impl<'t> Dialect for Shown<'t> {
    ghost use Rattle.ic_tree.specs.Shown.{decimal_of, list_of, shown_meaning};
    ghost use Rattle.ic_tree.specs.laws.ShownLaws.{separators_of, shown_laws};

    ghost meaning = { λ d. shown_meaning d.words.language.now d.english.language.now (list_of d.is_comma) (decimal_of d.is_comma) d.row d.column };

    fn list(&self) -> char {
        if self.is_comma { ';' } else { ',' }
    }

    fn decimal(&self) -> char {
        if self.is_comma { ',' } else { '.' }
    }

    fn word(&self, kind: WordKind, n: usize) -> Option<&str> {
        self.words.word(kind, n)
    }

    fn find(&self, kind: WordKind, text: &str) -> Option<usize> {
        match self.words.find(kind, text) {
            Some(number) => Some(number),
            None => self.english.find(kind, text),
        }
    }

    fn find_error(&self, text: &str, at: usize) -> Option<(Error, usize)> {
        let Some((_, front)) = text.split_at_checked(at) else {
            return None;
        };
        let Some((number, rest)) = find_error_in(&self.words, &self.english, front) else {
            return None;
        };
        let Some(error) = error_of(number) else {
            return None;
        };
        Some((error, bytes_before(front, rest)))
    }

    fn let_fn(&self) -> usize {
        self.words.language.functions.let_fn
    }

    fn lambda_fn(&self) -> usize {
        self.words.language.functions.lambda_fn
    }

    fn read_ref(
        &self,
        alloc: Global,
        text: &str,
        at: usize,
    ) -> Result<Option<(RefToken, usize)>, OutOfMemory> {
        read_a1(alloc, text, at, self.row, self.column)
    }

    fn push_ref(
        &self,
        out: &mut String,
        sheet: Option<&str>,
        place: Place,
    ) -> Result<(), OutOfMemory> {
        if is_shown_place(sheet, place, self.row, self.column) {
            push_shown(out, sheet, place, self.row, self.column)
        } else {
            push_text(out, self.words.language.errors.ref_word.as_str())
        }
    }

    ghost laws = { λ d. shown_laws d.words.language.now d.english.language.now (list_of d.is_comma) (decimal_of d.is_comma) d.row d.column d.good (separators_of d.is_comma) };
}

// Whether a reference can be written in the cell at this row and column so that it is read back.
fn is_shown_place(sheet: Option<&str>, place: Place, row: i32, column: i32) -> bool
    ensures { result ≡ is_shown_spellable row column
        (reference_to (option_copied sheet.entry) place) }
{
    is_a1_place(place, row, column) && is_written_name(sheet)
}

// Appends a reference as it is written in the cell at this row and column.
fn push_shown(
    out: &mut String,
    sheet: Option<&str>,
    place: Place,
    row: i32,
    column: i32,
) -> Result<(), OutOfMemory>
    requires { is_shown_spellable row column (reference_to (option_copied sheet) place) ≡ true }
    ensures { OnOk result (chars (string_bytes out.new) ≡ chars (string_bytes out.old)
        ++ shown_text row column (reference_to (option_copied sheet.entry) place)) }
{
    push_sheet(out, sheet)?;
    push_a1_place(out, place, row, column)
}
