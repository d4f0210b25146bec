ghost use Rattle.std.specs.Prelude.{◌≡◌, ◌++◌, ◌≤ℤ◌, ℕ, List, pos, nat_abs, chars, encode_utf8_all, length, string_bytes, OnOk};
ghost use Rattle.std.specs.Option.{option_copied};
ghost use Rattle.ic_laws.specs.Dialect.{FindsErrorAt, reference_to};
ghost use Rattle.ic_laws.specs.Position.{is_part_within as part_within, is_place_within as place_within, is_within};
ghost use Rattle.ic_laws.specs.Scan.{EndsWith};
ghost use Rattle.ic_refs.specs.Stored.{is_stored_spellable as spellable, stored_text};
ghost use Rattle.ic_tree.specs.Stored.{SpeaksWell, stored_meaning};

use crate::number::error_of;
use ic_laws::scan::push_text;
use ic_laws::{
    Dialect, Error, LAST_COLUMN, LAST_ROW, OutOfMemory, Place, Position, RefPart, RefToken,
    WordKind,
};
use ic_refs::{is_written_name, push_rc_place, push_sheet, read_rc};
use ic_tables::{Tables, Words};
use std::alloc::Global;

/// The stored form of formulas: English words, `,` between arguments, `.` before decimals, and references with rows and
/// columns by number or by distance, as `R1C[-2]`.
#[derive(Clone, Copy)]
pub struct Stored<'t> {
    words: Words<'t>,
    ghost good: { SpeaksWell words.language.now },
}

impl<'t> Stored<'t> {
    ghost use Rattle.std.specs.Prelude.{◌≡◌, Some, codes, option_map};
    ghost use Rattle.ic_tables.specs.Tables.{language_of};
    ghost use Rattle.ic_tree.specs.Stored.{stored_meaning};

    /// The stored form with the English of these tables.
    #[tactic(auto, using(crate::specs::laws::StoredLaws::speaks_well))]
    pub fn new(tables: &'t Tables) -> Stored<'t>
        ensures { option_map stored_meaning (language_of tables.now (codes "en"))
            ≡ Some (⟦<Stored<'t> as Dialect>⟧.meaning result) }
    {
        Stored {
            words: tables.get_default_words(),
        }
    }
}

// Whether a row or a column is within a sheet of this length: by its number, or by its distance.
fn is_position_within(length: i32, p: Position) -> bool
    requires { pos 0 ≤ℤ length }
    ensures { result ≡ is_within (nat_abs length) p }
{
    match p {
        Position::Abs(n) => 1 <= n && n <= length,
        Position::Rel(k) => k.unsigned_abs() < length.unsigned_abs(),
    }
}

fn is_part_within(part: RefPart) -> bool
    ensures { result ≡ part_within part }
{
    is_position_within(LAST_ROW, part.row) && is_position_within(LAST_COLUMN, part.column)
}

fn is_place_within(place: Place) -> bool
    ensures { result ≡ place_within place }
{
    match place {
        Place::Cell(part) => is_part_within(part),
        Place::Range(first, last) => is_part_within(first) && is_part_within(last),
    }
}

// The error whose word begins at a byte, and how many bytes that word has.
fn find_error_at(words: &Words<'_>, text: &str, at: usize) -> Option<(Error, usize)>
    ensures { FindsErrorAt (stored_meaning words.now.language.now) text.now at result }
{
    let Some((_, front)) = text.split_at_checked(at) else {
        return None;
    };
    let Some((number, rest)) = words.find_error(front) else {
        return None;
    };
    let Some(error) = error_of(number) else {
        return None;
    };
    Some((error, bytes_before(front, rest)))
}

// How many bytes stand before this rest of a text.
pub fn bytes_before(text: &str, rest: &str) -> usize
    requires { EndsWith (chars text.now) (chars rest.now) }
    ensures { (front : List ℕ) → chars text.now ≡ front ++ chars rest.now → result
        ≡ length (encode_utf8_all front) }
{
    text.len() - rest.len()
}

impl<'t> Dialect for Stored<'t> {
    ghost use Rattle.ic_tree.specs.Stored.{stored_meaning};
    ghost use Rattle.ic_tree.specs.laws.StoredLaws.{stored_laws};

    ghost meaning = { λ d. stored_meaning d.words.language.now };

    fn list(&self) -> char {
        ','
    }

    fn decimal(&self) -> char {
        '.'
    }

    fn word(&self, kind: WordKind, n: usize) -> Option<&str> {
        self.words.word(kind, n)
    }

    fn find(&self, kind: WordKind, text: &str) -> Option<usize> {
        self.words.find(kind, text)
    }

    fn find_error(&self, text: &str, at: usize) -> Option<(Error, usize)> {
        find_error_at(&self.words, text, at)
    }

    fn let_fn(&self) -> usize {
        self.words.language.functions.let_fn
    }

    fn lambda_fn(&self) -> usize {
        self.words.language.functions.lambda_fn
    }

    fn read_ref(
        &self,
        alloc: Global,
        text: &str,
        at: usize,
    ) -> Result<Option<(RefToken, usize)>, OutOfMemory> {
        read_rc(alloc, text, at)
    }

    fn push_ref(
        &self,
        out: &mut String,
        sheet: Option<&str>,
        place: Place,
    ) -> Result<(), OutOfMemory> {
        if is_written_stored(sheet, place) {
            push_stored(out, sheet, place)
        } else {
            push_text(out, self.words.language.errors.ref_word.as_str())
        }
    }

    ghost laws = { λ d. stored_laws d.words.language.now d.good };
}

// Whether a reference can be written in the stored form so that it is read back.
fn is_written_stored(sheet: Option<&str>, place: Place) -> bool
    ensures { result ≡ spellable (reference_to (option_copied sheet.entry) place) }
{
    is_place_within(place) && is_written_name(sheet)
}

// Appends a reference in the stored form.
fn push_stored(out: &mut String, sheet: Option<&str>, place: Place) -> Result<(), OutOfMemory>
    ensures { OnOk result (chars (string_bytes out.new) ≡ chars (string_bytes out.old)
        ++ stored_text (reference_to (option_copied sheet.entry) place)) }
{
    push_sheet(out, sheet)?;
    push_rc_place(out, place)
}
