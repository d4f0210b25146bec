ghost use Rattle.std.specs.Prelude.{◌≡◌, ◌++◌, chars, string_bytes, option_map, IfOk, OnOk};
ghost use Rattle.std.specs.Option.{option_copied};
ghost use Rattle.ic_laws.specs.Longest.{read_at};
ghost use Rattle.ic_laws.specs.Dialect.{DialectMeaning, IsLawful, FindsErrorAt, reference_text, spelled_place};

use crate::{Error, OutOfMemory, Place, RefToken, lent_name};
use std::alloc::Global;

/// A list of words that a dialect has.
#[derive(Clone, Copy)]
pub enum WordKind {
    /// 0 is true, 1 is false.
    Boolean,
    /// By the number of `Error`.
    Error,
    /// By the number of the function.
    Function,
}

/// A way to write formulas: separators, words and references. `meaning` says what they
/// mean, and `laws` what holds of that.
pub trait Dialect {
    ghost meaning: { Self → DialectMeaning };

    /// The separator of arguments.
    fn list(&self) -> char
        ensures { result ≡ (meaning self.now).list };

    /// The decimal separator.
    fn decimal(&self) -> char
        ensures { result ≡ (meaning self.now).decimal };

    /// The word of a number, None where the list has no such number.
    fn word(&self, kind: WordKind, n: usize) -> Option<&str>
        ensures { option_map (λ w. chars w.now) result ≡ (meaning self.now).word kind n };

    /// The number of the word that the whole text agrees with.
    fn find(&self, kind: WordKind, text: &str) -> Option<usize>
        ensures { result ≡ (meaning self.now).find kind (chars text.now) };

    /// The error whose word begins at a byte, with the number of bytes of that word.
    fn find_error(&self, text: &str, at: usize) -> Option<(Error, usize)>
        ensures { FindsErrorAt (meaning self.now) text.now at result };

    /// The number of LET.
    fn let_fn(&self) -> usize
        ensures { result ≡ (meaning self.now).let_fn };

    /// The number of LAMBDA.
    fn lambda_fn(&self) -> usize
        ensures { result ≡ (meaning self.now).lambda_fn };

    /// The longest reference that begins at a byte, with its number of bytes.
    fn read_ref(
        &self,
        alloc: Global,
        text: &str,
        at: usize,
    ) -> Result<Option<(RefToken, usize)>, OutOfMemory>
        ensures { IfOk result (λ found. found ≡ read_at (meaning self.now).read_ref text.now at) };

    /// Appends a reference to a place of the sheet of this name, or, where there is none, of the formula's own sheet; the
    /// word of `Error::REF` for one that the dialect can't spell.
    fn push_ref(
        &self,
        out: &mut String,
        sheet: Option<&str>,
        place: Place,
    ) -> Result<(), OutOfMemory>
        ensures { OnOk result (chars (string_bytes out.new) ≡ chars (string_bytes out.old)
            ++ spelled_place (meaning self.now) (option_copied sheet.entry) place) };

    /// The text of a reference; the word of `Error::REF` for one that the dialect can't spell.
    fn spell_ref(&self, alloc: Global, r: &RefToken) -> Result<String, OutOfMemory>
        ensures { IfOk result (λ s. chars (string_bytes s)
            ≡ reference_text (meaning self.now) r.now) }
    {
        let mut text = String::new(alloc);
        self.push_ref(&mut text, lent_name(&r.sheet), r.place)?;
        Ok(text)
    }

    ghost laws: { (d : Self) → IsLawful (meaning d) };
}
