//! What the mentions of a formula print as: those of a spelled tree as they stand in it, those of a bound one by the names
//! that sheets and definitions have.
ghost use Rattle.std.specs.Prelude.{◌≡◌, ◌++◌, List, ℕ, Option, chars, string_bytes, OnOk};
ghost use Rattle.ic_laws.specs.Dialect.{DialectMeaning, reference_text};
ghost use Rattle.ic_laws.specs.Name.{quoted};
ghost use Rattle.ic_laws.specs.Yield.{sheet_name};
ghost use Rattle.ic_laws.specs.declared.tree.Tree.{Tree};
ghost use Rattle.ic_tree.specs.BoundText.{bound_text, sheet_in, word_in};
ghost use Rattle.ic_tree.specs.Printed.{IsByLevels, as_it_is, tree_text};
ghost use Rattle.ic_tree.specs.laws.LevelLaws.{bound_by_levels, spelled_by_levels};

use crate::spelling::digits_of;
use ic_laws::scan::push_text;
use ic_laws::{Dialect, Finder, NameMention, OutOfMemory, Place, SheetMention, Text, lent_name};
use ic_refs::push_quoted;
use std::alloc::Global;

/// What the sheets and the words of a formula print as. A formula is written by levels of these.
pub(crate) trait Mentions<S, W> {
    ghost name_of: { Self → S → Option (List ℕ) };

    ghost text_of: { Self → W → List ℕ };

    ghost written: { Self → DialectMeaning → Tree S W → List ℕ };

    /// Appends a reference to a place of a sheet.
    fn push_reference<D: Dialect>(
        &self,
        alloc: Global,
        d: &D,
        out: &mut String,
        sheet: &S,
        place: Place,
    ) -> Result<(), OutOfMemory>
        ensures { OnOk result (chars (string_bytes out.new) ≡ chars (string_bytes out.old)
            ++ reference_text (D.meaning d.now) (record {
              sheet = name_of self.now sheet.now;
              place = place;
            })) };

    /// Appends the name of a sheet, in quotes where it needs them; nothing where there is none.
    fn push_sheet(&self, alloc: Global, out: &mut String, sheet: &S) -> Result<(), OutOfMemory>
        ensures { OnOk result (chars (string_bytes out.new) ≡ chars (string_bytes out.old)
            ++ quoted (sheet_name (name_of self.now sheet.now))) };

    /// Appends a word.
    fn push_word(&self, out: &mut String, word: &W) -> Result<(), OutOfMemory>
        ensures { OnOk result (chars (string_bytes out.new) ≡ chars (string_bytes out.old)
            ++ text_of self.now word.now) };

    ghost levels: { (m : Self) → IsByLevels (name_of m) (text_of m) (written m) };
}

/// The mentions of a spelled tree: each as it stands in it.
#[derive(Clone, Copy)]
pub(crate) struct AsSpelled;

impl Mentions<Option<Text>, Text> for AsSpelled {
    ghost name_of = { λ m. as_it_is };

    ghost text_of = { λ m. as_it_is };

    ghost written = { λ m. tree_text };

    fn push_reference<D: Dialect>(
        &self,
        _alloc: Global,
        d: &D,
        out: &mut String,
        sheet: &Option<Text>,
        place: Place,
    ) -> Result<(), OutOfMemory> {
        d.push_ref(out, lent_name(sheet), place)
    }

    fn push_sheet(
        &self,
        _alloc: Global,
        out: &mut String,
        sheet: &Option<Text>,
    ) -> Result<(), OutOfMemory> {
        match sheet {
            None => Ok(()),
            Some(name) => push_quoted(out, name.as_str()),
        }
    }

    fn push_word(&self, out: &mut String, word: &Text) -> Result<(), OutOfMemory> {
        push_text(out, word.as_str())
    }

    ghost levels = { λ m. spelled_by_levels };
}

/// The mentions of a bound tree: each by the name that its sheet or its definition has at present.
#[derive(Drop)]
pub(crate) struct AtPresent<'n, N: Finder> {
    pub(crate) names: &'n N,
}

impl<'n, N: Finder> Mentions<SheetMention, NameMention> for AtPresent<'n, N> {
    ghost name_of = { λ m. sheet_in (N.scene m.names.now) };

    ghost text_of = { λ m. word_in (N.scene m.names.now) };

    ghost written = { λ m. bound_text (N.scene m.names.now) };

    fn push_reference<D: Dialect>(
        &self,
        alloc: Global,
        d: &D,
        out: &mut String,
        sheet: &SheetMention,
        place: Place,
    ) -> Result<(), OutOfMemory> {
        match sheet {
            SheetMention::Own => d.push_ref(out, None, place),
            SheetMention::Sheet(id) => match self.names.sheet_spelling(*id) {
                Some(name) => d.push_ref(out, Some(name), place),
                None => {
                    let digits = digits_of(alloc, *id)?;
                    d.push_ref(out, Some(digits.as_str()), place)
                }
            },
            SheetMention::Dangling(name) => d.push_ref(out, Some(name.as_ref().as_str()), place),
        }
    }

    fn push_sheet(
        &self,
        alloc: Global,
        out: &mut String,
        sheet: &SheetMention,
    ) -> Result<(), OutOfMemory> {
        match sheet {
            SheetMention::Own => Ok(()),
            SheetMention::Sheet(id) => match self.names.sheet_spelling(*id) {
                Some(name) => push_quoted(out, name),
                None => {
                    let digits = digits_of(alloc, *id)?;
                    push_quoted(out, digits.as_str())
                }
            },
            SheetMention::Dangling(name) => push_quoted(out, name.as_ref().as_str()),
        }
    }

    fn push_word(&self, out: &mut String, word: &NameMention) -> Result<(), OutOfMemory> {
        match word {
            NameMention::Var(word) => push_text(out, word.as_ref().as_str()),
            NameMention::Name(key) => match self.names.name_spelling(key.as_ref()) {
                Some(name) => push_text(out, name),
                None => push_text(out, key.as_ref().name.as_str()),
            },
            NameMention::Dangling(word) => push_text(out, word.as_ref().as_str()),
        }
    }

    ghost levels = { λ m. bound_by_levels (N.scene m.names.now) };
}
