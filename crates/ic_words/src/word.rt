//! One word, by its form.
ghost use Rattle.std.specs.Prelude.{◌≡◌, ℕ, List, [], IfOk, OnErr, chars, option_map, refl};
ghost use Rattle.ic_machine.specs.Word.{OfAmount, OfBool, OfColor, OfFlag, OfIndex, OfPosition};
ghost use Rattle.ic_machine.specs.Word.{OfScope, OfState, OfText};
ghost use Rattle.ic_machine.specs.Word.{Said, WordForm, said};
ghost use Rattle.ic_words.specs.Words.{HasEscape, color_meant, word_said};

use crate::choices::{bool_in, flag_in, state_in};
use crate::numbers::{index_of, position_of, scope_said};
use crate::text::{WordText, text_of};
use ic_cells::SheetState;
use ic_input::read_amount;
use ic_laws::{Amount, OutOfMemory};
use std::alloc::Global;

/// A value that a word of one form says.
pub trait Word<'l>: Drop {
    ghost form: { WordForm };

    ghost says: { Self → Said form };

    // The English words of the error values don't matter.
    ghost plain: { (english : List (List ℕ)) (text : List ℕ) → said english form text ≡ said [] form text };

    /// The value that a word says; None where the word isn't of the form. Memory is asked for only where it has an escape.
    fn of(alloc: Global, word: &'l str) -> Result<Option<Self>, OutOfMemory>
        ensures exact { IfOk result
            (λ value. option_map says value ≡ word_said form (chars word.now)) }
        ensures memory { OnErr result (HasEscape (chars word.now)) };
}

impl<'l> Word<'l> for WordText<'l> {
    ghost form = { OfText };

    ghost says = { λ text. text };

    ghost plain = { λ english text. refl };

    fn of(alloc: Global, word: &'l str) -> Result<Option<WordText<'l>>, OutOfMemory> {
        text_of(alloc, word)
    }
}

impl<'l> Word<'l> for u32 {
    ghost form = { OfIndex };

    ghost says = { λ index. index };

    ghost plain = { λ english text. refl };

    fn of(_: Global, word: &'l str) -> Result<Option<u32>, OutOfMemory> {
        Ok(index_of(word))
    }
}

impl<'l> Word<'l> for i32 {
    ghost form = { OfPosition };

    ghost says = { λ position. position };

    ghost plain = { λ english text. refl };

    fn of(_: Global, word: &'l str) -> Result<Option<i32>, OutOfMemory> {
        Ok(position_of(word))
    }
}

impl<'l> Word<'l> for Option<u32> {
    ghost form = { OfScope };

    ghost says = { λ scope. scope };

    ghost plain = { λ english text. refl };

    fn of(_: Global, word: &'l str) -> Result<Option<Option<u32>>, OutOfMemory> {
        Ok(scope_said(word))
    }
}

impl<'l> Word<'l> for bool {
    ghost form = { OfBool };

    ghost says = { λ truth. truth };

    ghost plain = { λ english text. refl };

    fn of(alloc: Global, word: &'l str) -> Result<Option<bool>, OutOfMemory> {
        let Some(text) = text_of(alloc, word)? else {
            return Ok(None);
        };
        Ok(bool_in(text.as_str()))
    }
}

/// Whether a flag is set, which is said by `1` or `0`.
#[derive(Drop)]
pub(crate) struct Flag {
    pub(crate) set: bool,
}

impl<'l> Word<'l> for Flag {
    ghost form = { OfFlag };

    ghost says = { λ flag. flag.set };

    ghost plain = { λ english text. refl };

    fn of(alloc: Global, word: &'l str) -> Result<Option<Flag>, OutOfMemory> {
        let Some(text) = text_of(alloc, word)? else {
            return Ok(None);
        };
        match flag_in(text.as_str()) {
            Some(set) => Ok(Some(Flag { set })),
            None => Ok(None),
        }
    }
}

/// An amount, with a dot before its decimals.
impl<'l> Word<'l> for Amount {
    ghost form = { OfAmount };

    ghost says = { λ amount. amount };

    ghost plain = { λ english text. refl };

    fn of(alloc: Global, word: &'l str) -> Result<Option<Amount>, OutOfMemory> {
        let Some(text) = text_of(alloc, word)? else {
            return Ok(None);
        };
        Ok(read_amount(text.as_str(), '.'))
    }
}

impl<'l> Word<'l> for SheetState {
    ghost form = { OfState };

    ghost says = { λ state. state };

    ghost plain = { λ english text. refl };

    fn of(alloc: Global, word: &'l str) -> Result<Option<SheetState>, OutOfMemory> {
        let Some(text) = text_of(alloc, word)? else {
            return Ok(None);
        };
        Ok(state_in(text.as_str()))
    }
}

/// A color by its text, which stands where it is in its line; None where it is `-`.
impl<'l> Word<'l> for Option<WordText<'l>> {
    ghost form = { OfColor };

    ghost says = { color_meant };

    ghost plain = { λ english text. refl };

    fn of(alloc: Global, word: &'l str) -> Result<Option<Option<WordText<'l>>>, OutOfMemory> {
        let Some(text) = text_of(alloc, word)? else {
            return Ok(None);
        };
        if text.as_str() == "-" {
            return Ok(Some(None));
        }
        Ok(Some(Some(text)))
    }
}
