//! The words of a language with their order: the word of a number, and the number of a word.
ghost use Rattle.std.specs.Prelude.{◌≡◌, MatchOption, bytes_eq, chars, find, option_map};
ghost use Rattle.std.specs.List.{slice_get};
ghost use Rattle.ic_laws.specs.declared.dialect.WordKind.TheVariants.{Error};
ghost use Rattle.ic_tables.specs.Order.{AreOrdered, BeginsWithFound, BeginsWithNone, OrdersWords};
ghost use Rattle.ic_tables.specs.Words.{first_agreeing, words_of};

use crate::order::{find_front, find_number};
use crate::{Language, WordOrder, word};
use ic_laws::WordKind;
use std::alloc::AllocError;

/// The words of a language, by number and by text. No look-up goes through all words of functions, and none needs
/// memory.
pub struct Words<'t> {
    pub language: &'t Language,
    order: &'t WordOrder,
    ghost ordered: { OrdersWords language.now order.now },
}

impl<'t> Clone for Words<'t> {
    fn clone(&self) -> Result<Words<'t>, AllocError> {
        Ok(*self)
    }
}

impl<'t> Copy for Words<'t> {}

impl<'t> Words<'t> {
    /// The words of a language, with the order of them.
    pub fn new(language: &'t Language, order: &'t WordOrder) -> Words<'t>
        requires { OrdersWords language.now order.now }
        ensures { result.language.now ≡ language.now }
    {
        Words { language, order }
    }

    /// The word of a kind at place `n`, from 0. None exactly where the language has no such word.
    pub fn word(&self, kind: WordKind, n: usize) -> Option<&'t str>
        ensures { option_map (λ w. chars w.now) result
            ≡ slice_get (words_of self.now.language.now kind) n }
    {
        word(self.language, kind, n)
    }

    /// The number of the first word of a kind that agrees with the whole text. None exactly where no word does.
    pub fn find(&self, kind: WordKind, text: &str) -> Option<usize>
        ensures { result ≡ first_agreeing (words_of self.now.language.now kind) (chars text.now) }
    {
        match kind {
            WordKind::Boolean => find_number(self.order.booleans.as_slice(), text),
            WordKind::Error => find_number(self.order.errors.as_slice(), text),
            WordKind::Function => find_number(self.order.functions.as_slice(), text),
        }
    }

    /// The error value whose word begins a text, by its number, and the rest of the text. None exactly where no front
    /// of the text agrees with such a word. It looks at no more of the text than such a word can have.
    pub fn find_error<'a>(&self, text: &'a str) -> Option<(usize, &'a str)>
        ensures { MatchOption result (BeginsWithNone
            (first_agreeing (words_of self.now.language.now Error)) (chars text.now))
            (λ p. BeginsWithFound (first_agreeing (words_of self.now.language.now Error))
            (chars text.now) (chars p.1.now) p.0) }
    {
        find_front(self.order.errors.as_slice(), text)
    }
}

/// The words of the language with this code, among languages with their orders.
pub fn words_among<'t>(
    languages: &'t [Language],
    orders: &'t [WordOrder],
    code: &str,
) -> Option<Words<'t>>
    requires { AreOrdered languages.now orders.now }
    ensures { option_map (λ w. w.language.now) result
        ≡ find (λ l. bytes_eq l.code (chars code.now)) languages.now }
{
    for (i, language) in languages.iter().enumerate() {
        if language.code.is(code) {
            return Some(Words::new(language, &orders[i]));
        }
    }
    None
}
