//! Languages from texts of words.
ghost use Rattle.std.specs.Prelude.{◌≡◌, IfOk, chars};
ghost use Rattle.ic_tables.specs.LanguageWords.{booleans_of, errors_of, language_in, numbered, with_parts};
ghost use Rattle.ic_tables.specs.WordList.{words_in};
ghost use Rattle.ic_tables.specs.Words.{words_of_booleans, words_of_errors};

use crate::word_list::words_in;
use crate::{Booleans, Errors, Functions, Language};
use ic_laws::{Items, OutOfMemory, Text};
use std::alloc::Global;

#[tactic(auto, unfolding(crate::specs::LanguageWords::language_in))]
impl Language {
    /// The language of these words, with one blank between two words of a text: the booleans true and false, the twelve
    /// error values by number, and the functions by number, of which the first four are LET, LAMBDA, TRUE and FALSE.
    /// None exactly where they aren't two words of booleans and twelve of error values.
    pub fn from_words(
        alloc: Global,
        code: &str,
        name: &str,
        booleans: &str,
        errors: &str,
        functions: &str,
    ) -> Result<Option<Language>, OutOfMemory>
        ensures { IfOk result (λ language. language
            ≡ language_in (chars code.now) (chars name.now) (chars booleans.now) (chars errors.now)
            (chars functions.now)) }
    {
        let name = Text::from_str(alloc, name)?;
        let code = Text::from_str(alloc, code)?;
        let functions = words_in(alloc, functions)?;
        let booleans = words_in(alloc, booleans)?;
        let errors = words_in(alloc, errors)?;
        Ok(with_parts(name, code, functions, booleans, errors))
    }
}

fn with_parts(
    name: Text,
    code: Text,
    functions: Vec<Text>,
    booleans: Vec<Text>,
    errors: Vec<Text>,
) -> Option<Language>
    ensures { result ≡ with_parts name code (numbered functions.items) (booleans_of booleans.items)
        (errors_of errors.items) }
{
    let booleans = booleans_of(booleans)?;
    let errors = errors_of(errors)?;
    Some(Language {
        name,
        code,
        booleans,
        errors,
        functions: numbered(functions),
    })
}

fn numbered(words: Vec<Text>) -> Functions
    ensures { result ≡ numbered words.items }
{
    Functions {
        words: Items::from(words),
        let_fn: 0,
        lambda_fn: 1,
        true_fn: 2,
        false_fn: 3,
    }
}

fn booleans_of(words: Vec<Text>) -> Option<Booleans>
    ensures { result ≡ booleans_of words.items }
{
    match <[Text; 2]>::try_from(words) {
        Ok(words) => Some(booleans_from(words)),
        Err(_) => None,
    }
}

fn booleans_from(words: [Text; 2]) -> Booleans
    ensures { words_of_booleans result ≡ words }
{
    let [true_word, false_word] = words;
    Booleans {
        true_word,
        false_word,
    }
}

fn errors_of(words: Vec<Text>) -> Option<Errors>
    ensures { result ≡ errors_of words.items }
{
    match <[Text; 12]>::try_from(words) {
        Ok(words) => Some(errors_from(words)),
        Err(_) => None,
    }
}

fn errors_from(words: [Text; 12]) -> Errors
    ensures { words_of_errors result ≡ words }
{
    let [
        ref_word,
        name,
        value,
        div,
        na,
        num,
        nimpl,
        spill,
        calc,
        circ,
        error,
        null,
    ] = words;
    Errors {
        ref_word,
        name,
        value,
        div,
        na,
        num,
        nimpl,
        spill,
        calc,
        circ,
        error,
        null,
    }
}
