ghost use Rattle.std.specs.Prelude.{◌≡◌, ◌==◌, ◌∷◌, IfOk, bytes_eq, chars, codes, map, nat_lt, option_copied};
ghost use Rattle.std.specs.List.{list_all, list_any, slice_get};
ghost use Rattle.ic_laws.specs.Dialect.{has_error_shape, has_function_shape, is_sign};
ghost use Rattle.ic_laws.specs.Scan.{is_blank};
ghost use Rattle.ic_tables.specs.Tables.{error_words_in};
ghost use Rattle.ic_tables.specs.Words.{differ, error_words, has_boolean_words, has_error_words, has_function_words, has_stored_booleans, has_stored_functions, has_stored_words, is_text, named_numbers, numbers_functions, numbers_of, tells_booleans, tells_errors};

use crate::fold::{fold_onto, is_prefix_free, no_two_agree};
use crate::{Booleans, Functions, Language};
use ic_laws::scan::{begins_with_letter, first_char, has_word_characters, is_variable_form};
use ic_laws::{OutOfMemory, Text, agree};
use std::alloc::Global;

/// Whether each of so many functions has a word, and LET, LAMBDA, TRUE and FALSE have four numbers of functions.
#[tactic(auto, unfolding(crate::specs::Words::numbers_functions))]
pub fn numbers_functions(count: usize, language: &Language) -> bool
    ensures { result ≡ numbers_functions count language.now }
{
    let functions = &language.functions;
    functions.words.as_slice().len() == count
        && are_below(count, functions)
        && have_different_numbers(functions)
}

fn are_below(count: usize, functions: &Functions) -> bool
    ensures { result ≡ list_all (λ n. nat_lt n count) (numbers_of functions.now) }
{
    functions.let_fn < count
        && functions.lambda_fn < count
        && functions.true_fn < count
        && functions.false_fn < count
}

fn have_different_numbers(functions: &Functions) -> bool
    ensures { result ≡ differ (numbers_of functions.now) }
{
    let [a, b, c, d] = numbers(functions);
    a != b && a != c && a != d && b != c && b != d && c != d
}

/// Whether the four numbers are the same in both languages.
pub fn has_same_numbers(language: &Language, other: &Language) -> bool
    ensures { result ≡ bytes_eq (named_numbers language.now) (named_numbers other.now) }
{
    numbers(&language.functions) == numbers(&other.functions)
}

/// The numbers of LET, LAMBDA, TRUE and FALSE.
fn numbers(functions: &Functions) -> [usize; 4]
    ensures { result ≡ numbers_of functions.now }
{
    [
        functions.let_fn,
        functions.lambda_fn,
        functions.true_fn,
        functions.false_fn,
    ]
}

/// Whether a language has the words of formulas as they are stored.
#[tactic(auto, unfolding(crate::specs::Words::has_stored_words))]
pub fn has_stored_words(language: &Language) -> bool
    ensures { result ≡ has_stored_words language.now }
{
    has_stored_booleans(&language.booleans) && has_stored_functions(&language.functions)
}

fn has_stored_booleans(booleans: &Booleans) -> bool
    ensures { result ≡ has_stored_booleans booleans.now }
{
    booleans.true_word.is("TRUE") && booleans.false_word.is("FALSE")
}

fn has_stored_functions(functions: &Functions) -> bool
    ensures { result ≡ has_stored_functions functions.now }
{
    is_word_of(functions, functions.let_fn, "LET")
        && is_word_of(functions, functions.lambda_fn, "LAMBDA")
}

/// Whether the function of this number has a word, and it is this text.
fn is_word_of(functions: &Functions, number: usize, text: &str) -> bool
    ensures { result ≡ is_text (slice_get functions.now.words number) (chars text.now) }
{
    match functions.words.as_slice().get(number) {
        Some(word) => word.is(text),
        None => false,
    }
}

/// Whether the words of the booleans could be no references.
#[tactic(auto, unfolding(crate::specs::Words::has_boolean_words))]
pub fn has_boolean_words(language: &Language) -> bool
    ensures { result ≡ has_boolean_words language.now }
{
    is_variable_form(language.booleans.true_word.as_str())
        && is_variable_form(language.booleans.false_word.as_str())
}

/// Whether the words of the booleans don't agree.
#[tactic(auto, unfolding(crate::specs::Words::tells_booleans))]
pub fn tells_booleans(language: &Language) -> bool
    ensures { result ≡ tells_booleans language.now }
{
    !agree(
        language.booleans.true_word.as_str(),
        language.booleans.false_word.as_str(),
    )
}

/// Whether the functions' words look like names, and no two agree.
#[tactic(auto, unfolding(crate::specs::Words::has_function_words))]
pub fn has_function_words(alloc: Global, language: &Language) -> Result<bool, OutOfMemory>
    ensures { IfOk result (λ has. has ≡ has_function_words language.now) }
{
    let words = language.functions.words.as_slice();
    Ok(are_function_words(words) && no_two_agree(alloc, words)?)
}

fn are_function_words(words: &[Text]) -> bool
    ensures { result ≡ list_all has_function_shape words.now }
{
    words.iter().all(|word| has_function_shape(word.as_str()))
}

fn has_function_shape(word: &str) -> bool
    ensures { result ≡ has_function_shape (chars word.now) }
{
    begins_with_letter(word) && has_word_characters(word)
}

/// Whether the words of the error values look like such, and no two agree.
#[tactic(auto, unfolding(crate::specs::Words::has_error_words))]
pub fn has_error_words(alloc: Global, language: &Language) -> Result<bool, OutOfMemory>
    ensures { IfOk result (λ has. has ≡ has_error_words language.now) }
{
    let words = error_words(language);
    Ok(are_error_words(&words) && no_two_agree(alloc, &words)?)
}

fn are_error_words(words: &[&Text]) -> bool
    ensures { result ≡ list_all (λ w. has_error_shape w.now) words.now }
{
    words.iter().all(|word| has_error_shape(word.as_str()))
}

/// The words of the error values, in the order of their fields.
pub fn error_words(language: &Language) -> [&Text; 12]
    ensures { map (λ w. w.now) result ≡ error_words language.now }
{
    let errors = &language.errors;
    [
        &errors.ref_word,
        &errors.name,
        &errors.value,
        &errors.div,
        &errors.na,
        &errors.num,
        &errors.nimpl,
        &errors.spill,
        &errors.calc,
        &errors.circ,
        &errors.error,
        &errors.null,
    ]
}

fn has_error_shape(word: &str) -> bool
    ensures { result ≡ has_error_shape (chars word.now) }
{
    match first_char(word) {
        Some((c, rest)) => goes_on_as_error(c, rest),
        None => false,
    }
}

/// Whether the word of an error value may begin with this character and go on so.
fn goes_on_as_error(first: char, rest: &str) -> bool
    ensures { result ≡ has_error_shape (first ∷ chars rest.now) }
{
    match first_char(rest) {
        Some((c, _)) => first == '#' && !is_sign(c) && !is_blank(c),
        None => false,
    }
}

fn is_sign(c: char) -> bool
    ensures { result ≡ is_sign c }
{
    is_operator(c) || is_mark(c)
}

fn is_operator(c: char) -> bool
    ensures { result ≡ list_any (λ x. c == x) (codes "+-*/^&=<>%#@") }
{
    matches!(
        c,
        '+' | '-' | '*' | '/' | '^' | '&' | '=' | '<' | '>' | '%' | '#' | '@'
    )
}

fn is_mark(c: char) -> bool
    ensures { result ≡ list_any (λ x. c == x) (codes ",;.(){}\"'") }
{
    matches!(c, ',' | ';' | '.' | '(' | ')' | '{' | '}' | '"' | '\'')
}

fn is_blank(c: char) -> bool
    ensures { result ≡ is_blank c }
{
    matches!(c, ' ' | '\t' | '\n' | '\r')
}

/// Whether, folded, no word of an error value begins another, be they of this language or of English.
#[tactic(auto, unfolding(crate::specs::Words::tells_errors))]
pub fn tells_errors(
    alloc: Global,
    english: Option<&Language>,
    language: &Language,
) -> Result<bool, OutOfMemory>
    ensures { IfOk result (λ tells. tells ≡ tells_errors
        (error_words_in (option_copied english.entry)) language.now) }
{
    let mut folded = Vec::new(alloc);
    if let Some(english) = english {
        fold_onto(alloc, &mut folded, &error_words(english))?;
    }
    fold_onto(alloc, &mut folded, &error_words(language))?;
    Ok(is_prefix_free(folded.as_slice()))
}
