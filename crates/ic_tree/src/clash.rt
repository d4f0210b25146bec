ghost use Rattle.std.specs.Prelude.{◌≡◌, ◌||◌, map};
ghost use Rattle.std.specs.List.{list_any};
ghost use Rattle.ic_laws.specs.Clash.{clashes_with, mentioned_name, one_clashes};
ghost use Rattle.ic_tree.specs.LanguageWords.{is_boolean_word, is_function_word};

use crate::language_words::{boolean_of, function_of};
use ic_laws::{Bound, LetPair, NameMention, SheetMention, Text, Tree};
use ic_tables::Language;

/// Whether a formula can't be written in a language: whether some word, variable or parameter in it agrees with the
/// language's word for true or false, or some called word with one of its function words.
#[cycle(clashes)]
pub fn clashes(tree: &Bound, language: &Language) -> bool
    ensures { result ≡ clashes_with (is_boolean_word language.now) (is_function_word language.now)
        tree.now }
{
    match tree {
        Tree::Word(word) => is_boolean(mentioned_name(word), language),
        Tree::Paren(x) => clashes(x.as_ref(), language),
        Tree::Prefix(_, x) => clashes(x.as_ref(), language),
        Tree::Percent(x) => clashes(x.as_ref(), language),
        Tree::Spill(x) => clashes(x.as_ref(), language),
        Tree::Binary(_, a, b) => clashes(a.as_ref(), language) || clashes(b.as_ref(), language),
        Tree::Fun(_, arguments) => one_clashes(arguments.as_slice(), language),
        Tree::Call(word, arguments) => {
            is_function(mentioned_name(word.as_ref()), language)
                || one_clashes(arguments.as_slice(), language)
        }
        Tree::Let(pairs, body) => {
            one_pair_clashes(pairs.as_slice(), language) || clashes(body.as_ref(), language)
        }
        Tree::Lambda(parameters, body) => {
            one_is_boolean(parameters.as_slice(), language) || clashes(body.as_ref(), language)
        }
        Tree::Apply(x, arguments) => {
            clashes(x.as_ref(), language) || one_clashes(arguments.as_slice(), language)
        }
        _ => false,
    }
}

/// Whether one of these formulas clashes.
#[cycle(clashes)]
fn one_clashes(trees: &[Bound], language: &Language) -> bool
    ensures { result ≡ one_clashes (map (clashes_with (is_boolean_word language.now)
        (is_function_word language.now)) trees.now) }
{
    for tree in trees {
        if clashes(tree, language) {
            return true;
        }
    }
    false
}

/// Whether one of these variables, or its value, clashes.
#[cycle(clashes)]
fn one_pair_clashes(pairs: &[LetPair<SheetMention, NameMention>], language: &Language) -> bool
    ensures { result ≡ one_clashes (map (λ pair. is_boolean_word language.now pair.variable
        || clashes_with (is_boolean_word language.now) (is_function_word language.now) pair.value)
        pairs.now) }
{
    for pair in pairs {
        if is_boolean(&pair.variable, language) || clashes(&pair.value, language) {
            return true;
        }
    }
    false
}

/// The name that a word stands for: as it was typed, or the folded name of the definition that was found.
fn mentioned_name(word: &NameMention) -> &Text
    ensures { result.now ≡ mentioned_name word.now }
{
    match word {
        NameMention::Var(word) => word.as_ref(),
        NameMention::Name(key) => &key.as_ref().name,
        NameMention::Dangling(word) => word.as_ref(),
    }
}

/// Whether a text agrees with the language's word for true or false.
fn is_boolean(text: &Text, language: &Language) -> bool
    ensures { result ≡ is_boolean_word language.now text.now }
{
    boolean_of(language, text.as_str()).is_some()
}

/// Whether a text agrees with a function word of the language.
fn is_function(text: &Text, language: &Language) -> bool
    ensures { result ≡ is_function_word language.now text.now }
{
    function_of(language, text.as_str()).is_some()
}

/// Whether one of these texts agrees with the language's word for true or false.
fn one_is_boolean(texts: &[Text], language: &Language) -> bool
    ensures { result ≡ list_any (is_boolean_word language.now) texts.now }
{
    texts.iter().any(|text| is_boolean(text, language))
}
