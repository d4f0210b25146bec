ghost use Rattle.std.specs.Prelude.{◌≡◌, chars};
ghost use Rattle.ic_tree.specs.LanguageWords.{boolean_of, function_of};

use ic_laws::WordKind;
use ic_tables::{Language, find_word};

/// The number of the first function word of a language that a text agrees with.
#[tactic(auto, unfolding(crate::specs::LanguageWords::function_of))]
pub fn function_of(language: &Language, text: &str) -> Option<usize>
    ensures { result ≡ function_of language.now (chars text.now) }
{
    find_word(language, WordKind::Function, text)
}

/// 0 where a text agrees with a language's word for true, 1 where it does with the one for false.
#[tactic(auto, unfolding(crate::specs::LanguageWords::boolean_of))]
pub fn boolean_of(language: &Language, text: &str) -> Option<usize>
    ensures { result ≡ boolean_of language.now (chars text.now) }
{
    find_word(language, WordKind::Boolean, text)
}
