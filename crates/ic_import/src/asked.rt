//! What the words of the program ask for.
ghost use Rattle.std.specs.Prelude.{◌≡◌, [], ◌∷◌, chars, option_map};
ghost use Rattle.ic_run.specs.Desk.{texts};
ghost use Rattle.ic_import.specs.Desk.{target, target_of};

/// The notation that fields are typed in: the ids of a locale and a language.
#[derive(Drop)]
pub struct Asked<'w> {
    pub locale: &'w str,
    pub language: &'w str,
}

/// What the words ask for: a locale and a language, en and en where there are no words; None where they are neither.
pub fn asked_for(words: &[String]) -> Option<Asked<'_>>
    ensures { option_map target result ≡ target_of (texts words.now) }
{
    if words.is_empty() {
        return Some(Asked {
            locale: "en",
            language: "en",
        });
    }
    if words.len() == 2 {
        return notation(words[0].as_str(), words[1].as_str());
    }
    None
}

/// What two words ask for.
fn notation<'w>(locale: &'w str, language: &'w str) -> Option<Asked<'w>>
    ensures { option_map target result ≡ target_of (chars locale.now ∷ chars language.now ∷ []) }
{
    Some(Asked { locale, language })
}
