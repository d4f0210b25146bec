//! What the words of the program ask for.
ghost use Rattle.std.specs.Prelude.{◌≡◌, [], ◌∷◌, chars, option_map};
ghost use Rattle.ic_run.specs.Desk.{texts};
ghost use Rattle.ic_audit.specs.Asked.{question, question_of};

use ic_laws::scan::same_text;
use ic_words::scope_said;

/// What is asked for: who mentions it.
#[derive(Drop)]
pub enum Asked<'w> {
    /// The sheet of this name.
    Sheet(&'w str),
    /// The definition of this name that is local to the sheet at an index, or to none.
    Name { name: &'w str, scope: Option<u32> },
}

/// What the words ask for: `sheet NAME`, or `name NAME SCOPE`, where the scope is the index of a sheet or `-`; no words are
/// `sheet Sheet1`. None where they are no stated form.
pub fn asked_for(words: &[String]) -> Option<Asked<'_>>
    ensures { option_map question result ≡ question_of (texts words.now) }
{
    if words.is_empty() {
        return Some(Asked::Sheet("Sheet1"));
    }
    if words.len() == 2 {
        return sheet_asked(words[0].as_str(), words[1].as_str());
    }
    if words.len() == 3 {
        return name_asked(words[0].as_str(), words[1].as_str(), words[2].as_str());
    }
    None
}

/// What two words ask for.
fn sheet_asked<'w>(kind: &str, name: &'w str) -> Option<Asked<'w>>
    ensures { option_map question result ≡ question_of (chars kind.now ∷ chars name.now ∷ []) }
{
    if !same_text(kind, "sheet") {
        return None;
    }
    Some(Asked::Sheet(name))
}

/// What three words ask for.
fn name_asked<'w>(kind: &str, name: &'w str, scope: &str) -> Option<Asked<'w>>
    ensures { option_map question result
        ≡ question_of (chars kind.now ∷ chars name.now ∷ chars scope.now ∷ []) }
{
    if !same_text(kind, "name") {
        return None;
    }
    let scope = scope_said(scope)?;
    Some(Asked::Name { name, scope })
}
