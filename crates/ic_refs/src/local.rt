ghost use Rattle.std.specs.Prelude.{◌≡◌, ◌++◌, ℕ, List, None, chars, drop, option_map, IfOk};
ghost use Rattle.ic_laws.specs.Scan.{IsEnd};
ghost use Rattle.ic_laws.specs.SheetText.{read_local};
ghost use Rattle.ic_refs.specs.Local.{FindsLocalAt, IsOtherWord};
ghost use Rattle.ic_refs.specs.Longest.{read_at};
ghost use Rattle.ic_refs.specs.Written.{name_of};

use crate::name::is_valid_identifier;
use crate::offset::{bytes_before, text_from};
use crate::sheet::find_sheet;
use crate::written::WrittenName;
use ic_laws::scan::{past_word, word_run};
use ic_laws::{OutOfMemory, Text};
use std::alloc::Global;

// A word with its sheet as it is written, and the rest.
#[derive(Clone, Copy)]
struct FoundLocal<'t> {
    sheet: WrittenName<'t>,
    word: &'t str,
    rest: &'t str,
}

// The word with its sheet at the front.
#[tactic(auto, unfolding(ic_laws::specs::SheetText::read_local))]
fn find_local(text: &str) -> Option<FoundLocal<'_>>
    ensures { option_map (λ f. ((name_of f.sheet, chars f.word.now), chars f.rest.now)) result
        ≡ read_local (chars text.now) }
{
    let (sheet, after) = find_sheet(text)?;
    let word = word_run(after);
    if !is_valid_identifier(word) {
        return None;
    }
    Some(FoundLocal {
        sheet,
        word,
        rest: past_word(after),
    })
}

// The word with its sheet that begins at a byte, with the clause that says it all.
fn read_named(
    alloc: Global,
    text: &str,
    at: usize,
) -> Result<Option<(Text, Text, usize)>, OutOfMemory>
    ensures { IfOk result (λ found. option_map (λ f. ((f.0, f.1), f.2)) found
        ≡ read_at read_local text.now at) }
{
    let Some(rest) = text_from(text, at) else {
        return Ok(None);
    };
    let Some(found) = find_local(rest) else {
        return Ok(None);
    };
    let sheet = found.sheet.name(alloc)?;
    let word = Text::from_str(alloc, found.word)?;
    Ok(Some((sheet, word, bytes_before(rest, found.rest))))
}

/// The word with its sheet, as `Sheet1!tax`, that begins at this byte of the text: the name of the sheet, the word and the
/// number of their bytes. The word is the whole run of word characters after the `!`, and an identifier. None where there
/// is none, past the end of the text, and inside a character.
pub fn read_local(
    alloc: Global,
    text: &str,
    at: usize,
) -> Result<Option<(Text, Text, usize)>, OutOfMemory>
    ensures exact { IfOk result (λ found. option_map (λ f. ((f.0, f.1), f.2)) found
        ≡ read_at read_local text.now at) }
    ensures finds { IfOk result (λ found. FindsLocalAt text.now at
        (option_map (λ f. ((f.0, f.1), f.2)) found)) }
    ensures apart { IfOk result (λ found. (front rest : List ℕ) → chars (drop at text.now)
        ≡ front ++ rest → IsOtherWord front → IsEnd rest → found ≡ None) }
{
    read_named(alloc, text, at)
}
