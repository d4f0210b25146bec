//! Command lines of their words.
ghost use Rattle.std.specs.Prelude.{List, ℕ, ◌≡◌, ◌∷◌, ◌++◌, IfOk, OnOk, chars, false, flat_map, map, string_bytes};
ghost use Rattle.std.specs.Fmt.{decimal, signed_decimal};
ghost use Rattle.ic_laws.specs.Character.{tab};
ghost use Rattle.ic_laws.specs.Lines.{escaped};
ghost use Rattle.ic_lines.specs.Reading.{has_line_feed};
ghost use Rattle.ic_machine.specs.Translation.{line_of};

use ic_laws::scan::push_char;
use ic_laws::{OutOfMemory, Text};
use ic_lines::{Line, push_escaped};
use std::alloc::Global;

/// The line whose words spell these texts. Only memory can be missing.
pub(crate) fn line_of(alloc: Global, texts: &[&str]) -> Result<Line, OutOfMemory>
    ensures { IfOk result (λ line. line ≡ line_of (map (λ t. chars t.now) texts.now)) }
{
    let text = joined(alloc, texts)?;
    Ok(whole(text))
}

/// Its text.
fn joined(alloc: Global, texts: &[&str]) -> Result<String, OutOfMemory>
    ensures { IfOk result (λ text. chars (string_bytes text)
        ≡ line_of (map (λ t. chars t.now) texts.now)) }
{
    let mut text = String::with_capacity(alloc, room_for(texts))?;
    let Some((first, others)) = texts.split_first() else {
        return Ok(text);
    };
    push_escaped(&mut text, first)?;
    push_others(&mut text, others)?;
    Ok(text)
}

/// The bytes that they take, with one behind each.
fn room_for(texts: &[&str]) -> usize {
    let mut room: usize = 0;
    for text in texts {
        room = room.saturating_add(text.len()).saturating_add(1);
    }
    room
}

/// Appends the words that spell these texts, each after a tab.
fn push_others(text: &mut String, others: &[&str]) -> Result<(), OutOfMemory>
    ensures { OnOk result (chars (string_bytes text.new) ≡ chars (string_bytes text.old)
        ++ flat_map (λ (t : List ℕ). tab ∷ escaped t) (map (λ t. chars t.now) others.now)) }
{
    for other in others {
        push_word(text, other)?;
    }
    Ok(())
}

/// Appends the word that spells a text, after a tab.
fn push_word(text: &mut String, word: &str) -> Result<(), OutOfMemory>
    ensures { OnOk result (chars (string_bytes text.new) ≡ chars (string_bytes text.old)
        ++ tab ∷ escaped (chars word.now)) }
{
    push_char(text, '\t')?;
    push_escaped(text, word)
}

/// The text as a line, which it is.
fn whole(text: String) -> Line
    requires { has_line_feed (chars (string_bytes text)) ≡ false }
    ensures { result ≡ chars (string_bytes text) }
{
    match Line::new(Text::from(text)) {
        Some(line) => line,
        None => unreachable!(),
    }
}

/// The decimal digits of a number. Only memory can be missing.
pub(crate) fn digits_of(alloc: Global, number: u64) -> Result<String, OutOfMemory>
    ensures { IfOk result (λ text. chars (string_bytes text) ≡ decimal number) }
{
    let mut text = String::new(alloc);
    write!(text, "{number}")?;
    Ok(text)
}

/// The decimal digits of a row or a column, after a minus where it is below 0. Only memory can be missing.
pub(crate) fn signed_digits_of(alloc: Global, number: i32) -> Result<String, OutOfMemory>
    ensures { IfOk result (λ text. chars (string_bytes text) ≡ signed_decimal number) }
{
    let mut text = String::new(alloc);
    write!(text, "{number}")?;
    Ok(text)
}
