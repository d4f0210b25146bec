ghost use Rattle.std.specs.Prelude.{◌≡◌, ◌==◌, chars, option_and_then, slice_index};
ghost use Rattle.ic_laws.specs.Command.{index_said, position_said, scope_said};
ghost use Rattle.ic_laws.specs.Lines.{unescaped};

/// The index or the id that a word says: ASCII digits, with or without zeros in front, at most 4,294,967,295. None for
/// any other word.
pub fn index_of(word: &str) -> Option<u32>
    ensures exact { result ≡ index_said (chars word.now) }

    // No escape stands for a digit, so it is the same to read what the word spells.
    ensures spelled { result ≡ option_and_then index_said (unescaped (chars word.now)) }
{
    if has_plus(word) {
        return None;
    }
    word.parse::<u32>().ok()
}

/// The row, the column or the offset that a word says: ASCII digits, with or without zeros in front, after a minus
/// where it is below 0, from -2,147,483,648 to 2,147,483,647. None for any other word.
pub fn position_of(word: &str) -> Option<i32>
    ensures exact { result ≡ position_said (chars word.now) }

    // No escape stands for a digit or a minus, so it is the same to read what the word spells.
    ensures spelled { result ≡ option_and_then position_said (unescaped (chars word.now)) }
{
    if has_plus(word) {
        return None;
    }
    word.parse::<i32>().ok()
}

/// The scope that a word says: `-` for the whole book, which is the inner None, else the index of a sheet from 0, as
/// `index_of` reads it. None for any other word.
pub fn scope_said(word: &str) -> Option<Option<u32>>
    ensures exact { result ≡ scope_said (chars word.now) }

    // No escape stands for a digit or a minus, so it is the same to read what the word spells.
    ensures spelled { result ≡ option_and_then scope_said (unescaped (chars word.now)) }
{
    if word == "-" {
        return Some(None);
    }
    let index = index_of(word)?;
    Some(Some(index))
}

/// Whether a plus stands first, which no number has.
fn has_plus(word: &str) -> bool
    ensures { result ≡ (slice_index word.now 0 == 43) }
{
    word.starts_with('+')
}
