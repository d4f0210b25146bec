ghost use Rattle.std.specs.Prelude.{◌≡◌, ◌-◌, true, false, chars, drop, encode_utf8_all, length, MatchOption};
ghost use Rattle.ic_refs.specs.Longest.{is_char_boundary};

/// The text from this byte on. None past the end and inside a character.
#[tactic(auto, using(crate::proofs::OffsetLemmas::boundary_true, crate::proofs::OffsetLemmas::boundary_false))]
pub(crate) fn text_from(text: &str, at: usize) -> Option<&str>
    ensures { MatchOption result (is_char_boundary text.now at ≡ false)
        (λ rest. (is_char_boundary text.now at ≡ true) × (rest.now ≡ drop at text.now)) }
{
    let (_, rest) = text.split_at_checked(at)?;
    Some(rest)
}

/// How many bytes stand before this rest of the text.
pub(crate) fn bytes_before(text: &str, rest: &str) -> usize
    ensures { result ≡ length text.now - length (encode_utf8_all (chars rest.now)) }
{
    text.len().saturating_sub(rest.len())
}
